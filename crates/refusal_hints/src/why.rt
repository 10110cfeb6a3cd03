//! Why a line is refused.

use crate::case::Case;
use crate::hint::Hint;
use crate::{code, forms, given, methods, order, plan, scripts, types, used};
use rl_defs::Refusal;
use rl_text::line::Line;
use std::alloc::{AllocError, Global};

/// Why a line of a bundle is refused by a rule, as far as that is sure, by the bundle's bytes and
/// lines. `AllocError` where memory ran out.
pub fn why(alloc: Global, bytes: &[u8], lines: &[Line], at: Refusal) -> Result<Hint, AllocError> {
    let mut hint = Hint::new(alloc);
    let case = Case::new(alloc, bytes, lines, at.line as usize)?;
    match at.rule {
        1 => forms::tell(&case, &mut hint)?,
        2 => order::tell(&case, &mut hint)?,
        3 => given::tell(&case, &mut hint)?,
        4 => used::tell(&case, &mut hint)?,
        10 => types::tell_private(&case, &mut hint)?,
        11 => types::tell_endless(&case, &mut hint)?,
        12 => types::tell_cells(&case, &mut hint)?,
        13 => types::tell_deep(&case, &mut hint)?,
        20 => methods::tell_result(&case, &mut hint)?,
        21 => methods::tell_lent(&case, &mut hint)?,
        22 => methods::tell_idempotent(&case, &mut hint)?,
        23 => methods::tell_many(&case, &mut hint)?,
        30..=37 => code::tell(&case, &mut hint, at.rule)?,
        40..=46 => plan::tell(&case, &mut hint, at.rule)?,
        50 => scripts::tell_fit(&case, &mut hint)?,
        51 => scripts::tell_gone(&case, &mut hint)?,
        _ => {}
    }
    Ok(hint)
}
