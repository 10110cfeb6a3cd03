//! Reading the interface part.
ghost use Rattle.std.specs.Prelude.{◌≡◌, ℕ, ◌+◌, ◌<◌, ◌^◌, List, map, length};
ghost use Rattle.rl_defs.specs.Refusals.{Answers};
ghost use Rattle.rl_defs.specs.IdlForms.{IsIdlLine};
ghost use Rattle.rl_defs.specs.IdlParts.{FailsIdlLine};
ghost use Rattle.rl_text.specs.Places.{text_of, IsWithin};

use crate::part::IdlPart;
use rl_defs::LoadFault;
use rl_defs::idl::IdlLine;
use rl_text::line::Line;
use rl_text::part::read_form;
use std::alloc::Global;

/// The form of a line, without its number. It is refused by rule 1 exactly where the line is no
/// form of the interface part; a line without tokens is none.
pub fn read_idl_line(alloc: Global, bytes: &[u8], line: &Line) -> Result<IdlLine, LoadFault>
    requires { IsWithin bytes.now line.now }
    ensures { let text = text_of bytes.now line.now in
        Answers (FailsIdlLine line.now.number text) (λ form. IsIdlLine form text) result }
{
    let mut buffer = Vec::new(alloc);
    match read_form::<IdlPart>(alloc, &mut buffer, bytes, line)? {
        Some(form) => Ok(form),
        None => Err(LoadFault::refused(line.number, 1)),
    }
}
