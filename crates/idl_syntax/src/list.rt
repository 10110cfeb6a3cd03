//! What a line of the interface part lists: parameters and types.
ghost use Rattle.std.specs.Prelude.{◌≡◌, ℕ, ◌≤◌, List, length, OnOk};
ghost use Rattle.rl_text.specs.Reading.{Gives};
ghost use Rattle.idl_syntax.specs.Lines.{param_at, whole_type_at};

use crate::types::whole_type;
use rl_defs::idl::{Param, TypeText};
use rl_defs::lexeme::Mark;
use rl_text::cursor::{Cursor, Stop};
use rl_text::list::Item;
use std::alloc::Global;

// `NAME: TYPE`
#[tactic(auto, unfolding(crate::specs::Lines::param_at))]
fn param(alloc: Global, left: &mut Cursor<'_>) -> Result<Param, Stop>
    ensures { Gives (λ p. p) result left.new (param_at left.old) }
{
    let name = left.name()?;
    left.mark(Mark::Colon)?;
    let ty = whole_type(alloc, left)?;
    Ok(Param { name, ty })
}

/// A parameter of a method.
pub(crate) struct OneParam;

impl Item for OneParam {
    type Part = Param;

    ghost item_at = { param_at };

    fn read(alloc: Global, left: &mut Cursor<'_>) -> Result<Param, Stop>
        ensures gives { Gives (λ p. p) result left.new (param_at left.old) }
        ensures fewer { OnOk result (length left.new ≤ length left.old) }
    {
        param(alloc, left)
    }
}

/// A type.
pub(crate) struct OneType;

impl Item for OneType {
    type Part = TypeText;

    ghost item_at = { whole_type_at };

    fn read(alloc: Global, left: &mut Cursor<'_>) -> Result<TypeText, Stop>
        ensures gives { Gives (λ ty. ty) result left.new (whole_type_at left.old) }
        ensures fewer { OnOk result (length left.new ≤ length left.old) }
    {
        whole_type(alloc, left)
    }
}
