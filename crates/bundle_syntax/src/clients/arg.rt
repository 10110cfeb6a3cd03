//! The arguments of a call.
ghost use Rattle.std.specs.Prelude.{◌≡◌, ℕ, ◌≤◌, List, length, OnOk};
ghost use Rattle.rl_text.specs.Reading.{Gives};
ghost use Rattle.bundle_syntax.specs.ClientLines.{lent_at, target_at, number_arg_at, name_arg_at, plain_at, arg_at};

use rl_defs::bundle::ScriptArgText;
use rl_defs::lexeme::Mark;
use rl_text::cursor::{Cursor, Stop};
use rl_text::list::Item;
use std::alloc::Global;

// `NAME`, behind its `&`.
fn lent(left: &mut Cursor<'_>) -> Result<ScriptArgText, Stop>
    ensures { Gives (λ a. a) result left.new (lent_at left.old) }
{
    let name = left.name()?;
    Ok(ScriptArgText::Lent(name))
}

// `TARGET`, behind its `@`.
fn target(left: &mut Cursor<'_>) -> Result<ScriptArgText, Stop>
    ensures { Gives (λ a. a) result left.new (target_at left.old) }
{
    let name = left.name()?;
    Ok(ScriptArgText::Target(name))
}

fn number(left: &mut Cursor<'_>) -> Result<ScriptArgText, Stop>
    ensures { Gives (λ a. a) result left.new (number_arg_at left.old) }
{
    let number = left.number()?;
    Ok(ScriptArgText::Num(number))
}

fn name(left: &mut Cursor<'_>) -> Result<ScriptArgText, Stop>
    ensures { Gives (λ a. a) result left.new (name_arg_at left.old) }
{
    let name = left.name()?;
    Ok(ScriptArgText::Name(name))
}

// A number or a name.
#[tactic(auto, unfolding(crate::specs::ClientLines::plain_at))]
fn plain(left: &mut Cursor<'_>) -> Result<ScriptArgText, Stop>
    ensures { Gives (λ a. a) result left.new (plain_at left.old) }
{
    if left.begins_number() {
        return number(left);
    }
    name(left)
}

// An argument.
#[tactic(auto, unfolding(crate::specs::ClientLines::arg_at))]
fn arg(left: &mut Cursor<'_>) -> Result<ScriptArgText, Stop>
    ensures { Gives (λ a. a) result left.new (arg_at left.old) }
{
    if left.skip_mark(Mark::Ampersand) {
        return lent(left);
    }
    if left.skip_mark(Mark::At) {
        return target(left);
    }
    plain(left)
}

/// An argument.
pub(crate) struct OneArg;

impl Item for OneArg {
    type Part = ScriptArgText;

    ghost item_at = { arg_at };

    fn read(_alloc: Global, left: &mut Cursor<'_>) -> Result<ScriptArgText, Stop>
        ensures gives { Gives (λ a. a) result left.new (arg_at left.old) }
        ensures fewer { OnOk result (length left.new ≤ length left.old) }
    {
        arg(left)
    }
}
