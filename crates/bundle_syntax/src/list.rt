//! What a line lists: names and numbers, read and written.
ghost use Rattle.std.specs.Prelude.{◌≡◌, ℕ, ◌≤◌, List, ◌++◌, length, OnOk};
ghost use Rattle.rl_defs.specs.IdlForms.{spell_more};
ghost use Rattle.rl_defs.specs.DomainForms.{spell_some};
ghost use Rattle.rl_defs.specs.BundleForms.{spell_name, spell_number};
ghost use Rattle.rl_text.specs.Reading.{Gives, name_at, number_at};

use rl_defs::lexeme::Mark;
use rl_defs::name::Name;
use rl_text::cursor::{Cursor, Stop};
use rl_text::list::Item;
use rl_text::render::Spelling;
use std::alloc::{AllocError, Global};

/// A name.
pub(crate) struct OneName;

impl Item for OneName {
    type Part = Name;

    ghost item_at = { name_at };

    fn read(_alloc: Global, left: &mut Cursor<'_>) -> Result<Name, Stop>
        ensures gives { Gives (λ n. n) result left.new (name_at left.old) }
        ensures fewer { OnOk result (length left.new ≤ length left.old) }
    {
        left.name()
    }
}

/// A number.
pub(crate) struct OneNumber;

impl Item for OneNumber {
    type Part = u64;

    ghost item_at = { number_at };

    fn read(_alloc: Global, left: &mut Cursor<'_>) -> Result<u64, Stop>
        ensures gives { Gives (λ n. n) result left.new (number_at left.old) }
        ensures fewer { OnOk result (length left.new ≤ length left.old) }
    {
        left.number()
    }
}

// Names, a comma before each.
fn put_more_names(out: &mut Spelling<'_>, names: &[Name]) -> Result<(), AllocError>
    ensures { OnOk result (out.new ≡ out.old ++ spell_more spell_name names.now) }
{
    'names: for name in names {
        out.mark(Mark::Comma)?;
        out.name(*name)?;
    }
    Ok(())
}

/// Puts names last, a comma between two of them.
pub(crate) fn put_names(out: &mut Spelling<'_>, names: &[Name]) -> Result<(), AllocError>
    ensures { OnOk result (out.new ≡ out.old ++ spell_some spell_name names.now) }
{
    match names {
        [] => Ok(()),
        [first, more @ ..] => {
            out.name(*first)?;
            put_more_names(out, more)
        }
    }
}

// Numbers, a comma before each.
fn put_more_numbers(out: &mut Spelling<'_>, numbers: &[u64]) -> Result<(), AllocError>
    ensures { OnOk result (out.new ≡ out.old ++ spell_more spell_number numbers.now) }
{
    'numbers: for number in numbers {
        out.mark(Mark::Comma)?;
        out.number(*number)?;
    }
    Ok(())
}

/// Puts numbers last, a comma between two of them.
pub(crate) fn put_numbers(out: &mut Spelling<'_>, numbers: &[u64]) -> Result<(), AllocError>
    ensures { OnOk result (out.new ≡ out.old ++ spell_some spell_number numbers.now) }
{
    match numbers {
        [] => Ok(()),
        [first, more @ ..] => {
            out.number(*first)?;
            put_more_numbers(out, more)
        }
    }
}
