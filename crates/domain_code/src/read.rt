//! Reading a line of the domain part.
ghost use Rattle.std.specs.Prelude.{◌≡◌, ◌↔◌, ℕ, IsTrue};
ghost use Rattle.rl_defs.specs.DomainForms.{IsDomainLine, PlaceIsDecimal};
ghost use Rattle.rl_text.specs.Places.{text_of, IsWithin};
ghost use Rattle.rl_text.specs.Forms.{Reads};
ghost use Rattle.domain_code.specs.Decimals.{names_place};

use crate::form::whole_form;
use rl_defs::LoadFault;
use rl_defs::code::{DomainLine, Instr};
use rl_text::cursor::{Cursor, Stop};
use rl_text::decimal::has_decimals;
use rl_text::lexeme::{Lexeme, lexemes};
use rl_text::line::Line;
use std::alloc::Global;

// Whether a line names the place of a cell that is hung into, or taken from.
fn names_place(form: &DomainLine) -> bool
    ensures { result ≡ names_place form.now }
{
    match form {
        DomainLine::Code(instr) => match instr {
            Instr::Hang(_, _, _) => true,
            Instr::Unhang(_, _, _) => true,
            _ => false,
        },
        _ => false,
    }
}

// Whether the place that a line names, if it does, is written in decimal digits.
fn place_is_decimal(form: &DomainLine, bytes: &[u8], line: &Line) -> bool
    requires { IsWithin bytes.now line.now }
    ensures { IsTrue result ↔ PlaceIsDecimal form.now (text_of bytes.now line.now) }
{
    if names_place(form) {
        return has_decimals(bytes, line);
    }
    true
}

// The form of a line, if it has tokens. The buffer is for its lexemes.
pub(crate) fn read_form(
    alloc: Global,
    buffer: &mut Vec<Lexeme>,
    bytes: &[u8],
    line: &Line,
) -> Result<Option<DomainLine>, LoadFault>
    requires { IsWithin bytes.now line.now }
    ensures { Reads IsDomainLine line.now.number (text_of bytes.now line.now) result }
{
    lexemes(buffer, bytes, line)?;
    let all = buffer.as_slice();
    if all.is_empty() {
        return Ok(None);
    }
    let mut left = Cursor::new(line.text(bytes), all);
    match whole_form(alloc, &mut left) {
        Ok(form) => {
            if !place_is_decimal(&form, bytes, line) {
                return Err(LoadFault::refused(line.number, 1));
            }
            Ok(Some(form))
        }
        Err(Stop::NoForm) => Err(LoadFault::refused(line.number, 1)),
        Err(Stop::Memory) => Err(LoadFault::Memory),
    }
}
