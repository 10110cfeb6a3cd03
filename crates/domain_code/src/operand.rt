//! What stands behind the word of a line.
ghost use Rattle.std.specs.Prelude.{◌≡◌, ℕ, List};
ghost use Rattle.rl_defs.specs.declared.lexeme.Mark.TheVariants as m;
ghost use Rattle.rl_text.specs.Reading.{Gives};
ghost use Rattle.domain_code.specs.Operands.{register_number, register_of, register_at, next_register_at, next_name_at, next_number_at};

use rl_defs::code::Register;
use rl_defs::lexeme::Mark;
use rl_defs::name::Name;
use rl_text::cursor::{Cursor, Stop};

/// How many registers there are.
const REGISTERS: u8 = 32;

// The number in the word of a register: one digit, or two of which the first is 1 to 3.
fn register_number(word: &[u8]) -> Option<u8>
    ensures { result ≡ register_number word.now }
{
    match word {
        [b'r', ones] => {
            if ones.is_ascii_digit() {
                return Some(*ones - b'0');
            }
            None
        }
        [b'r', tens, ones] => {
            if *tens >= b'1' && *tens <= b'3' && ones.is_ascii_digit() {
                return Some((*tens - b'0') * 10 + (*ones - b'0'));
            }
            None
        }
        _ => None,
    }
}

// The register of a word.
fn register_of(word: &[u8]) -> Option<Register>
    ensures { result ≡ register_of word.now }
{
    let number = register_number(word)?;
    if number < REGISTERS {
        return Some(Register { number });
    }
    None
}

/// A register.
#[tactic(auto, unfolding(crate::specs::Operands::register_at))]
pub(crate) fn register(left: &mut Cursor<'_>) -> Result<Register, Stop>
    ensures { Gives (λ r. r) result left.new (register_at left.old) }
{
    let name = left.name()?;
    match register_of(name.bytes()) {
        Some(register) => Ok(register),
        None => Err(Stop::NoForm),
    }
}

/// A register behind a comma.
#[tactic(auto, unfolding(crate::specs::Operands::next_register_at))]
pub(crate) fn next_register(left: &mut Cursor<'_>) -> Result<Register, Stop>
    ensures { Gives (λ r. r) result left.new (next_register_at left.old) }
{
    left.mark(Mark::Comma)?;
    register(left)
}

/// A name behind a comma.
#[tactic(auto, unfolding(crate::specs::Operands::next_name_at))]
pub(crate) fn next_name(left: &mut Cursor<'_>) -> Result<Name, Stop>
    ensures { Gives (λ n. n) result left.new (next_name_at left.old) }
{
    left.mark(Mark::Comma)?;
    left.name()
}

/// A number behind a comma.
#[tactic(auto, unfolding(crate::specs::Operands::next_number_at))]
pub(crate) fn next_number(left: &mut Cursor<'_>) -> Result<u64, Stop>
    ensures { Gives (λ n. n) result left.new (next_number_at left.old) }
{
    left.mark(Mark::Comma)?;
    left.number()
}
