//! Lexemes: the tokens of a line, made ready for the readers of line forms.
ghost use Rattle.std.specs.Prelude.{◌≡◌, ℕ, List, map, length};
ghost use Rattle.rl_defs.specs.Refusals.{Answers};
ghost use Rattle.rl_defs.specs.Tokens.{FailsTokens, HasTokens};
ghost use Rattle.rl_text.specs.Lexemes.{token_of};
ghost use Rattle.rl_text.specs.Places.{text_of, IsWithin};

use crate::line::Line;
use crate::scan::{Next, are_line_bytes, next_token};
use crate::token::LONGEST_LINE;
use rl_defs::LoadFault;
use rl_defs::lexeme::{Key, Mark};
use rl_defs::name::Name;

/// A token of a line.
#[derive(Clone, Copy, Debug)]
pub enum Lexeme {
    /// A word that isn't reserved.
    Word(Name),
    /// A reserved word.
    Key(Key),
    Number(u64),
    /// A text, by the places in the line of its first byte and behind its last, without its quotes.
    Text { start: u32, end: u32 },
    Mark(Mark),
}

/// Puts the lexemes of a line, in order, in place of what the buffer held. The line is refused by
/// rule 1 exactly where it breaks a sentence on lines and tokens; the buffer then holds some
/// lexemes.
pub fn lexemes(all: &mut Vec<Lexeme>, bytes: &[u8], line: &Line) -> Result<(), LoadFault>
    requires { IsWithin bytes.now line.now }
    ensures { let text = text_of bytes.now line.now in
        Answers (FailsTokens line.now.number text) (λ _. HasTokens (map (token_of text) all.new.items) text) result }
{
    let text = line.text(bytes);
    all.clear();
    if text.len() > LONGEST_LINE {
        return Err(LoadFault::refused(line.number, 1));
    }
    // The bytes of tokens may stand in a line, so only those behind the last one are tested.
    let mut at = 0;
    'line: loop {
        match next_token(text, at) {
            Next::End => {
                let (_, rest) = text.split_at(at);
                if are_line_bytes(rest) {
                    return Ok(());
                }
                return Err(LoadFault::refused(line.number, 1));
            }
            Next::Stray => return Err(LoadFault::refused(line.number, 1)),
            Next::Found(found) => {
                all.push(found.lexeme)?;
                at = found.stop;
            }
        }
    }
}
