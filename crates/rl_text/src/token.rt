//! The tokens of a line, with their places.
ghost use Rattle.std.specs.Prelude.{◌≡◌, ℕ, ◌≤◌, ◌<◌, ◌^◌, length, List, ◌&&◌, nat_le};
ghost use Rattle.std.specs.List.{list_all};
ghost use Rattle.rl_defs.specs.Refusals.{Answers};
ghost use Rattle.rl_defs.specs.Tokens.{FailsTokens, is_line_byte};
ghost use Rattle.rl_text.specs.Lexemes.{token_of};
ghost use Rattle.rl_text.specs.Places.{text_of, IsWithin};
ghost use Rattle.rl_text.specs.TokenPlaces.{kind_of, AreTokens};

use crate::lexeme::Lexeme;
use crate::line::Line;
use crate::scan::{Next, are_line_bytes, next_token};
use rl_defs::LoadFault;
use std::alloc::Global;

/// The most bytes that a line may have, without what ends it.
pub const LONGEST_LINE: usize = 2048;

/// The kind of a token. A reserved word is a word.
#[derive(Clone, Copy, Debug, PartialEq, Eq)]
pub enum TokenKind {
    Word,
    Number(u64),
    Text,
    Mark,
}

/// A token of a text: its kind, and the places in the text of its first byte and behind its last.
#[derive(Clone, Copy, Debug, PartialEq, Eq)]
pub struct Token {
    pub kind: TokenKind,
    pub start: u32,
    pub end: u32,
}

/// The tokens of a line, in order. It is refused by rule 1 exactly where the line breaks a sentence
/// on lines and tokens.
pub fn tokens(alloc: Global, bytes: &[u8], line: &Line) -> Result<Vec<Token>, LoadFault>
    requires { IsWithin bytes.now line.now }
    ensures { Answers (FailsTokens line.now.number (text_of bytes.now line.now))
        (λ v. AreTokens bytes.now line.now v.items) result }
{
    let text = line.text(bytes);
    if !may_be_line(text) {
        return Err(LoadFault::refused(line.number, 1));
    }
    let mut all = Vec::new(alloc);
    let mut at = 0;
    'line: loop {
        match next_token(text, at) {
            Next::End => return Ok(all),
            Next::Stray => return Err(LoadFault::refused(line.number, 1)),
            Next::Found(found) => {
                let token = Token {
                    kind: kind_of(found.lexeme),
                    start: line.start + found.start as u32,
                    end: line.start + found.stop as u32,
                };
                all.push(token)?;
                at = found.stop;
            }
        }
    }
}

fn kind_of(lexeme: Lexeme) -> TokenKind
    ensures { (line : List ℕ) → result ≡ kind_of (token_of line lexeme) }
{
    match lexeme {
        Lexeme::Word(_) | Lexeme::Key(_) => TokenKind::Word,
        Lexeme::Number(n) => TokenKind::Number(n),
        Lexeme::Text { .. } => TokenKind::Text,
        Lexeme::Mark(_) => TokenKind::Mark,
    }
}

/// Whether a line is short enough, and each of its bytes may stand in a line.
pub(crate) fn may_be_line(text: &[u8]) -> bool
    ensures { result ≡ (nat_le (length text.now) 2048 && list_all is_line_byte text.now) }
{
    text.len() <= LONGEST_LINE && are_line_bytes(text)
}
