//! Numbers that are written in decimal digits.
ghost use Rattle.std.specs.Prelude.{◌≡◌, ◌↔◌, ◌<◌, ◌≤◌, List, ℕ, IsTrue, length};
ghost use Rattle.std.specs.List.{list_all};
ghost use Rattle.std.specs.Char.{is_ascii_digit};
ghost use Rattle.rl_defs.specs.DomainForms.{IsDecimal, HasDecimals};
ghost use Rattle.rl_text.specs.Lexemes.{token_of};
ghost use Rattle.rl_text.specs.Places.{text_of, IsWithin};

use crate::lexeme::Lexeme;
use crate::line::Line;
use crate::scan::{Next, Scanned, next_token};
use crate::token::may_be_line;

fn are_digits(run: &[u8]) -> bool
    ensures { result ≡ list_all is_ascii_digit run.now }
{
    run.iter().all(|byte| byte.is_ascii_digit())
}

// Whether a token of a line is no number, or one in decimal digits.
fn is_decimal(text: &[u8], found: &Scanned) -> bool
    requires some { found.now.start < found.now.stop }
    requires within { found.now.stop ≤ length text.now }
    ensures { IsTrue result ↔ IsDecimal text.now (token_of text.now found.now.lexeme) found.now.start found.now.stop }
{
    match found.lexeme {
        Lexeme::Number(_) => are_digits(&text[found.start..found.stop]),
        Lexeme::Word(_) => true,
        Lexeme::Key(_) => true,
        Lexeme::Text { .. } => true,
        Lexeme::Mark(_) => true,
    }
}

/// Whether a line has tokens, and each number among them is written in decimal digits.
pub fn has_decimals(bytes: &[u8], line: &Line) -> bool
    requires { IsWithin bytes.now line.now }
    ensures { IsTrue result ↔ HasDecimals (text_of bytes.now line.now) }
{
    let text = line.text(bytes);
    if !may_be_line(text) {
        return false;
    }
    let mut at = 0;
    'line: loop {
        match next_token(text, at) {
            Next::End => return true,
            Next::Stray => return false,
            Next::Found(found) => {
                if !is_decimal(text, &found) {
                    return false;
                }
                at = found.stop;
            }
        }
    }
}
