//! The tokens of a line, with their bytes and their columns.

use rl_text::lexeme::Lexeme;
use rl_text::scan::{Next, next_token};
use rl_text::token::LONGEST_LINE;
use std::alloc::AllocError;

/// What a token is.
#[derive(Clone, Copy, Debug, PartialEq, Eq)]
pub enum Sort {
    /// A word that isn't reserved.
    Name,
    /// A reserved word.
    Key,
    Number(u64),
    Text,
    Mark,
}

/// A token: what it is, its bytes, and the column of its first byte, from 1.
#[derive(Clone, Copy, Debug)]
pub struct Token<'a> {
    pub sort: Sort,
    pub text: &'a [u8],
    pub column: usize,
}

/// The bytes from a place up to another one, as far as there are such bytes.
pub fn part(line: &[u8], start: usize, stop: usize) -> &[u8] {
    let stop = stop.min(line.len());
    let start = start.min(stop);
    &line[start..stop]
}

fn sort_of(lexeme: Lexeme) -> Sort {
    match lexeme {
        Lexeme::Word(_) => Sort::Name,
        Lexeme::Key(_) => Sort::Key,
        Lexeme::Number(n) => Sort::Number(n),
        Lexeme::Text { .. } => Sort::Text,
        Lexeme::Mark(_) => Sort::Mark,
    }
}

/// Puts the tokens of a line in place of what was there, as far as the line has tokens. A line that
/// is too long has none.
pub fn read<'a>(all: &mut Vec<Token<'a>>, line: &'a [u8]) -> Result<(), AllocError> {
    all.clear();
    if line.len() > LONGEST_LINE {
        return Ok(());
    }
    let mut at = 0usize;
    'tokens: for _ in 0..line.len() {
        match next_token(line, at.min(line.len())) {
            Next::Found(found) => {
                all.push(Token {
                    sort: sort_of(found.lexeme),
                    text: part(line, found.start, found.stop),
                    column: found.start.saturating_add(1),
                })?;
                at = found.stop;
            }
            _ => return Ok(()),
        }
    }
    Ok(())
}

/// The bytes of a token by its place, and none where there is no such token.
pub fn at<'a>(row: &[Token<'a>], place: usize) -> &'a [u8] {
    match row.get(place) {
        Some(token) => token.text,
        None => b"",
    }
}

/// Whether the token at a place has these bytes.
pub fn is(row: &[Token<'_>], place: usize, text: &[u8]) -> bool {
    at(row, place) == text
}

/// Whether the token at a place is a name.
pub fn is_name(row: &[Token<'_>], place: usize) -> bool {
    match row.get(place) {
        Some(token) => token.sort == Sort::Name,
        None => false,
    }
}

/// The number that the token at a place is.
pub fn number_at(row: &[Token<'_>], place: usize) -> Option<u64> {
    match row.get(place) {
        Some(token) => match token.sort {
            Sort::Number(n) => Some(n),
            _ => None,
        },
        None => None,
    }
}

/// The place of the first token with these bytes, from a place on.
pub fn find(row: &[Token<'_>], from: usize, text: &[u8]) -> Option<usize> {
    'tokens: for place in from..row.len() {
        if is(row, place, text) {
            return Some(place);
        }
    }
    None
}

/// The number of the register that a word is: `r0` to `r31`, in exactly this spelling.
pub fn register(word: &[u8]) -> Option<usize> {
    match word {
        [b'r', one] if one.is_ascii_digit() => Some(usize::from(one.saturating_sub(b'0'))),
        [b'r', ten, one] if (b'1'..=b'3').contains(ten) && one.is_ascii_digit() => {
            let number = usize::from(ten.saturating_sub(b'0')) * 10
                + usize::from(one.saturating_sub(b'0'));
            if number < 32 { Some(number) } else { None }
        }
        _ => None,
    }
}
