//! A hint, and how it is put together.

use crate::put::{put, put_number};
use crate::tokens::Token;
use std::alloc::{AllocError, Global};

/// Why a line is refused, as far as that is sure.
#[derive(Debug, Drop)]
pub struct Hint {
    /// The column of the place, from 1, or 0 where no place is sure.
    pub column: usize,
    /// How many bytes the place has.
    pub width: usize,
    /// The number of another line that has to do with it.
    pub other: Option<usize>,
    /// What was found and what was expected, each in a line.
    pub said: Vec<u8>,
}

impl Hint {
    /// Nothing is sure.
    pub fn new(alloc: Global) -> Hint {
        Hint {
            column: 0,
            width: 0,
            other: None,
            said: Vec::new(alloc),
        }
    }

    /// The place is that of a token.
    pub fn mark(&mut self, token: &Token<'_>) {
        self.column = token.column;
        self.width = token.text.len();
    }

    /// The place is that of the token at a place of a line, or right behind the last one.
    pub fn mark_at(&mut self, row: &[Token<'_>], place: usize) {
        match row.get(place) {
            Some(token) => self.mark(token),
            None => match row {
                [.., last] => {
                    self.column = last.column.saturating_add(last.text.len());
                    self.width = 1;
                }
                [] => {}
            },
        }
    }

    fn line(&mut self, begin: &[u8], pieces: &[&[u8]]) -> Result<(), AllocError> {
        put(&mut self.said, begin)?;
        'pieces: for piece in pieces {
            put(&mut self.said, piece)?;
        }
        put(&mut self.said, b"\n")
    }

    /// Says what was found.
    pub fn found(&mut self, pieces: &[&[u8]]) -> Result<(), AllocError> {
        self.line(b"found: ", pieces)
    }

    /// Says what was expected.
    pub fn expected(&mut self, pieces: &[&[u8]]) -> Result<(), AllocError> {
        self.line(b"expected: ", pieces)
    }

    /// Says what form the line is to have.
    pub fn form(&mut self, form: &[u8]) -> Result<(), AllocError> {
        self.line(b"the form is: ", &[form])
    }

    /// Names another line.
    pub fn see(&mut self, line: usize) {
        self.other = Some(line);
    }
}

/// The digits of a number.
pub fn digits(alloc: Global, number: usize) -> Result<Vec<u8>, AllocError> {
    let mut text = Vec::new(alloc);
    put_number(&mut text, number as u64)?;
    Ok(text)
}
