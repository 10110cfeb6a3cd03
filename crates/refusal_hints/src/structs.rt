//! The cells of a struct, where the lines of its fields alone say them.

use crate::case::{Case, Part, Seek};
use crate::kinds::{Held, type_at, width};
use crate::tokens::{Token, find, is};
use std::alloc::AllocError;

/// A struct: the line that opens it, and what its cells hold.
#[derive(Debug, Drop)]
pub struct Cells<'a> {
    pub line: usize,
    pub cells: Vec<Held<'a>>,
}

// The place of the innermost type of a field, in arrays or not.
fn innermost(row: &[Token<'_>], from: usize) -> usize {
    'places: for place in from..row.len() {
        if !is(row, place, b"[") {
            return place;
        }
    }
    row.len()
}

// Puts the cells of a field. False where its line alone doesn't say them.
fn put_field<'a>(cells: &mut Vec<Held<'a>>, row: &[Token<'a>]) -> Result<bool, AllocError> {
    let Some(colon) = find(row, 0, b":") else {
        return Ok(true);
    };
    let from = colon.saturating_add(1);
    let held = type_at(row, innermost(row, from));
    let Some(count) = width(row, from, row.len()) else {
        return Ok(false);
    };
    if count > 512 || !held.is_sure() {
        return Ok(false);
    }
    'cells: for _ in 0..count {
        cells.push(held)?;
    }
    Ok(true)
}

/// The cells of the struct of a name. None where the lines of its fields alone don't say them.
pub fn cells_of<'a>(case: &Case<'a>, name: &[u8]) -> Result<Option<Cells<'a>>, AllocError> {
    let Some(line) = case.first(case.span(Part::Interfaces), Seek::Struct(name))? else {
        return Ok(None);
    };
    let block = case.block(Part::Interfaces, line, Seek::Close)?;
    let mut cells = Vec::new(case.alloc);
    'fields: for number in block.from..block.to {
        let row = case.row_at(number)?;
        if !put_field(&mut cells, &row)? {
            return Ok(None);
        }
    }
    Ok(Some(Cells { line, cells }))
}
