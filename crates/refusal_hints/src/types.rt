//! Rules 10 to 13: types that may not cross, and structs that hold too much.

use crate::case::{Case, Part, Seek, Span};
use crate::hint::{Hint, digits};
use crate::kinds::width;
use crate::tokens::{Token, at, find, is, is_name};
use std::alloc::AllocError;

// Why a type may not stand where it does.
#[derive(Clone, Copy, Debug, PartialEq, Eq)]
enum Bad {
    // It points into one domain.
    Private,
    // A loan or an interface in a field.
    InField,
    // A loan or an interface in an array.
    InArray,
}

// Why the type at a place may not stand there, if it may not.
fn bad_at(row: &[Token<'_>], place: usize, is_field: bool, in_array: bool) -> Option<Bad> {
    let next = place.saturating_add(1);
    match at(row, place) {
        b"Box" | b"Vec" | b"String" | b"*" | b"fn" => Some(Bad::Private),
        b"&" if is(row, next, b"RRef") || is(row, next, b"dyn") => {
            if is_field {
                Some(Bad::InField)
            } else if in_array {
                Some(Bad::InArray)
            } else {
                None
            }
        }
        b"&" if is(row, next, b"self") => None,
        b"&" => Some(Bad::Private),
        _ => None,
    }
}

// The first type of a line that may not stand there, by its place.
fn first_bad(row: &[Token<'_>], from: usize, is_field: bool) -> Option<(usize, Bad)> {
    let mut depth = 0usize;
    'places: for place in from..row.len() {
        if is(row, place, b"[") {
            depth = depth.saturating_add(1);
        }
        if is(row, place, b"]") {
            depth = depth.saturating_sub(1);
        }
        if let Some(why) = bad_at(row, place, is_field, depth > 0) {
            return Some((place, why));
        }
    }
    None
}

/// Rule 10: which type may not cross a domain boundary.
pub fn tell_private(case: &Case<'_>, hint: &mut Hint) -> Result<(), AllocError> {
    let row = &case.row;
    let is_field = !is(row, 0, b"fn");
    let from = if is_field {
        find(row, 0, b":").unwrap_or(0)
    } else {
        2
    };
    let Some((place, why)) = first_bad(row, from, is_field) else {
        return Ok(());
    };
    hint.mark_at(row, place);
    match why {
        Bad::Private => {
            hint.found(&[b"`", at(row, place), b"`, which points into one domain"])?;
            hint.expected(&[
                b"numbers, structs, arrays, `RRef<STRUCT>`, or, for a method, `&RRef<STRUCT>` and `&dyn TRAIT`",
            ])
        }
        Bad::InField => {
            hint.found(&[b"a reference in a field, though it ends with its call"])?;
            hint.expected(&[b"`RRef<STRUCT>`, or a number"])
        }
        Bad::InArray => {
            hint.found(&[b"a reference in an array"])?;
            hint.expected(&[b"a parameter for each of them"])
        }
    }
}

// The place of the name of the refused line's struct.
fn name_place(row: &[Token<'_>]) -> usize {
    if is(row, 0, b"pub") { 2 } else { 1 }
}

// The lines of the refused line's struct.
fn fields(case: &Case<'_>) -> Result<Span, AllocError> {
    case.block(Part::Interfaces, case.number, Seek::Close)
}

// The place of the struct that a field holds by value, in arrays or not.
fn held_by_value(row: &[Token<'_>]) -> Option<usize> {
    let colon = find(row, 0, b":")?;
    'places: for place in colon.saturating_add(1)..row.len() {
        if !is(row, place, b"[") {
            return if is_name(row, place) {
                Some(place)
            } else {
                None
            };
        }
    }
    None
}

// The fields that hold a struct by value.
#[derive(Clone, Copy, Debug)]
struct Inner {
    // The first that holds the struct itself, 0 where none does.
    own: usize,
    // The last of the others, and how many they are.
    last: usize,
    count: usize,
}

fn inner_of(case: &Case<'_>, name: &[u8]) -> Result<Inner, AllocError> {
    let span = fields(case)?;
    let mut inner = Inner {
        own: 0,
        last: 0,
        count: 0,
    };
    'fields: for number in span.from..span.to {
        let row = case.row_at(number)?;
        if let Some(place) = held_by_value(&row) {
            if at(&row, place) == name && inner.own == 0 {
                inner.own = number;
            }
            inner.last = number;
            inner.count = inner.count.saturating_add(1);
        }
    }
    Ok(inner)
}

/// Rule 11: by which field a struct holds itself.
pub fn tell_endless(case: &Case<'_>, hint: &mut Hint) -> Result<(), AllocError> {
    let place = name_place(&case.row);
    let name = at(&case.row, place);
    hint.mark_at(&case.row, place);
    let inner = inner_of(case, name)?;
    if inner.own != 0 {
        let line = digits(case.alloc, inner.own)?;
        hint.see(inner.own);
        hint.found(&[
            b"`",
            name,
            b"`, which line ",
            line.as_slice(),
            b" holds in itself",
        ])?;
    } else if inner.count == 1 {
        let line = digits(case.alloc, inner.last)?;
        hint.see(inner.last);
        hint.found(&[
            b"`",
            name,
            b"`, which has no end by its field in line ",
            line.as_slice(),
        ])?;
    }
    hint.expected(&[b"an `RRef` on the way, or a number that names the next one"])
}

// How many cells the fields have. None where that isn't said by their lines alone.
fn cells(case: &Case<'_>) -> Result<Option<u64>, AllocError> {
    let span = fields(case)?;
    let mut sum = 0u64;
    'fields: for number in span.from..span.to {
        let row = case.row_at(number)?;
        if let Some(colon) = find(&row, 0, b":") {
            match width(&row, colon.saturating_add(1), row.len()) {
                Some(count) => sum = sum.saturating_add(count),
                None => return Ok(None),
            }
        }
    }
    Ok(Some(sum))
}

/// Rule 12: how many cells a struct has.
pub fn tell_cells(case: &Case<'_>, hint: &mut Hint) -> Result<(), AllocError> {
    let place = name_place(&case.row);
    let name = at(&case.row, place);
    hint.mark_at(&case.row, place);
    if let Some(count) = cells(case)? {
        let count = digits(case.alloc, usize::try_from(count).unwrap_or(usize::MAX))?;
        hint.found(&[b"`", name, b"` with ", count.as_slice(), b" cells"])?;
    }
    hint.expected(&[b"at most 512 cells"])
}

// Whether a struct has a line with an `RRef`, by the line that opens it.
fn holds_objects(case: &Case<'_>, opener: usize) -> Result<bool, AllocError> {
    let span = case.block(Part::Interfaces, opener, Seek::Close)?;
    'fields: for number in span.from..span.to {
        let row = case.row_at(number)?;
        if find(&row, 0, b"RRef").is_some() {
            return Ok(true);
        }
    }
    Ok(false)
}

// Whether a field holds an `RRef` of a struct with an `RRef`.
fn is_deep(case: &Case<'_>, row: &[Token<'_>]) -> Result<bool, AllocError> {
    let Some(place) = find(row, 0, b"RRef") else {
        return Ok(false);
    };
    let name = at(row, place.saturating_add(2));
    match case.first(case.span(Part::Interfaces), Seek::Struct(name))? {
        Some(opener) => holds_objects(case, opener),
        None => Ok(false),
    }
}

// How many fields are looked into.
const MOST_FIELDS: usize = 64;

// The first field that holds an `RRef` of a struct with an `RRef`.
fn deep_field(case: &Case<'_>) -> Result<Option<usize>, AllocError> {
    let span = fields(case)?;
    let to = span.to.min(span.from.saturating_add(MOST_FIELDS));
    'fields: for number in span.from..to {
        let row = case.row_at(number)?;
        if is_deep(case, &row)? {
            return Ok(Some(number));
        }
    }
    Ok(None)
}

/// Rule 13: which field holds objects more than one deep.
pub fn tell_deep(case: &Case<'_>, hint: &mut Hint) -> Result<(), AllocError> {
    hint.mark_at(&case.row, name_place(&case.row));
    if let Some(number) = deep_field(case)? {
        let row = case.row_at(number)?;
        let place = find(&row, 0, b"RRef").unwrap_or(0);
        let line = digits(case.alloc, number)?;
        hint.see(number);
        hint.found(&[
            b"`RRef<",
            at(&row, place.saturating_add(2)),
            b">` in line ",
            line.as_slice(),
            b", whose struct holds an `RRef` itself",
        ])?;
    }
    hint.expected(&[b"objects that hang at most one deep"])
}
