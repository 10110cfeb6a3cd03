//! Rules 20 to 23: methods.

use crate::case::Case;
use crate::hint::{Hint, digits};
use crate::kinds::{param_places, result_places, type_at, width};
use crate::tokens::{Token, at, find, is};
use std::alloc::AllocError;

/// Rule 20: what a method's result is.
pub fn tell_result(case: &Case<'_>, hint: &mut Hint) -> Result<(), AllocError> {
    let row = &case.row;
    match find(row, 0, b"->") {
        Some(arrow) => {
            let place = arrow.saturating_add(1);
            hint.mark_at(row, place);
            hint.found(&[b"a result that begins with `", at(row, place), b"`"])?;
            hint.expected(&[b"`RpcResult<..>` round it"])
        }
        None => {
            hint.mark_at(row, row.len().saturating_sub(1));
            hint.found(&[b"no result"])?;
            hint.expected(&[b"`-> RpcResult<()>` before the `;`"])
        }
    }
}

/// Rule 21: which loan or interface a method's result holds.
pub fn tell_lent(case: &Case<'_>, hint: &mut Hint) -> Result<(), AllocError> {
    let row = &case.row;
    let arrow = find(row, 0, b"->").unwrap_or(row.len());
    let Some(place) = find(row, arrow, b"&") else {
        return Ok(());
    };
    hint.mark_at(row, place);
    hint.found(&[b"`&", at(row, place.saturating_add(1)), b"` in the result"])?;
    hint.expected(&[b"an `RRef`, which passes the object along, or a number"])
}

// The place of the first parameter that is an object.
fn object_param(row: &[Token<'_>], places: &[usize]) -> Option<usize> {
    'places: for place in places {
        if type_at(row, *place).is_own() {
            return Some(*place);
        }
    }
    None
}

/// Rule 22: which object an idempotent method takes.
pub fn tell_idempotent(case: &Case<'_>, hint: &mut Hint) -> Result<(), AllocError> {
    let row = &case.row;
    if let Some(mark) = case.line_before()? {
        hint.see(mark);
    }
    let places = param_places(case.alloc, row)?;
    match object_param(row, &places) {
        Some(place) => {
            let name = at(row, place.saturating_add(2));
            hint.mark_at(row, place);
            hint.found(&[b"`RRef<", name, b">`, which passes an object along"])?;
            hint.expected(&[
                b"a loan `&RRef<",
                name,
                b">`, or no `#[idempotent]` before the method",
            ])
        }
        None => hint.expected(&[
            b"loans in place of objects, or no `#[idempotent]` before the method",
        ]),
    }
}

// How many kinds the types at these places flatten to, of which the last ends before a place.
fn count(row: &[Token<'_>], places: &[usize], end: usize) -> Option<u64> {
    let mut sum = 0u64;
    'places: for k in 0..places.len() {
        let to = match places.get(k.saturating_add(1)) {
            Some(next) => *next,
            None => end,
        };
        let to = behind_type(row, to, k.saturating_add(1) < places.len());
        sum = sum.saturating_add(width(row, places[k], to)?);
    }
    Some(sum)
}

// Where a type ends that another one follows: before the comma, the next name and its colon, or
// before the comma.
fn behind_type(row: &[Token<'_>], next: usize, followed: bool) -> usize {
    if !followed {
        return next;
    }
    if is(row, next.saturating_sub(1), b":") {
        return next.saturating_sub(2);
    }
    next.saturating_sub(1)
}

// Says how many there are, where that is too many.
fn tell_count(
    case: &Case<'_>,
    hint: &mut Hint,
    count: Option<u64>,
    most: u64,
    what: &[u8],
) -> Result<bool, AllocError> {
    match count {
        Some(count) if count > most => {
            let count = digits(case.alloc, usize::try_from(count).unwrap_or(usize::MAX))?;
            let most = digits(case.alloc, usize::try_from(most).unwrap_or(usize::MAX))?;
            hint.found(&[
                count.as_slice(),
                b" ",
                what,
                b", each number, object and reference counted",
            ])?;
            hint.expected(&[
                b"at most ",
                most.as_slice(),
                b": put numbers into a struct, and pass an `RRef` of it",
            ])?;
            Ok(true)
        }
        _ => Ok(false),
    }
}

/// Rule 23: how many parameters or results a method has.
pub fn tell_many(case: &Case<'_>, hint: &mut Hint) -> Result<(), AllocError> {
    let row = &case.row;
    hint.mark_at(row, 1);
    let arrow = find(row, 0, b"->").unwrap_or(row.len());
    let params = param_places(case.alloc, row)?;
    if tell_count(case, hint, count(row, &params, arrow), 8, b"parameters")? {
        return Ok(());
    }
    let results = result_places(case.alloc, row)?;
    if tell_count(case, hint, count(row, &results, row.len()), 4, b"results")? {
        return Ok(());
    }
    hint.expected(&[
        b"at most 8 parameters and 4 results, each number, object and reference counted",
    ])
}
