//! What methods take and return, and what registers and names of scripts hold, as far as one line
//! says it.

use crate::case::{Case, Part, Seek};
use crate::tokens::{Token, at, find, is, is_name, number_at};
use std::alloc::{AllocError, Global};

/// What is held.
#[derive(Clone, Copy, Debug)]
pub enum Held<'a> {
    Nothing,
    /// A number, with the word of its width, which is empty for a register.
    Number(&'a [u8]),
    /// An own object of this struct.
    Own(&'a [u8]),
    /// A lent object of this struct.
    Lent(&'a [u8]),
    /// A reference to an interface of this trait.
    Interface(&'a [u8]),
    /// It isn't known here.
    Unsure,
}

impl<'a> Held<'a> {
    /// Whether it is known.
    pub fn is_sure(self) -> bool {
        !matches!(self, Held::Unsure)
    }

    /// Whether it is an own object.
    pub fn is_own(self) -> bool {
        matches!(self, Held::Own(_))
    }

    /// The same in words.
    pub fn in_words(self, alloc: Global) -> Result<Vec<u8>, AllocError> {
        match self {
            Held::Nothing | Held::Unsure => Vec::from_slice(alloc, b"nothing"),
            Held::Number(_) => Vec::from_slice(alloc, b"a number"),
            Held::Own(name) => named(alloc, b"an own `", name),
            Held::Lent(name) => named(alloc, b"a lent `", name),
            Held::Interface(name) => named(alloc, b"an interface of `", name),
        }
    }
}

// A name in words.
fn named(alloc: Global, before: &[u8], name: &[u8]) -> Result<Vec<u8>, AllocError> {
    let mut text = Vec::from_slice(alloc, before)?;
    text.extend_from_slice(name)?;
    text.extend_from_slice(b"`")?;
    Ok(text)
}

/// Whether two are the same, where both are known.
pub fn agree(left: Held<'_>, right: Held<'_>) -> bool {
    match (left, right) {
        (Held::Number(_), Held::Number(_)) | (Held::Nothing, Held::Nothing) => true,
        (Held::Own(a), Held::Own(b)) => a == b,
        (Held::Lent(a), Held::Lent(b)) => a == b,
        (Held::Interface(a), Held::Interface(b)) => a == b,
        _ => false,
    }
}

/// What a type at a place stands for, where it is a number, an object, a loan or an interface.
pub fn type_at<'a>(row: &[Token<'a>], place: usize) -> Held<'a> {
    let next = place.saturating_add(1);
    match at(row, place) {
        b"num" | b"bool" | b"u8" | b"u16" | b"u32" | b"u64" => Held::Number(at(row, place)),
        b"RRef" => Held::Own(at(row, place.saturating_add(2))),
        b"&" if is(row, next, b"RRef") => Held::Lent(at(row, place.saturating_add(3))),
        b"&" if is(row, next, b"dyn") => Held::Interface(at(row, place.saturating_add(2))),
        _ => Held::Unsure,
    }
}

/// The places of the types of a method's parameters.
pub fn param_places(alloc: Global, row: &[Token<'_>]) -> Result<Vec<usize>, AllocError> {
    let mut all = Vec::new(alloc);
    'places: for place in 0..row.len() {
        if is(row, place, b":") {
            all.push(place.saturating_add(1))?;
        }
    }
    Ok(all)
}

// The place of a method's first result, and whether others may stand beside it. None where there is
// no result.
fn first_result(row: &[Token<'_>]) -> Option<(usize, bool)> {
    let arrow = find(row, 0, b"->")?;
    let mut start = arrow.saturating_add(1);
    if is(row, start, b"RpcResult") {
        start = start.saturating_add(2);
    }
    if !is(row, start, b"(") {
        return Some((start, false));
    }
    let next = start.saturating_add(1);
    if is(row, next, b")") {
        None
    } else {
        Some((next, true))
    }
}

// How deep a token brings what is behind it, from this depth. None where it closes what isn't open.
fn deeper(text: &[u8], depth: usize) -> Option<usize> {
    match text {
        b"(" | b"[" | b"<" => Some(depth.saturating_add(1)),
        b")" | b"]" | b">" => depth.checked_sub(1),
        _ => Some(depth),
    }
}

/// The places of the types of a method's results.
pub fn result_places(alloc: Global, row: &[Token<'_>]) -> Result<Vec<usize>, AllocError> {
    let mut all = Vec::new(alloc);
    let Some((first, several)) = first_result(row) else {
        return Ok(all);
    };
    all.push(first)?;
    if !several {
        return Ok(all);
    }
    let mut depth = 0usize;
    'places: for place in first..row.len() {
        match deeper(at(row, place), depth) {
            Some(now) => depth = now,
            None => return Ok(all),
        }
        if depth == 0 && is(row, place, b",") {
            all.push(place.saturating_add(1))?;
        }
    }
    Ok(all)
}

/// What stands at each of these places.
pub fn types_at<'a>(
    alloc: Global,
    row: &[Token<'a>],
    places: &[usize],
) -> Result<Vec<Held<'a>>, AllocError> {
    let mut all = Vec::new(alloc);
    'places: for place in places {
        all.push(type_at(row, *place))?;
    }
    Ok(all)
}

/// Whether all are known.
pub fn are_sure(all: &[Held<'_>]) -> bool {
    'all: for held in all {
        if !held.is_sure() {
            return false;
        }
    }
    true
}

/// How many kinds a type flattens to that stands from one place up to another one. None where it
/// holds a struct by value, or a type that may not cross.
pub fn width(row: &[Token<'_>], from: usize, to: usize) -> Option<u64> {
    let mut count = 1u64;
    'places: for place in from..to {
        if is_name(row, place) && !is_of_reference(row, place) {
            return None;
        }
        if is_refused(at(row, place)) {
            return None;
        }
        if let Some(times) = number_at(row, place) {
            count = count.saturating_mul(times);
        }
    }
    Some(count)
}

// Whether a name is that of an object's struct or of an interface's trait.
fn is_of_reference(row: &[Token<'_>], place: usize) -> bool {
    let before = place.saturating_sub(1);
    is(row, before, b"<") || is(row, before, b"dyn")
}

fn is_refused(text: &[u8]) -> bool {
    match text {
        b"Box" | b"Vec" | b"String" | b"*" | b"fn" | b"mut" => true,
        _ => false,
    }
}

/// A method of a trait: the number of its line, and the tokens.
#[derive(Debug, Drop)]
pub struct Method<'a> {
    pub line: usize,
    pub row: Vec<Token<'a>>,
}

/// The method of a name of a trait.
pub fn method_of<'a>(
    case: &Case<'a>,
    of: &[u8],
    name: &[u8],
) -> Result<Option<Method<'a>>, AllocError> {
    let Some(opener) = case.first(case.span(Part::Interfaces), Seek::Trait(of))? else {
        return Ok(None);
    };
    let block = case.block(Part::Interfaces, opener, Seek::Close)?;
    match case.first(block, Seek::Method(name))? {
        Some(line) => Ok(Some(Method {
            line,
            row: case.row_at(line)?,
        })),
        None => Ok(None),
    }
}

/// What a method's parameters are.
pub fn params_of<'a>(alloc: Global, row: &[Token<'a>]) -> Result<Vec<Held<'a>>, AllocError> {
    let places = param_places(alloc, row)?;
    types_at(alloc, row, &places)
}

/// What a method's results are.
pub fn results_of<'a>(alloc: Global, row: &[Token<'a>]) -> Result<Vec<Held<'a>>, AllocError> {
    let places = result_places(alloc, row)?;
    types_at(alloc, row, &places)
}
