//! Rule 3: the name that is given again, and the line that gave it first.

use crate::case::{Case, Part, is_head};
use crate::hint::{Hint, digits};
use crate::tokens::{Token, at, find, is, is_name, read};
use std::alloc::AllocError;

/// Among what a name is given.
#[derive(Clone, Copy, Debug, PartialEq, Eq)]
pub enum Among {
    Types,
    Fields,
    Methods,
    Domains,
    Slots,
    Imports,
    Functions,
    Labels,
    Targets,
    Binds,
    Serials,
    Fuel,
    Order,
    Clients,
    Script,
}

/// What a line gives, and the place of its name.
#[derive(Clone, Copy, Debug)]
pub struct Given {
    pub among: Among,
    pub place: usize,
}

fn gives_at(among: Among, place: usize) -> Option<Given> {
    Some(Given { among, place })
}

fn in_interfaces(row: &[Token<'_>]) -> Option<Given> {
    let first = if is(row, 0, b"pub") { 1usize } else { 0 };
    let next = first.saturating_add(1);
    match at(row, first) {
        b"struct" | b"trait" => gives_at(Among::Types, next),
        b"fn" => gives_at(Among::Methods, next),
        _ if is(row, next, b":") => gives_at(Among::Fields, first),
        _ => None,
    }
}

fn in_domains(row: &[Token<'_>]) -> Option<Given> {
    if is_head(row) {
        return gives_at(Among::Labels, 0);
    }
    match at(row, 0) {
        b"domain" => gives_at(Among::Domains, 1),
        b"slot" => gives_at(Among::Slots, 1),
        b"import" => gives_at(Among::Imports, 1),
        b"fn" => gives_at(Among::Functions, 1),
        _ => None,
    }
}

fn in_plan(row: &[Token<'_>]) -> Option<Given> {
    match at(row, 0) {
        b"load" | b"shadow" => gives_at(Among::Targets, 1),
        b"bind" => gives_at(Among::Binds, 1),
        b"serial" => gives_at(Among::Serials, 1),
        b"fuel" => gives_at(Among::Fuel, 0),
        b"order" => gives_at(Among::Order, 0),
        _ => None,
    }
}

fn in_clients(row: &[Token<'_>]) -> Option<Given> {
    match at(row, 0) {
        b"client" => gives_at(Among::Clients, 1),
        b"let" | b"text" => gives_at(Among::Script, 1),
        _ => None,
    }
}

/// What a line of a part gives a name, if it does. The names that a call binds are left out.
pub fn given_in(part: Part, row: &[Token<'_>]) -> Option<Given> {
    match part {
        Part::Interfaces => in_interfaces(row),
        Part::Domains => in_domains(row),
        Part::Plan => in_plan(row),
        Part::Clients => in_clients(row),
    }
}

// Whether a line begins that among which names of this kind are told apart.
fn begins(among: Among, row: &[Token<'_>]) -> bool {
    match among {
        Among::Fields | Among::Methods => is(row, row.len().saturating_sub(1), b"{"),
        Among::Slots | Among::Imports | Among::Functions => {
            is(row, 0, b"domain") && !is_head(row)
        }
        Among::Labels => is(row, 0, b"fn"),
        Among::Script => is(row, 0, b"client"),
        _ => false,
    }
}

// Whether a call binds a name.
fn call_binds(row: &[Token<'_>], name: &[u8]) -> bool {
    if !is(row, 0, b"call") {
        return false;
    }
    match find(row, 0, b"->") {
        Some(arrow) => find(row, arrow, name).is_some(),
        None => false,
    }
}

// Whether a line gives a name of this kind, where it is the one of the refused line.
fn gives(part: Part, row: &[Token<'_>], among: Among, own: &[Token<'_>], place: usize) -> bool {
    if among == Among::Script && call_binds(row, at(own, place)) {
        return true;
    }
    match given_in(part, row) {
        Some(found) if found.among == among => {
            let same = at(row, found.place) == at(own, place);
            same && (among != Among::Binds || at(row, 3) == at(own, 3))
        }
        _ => false,
    }
}

// The first line before the refused one that gives what the refused line gives at a place.
fn first_given(
    case: &Case<'_>,
    part: Part,
    among: Among,
    place: usize,
) -> Result<Option<usize>, AllocError> {
    let span = case.before(part);
    let mut first = None;
    let mut row = Vec::new(case.alloc);
    'lines: for number in span.from..span.to {
        read(&mut row, case.line(number))?;
        if begins(among, &row) {
            first = None;
        } else if first.is_none() && gives(part, &row, among, &case.row, place) {
            first = Some(number);
        }
    }
    Ok(first)
}

fn is_line_of_its_own(among: Among) -> bool {
    among == Among::Fuel || among == Among::Order
}

// Says what is given again, by its name and the line that gave it first.
fn tell_name(hint: &mut Hint, among: Among, name: &[u8], line: &[u8]) -> Result<(), AllocError> {
    if is_line_of_its_own(among) {
        hint.found(&[
            b"a second `",
            name,
            b"` line; line ",
            line,
            b" is the first",
        ])?;
        return hint.expected(&[b"one `", name, b"` line"]);
    }
    if among == Among::Serials {
        hint.found(&[b"`", name, b"`, which is serial by line ", line])?;
        return hint.expected(&[b"one `serial` line for a load"]);
    }
    hint.found(&[b"`", name, b"`, which line ", line, b" gave first"])?;
    hint.expected(&[b"another name"])
}

// Says which import is bound again.
fn tell_bind(hint: &mut Hint, load: &[u8], import: &[u8], line: &[u8]) -> Result<(), AllocError> {
    hint.found(&[
        b"`",
        load,
        b".",
        import,
        b"`, which line ",
        line,
        b" binds already",
    ])?;
    hint.expected(&[b"one `bind` line for each import of a load"])
}

// Says which line gave a name first.
fn tell_first(
    case: &Case<'_>,
    hint: &mut Hint,
    among: Among,
    place: usize,
    first: usize,
) -> Result<(), AllocError> {
    let line = digits(case.alloc, first)?;
    let name = at(&case.row, place);
    hint.mark_at(&case.row, place);
    hint.see(first);
    if among == Among::Binds {
        return tell_bind(hint, name, at(&case.row, 3), &line);
    }
    tell_name(hint, among, name, &line)
}

// Says that a name is given twice in the refused line.
fn tell_twice(case: &Case<'_>, hint: &mut Hint, place: usize) -> Result<(), AllocError> {
    hint.mark_at(&case.row, place);
    hint.found(&[b"`", at(&case.row, place), b"` twice in this line"])?;
    hint.expected(&[b"another name"])
}

// The place of the first parameter of a method whose name an earlier one has.
fn second_parameter(row: &[Token<'_>]) -> Option<usize> {
    'places: for place in 3..row.len() {
        if is(row, place.saturating_add(1), b":") && parameter_before(row, place) {
            return Some(place);
        }
    }
    None
}

// Whether a parameter before a place has the name that stands there.
fn parameter_before(row: &[Token<'_>], place: usize) -> bool {
    'places: for other in 3..place {
        if is(row, other.saturating_add(1), b":") && at(row, other) == at(row, place) {
            return true;
        }
    }
    false
}

// Whether a name stands between two places.
fn stands_between(row: &[Token<'_>], from: usize, to: usize, name: &[u8]) -> bool {
    match find(row, from, name) {
        Some(place) => place < to,
        None => false,
    }
}

// How many names of a call are looked up.
const MOST_NAMES: usize = 8;

// Says which name of a call is bound again.
fn tell_call(case: &Case<'_>, hint: &mut Hint) -> Result<(), AllocError> {
    let Some(arrow) = find(&case.row, 0, b"->") else {
        return Ok(());
    };
    let mut looked = 0usize;
    'names: for place in arrow..case.row.len() {
        if is_name(&case.row, place) && looked < MOST_NAMES {
            looked += 1;
            if stands_between(&case.row, arrow, place, at(&case.row, place)) {
                return tell_twice(case, hint, place);
            }
            if let Some(first) = first_given(case, Part::Clients, Among::Script, place)? {
                return tell_first(case, hint, Among::Script, place, first);
            }
        }
    }
    Ok(())
}

/// Rule 3: which name is given again.
pub fn tell(case: &Case<'_>, hint: &mut Hint) -> Result<(), AllocError> {
    let Some((part, _)) = case.part_of(case.number)? else {
        return Ok(());
    };
    if part == Part::Clients && is(&case.row, 0, b"call") {
        return tell_call(case, hint);
    }
    let Some(Given { among, place }) = given_in(part, &case.row) else {
        return Ok(());
    };
    if let Some(first) = first_given(case, part, among, place)? {
        return tell_first(case, hint, among, place, first);
    }
    if among == Among::Methods {
        if let Some(place) = second_parameter(&case.row) {
            return tell_twice(case, hint, place);
        }
    }
    Ok(())
}
