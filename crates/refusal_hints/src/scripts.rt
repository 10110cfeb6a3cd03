//! Rules 50 and 51: the commands of clients.

use crate::case::{Case, Part, Seek, Span};
use crate::hint::{Hint, digits};
use crate::kinds::{Held, Method, agree, are_sure, method_of, params_of, results_of};
use crate::plan::trait_of;
use crate::structs::{Cells, cells_of};
use crate::tokens::{Token, at, find, is, is_name, number_at};
use std::alloc::AllocError;

// A name of a script: the line that binds it, and what it is bound to.
#[derive(Clone, Copy, Debug)]
struct Bound<'a> {
    line: usize,
    held: Held<'a>,
}

// The lines of the client before the refused one.
fn script(case: &Case<'_>) -> Result<Span, AllocError> {
    let before = case.before(Part::Clients);
    let from = case.last(before, Seek::AnyClient)?.unwrap_or(before.from);
    Ok(Span {
        from,
        to: before.to,
    })
}

// The method that a call of a script calls.
fn method_called<'a>(case: &Case<'a>, row: &[Token<'a>]) -> Result<Option<Method<'a>>, AllocError> {
    match trait_of(case, at(row, 1))? {
        Some(of) => method_of(case, of, at(row, 3)),
        None => Ok(None),
    }
}

// The number of a name among those that a call binds.
fn result_number(row: &[Token<'_>], name: &[u8]) -> Option<usize> {
    let arrow = find(row, 0, b"->")?;
    let place = find(row, arrow, name)?;
    Some(place.saturating_sub(arrow.saturating_add(1)) / 2)
}

// What a line of a script binds a name to.
fn bound_by<'a>(case: &Case<'a>, row: &[Token<'a>], name: &[u8]) -> Result<Held<'a>, AllocError> {
    if is(row, 0, b"let") {
        return Ok(Held::Own(at(row, 4)));
    }
    if is(row, 0, b"text") {
        return Ok(Held::Own(at(row, 3)));
    }
    let Some(number) = result_number(row, name) else {
        return Ok(Held::Unsure);
    };
    let Some(method) = method_called(case, row)? else {
        return Ok(Held::Unsure);
    };
    let results = results_of(case.alloc, &method.row)?;
    if !are_sure(&results) {
        return Ok(Held::Unsure);
    }
    match results.get(number) {
        Some(held) => Ok(*held),
        None => Ok(Held::Unsure),
    }
}

// What a name is bound to before the refused line.
fn binding_of<'a>(case: &Case<'a>, name: &[u8]) -> Result<Option<Bound<'a>>, AllocError> {
    match case.first(script(case)?, Seek::Binds(name))? {
        Some(line) => {
            let row = case.row_at(line)?;
            let held = bound_by(case, &row, name)?;
            Ok(Some(Bound { line, held }))
        }
        None => Ok(None),
    }
}

// Says that a name isn't an object.
fn tell_no_object(case: &Case<'_>, hint: &mut Hint) -> Result<(), AllocError> {
    let name = at(&case.row, 1);
    hint.mark_at(&case.row, 1);
    let Some(found) = binding_of(case, name)? else {
        return Ok(());
    };
    if let Held::Number(_) = found.held {
        let line = digits(case.alloc, found.line)?;
        hint.see(found.line);
        hint.found(&[
            b"`",
            name,
            b"`, which line ",
            line.as_slice(),
            b" binds to a number",
        ])?;
        hint.expected(&[b"the name of an object"])?;
    }
    Ok(())
}

// The number of the first cell that a number of a `let` doesn't fit.
fn first_misfit(row: &[Token<'_>], cells: &[Held<'_>]) -> Option<usize> {
    'numbers: for number in 0..cells.len() {
        let place = number.saturating_mul(2).saturating_add(5);
        let value = number_at(row, place)?;
        if !fits(value, cells[number]) {
            return Some(number);
        }
    }
    None
}

// Whether a number fits what is to hold it.
fn fits(value: u64, held: Held<'_>) -> bool {
    match held {
        Held::Number(b"bool") => value <= 1,
        Held::Number(b"u8") => value <= 0xFF,
        Held::Number(b"u16") => value <= 0xFFFF,
        Held::Number(b"u32") => value <= 0xFFFF_FFFF,
        Held::Number(_) => true,
        Held::Unsure => true,
        _ => false,
    }
}

fn width_text(held: Held<'_>) -> &'static [u8] {
    match held {
        Held::Number(b"bool") => b"a `bool`: 0 or 1",
        Held::Number(b"u8") => b"a `u8`: at most 255",
        Held::Number(b"u16") => b"a `u16`: at most 65535",
        Held::Number(b"u32") => b"a `u32`: at most 4294967295",
        Held::Number(_) => b"a number",
        _ => b"no number: the cell is an `RRef`",
    }
}

// Says how many there are, and at most may be.
fn tell_more(
    case: &Case<'_>,
    hint: &mut Hint,
    given: usize,
    most: usize,
    what: &[u8],
) -> Result<(), AllocError> {
    let given = digits(case.alloc, given)?;
    let most = digits(case.alloc, most)?;
    hint.found(&[what, given.as_slice()])?;
    hint.expected(&[
        b"at most ",
        most.as_slice(),
        b", as many as the struct has cells",
    ])
}

// Says which number doesn't fit its cell.
fn tell_cell(
    case: &Case<'_>,
    hint: &mut Hint,
    number: usize,
    held: Held<'_>,
) -> Result<(), AllocError> {
    let place = number.saturating_mul(2).saturating_add(5);
    let cell = digits(case.alloc, number)?;
    let given = at(&case.row, place);
    hint.mark_at(&case.row, place);
    hint.found(&[given, b" for cell ", cell.as_slice(), b", counted from 0"])?;
    hint.expected(&[width_text(held)])
}

// Says which number of a `let` has no cell that it fits.
fn tell_let(case: &Case<'_>, hint: &mut Hint) -> Result<(), AllocError> {
    let row = &case.row;
    let Some(Cells { line, cells }) = cells_of(case, at(row, 4))? else {
        return Ok(());
    };
    hint.see(line);
    let given = row.len().saturating_sub(4) / 2;
    if given > cells.len() {
        hint.mark_at(row, cells.len().saturating_mul(2).saturating_add(5));
        return tell_more(case, hint, given, cells.len(), b"numbers: ");
    }
    let Some(number) = first_misfit(row, &cells) else {
        return Ok(());
    };
    match cells.get(number) {
        Some(held) => tell_cell(case, hint, number, *held),
        None => Ok(()),
    }
}

// Whether each cell holds a byte.
fn are_bytes(cells: &[Held<'_>]) -> bool {
    'cells: for cell in cells {
        match cell {
            Held::Number(b"u8") => {}
            _ => return false,
        }
    }
    true
}

// Says why a text doesn't fit its struct.
fn tell_text(case: &Case<'_>, hint: &mut Hint) -> Result<(), AllocError> {
    let row = &case.row;
    let Some(Cells { line, cells }) = cells_of(case, at(row, 3))? else {
        return Ok(());
    };
    hint.see(line);
    if !are_bytes(&cells) {
        hint.mark_at(row, 3);
        hint.found(&[b"`", at(row, 3), b"`, which has a cell that is no `u8`"])?;
        return hint.expected(&[b"a struct whose cells are all `u8`"]);
    }
    let given = at(row, 4).len().saturating_sub(2);
    hint.mark_at(row, 4);
    tell_more(case, hint, given, cells.len(), b"bytes: ")
}

// The places of the arguments of a call: those of numbers and names.
fn arguments(case: &Case<'_>) -> Result<Vec<usize>, AllocError> {
    let row = &case.row;
    let mut all = Vec::new(case.alloc);
    let close = find(row, 0, b")").unwrap_or(0);
    'places: for place in 5..close {
        if is_name(row, place) || number_at(row, place).is_some() {
            all.push(place)?;
        }
    }
    Ok(all)
}

// Why an argument doesn't fit a parameter.
#[derive(Clone, Copy, Debug)]
enum Misfit<'a> {
    // A number that is too large.
    TooLarge,
    // Something of another kind, which the line binds.
    Kind(Held<'a>, usize),
    // A target of another trait.
    Target(&'a [u8]),
}

// Whether a number's name is of a wider width than the parameter.
fn is_wider(held: Held<'_>, param: Held<'_>) -> bool {
    match (held, param) {
        (Held::Number(from), Held::Number(to)) => bits(from) > bits(to),
        _ => false,
    }
}

fn bits(width: &[u8]) -> u8 {
    match width {
        b"bool" => 1,
        b"u8" => 8,
        b"u16" => 16,
        b"u32" => 32,
        _ => 64,
    }
}

// What a name hands over, as it is written.
fn handed<'a>(row: &[Token<'_>], place: usize, held: Held<'a>) -> Held<'a> {
    match held {
        Held::Own(of) if is(row, place.saturating_sub(1), b"&") => Held::Lent(of),
        _ => held,
    }
}

// Why a name as an argument doesn't fit a parameter, if that is known.
fn name_misfit<'a>(
    case: &Case<'a>,
    place: usize,
    param: Held<'a>,
) -> Result<Option<Misfit<'a>>, AllocError> {
    let Some(found) = binding_of(case, at(&case.row, place))? else {
        return Ok(None);
    };
    if !found.held.is_sure() {
        return Ok(None);
    }
    let held = handed(&case.row, place, found.held);
    let lends_number = is(&case.row, place.saturating_sub(1), b"&") && !is_lent(held);
    if lends_number || !agree(held, param) || is_wider(held, param) {
        return Ok(Some(Misfit::Kind(held, found.line)));
    }
    Ok(None)
}

fn is_lent(held: Held<'_>) -> bool {
    matches!(held, Held::Lent(_))
}

// Why an argument doesn't fit a parameter, if that is known.
fn misfit_of<'a>(
    case: &Case<'a>,
    place: usize,
    param: Held<'a>,
) -> Result<Option<Misfit<'a>>, AllocError> {
    let row = &case.row;
    if let Some(value) = number_at(row, place) {
        return match param {
            Held::Number(_) if !fits(value, param) => Ok(Some(Misfit::TooLarge)),
            Held::Number(_) => Ok(None),
            _ => Ok(Some(Misfit::Kind(Held::Number(b""), 0))),
        };
    }
    if !is(row, place.saturating_sub(1), b"@") {
        return name_misfit(case, place, param);
    }
    match (trait_of(case, at(row, place))?, param) {
        (Some(of), Held::Interface(wanted)) if of == wanted => Ok(None),
        (Some(of), _) => Ok(Some(Misfit::Target(of))),
        (None, _) => Ok(None),
    }
}

// What a parameter asks for, in words.
fn param_text(case: &Case<'_>, param: Held<'_>) -> Result<Vec<u8>, AllocError> {
    match param {
        Held::Number(_) => Vec::from_slice(case.alloc, width_text(param)),
        _ => param.in_words(case.alloc),
    }
}

// Says what an argument is.
fn tell_given(
    case: &Case<'_>,
    hint: &mut Hint,
    word: &[u8],
    why: Misfit<'_>,
) -> Result<(), AllocError> {
    match why {
        Misfit::TooLarge => hint.found(&[b"the number ", word]),
        Misfit::Target(of) => hint.found(&[b"a target of the trait `", of, b"`"]),
        Misfit::Kind(_, 0) => hint.found(&[b"the number ", word]),
        Misfit::Kind(Held::Number(width), line) => {
            let line = digits(case.alloc, line)?;
            hint.found(&[
                b"`",
                word,
                b"`, which line ",
                line.as_slice(),
                b" binds to a `",
                width,
                b"`",
            ])
        }
        Misfit::Kind(Held::Lent(of), line) => {
            let line = digits(case.alloc, line)?;
            hint.found(&[
                b"`&",
                word,
                b"`, a loan of the `",
                of,
                b"` that line ",
                line.as_slice(),
                b" binds",
            ])
        }
        Misfit::Kind(held, line) => {
            let line = digits(case.alloc, line)?;
            let text = held.in_words(case.alloc)?;
            hint.found(&[
                b"`",
                word,
                b"`, ",
                text.as_slice(),
                b" by line ",
                line.as_slice(),
            ])
        }
    }
}

// Says which argument doesn't fit its parameter. False where none is known not to.
fn tell_argument<'a>(
    case: &Case<'a>,
    hint: &mut Hint,
    places: &[usize],
    params: &[Held<'a>],
    method: usize,
) -> Result<bool, AllocError> {
    'params: for number in 0..params.len().min(places.len()) {
        let place = places[number];
        if let Some(why) = misfit_of(case, place, params[number])? {
            let line = digits(case.alloc, method)?;
            let wanted = param_text(case, params[number])?;
            hint.mark_at(&case.row, place);
            tell_given(case, hint, at(&case.row, place), why)?;
            hint.expected(&[wanted.as_slice(), b", as line ", line.as_slice(), b" says"])?;
            return Ok(true);
        }
    }
    Ok(false)
}

// How many names a call binds.
fn names_bound(row: &[Token<'_>]) -> usize {
    match find(row, 0, b"->") {
        Some(arrow) => row.len().saturating_sub(arrow) / 2,
        None => 0,
    }
}

// Says how many there are to be, where they aren't so many.
fn tell_count(
    case: &Case<'_>,
    hint: &mut Hint,
    given: usize,
    wanted: usize,
    what: &[u8],
) -> Result<(), AllocError> {
    let given = digits(case.alloc, given)?;
    let wanted = digits(case.alloc, wanted)?;
    hint.found(&[what, given.as_slice()])?;
    hint.expected(&[wanted.as_slice(), b", as the method says"])
}

// Whether a result is an object.
fn is_object_given(results: &[Held<'_>]) -> bool {
    'results: for held in results {
        if held.is_own() {
            return true;
        }
    }
    false
}

// Says why the names of a call don't fit its method's results.
fn tell_names(case: &Case<'_>, hint: &mut Hint, results: &[Held<'_>]) -> Result<(), AllocError> {
    let named = names_bound(&case.row);
    if named == 0 && is_object_given(results) {
        hint.mark_at(&case.row, case.row.len());
        hint.found(&[b"no name for an object that comes back"])?;
        return hint.expected(&[b"`-> NAME, ..`, a name for each result"]);
    }
    if named != 0 && are_sure(results) && named != results.len() {
        hint.mark_at(&case.row, find(&case.row, 0, b"->").unwrap_or(0));
        return tell_count(case, hint, named, results.len(), b"names for results: ");
    }
    Ok(())
}

// Says why a call doesn't fit its method.
fn tell_method<'a>(
    case: &Case<'a>,
    hint: &mut Hint,
    method: &Method<'a>,
) -> Result<(), AllocError> {
    let params = params_of(case.alloc, &method.row)?;
    let results = results_of(case.alloc, &method.row)?;
    let places = arguments(case)?;
    hint.mark_at(&case.row, 3);
    hint.see(method.line);
    if !are_sure(&params) {
        return Ok(());
    }
    if places.len() != params.len() {
        return tell_count(case, hint, places.len(), params.len(), b"arguments: ");
    }
    if tell_argument(case, hint, &places, &params, method.line)? {
        return Ok(());
    }
    tell_names(case, hint, &results)
}

// Says why a call doesn't fit what it calls.
fn tell_call(case: &Case<'_>, hint: &mut Hint) -> Result<(), AllocError> {
    let row = &case.row;
    let Some(of) = trait_of(case, at(row, 1))? else {
        return Ok(());
    };
    match method_of(case, of, at(row, 3))? {
        Some(method) => tell_method(case, hint, &method),
        None => {
            hint.mark_at(row, 3);
            if let Some(line) = case.first(case.span(Part::Interfaces), Seek::Trait(of))? {
                hint.see(line);
            }
            hint.found(&[b"`", at(row, 3), b"`, which is no method of `", of, b"`"])?;
            hint.expected(&[b"a method of the target's trait"])
        }
    }
}

/// Rule 50: why a command doesn't fit what it names.
pub fn tell_fit(case: &Case<'_>, hint: &mut Hint) -> Result<(), AllocError> {
    match at(&case.row, 0) {
        b"let" => tell_let(case, hint),
        b"text" => tell_text(case, hint),
        b"call" => tell_call(case, hint),
        b"show" | b"drop" => tell_no_object(case, hint),
        _ => Ok(()),
    }
}

// The places of the names that the refused line uses.
fn names_used(case: &Case<'_>) -> Result<Vec<usize>, AllocError> {
    let row = &case.row;
    let mut all = Vec::new(case.alloc);
    if !is(row, 0, b"call") {
        all.push(1)?;
        return Ok(all);
    }
    let close = find(row, 0, b")").unwrap_or(0);
    'places: for place in 5..close {
        if is_name(row, place) && !is(row, place.saturating_sub(1), b"@") {
            all.push(place)?;
        }
    }
    Ok(all)
}

// The line behind the one that binds a name which drops or passes it, where it is bound to an
// object.
fn gone_by(case: &Case<'_>, name: &[u8]) -> Result<Option<usize>, AllocError> {
    let Some(found) = binding_of(case, name)? else {
        return Ok(None);
    };
    if !found.held.is_own() {
        return Ok(None);
    }
    let span = Span {
        from: found.line.saturating_add(1),
        to: case.number,
    };
    case.first(span, Seek::Passes(name))
}

// Says by which line a name is gone.
fn tell_gone_by(
    case: &Case<'_>,
    hint: &mut Hint,
    place: usize,
    line: usize,
) -> Result<(), AllocError> {
    let number = digits(case.alloc, line)?;
    let row = case.row_at(line)?;
    let how: &[u8] = if is(&row, 0, b"drop") {
        b" dropped"
    } else {
        b" moved"
    };
    hint.mark_at(&case.row, place);
    hint.see(line);
    hint.found(&[
        b"`",
        at(&case.row, place),
        b"`, which line ",
        number.as_slice(),
        how,
    ])?;
    hint.expected(&[b"the name of an object that the client still has"])
}

// Whether a name stands before a place too, from the first argument on.
fn stands_before(row: &[Token<'_>], place: usize) -> bool {
    match find(row, 5, at(row, place)) {
        Some(first) => first < place,
        None => false,
    }
}

// How many names are looked up.
const MOST_NAMES: usize = 16;

/// Rule 51: by which line an object is gone.
pub fn tell_gone(case: &Case<'_>, hint: &mut Hint) -> Result<(), AllocError> {
    let places = names_used(case)?;
    'names: for number in 0..places.len().min(MOST_NAMES) {
        let place = places[number];
        if let Some(line) = gone_by(case, at(&case.row, place))? {
            return tell_gone_by(case, hint, place, line);
        }
    }
    tell_same_call(case, hint, &places)
}

// Says which object goes two ways in the refused call.
fn tell_same_call(case: &Case<'_>, hint: &mut Hint, places: &[usize]) -> Result<(), AllocError> {
    'names: for number in 0..places.len().min(MOST_NAMES) {
        let place = places[number];
        let name = at(&case.row, place);
        if stands_before(&case.row, place) {
            if let Some(
                Bound {
                    held: Held::Own(_),
                    ..
                },
            ) = binding_of(case, name)?
            {
                hint.mark_at(&case.row, place);
                hint.found(&[b"`", name, b"`, whose object goes two ways in this call"])?;
                return hint.expected(&[b"one way for an object in a line: moved once, or lent"]);
            }
        }
    }
    Ok(())
}
