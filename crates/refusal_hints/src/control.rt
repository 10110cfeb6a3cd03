//! Rules 32, 33 and 35 to 37: where control goes, what is declared, and which methods there are.

use crate::case::{Case, Part, Seek, Span, is_head};
use crate::code::{tell_register, word_of};
use crate::hint::{Hint, digits};
use crate::kinds::{Held, agree, are_sure, params_of, results_of};
use crate::registers::{Function, Registers, listed, method_called};
use crate::tokens::{Token, at, find, is, read, register};
use std::alloc::AllocError;

// The place of the label that a line names.
fn label_place(row: &[Token<'_>]) -> usize {
    match at(row, 0) {
        b"jmp" => 1,
        b"jz" => 3,
        _ => row.len().saturating_sub(1),
    }
}

// The lines of the function round the refused line.
fn function_lines(case: &Case<'_>) -> Result<Option<Span>, AllocError> {
    let Some(opener) = case.last(case.before(Part::Domains), Seek::AnyFunction)? else {
        return Ok(None);
    };
    Ok(Some(case.block(Part::Domains, opener, Seek::Close)?))
}

// The line of the head that the refused line leads to: itself, or that of its label.
fn head_line(case: &Case<'_>) -> Result<Option<usize>, AllocError> {
    if is_head(&case.row) {
        return Ok(Some(case.number));
    }
    match function_lines(case)? {
        Some(span) => case.first(span, Seek::Label(at(&case.row, label_place(&case.row)))),
        None => Ok(None),
    }
}

// What the registers hold where the refused line leads.
fn led_to<'a>(case: &Case<'a>, registers: &Registers<'a>) -> Registers<'a> {
    let mut there = *registers;
    let row = &case.row;
    if is(row, 0, b"call") && !is_head(row) {
        there.leave_passed(row, case.number);
        let code = row.len().saturating_sub(3);
        there.write(at(row, code), Held::Number(b""), case.number);
    }
    there
}

// A register that doesn't hold what a head says of it.
#[derive(Clone, Copy, Debug)]
struct Misfit<'a> {
    number: usize,
    // What the head lists it with. None where it isn't listed.
    wanted: Option<Held<'a>>,
}

// Whether a register may not enter a head so.
fn misfit_of<'a>(
    head: &[Token<'a>],
    registers: &Registers<'a>,
    number: usize,
) -> Option<Misfit<'a>> {
    let held = registers.get(number).held;
    match listed(head, number) {
        Some(wanted) => {
            if held.is_sure() && !agree(held, wanted) {
                return Some(Misfit {
                    number,
                    wanted: Some(wanted),
                });
            }
            None
        }
        None => {
            if held.is_own() {
                return Some(Misfit {
                    number,
                    wanted: None,
                });
            }
            None
        }
    }
}

fn first_misfit<'a>(head: &[Token<'a>], registers: &Registers<'a>) -> Option<Misfit<'a>> {
    'registers: for number in 0..32usize {
        if let Some(found) = misfit_of(head, registers, number) {
            return Some(found);
        }
    }
    None
}

// Says which register may not enter the head of a line.
fn tell_misfit(
    case: &Case<'_>,
    hint: &mut Hint,
    function: &Function<'_>,
    registers: &Registers<'_>,
    found: Misfit<'_>,
    head: usize,
) -> Result<(), AllocError> {
    let word = word_of(case.alloc, found.number)?;
    let line = digits(case.alloc, head)?;
    tell_register(case, hint, function, &word, registers.get(found.number))?;
    if head != case.number {
        hint.see(head);
    }
    match found.wanted {
        Some(wanted) => {
            let wanted = wanted.in_words(case.alloc)?;
            hint.expected(&[
                wanted.as_slice(),
                b", as the head in line ",
                line.as_slice(),
                b" says",
            ])
        }
        None => hint.expected(&[
            b"no own object, since the head in line ",
            line.as_slice(),
            b" doesn't list it",
        ]),
    }
}

/// Rule 32: which register may not enter the head so.
pub fn tell_entry<'a>(
    case: &Case<'a>,
    hint: &mut Hint,
    function: &Function<'a>,
    registers: &Registers<'a>,
) -> Result<(), AllocError> {
    let place = if is_head(&case.row) {
        0
    } else {
        label_place(&case.row)
    };
    hint.mark_at(&case.row, place);
    let Some(line) = head_line(case)? else {
        return Ok(());
    };
    let head = case.row_at(line)?;
    let there = led_to(case, registers);
    match first_misfit(&head, &there) {
        Some(found) => tell_misfit(case, hint, function, &there, found, line),
        None => Ok(()),
    }
}

// The labels of some lines, with commas between them, as far as they are few.
fn labels(case: &Case<'_>, span: Span) -> Result<Vec<u8>, AllocError> {
    let mut text = Vec::new(case.alloc);
    let mut row = Vec::new(case.alloc);
    'lines: for number in span.from..span.to {
        read(&mut row, case.line(number))?;
        if is_head(&row) && text.len() < 100 {
            let before: &[u8] = if text.is_empty() { b"`" } else { b", `" };
            text.extend_from_slice(before)?;
            text.extend_from_slice(at(&row, 0))?;
            text.extend_from_slice(b"`")?;
        }
    }
    Ok(text)
}

/// Rule 33: which label there isn't.
pub fn tell_label(case: &Case<'_>, hint: &mut Hint) -> Result<(), AllocError> {
    let place = label_place(&case.row);
    let name = at(&case.row, place);
    hint.mark_at(&case.row, place);
    hint.found(&[b"`", name, b"`, and no head of this function is called so"])?;
    let Some(span) = function_lines(case)? else {
        return Ok(());
    };
    let labels = labels(case, span)?;
    if labels.is_empty() {
        return hint.expected(&[
            b"a line `",
            name,
            b": ..` in the function, which has no head yet",
        ]);
    }
    hint.expected(&[b"a label of this function, as ", labels.as_slice()])
}

const NO_SLOT: &[u8] = b"`, and no slot of the domain is called so";

const NO_IMPORT: &[u8] = b"`, and no import of the domain is called so";

const NO_WORDS: &[u8] = b"` in a domain that has no words";

const NO_DISK: &[u8] = b"` in a domain without the import `disk`";

const NO_FILES: &[u8] = b"` in a domain without the import `files`";

// Says what isn't declared in the domain of the refused line, where it isn't.
fn tell_undeclared(
    case: &Case<'_>,
    hint: &mut Hint,
    place: usize,
    seek: Seek<'_>,
    lacks: &[u8],
    what: &[u8],
) -> Result<(), AllocError> {
    let Some(opener) = case.last(case.before(Part::Domains), Seek::AnyDomain)? else {
        return Ok(());
    };
    let block = case.block(Part::Domains, opener, Seek::AnyDomain)?;
    if case.first(block, seek)?.is_some() {
        return Ok(());
    }
    hint.mark_at(&case.row, place);
    hint.see(opener);
    hint.found(&[b"`", at(&case.row, place), lacks])?;
    hint.expected(&[what])
}

/// Rule 35: what isn't declared.
pub fn tell_declared(case: &Case<'_>, hint: &mut Hint) -> Result<(), AllocError> {
    let row = &case.row;
    match at(row, 0) {
        b"has" | b"take" => {
            let slot = Seek::Slot(at(row, 3));
            tell_undeclared(
                case,
                hint,
                3,
                slot,
                NO_SLOT,
                b"a line `slot NAME: STRUCT` of this name",
            )
        }
        b"put" => {
            let slot = Seek::Slot(at(row, 1));
            tell_undeclared(
                case,
                hint,
                1,
                slot,
                NO_SLOT,
                b"a line `slot NAME: STRUCT` of this name",
            )
        }
        b"cap" => {
            let import = Seek::Import(at(row, 3));
            tell_undeclared(
                case,
                hint,
                3,
                import,
                NO_IMPORT,
                b"a line `import NAME: TRAIT` of this name",
            )
        }
        b"wget" | b"wput" => {
            tell_undeclared(
                case,
                hint,
                0,
                Seek::Words,
                NO_WORDS,
                b"a line `words NUMBER`",
            )
        }
        b"native" if is(row, 1, b"fs") => {
            tell_undeclared(
                case,
                hint,
                1,
                Seek::Import(b"disk"),
                NO_DISK,
                b"a line `import disk: TRAIT`",
            )
        }
        b"native" => {
            tell_undeclared(
                case,
                hint,
                1,
                Seek::Import(b"files"),
                NO_FILES,
                b"a line `import files: TRAIT`",
            )
        }
        _ => Ok(()),
    }
}

// How many methods are looked up.
const MOST_METHODS: usize = 64;

// The first line of a trait with a method for which a domain has no function.
fn missing(case: &Case<'_>, methods: Span, domain: Span) -> Result<Option<usize>, AllocError> {
    let mut row = Vec::new(case.alloc);
    let mut looked = 0usize;
    'methods: for number in methods.from..methods.to {
        read(&mut row, case.line(number))?;
        if is(&row, 0, b"fn") && looked < MOST_METHODS {
            looked = looked.saturating_add(1);
            if case.first(domain, Seek::Function(at(&row, 1)))?.is_none() {
                return Ok(Some(number));
            }
        }
    }
    Ok(None)
}

/// Rule 36, at a domain's head: which method has no function.
pub fn tell_missing(case: &Case<'_>, hint: &mut Hint) -> Result<(), AllocError> {
    if !is(&case.row, 0, b"domain") {
        return Ok(());
    }
    hint.mark_at(&case.row, 1);
    let of = Seek::Trait(at(&case.row, 3));
    let Some(opener) = case.first(case.span(Part::Interfaces), of)? else {
        return Ok(());
    };
    let methods = case.block(Part::Interfaces, opener, Seek::Close)?;
    let domain = case.block(Part::Domains, case.number, Seek::AnyDomain)?;
    let Some(number) = missing(case, methods, domain)? else {
        return Ok(());
    };
    let row = case.row_at(number)?;
    let name = at(&row, 1);
    hint.see(number);
    hint.found(&[
        b"no function for the method `",
        name,
        b"` of `",
        at(&case.row, 3),
        b"`",
    ])?;
    hint.expected(&[b"a block `fn ", name, b" {` in the domain"])
}

// How many registers stand from a place up to another one.
fn registers_between(row: &[Token<'_>], from: usize, to: usize) -> usize {
    let mut count = 0usize;
    'places: for place in from..to.min(row.len()) {
        if register(at(row, place)).is_some() {
            count = count.saturating_add(1);
        }
    }
    count
}

// Says how many there are to be, where they aren't so many.
fn tell_count(
    case: &Case<'_>,
    hint: &mut Hint,
    place: usize,
    given: usize,
    wanted: &[Held<'_>],
    what: &[u8],
) -> Result<bool, AllocError> {
    if !are_sure(wanted) || wanted.len() == given {
        return Ok(false);
    }
    let given = digits(case.alloc, given)?;
    let wanted = digits(case.alloc, wanted.len())?;
    hint.mark_at(&case.row, place);
    hint.found(&[what, given.as_slice()])?;
    hint.expected(&[wanted.as_slice(), b", as the method says"])?;
    Ok(true)
}

/// Rule 36, at a call: which method there isn't, or how many arguments and results it has.
pub fn tell_call<'a>(
    case: &Case<'a>,
    hint: &mut Hint,
    registers: &Registers<'a>,
) -> Result<(), AllocError> {
    let row = &case.row;
    let Held::Interface(of) = registers.of(at(row, 1)).held else {
        return Ok(());
    };
    hint.mark_at(row, 3);
    let Some(method) = method_called(case, registers, row)? else {
        hint.see(
            case.first(case.span(Part::Interfaces), Seek::Trait(of))?
                .unwrap_or(case.number),
        );
        hint.found(&[b"`", at(row, 3), b"`, which is no method of `", of, b"`"])?;
        return hint.expected(&[b"a method of the interface's trait"]);
    };
    hint.see(method.line);
    let close = find(row, 0, b")").unwrap_or(row.len());
    let stop = find(row, close, b"else").unwrap_or(row.len());
    let params = params_of(case.alloc, &method.row)?;
    let given = registers_between(row, 5, close);
    if tell_count(case, hint, 3, given, &params, b"arguments: ")? {
        return Ok(());
    }
    let results = results_of(case.alloc, &method.row)?;
    let given = registers_between(row, close, stop);
    let _ = tell_count(case, hint, 3, given, &results, b"registers for results: ")?;
    Ok(())
}

/// Rule 37: from which line control comes to the end of the function.
pub fn tell_end(case: &Case<'_>, hint: &mut Hint) -> Result<(), AllocError> {
    hint.mark_at(&case.row, 0);
    if let Some(last) = case.line_before()? {
        let line = digits(case.alloc, last)?;
        hint.see(last);
        hint.found(&[
            b"the end of the function, to which control comes from line ",
            line.as_slice(),
        ])?;
    }
    hint.expected(&[b"`ret`, `jmp` or `trap` before it"])
}
