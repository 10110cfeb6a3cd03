//! What the registers of a function hold before a line, by the lines before it.

use crate::case::{Case, Part, Seek, Span, is_head};
use crate::kinds::{Held, Method, method_of, params_of, results_of, type_at};
use crate::tokens::{Token, at, find, is, read, register};
use std::alloc::AllocError;

/// What a register holds, and the line that made it so, 0 where that is the function's head.
#[derive(Clone, Copy, Debug)]
pub struct Content<'a> {
    pub held: Held<'a>,
    pub line: usize,
    /// Whether it is empty since the line moved what it held.
    pub moved: bool,
}

/// What the registers hold.
#[derive(Clone, Copy, Debug)]
pub struct Registers<'a> {
    each: [Content<'a>; 32],
}

const EMPTY: Content<'static> = Content {
    held: Held::Nothing,
    line: 0,
    moved: false,
};

/// The function round the refused line.
#[derive(Debug, Drop)]
pub struct Function<'a> {
    /// The line that opens it.
    pub opener: usize,
    /// The lines of its domain.
    pub domain: Span,
    /// The trait of its domain.
    pub of: &'a [u8],
    /// The method that it is the function for.
    pub method: Option<Method<'a>>,
}

/// How many calls, slots and imports are looked up, so that no bundle makes a hint slow.
const MOST_LOOKED: usize = 64;

impl<'a> Registers<'a> {
    /// What a register holds, by its number.
    pub fn get(&self, number: usize) -> Content<'a> {
        self.each[number.min(31)]
    }

    fn put(&mut self, number: usize, content: Content<'a>) {
        self.each[number.min(31)] = content;
    }

    /// A register is given something, by the register's word.
    pub fn write(&mut self, word: &[u8], held: Held<'a>, line: usize) {
        if let Some(number) = register(word) {
            self.put(
                number,
                Content {
                    held,
                    line,
                    moved: false,
                },
            );
        }
    }

    /// What a register holds, by its word.
    pub fn of(&self, word: &[u8]) -> Content<'a> {
        match register(word) {
            Some(number) => self.get(number),
            None => EMPTY,
        }
    }

    /// An own object leaves its register.
    pub fn leave(&mut self, word: &[u8], line: usize) {
        if self.of(word).held.is_own() {
            self.empty(word, line);
        }
    }

    // A register loses its object.
    fn empty(&mut self, word: &[u8], line: usize) {
        if let Some(number) = register(word) {
            self.put(
                number,
                Content {
                    held: Held::Nothing,
                    line,
                    moved: true,
                },
            );
        }
    }

    /// The objects that a call passes leave their registers.
    pub fn leave_passed(&mut self, row: &[Token<'a>], line: usize) {
        let close = find(row, 0, b")").unwrap_or(0);
        'args: for place in 5..close {
            if !is(row, place.saturating_sub(1), b"&") {
                self.leave(at(row, place), line);
            }
        }
    }
}

/// What a head says that a register holds, if it lists it.
pub fn listed<'a>(row: &[Token<'a>], number: usize) -> Option<Held<'a>> {
    'places: for place in 2..row.len() {
        let before = place.saturating_sub(1);
        let begins = is(row, before, b":") || is(row, before, b",");
        if begins && register(at(row, place)) == Some(number) {
            return Some(type_at(row, place.saturating_add(1)));
        }
    }
    None
}

// The registers behind a head.
fn behind_head<'a>(registers: &mut Registers<'a>, row: &[Token<'a>], line: usize) {
    'registers: for number in 0..32usize {
        let before = registers.get(number);
        match listed(row, number) {
            Some(held) => registers.put(
                number,
                Content {
                    held,
                    line,
                    moved: false,
                },
            ),
            None => match before.held {
                Held::Nothing => {}
                _ => registers.put(
                    number,
                    Content {
                        held: Held::Nothing,
                        line,
                        moved: false,
                    },
                ),
            },
        }
    }
}

/// The function round the refused line.
pub fn function_round<'a>(case: &Case<'a>) -> Result<Option<Function<'a>>, AllocError> {
    let before = case.before(Part::Domains);
    let Some(domain) = case.last(before, Seek::AnyDomain)? else {
        return Ok(None);
    };
    let Some(opener) = case.last(before, Seek::AnyFunction)? else {
        return Ok(None);
    };
    let block = case.block(Part::Domains, domain, Seek::AnyDomain)?;
    let of = at(&case.row_at(domain)?, 3);
    let name = at(&case.row_at(opener)?, 1);
    let method = method_of(case, of, name)?;
    Ok(Some(Function {
        opener,
        domain: block,
        of,
        method,
    }))
}

// Whether none of the first registers is known.
fn forget<'a>(registers: &mut Registers<'a>) {
    'registers: for number in 0..8usize {
        registers.put(
            number,
            Content {
                held: Held::Unsure,
                line: 0,
                moved: false,
            },
        );
    }
}

// The registers at the first line of a function.
fn at_start<'a>(case: &Case<'a>, function: &Function<'a>) -> Result<Registers<'a>, AllocError> {
    let mut registers = Registers { each: [EMPTY; 32] };
    let Some(method) = &function.method else {
        forget(&mut registers);
        return Ok(registers);
    };
    let params = params_of(case.alloc, &method.row)?;
    'params: for number in 0..params.len() {
        if !params[number].is_sure() {
            forget(&mut registers);
            return Ok(registers);
        }
        registers.put(
            number,
            Content {
                held: params[number],
                line: 0,
                moved: false,
            },
        );
    }
    Ok(registers)
}

// What the line of a slot or an import names behind its colon.
fn type_declared<'a>(
    case: &Case<'a>,
    function: &Function<'a>,
    seek: Seek<'_>,
) -> Result<Option<&'a [u8]>, AllocError> {
    match case.first(function.domain, seek)? {
        Some(line) => {
            let row = case.row_at(line)?;
            Ok(Some(at(&row, 3)))
        }
        None => Ok(None),
    }
}

// What stands in a register behind `take` or `cap`.
fn looked_up<'a>(
    case: &Case<'a>,
    function: &Function<'a>,
    row: &[Token<'a>],
) -> Result<Held<'a>, AllocError> {
    let name = at(row, 3);
    if is(row, 0, b"cap") {
        return match type_declared(case, function, Seek::Import(name))? {
            Some(of) => Ok(Held::Interface(of)),
            None => Ok(Held::Unsure),
        };
    }
    match type_declared(case, function, Seek::Slot(name))? {
        Some(of) => Ok(Held::Own(of)),
        None => Ok(Held::Unsure),
    }
}

/// The method that a call in code calls, where the register's trait is known.
pub fn method_called<'a>(
    case: &Case<'a>,
    registers: &Registers<'a>,
    row: &[Token<'a>],
) -> Result<Option<Method<'a>>, AllocError> {
    match registers.of(at(row, 1)).held {
        Held::Interface(of) => method_of(case, of, at(row, 3)),
        _ => Ok(None),
    }
}

// The results that a call in code has, if they are known.
fn results_called<'a>(
    case: &Case<'a>,
    registers: &Registers<'a>,
    row: &[Token<'a>],
    looks: bool,
) -> Result<Vec<Held<'a>>, AllocError> {
    if !looks {
        return Ok(Vec::new(case.alloc));
    }
    match method_called(case, registers, row)? {
        Some(method) => results_of(case.alloc, &method.row),
        None => Ok(Vec::new(case.alloc)),
    }
}

// The registers behind a call that returned.
fn behind_call<'a>(
    case: &Case<'a>,
    registers: &mut Registers<'a>,
    row: &[Token<'a>],
    line: usize,
    looks: bool,
) -> Result<(), AllocError> {
    let results = results_called(case, registers, row, looks)?;
    let sure = crate::kinds::are_sure(&results);
    registers.leave_passed(row, line);
    let Some(arrow) = find(row, 0, b"->") else {
        return Ok(());
    };
    let stop = find(row, arrow, b"else").unwrap_or(row.len());
    let mut count = 0usize;
    'places: for place in arrow..stop {
        if register(at(row, place)).is_some() {
            let held = match results.get(count) {
                Some(held) if sure => *held,
                _ => Held::Unsure,
            };
            registers.write(at(row, place), held, line);
            count = count.saturating_add(1);
        }
    }
    Ok(())
}

// The registers behind an instruction that looks nothing up.
fn behind_instruction<'a>(registers: &mut Registers<'a>, row: &[Token<'a>], line: usize) {
    let first = at(row, 1);
    match at(row, 0) {
        b"const"
        | b"add"
        | b"sub"
        | b"mul"
        | b"div"
        | b"rem"
        | b"and"
        | b"or"
        | b"xor"
        | b"lt"
        | b"eq"
        | b"get"
        | b"wget"
        | b"has"
        | b"devsize" => { registers.write(first, Held::Number(b""), line) }
        b"copy" => {
            let content = registers.of(at(row, 3));
            registers.write(first, content.held, line);
        }
        b"move" => {
            let content = registers.of(at(row, 3));
            registers.empty(at(row, 3), line);
            registers.write(first, content.held, line);
        }
        b"new" => registers.write(first, Held::Own(at(row, 3)), line),
        b"unhang" => registers.write(first, Held::Unsure, line),
        b"drop" => registers.empty(first, line),
        b"put" => registers.empty(at(row, 3), line),
        b"hang" => registers.empty(at(row, 5), line),
        _ => {}
    }
}

// The registers behind a line. Names are looked up only where there is leave to do so.
fn pass<'a>(
    case: &Case<'a>,
    function: &Function<'a>,
    registers: &mut Registers<'a>,
    row: &[Token<'a>],
    line: usize,
    looks: bool,
) -> Result<(), AllocError> {
    if is_head(row) {
        behind_head(registers, row, line);
        return Ok(());
    }
    match at(row, 0) {
        b"call" => behind_call(case, registers, row, line, looks),
        b"take" | b"cap" => {
            let held = if looks {
                looked_up(case, function, row)?
            } else {
                Held::Unsure
            };
            registers.write(at(row, 1), held, line);
            Ok(())
        }
        _ => {
            behind_instruction(registers, row, line);
            Ok(())
        }
    }
}

fn looks_up(row: &[Token<'_>]) -> bool {
    match at(row, 0) {
        b"call" | b"take" | b"cap" => true,
        _ => false,
    }
}

/// What the registers hold before the refused line of a function.
pub fn before<'a>(case: &Case<'a>, function: &Function<'a>) -> Result<Registers<'a>, AllocError> {
    let mut registers = at_start(case, function)?;
    let mut looked = 0usize;
    let mut row = Vec::new(case.alloc);
    'lines: for line in function.opener.saturating_add(1)..case.number {
        read(&mut row, case.line(line))?;
        if looks_up(&row) {
            looked = looked.saturating_add(1);
        }
        pass(
            case,
            function,
            &mut registers,
            &row,
            line,
            looked < MOST_LOOKED,
        )?;
    }
    Ok(registers)
}
