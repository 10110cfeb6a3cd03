//! Rules 30 to 37: domain code.

use crate::case::{Case, Part, Seek, is_head};
use crate::control;
use crate::hint::{Hint, digits};
use crate::kinds::{Held, Method, agree, are_sure, params_of, results_of};
use crate::registers::{Content, Function, Registers, before, function_round, method_called};
use crate::tokens::{Token, at, find, is, register};
use std::alloc::{AllocError, Global};

/// What a register is to hold.
#[derive(Clone, Copy, Debug, PartialEq, Eq)]
enum Want {
    Number,
    Copied,
    Owned,
    Object,
    Interface,
    Passed,
}

// A register that a line reads, by its place, and what it is to hold.
#[derive(Clone, Copy, Debug)]
struct Read {
    place: usize,
    want: Want,
}

// Whether what is held is what is wanted. None where it isn't known.
fn meets(want: Want, held: Held<'_>) -> Option<bool> {
    match held {
        Held::Unsure => None,
        Held::Nothing => Some(false),
        Held::Number(_) => {
            Some(want == Want::Number || want == Want::Copied || want == Want::Passed)
        }
        Held::Own(_) => Some(want == Want::Owned || want == Want::Object || want == Want::Passed),
        Held::Lent(_) => Some(want == Want::Copied || want == Want::Object),
        Held::Interface(_) => {
            Some(want == Want::Copied || want == Want::Interface || want == Want::Passed)
        }
    }
}

fn want_text(want: Want) -> &'static [u8] {
    match want {
        Want::Number => b"a number",
        Want::Copied => b"a number, a lent object or an interface",
        Want::Owned => b"an own object",
        Want::Object => b"an own or a lent object",
        Want::Interface => b"an interface",
        Want::Passed => b"a number, an own object or an interface",
    }
}

fn add(all: &mut Vec<Read>, place: usize, want: Want) -> Result<(), AllocError> {
    all.push(Read { place, want })?;
    Ok(())
}

// The registers that a call reads.
fn call_reads(all: &mut Vec<Read>, row: &[Token<'_>]) -> Result<(), AllocError> {
    add(all, 1, Want::Interface)?;
    let close = find(row, 0, b")").unwrap_or(0);
    'args: for place in 5..close {
        if register(at(row, place)).is_some() {
            let lent = is(row, place.saturating_sub(1), b"&");
            add(all, place, if lent { Want::Object } else { Want::Passed })?;
        }
    }
    Ok(())
}

// The registers that a `ret` reads.
fn result_reads(all: &mut Vec<Read>, row: &[Token<'_>]) -> Result<(), AllocError> {
    'places: for place in 1..row.len() {
        if register(at(row, place)).is_some() {
            add(all, place, Want::Passed)?;
        }
    }
    Ok(())
}

// The registers that an instruction of two or three registers reads.
fn few_reads(all: &mut Vec<Read>, word: &[u8]) -> Result<(), AllocError> {
    match word {
        b"copy" => add(all, 3, Want::Copied),
        b"add" | b"sub" | b"mul" | b"div" | b"rem" | b"and" | b"or" | b"xor" | b"lt" | b"eq" => {
            add(all, 3, Want::Number)?;
            add(all, 5, Want::Number)
        }
        b"move" | b"unhang" | b"put" => add(all, 3, Want::Owned),
        b"get" => {
            add(all, 3, Want::Object)?;
            add(all, 5, Want::Number)
        }
        b"set" => {
            add(all, 1, Want::Owned)?;
            add(all, 3, Want::Number)?;
            add(all, 5, Want::Number)
        }
        b"hang" => {
            add(all, 1, Want::Owned)?;
            add(all, 5, Want::Owned)
        }
        b"devget" => {
            add(all, 1, Want::Owned)?;
            add(all, 3, Want::Number)
        }
        b"devput" => {
            add(all, 1, Want::Number)?;
            add(all, 3, Want::Object)
        }
        _ => Ok(()),
    }
}

// The registers that an instruction reads, and what each is to hold.
fn reads(alloc: Global, row: &[Token<'_>]) -> Result<Vec<Read>, AllocError> {
    let mut all = Vec::new(alloc);
    match at(row, 0) {
        b"jz" => add(&mut all, 1, Want::Number)?,
        b"drop" => add(&mut all, 1, Want::Owned)?,
        b"wget" => add(&mut all, 3, Want::Number)?,
        b"wput" => {
            add(&mut all, 1, Want::Number)?;
            add(&mut all, 3, Want::Number)?;
        }
        b"call" => call_reads(&mut all, row)?,
        b"ret" => result_reads(&mut all, row)?,
        word => few_reads(&mut all, word)?,
    }
    Ok(all)
}

// What a register holds in words, with the line that made it so.
fn content_text(
    alloc: Global,
    content: Content<'_>,
    function: &Function<'_>,
) -> Result<Vec<u8>, AllocError> {
    let mut text = content.held.in_words(alloc)?;
    let line = digits(alloc, content.line)?;
    let is_nothing = matches!(content.held, Held::Nothing);
    if content.line == 0 {
        if !is_nothing && function.method.is_some() {
            text.extend_from_slice(b", a parameter of the method")?;
        }
        return Ok(text);
    }
    let why: &[u8] = if !is_nothing {
        b", since line "
    } else if content.moved {
        b": its object was moved by line "
    } else {
        b": it isn't listed by the head in line "
    };
    text.extend_from_slice(why)?;
    text.extend_from_slice(&line)?;
    Ok(text)
}

/// Says what a register holds.
pub fn tell_register(
    case: &Case<'_>,
    hint: &mut Hint,
    function: &Function<'_>,
    word: &[u8],
    content: Content<'_>,
) -> Result<(), AllocError> {
    let text = content_text(case.alloc, content, function)?;
    if content.line != 0 {
        hint.see(content.line);
    }
    hint.found(&[b"`", word, b"` holds ", text.as_slice()])
}

// Says which register doesn't hold what the line asks for. False where none is known not to.
fn tell_read(
    case: &Case<'_>,
    hint: &mut Hint,
    function: &Function<'_>,
    registers: &Registers<'_>,
) -> Result<bool, AllocError> {
    let reads = reads(case.alloc, &case.row)?;
    'reads: for read in reads.as_slice() {
        let word = at(&case.row, read.place);
        let content = registers.of(word);
        if meets(read.want, content.held) == Some(false) {
            hint.mark_at(&case.row, read.place);
            tell_register(case, hint, function, word, content)?;
            hint.expected(&[want_text(read.want)])?;
            return Ok(true);
        }
    }
    Ok(false)
}

// Whether each register is known to hold what the line asks for.
fn all_met(case: &Case<'_>, registers: &Registers<'_>) -> Result<bool, AllocError> {
    let reads = reads(case.alloc, &case.row)?;
    'reads: for read in reads.as_slice() {
        if meets(read.want, registers.of(at(&case.row, read.place)).held) != Some(true) {
            return Ok(false);
        }
    }
    Ok(true)
}

// The place of a register that stands before it too, from a place on and up to another one.
fn repeated(row: &[Token<'_>], from: usize, to: usize) -> Option<usize> {
    'places: for place in from..to {
        if register(at(row, place)).is_some() {
            if let Some(first) = find(row, from, at(row, place)) {
                if first < place {
                    return Some(place);
                }
            }
        }
    }
    None
}

// Says that a register is named twice where all are to be distinct. False where none is.
fn tell_repeated(
    hint: &mut Hint,
    row: &[Token<'_>],
    from: usize,
    to: usize,
) -> Result<bool, AllocError> {
    let Some(place) = repeated(row, from, to) else {
        return Ok(false);
    };
    hint.mark_at(row, place);
    hint.found(&[b"`", at(row, place), b"` twice"])?;
    hint.expected(&[b"distinct registers"])?;
    Ok(true)
}

// What an argument of a call hands over, by its register's content.
fn handed<'a>(row: &[Token<'_>], place: usize, held: Held<'a>) -> Held<'a> {
    let lends = is(row, place.saturating_sub(1), b"&");
    match held {
        Held::Own(of) if lends => Held::Lent(of),
        _ => held,
    }
}

// The place of an argument by its number.
fn argument_place(row: &[Token<'_>], number: usize) -> Option<usize> {
    let close = find(row, 0, b")")?;
    let mut count = 0usize;
    'places: for place in 5..close {
        if register(at(row, place)).is_some() {
            if count == number {
                return Some(place);
            }
            count = count.saturating_add(1);
        }
    }
    None
}

// Says what a register holds, and what a method's line wants there.
fn tell_wanted(
    case: &Case<'_>,
    hint: &mut Hint,
    function: &Function<'_>,
    word: &[u8],
    content: Content<'_>,
    wanted: Held<'_>,
    method: usize,
) -> Result<(), AllocError> {
    tell_register(case, hint, function, word, content)?;
    let line = digits(case.alloc, method)?;
    let wanted = wanted.in_words(case.alloc)?;
    hint.see(method);
    hint.expected(&[wanted.as_slice(), b", as line ", line.as_slice(), b" says"])
}

// Says which argument of a call is of another kind than its parameter.
fn tell_argument<'a>(
    case: &Case<'a>,
    hint: &mut Hint,
    function: &Function<'a>,
    registers: &Registers<'a>,
) -> Result<bool, AllocError> {
    let Some(method) = method_called(case, registers, &case.row)? else {
        return Ok(false);
    };
    let params = params_of(case.alloc, &method.row)?;
    'params: for number in 0..params.len() {
        let wanted = params[number];
        let Some(place) = argument_place(&case.row, number) else {
            return Ok(false);
        };
        let content = registers.of(at(&case.row, place));
        let held = handed(&case.row, place, content.held);
        let lends = is(&case.row, place.saturating_sub(1), b"&");
        if !wanted.is_sure() || !held.is_sure() || (lends && !is_object(held)) {
            return Ok(false);
        }
        if !agree(held, wanted) || is_lent_as_other(&case.row, place, wanted) {
            hint.mark_at(&case.row, place);
            let word = at(&case.row, place);
            if is_other_way(content.held, wanted) {
                tell_way(case, hint, word, wanted, method.line)?;
            } else {
                tell_wanted(case, hint, function, word, content, wanted, method.line)?;
            }
            return Ok(true);
        }
    }
    Ok(false)
}

fn is_object(held: Held<'_>) -> bool {
    matches!(held, Held::Own(_) | Held::Lent(_))
}

// Whether a loan or an interface isn't written as its parameter wants it: a loan with `&`, an
// interface without.
fn is_lent_as_other(row: &[Token<'_>], place: usize, wanted: Held<'_>) -> bool {
    let lends = is(row, place.saturating_sub(1), b"&");
    match wanted {
        Held::Lent(_) => !lends,
        _ => lends,
    }
}

// Whether an object is of the struct that is wanted, but moved where it is to be lent, or lent
// where it is to be moved.
fn is_other_way(held: Held<'_>, wanted: Held<'_>) -> bool {
    match (held, wanted) {
        (Held::Own(of), Held::Own(other)) => of == other,
        (Held::Own(of), Held::Lent(other)) => of == other,
        (Held::Lent(of), Held::Lent(other)) => of == other,
        _ => false,
    }
}

// Says in which way an object is to be handed over.
fn tell_way(
    case: &Case<'_>,
    hint: &mut Hint,
    word: &[u8],
    wanted: Held<'_>,
    method: usize,
) -> Result<(), AllocError> {
    let line = digits(case.alloc, method)?;
    hint.see(method);
    if let Held::Own(_) = wanted {
        hint.found(&[b"`&", word, b"`, which lends the object"])?;
        return hint.expected(&[
            b"`",
            word,
            b"`, which moves it, as line ",
            line.as_slice(),
            b" says",
        ]);
    }
    hint.found(&[b"`", word, b"` without `&`"])?;
    hint.expected(&[
        b"`&",
        word,
        b"`, which lends the object, as line ",
        line.as_slice(),
        b" says",
    ])
}

// Says how many results a method has, where a `ret` names more or fewer.
fn tell_result_count(
    case: &Case<'_>,
    hint: &mut Hint,
    method: &Method<'_>,
    wanted: usize,
    named: usize,
) -> Result<(), AllocError> {
    let wanted = digits(case.alloc, wanted)?;
    let named = digits(case.alloc, named)?;
    let line = digits(case.alloc, method.line)?;
    hint.mark_at(&case.row, 0);
    hint.see(method.line);
    hint.found(&[b"registers: ", named.as_slice()])?;
    hint.expected(&[
        wanted.as_slice(),
        b", one for each result of the method in line ",
        line.as_slice(),
    ])
}

// Says why a `ret` doesn't fit the method.
fn tell_results(
    case: &Case<'_>,
    hint: &mut Hint,
    function: &Function<'_>,
    registers: &Registers<'_>,
) -> Result<bool, AllocError> {
    let Some(method) = &function.method else {
        return Ok(false);
    };
    let results = results_of(case.alloc, &method.row)?;
    if !are_sure(&results) {
        return Ok(false);
    }
    let named = reads(case.alloc, &case.row)?;
    if named.len() != results.len() {
        tell_result_count(case, hint, method, results.len(), named.len())?;
        return Ok(true);
    }
    'results: for number in 0..results.len().min(named.len()) {
        let place = named[number].place;
        let word = at(&case.row, place);
        let content = registers.of(word);
        if content.held.is_sure() && !agree(content.held, results[number]) {
            hint.mark_at(&case.row, place);
            tell_wanted(
                case,
                hint,
                function,
                word,
                content,
                results[number],
                method.line,
            )?;
            return Ok(true);
        }
    }
    Ok(false)
}

// Says that a slot is for another struct.
fn tell_slot(
    case: &Case<'_>,
    hint: &mut Hint,
    function: &Function<'_>,
    registers: &Registers<'_>,
) -> Result<bool, AllocError> {
    let slot = Seek::Slot(at(&case.row, 1));
    let Some(line) = case.first(function.domain, slot)? else {
        return Ok(false);
    };
    let row = case.row_at(line)?;
    let wanted = Held::Own(at(&row, 3));
    let word = at(&case.row, 3);
    let content = registers.of(word);
    if !content.held.is_sure() || agree(content.held, wanted) {
        return Ok(false);
    }
    hint.mark_at(&case.row, 3);
    tell_wanted(case, hint, function, word, content, wanted, line)?;
    Ok(true)
}

// Says what is left, where all registers are known to hold what the instruction asks for.
fn tell_rest(
    case: &Case<'_>,
    hint: &mut Hint,
    function: &Function<'_>,
    registers: &Registers<'_>,
) -> Result<(), AllocError> {
    if !all_met(case, registers)? {
        return Ok(());
    }
    let row = &case.row;
    let (object, place, wanted): (usize, usize, &[u8]) = match at(row, 0) {
        b"devget" => (1, 1, b"an object whose struct has 64 cells of `u64`"),
        b"devput" => (3, 3, b"an object whose struct has 64 cells of `u64`"),
        b"hang" => (
            1,
            3,
            b"the place of a cell that is an `RRef` of the other object's struct",
        ),
        b"unhang" => (3, 5, b"the place of a cell that is an `RRef`"),
        _ => return Ok(()),
    };
    hint.mark_at(row, place);
    let word = at(row, object);
    tell_register(case, hint, function, word, registers.of(word))?;
    hint.expected(&[wanted])
}

// Rule 30: which register doesn't hold what the line asks for.
fn tell_kind<'a>(
    case: &Case<'a>,
    hint: &mut Hint,
    function: &Function<'a>,
    registers: &Registers<'a>,
) -> Result<(), AllocError> {
    let row = &case.row;
    if is_head(row) {
        let _ = tell_repeated(hint, row, 2, row.len())?;
        return Ok(());
    }
    if is(row, 0, b"call") && tell_argument(case, hint, function, registers)? {
        return Ok(());
    }
    if tell_read(case, hint, function, registers)? {
        return Ok(());
    }
    let told = match at(row, 0) {
        b"move" => tell_repeated(hint, row, 1, row.len())?,
        b"put" => tell_slot(case, hint, function, registers)?,
        b"ret" => tell_results(case, hint, function, registers)?,
        b"call" => {
            let arrow = find(row, 0, b"->").unwrap_or(row.len());
            let stop = find(row, arrow, b"else").unwrap_or(row.len());
            tell_repeated(hint, row, arrow, stop)?
        }
        _ => false,
    };
    if told {
        return Ok(());
    }
    tell_rest(case, hint, function, registers)
}

// The places of the registers that a line writes.
fn writes(alloc: Global, row: &[Token<'_>]) -> Result<Vec<usize>, AllocError> {
    let mut all = Vec::new(alloc);
    match at(row, 0) {
        b"jz"
        | b"drop"
        | b"set"
        | b"wput"
        | b"put"
        | b"devget"
        | b"devput"
        | b"hang"
        | b"jmp"
        | b"ret"
        | b"trap" => {}
        b"call" => {
            let close = find(row, 0, b")").unwrap_or(row.len());
            let stop = row.len().saturating_sub(1);
            'places: for place in close..stop {
                if register(at(row, place)).is_some() {
                    all.push(place)?;
                }
            }
        }
        _ => all.push(1)?,
    }
    Ok(all)
}

// The registers when the line has moved what it moves.
fn when_moved<'a>(registers: &Registers<'a>, row: &[Token<'a>], line: usize) -> Registers<'a> {
    let mut left = *registers;
    match at(row, 0) {
        b"move" => left.leave(at(row, 3), line),
        b"call" => left.leave_passed(row, line),
        _ => {}
    }
    left
}

// The lowest register that holds an own object and isn't named by the line.
fn left_own(registers: &Registers<'_>, row: &[Token<'_>]) -> Option<usize> {
    'registers: for number in 0..32usize {
        if registers.get(number).held.is_own() && !names(row, number) {
            return Some(number);
        }
    }
    None
}

// Whether a line names a register.
fn names(row: &[Token<'_>], number: usize) -> bool {
    'places: for place in 1..row.len() {
        if register(at(row, place)) == Some(number) {
            return true;
        }
    }
    false
}

/// The word of a register.
pub fn word_of(alloc: Global, number: usize) -> Result<Vec<u8>, AllocError> {
    let mut word = Vec::from_slice(alloc, b"r")?;
    word.extend_from_slice(&digits(alloc, number)?)?;
    Ok(word)
}

// Rule 31, at a `ret`: which object is left behind.
fn tell_left(
    case: &Case<'_>,
    hint: &mut Hint,
    function: &Function<'_>,
    registers: &Registers<'_>,
) -> Result<(), AllocError> {
    hint.mark_at(&case.row, 0);
    let Some(number) = left_own(registers, &case.row) else {
        return Ok(());
    };
    let word = word_of(case.alloc, number)?;
    tell_register(case, hint, function, &word, registers.get(number))?;
    hint.expected(&[b"an object that is returned, dropped or put away before the `ret`"])
}

// Rule 31: which object the line would lose.
fn tell_lost(
    case: &Case<'_>,
    hint: &mut Hint,
    function: &Function<'_>,
    registers: &Registers<'_>,
) -> Result<(), AllocError> {
    if is(&case.row, 0, b"ret") {
        return tell_left(case, hint, function, registers);
    }
    let left = when_moved(registers, &case.row, case.number);
    let places = writes(case.alloc, &case.row)?;
    'places: for place in places.as_slice() {
        let word = at(&case.row, *place);
        let content = left.of(word);
        if content.held.is_own() {
            hint.mark_at(&case.row, *place);
            tell_register(case, hint, function, word, content)?;
            return hint.expected(&[b"a register without an own object, since the line writes it"]);
        }
    }
    Ok(())
}

// Whether a register at a place holds an own object, and stands at an earlier place too.
fn goes_twice(row: &[Token<'_>], from: usize, place: usize, registers: &Registers<'_>) -> bool {
    let word = at(row, place);
    match find(row, from, word) {
        Some(first) => first < place && registers.of(word).held.is_own(),
        None => false,
    }
}

// Rule 34: which object goes two ways.
fn tell_two_ways(
    case: &Case<'_>,
    hint: &mut Hint,
    registers: &Registers<'_>,
) -> Result<(), AllocError> {
    let row = &case.row;
    let is_call = is(row, 0, b"call");
    let from = if is_call { 5usize } else { 1 };
    let to = if is_call {
        find(row, 0, b")").unwrap_or(0)
    } else {
        row.len()
    };
    'places: for place in from..to {
        if register(at(row, place)).is_some() && goes_twice(row, from, place, registers) {
            hint.mark_at(row, place);
            hint.found(&[
                b"the object in `",
                at(row, place),
                b"`, which goes two ways",
            ])?;
            return hint.expected(&[b"one way for an object in a line: moved once, or lent"]);
        }
    }
    Ok(())
}

// Rules 30 to 34, by what the registers hold.
fn tell_function<'a>(
    case: &Case<'a>,
    hint: &mut Hint,
    rule: u8,
    function: &Function<'a>,
) -> Result<(), AllocError> {
    let registers = before(case, function)?;
    match rule {
        30 => tell_kind(case, hint, function, &registers),
        31 => tell_lost(case, hint, function, &registers),
        32 => control::tell_entry(case, hint, function, &registers),
        34 => tell_two_ways(case, hint, &registers),
        36 => control::tell_call(case, hint, &registers),
        _ => Ok(()),
    }
}

/// Rules 30 to 37: why a line of domain code is refused.
pub fn tell(case: &Case<'_>, hint: &mut Hint, rule: u8) -> Result<(), AllocError> {
    let is_call = is(&case.row, 0, b"call") && !is_head(&case.row);
    match rule {
        33 => control::tell_label(case, hint),
        35 => control::tell_declared(case, hint),
        37 => control::tell_end(case, hint),
        36 if !is_call => control::tell_missing(case, hint),
        _ => match function_round(case)? {
            Some(function) => tell_function(case, hint, rule, &function),
            None => Ok(()),
        },
    }
}
