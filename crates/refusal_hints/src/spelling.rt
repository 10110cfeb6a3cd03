//! Rule 1 where a line has no tokens: bytes that may not stand there, and numbers, words and texts
//! that are none.

use crate::hint::{Hint, digits};
use crate::tokens::part;
use rl_defs::name::LONGEST_WORD;
use rl_text::scan::{Next, next_token};
use rl_text::token::LONGEST_LINE;
use std::alloc::{AllocError, Global};

const HEX: &[u8; 16] = b"0123456789ABCDEF";

// Whether a byte may stand in a line.
fn is_line_byte(byte: u8) -> bool {
    byte == b'\t' || (0x20..=0x7E).contains(&byte)
}

fn is_word_byte(byte: u8) -> bool {
    byte == b'_' || byte.is_ascii_alphanumeric()
}

// The place of the first byte, from a place on, that may not stand in a line.
fn bad_byte(line: &[u8], from: usize) -> Option<usize> {
    'bytes: for place in from..line.len() {
        if !is_line_byte(line[place]) {
            return Some(place);
        }
    }
    None
}

// The place of the first byte from a place on that is no blank.
fn behind_blanks(line: &[u8], from: usize) -> usize {
    let rest = part(line, from, line.len());
    let blanks = rest
        .iter()
        .take_while(|byte| **byte == b' ' || **byte == b'\t')
        .count();
    from.saturating_add(blanks)
}

// The place of the first byte that belongs to no token and may not stand behind them.
fn stray(line: &[u8]) -> Option<usize> {
    if line.len() > LONGEST_LINE {
        return None;
    }
    let mut at = 0usize;
    'tokens: for _ in 0..LONGEST_LINE + 1 {
        match next_token(line, at.min(line.len())) {
            Next::Found(found) => at = found.stop,
            Next::Stray => return Some(behind_blanks(line, at)),
            Next::End => return bad_byte(line, at),
        }
    }
    None
}

fn hex_digit(value: u8) -> u8 {
    HEX[usize::from(value & 15)]
}

// Says that a byte may not stand in a line.
fn tell_byte(hint: &mut Hint, place: usize, byte: u8) -> Result<(), AllocError> {
    hint.column = place.saturating_add(1);
    hint.width = 1;
    if byte == b'\r' {
        hint.found(&[b"a carriage return that no line feed follows directly"])?;
        return hint.expected(&[b"a line feed directly behind it, or no carriage return"]);
    }
    let code = [hex_digit(byte >> 4), hex_digit(byte)];
    hint.found(&[b"the byte 0x", code.as_slice()])?;
    hint.expected(&[b"ASCII: bytes from 0x20 to 0x7E, and TABs"])
}

// How many bytes of a text come first.
fn text_len(rest: &[u8]) -> usize {
    rest.iter()
        .take_while(|byte| (0x20..=0x7E).contains(*byte) && **byte != b'"')
        .count()
}

// Says why a quote begins no text.
fn tell_text(hint: &mut Hint, line: &[u8], place: usize) -> Result<(), AllocError> {
    let start = place.saturating_add(1);
    let stop = start.saturating_add(text_len(part(line, start, line.len())));
    match line.get(stop) {
        Some(byte) if *byte == b'\t' => {
            hint.column = stop.saturating_add(1);
            hint.width = 1;
            hint.found(&[b"a TAB in a text"])?;
            hint.expected(&[b"bytes from 0x20 to 0x7E in a text"])
        }
        Some(byte) => tell_byte(hint, stop, *byte),
        None => {
            hint.column = start;
            hint.width = 1;
            hint.found(&[b"a text without its second quote"])?;
            hint.expected(&[b"`\"` at its end"])
        }
    }
}

// Says that a number is too large.
fn tell_large(hint: &mut Hint, run: &[u8]) -> Result<(), AllocError> {
    hint.found(&[b"the number ", run])?;
    hint.expected(&[b"a number of at most 18446744073709551615, which is 2^64 - 1"])
}

// Says what follows the digits of a number directly, so many bytes behind its start.
fn tell_behind_digits(hint: &mut Hint, run: &[u8], count: usize) -> Result<(), AllocError> {
    hint.column = hint.column.saturating_add(count);
    let rest = part(run, count, run.len());
    hint.width = rest.len();
    hint.found(&[b"`", rest, b"` directly behind a number"])?;
    hint.expected(&[b"a blank or a mark between them"])
}

// Says why letters and digits that begin with `0x` are no number.
fn tell_hexadecimal(hint: &mut Hint, run: &[u8]) -> Result<(), AllocError> {
    let digits = part(run, 2, run.len());
    let count = digits
        .iter()
        .take_while(|byte| byte.is_ascii_hexdigit())
        .count();
    if digits.is_empty() {
        hint.found(&[b"`0x` without a digit"])?;
        return hint.expected(&[b"hexadecimal digits behind it"]);
    }
    if count == digits.len() {
        return tell_large(hint, run);
    }
    tell_behind_digits(hint, run, count.saturating_add(2))
}

// Says why letters and digits that begin with a digit are no number.
fn tell_number(hint: &mut Hint, run: &[u8]) -> Result<(), AllocError> {
    if run.starts_with(b"0x") {
        return tell_hexadecimal(hint, run);
    }
    if run.starts_with(b"0X") {
        hint.found(&[b"`", run, b"`"])?;
        return hint.expected(&[b"a small `x`, as in `0x10`"]);
    }
    let count = run.iter().take_while(|byte| byte.is_ascii_digit()).count();
    if count == run.len() {
        return tell_large(hint, run);
    }
    tell_behind_digits(hint, run, count)
}

// Says why letters and digits are neither a word nor a number.
fn tell_run(alloc: Global, hint: &mut Hint, line: &[u8], place: usize) -> Result<(), AllocError> {
    let rest = part(line, place, line.len());
    let count = rest.iter().take_while(|byte| is_word_byte(**byte)).count();
    let run = part(rest, 0, count);
    hint.column = place.saturating_add(1);
    hint.width = count;
    match run {
        [first, ..] if first.is_ascii_digit() => tell_number(hint, run),
        _ if count > LONGEST_WORD => {
            let length = digits(alloc, count)?;
            hint.found(&[b"a word of ", length.as_slice(), b" bytes"])?;
            hint.expected(&[b"at most 24 bytes"])
        }
        _ => Ok(()),
    }
}

// Says why no token stands at a place.
fn tell_stray(alloc: Global, hint: &mut Hint, line: &[u8], place: usize) -> Result<(), AllocError> {
    let Some(first) = line.get(place) else {
        return Ok(());
    };
    if !is_line_byte(*first) {
        return tell_byte(hint, place, *first);
    }
    if *first == b'"' {
        return tell_text(hint, line, place);
    }
    if is_word_byte(*first) {
        return tell_run(alloc, hint, line, place);
    }
    hint.column = place.saturating_add(1);
    hint.width = 1;
    let byte = [*first];
    hint.found(&[b"`", byte.as_slice(), b"`"])?;
    hint.expected(&[
        b"a word, a number, a text, or one of the marks { } ( ) [ ] < > : ; , = . & * @ # ->",
    ])
}

/// Says why a line has no tokens. False where it has them.
pub fn tell(alloc: Global, hint: &mut Hint, line: &[u8]) -> Result<bool, AllocError> {
    if line.len() > LONGEST_LINE {
        hint.column = LONGEST_LINE + 1;
        hint.width = 1;
        let length = digits(alloc, line.len())?;
        hint.found(&[b"a line of ", length.as_slice(), b" bytes"])?;
        hint.expected(&[b"at most 2048 bytes"])?;
        return Ok(true);
    }
    match stray(line) {
        Some(place) => {
            tell_stray(alloc, hint, line, place)?;
            Ok(true)
        }
        None => Ok(false),
    }
}
