//! The note on a refusal.
ghost use Rattle.std.specs.Prelude.{◌≡◌, ◌≤◌, ◌++◌, ◌⊎◌, [], map, take, length, replicate, slice_get, Some, None, IfOk, OnOk, IfSome};
ghost use Rattle.std.specs.Option.{option_copied};
ghost use Rattle.rl_defs.specs.Lines.{lines_of};
ghost use Rattle.rl_text.specs.Places.{text_of, AreNumbered};
ghost use Rattle.refusal_notes.specs.Notes.{IsNote, AddsOther, PointsInto, line_of, shown_byte, shown_text, shown_line, place_text, rule_text, marks_text, block_text, other_text, section_text};

use crate::sentences::sentence;
use refusal_hints::hint::Hint;
use refusal_hints::put::{put, put_number};
use refusal_hints::why::why;
use rl_defs::Refusal;
use rl_text::line::{LONGEST_TEXT, Line, lines};
use std::alloc::{AllocError, Global};

/// The most bytes of a line that are shown.
const MOST_SHOWN: usize = 120;

// A byte as it is shown: no byte that isn't printable reaches a terminal.
fn shown_byte(byte: u8) -> u8
    ensures { result ≡ shown_byte byte }
{
    if byte == b'\t' {
        return b' ';
    }
    if (0x20..=0x7E).contains(&byte) {
        byte
    } else {
        b'?'
    }
}

// Puts bytes as they are shown.
fn put_bytes(out: &mut Vec<u8>, bytes: &[u8]) -> Result<(), AllocError>
    ensures { OnOk result (out.new.items ≡ out.old.items ++ map shown_byte bytes.now) }
{
    'bytes: for byte in bytes {
        if out.push(shown_byte(*byte)).is_err() {
            return Err(AllocError);
        }
    }
    Ok(())
}

// The front of a line that is shown.
fn front(text: &[u8]) -> &[u8]
    ensures { result.now ≡ take MOST_SHOWN text.now }
{
    if text.len() <= MOST_SHOWN {
        return text;
    }
    let (front, _) = text.split_at(MOST_SHOWN);
    front
}

// Puts a line as it is shown.
fn put_line(out: &mut Vec<u8>, text: &[u8]) -> Result<(), AllocError>
    ensures { OnOk result (out.new.items ≡ out.old.items ++ shown_line text.now) }
{
    put(out, b"    | ")?;
    put_bytes(out, front(text))?;
    put(out, b"\n")
}

// Puts a byte so many times.
fn put_times(out: &mut Vec<u8>, byte: u8, count: usize) -> Result<(), AllocError>
    ensures { OnOk result (out.new.items ≡ out.old.items ++ replicate count byte) }
{
    'times: for _ in 0..count {
        if out.push(byte).is_err() {
            return Err(AllocError);
        }
    }
    Ok(())
}

// Puts marks under so many bytes from a column on.
fn put_marks(out: &mut Vec<u8>, column: usize, width: usize) -> Result<(), AllocError>
    ensures { OnOk result (out.new.items ≡ out.old.items ++ marks_text column width) }
{
    if width == 0 {
        return Ok(());
    }
    put(out, b"    | ")?;
    put_times(out, b' ', column.saturating_sub(1))?;
    put_times(out, b'^', width)?;
    put(out, b"\n")
}

// Puts the refused line, if there is one, with marks under it.
fn put_block(
    out: &mut Vec<u8>,
    line: Option<&[u8]>,
    column: usize,
    width: usize,
) -> Result<(), AllocError>
    ensures { OnOk result (out.new.items ≡ out.old.items ++ block_text (option_copied line.entry) column width) }
{
    match line {
        Some(text) => {
            put_line(out, text)?;
            put_marks(out, column, width)
        }
        None => Ok(()),
    }
}

// Puts the place of a refusal.
fn put_place(out: &mut Vec<u8>, line: u32, column: usize) -> Result<(), AllocError>
    ensures { OnOk result (out.new.items ≡ out.old.items ++ place_text line column) }
{
    if line == 0 {
        return Ok(());
    }
    put_number(out, u64::from(line))?;
    put(out, b":")?;
    put_number(out, column as u64)?;
    put(out, b": ")
}

// Puts a rule with what is said of it.
fn put_rule(out: &mut Vec<u8>, rule: u8, says: &[u8]) -> Result<(), AllocError>
    ensures { OnOk result (out.new.items ≡ out.old.items ++ rule_text rule says.now) }
{
    put(out, b"rule ")?;
    put_number(out, u64::from(rule))?;
    put(out, b": ")?;
    put(out, says)?;
    put(out, b"\n")
}

// Puts another line.
fn put_named(out: &mut Vec<u8>, number: u32, text: &[u8]) -> Result<(), AllocError>
    ensures { OnOk result (out.new.items ≡ out.old.items ++ other_text number text.now) }
{
    put(out, b"line ")?;
    put_number(out, u64::from(number))?;
    put(out, b":\n")?;
    put_line(out, text)
}

// Puts where a rule is explained.
fn put_section(out: &mut Vec<u8>, rule: u8) -> Result<(), AllocError>
    ensures { OnOk result (out.new.items ≡ out.old.items ++ section_text rule) }
{
    put(out, b"see docs/RULES.md#rule-")?;
    put_number(out, u64::from(rule))?;
    put(out, b"\n")
}

// The bytes of a line of a bundle, by its number.
fn line_at<'a>(bytes: &'a [u8], lines: &[Line], number: u32) -> Option<&'a [u8]>
    requires texts { map (text_of bytes.now) lines.now ≡ lines_of bytes.now }
    requires numbered { AreNumbered bytes.now 1 lines.now }
    ensures { option_copied result ≡ line_of (Some bytes.now) number }
{
    if number == 0 {
        return None;
    }
    match lines.get(number as usize - 1) {
        Some(line) => Some(line.text(bytes)),
        None => None,
    }
}

// How many blanks and TABs come first.
fn blanks(text: &[u8]) -> usize {
    text.iter()
        .take_while(|byte| **byte == b' ' || **byte == b'\t')
        .count()
}

// A column that points into a line: this one where it does, or else that of the first byte that is
// no blank.
fn column_in(line: Option<&[u8]>, column: usize) -> usize
    ensures { PointsInto (option_copied line.entry) result }
{
    let Some(text) = line else {
        return 1;
    };
    let wanted = if column == 0 {
        blanks(text).saturating_add(1)
    } else {
        column
    };
    if wanted <= text.len() {
        return wanted;
    }
    text.len() + 1
}

// How many bytes are marked from a column on: no more than are shown.
fn width_in(column: usize, hint: &Hint) -> usize {
    if hint.column != column {
        return 0;
    }
    hint.width.min((MOST_SHOWN + 1).saturating_sub(column))
}

// Puts the other line that a hint names, where it is a line of the bundle.
fn put_other(out: &mut Vec<u8>, bytes: &[u8], lines: &[Line], hint: &Hint) -> Result<(), AllocError>
    requires texts { map (text_of bytes.now) lines.now ≡ lines_of bytes.now }
    requires numbered { AreNumbered bytes.now 1 lines.now }
    ensures { OnOk result (AddsOther (Some bytes.now) out.old.items out.new.items) }
{
    let Some(number) = hint.other else {
        return Ok(());
    };
    let Ok(number) = u32::try_from(number) else {
        return Ok(());
    };
    match line_at(bytes, lines, number) {
        Some(text) => put_named(out, number, text),
        None => Ok(()),
    }
}

// What is told of a refusal where the bytes of the bundle aren't at hand.
fn short_note(alloc: Global, at: Refusal) -> Result<Vec<u8>, AllocError>
    ensures { IfOk result (λ text. IsNote at.line at.rule None text.items) }
{
    let mut out = Vec::new(alloc);
    put_place(&mut out, at.line, 1)?;
    put_rule(&mut out, at.rule, sentence(at.rule).as_bytes())?;
    put_section(&mut out, at.rule)?;
    Ok(out)
}

// What is told of a refusal with a hint.
fn long_note(
    alloc: Global,
    at: Refusal,
    bytes: &[u8],
    lines: &[Line],
    hint: &Hint,
) -> Result<Vec<u8>, AllocError>
    requires texts { map (text_of bytes.now) lines.now ≡ lines_of bytes.now }
    requires numbered { AreNumbered bytes.now 1 lines.now }
    ensures { IfOk result (λ text. IsNote at.line at.rule (Some bytes.now) text.items) }
{
    let line = line_at(bytes, lines, at.line);
    let column = column_in(line, hint.column);
    let mut out = Vec::new(alloc);
    put_place(&mut out, at.line, column)?;
    put_rule(&mut out, at.rule, sentence(at.rule).as_bytes())?;
    put_block(&mut out, line, column, width_in(column, hint))?;
    put(&mut out, &hint.said)?;
    put_other(&mut out, bytes, lines, hint)?;
    put_section(&mut out, at.rule)?;
    Ok(out)
}

/// What is told of a refusal: its place, the rule with a sentence that says what it refuses, the
/// line with a mark under the place, what was found and what was expected as far as that is sure,
/// another line that has to do with it, and where the rule is explained. The bytes are those of the
/// bundle, where they are at hand. Where memory runs out while a reason is looked for, none is
/// told.
pub fn note(alloc: Global, at: Refusal, bytes: Option<&[u8]>) -> Result<Vec<u8>, AllocError>
    requires { IfSome bytes (λ b. length b.now ≤ LONGEST_TEXT) }
    ensures { IfOk result (λ text. IsNote at.line at.rule (option_copied bytes.entry) text.items) }
{
    let Some(bytes) = bytes else {
        return short_note(alloc, at);
    };
    let lines = lines(alloc, bytes)?;
    let hint = match why(alloc, bytes, &lines, at) {
        Ok(hint) => hint,
        Err(AllocError) => Hint::new(alloc),
    };
    long_note(alloc, at, bytes, &lines, &hint)
}
