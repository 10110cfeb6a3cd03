//! One line, in its canonical spelling and with its comment.
ghost use Rattle.std.specs.Prelude.{◌≡◌, ◌≤◌, ℕ, List, [], ◌∷◌, ◌++◌, map, take, drop, length, filter, not, replicate, OnOk, IfOk, IfSome};
ghost use Rattle.rl_defs.specs.Tokens.{is_blank};
ghost use Rattle.rl_text.specs.Places.{text_of, IsWithin};
ghost use Rattle.rl_text.specs.TokenPlaces.{AreTokens};
ghost use Rattle.bundle_format.specs.Woven.{TokensEnd, column_of, gap_before, tail_of, unspaced, spelled, left_behind, with_comment, IsLineOf, EndsAt, IsWritten, IsPut};

use crate::put::put;
use crate::queue::Queue;
use bundle_parts::header::{begins_with_bracket, blanks};
use rl_defs::LoadFault;
use rl_text::line::Line;
use rl_text::token::{Token, tokens};
use std::alloc::{AllocError, Global};

// The place in a line behind its last token.
fn behind_last(bytes: &[u8], line: &Line, tokens: &[Token]) -> usize
    requires { AreTokens bytes.now line.now tokens.now }
    ensures ends { TokensEnd (text_of bytes.now line.now) result }
    ensures within { result ≤ length (text_of bytes.now line.now) }
{
    match tokens {
        [] => 0,
        [.., last] => (last.end - line.start) as usize,
    }
}

// Where the tokens of a line end, or None where it can have none.
fn tokens_end(alloc: Global, bytes: &[u8], line: &Line) -> Result<Option<usize>, AllocError>
    requires { IsWithin bytes.now line.now }
    ensures ends { IfOk result (λ stop. EndsAt (text_of bytes.now line.now) stop) }
    ensures within { IfOk result (λ stop. IfSome stop (λ s. s ≤ length (text_of bytes.now line.now))) }
{
    match tokens(alloc, bytes, line) {
        Ok(all) => Ok(Some(behind_last(bytes, line, &all))),
        Err(LoadFault::Refused(_)) => Ok(None),
        Err(LoadFault::Memory) => Err(AllocError),
    }
}

// Puts a text without its blanks and TABs.
fn put_unspaced(out: &mut Vec<u8>, text: &[u8]) -> Result<(), AllocError>
    ensures { OnOk result (out.new.items ≡ out.old.items ++ unspaced text.now) }
{
    'bytes: for byte in text {
        if *byte != b' ' && *byte != b'\t' {
            put(out, &[*byte])?;
        }
    }
    Ok(())
}

// Puts the tokens of a line, which end there, as they are written.
fn put_tokens(
    out: &mut Vec<u8>,
    text: &[u8],
    stop: usize,
    queue: &mut Queue<'_>,
) -> Result<(), AllocError>
    requires { stop ≤ length text.now }
    ensures { let lines = map (text_of queue.old.bytes.now) queue.old.lines.now in
        OnOk result ((out.new.items ≡ out.old.items ++ spelled stop text.now lines)
        × (map (text_of queue.new.bytes.now) queue.new.lines.now ≡ left_behind stop text.now lines)) }
{
    if stop == 0 {
        return Ok(());
    }
    let (tokens, _) = text.split_at(stop);
    if begins_with_bracket(text) {
        return put_unspaced(out, tokens);
    }
    match queue.next() {
        Some(line) => put(out, line),
        None => put(out, tokens),
    }
}

// How many blanks stand before a comment.
fn gap_before(used: usize, column: usize) -> usize
    ensures { result ≡ gap_before used column }
{
    if used == 0 {
        column
    } else if used < column {
        column - used
    } else {
        1
    }
}

fn put_blanks(out: &mut Vec<u8>, count: usize) -> Result<(), AllocError>
    ensures { OnOk result (out.new.items ≡ out.old.items ++ replicate count 32) }
{
    'blanks: for _ in 0..count {
        put(out, b" ")?;
    }
    Ok(())
}

// Puts the comment of a line that stands in a column, behind so many bytes.
fn put_comment(
    out: &mut Vec<u8>,
    used: usize,
    column: usize,
    comment: &[u8],
) -> Result<(), AllocError>
    ensures { OnOk result (out.new.items ≡ out.old.items ++ tail_of used column comment.now) }
{
    if comment.is_empty() {
        return Ok(());
    }
    put_blanks(out, gap_before(used, column))?;
    put(out, comment)
}

// Puts a line whose tokens end there: its tokens as they are written, and its comment.
fn put_commented(
    out: &mut Vec<u8>,
    text: &[u8],
    stop: usize,
    queue: &mut Queue<'_>,
) -> Result<(), AllocError>
    requires { stop ≤ length text.now }
    ensures { let lines = map (text_of queue.old.bytes.now) queue.old.lines.now in
        OnOk result ((out.new.items ≡ out.old.items
        ++ with_comment (spelled stop text.now lines) (column_of stop text.now) text.now)
        × (map (text_of queue.new.bytes.now) queue.new.lines.now ≡ left_behind stop text.now lines)) }
{
    let (_, behind) = text.split_at(stop);
    let column = stop + blanks(behind);
    let (_, comment) = text.split_at(column);
    let before = out.len();
    put_tokens(out, text, stop, queue)?;
    let used = out.len() - before;
    put_comment(out, used, column, comment)
}

// Puts the bytes of a line, as it is written.
fn put_text(
    alloc: Global,
    out: &mut Vec<u8>,
    bytes: &[u8],
    line: &Line,
    queue: &mut Queue<'_>,
) -> Result<(), AllocError>
    requires { IsWithin bytes.now line.now }
    ensures { OnOk result (IsWritten (map (text_of queue.old.bytes.now) queue.old.lines.now)
        (text_of bytes.now line.now)
        (map (text_of queue.new.bytes.now) queue.new.lines.now) out.old.items out.new.items) }
{
    let text = line.text(bytes);
    match tokens_end(alloc, bytes, line)? {
        Some(stop) => put_commented(out, text, stop, queue),
        None => put(out, text),
    }
}

/// Puts a line, as it is written, behind bytes, with a line feed.
pub(crate) fn put_line(
    alloc: Global,
    out: &mut Vec<u8>,
    bytes: &[u8],
    line: &Line,
    queue: &mut Queue<'_>,
) -> Result<(), AllocError>
    requires { IsWithin bytes.now line.now }
    ensures { OnOk result (IsPut (map (text_of queue.old.bytes.now) queue.old.lines.now) (text_of bytes.now line.now)
        (map (text_of queue.new.bytes.now) queue.new.lines.now) out.old.items out.new.items) }
{
    put_text(alloc, out, bytes, line, queue)?;
    put(out, b"\n")
}
