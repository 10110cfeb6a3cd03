//! The lines of a text.
ghost use Rattle.std.specs.Prelude.{◌≡◌, ℕ, ◌+◌, ◌-◌, ◌≤◌, ◌<◌, ◌∷◌, ◌==◌, not, length, map, take, drop, IfOk};
ghost use Rattle.std.specs.List.{prefix_len};
ghost use Rattle.rl_defs.specs.Lines.{lines_of};
ghost use Rattle.rl_text.specs.Places.{text_of, IsWithin, AreLines, AreNumbered, first_number};
ghost use Rattle.rl_text.specs.Cuts.{IsCut, kept};

use memchr::memchr;
use std::alloc::{AllocError, Global};

/// The most bytes that a text may have.
pub const LONGEST_TEXT: usize = 1_048_576;

/// A line of a text: its number, from 1, and the places of its first byte and behind its last. What
/// ends the line, a line feed with a carriage return before it or without one, doesn't belong to
/// it.
#[derive(Clone, Copy, Debug, PartialEq, Eq)]
pub struct Line {
    pub number: u32,
    pub start: u32,
    pub end: u32,
}

impl Line {
    ghost use Rattle.rl_text.specs.Places.{text_of, IsWithin};

    /// The bytes of the line.
    pub fn text<'a>(&self, bytes: &'a [u8]) -> &'a [u8]
        requires { IsWithin bytes.now self.now }
        ensures { result.now ≡ text_of bytes.now self.now }
    {
        &bytes[self.start as usize..self.end as usize]
    }
}

/// All lines of a text, in order.
pub fn lines(alloc: Global, bytes: &[u8]) -> Result<Vec<Line>, AllocError>
    requires { length bytes.now ≤ LONGEST_TEXT }
    ensures texts { IfOk result (λ v. map (text_of bytes.now) v.items ≡ lines_of bytes.now) }
    ensures places { IfOk result (λ v. AreLines bytes.now v.items) }
    ensures numbered { IfOk result (λ v. AreNumbered bytes.now 1 v.items) }
    ensures count { IfOk result (λ v. length v.items ≤ length bytes.now) }
{
    let mut all = Vec::new(alloc);
    let mut start = 0;
    'lines: while start < bytes.len() {
        let (_, rest) = bytes.split_at(start);
        let cut = first_line(rest);
        let line = Line {
            number: all.len() as u32 + 1,
            start: start as u32,
            end: (start + cut.text) as u32,
        };
        all.push(line)?;
        start += cut.whole;
    }
    Ok(all)
}

/// The number of the first line, or 1 where there is none.
pub fn first_number(lines: &[Line]) -> u32
    ensures { result ≡ first_number lines.now }
{
    match lines {
        [] => 1,
        [first, ..] => first.number,
    }
}

// Where the first line ends, without what ends it and with it.
#[derive(Clone, Copy)]
struct Cut {
    text: usize,
    whole: usize,
}

fn first_line(rest: &[u8]) -> Cut
    requires { 0 < length rest.now }
    ensures { IsCut rest.now result.text result.whole }
{
    let feed = content(rest);
    if feed == rest.len() {
        return Cut {
            text: feed,
            whole: feed,
        };
    }
    let (line, _) = rest.split_at(feed);
    Cut {
        text: without_return(line),
        whole: feed + 1,
    }
}

// How many bytes a line has without a carriage return at its end.
fn without_return(line: &[u8]) -> usize
    ensures { result ≡ kept line.now }
{
    let count = line.len();
    if count > 0 && line[count - 1] == b'\r' {
        count - 1
    } else {
        count
    }
}

// How many bytes stand before the first line feed, or in all.
fn content(rest: &[u8]) -> usize
    ensures count { result ≡ prefix_len (λ c. not (c == 10)) rest.now }
    ensures within { result ≤ length rest.now }
{
    match memchr(b'\n', rest) {
        Some(feed) => feed,
        None => rest.len(),
    }
}
