//! A refused line in its bundle, and the search for other lines.

use crate::tokens::{Token, at, find, is, is_name, part, read};
use rl_text::line::Line;
use std::alloc::{AllocError, Global};

/// The parts of a bundle, in their order.
#[derive(Clone, Copy, Debug, PartialEq, Eq)]
pub enum Part {
    Interfaces,
    Domains,
    Plan,
    Clients,
}

/// Lines from one number up to another one, which is none of them.
#[derive(Clone, Copy, Debug)]
pub struct Span {
    pub from: usize,
    pub to: usize,
}

/// A refused line in its bundle.
#[derive(Drop)]
pub struct Case<'a> {
    pub alloc: Global,
    bytes: &'a [u8],
    lines: &'a [Line],
    /// The number of the refused line, from 1; one more than the last line's where the end of the
    /// bundle is refused.
    pub number: usize,
    /// The tokens of the refused line.
    pub row: Vec<Token<'a>>,
    // The lines of the headers, 0 where there is none.
    heads: [usize; 4],
}

/// What a line is looked for by.
#[derive(Clone, Copy, Debug)]
pub enum Seek<'s> {
    Struct(&'s [u8]),
    Trait(&'s [u8]),
    Method(&'s [u8]),
    Close,
    Domain(&'s [u8]),
    AnyDomain,
    Slot(&'s [u8]),
    Import(&'s [u8]),
    Function(&'s [u8]),
    AnyFunction,
    Words,
    Native,
    Label(&'s [u8]),
    Load(&'s [u8]),
    Target(&'s [u8]),
    ShadowOf(&'s [u8]),
    Bind(&'s [u8], &'s [u8]),
    Device,
    Client(&'s [u8]),
    AnyClient,
    /// A line of a script that binds the name.
    Binds(&'s [u8]),
    /// A line of a script that drops the name, or passes it to a call and neither lends nor copies
    /// a target.
    Passes(&'s [u8]),
}

/// The header that a line is.
pub fn header_of(row: &[Token<'_>]) -> Option<Part> {
    if row.len() != 3 || !is(row, 0, b"[") || !is(row, 2, b"]") {
        return None;
    }
    match at(row, 1) {
        b"idl" => Some(Part::Interfaces),
        b"domains" => Some(Part::Domains),
        b"plan" => Some(Part::Plan),
        b"clients" => Some(Part::Clients),
        _ => None,
    }
}

/// The place of a part among the parts.
pub fn place_of(part: Part) -> usize {
    match part {
        Part::Interfaces => 0,
        Part::Domains => 1,
        Part::Plan => 2,
        Part::Clients => 3,
    }
}

// Whether the name stands in a list of names behind a place.
fn lists(row: &[Token<'_>], from: usize, name: &[u8]) -> bool {
    find(row, from, name).is_some()
}

// Whether a line of a script binds the name.
fn binds(row: &[Token<'_>], name: &[u8]) -> bool {
    match at(row, 0) {
        b"let" | b"text" => is(row, 1, name),
        b"call" => match find(row, 0, b"->") {
            Some(arrow) => lists(row, arrow, name),
            None => false,
        },
        _ => false,
    }
}

// Whether the token at a place is the name, and is neither lent nor a target.
fn passes_at(row: &[Token<'_>], place: usize, name: &[u8]) -> bool {
    let before = place.saturating_sub(1);
    is(row, place, name) && !is(row, before, b"&") && !is(row, before, b"@")
}

// Whether a line of a script drops the name or passes it to a call.
fn passes(row: &[Token<'_>], name: &[u8]) -> bool {
    if is(row, 0, b"drop") {
        return is(row, 1, name);
    }
    if !is(row, 0, b"call") {
        return false;
    }
    let close = find(row, 0, b")").unwrap_or(0);
    'args: for place in 5..close {
        if passes_at(row, place, name) {
            return true;
        }
    }
    false
}

// Whether a line begins with a word, and names this behind it.
fn names(row: &[Token<'_>], word: &[u8], name: &[u8]) -> bool {
    is(row, 0, word) && is(row, 1, name)
}

/// Whether a line of an interface part begins with a word, with `pub` before it or not, and names
/// this behind it.
pub fn declares(row: &[Token<'_>], word: &[u8], name: &[u8]) -> bool {
    let first = if is(row, 0, b"pub") { 1usize } else { 0 };
    is(row, first, word) && is(row, first + 1, name)
}

/// Whether a line of a domain is a head.
pub fn is_head(row: &[Token<'_>]) -> bool {
    is_name(row, 0) && is(row, 1, b":")
}

// Whether it is a line of a domain that begins with this word, and is no head.
fn begins(row: &[Token<'_>], word: &[u8]) -> bool {
    is(row, 0, word) && !is(row, 1, b":")
}

fn fits_domain(row: &[Token<'_>], seek: Seek<'_>) -> bool {
    match seek {
        Seek::Domain(name) => begins(row, b"domain") && is(row, 1, name),
        Seek::AnyDomain => begins(row, b"domain"),
        Seek::Slot(name) => begins(row, b"slot") && is(row, 1, name),
        Seek::Import(name) => begins(row, b"import") && is(row, 1, name),
        Seek::Function(name) => names(row, b"fn", name),
        Seek::AnyFunction => is(row, 0, b"fn"),
        Seek::Words => begins(row, b"words"),
        Seek::Native => begins(row, b"native"),
        Seek::Label(name) => is_head(row) && is(row, 0, name),
        _ => false,
    }
}

fn fits(row: &[Token<'_>], seek: Seek<'_>) -> bool {
    match seek {
        Seek::Struct(name) => declares(row, b"struct", name),
        Seek::Trait(name) => declares(row, b"trait", name),
        Seek::Method(name) => names(row, b"fn", name),
        Seek::Close => is(row, 0, b"}"),
        Seek::Load(name) => names(row, b"load", name),
        Seek::Target(name) => names(row, b"load", name) || names(row, b"shadow", name),
        Seek::ShadowOf(load) => is(row, 0, b"shadow") && is(row, 3, load),
        Seek::Bind(load, import) => names(row, b"bind", load) && is(row, 3, import),
        Seek::Device => is(row, 0, b"device"),
        Seek::Client(name) => names(row, b"client", name),
        Seek::AnyClient => is(row, 0, b"client"),
        Seek::Binds(name) => binds(row, name),
        Seek::Passes(name) => passes(row, name),
        _ => fits_domain(row, seek),
    }
}

// Whether the first byte of a line that is no blank is a `[`.
fn may_be_header(line: &[u8]) -> bool {
    let blanks = line
        .iter()
        .take_while(|byte| **byte == b' ' || **byte == b'\t')
        .count();
    line.get(blanks) == Some(&b'[')
}

impl<'a> Case<'a> {
    /// A refused line, by its bundle's bytes and lines and its number.
    pub fn new(
        alloc: Global,
        bytes: &'a [u8],
        lines: &'a [Line],
        number: usize,
    ) -> Result<Case<'a>, AllocError> {
        let mut case = Case {
            alloc,
            bytes,
            lines,
            number,
            row: Vec::new(alloc),
            heads: [0; 4],
        };
        case.heads = case.headers()?;
        let line = case.line(number);
        read(&mut case.row, line)?;
        Ok(case)
    }

    /// How many lines there are.
    pub fn count(&self) -> usize {
        self.lines.len()
    }

    /// The bytes of a line by its number, none where there is no such line.
    pub fn line(&self, number: usize) -> &'a [u8] {
        match self.lines.get(number.wrapping_sub(1)) {
            Some(line) => part(self.bytes, line.start as usize, line.end as usize),
            None => b"",
        }
    }

    /// The tokens of a line by its number.
    pub fn row_at(&self, number: usize) -> Result<Vec<Token<'a>>, AllocError> {
        let mut row = Vec::new(self.alloc);
        read(&mut row, self.line(number))?;
        Ok(row)
    }

    // The header that a line is, by its number.
    fn header_at(&self, number: usize) -> Result<Option<Part>, AllocError> {
        if !may_be_header(self.line(number)) {
            return Ok(None);
        }
        let row = self.row_at(number)?;
        Ok(header_of(&row))
    }

    // The first header of each part.
    fn headers(&self) -> Result<[usize; 4], AllocError> {
        let mut heads = [0usize; 4];
        'lines: for number in 1..self.lines.len().saturating_add(1) {
            if let Some(part) = self.header_at(number)? {
                let place = place_of(part).min(3);
                if heads[place] == 0 {
                    heads[place] = number;
                }
            }
        }
        Ok(heads)
    }

    /// The part in which a line stands, with the line of its header: that of the last header before
    /// it.
    pub fn part_of(&self, number: usize) -> Result<Option<(Part, usize)>, AllocError> {
        let mut found = None;
        'lines: for line in 1..number.min(self.lines.len().saturating_add(1)) {
            if let Some(part) = self.header_at(line)? {
                found = Some((part, line));
            }
        }
        Ok(found)
    }

    /// The line of the first header of a part, 0 where there is none.
    pub fn head(&self, part: Part) -> usize {
        self.heads[place_of(part).min(3)]
    }

    /// The lines of a part, where the headers stand in their order.
    pub fn span(&self, part: Part) -> Span {
        let head = self.head(part);
        if head == 0 {
            return Span { from: 0, to: 0 };
        }
        let mut to = self.lines.len().saturating_add(1);
        'heads: for other in self.heads {
            if other > head && other < to {
                to = other;
            }
        }
        Span {
            from: head.saturating_add(1),
            to,
        }
    }

    /// The first line that is looked for.
    pub fn first(&self, span: Span, seek: Seek<'_>) -> Result<Option<usize>, AllocError> {
        let mut row = Vec::new(self.alloc);
        'lines: for number in span.from..span.to {
            read(&mut row, self.line(number))?;
            if fits(&row, seek) {
                return Ok(Some(number));
            }
        }
        Ok(None)
    }

    /// The last line that is looked for.
    pub fn last(&self, span: Span, seek: Seek<'_>) -> Result<Option<usize>, AllocError> {
        let mut row = Vec::new(self.alloc);
        'lines: for number in (span.from..span.to).rev() {
            read(&mut row, self.line(number))?;
            if fits(&row, seek) {
                return Ok(Some(number));
            }
        }
        Ok(None)
    }

    /// The lines of a part before the refused one.
    pub fn before(&self, part: Part) -> Span {
        let span = self.span(part);
        Span {
            from: span.from,
            to: span.to.min(self.number),
        }
    }

    /// The lines behind one that opens a block, up to the next that opens one like it, or the end
    /// of the part.
    pub fn block(&self, part: Part, opener: usize, seek: Seek<'_>) -> Result<Span, AllocError> {
        let whole = Span {
            from: opener.saturating_add(1),
            to: self.span(part).to,
        };
        match self.first(whole, seek)? {
            Some(next) => Ok(Span {
                from: whole.from,
                to: next,
            }),
            None => Ok(whole),
        }
    }

    /// The last line with tokens before the refused one.
    pub fn line_before(&self) -> Result<Option<usize>, AllocError> {
        let mut row = Vec::new(self.alloc);
        'lines: for number in (1..self.number).rev() {
            read(&mut row, self.line(number))?;
            if !row.is_empty() {
                return Ok(Some(number));
            }
        }
        Ok(None)
    }
}
