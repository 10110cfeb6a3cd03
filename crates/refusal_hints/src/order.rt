//! Rule 2: why a line may not stand where it stands.

use crate::case::{Case, Part, header_of, is_head, place_of};
use crate::hint::{Hint, digits};
use crate::tokens::{Token, at, is, read};
use std::alloc::AllocError;

/// What stands before a line in its part.
#[derive(Clone, Copy, Debug)]
struct Before {
    // The lines that open the blocks round it, the outermost first, and how many they are.
    opened: [usize; 2],
    depth: usize,
    // The last line with tokens, and whether control ends there, or a method has to follow.
    last: usize,
    ends: bool,
    marks: bool,
    // The first lines of the innermost domain that declare words, a slot, a native body and a
    // function, 0 where there is none.
    words: usize,
    slot: usize,
    native: usize,
    function: usize,
}

const NOTHING: Before = Before {
    opened: [0, 0],
    depth: 0,
    last: 0,
    ends: false,
    marks: false,
    words: 0,
    slot: 0,
    native: 0,
    function: 0,
};

impl Before {
    // The line that opens the innermost block, 0 where none is open.
    fn opener(&self) -> usize {
        match self.depth {
            0 => 0,
            1 => self.opened[0],
            _ => self.opened[1],
        }
    }

    fn open(&mut self, row: &[Token<'_>], number: usize) {
        if self.depth == 0 {
            self.words = 0;
            self.slot = 0;
            self.native = 0;
            self.function = 0;
        }
        if is(row, 0, b"fn") && self.function == 0 {
            self.function = number;
        }
        if self.depth < 2 {
            self.opened[self.depth] = number;
            self.depth += 1;
        }
    }

    fn declare(&mut self, row: &[Token<'_>], number: usize) {
        match at(row, 0) {
            b"words" if self.words == 0 => self.words = number,
            b"slot" if self.slot == 0 => self.slot = number,
            b"native" if self.native == 0 => self.native = number,
            _ => {}
        }
    }

    // Goes on behind a line with tokens.
    fn pass(&mut self, row: &[Token<'_>], number: usize) {
        let last = row.len().saturating_sub(1);
        self.last = number;
        self.ends = ends(row);
        self.marks = is(row, 0, b"#");
        if is(row, last, b"{") {
            return self.open(row, number);
        }
        if is(row, 0, b"}") {
            self.depth = self.depth.saturating_sub(1);
            return;
        }
        if self.depth == 1 && !is_head(row) {
            self.declare(row, number);
        }
    }
}

// Whether control doesn't go on from a line of code to the next one.
fn ends(row: &[Token<'_>]) -> bool {
    !is_head(row) && (is(row, 0, b"jmp") || is(row, 0, b"ret") || is(row, 0, b"trap"))
}

// What stands before the refused line, behind the header of its part.
fn read_before(case: &Case<'_>, header: usize) -> Result<Before, AllocError> {
    let mut before = NOTHING;
    let mut row = Vec::new(case.alloc);
    'lines: for number in header.saturating_add(1)..case.number {
        read(&mut row, case.line(number))?;
        if !row.is_empty() {
            before.pass(&row, number);
        }
    }
    Ok(before)
}

// Says that a block is left open where a part ends.
fn tell_open(case: &Case<'_>, hint: &mut Hint, opener: usize) -> Result<(), AllocError> {
    let line = digits(case.alloc, opener)?;
    hint.see(opener);
    if case.number > case.count() {
        hint.found(&[b"the end of the bundle"])?;
    } else {
        hint.mark_at(&case.row, 0);
        hint.width = 1;
        hint.found(&[b"the header of another part"])?;
    }
    hint.expected(&[b"`}` of the block that line ", line.as_slice(), b" opens"])
}

// The first line of a header that this one may not stand behind.
fn later_header(case: &Case<'_>, part: Part) -> Result<Option<usize>, AllocError> {
    'lines: for number in 1..case.number {
        let row = case.row_at(number)?;
        if let Some(other) = header_of(&row) {
            if place_of(other) >= place_of(part) {
                return Ok(Some(number));
            }
        }
    }
    Ok(None)
}

// Says which header a header stands behind.
fn tell_header(case: &Case<'_>, hint: &mut Hint, part: Part) -> Result<(), AllocError> {
    hint.mark_at(&case.row, 1);
    let Some(other) = later_header(case, part)? else {
        return Ok(());
    };
    let line = digits(case.alloc, other)?;
    let row = case.row_at(other)?;
    hint.see(other);
    hint.found(&[
        b"`[",
        at(&case.row, 1),
        b"]` behind `[",
        at(&row, 1),
        b"]` of line ",
        line.as_slice(),
    ])?;
    hint.expected(&[
        b"the headers in the order `[idl]`, `[domains]`, `[plan]`, `[clients]`, each once",
    ])
}

// Says what may stand in a block that is open.
fn tell_inside(
    case: &Case<'_>,
    hint: &mut Hint,
    opener: usize,
    wanted: &[u8],
) -> Result<(), AllocError> {
    let line = digits(case.alloc, opener)?;
    hint.see(opener);
    hint.expected(&[
        wanted,
        b", or `}` of the block that line ",
        line.as_slice(),
        b" opens",
    ])
}

fn tell_interface(case: &Case<'_>, hint: &mut Hint, before: &Before) -> Result<(), AllocError> {
    if before.depth == 0 {
        return hint.expected(&[
            b"`struct NAME {`, `trait NAME {` or a header: no block is open here",
        ]);
    }
    if before.marks {
        let line = digits(case.alloc, before.last)?;
        hint.see(before.last);
        return hint.expected(&[
            b"the method that `#[idempotent]` of line ",
            line.as_slice(),
            b" is for",
        ]);
    }
    let opener = case.row_at(before.opener())?;
    if is(&opener, 0, b"trait") || is(&opener, 1, b"trait") {
        return tell_inside(case, hint, before.opener(), b"a method, `#[idempotent]`");
    }
    tell_inside(case, hint, before.opener(), b"a field `NAME: TYPE,`")
}

// Says which line stands in the way of a declaration, if one does.
fn tell_declared(case: &Case<'_>, hint: &mut Hint, before: &Before) -> Result<bool, AllocError> {
    if before.native != 0 {
        hint.see(before.native);
        hint.expected(&[b"beside a native body imports only, and no functions"])?;
        return Ok(true);
    }
    if is(&case.row, 0, b"native") && before.words.max(before.slot) != 0 {
        let other = if before.words != 0 {
            before.words
        } else {
            before.slot
        };
        hint.see(other);
        hint.expected(&[b"beside a native body imports only"])?;
        return Ok(true);
    }
    if before.function != 0 && !is(&case.row, 0, b"fn") {
        hint.see(before.function);
        hint.expected(&[b"what a domain declares before its functions"])?;
        return Ok(true);
    }
    if is(&case.row, 0, b"words") && before.words != 0 {
        hint.see(before.words);
        hint.expected(&[b"one `words` line in a domain"])?;
        return Ok(true);
    }
    Ok(false)
}

// Whether a line declares something that a domain has.
fn is_declaration(row: &[Token<'_>]) -> bool {
    match at(row, 0) {
        b"fn" => true,
        b"words" | b"slot" | b"import" | b"native" => !is_head(row),
        _ => false,
    }
}

fn tell_domain(case: &Case<'_>, hint: &mut Hint, before: &Before) -> Result<(), AllocError> {
    if before.depth == 0 {
        return hint.expected(&[b"`domain NAME: TRAIT {` or a header: no domain is open here"]);
    }
    if before.depth == 1 {
        if is_declaration(&case.row) && tell_declared(case, hint, before)? {
            return Ok(());
        }
        return tell_inside(
            case,
            hint,
            before.opener(),
            b"`words`, `slot`, `import`, `native`, or `fn NAME {` round code",
        );
    }
    if before.ends && !is_declaration(&case.row) && !is(&case.row, 0, b"domain") {
        let line = digits(case.alloc, before.last)?;
        hint.see(before.last);
        return hint.expected(&[
            b"`LABEL:` or `}`: control doesn't go on behind line ",
            line.as_slice(),
        ]);
    }
    tell_inside(case, hint, before.opener(), b"an instruction, `LABEL:`")
}

fn tell_client(case: &Case<'_>, hint: &mut Hint, before: &Before) -> Result<(), AllocError> {
    if before.depth == 0 {
        return hint.expected(&[b"`client NAME {`: no client is open here"]);
    }
    tell_inside(case, hint, before.opener(), b"a command")
}

// Says what was found, by its first tokens.
fn tell_found(case: &Case<'_>, hint: &mut Hint) -> Result<(), AllocError> {
    hint.mark_at(&case.row, 0);
    hint.found(&[b"a line that begins with `", at(&case.row, 0), b"`"])
}

/// Rule 2: why a line may not stand where it stands.
pub fn tell(case: &Case<'_>, hint: &mut Hint) -> Result<(), AllocError> {
    let Some((part, header)) = case.part_of(case.number)? else {
        tell_found(case, hint)?;
        return hint.expected(&[b"`[idl]`, `[domains]`, `[plan]` or `[clients]` before it"]);
    };
    let before = read_before(case, header)?;
    let own = header_of(&case.row);
    if case.number > case.count() || own.is_some() {
        if before.opener() != 0 {
            return tell_open(case, hint, before.opener());
        }
        return match own {
            Some(part) => tell_header(case, hint, part),
            None => Ok(()),
        };
    }
    tell_found(case, hint)?;
    match part {
        Part::Interfaces => tell_interface(case, hint, &before),
        Part::Domains => tell_domain(case, hint, &before),
        Part::Plan => Ok(()),
        Part::Clients => tell_client(case, hint, &before),
    }
}
