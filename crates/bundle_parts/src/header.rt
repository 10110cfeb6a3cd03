//! The headers of a bundle's parts.
ghost use Rattle.std.specs.Prelude.{◌≡◌, ◌≤◌, ℕ, List, [], ◌==◌, not, length, take, drop, IfOk, slice_get, Some};
ghost use Rattle.std.specs.List.{prefix_len};
ghost use Rattle.rl_defs.specs.Tokens.{is_blank};
ghost use Rattle.rl_defs.specs.BundleParts.{header_place};
ghost use Rattle.rl_text.specs.Places.{text_of, IsWithin};
ghost use Rattle.rl_text.specs.Whole.{GivesWhole};
ghost use Rattle.bundle_parts.specs.Headers.{header_of, header_named, header_at, Sees, IsHeaderOrNone, begins_with_bracket};

use rl_defs::LoadFault;
use rl_defs::lexeme::Mark;
use rl_text::cursor::{Cursor, Stop};
use rl_text::lexeme::{Lexeme, lexemes};
use rl_text::line::Line;
use std::alloc::AllocError;

/// A header, by its part.
#[derive(Clone, Copy, Debug)]
pub(crate) enum Header {
    Interfaces,
    Domains,
    Plan,
    Clients,
}

impl Header {
    /// The place of the part among the parts of a bundle.
    pub(crate) fn place(self) -> u8
        ensures { result ≡ header_place (header_of self) }
    {
        match self {
            Header::Interfaces => 0,
            Header::Domains => 1,
            Header::Plan => 2,
            Header::Clients => 3,
        }
    }
}

/// What a line is, wherever it stands.
#[derive(Clone, Copy, Debug)]
pub(crate) enum Sight {
    /// It has no tokens.
    Blank,
    Header(Header),
    Other,
}

// The header whose word this is.
fn named(word: &[u8]) -> Option<Header>
    ensures { result ≡ header_named word.now }
{
    if word == b"idl".as_slice() {
        return Some(Header::Interfaces);
    }
    if word == b"domains".as_slice() {
        return Some(Header::Domains);
    }
    if word == b"plan".as_slice() {
        return Some(Header::Plan);
    }
    if word == b"clients".as_slice() {
        return Some(Header::Clients);
    }
    None
}

// The header that all tokens of a line are.
#[tactic(auto, unfolding(crate::specs::Headers::header_at))]
fn whole_header(left: &mut Cursor<'_>) -> Result<Header, Stop>
    ensures { GivesWhole result (header_at left.old) }
{
    left.mark(Mark::OpenBracket)?;
    let name = left.name()?;
    left.mark(Mark::CloseBracket)?;
    left.end()?;
    match named(name.bytes()) {
        Some(header) => Ok(header),
        None => Err(Stop::NoForm),
    }
}

/// What a line is. It is refused by rule 1 exactly where it breaks a sentence on lines and tokens.
/// The buffer is for its lexemes.
pub(crate) fn look(buffer: &mut Vec<Lexeme>, bytes: &[u8], line: &Line) -> Result<Sight, LoadFault>
    requires { IsWithin bytes.now line.now }
    ensures { Sees line.now.number (text_of bytes.now line.now) result }
{
    lexemes(buffer, bytes, line)?;
    let all = buffer.as_slice();
    if all.is_empty() {
        return Ok(Sight::Blank);
    }
    let mut left = Cursor::new(line.text(bytes), all);
    match whole_header(&mut left) {
        Ok(header) => Ok(Sight::Header(header)),
        Err(Stop::NoForm) => Ok(Sight::Other),
        Err(Stop::Memory) => Err(LoadFault::Memory),
    }
}

/// How many blanks and TABs come first.
pub fn blanks(text: &[u8]) -> usize
    ensures count { result ≡ prefix_len is_blank text.now }
    ensures within { result ≤ length text.now }
{
    text.iter()
        .take_while(|byte| **byte == b' ' || **byte == b'\t')
        .count()
}

/// Whether the first byte that is no blank is a `[`. In an accepted bundle only headers begin so.
pub fn begins_with_bracket(text: &[u8]) -> bool
    ensures { result ≡ begins_with_bracket text.now }
{
    match text.get(blanks(text)) {
        Some(byte) => *byte == b'[',
        None => false,
    }
}

/// The header that a line is, if it is one. Most lines are told by one byte, and their tokens
/// aren't read.
pub(crate) fn header_in(
    buffer: &mut Vec<Lexeme>,
    bytes: &[u8],
    line: &Line,
) -> Result<Option<Header>, AllocError>
    requires { IsWithin bytes.now line.now }
    ensures { IfOk result (λ header. IsHeaderOrNone (text_of bytes.now line.now) header) }
{
    if !begins_with_bracket(line.text(bytes)) {
        return Ok(None);
    }
    match look(buffer, bytes, line) {
        Ok(Sight::Header(header)) => Ok(Some(header)),
        Ok(Sight::Blank) => Ok(None),
        Ok(Sight::Other) => Ok(None),
        Err(LoadFault::Refused(_)) => Ok(None),
        Err(LoadFault::Memory) => Err(AllocError),
    }
}
