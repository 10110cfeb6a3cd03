//! Where the parts of a bundle begin and end.
ghost use Rattle.std.specs.Prelude.{◌≡◌, ℕ, ◌≤◌, List, map, length, slice_range, IfOk};
ghost use Rattle.rl_text.specs.Places.{text_of, AreNumbered};
ghost use Rattle.bundle_parts.specs.Cuts.{StandsAt, IsNext, Reaches, IsReached, is_of, Cuts};

use crate::header::{Header, Sight, header_in, look};
use rl_defs::LoadFault;
use rl_text::lexeme::Lexeme;
use rl_text::line::Line;
use std::alloc::AllocError;

/// Behind how many lines the next header stands; without a header, the end of the lines.
#[derive(Clone, Copy, Debug)]
pub(crate) struct At {
    pub(crate) place: usize,
    pub(crate) header: Option<Header>,
}

/// The first header. Lines before it are passed that have no tokens; others are refused.
pub(crate) fn first_header(
    buffer: &mut Vec<Lexeme>,
    bytes: &[u8],
    lines: &[Line],
) -> Result<At, LoadFault>
    requires { AreNumbered bytes.now 1 lines.now }
    ensures { let texts = map (text_of bytes.now) lines.now in Reaches texts (λ at. IsReached texts 0 at) result }
{
    let mut place = 0;
    'lines: for line in lines {
        let sight = look(buffer, bytes, line)?;
        match sight {
            Sight::Blank => {}
            Sight::Header(header) => {
                return Ok(At {
                    place,
                    header: Some(header),
                });
            }
            Sight::Other => return Err(LoadFault::refused(line.number, 2)),
        }
        place += 1;
    }
    Ok(At {
        place,
        header: None,
    })
}

// The first header behind so many lines.
fn next_header(
    buffer: &mut Vec<Lexeme>,
    bytes: &[u8],
    lines: &[Line],
    from: usize,
) -> Result<At, AllocError>
    requires numbered { AreNumbered bytes.now 1 lines.now }
    requires inside { from ≤ length lines.now }
    ensures { IfOk result (λ at. IsNext (map (text_of bytes.now) lines.now) from at) }
{
    let mut place = from;
    'lines: while place < lines.len() {
        let found = header_in(buffer, bytes, &lines[place])?;
        match found {
            Some(header) => {
                return Ok(At {
                    place,
                    header: Some(header),
                });
            }
            None => {}
        }
        place += 1;
    }
    Ok(At {
        place,
        header: None,
    })
}

impl At {
    // Whether the header of this part stands there.
    fn is_of(self, header: Header) -> bool
        ensures { result ≡ is_of self.header header }
    {
        match self.header {
            Some(found) => found.place() == header.place(),
            None => false,
        }
    }
}

// The lines from one place up to another.
fn between(lines: &[Line], start: usize, end: usize) -> &[Line]
    requires ordered { start ≤ end }
    requires inside { end ≤ length lines.now }
    ensures { result.now ≡ slice_range lines.now start end }
{
    &lines[start..end]
}

/// Cuts a part off where its header stands next: its lines are those up to the next header, or the
/// end. Else the part is missing there, and has no lines.
pub(crate) fn part<'a>(
    buffer: &mut Vec<Lexeme>,
    bytes: &[u8],
    lines: &'a [Line],
    at: &mut At,
    header: Header,
) -> Result<&'a [Line], AllocError>
    requires numbered { AreNumbered bytes.now 1 lines.now }
    requires few { length lines.now ≤ 1048576 }
    requires stands { StandsAt (map (text_of bytes.now) lines.now) at.old.place at.old.header }
    ensures { IfOk result (λ part. Cuts lines.now (map (text_of bytes.now) lines.now) header at.old at.new part.now) }
{
    if !at.is_of(header) {
        return Ok(&lines[..0]);
    }
    let first = at.place + 1;
    let next = next_header(buffer, bytes, lines, first)?;
    *at = next;
    Ok(between(lines, first, next.place))
}
