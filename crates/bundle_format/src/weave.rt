//! All lines of a bundle, one behind the other.
ghost use Rattle.std.specs.Prelude.{◌≡◌, map, IfOk};
ghost use Rattle.rl_text.specs.Places.{text_of, AreNumbered};
ghost use Rattle.bundle_format.specs.Woven.{AreWoven};

use crate::line::put_line;
use crate::queue::Queue;
use rl_text::line::Line;
use std::alloc::{AllocError, Global};

/// The lines of a bundle as they are written, with these canonical lines.
pub(crate) fn weave(
    alloc: Global,
    bytes: &[u8],
    lines: &[Line],
    canonical: &Queue<'_>,
) -> Result<Vec<u8>, AllocError>
    requires { AreNumbered bytes.now 1 lines.now }
    ensures { IfOk result (λ v. AreWoven (map (text_of canonical.now.bytes.now) canonical.now.lines.now)
        (map (text_of bytes.now) lines.now) v.items) }
{
    let mut queue = *canonical;
    let mut out = Vec::new(alloc);
    'lines: for line in lines {
        put_line(alloc, &mut out, bytes, line, &mut queue)?;
    }
    Ok(out)
}
