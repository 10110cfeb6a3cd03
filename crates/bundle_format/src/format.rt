//! A whole bundle, formatted.
ghost use Rattle.std.specs.Prelude.{◌≡◌, ◌≤◌, ◌↔◌, IsTrue, length, map, option_map, IfOk, IfErr};
ghost use Rattle.rl_defs.specs.Lines.{lines_of};
ghost use Rattle.rl_defs.specs.BundleParts.{IsBundle};
ghost use Rattle.rl_text.specs.Places.{text_of, AreNumbered};
ghost use Rattle.bundle_format.specs.Canonical.{canonical_text};
ghost use Rattle.bundle_format.specs.Formatted.{Stands, Spells, IsFormatted, HasCause};

use crate::alike::Alike;
use crate::canonical::canonical_text;
use crate::queue::Queue;
use crate::weave::weave;
use bundle_parts::read_bundle;
use rl_defs::bundle::Bundle;
use rl_defs::{LoadFault, Refusal};
use rl_text::line::{LONGEST_TEXT, Line, lines};
use std::alloc::{AllocError, Global};

/// Why a bundle isn't formatted.
#[derive(Clone, Copy, Debug, PartialEq, Eq)]
pub enum FormatFault {
    /// Rule 1 or 2 refuses it.
    Refused(Refusal),
    /// As it would be written, a line or the bundle is longer than it may be.
    TooWide,
    /// Memory ran out.
    Memory,
}

// Whether a text stands for this bundle, and neither rule 1 nor rule 2 refuses it.
fn stands_for(alloc: Global, bundle: &Bundle, text: &[u8]) -> Result<bool, AllocError>
    requires { length text.now ≤ LONGEST_TEXT }
    ensures { IfOk result (λ same. IsTrue same ↔ Stands text.now bundle.now) }
{
    let all = lines(alloc, text)?;
    match read_bundle(alloc, text, &all) {
        Ok(read) => Ok(read.alike(bundle)),
        Err(LoadFault::Refused(_)) => Ok(false),
        Err(LoadFault::Memory) => Err(AllocError),
    }
}

// The bundle's lines as they are written, or None where the canonical text of its parts is longer
// than a bundle may be.
fn spell(
    alloc: Global,
    bytes: &[u8],
    lines_there: &[Line],
    bundle: &Bundle,
) -> Result<Option<Vec<u8>>, AllocError>
    requires texts { map (text_of bytes.now) lines_there.now ≡ lines_of bytes.now }
    requires numbered { AreNumbered bytes.now 1 lines_there.now }
    ensures { IfOk result (λ text. Spells bytes.now bundle.now (option_map (λ v. v.items) text)) }
{
    let canonical = canonical_text(alloc, bundle)?;
    if canonical.len() > LONGEST_TEXT {
        return Ok(None);
    }
    let all = lines(alloc, &canonical)?;
    let queue = Queue::new(&canonical, &all);
    let text = weave(alloc, bytes, lines_there, &queue)?;
    Ok(Some(text))
}

// What formatting a bundle that was read answers.
fn format_read(
    alloc: Global,
    bytes: &[u8],
    lines_there: &[Line],
    bundle: &Bundle,
) -> Result<Vec<u8>, FormatFault>
    requires texts { map (text_of bytes.now) lines_there.now ≡ lines_of bytes.now }
    requires numbered { AreNumbered bytes.now 1 lines_there.now }
    requires stands { Stands bytes.now bundle.now }
    ensures formatted { IfOk result (λ text. IsFormatted bytes.now text.items) }
    ensures fault { IfErr result (λ fault. HasCause bytes.now fault) }
{
    let spelled = match spell(alloc, bytes, lines_there, bundle) {
        Ok(spelled) => spelled,
        Err(_) => return Err(FormatFault::Memory),
    };
    let Some(text) = spelled else {
        return Err(FormatFault::TooWide);
    };
    if text.len() > LONGEST_TEXT {
        return Err(FormatFault::TooWide);
    }
    let same = match stands_for(alloc, bundle, &text) {
        Ok(same) => same,
        Err(_) => return Err(FormatFault::Memory),
    };
    if same {
        Ok(text)
    } else {
        Err(FormatFault::TooWide)
    }
}

/// A bundle in its canonical spelling. Each line stays at its place and keeps its comment, so each
/// number of a line stays what it was. What is written is accepted exactly where the bundle is,
/// with the same load, and is refused at the same line by the same rule. The bundle is refused here
/// where rule 1 or 2 refuses it.
pub fn format_bundle(alloc: Global, bytes: &[u8]) -> Result<Vec<u8>, FormatFault>
    requires { length bytes.now ≤ LONGEST_TEXT }
    ensures formatted { IfOk result (λ text. IsFormatted bytes.now text.items) }
    ensures fault { IfErr result (λ fault. HasCause bytes.now fault) }
{
    let Ok(all) = lines(alloc, bytes) else {
        return Err(FormatFault::Memory);
    };
    match read_bundle(alloc, bytes, &all) {
        Ok(bundle) => format_read(alloc, bytes, &all, &bundle),
        Err(LoadFault::Refused(at)) => Err(FormatFault::Refused(at)),
        Err(LoadFault::Memory) => Err(FormatFault::Memory),
    }
}
