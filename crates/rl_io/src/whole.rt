//! All bytes of a source, and all bytes to a sink.
ghost use Rattle.std.specs.Prelude.{◌≡◌, ◌<◌, ◌≤◌, ◌≢◌, length, take, vec_len, Err, IfOk, OnOk, OnErr};
ghost use Rattle.std.specs.Io.KnownBytes.{Consumes, IsAtEnd, Appends};
ghost use Rattle.rl_io.specs.Causes.{Rose, HasCause};
ghost use Rattle.rl_io.specs.Whole.{ConsumesAtMost, ConsumesMoreThan, AppendsShort};

use crate::{Failed, Sink, Source};
use std::alloc::{AllocError, Global};

/// Why not all bytes were read.
#[derive(Clone, Copy, Debug, PartialEq, Eq)]
pub enum ReadAll {
    /// The source failed.
    Fault,
    /// More bytes came than the limit.
    TooLong,
    /// Memory ran out.
    Memory,
}

// How many bytes the first `take` has room for.
const FIRST_ROOM: usize = 16 * 1024;

// Makes the list longer by zeros, at least twice as long, so that room for all bytes is made in few
// steps.
fn lengthen(bytes: &mut Vec<u8>) -> Result<(), AllocError>
    ensures longer { OnOk result (vec_len bytes.old < vec_len bytes.new) }
    ensures front { take (vec_len bytes.old) bytes.new.items ≡ bytes.old.items }
{
    let more = bytes.len().max(FIRST_ROOM);
    let Some(len) = bytes.len().checked_add(more) else {
        return Err(AllocError);
    };
    bytes.resize(len, 0)
}

/// All bytes that the source has left, where they are at most `limit`. They go straight into the
/// list that is answered.
///
/// # Errors
///
/// [`ReadAll::Fault`] where a `take` failed, [`ReadAll::TooLong`] where more than `limit` bytes
/// came, and [`ReadAll::Memory`].
pub fn read_whole<S: Source>(
    alloc: Global,
    source: &mut S,
    limit: usize,
) -> Result<Vec<u8>, ReadAll>
    // All bytes came, to the end, and they are at most so many.
    ensures bytes { IfOk result (λ v. Consumes (S.left source.old) (S.left source.new) v.items) }
    ensures end { OnOk result (IsAtEnd (S.left source.new)) }
    ensures short { IfOk result (λ v. length v.items ≤ limit) }

    ensures fault { result ≡ Err ReadAll.Fault → Rose (S.faults source.old) (S.faults source.new) }
    ensures long { result ≡ Err ReadAll.TooLong → ConsumesMoreThan limit (S.left source.old) (S.left source.new) }
    ensures not_long { result ≢ Err ReadAll.TooLong → ConsumesAtMost limit (S.left source.old) (S.left source.new) }
    ensures later { S.faults source.old ≤ S.faults source.new }
{
    let mut bytes = Vec::new(alloc);
    let mut filled = 0;
    'takes: while filled <= limit {
        if filled == bytes.len() && lengthen(&mut bytes).is_err() {
            return Err(ReadAll::Memory);
        }
        match source.take(&mut bytes[filled..]) {
            Ok(0) => {
                bytes.truncate(filled);
                return Ok(bytes);
            }
            Ok(count) => filled += count,
            Err(Failed) => return Err(ReadAll::Fault),
        }
    }
    Err(ReadAll::TooLong)
}

/// Gives all bytes.
///
/// # Errors
///
/// [`Failed`] where a `give` failed. Then a front of the bytes was given, and not all of them.
pub fn write_whole<K: Sink>(sink: &mut K, bytes: &[u8]) -> Result<(), Failed>
    ensures whole { OnOk result (Appends (K.given sink.old) (K.given sink.new) bytes.now) }
    ensures front { OnErr result (AppendsShort (K.given sink.old) (K.given sink.new) bytes.now) }
    ensures cause { HasCause (K.faults sink.old) (K.faults sink.new) result }
{
    let mut at = 0;
    'pieces: while at < bytes.len() {
        at += sink.give(&bytes[at..])?;
    }
    Ok(())
}
