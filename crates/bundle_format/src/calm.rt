//! The call that formats what a source has, and writes it to a sink.
ghost use Rattle.std.specs.Prelude.{◌≡◌, ◌≢◌, ◌≤◌, ◌⊎◌, ◌↔◌, ◌++◌, [], map, length, string_bytes, IfOk, OnOk};
ghost use Rattle.std.specs.Fmt.{decimal};
ghost use Rattle.std.specs.Io.KnownBytes.{Appends};
ghost use Rattle.rl_io.specs.Causes.{Rose};
ghost use Rattle.rl_io.specs.Whole.{ConsumesAtMost, ConsumesMoreThan, AppendsShort};
ghost use Rattle.bundle_format.specs.Outcomes.{refusal_text, Answers, WasDone, WasRefused, WasTooWide, WasCutOff};
ghost use Rattle.bundle_format.specs.Statuses.{IsSilent};

use crate::format::{FormatFault, format_bundle};
use crate::put::put;
use crate::status::Status;
use rl_defs::Refusal;
use rl_io::{Failed, ReadAll, Sink, Source, read_whole, write_whole};
use rl_text::line::LONGEST_TEXT;
use std::alloc::{AllocError, Global};

// What the bytes of a bundle are answered.
#[derive(Drop)]
enum Reply {
    // It is formatted.
    Formatted(Vec<u8>),
    // Rule 1 or 2 refuses it.
    Refused(Vec<u8>),
    // As it would be written, a line or the bundle is too long.
    TooWide,
}

// Puts a number in decimal.
fn put_number(alloc: Global, out: &mut Vec<u8>, number: u64) -> Result<(), AllocError>
    ensures { OnOk result (out.new.items ≡ out.old.items ++ decimal number) }
{
    let text = number.to_string(alloc)?;
    put(out, text.as_bytes())
}

// What is printed where a line is refused.
fn refusal_text(alloc: Global, at: Refusal) -> Result<Vec<u8>, AllocError>
    ensures { IfOk result (λ text. text.items ≡ refusal_text at.line at.rule) }
{
    let mut text = Vec::new(alloc);
    put(&mut text, b"refused line ")?;
    put_number(alloc, &mut text, u64::from(at.line))?;
    put(&mut text, b" rule ")?;
    put_number(alloc, &mut text, u64::from(at.rule))?;
    put(&mut text, b"\n")?;
    Ok(text)
}

// What the bytes of a bundle are answered.
fn reply_to(alloc: Global, bytes: &[u8]) -> Result<Reply, AllocError>
    requires { length bytes.now ≤ LONGEST_TEXT }
    ensures { IfOk result (λ reply. Answers bytes.now reply) }
{
    match format_bundle(alloc, bytes) {
        Ok(text) => Ok(Reply::Formatted(text)),
        Err(FormatFault::Refused(at)) => Ok(Reply::Refused(refusal_text(alloc, at)?)),
        Err(FormatFault::TooWide) => Ok(Reply::TooWide),
        Err(FormatFault::Memory) => Err(AllocError),
    }
}

// Gives a whole text, and answers the status for which it stands.
fn give<K: Sink>(sink: &mut K, text: &[u8], status: Status) -> Status
    requires { status ≢ Status.WriteFault }
    ensures status { (result ≡ status) ⊎ (result ≡ Status.WriteFault) }
    ensures whole { result ≢ Status.WriteFault → Appends (K.given sink.old) (K.given sink.new) text.now }
    ensures front { result ≡ Status.WriteFault → AppendsShort (K.given sink.old) (K.given sink.new) text.now }
    ensures cause { result ≡ Status.WriteFault → Rose (K.faults sink.old) (K.faults sink.new) }
    ensures later { K.faults sink.old ≤ K.faults sink.new }
{
    match write_whole(sink, text) {
        Ok(()) => status,
        Err(Failed) => Status::WriteFault,
    }
}

/// Reads a bundle from the source to its end, and writes it to the sink in its canonical spelling,
/// where no words are given. Each line stays at its place and keeps its comment. A bundle that rule
/// 1 or 2 refuses is answered by the line and the rule, as when it is checked.
///
/// It always returns. The whole text is made before its first byte is given, and from then on no
/// memory is taken.
///
/// Each status but [`Status::Memory`] comes only for its cause.
pub fn format_calm<S: Source, K: Sink>(
    alloc: Global,
    words: &[String],
    source: &mut S,
    sink: &mut K,
) -> Status
    // The bundle was written line by line in its canonical spelling. What was written fares as the
    // bundle does: it is accepted where the bundle is, with the same load, and else refused at the
    // same line by the same rule.
    ensures done { result ≡ Status.Done
        → WasDone LONGEST_TEXT (map string_bytes words.now) (S.left source.old) (S.left source.new)
        (K.given sink.old) (K.given sink.new) }
    // The bytes that were read to the end are refused by rule 1 or 2, and so they are when they are
    // checked.
    ensures refused { result ≡ Status.Refused
        → WasRefused LONGEST_TEXT (map string_bytes words.now) (S.left source.old) (S.left source.new)
        (K.given sink.old) (K.given sink.new) }
    // As it would be written, the bundle is longer than it may be, or doesn't stand for the same
    // lines.
    ensures too_wide { result ≡ Status.TooWide
        → WasTooWide LONGEST_TEXT (map string_bytes words.now) (S.left source.old) (S.left source.new) }
    // A front of the text of Done or of Refused.
    ensures cut_off { result ≡ Status.WriteFault
        → WasCutOff LONGEST_TEXT (map string_bytes words.now) (S.left source.old) (S.left source.new)
        (K.given sink.old) (K.given sink.new) }

    ensures usage { (result ≡ Status.Usage) ↔ (map string_bytes words.now ≢ []) }
    ensures read_fault { result ≡ Status.ReadFault → Rose (S.faults source.old) (S.faults source.new) }
    ensures write_fault { result ≡ Status.WriteFault → Rose (K.faults sink.old) (K.faults sink.new) }
    ensures too_long { result ≡ Status.TooLong → ConsumesMoreThan LONGEST_TEXT (S.left source.old) (S.left source.new) }
    ensures not_too_long { result ≢ Status.TooLong
        → ConsumesAtMost LONGEST_TEXT (S.left source.old) (S.left source.new) }

    // What stays the same.
    ensures unread { result ≡ Status.Usage → source.new ≡ source.old }
    ensures unwritten { IsSilent result → sink.new ≡ sink.old }
    ensures source_later { S.faults source.old ≤ S.faults source.new }
    ensures sink_later { K.faults sink.old ≤ K.faults sink.new }
{
    if !words.is_empty() {
        return Status::Usage;
    }
    let bytes = match read_whole(alloc, source, LONGEST_TEXT) {
        Ok(bytes) => bytes,
        Err(ReadAll::Fault) => return Status::ReadFault,
        Err(ReadAll::TooLong) => return Status::TooLong,
        Err(ReadAll::Memory) => return Status::Memory,
    };
    match reply_to(alloc, &bytes) {
        Ok(Reply::Formatted(text)) => give(sink, &text, Status::Done),
        Ok(Reply::Refused(text)) => give(sink, &text, Status::Refused),
        Ok(Reply::TooWide) => Status::TooWide,
        Err(AllocError) => Status::Memory,
    }
}
