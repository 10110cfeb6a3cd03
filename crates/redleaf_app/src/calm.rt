//! The call that serves every command which waits for nobody.
ghost use Rattle.std.specs.Prelude.{◌≡◌, ◌≢◌, ◌≤◌, ◌⊎◌, ◌↔◌, map, length, string_bytes, IfOk};
ghost use Rattle.std.specs.Io.KnownBytes.{Appends};
ghost use Rattle.rl_io.specs.Causes.{Rose};
ghost use Rattle.rl_io.specs.Whole.{ConsumesAtMost, ConsumesMoreThan, AppendsShort};
ghost use Rattle.redleaf_app.specs.declared.command.Command.TheVariants as command;
ghost use Rattle.redleaf_app.specs.Commands.{AreOfNone};
ghost use Rattle.redleaf_app.specs.Outcomes.{WasDone, WasRefused, WasFull, WasCutOff};
ghost use Rattle.redleaf_app.specs.Replies.{Answers};
ghost use Rattle.redleaf_app.specs.Statuses.{IsSilent};

use crate::command::{Command, command_of};
use crate::put::put_line;
use crate::refusal::refusal_text;
use crate::reply::Reply;
use crate::run::run;
use crate::status::Status;
use domain_loader::load::load;
use rl_defs::LoadFault;
use rl_io::{Failed, ReadAll, Sink, Source, read_whole, write_whole};
use std::alloc::{AllocError, Global};

/// The most bytes that a bundle may have.
pub const LONGEST_BUNDLE: usize = 1_048_576;

// What `check` answers.
fn check(alloc: Global, bytes: &[u8]) -> Result<Reply, AllocError>
    requires { length bytes.now ≤ LONGEST_BUNDLE }
    ensures { IfOk result (λ reply. Answers command.Check bytes.now reply) }
{
    match load(alloc, bytes) {
        Ok(_) => {
            let mut text = Vec::new(alloc);
            put_line(&mut text, b"accepted")?;
            Ok(Reply::Answered(text))
        }
        Err(LoadFault::Refused(at)) => Ok(Reply::Refused(refusal_text(alloc, at)?)),
        Err(LoadFault::Memory) => Err(AllocError),
    }
}

// What a command answers to the bytes of a bundle.
fn reply_to(alloc: Global, command: Command, bytes: &[u8]) -> Result<Reply, AllocError>
    requires { length bytes.now ≤ LONGEST_BUNDLE }
    ensures { IfOk result (λ reply. Answers command bytes.now reply) }
{
    match command {
        Command::Check => check(alloc, bytes),
        Command::Run => run(alloc, bytes),
    }
}

// Gives a whole text, and answers the status for which it stands.
fn give<K: Sink>(sink: &mut K, text: &[u8], status: Status) -> Status
    requires { status ≢ Status.WriteFault }
    ensures status { (result ≡ status) ⊎ (result ≡ Status.WriteFault) }
    ensures whole { result ≢ Status.WriteFault → Appends (K.given sink.old) (K.given sink.new) text.now }
    ensures front { result ≡ Status.WriteFault → AppendsShort (K.given sink.old) (K.given sink.new) text.now }
    ensures cause { result ≡ Status.WriteFault → Rose (K.faults sink.old) (K.faults sink.new) }
    ensures later { K.faults sink.old ≤ K.faults sink.new }
{
    match write_whole(sink, text) {
        Ok(()) => status,
        Err(Failed) => Status::WriteFault,
    }
}

/// Serves the words of a command line, from the source and to the sink. `check` reads a bundle and
/// says whether it is accepted; `run` reads a bundle, runs it in the order of the order list, and
/// writes the history, the replies and the report. What is refused is answered by its line and
/// rule.
///
/// It always returns. The whole text is made before its first byte is given, and from then on no
/// memory is taken.
///
/// Each status but [`Status::Memory`] comes only for its cause. Where nothing fails, that is with
/// the words of a command, a source and a sink whose counts stand still (and below their end), and
/// at most [`LONGEST_BUNDLE`] bytes, the causes of [`Status::Usage`], [`Status::ReadFault`],
/// [`Status::WriteFault`] and [`Status::TooLong`] are absent. So [`Status::Done`],
/// [`Status::Refused`], [`Status::Long`] and [`Status::Memory`] are left, and with ample memory the
/// first three. Of these the bytes decide: where a rule fails, they are refused. Else they stand
/// for one load. With `check` that is all that is asked. With `run` the load is refused where a
/// domain of it has a native body, since none is built yet; else its turns go round the order list,
/// and either every client comes to the end of its script, or the history is full before.
pub fn redleaf_calm<S: Source, K: Sink>(
    alloc: Global,
    words: &[String],
    source: &mut S,
    sink: &mut K,
) -> Status
    // The command did what it is asked for with the source's bytes, and the whole text that tells
    // of it was written: `accepted`, where no rule fails, or the text of a whole and ordered run of
    // the load that the bytes are accepted as.
    ensures done { result ≡ Status.Done
        → WasDone LONGEST_BUNDLE (map string_bytes words.now) (S.left source.old) (S.left source.new)
        (K.given sink.old) (K.given sink.new) }
    // The bytes that were read to the end are refused: by the first rule that fails, or, with
    // `run`, as something that isn't built.
    ensures refused { result ≡ Status.Refused
        → WasRefused LONGEST_BUNDLE (map string_bytes words.now) (S.left source.old) (S.left source.new)
        (K.given sink.old) (K.given sink.new) }
    // The bytes are accepted, and the whole text of an ordered run of their load was written, which
    // stopped before its end, since the history was full.
    ensures long { result ≡ Status.Long
        → WasFull LONGEST_BUNDLE (map string_bytes words.now) (S.left source.old) (S.left source.new)
        (K.given sink.old) (K.given sink.new) }
    // A front of the text of Done, of Refused or of Long.
    ensures cut_off { result ≡ Status.WriteFault
        → WasCutOff LONGEST_BUNDLE (map string_bytes words.now) (S.left source.old) (S.left source.new)
        (K.given sink.old) (K.given sink.new) }

    ensures usage { (result ≡ Status.Usage) ↔ AreOfNone (map string_bytes words.now) }
    ensures read_fault { result ≡ Status.ReadFault → Rose (S.faults source.old) (S.faults source.new) }
    ensures write_fault { result ≡ Status.WriteFault → Rose (K.faults sink.old) (K.faults sink.new) }
    ensures too_long { result ≡ Status.TooLong
        → ConsumesMoreThan LONGEST_BUNDLE (S.left source.old) (S.left source.new) }
    ensures not_too_long { result ≢ Status.TooLong
        → ConsumesAtMost LONGEST_BUNDLE (S.left source.old) (S.left source.new) }

    // What stays the same.
    ensures unread { result ≡ Status.Usage → source.new ≡ source.old }
    ensures unwritten { IsSilent result → sink.new ≡ sink.old }
    ensures source_later { S.faults source.old ≤ S.faults source.new }
    ensures sink_later { K.faults sink.old ≤ K.faults sink.new }
{
    let Some(command) = command_of(words) else {
        return Status::Usage;
    };
    let bytes = match read_whole(alloc, source, LONGEST_BUNDLE) {
        Ok(bytes) => bytes,
        Err(ReadAll::Fault) => return Status::ReadFault,
        Err(ReadAll::TooLong) => return Status::TooLong,
        Err(ReadAll::Memory) => return Status::Memory,
    };
    match reply_to(alloc, command, &bytes) {
        Ok(Reply::Answered(text)) => give(sink, &text, Status::Done),
        Ok(Reply::Refused(text)) => give(sink, &text, Status::Refused),
        Ok(Reply::Long(text)) => give(sink, &text, Status::Long),
        Err(AllocError) => Status::Memory,
    }
}
