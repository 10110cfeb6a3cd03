//! The whole command.
ghost use Rattle.std.specs.Prelude.{◌≡◌, ◌<◌, ◌≤◌, ◌⊎◌, ◌^◌, length, IfOk};
ghost use Rattle.rl_io.specs.Causes.{Rose};
ghost use Rattle.machine_defs.specs.Heads.{empty};
ghost use Rattle.rref_heads.specs.Passes.{view, IsPassOf, IsEmpty};
ghost use Rattle.heads_command.specs.Workers.{HoldsTitles, HoldsLoans, Released, gone_count};
ghost use Rattle.heads_command.specs.HeadsText.{AreClosedWords, IsTextOfRun, WasDone, WasCutOff};

use crate::text::text_of;
use crate::workers::{claim_all, end_all, give_back_all, lend_all};
use redleaf_app::Status;
use rl_io::{Failed, Sink, write_whole};
use rref_heads::{Closed, Heads, Pass};
use std::alloc::{AllocError, Global};
use std::thread;
use std::thread::Threads;

/// A table of so many heads, and its two passes.
pub(crate) fn table_for_two(alloc: Global, heads: u32) -> Result<(Heads, Pass, Pass), AllocError>
    requires { (1 ≤ heads) × (heads ≤ 4096) }
    ensures { IfOk result (λ r. (r.0.heads ≡ heads) × (r.0.seats ≡ 2) × IsPassOf r.0 r.1 × IsPassOf r.0 r.2
        × (r.1.number ≡ 0) × (r.2.number ≡ 1) × (view r.1 ≡ empty 1) × (view r.2 ≡ empty 1)) }
{
    let (table, mut passes) = Heads::new(alloc, heads, 2)?;
    let Some(second) = passes.pop() else {
        unreachable!()
    };
    let Some(first) = passes.pop() else {
        unreachable!()
    };
    Ok((table, first, second))
}

// One pass claims each head, and the other lends each once. Then one worker ends them, while
// another gives the loans back. What closing the table told, and how many payloads the workers got.
fn give_up_all<R: Threads + Sync>(
    rt: &R,
    alloc: Global,
    heads: u32,
) -> Result<(Closed, u64), AllocError>
    requires { (1 ≤ heads) × (heads ≤ 4096) }
    ensures words { IfOk result (λ r. AreClosedWords heads r.0.words) }
    ensures returned { IfOk result (λ r. r.1 ≡ gone_count r.0.words) }
{
    let (table, mut first, mut second) = table_for_two(alloc, heads)?;
    let titles = claim_all(&table, alloc, heads, &mut first)?;
    let loans = lend_all(&table, alloc, heads, &mut second)?;
    let mut passes = Vec::with_capacity(alloc, 2)?;
    let shared = &table;
    let (one, other) = thread::join(
        rt,
        move ||
            requires { IsPassOf shared.now first × HoldsTitles shared.now.heads titles.items (view first)
                × Released shared.now.heads 0 (view first) }
            ensures { IsPassOf shared.entry.now result.0 × IsEmpty (view result.0)
                × Released shared.entry.now.heads result.1 (view result.0) × (result.1 < 2 ^ 63) }
        { end_all(shared, first, titles) },
        move ||
            requires { IsPassOf shared.now second × HoldsLoans shared.now.heads loans.items (view second)
                × Released shared.now.heads 0 (view second) }
            ensures { IsPassOf shared.entry.now result.0 × IsEmpty (view result.0)
                × Released shared.entry.now.heads result.1 (view result.0) × (result.1 < 2 ^ 63) }
        { give_back_all(shared, second, loans) },
    );
    passes.push_reserved(one.0);
    passes.push_reserved(other.0);
    let closed = table.close(alloc, passes)?;
    Ok((closed, one.1 + other.1))
}

// The text of a whole run.
fn text_of_run<R: Threads + Sync>(rt: &R, alloc: Global, heads: u32) -> Result<Vec<u8>, AllocError>
    requires { (1 ≤ heads) × (heads ≤ 4096) }
    ensures { IfOk result (λ text. IsTextOfRun heads text.items) }
{
    let (closed, returned) = give_up_all(rt, alloc, heads)?;
    text_of(alloc, heads, closed.words.as_slice(), returned)
}

/// Runs the command: a table of `n` heads and two passes. The first pass claims each head, with its
/// number as the payload, and the second lends each once. Then two threads end the heads and give
/// the loans back, and each head's payload comes out at one of them. What closing the table told is
/// written: the word of each head, and how many payloads came back.
///
/// The whole text is made before its first byte is given, and from then on no memory is taken.
pub fn redleaf_heads<R: Threads + Sync, K: Sink>(
    rt: &R,
    alloc: Global,
    n: u32,
    sink: &mut K,
) -> Status
    requires { (1 ≤ n) × (n ≤ 4096) }
    // The words that closing the table gave were written, and that as many payloads came back as
    // heads are gone.
    ensures done { result ≡ Status.Done → WasDone n (K.given sink.old) (K.given sink.new) }
    // A front of that text.
    ensures cut_off { result ≡ Status.WriteFault → WasCutOff n (K.given sink.old) (K.given sink.new) }

    ensures only { (result ≡ Status.Done) ⊎ ((result ≡ Status.WriteFault) ⊎ (result ≡ Status.Memory)) }
    ensures write_fault { result ≡ Status.WriteFault → Rose (K.faults sink.old) (K.faults sink.new) }

    // What stays the same.
    ensures unwritten { result ≡ Status.Memory → sink.new ≡ sink.old }
    ensures later { K.faults sink.old ≤ K.faults sink.new }
{
    match text_of_run(rt, alloc, n) {
        Ok(text) => match write_whole(sink, &text) {
            Ok(()) => Status::Done,
            Err(Failed) => Status::WriteFault,
        },
        Err(AllocError) => Status::Memory,
    }
}
