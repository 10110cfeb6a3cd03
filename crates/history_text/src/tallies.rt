//! What a history tells of each thread: how many of its calls are open, and how many commands it
//! has begun.
ghost use Rattle.std.specs.Prelude.{◌≡◌, ℕ, ◌+◌, ◌<◌, ◌^◌, ◌==◌, OnOk};
ghost use Rattle.std.specs.List.{position_or_len};
ghost use Rattle.machine_defs.specs.Texts as text;
ghost use Rattle.machine_defs.specs.Entries as entries;
ghost use Rattle.history_text.specs.Tallies.{told, told_of};

use machine_defs::entry::Entry;
use std::alloc::AllocError;

/// What a history tells of a thread so far.
#[derive(Clone, Copy, Debug)]
pub(crate) struct Tally {
    /// How many calls are open.
    pub(crate) calls: u64,
    /// How many commands have begun.
    pub(crate) commands: u64,
}

/// The tally of a thread.
#[derive(Clone, Copy, Debug)]
pub(crate) struct ThreadTally {
    thread: u32,
    tally: Tally,
}

const NOTHING: Tally = Tally {
    calls: 0,
    commands: 0,
};

/// The thread of an entry, 0 of a `free`.
pub(crate) fn thread_of(entry: &Entry) -> u32
    ensures { result ≡ entries.thread_of entry.now }
{
    match entry {
        Entry::Call { thread, .. }
        | Entry::Refuse { thread, .. }
        | Entry::Ret { thread, .. }
        | Entry::Unwound { thread, .. }
        | Entry::Reload { thread, .. }
        | Entry::Again { thread, .. }
        | Entry::Trap { thread, .. }
        | Entry::Kill { thread, .. }
        | Entry::New { thread, .. }
        | Entry::Drop { thread, .. }
        | Entry::Set { thread, .. }
        | Entry::Wput { thread, .. }
        | Entry::Take { thread, .. }
        | Entry::Put { thread, .. }
        | Entry::DevGet { thread, .. }
        | Entry::DevPut { thread, .. }
        | Entry::Hang { thread, .. }
        | Entry::Unhang { thread, .. }
        | Entry::Show { thread, .. }
        | Entry::Skip { thread, .. }
        | Entry::Done { thread } => *thread,
        Entry::Free(_) => 0,
    }
}

// An entry at which no call is open begins a command, but for a reload and the end of the script.
fn begins_command(entry: &Entry) -> bool
    ensures { result ≡ text.begins_command entry.now }
{
    match entry {
        Entry::Reload { .. } | Entry::Done { .. } => false,
        _ => true,
    }
}

// How many calls are open after an entry.
fn open_after(entry: &Entry, calls: u64) -> u64
    requires { calls + 1 < 2 ^ 64 }
    ensures { result ≡ text.open_after entry.now calls }
{
    match entry {
        Entry::Call { .. } => calls + 1,
        Entry::Ret { .. } | Entry::Unwound { .. } => calls.saturating_sub(1),
        _ => calls,
    }
}

// What is told of a thread after an entry of its own.
fn tally_after(tally: Tally, entry: &Entry) -> Tally
    requires calls { tally.calls + 1 < 2 ^ 64 }
    requires commands { tally.commands + 1 < 2 ^ 64 }
    ensures { told result ≡ text.tally_of_own entry.now (told tally) }
{
    let mut commands = tally.commands;
    if tally.calls == 0 && begins_command(entry) {
        commands += 1;
    }
    Tally {
        calls: open_after(entry, tally.calls),
        commands,
    }
}

// The place of a thread's tally, or the count of tallies.
fn place_of(tallies: &[ThreadTally], thread: u32) -> usize
    ensures { result ≡ position_or_len (λ k. k.thread == thread) tallies.now }
{
    tallies
        .iter()
        .take_while(|kept| kept.thread != thread)
        .count()
}

/// What is told of a thread.
pub(crate) fn tally_of(tallies: &[ThreadTally], thread: u32) -> Tally
    ensures { told result ≡ told_of tallies.now thread }
{
    let place = place_of(tallies, thread);
    if place < tallies.len() {
        return tallies[place].tally;
    }
    NOTHING
}

/// Tells an entry to its thread's tally. There is one for each thread that was told of, whatever
/// the numbers of the threads.
pub(crate) fn tell(tallies: &mut Vec<ThreadTally>, entry: &Entry) -> Result<(), AllocError>
    requires calls { (told_of tallies.old.items (entries.thread_of entry.now)).calls + 1 < 2 ^ 64 }
    requires commands { (told_of tallies.old.items (entries.thread_of entry.now)).commands + 1 < 2 ^ 64 }
    ensures { OnOk result ((t : ℕ) → told_of tallies.new.items t
        ≡ text.tally_after t (told_of tallies.old.items t) entry.now) }
{
    let thread = thread_of(entry);
    let tally = tally_after(tally_of(tallies, thread), entry);
    let place = place_of(tallies, thread);
    if place < tallies.len() {
        tallies[place] = ThreadTally { thread, tally };
        return Ok(());
    }
    tallies.push(ThreadTally { thread, tally })?;
    Ok(())
}
