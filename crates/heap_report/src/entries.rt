//! What an entry says of its thread and of objects.
ghost use Rattle.std.specs.Prelude.{◌≡◌, ◌≤◌, length};
ghost use Rattle.machine_defs.specs.Entries as entries;
ghost use Rattle.machine_defs.specs.Arguments.{moved_of, objects_in};
ghost use Rattle.machine_defs.specs.History as history;
ghost use Rattle.machine_defs.specs.Report as report;

use machine_defs::arrays::Objects;
use machine_defs::entry::Entry;
use machine_defs::values::{Arg, Owner};
use rl_defs::values::Value;

/// The thread of an entry, 0 of a `free`.
pub fn thread_of(entry: &Entry) -> u32
    ensures { result ≡ entries.thread_of entry.now }
{
    match entry {
        Entry::Call { thread, .. }
        | Entry::Refuse { thread, .. }
        | Entry::Ret { thread, .. }
        | Entry::Unwound { thread, .. }
        | Entry::Reload { thread, .. }
        | Entry::Again { thread, .. }
        | Entry::Trap { thread, .. }
        | Entry::Kill { thread, .. }
        | Entry::New { thread, .. }
        | Entry::Drop { thread, .. }
        | Entry::Set { thread, .. }
        | Entry::Wput { thread, .. }
        | Entry::Take { thread, .. }
        | Entry::Put { thread, .. }
        | Entry::DevGet { thread, .. }
        | Entry::DevPut { thread, .. }
        | Entry::Hang { thread, .. }
        | Entry::Unhang { thread, .. }
        | Entry::Show { thread, .. }
        | Entry::Skip { thread, .. }
        | Entry::Done { thread } => *thread,
        Entry::Free(_) => 0,
    }
}

// The objects that arguments move.
fn moved_of(args: &[Arg]) -> Objects
    requires { length args.now ≤ 8 }
    ensures value { result ≡ moved_of args.now }
    ensures few { length result ≤ 8 }
{
    let mut moved = Objects::new();
    'each: for arg in args {
        if let Arg::Moved(object) = arg {
            moved.push(*object);
        }
    }
    moved
}

// The objects among values.
fn objects_in(values: &[Value]) -> Objects
    requires { length values.now ≤ 8 }
    ensures value { result ≡ objects_in values.now }
    ensures few { length result ≤ 8 }
{
    let mut held = Objects::new();
    'each: for value in values {
        if let Value::Obj(object) = value {
            held.push(*object);
        }
    }
    held
}

/// The objects that pass from one party to another.
pub fn passing_at(entry: &Entry) -> Objects
    ensures value { result ≡ report.passing_at entry.now }
    ensures few { length result ≤ 8 }
{
    match entry {
        Entry::Call { args, .. } => moved_of(args.as_slice()),
        Entry::Ret { results, .. } => objects_in(results.as_slice()),
        _ => Objects::new(),
    }
}

/// The objects that are dropped.
pub fn dropped(entry: &Entry) -> Objects
    ensures value { result ≡ history.dropped entry.now }
    ensures few { length result ≤ 8 }
{
    match entry {
        Entry::Refuse { args, .. } => moved_of(args.as_slice()),
        Entry::Drop { object, .. } => {
            let mut one = Objects::new();
            one.push(*object);
            one
        }
        _ => Objects::new(),
    }
}

/// The owner that an object is made for.
pub fn maker_at(entry: &Entry) -> Option<Owner>
    ensures { result ≡ report.maker_at entry.now }
{
    match entry {
        Entry::New { owner, .. } => Some(*owner),
        _ => None,
    }
}
