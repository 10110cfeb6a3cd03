//! What stands in an entry's line before its arguments, results or values.
ghost use Rattle.std.specs.Prelude.{◌≡◌, ◌+◌, ◌≤◌, false, ◌++◌, length, codes};
ghost use Rattle.std.specs.Fmt.{decimal};
ghost use Rattle.machine_defs.specs.Texts as text;
ghost use Rattle.history_text.specs.Parts.{bare, head_text, tells_call, tells_instance};

use crate::ending::Ending;
use crate::spellings::Spellings;
use crate::tallies::thread_of;
use machine_defs::entry::Entry;
use machine_defs::values::{Cause, Owner, RpcCode};

/// Puts the head of an entry in front of what its line ends with.
pub(crate) fn put_head(line: &mut Ending, spellings: &Spellings, entry: &Entry)
    requires { length line.old ≤ 1 }
    ensures { line.new ≡ head_text spellings.now entry.now ++ line.old }
{
    match entry {
        Entry::Free(object) => line.put_number(b"free o", *object),
        _ => {
            put_call(line, spellings, entry);
            line.put_number(b"c", u64::from(thread_of(entry)));
        }
    }
}

// Puts what an entry says after its thread, of a call first.
fn put_call(line: &mut Ending, spellings: &Spellings, entry: &Entry)
    requires { length line.old ≤ 1 }
    ensures value { line.new ≡ text.act_text spellings.now (bare entry.now) ++ line.old }
    ensures room { length line.new ≤ 100 }
{
    match entry {
        Entry::Call {
            call,
            target,
            instance,
            method,
            ..
        } => {
            line.put_name(b" ", spellings.method(*target, *method));
            put_entered(line, b" call ", *call, spellings.target(*target), *instance);
        }
        Entry::Refuse {
            call,
            code,
            target,
            method,
            ..
        } => {
            line.put_name(b" ", spellings.method(*target, *method));
            line.put_name(b" ", spellings.target(*target));
            line.put_name(b" ", code_word(*code));
            line.put_number(b" refuse ", u64::from(*call));
        }
        Entry::Ret { call, .. } => line.put_number(b" ret ", u64::from(*call)),
        Entry::Unwound { call, .. } => line.put_number(b" unwound ", u64::from(*call)),
        Entry::Reload {
            shadow,
            instance,
            left,
            ..
        } => {
            line.put_number(b" ", u64::from(*left));
            line.put_number(b" i", u64::from(*instance));
            line.put_name(b" reload ", spellings.target(*shadow));
        }
        Entry::Again {
            call,
            shadow,
            instance,
            ..
        } => put_entered(
            line,
            b" again ",
            *call,
            spellings.target(*shadow),
            *instance,
        ),
        _ => put_instance(line, spellings, entry),
    }
}

// Puts a word, the number of a call, its target and the instance that it enters.
fn put_entered(line: &mut Ending, word: &[u8], call: u32, target: &[u8], instance: u32)
    requires word { length word.now ≤ 7 }
    requires target { length target.now ≤ 24 }
    requires room { length line.old ≤ 26 }
    ensures value { line.new ≡ word.now ++ (decimal call
        ++ (text.word target.now (codes "/" ++ (text.instance_text instance ++ line.old)))) }
    ensures room { length line.new ≤ 100 }
{
    line.put_number(b"/i", u64::from(instance));
    line.put_name(b" ", target);
    line.put_number(word, u64::from(call));
}

// Puts what an entry says that tells of no call, of an instance first.
fn put_instance(line: &mut Ending, spellings: &Spellings, entry: &Entry)
    requires room { length line.old ≤ 1 }
    requires other { tells_call entry.now ≡ false }
    ensures value { line.new ≡ text.act_text spellings.now (bare entry.now) ++ line.old }
    ensures room { length line.new ≤ 100 }
{
    match entry {
        Entry::Trap {
            instance,
            cause,
            ..
        } => {
            line.put_name(b" ", cause_word(*cause));
            line.put_number(b" trap i", u64::from(*instance));
        }
        Entry::Kill { instance, .. } => line.put_number(b" kill i", u64::from(*instance)),
        Entry::Wput {
            instance,
            place,
            value,
            ..
        } => {
            line.put_number(b" ", *value);
            line.put_number(b" ", u64::from(*place));
            line.put_number(b" wput i", u64::from(*instance));
        }
        Entry::Take {
            instance,
            slot,
            object,
            ..
        } => {
            line.put_number(b" o", *object);
            line.put_name(b" ", slot.bytes());
            line.put_number(b" take i", u64::from(*instance));
        }
        Entry::Put {
            instance,
            slot,
            object,
            ..
        } => {
            line.put_number(b" o", *object);
            line.put_name(b" ", slot.bytes());
            line.put_number(b" put i", u64::from(*instance));
        }
        _ => put_object(line, spellings, entry),
    }
}

// Puts what an entry says that tells of an object, of the device or of a script.
fn put_object(line: &mut Ending, spellings: &Spellings, entry: &Entry)
    requires room { length line.old ≤ 1 }
    requires no_call { tells_call entry.now ≡ false }
    requires no_instance { tells_instance entry.now ≡ false }
    ensures value { line.new ≡ text.act_text spellings.now (bare entry.now) ++ line.old }
    ensures room { length line.new ≤ 100 }
{
    match entry {
        Entry::New {
            owner,
            object,
            ty,
            ..
        } => {
            line.put_name(b" ", spellings.structure(*ty));
            line.put_number(b" o", *object);
            put_owner(line, *owner);
        }
        Entry::Drop { object, .. } => line.put_number(b" drop o", *object),
        Entry::Set { object, place, .. } => {
            line.put_number(b" ", u64::from(*place));
            line.put_number(b" set o", *object);
        }
        Entry::DevGet { object, block, .. } => {
            line.put_number(b" ", *block);
            line.put_number(b" devget o", *object);
        }
        Entry::DevPut { block, object, .. } => {
            line.put_number(b" o", *object);
            line.put_number(b" devput ", *block);
        }
        Entry::Hang {
            object,
            place,
            hung,
            ..
        } => {
            line.put_number(b" o", *hung);
            line.put_number(b" ", u64::from(*place));
            line.put_number(b" hang o", *object);
        }
        Entry::Unhang {
            object,
            place,
            hung,
            ..
        } => {
            line.put_number(b" o", *hung);
            line.put_number(b" ", u64::from(*place));
            line.put_number(b" unhang o", *object);
        }
        Entry::Show { object, .. } => line.put_number(b" show o", *object),
        Entry::Skip { command, .. } => line.put_number(b" skip ", u64::from(*command)),
        Entry::Done { .. } => line.put(b" done"),
        Entry::Free(_) => {}
        _ => unreachable!(),
    }
}

// Puts that an object is made, and for whom.
fn put_owner(line: &mut Ending, owner: Owner)
    requires { length line.old ≤ 50 }
    ensures value { line.new ≡ codes " new" ++ (text.spaced (text.owner_text owner) ++ line.old) }
    ensures room { length line.new ≤ 26 + length line.old }
{
    match owner {
        Owner::Client(client) => line.put_number(b" new c", u64::from(client)),
        Owner::Instance(instance) => line.put_number(b" new i", u64::from(instance)),
    }
}

/// The word for an error of a call.
pub(crate) fn code_word(code: RpcCode) -> &'static [u8]
    ensures value { result.now ≡ text.code_text code }
    ensures short { length result.now ≤ 24 }
{
    match code {
        RpcCode::Gone => b"gone",
        RpcCode::Unwound => b"unwound",
        RpcCode::Deep => b"deep",
        RpcCode::Order => b"order",
    }
}

/// The word for the cause of a trap.
pub(crate) fn cause_word(cause: Cause) -> &'static [u8]
    ensures value { result.now ≡ text.cause_text cause }
    ensures short { length result.now ≤ 24 }
{
    match cause {
        Cause::Divide => b"divide",
        Cause::Bounds => b"bounds",
        Cause::Range => b"range",
        Cause::Empty => b"empty",
        Cause::Full => b"full",
        Cause::Device => b"device",
        Cause::HeapFull => b"heapfull",
        Cause::Fuel => b"fuel",
        Cause::Asked => b"asked",
        Cause::Io => b"io",
    }
}
