//! The replies to the clients' commands.
ghost use Rattle.std.specs.Prelude.{◌≡◌, ◌+◌, ◌<◌, ◌≤◌, ◌^◌, ◌++◌, length, take, codes, OnOk, OnErr};
ghost use Rattle.std.specs.Fmt.{decimal};
ghost use Rattle.machine_defs.specs.Texts as text;
ghost use Rattle.machine_defs.specs.Entries as entries;
ghost use Rattle.history_text.specs.Tallies.{told};

use crate::ending::Ending;
use crate::items::put_items;
use crate::spellings::Spellings;
use crate::tallies::{Tally, tally_of, tell, thread_of};
use machine_defs::entry::Entry;
use machine_defs::log::Log;
use machine_defs::values::RpcCode;
use rl_defs::values::Value;
use std::alloc::{AllocError, Global};

// The number of an error of a call.
fn code_number(code: RpcCode) -> u64
    ensures { result ≡ entries.code_number code }
{
    code as u64
}

// Puts the line of a command whose call failed.
#[tactic(auto, using(crate::proofs::Kept::kept_append, crate::proofs::Kept::kept_then))]
fn put_failed(out: &mut Vec<u8>, thread: u32, command: u64, code: RpcCode) -> Result<(), AllocError>
    ensures ok { OnOk result (out.new.items ≡ out.old.items
        ++ text.reply_line thread command (codes "error") (text.spaced (decimal (entries.code_number code)))) }
    ensures kept { take (length out.old.items) out.new.items ≡ out.old.items }
{
    let mut line = Ending::new();
    line.put(b"\n");
    line.put_number(b" error ", code_number(code));
    line.put_number(b" ", command);
    line.put_number(b"c", u64::from(thread));
    out.extend_from_slice(line.as_slice())
}

// Puts the line of a command that gave values. After `AllocError` some of it may stand there.
#[tactic(auto, using(crate::proofs::Kept::kept_append, crate::proofs::Kept::kept_then))]
fn put_given(
    spellings: &Spellings,
    out: &mut Vec<u8>,
    thread: u32,
    command: u64,
    says: &[u8],
    values: &[Value],
) -> Result<(), AllocError>
    requires { length says.now ≤ 10 }
    ensures ok { OnOk result (out.new.items
        ≡ out.old.items ++ text.reply_line thread command says.now (text.values_text spellings.now values.now)) }
    ensures kept { take (length out.old.items) out.new.items ≡ out.old.items }
{
    let mut head = Ending::new();
    head.put(says);
    head.put(b" ");
    head.put_number(b" ", command);
    head.put_number(b"c", u64::from(thread));
    out.extend_from_slice(head.as_slice())?;
    put_items(spellings, out, values)?;
    out.extend_from_slice(b"\n")
}

// Puts the reply that an entry is, where it ends a command that has one. The tally is what was told
// of its thread before it. After
// `AllocError` some of it may stand there.
#[tactic(auto, using(crate::proofs::Kept::kept_append, crate::proofs::Kept::kept_then))]
fn put_reply(
    spellings: &Spellings,
    out: &mut Vec<u8>,
    tally: Tally,
    entry: &Entry,
) -> Result<(), AllocError>
    requires { tally.commands + 1 < 2 ^ 64 }
    ensures ok { OnOk result (out.new.items ≡ out.old.items ++ text.reply_text spellings.now (told tally) entry.now) }
    ensures kept { take (length out.old.items) out.new.items ≡ out.old.items }
{
    let next = tally.commands + 1;
    match entry {
        Entry::Ret {
            thread,
            results,
            ..
        } if tally.calls == 1 => {
            put_given(
                spellings,
                out,
                *thread,
                tally.commands,
                b"ok",
                results.as_slice(),
            )
        }
        Entry::Unwound { thread, .. } if tally.calls == 1 => {
            put_failed(out, *thread, tally.commands, RpcCode::Unwound)
        }
        Entry::Refuse { thread, code, .. } if tally.calls == 0 => {
            put_failed(out, *thread, next, *code)
        }
        Entry::Show { thread, values, .. } => {
            put_given(spellings, out, *thread, next, b"shown", values.as_slice())
        }
        Entry::Skip { thread, .. } => put_given(spellings, out, *thread, next, b"skipped", &[]),
        _ => Ok(()),
    }
}

/// Puts the replies to the commands of a log last. After `AllocError` nothing is put.
pub fn write_replies(
    alloc: Global,
    spellings: &Spellings,
    out: &mut Vec<u8>,
    log: &Log,
) -> Result<(), AllocError>
    ensures ok { OnOk result (out.new.items ≡ out.old.items ++ text.replies_text spellings.now log.now.entries) }
    ensures err { OnErr result (out.new.items ≡ out.old.items) }
{
    let len = out.len();
    let written = put_replies(alloc, spellings, out, log.as_slice());
    if written.is_err() {
        out.truncate(len);
    }
    written
}

// Puts the replies that entries are. After `AllocError` some of them may stand there.
#[tactic(auto, using(crate::proofs::Kept::kept_append, crate::proofs::Kept::kept_then))]
fn put_replies(
    alloc: Global,
    spellings: &Spellings,
    out: &mut Vec<u8>,
    entries: &[Entry],
) -> Result<(), AllocError>
    ensures ok { OnOk result (out.new.items ≡ out.old.items ++ text.replies_text spellings.now entries.now) }
    ensures kept { take (length out.old.items) out.new.items ≡ out.old.items }
{
    let mut tallies = Vec::new(alloc);
    'each: for entry in entries {
        let tally = tally_of(&tallies, thread_of(entry));
        put_reply(spellings, out, tally, entry)?;
        tell(&mut tallies, entry)?;
    }
    Ok(())
}
