//! The lines of entries.
ghost use Rattle.std.specs.Prelude.{◌≡◌, ◌++◌, [], ◌∷◌, length, take, OnOk, OnErr};
ghost use Rattle.std.specs.List.{flat_map};
ghost use Rattle.machine_defs.specs.Texts as text;
ghost use Rattle.history_text.specs.Parts.{head_text};

use crate::ending::Ending;
use crate::heads::put_head;
use crate::items::{Item, put_items};
use crate::spellings::Spellings;
use machine_defs::entry::Entry;
use machine_defs::log::Log;
use std::alloc::AllocError;

/// Puts the line of an entry last, its line feed too. After `AllocError` nothing is put.
#[tactic(auto, using(crate::proofs::Whole::whole))]
pub fn write_entry(
    spellings: &Spellings,
    out: &mut Vec<u8>,
    entry: &Entry,
) -> Result<(), AllocError>
    ensures ok { OnOk result (out.new.items ≡ out.old.items ++ text.entry_text spellings.now entry.now) }
    ensures err { OnErr result (out.new.items ≡ out.old.items) }
{
    match entry {
        Entry::Call { args, .. } | Entry::Refuse { args, .. } => {
            write_listed(spellings, out, entry, args.as_slice())
        }
        Entry::Ret { results, .. } => write_listed(spellings, out, entry, results.as_slice()),
        Entry::Show { values, .. } => write_listed(spellings, out, entry, values.as_slice()),
        Entry::New { values, .. } | Entry::Set { values, .. } => {
            write_listed(spellings, out, entry, values.as_slice())
        }
        _ => {
            let mut line = Ending::new();
            line.put(b"\n");
            put_head(&mut line, spellings, entry);
            out.extend_from_slice(line.as_slice())
        }
    }
}

// Puts the head of an entry, what it lists and a line feed. After `AllocError` nothing is put.
fn write_listed<T: Item>(
    spellings: &Spellings,
    out: &mut Vec<u8>,
    entry: &Entry,
    items: &[T],
) -> Result<(), AllocError>
    ensures ok { OnOk result (out.new.items ≡ out.old.items ++ (head_text spellings.now entry.now
        ++ text.line (flat_map (λ a. text.spaced (T.text spellings.now a)) items.now))) }
    ensures err { OnErr result (out.new.items ≡ out.old.items) }
{
    let len = out.len();
    let written = put_listed(spellings, out, entry, items);
    if written.is_err() {
        out.truncate(len);
    }
    written
}

// Puts the head of an entry, what it lists and a line feed. After `AllocError` some of it may stand
// there.
#[tactic(auto, using(crate::proofs::Kept::kept_append, crate::proofs::Kept::kept_then))]
fn put_listed<T: Item>(
    spellings: &Spellings,
    out: &mut Vec<u8>,
    entry: &Entry,
    items: &[T],
) -> Result<(), AllocError>
    ensures ok { OnOk result (out.new.items ≡ out.old.items ++ (head_text spellings.now entry.now
        ++ text.line (flat_map (λ a. text.spaced (T.text spellings.now a)) items.now))) }
    ensures kept { take (length out.old.items) out.new.items ≡ out.old.items }
{
    let mut head = Ending::new();
    put_head(&mut head, spellings, entry);
    out.extend_from_slice(head.as_slice())?;
    put_items(spellings, out, items)?;
    out.extend_from_slice(b"\n")
}

/// Puts the lines of a log's entries last. After `AllocError` nothing is put.
pub fn write_log(spellings: &Spellings, out: &mut Vec<u8>, log: &Log) -> Result<(), AllocError>
    ensures ok { OnOk result (out.new.items ≡ out.old.items ++ text.history_text spellings.now log.now.entries) }
    ensures err { OnErr result (out.new.items ≡ out.old.items) }
{
    let len = out.len();
    let written = put_entries(spellings, out, log.as_slice());
    if written.is_err() {
        out.truncate(len);
    }
    written
}

// Puts the lines of entries. After `AllocError` some of them may stand there.
#[tactic(auto, using(crate::proofs::Kept::kept_append, crate::proofs::Kept::kept_then))]
fn put_entries(
    spellings: &Spellings,
    out: &mut Vec<u8>,
    entries: &[Entry],
) -> Result<(), AllocError>
    ensures ok { OnOk result (out.new.items ≡ out.old.items ++ text.history_text spellings.now entries.now) }
    ensures kept { take (length out.old.items) out.new.items ≡ out.old.items }
{
    'each: for entry in entries {
        write_entry(spellings, out, entry)?;
    }
    Ok(())
}
