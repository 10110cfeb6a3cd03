//! The report of a run.
ghost use Rattle.std.specs.Prelude.{◌≡◌, ◌+◌, ◌==◌, ◌<◌, ◌^◌, ◌++◌, length, OnOk, OnErr};
ghost use Rattle.std.specs.List.{flat_map};
ghost use Rattle.machine_defs.specs.Texts as text;
ghost use Rattle.machine_defs.specs.Report as report;
ghost use Rattle.heap_report.specs.Left.{PutsReport};
ghost use Rattle.heap_report.specs.Putting.{PutsText};
ghost use Rattle.heap_report.specs.KeptAccounts.{told};
ghost use Rattle.heap_report.specs.Lines.{left_line, account_lines, reading_text};
ghost use Rattle.machine_defs.specs.declared.values.Owner.TheVariants as owner;

use crate::accounts::Account;
use crate::objects::ObjectRecords;
use crate::put::{
    put, put_count, put_number_word, put_object_number, put_owner, put_owner_word, put_word,
};
use crate::reading::{Reading, read_log};
use machine_defs::entry::Entry;
use machine_defs::values::Owner;
use rl_defs::load::Load;
use std::alloc::{AllocError, Global};

/// An object that is left on the heap.
#[derive(Clone, Copy, Debug)]
pub struct ObjectRow {
    pub number: u64,
    /// Its struct, by the number in the load's tables.
    pub ty: u32,
    /// How often it is lent.
    pub loans: u64,
}

// The name of a struct.
fn struct_name(load: &Load, ty: u32) -> &[u8]
    ensures { result.now ≡ text.struct_name load.now ty }
{
    match load.rows().tables.get().structs.get(ty as usize) {
        Some(row) => row.name.bytes(),
        None => b"",
    }
}

// Puts the line of an object that is left.
fn put_object(
    out: &mut Vec<u8>,
    load: &Load,
    objects: &ObjectRecords,
    row: ObjectRow,
) -> Result<(), AllocError>
    ensures { PutsText result out.old.items out.new.items (left_line load.now objects.now.rows.items row) }
{
    put_object_number(out, row.number)?;
    put_word(out, struct_name(load, row.ty))?;
    put_owner_word(out, objects.owner(row.number))?;
    put_number_word(out, row.loans)?;
    put(out, b"\n")
}

// Puts the lines of the objects that are left.
fn put_objects(
    out: &mut Vec<u8>,
    load: &Load,
    objects: &ObjectRecords,
    left: &[ObjectRow],
) -> Result<(), AllocError>
    ensures { PutsText result out.old.items out.new.items
        (flat_map (left_line load.now objects.now.rows.items) left.now) }
{
    'each: for row in left {
        put_object(out, load, objects, *row)?;
    }
    Ok(())
}

// There is nothing in an account.
fn is_empty(account: Account) -> bool
    ensures { result ≡ (account.made + account.received + account.passed + account.freed == 0) }
{
    account.made == 0 && account.received == 0 && account.passed == 0 && account.freed == 0
}

// Puts what an account tells.
fn put_counts(out: &mut Vec<u8>, account: Account) -> Result<(), AllocError>
    ensures { PutsText result out.old.items out.new.items (report.account_text (told account)) }
{
    put_count(out, b"made", account.made)?;
    put_count(out, b"received", account.received)?;
    put_count(out, b"passed", account.passed)?;
    put_count(out, b"freed", account.freed)
}

// Puts the line of an owner's account, unless there is nothing in it.
fn put_account(out: &mut Vec<u8>, owner: Owner, account: Account) -> Result<(), AllocError>
    ensures { PutsText result out.old.items out.new.items (report.account_line owner (told account)) }
{
    if is_empty(account) {
        return Ok(());
    }
    put_owner(out, owner)?;
    put_counts(out, account)?;
    put(out, b"\n")
}

// Puts the lines of the clients.
fn put_clients(out: &mut Vec<u8>, accounts: &[Account]) -> Result<(), AllocError>
    requires { length accounts.now < 2 ^ 32 }
    ensures { PutsText result out.old.items out.new.items (account_lines owner.Client 1 accounts.now) }
{
    let mut number = 0;
    'each: for account in accounts {
        number += 1;
        put_account(out, Owner::Client(number), *account)?;
    }
    Ok(())
}

// Puts the lines of the instances.
fn put_instances(out: &mut Vec<u8>, accounts: &[Account]) -> Result<(), AllocError>
    requires { length accounts.now < 2 ^ 32 }
    ensures { PutsText result out.old.items out.new.items (account_lines owner.Instance 1 accounts.now) }
{
    let mut number = 0;
    'each: for account in accounts {
        number += 1;
        put_account(out, Owner::Instance(number), *account)?;
    }
    Ok(())
}

// Puts the lines of the objects that are left, and those of the owners.
fn put_report(
    out: &mut Vec<u8>,
    load: &Load,
    reading: &Reading,
    left: &[ObjectRow],
) -> Result<(), AllocError>
    requires clients { length reading.now.accounts.clients.items < 2 ^ 32 }
    requires instances { length reading.now.accounts.instances.items < 2 ^ 32 }
    ensures { PutsText result out.old.items out.new.items (reading_text load.now reading.now left.now) }
{
    put_objects(out, load, &reading.objects, left)?;
    put_clients(out, &reading.accounts.clients)?;
    put_instances(out, &reading.accounts.instances)
}

/// Puts the report of a run of the load with this log, behind what is there. At its end these
/// objects are left, by rising number, and so many instances were opened. Only want of memory
/// fails, and then what is there stays as it was.
pub fn write_report(
    alloc: Global,
    out: &mut Vec<u8>,
    load: &Load,
    log: &[Entry],
    left: &[ObjectRow],
    instances: u32,
) -> Result<(), AllocError>
    requires { length log.now < 2 ^ 30 }
    ensures ok { OnOk result (PutsReport load.now log.now left.now instances out.old.items out.new.items) }
    ensures err { OnErr result (out.new.items ≡ out.old.items) }
{
    let clients = load.rows().clients.len();
    let reading = read_log(alloc, log, clients, instances as usize)?;
    let before = out.len();
    match put_report(out, load, &reading, left) {
        Ok(()) => Ok(()),
        Err(AllocError) => {
            out.truncate(before);
            Err(AllocError)
        }
    }
}
