//! What a history tells so far: who acts for each thread, what became of each object, and the
//! account of each owner.
ghost use Rattle.std.specs.Prelude.{◌≡◌, ℕ, ◌+◌, ◌-◌, ◌<◌, ◌^◌, [], length, OnOk, IfOk};
ghost use Rattle.machine_defs.specs.History.{with_entry, freeing, turns_of};
ghost use Rattle.heap_report.specs.Readings.{Reads, ReadsOn, AccountsHaveRoom, ListsOwners, SameOwners, begins, is_quiet};
ghost use Rattle.heap_report.specs.KeptObjects.{AreCounted};

use crate::accounts::Accounts;
use crate::calls::{ThreadCalls, actor, tell};
use crate::counting::{count_entry, count_freed};
use crate::entries::thread_of;
use crate::objects::ObjectRecords;
use machine_defs::entry::Entry;
use std::alloc::{AllocError, Global};

/// What a history tells so far.
#[derive(Debug, Drop)]
pub struct Reading {
    /// The open calls of each thread, by its number.
    pub threads: Vec<ThreadCalls>,
    pub objects: ObjectRecords,
    pub accounts: Accounts,
    /// There was an entry other than a `free`.
    pub begun: bool,
}

impl Reading {
    // What no entry tells: nothing of so many clients and instances.
    fn new(alloc: Global, clients: usize, instances: usize) -> Result<Reading, AllocError>
        ensures reads { IfOk result (λ r. Reads r []) }
        ensures owners { IfOk result (ListsOwners clients instances) }
        ensures room { IfOk result (λ r. AccountsHaveRoom r 0) }
    {
        Ok(Reading {
            threads: Vec::new(alloc),
            objects: ObjectRecords::new(alloc),
            accounts: Accounts::new(alloc, clients, instances)?,
            begun: false,
        })
    }

    // Reads a `free`.
    fn free(&mut self, object: u64) -> Result<(), AllocError>
        requires counted { AreCounted self.old.objects }
        requires room { AccountsHaveRoom self.old (2 ^ 30 - 1) }
        ensures reads { OnOk result (ReadsOn self.old self.new (freeing object)) }
        ensures room { OnOk result ((n : ℕ) → AccountsHaveRoom self.old n → AccountsHaveRoom self.new (n + 1)) }
        ensures owners { OnOk result (SameOwners self.old self.new) }
    {
        if !self.begun {
            return Ok(());
        }
        count_freed(&mut self.accounts, self.objects.owner(object));
        self.objects.remove(object)?;
        Ok(())
    }

    // Reads an entry that isn't a `free`.
    fn turn(&mut self, alloc: Global, entry: &Entry) -> Result<(), AllocError>
        requires counted { AreCounted self.old.objects }
        requires room { AccountsHaveRoom self.old (2 ^ 30 - 1) }
        ensures reads { OnOk result (ReadsOn self.old self.new (begins entry.now)) }
        ensures room { OnOk result ((n : ℕ) → AccountsHaveRoom self.old n → AccountsHaveRoom self.new (n + 1)) }
        ensures owners { OnOk result (SameOwners self.old self.new) }
    {
        let from = actor(&self.threads, thread_of(entry));
        tell(alloc, &mut self.threads, entry)?;
        let to = actor(&self.threads, thread_of(entry));
        count_entry(&mut self.accounts, &self.objects, entry, from, to);
        self.objects.tell(entry, from, to)?;
        self.begun = true;
        Ok(())
    }

    // Reads an entry.
    fn read(&mut self, alloc: Global, entry: &Entry) -> Result<(), AllocError>
        requires counted { AreCounted self.old.objects }
        requires room { AccountsHaveRoom self.old (2 ^ 30 - 1) }
        ensures reads { OnOk result (ReadsOn self.old self.new (λ us. with_entry us entry.now)) }
        ensures room { OnOk result ((n : ℕ) → AccountsHaveRoom self.old n → AccountsHaveRoom self.new (n + 1)) }
        ensures owners { OnOk result (SameOwners self.old self.new) }
    {
        match entry {
            Entry::Free(object) => self.free(*object),
            _ if is_quiet(entry) => {
                self.begun = true;
                Ok(())
            }
            _ => self.turn(alloc, entry),
        }
    }
}

// An entry says nothing of open calls, of who has an object, or of where it hangs.
fn is_quiet(entry: &Entry) -> bool
    ensures { result ≡ is_quiet entry.now }
{
    match entry {
        Entry::Reload { .. }
        | Entry::Trap { .. }
        | Entry::Kill { .. }
        | Entry::Set { .. }
        | Entry::Wput { .. }
        | Entry::Take { .. }
        | Entry::Put { .. }
        | Entry::DevGet { .. }
        | Entry::DevPut { .. }
        | Entry::Show { .. }
        | Entry::Skip { .. }
        | Entry::Done { .. } => true,
        _ => false,
    }
}

/// What a log tells, of so many clients and instances.
pub fn read_log(
    alloc: Global,
    log: &[Entry],
    clients: usize,
    instances: usize,
) -> Result<Reading, AllocError>
    requires { length log.now < 2 ^ 30 }
    ensures reads { IfOk result (λ r. Reads r (turns_of log.now)) }
    ensures owners { IfOk result (ListsOwners clients instances) }
{
    let mut reading = Reading::new(alloc, clients, instances)?;
    'each: for entry in log {
        reading.read(alloc, entry)?;
    }
    Ok(reading)
}
