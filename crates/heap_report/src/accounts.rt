//! What each owner made, received, passed on and freed.
ghost use Rattle.std.specs.Prelude.{IfOk};
ghost use Rattle.machine_defs.specs.Report.{same_owner};
ghost use Rattle.heap_report.specs.KeptAccounts.{share, SumsFit, HasNothing, AddsTo, AccountsGrow, account_at, account_of};

use machine_defs::values::Owner;
use std::alloc::{AllocError, Global};

/// What an owner made, received, passed on and freed so far.
#[derive(Clone, Copy, Debug)]
pub struct Account {
    pub made: u64,
    pub received: u64,
    pub passed: u64,
    pub freed: u64,
}

/// Nothing yet.
pub const NOTHING: Account = Account {
    made: 0,
    received: 0,
    passed: 0,
    freed: 0,
};

/// The accounts of all clients and of all instances, each in the order of their numbers, from 1.
#[derive(Debug, Drop)]
pub struct Accounts {
    pub clients: Vec<Account>,
    pub instances: Vec<Account>,
}

impl Accounts {
    /// The accounts of so many clients and instances, with nothing in them.
    pub fn new(alloc: Global, clients: usize, instances: usize) -> Result<Accounts, AllocError>
        ensures { IfOk result (HasNothing clients instances) }
    {
        Ok(Accounts {
            clients: vec![in alloc; NOTHING; clients]?,
            instances: vec![in alloc; NOTHING; instances]?,
        })
    }

    /// Adds to an owner's account. An owner that isn't listed has none.
    pub fn add(&mut self, owner: Owner, more: Account)
        requires { SumsFit (account_of self.old owner) more }
        ensures { AccountsGrow self.old self.new (λ w. share (same_owner owner w) more) }
    {
        match owner {
            Owner::Client(client) => add_at(&mut self.clients, client, more),
            Owner::Instance(instance) => add_at(&mut self.instances, instance, more),
        }
    }
}

// Adds to the account with this number, where there is one.
fn add_at(rows: &mut [Account], number: u32, more: Account)
    requires { SumsFit (account_at rows.old number) more }
    ensures { AddsTo rows.old rows.new number more }
{
    if number == 0 || number as usize > rows.len() {
        return;
    }
    let row = &mut rows[number as usize - 1];
    row.made += more.made;
    row.received += more.received;
    row.passed += more.passed;
    row.freed += more.freed;
}
