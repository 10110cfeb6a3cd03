//! What an entry adds to the accounts of owners.
ghost use Rattle.std.specs.Prelude.{ℕ, ◌+◌, ◌-◌, ◌*◌, ◌<◌, ◌≤◌, ◌^◌, length};
ghost use Rattle.machine_defs.specs.declared.values.Owner.{Owner as AnyOwner};
ghost use Rattle.machine_defs.specs.History as history;
ghost use Rattle.machine_defs.specs.Report.{same_owner};
ghost use Rattle.heap_report.specs.KeptAccounts.{AtMost, IsAtMost, most, share, account_of, AccountsGrow};
ghost use Rattle.heap_report.specs.KeptObjects.{AreCounted};
ghost use Rattle.heap_report.specs.Counting.{made_by, passed_on, freed_of, added, one_freed, most_added};

use crate::accounts::{Account, Accounts, NOTHING};
use crate::entries::{dropped, maker_at, passing_at};
use crate::objects::ObjectRecords;
use machine_defs::arrays::Objects;
use machine_defs::entry::Entry;
use machine_defs::values::Owner;

/// An owner gives an object up.
pub fn count_freed(accounts: &mut Accounts, owner: Owner)
    requires { AtMost accounts.old (most (2 ^ 31 - 1)) }
    ensures { AccountsGrow accounts.old accounts.new (λ w. share (same_owner owner w) one_freed) }
{
    accounts.add(
        owner,
        Account {
            freed: 1,
            ..NOTHING
        },
    );
}

// Counts the object that an entry makes.
fn count_made(accounts: &mut Accounts, entry: &Entry)
    requires { AtMost accounts.old (most (2 ^ 31 - 1)) }
    ensures { AccountsGrow accounts.old accounts.new (made_by entry.now) }
{
    if let Some(owner) = maker_at(entry) {
        accounts.add(owner, Account { made: 1, ..NOTHING });
    }
}

// Counts so many objects that pass from who acts at an entry to who acts just after it.
fn count_passing(accounts: &mut Accounts, count: u64, from: Owner, to: Owner)
    requires few { count ≤ 2 ^ 33 }
    requires room { AtMost accounts.old (most (2 ^ 31 - 2)) }
    ensures { AccountsGrow accounts.old accounts.new (passed_on from to count) }
{
    accounts.add(
        from,
        Account {
            passed: count,
            ..NOTHING
        },
    );
    accounts.add(
        to,
        Account {
            received: count,
            ..NOTHING
        },
    );
}

// Counts objects that are dropped.
fn count_dropped(accounts: &mut Accounts, objects: &ObjectRecords, dropped: &Objects)
    requires few { length dropped.now ≤ 8 }
    requires room { AtMost accounts.old (most (2 ^ 31 - 2)) }
    ensures { AccountsGrow accounts.old accounts.new (freed_of objects.now.rows.items dropped.now) }
{
    'each: for object in dropped.as_slice() {
        count_freed(accounts, objects.owner(*object));
    }
}

/// Counts what an entry makes, passes on and drops. `from` acts at it, `to` just after it.
pub fn count_entry(
    accounts: &mut Accounts,
    objects: &ObjectRecords,
    entry: &Entry,
    from: Owner,
    to: Owner,
)
    requires counted { AreCounted objects.now }
    requires few { objects.now.made < 2 ^ 30 }
    requires room { AtMost accounts.old (most (2 ^ 30 - 1)) }
    ensures grows { AccountsGrow accounts.old accounts.new (added objects.now entry.now from to) }
    ensures most { (w : AnyOwner) → IsAtMost (added objects.now entry.now from to w) (most_added objects.now.made) }
{
    count_made(accounts, entry);
    count_passing(accounts, objects.with_hung(&passing_at(entry)), from, to);
    count_dropped(accounts, objects, &dropped(entry));
}
