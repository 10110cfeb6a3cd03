//! How an instance ends.
ghost use Rattle.std.specs.Prelude.{◌≡◌, ◌+◌, ◌<◌, ◌≤◌, ◌++◌, ◌∷◌, [], map, length, false};
ghost use Rattle.machine_defs.specs.declared.entry.Entry.TheVariants as an_entry;
ghost use Rattle.machine_defs.specs.declared.values.Owner.TheVariants as owner;
ghost use Rattle.rl_defs.specs.Domains.{row};
ghost use Rattle.machine_defs.specs.Seen.{change_row};
ghost use Rattle.rref_heap.specs.Leaving.{leaving_in, left_by, rows_without, roots_of};

use instance_table::Instances;
use machine_defs::entry::Entry;
use machine_defs::log::Log;
use rref_heap::{Heap, Steps};
use std::sync::ledger::Ledger;

/// Instance `i` ends, by the trap or the kill that `entry` is. The entry is logged, and then what
/// the instance owned is freed by rising number: its roots that aren't lent, with what hangs in
/// them. Those that are lent stay, with what hangs in them, until the last loan ends. A step is one
/// place of the heap looked at: at most one for each root of the instance, and one for each object
/// that is freed. It takes no memory.
pub fn end_instance<L: Ledger>(
    heap: &mut Heap,
    instances: &mut Instances,
    log: &mut Log,
    entry: Entry,
    i: u32,
    steps: &mut Steps<L>,
)
    requires swept { leaving_in heap.old.rows ≡ [] }
    requires room { length (left_by heap.old.rows (owner.Instance i)) + 1 ≤ log.old.spare }
    ensures instances { instances.new
        ≡ change_row instances.old i (λ x. record x { live = false }) (row instances.old i) }
    ensures heap { heap.new ≡ record heap.old { rows = rows_without heap.old.rows (owner.Instance i) } }
    ensures log { log.new.entries
        ≡ log.old.entries ++ entry ∷ map an_entry.Free (left_by heap.old.rows (owner.Instance i)) }
    ensures spare { log.new.spare + length (left_by heap.old.rows (owner.Instance i)) + 1 ≡ log.old.spare }
    ensures steps { steps.new ≤ steps.old + (length (roots_of heap.old.rows (owner.Instance i))
        + length (left_by heap.old.rows (owner.Instance i))) }
{
    log.put(entry);
    instances.end(i);
    heap.end_owner(i, log, steps);
}
