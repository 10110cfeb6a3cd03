//! What calls and returns do to the objects that they move and lend (RedLeaf, section 3.1).
ghost use Rattle.std.specs.Prelude.{◌≡◌, map, true, false, All};
ghost use Rattle.std.specs.Option.{option_map_or};
ghost use Rattle.machine_defs.specs.Arguments.{moved_of, objects_in};
ghost use Rattle.machine_defs.specs.NativeFits.{are_distinct};
ghost use Rattle.rref_heap.specs.HeapValue.{MayOwn, root_owner};
ghost use Rattle.proxies.specs.Objects.{IsFree, MayGive, IsLent, IsUnlent, handed, given_up, returned, handed_back, is_over_for};

use instance_table::Instances;
use machine_defs::values::{Arg, Owner};
use rl_defs::values::Value;
use rref_heap::Heap;

/// The arguments of a call that enters: each moved object passes to the owner, which lives, and
/// each lent one gains a loan.
pub fn hand_over(heap: &mut Heap, args: &[Arg], to: Owner)
    requires may { MayGive heap.old.rows args.now }
    requires owner { MayOwn heap.old to }
    ensures { heap.new ≡ record heap.old { rows = map (handed args.now to) heap.old.rows } }
{
    // Each row is that of the object with its number.
    heap.is_kept();
    'args: for arg in args {
        match arg {
            Arg::Moved(object) => {
                heap.pass(*object, to, false);
            }
            Arg::Lent(object) => heap.lend(*object),
            _ => {}
        }
    }
}

/// The arguments of a call that is refused: each moved object leaves the heap, and what hung in it
/// is listed for the sweep.
pub fn give_up(heap: &mut Heap, args: &[Arg])
    requires free { All (IsFree heap.old.rows) (moved_of args.now) }
    requires once { are_distinct (moved_of args.now) ≡ true }
    ensures { heap.new ≡ record heap.old { rows = map (given_up (moved_of args.now)) heap.old.rows } }
{
    // Each row is that of the object with its number.
    heap.is_kept();
    'args: for arg in args {
        if let Arg::Moved(object) = arg {
            heap.drop_object(*object);
        }
    }
}

/// The loans of a call end with it. An object whose last loan ends, and whose owner has ended, is
/// listed for the sweep, with what hangs in it.
pub fn end_loans(heap: &mut Heap, lent: &[u64], instances: &Instances)
    requires { All (IsLent heap.old.rows lent.now) lent.now }
    ensures { heap.new
        ≡ record heap.old { rows = map (returned heap.old.rows instances.now lent.now) heap.old.rows } }
{
    // Each row is that of the object with its number.
    heap.is_kept();
    'lent: for object in lent {
        let ended = owner_has_ended(heap, *object, instances);
        heap.give_back(*object, ended);
    }
}

// Whether an object is a root whose owner has ended.
fn owner_has_ended(heap: &Heap, o: u64, instances: &Instances) -> bool
    ensures { result ≡ option_map_or (is_over_for instances.now) (root_owner heap.now.rows o) false }
{
    match heap.row(o) {
        Some(row) => match row.owner {
            Some(Owner::Instance(i)) => !instances.is_live(i),
            _ => false,
        },
        None => false,
    }
}

/// The results of a call that returns: each object passes to the owner. Where that has ended, as
/// `ended` tells, it is listed for the sweep, with what hangs in it.
pub fn hand_back(heap: &mut Heap, results: &[Value], to: Owner, ended: bool)
    requires unlent { All (IsUnlent heap.old.rows) (objects_in results.now) }
    requires owner { MayOwn heap.old to }
    ensures { heap.new
        ≡ record heap.old { rows = map (handed_back (objects_in results.now) to ended) heap.old.rows } }
{
    // Each row is that of the object with its number.
    heap.is_kept();
    'results: for result in results {
        if let Value::Obj(object) = result {
            heap.pass(*object, to, ended);
        }
    }
}
