//! The heap.
ghost use Rattle.std.specs.Prelude.{◌≡◌, ◌<◌, ◌≤◌, ◌+◌, ◌-◌, ◌^◌, ◌==◌, ◌&&◌, ◌++◌, ◌∷◌, [], ℕ, map, length, Some, None, IsSome, is_some, slice_get, true, false, OnOk, OnErr, IfOk, replicate};
ghost use Rattle.std.specs.List.{list_any};
ghost use Rattle.std.specs.Option.{option_map};
ghost use Rattle.machine_defs.specs.declared.values.Owner.{Owner as AnOwner};
ghost use Rattle.machine_defs.specs.declared.values.Owner.TheVariants as owner;
ghost use Rattle.machine_defs.specs.declared.entry.Entry.TheVariants as entry;
ghost use Rattle.machine_defs.specs.State.{Root, Hung};
ghost use Rattle.machine_defs.specs.Objects.{with_cells, overwritten, owned_by, with_placement};
ghost use Rattle.machine_defs.specs.ObjectRows.{instead};
ghost use Rattle.rref_heap.specs.HeapValue.{HeapRow, HeapValue, Room as ARoom, empty_heap, row_of, is_there, heap_objects, cells_at, loans_at, nests_at, leaves_at, root_owner, owner_at, is_rref, IsRoot, hung_at, MayOwn, room_of};
ghost use Rattle.rref_heap.specs.Spots.{placement_of, row_of_spot, spot_of};
ghost use Rattle.rref_heap.specs.Store.{IsReadyFor, width_for};
ghost use Rattle.rref_heap.specs.Changing.{on_row, on_object, one_loan_more, one_loan_less, unless, with_leaving, leaving_if, with_new_object};
ghost use Rattle.rref_heap.specs.Leaving.{swept_rows, leaving_in, rows_without, left_by, roots_of};
ghost use Rattle.rref_heap.specs.Kept.{IsHeapOf, object_row, row_told};

use crate::place::Place;
use crate::steps::Steps;
use crate::store::Store;
use machine_defs::entry::Entry;
use machine_defs::log::Log;
use machine_defs::values::Owner;
use rl_defs::tables::{Kind, StructRow};
use std::alloc::{AllocError, Global};
use std::marker::Model;
use std::sync::ledger::Ledger;

/// Cells that were made ahead for one object.
#[derive(Drop)]
pub struct Ready {
    pub cells: Vec<u64>,
    pub below: Vec<u64>,
}

/// What is known of an object. `owner` is None where it hangs.
#[derive(Clone, Copy, Debug, PartialEq, Eq)]
pub struct ObjectRow {
    pub number: u64,
    pub ty: u32,
    pub owner: Option<Owner>,
    pub loans: u32,
}

/// Objects by their numbers, from 1 in the order in which they were made.
#[derive(Drop)]
pub struct Heap {
    store: Store,
    ready: Option<Ready>,
}

// The owner of a root.
fn owner_of(place: &Place) -> Option<Owner>
    ensures { result ≡ owner_at (placement_of place.now.owner place.now.hangs) }
{
    match place.hangs {
        Some(_) => None,
        None => Some(place.owner),
    }
}

// What a place tells of its object.
fn row_of_place(place: &Place) -> ObjectRow
    ensures { result ≡ row_told (row_of_spot (spot_of place.now)) }
{
    ObjectRow {
        number: place.number,
        ty: place.ty,
        owner: owner_of(place),
        loans: place.word.count,
    }
}

// So many zeros.
fn zeros(alloc: Global, count: usize) -> Result<Vec<u64>, AllocError>
    ensures { IfOk result (λ v. v.items ≡ replicate count 0) }
{
    let mut cells = Vec::new(alloc);
    cells.resize(count, 0)?;
    Ok(cells)
}

// Whether a cell is for an `RRef`.
fn is_rref(kind: Kind) -> bool
    ensures { result ≡ is_rref kind }
{
    matches!(kind, Kind::Own(_))
}

// Whether some of the cells are for an `RRef`.
fn has_rref(kinds: &[Kind]) -> bool
    ensures { result ≡ list_any is_rref kinds.now }
{
    kinds.iter().any(|kind| is_rref(*kind))
}

// In how many cells of an object with cells of these kinds others may hang, where it is 0 or all.
fn width_for(kinds: &[Kind]) -> usize
    ensures { result ≡ width_for kinds.now }
{
    if has_rref(kinds) { kinds.len() } else { 0 }
}

// The cells of an object with cells of these kinds.
fn ready_for(alloc: Global, kinds: &[Kind]) -> Result<Ready, AllocError>
    ensures { IfOk result (λ r. IsReadyFor r kinds.now) }
{
    let cells = zeros(alloc, kinds.len())?;
    let below = zeros(alloc, width_for(kinds))?;
    Ok(Ready { cells, below })
}

impl Model for Heap {
    ghost use Rattle.std.specs.Prelude.{length};
    ghost use Rattle.rref_heap.specs.HeapValue.{HeapValue};
    ghost use Rattle.rref_heap.specs.Spots.{rows_in};
    ghost use Rattle.rref_heap.specs.Store.{IsStore, RoomsFor, room_in};

    ghost Value = { HeapValue };

    ghost view = { λ h. record {
      rows = rows_in h.store.places.spots;
      ready = room_in h.ready;
      clients = length h.store.firsts.clients;
      instances = length h.store.firsts.instances;
    } };

    ghost invariant = { λ h. IsStore h.store × RoomsFor h.ready h.store };
}

impl Heap {
    /// A heap without objects.
    pub fn new(alloc: Global) -> Heap
        ensures { result ≡ empty_heap }
    {
        Heap {
            store: Store::new(alloc),
            ready: None,
        }
    }

    /// What the type keeps. It does nothing.
    pub fn is_kept(&self)
        ensures { IsHeapOf self.now }
    {
        let _ = &self.store;
    }

    /// Sees to it that objects may be given to this owner. After `AllocError` all is as before.
    pub fn reserve_owner(&mut self, owner: Owner) -> Result<(), AllocError>
        ensures rows { self.new.rows ≡ self.old.rows }
        ensures ready { self.new.ready ≡ self.old.ready }
        ensures clients { self.old.clients ≤ self.new.clients }
        ensures instances { self.old.instances ≤ self.new.instances }
        ensures ok { OnOk result (MayOwn self.new owner) }
        ensures err { OnErr result (self.new ≡ self.old) }
    {
        self.store.firsts.open(owner)
    }

    /// Makes room for one object of a struct. After `AllocError` no room is reserved, and all else
    /// is as before.
    pub fn reserve_one(&mut self, alloc: Global, s: &StructRow) -> Result<(), AllocError>
        requires { length (heap_objects self.old.rows) < 2 ^ 32 }
        ensures ok { OnOk result (self.new ≡ record self.old { ready = Some (room_of s.now.flat) }) }
        ensures err { OnErr result (self.new ≡ record self.old { ready = None }) }
    {
        self.ready = None;
        self.store.reserve()?;
        self.ready = Some(ready_for(alloc, s.flat.as_slice())?);
        Ok(())
    }

    /// Makes an object in the room that was reserved: a root of this owner, its numbers 0 and its
    /// cells for an `RRef` empty. The answer is its number.
    pub fn make(&mut self, ty: u32, owner: Owner) -> u64
        requires ready { IsSome self.old.ready }
        requires few { length (heap_objects self.old.rows) < 65536 }
        requires numbers { length self.old.rows + 1 < 2 ^ 63 }
        requires owner { MayOwn self.old owner }
        ensures number { result ≡ length self.old.rows + 1 }
        ensures made { self.new ≡ with_new_object self.old ty owner }
    {
        let Some(ready) = self.ready.take() else {
            unreachable!();
        };
        self.store.make(ty, owner, ready.cells, ready.below)
    }

    /// Takes an object out. What hung in it is listed for the sweep.
    pub fn drop_object(&mut self, o: u64)
        requires root { IsRoot self.old.rows o }
        requires unlent { loans_at self.old.rows o ≡ 0 }
        requires stays { leaves_at self.old.rows o ≡ false }
        ensures { self.new ≡ record self.old { rows = map (with_leaving o) (map (unless o) self.old.rows) } }
    {
        self.store.drop_object(o);
    }

    /// Gives an object to another owner, and with it what hangs in it. Where that owner has ended,
    /// they are listed for the sweep, and the answer is true.
    pub fn pass(&mut self, o: u64, to: Owner, ended: bool) -> bool
        requires root { IsRoot self.old.rows o }
        requires unlent { loans_at self.old.rows o ≡ 0 }
        requires owner { MayOwn self.old to }
        ensures passed { self.new ≡ record self.old {
          rows = leaving_if ended o (map (on_object o (owned_by to)) self.old.rows);
        } }
        ensures ended { result ≡ ended }
    {
        self.store.pass(o, to);
        self.store.list_if(o, ended);
        ended
    }

    /// Lends an object once more.
    pub fn lend(&mut self, o: u64)
        requires root { IsRoot self.old.rows o }
        requires few { loans_at self.old.rows o < 1048576 }
        ensures { self.new ≡ record self.old { rows = map (on_row o one_loan_more) self.old.rows } }
    {
        self.store.places.lend(o);
    }

    /// Ends a loan of an object. Where it was the last, and the owner has ended, as `ended` tells,
    /// the object and what hangs in it are listed for the sweep, and the answer is true.
    pub fn give_back(&mut self, o: u64, ended: bool) -> bool
        requires root { IsRoot self.old.rows o }
        requires lent { 0 < loans_at self.old.rows o }
        ensures returned { self.new ≡ record self.old {
          rows = leaving_if result o (map (on_row o one_loan_less) self.old.rows);
        } }
        ensures free { result ≡ ended && (loans_at self.old.rows o == 1) }
    {
        let free = self.store.places.give_back(o, ended);
        self.store.list_if(o, free);
        free
    }

    /// Gives cells of an object, from a place on, these values.
    pub fn set(&mut self, o: u64, from: u32, values: &[u64])
        requires there { is_there self.old.rows o ≡ true }
        requires within { from + length values.now ≤ length (cells_at self.old.rows o) }
        ensures { self.new ≡ record self.old {
          rows = map (on_object o (with_cells (overwritten from values.now))) self.old.rows;
        } }
    {
        self.store.places.write(o, from, values);
    }

    /// Gives all cells of an object these values.
    pub fn fill(&mut self, o: u64, values: &[u64])
        requires there { is_there self.old.rows o ≡ true }
        requires whole { length values.now ≡ length (cells_at self.old.rows o) }
        ensures { self.new ≡ record self.old {
          rows = map (on_object o (with_cells (instead values.now))) self.old.rows;
        } }
    {
        self.store.places.fill(o, values);
    }

    /// The value of a cell; 0 where it is for an `RRef`.
    pub fn get(&self, o: u64, cell: u32) -> u64
        requires there { is_there self.now.rows o ≡ true }
        requires within { cell < length (cells_at self.now.rows o) }
        ensures { slice_get (cells_at self.now.rows o) cell ≡ Some result }
    {
        match self.store.places.get(o) {
            Some(place) => place.cells[cell as usize],
            None => unreachable!(),
        }
    }

    /// All cells of an object, 0 where they are for an `RRef`.
    pub fn cells(&self, o: u64) -> &[u64]
        requires { is_there self.now.rows o ≡ true }
        ensures { result.now ≡ cells_at self.now.rows o }
    {
        match self.store.places.get(o) {
            Some(place) => place.cells.as_slice(),
            None => unreachable!(),
        }
    }

    /// Takes out the objects that are listed for the sweep, and logs them by rising number.
    pub fn sweep(&mut self, log: &mut Log)
        requires { length (leaving_in self.old.rows) ≤ log.old.spare }
        ensures rows { self.new ≡ record self.old { rows = swept_rows self.old.rows } }
        ensures log { log.new.entries ≡ log.old.entries ++ map entry.Free (leaving_in self.old.rows) }
        ensures spare { log.new.spare + length (leaving_in self.old.rows) ≡ log.old.spare }
    {
        self.store.sweep(log);
    }

    /// Ends what an instance owned. Its roots that aren't lent are taken out with what hangs in
    /// them, and logged by rising number; those that are lent stay, with what hangs in them, until
    /// the last loan ends. A step is one place looked at: one for each root, and one for each
    /// object that is taken out.
    pub fn end_owner<L: Ledger>(&mut self, i: u32, log: &mut Log, steps: &mut Steps<L>)
        requires swept { leaving_in self.old.rows ≡ [] }
        requires room { length (left_by self.old.rows (owner.Instance i)) ≤ log.old.spare }
        ensures rows { self.new ≡ record self.old { rows = rows_without self.old.rows (owner.Instance i) } }
        ensures log { log.new.entries ≡ log.old.entries ++ map entry.Free (left_by self.old.rows (owner.Instance i)) }
        ensures spare { log.new.spare + length (left_by self.old.rows (owner.Instance i)) ≡ log.old.spare }
        ensures steps { steps.new ≤ steps.old + (length (roots_of self.old.rows (owner.Instance i))
            + length (left_by self.old.rows (owner.Instance i))) }
    {
        self.store.list_left(Owner::Instance(i), steps);
        self.store.sweep_counted(log, steps);
    }

    /// Hangs a root in an empty cell of another.
    pub fn hang(&mut self, o: u64, cell: u32, v: u64)
        requires parent { IsRoot self.old.rows o }
        requires child { IsRoot self.old.rows v }
        requires nests { nests_at self.old.rows o ≡ true }
        requires low { nests_at self.old.rows v ≡ false }
        requires stays { leaves_at self.old.rows o ≡ false }
        requires child_stays { leaves_at self.old.rows v ≡ false }
        requires within { cell < length (cells_at self.old.rows o) }
        requires empty { hung_at self.old.rows o cell ≡ None }
        ensures { self.new ≡ record self.old { rows = map (on_object v (with_placement (Hung o cell))) self.old.rows } }
    {
        self.store.hang(o, cell, v);
    }

    /// Takes what hangs in a cell of a root out of it. It is a root of the same owner then, and the
    /// answer.
    pub fn unhang(&mut self, o: u64, cell: u32) -> u64
        requires root { IsRoot self.old.rows o }
        requires stays { leaves_at self.old.rows o ≡ false }
        requires full { IsSome (hung_at self.old.rows o cell) }
        ensures object { hung_at self.old.rows o cell ≡ Some result }
        ensures rows { (w : AnOwner) → root_owner self.old.rows o ≡ Some w
            → self.new ≡ record self.old { rows = map (on_object result (owned_by w)) self.old.rows } }
    {
        self.store.unhang(o, cell)
    }

    /// The object that hangs in a cell. None exactly where none does.
    pub fn hung(&self, o: u64, cell: u32) -> Option<u64>
        requires there { is_there self.now.rows o ≡ true }
        requires stays { leaves_at self.now.rows o ≡ false }
        ensures { result ≡ hung_at self.now.rows o cell }
    {
        match self.store.places.below(o, cell as usize) {
            0 => None,
            v => Some(v),
        }
    }

    /// Whether the object is there.
    pub fn is_live(&self, o: u64) -> bool
        ensures { result ≡ is_there self.now.rows o }
    {
        self.store.places.get(o).is_some()
    }

    /// How many objects there are.
    pub fn live(&self) -> u32
        ensures { result ≡ length (heap_objects self.now.rows) }
    {
        self.store.live
    }

    /// How many objects were ever made.
    pub fn made(&self) -> usize
        ensures { result ≡ length self.now.rows }
    {
        self.store.places.len()
    }

    /// What is known of an object. None exactly where it is gone.
    pub fn row(&self, o: u64) -> Option<ObjectRow>
        ensures { result ≡ object_row (row_of self.now.rows o) }
    {
        match self.store.places.get(o) {
            Some(place) => Some(row_of_place(place)),
            None => None,
        }
    }
}
