//! The parts of a heap: places, first roots, and the list for the sweep.
ghost use Rattle.std.specs.Prelude.{◌≡◌, ◌<◌, ◌≤◌, ◌+◌, ◌^◌, replicate, ◌++◌, ◌∷◌, [], ℕ, map, length, Some, None, IsSome, true, false, OnOk, OnErr};
ghost use Rattle.std.specs.Prelude.{is_some};
ghost use Rattle.machine_defs.specs.declared.values.Owner.{Owner as AnOwner};
ghost use Rattle.machine_defs.specs.declared.entry.Entry.TheVariants as entry;
ghost use Rattle.machine_defs.specs.State.{Hung};
ghost use Rattle.machine_defs.specs.Objects.{owned_by, with_placement};
ghost use Rattle.rref_heap.specs.HeapValue.{IsRoot, root_owner, cells_at, nests_at, leaves_at, hung_at};
ghost use Rattle.rref_heap.specs.Leaving.{swept_rows, leaving_in, listed_rows, roots_of};
ghost use Rattle.rref_heap.specs.Changing.{on_object, with_leaving, leaving_if, unless};
ghost use Rattle.rref_heap.specs.Spots.{rows_in, on_spot, to_leave};
ghost use Rattle.rref_heap.specs.Links.{HasFirst, first_in, links_in};
ghost use Rattle.rref_heap.specs.Store.{IsStore, Makes, new_spot, IsNested, nests_in, leaves_in, Becomes, Listable, Lists, if_below, linked_first, without_links, TakesLast};

use crate::firsts::Firsts;
use crate::listing::Listing;
use crate::place::{Hanging, Place};
use crate::places::Places;
use crate::steps::Steps;
use borrow_counts::BorrowWord;
use machine_defs::entry::Entry;
use machine_defs::log::Log;
use machine_defs::values::Owner;
use std::alloc::{AllocError, Global};
use std::sync::ledger::Ledger;

/// The parts of a heap.
#[derive(Drop)]
pub struct Store {
    pub places: Places,
    pub firsts: Firsts,
    pub listing: Listing,
    pub live: u32,
}

impl Store {
    /// No objects.
    pub fn new(alloc: Global) -> Store
        ensures spots { result.places.spots ≡ [] }
        ensures firsts { result.firsts ≡ record { clients = []; instances = [] } }
        ensures numbers { result.listing.numbers ≡ [] }
        ensures live { result.live ≡ 0 }
    {
        Store {
            places: Places::new(alloc),
            firsts: Firsts::new(alloc),
            listing: Listing::new(alloc),
            live: 0,
        }
    }

    /// Makes room for one more place, and for one more number in the list.
    pub fn reserve(&mut self) -> Result<(), AllocError>
        ensures spots { self.new.places.spots ≡ self.old.places.spots }
        ensures numbers { self.new.listing.numbers ≡ self.old.listing.numbers }
        ensures firsts { self.new.firsts ≡ self.old.firsts }
        ensures live { self.new.live ≡ self.old.live }
        ensures spare { self.old.listing.spare ≤ self.new.listing.spare }
        ensures ok { OnOk result ((0 < self.new.places.spare) × (self.old.live < self.new.listing.spare)) }
    {
        self.places.reserve()?;
        self.listing.reserve(self.live as usize + 1)
    }

    /// Makes a root, in the room that was reserved.
    pub fn make(&mut self, ty: u32, owner: Owner, cells: Vec<u64>, below: Vec<u64>) -> u64
        requires store { IsStore self.old }
        requires place { 0 < self.old.places.spare }
        requires number { self.old.live < length self.old.listing.numbers + self.old.listing.spare }
        requires few { self.old.live < 65536 }
        requires numbers { length self.old.places.spots + 1 < 2 ^ 63 }
        requires has { HasFirst self.old.firsts owner }
        requires empty { below.items ≡ replicate (length below.items) 0 }
        requires wide { 0 < length below.items → length below.items ≡ length cells.items }
        ensures number { result ≡ length self.old.places.spots + 1 }
        ensures made { Makes self.old self.new owner (new_spot (length self.old.places.spots + 1) ty owner
            cells.items below.items (first_in self.old.firsts owner)) }
    {
        let number = self.places.len() as u64 + 1;
        let next = self.firsts.get(owner);
        self.places.push(Place {
            number,
            ty,
            owner,
            hangs: None,
            word: BorrowWord::new(),
            leaves: false,
            cells,
            below,
            next,
            prev: 0,
        });
        self.places.set_prev(next, number);
        self.firsts.set(owner, number);
        self.live += 1;
        number
    }

    // Puts an object in front of an owner's roots.
    fn link(&mut self, o: u64, owner: Owner)
        requires { HasFirst self.old.firsts owner }
        ensures { self.new ≡ linked_first self.old o owner }
    {
        let first = self.firsts.get(owner);
        self.places.set_owner(o, owner, first);
        self.places.set_prev(first, o);
        self.firsts.set(owner, o);
    }

    // Links the neighbors of a root to one another.
    fn unlink(&mut self, owner: Owner, prev: u64, next: u64)
        requires { prev ≡ 0 → HasFirst self.old.firsts owner }
        ensures { self.new ≡ without_links self.old owner prev next }
    {
        self.places.set_next(prev, next);
        self.places.set_prev(next, prev);
        self.firsts.set_after(owner, prev, next);
    }

    // The owner of a root, and the roots before and behind it.
    fn neighbors(&self, o: u64) -> (Owner, u64, u64)
        requires { is_some (links_in self.now.places.spots o) ≡ true }
        ensures { links_in self.now.places.spots o
            ≡ Some (record { owner = result.0; next = result.2; prev = result.1 }) }
    {
        match self.places.get(o) {
            Some(place) => (place.owner, place.prev, place.next),
            None => unreachable!(),
        }
    }

    /// Takes a root out of its owner's roots, and puts it in front of another's.
    pub fn pass(&mut self, o: u64, to: Owner)
        requires store { IsStore self.old }
        requires root { is_some (links_in self.old.places.spots o) ≡ true }
        requires has { HasFirst self.old.firsts to }
        ensures { Becomes self.old self.new (map (on_object o (owned_by to)) (rows_in self.old.places.spots)) }
    {
        let (owner, prev, next) = self.neighbors(o);
        self.unlink(owner, prev, next);
        self.link(o, to);
    }

    // Lists an object for the sweep, if it is there and isn't listed.
    fn list_one(&mut self, o: u64)
        requires { Listable self.old }
        ensures { Lists self.old self.new (map (on_spot o to_leave) self.old.places.spots) }
    {
        if self.places.stays(o) {
            self.listing.push(o);
            self.places.set_leaving(o);
        }
    }

    // Lists what hangs in an object for the sweep.
    fn list_below(&mut self, o: u64)
        requires listable { Listable self.old }
        requires nested { IsNested (nests_in self.old.places.spots) (length self.old.places.spots) }
        ensures { Lists self.old self.new (map (if_below o) self.old.places.spots) }
    {
        let width = self.places.width(o);
        'cells: for cell in 0..width {
            let v = self.places.below(o, cell);
            self.list_one(v);
        }
    }

    // Lists an object and what hangs in it for the sweep.
    fn list(&mut self, o: u64)
        requires store { IsStore self.old }
        requires root { is_some (links_in self.old.places.spots o) ≡ true }
        ensures becomes { Becomes self.old self.new (map (with_leaving o) (rows_in self.old.places.spots)) }
        ensures links { (n : ℕ) → links_in self.new.places.spots n ≡ links_in self.old.places.spots n }
    {
        self.list_below(o);
        self.list_one(o);
    }

    /// The same where it is asked for.
    pub fn list_if(&mut self, o: u64, asked: bool)
        requires store { IsStore self.old }
        requires root { is_some (links_in self.old.places.spots o) ≡ true }
        ensures { Becomes self.old self.new (leaving_if asked o (rows_in self.old.places.spots)) }
    {
        if asked {
            self.list(o);
        }
    }

    // Takes out the object that is listed last. The answer is its number, None exactly where none
    // is listed.
    fn take_last(&mut self) -> Option<u64>
        requires { IsStore self.old }
        ensures { TakesLast self.old self.new result }
    {
        let o = self.listing.pop()?;
        if let Some(place) = self.places.take(o) {
            self.live -= 1;
            if place.hangs.is_none() {
                self.unlink(place.owner, place.prev, place.next);
            }
        }
        Some(o)
    }

    /// Takes a root out, and lists for the sweep what hung in it.
    pub fn drop_object(&mut self, o: u64)
        requires store { IsStore self.old }
        requires root { is_some (links_in self.old.places.spots o) ≡ true }
        requires stays { leaves_in (nests_in self.old.places.spots o) ≡ false }
        ensures { Becomes self.old self.new (map (with_leaving o) (map (unless o) (rows_in self.old.places.spots))) }
    {
        let (owner, prev, next) = self.neighbors(o);
        self.list_below(o);
        self.unlink(owner, prev, next);
        self.places.take(o);
        self.live -= 1;
    }

    /// Takes out what is listed, and logs it by rising number.
    pub fn sweep(&mut self, log: &mut Log)
        requires store { IsStore self.old }
        requires spare { length (leaving_in (rows_in self.old.places.spots)) ≤ log.old.spare }
        ensures becomes { Becomes self.old self.new (swept_rows (rows_in self.old.places.spots)) }
        ensures log { log.new.entries ≡ log.old.entries ++ map entry.Free (leaving_in (rows_in self.old.places.spots)) }
        ensures spare { log.new.spare + length (leaving_in (rows_in self.old.places.spots)) ≡ log.old.spare }
    {
        self.listing.sort();
        'numbers: while let Some(o) = self.take_last() {
            log.put(Entry::Free(o));
        }
    }

    /// The same, with a step for each.
    pub fn sweep_counted<L: Ledger>(&mut self, log: &mut Log, steps: &mut Steps<L>)
        requires store { IsStore self.old }
        requires spare { length (leaving_in (rows_in self.old.places.spots)) ≤ log.old.spare }
        ensures becomes { Becomes self.old self.new (swept_rows (rows_in self.old.places.spots)) }
        ensures log { log.new.entries ≡ log.old.entries ++ map entry.Free (leaving_in (rows_in self.old.places.spots)) }
        ensures spare { log.new.spare + length (leaving_in (rows_in self.old.places.spots)) ≡ log.old.spare }
        ensures steps { steps.new ≡ steps.old + length (leaving_in (rows_in self.old.places.spots)) }
    {
        self.listing.sort();
        'numbers: while let Some(o) = self.take_last() {
            steps.tick();
            log.put(Entry::Free(o));
        }
    }

    /// Lists an owner's roots that aren't lent, and what hangs in them.
    pub fn list_left<L: Ledger>(&mut self, owner: Owner, steps: &mut Steps<L>)
        requires store { IsStore self.old }
        requires swept { leaving_in (rows_in self.old.places.spots) ≡ [] }
        ensures becomes { Becomes self.old self.new (listed_rows (rows_in self.old.places.spots) owner) }
        ensures steps { steps.new ≤ steps.old + length (roots_of (rows_in self.old.places.spots) owner) }
    {
        let mut o = self.firsts.get(owner);
        'roots: while o > 0 {
            steps.tick();
            let (loans, next) = self.places.look(o);
            if loans == 0 {
                self.list(o);
            }
            o = next;
        }
    }

    /// Hangs a root in an empty cell of another.
    pub fn hang(&mut self, o: u64, cell: u32, v: u64)
        requires store { IsStore self.old }
        requires parent { IsRoot (rows_in self.old.places.spots) o }
        requires child { IsRoot (rows_in self.old.places.spots) v }
        requires nests { nests_at (rows_in self.old.places.spots) o ≡ true }
        requires low { nests_at (rows_in self.old.places.spots) v ≡ false }
        requires stays { leaves_at (rows_in self.old.places.spots) o ≡ false }
        requires child_stays { leaves_at (rows_in self.old.places.spots) v ≡ false }
        requires within { cell < length (cells_at (rows_in self.old.places.spots) o) }
        requires empty { hung_at (rows_in self.old.places.spots) o cell ≡ None }
        ensures { Becomes self.old self.new
            (map (on_object v (with_placement (Hung o cell))) (rows_in self.old.places.spots)) }
    {
        let (owner, prev, next) = self.neighbors(v);
        self.unlink(owner, prev, next);
        self.places.set_hanging(
            v,
            Hanging {
                parent: o,
                place: cell,
            },
        );
        self.places.set_below(o, cell, v);
    }

    /// Takes what hangs in a cell of a root out of it.
    pub fn unhang(&mut self, o: u64, cell: u32) -> u64
        requires store { IsStore self.old }
        requires root { IsRoot (rows_in self.old.places.spots) o }
        requires stays { leaves_at (rows_in self.old.places.spots) o ≡ false }
        requires full { IsSome (hung_at (rows_in self.old.places.spots) o cell) }
        ensures object { hung_at (rows_in self.old.places.spots) o cell ≡ Some result }
        ensures becomes { (w : AnOwner) → root_owner (rows_in self.old.places.spots) o ≡ Some w
            → Becomes self.old self.new (map (on_object result (owned_by w)) (rows_in self.old.places.spots)) }
    {
        let v = self.places.below(o, cell as usize);
        self.places.set_below(o, cell, 0);
        if let Some(place) = self.places.get(o) {
            let owner = place.owner;
            self.link(v, owner);
        }
        v
    }
}
