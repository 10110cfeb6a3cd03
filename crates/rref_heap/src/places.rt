//! The places of a heap, by number.
ghost use Rattle.std.specs.Prelude.{◌≡◌, ◌≢◌, ◌<◌, ◌≤◌, ◌+◌, ◌-◌, ◌==◌, ◌&&◌, [], ◌∷◌, ◌++◌, ℕ, map, length, OnOk, OnErr, Some, None, slice_set};
ghost use Rattle.std.specs.Option.{option_copied};
ghost use Rattle.std.specs.List.{slice_index_or};
ghost use Rattle.machine_defs.specs.Objects.{overwritten};
ghost use Rattle.rref_heap.specs.Keyed.{key_at};
ghost use Rattle.rref_heap.specs.Spots.{Spot as ASpot, Numbered, at, spot_in, spot_of, on_spot, unless_spot, to_next, to_prev, to_owner, to_cell, to_below, to_leave, one_more, one_fewer, written, to_cells, stays_in, width_of, below_in, loans_in, next_in};

use crate::place::{Hanging, Place};
use borrow_counts::BorrowWord;
use machine_defs::values::Owner;
use slab::Slab;
use std::alloc::{AllocError, Global};
use std::marker::Model;

/// The places of a heap. The objects that are there stand in a slab, which uses the place of one
/// that was taken out again.
///
/// The object with number n has its key in the slab at `keys[n - 1]`, and one that was taken out
/// leaves `None` there. So a number that is gone keeps its entry of that list, and no more.
#[derive(Drop)]
pub struct Places {
    keys: Vec<Option<usize>>,
    places: Slab<Place>,
    // How many more fit into both without memory, as far as was reserved.
    room: usize,
}

impl Model for Places {
    ghost use Rattle.std.specs.Prelude.{vec_capacity, map};
    ghost use Rattle.rref_heap.specs.Spots.{PlacesValue};
    ghost use Rattle.rref_heap.specs.Keyed.{spot_under, IsKeyed};

    ghost Value = { PlacesValue };

    ghost view = { λ p. record { spots = map (spot_under p.places) p.keys.items; spare = p.room } };

    ghost invariant = { λ p. IsKeyed p.keys.items (vec_capacity p.keys) p.places p.room };
}

// Ends a loan. The answer is whether nobody can reach the object any more, where it is told whether
// its owner has ended.
fn give_back_word(word: &mut BorrowWord, ended: bool) -> bool
    requires { 0 < word.old.count }
    ensures loans { word.new.count ≡ word.old.count - 1 }
    ensures free { result ≡ ended && (word.old.count == 1) }
{
    if ended {
        word.end();
    }
    word.give_back();
    ended && word.is_free()
}

// Writes values from a place on.
fn write_cells(cells: &mut Vec<u64>, from: usize, values: &[u64])
    requires { from + length values.now ≤ length cells.old.items }
    ensures { cells.new.items ≡ overwritten from values.now cells.old.items }
{
    let end = from + values.len();
    cells[from..end].copy_from_slice(values);
}

// The index of a number in the list of keys.
fn index_of(number: u64) -> usize
    ensures { result ≡ number - 1 }
{
    number.saturating_sub(1) as usize
}

// The key of an object. None where it is gone.
fn key_of(keys: &[Option<usize>], number: u64) -> Option<usize>
    ensures { result ≡ key_at keys.now number }
{
    if number == 0 {
        return None;
    }
    match keys.get(index_of(number)) {
        Some(&key) => key,
        None => None,
    }
}

impl Places {
    /// No places.
    pub fn new(alloc: Global) -> Places
        ensures { result.spots ≡ [] }
    {
        Places {
            keys: Vec::new(alloc),
            places: Slab::new(alloc),
            room: 0,
        }
    }

    /// How many places there are, empty ones too.
    pub fn len(&self) -> usize
        ensures { result ≡ length self.now.spots }
    {
        self.keys.len()
    }

    /// Makes room for one more.
    pub fn reserve(&mut self) -> Result<(), AllocError>
        ensures spots { self.new.spots ≡ self.old.spots }
        ensures ok { OnOk result (0 < self.new.spare) }
        ensures err { OnErr result (self.new ≡ self.old) }
    {
        if self.room == 0 {
            self.keys.reserve(1)?;
            self.places.reserve(1)?;
            self.room = 1;
        }
        Ok(())
    }

    /// Adds a place in the room that was reserved.
    pub fn push(&mut self, place: Place)
        requires room { 0 < self.old.spare }
        requires number { place.number ≡ length self.old.spots + 1 }
        ensures { self.new.spots ≡ self.old.spots ++ Some (spot_of place) ∷ [] }
    {
        let key = self.places.insert_reserved(place);
        self.keys.push_reserved(Some(key));
        self.room -= 1;
    }

    /// The place of an object. None where it is gone.
    pub fn get(&self, number: u64) -> Option<&Place>
        ensures { spot_in (option_copied result) ≡ at self.now.spots number }
    {
        let key = key_of(&self.keys, number)?;
        self.places.get(key)
    }

    /// How many cells of an object others may hang in, 0 where it is gone.
    pub fn width(&self, number: u64) -> usize
        ensures { result ≡ width_of (at self.now.spots number) }
    {
        match self.get(number) {
            Some(place) => place.below.len(),
            None => 0,
        }
    }

    /// The number of what hangs in a cell of an object, 0 where nothing does or it is gone.
    pub fn below(&self, number: u64, cell: usize) -> u64
        ensures { result ≡ below_in (at self.now.spots number) cell }
    {
        match self.get(number) {
            Some(place) => match place.below.get(cell) {
                Some(&below) => below,
                None => 0,
            },
            None => 0,
        }
    }

    /// Whether an object is there and isn't listed for the sweep.
    pub fn stays(&self, number: u64) -> bool
        ensures { result ≡ stays_in (at self.now.spots number) }
    {
        match self.get(number) {
            Some(place) => !place.leaves,
            None => false,
        }
    }

    /// How often an object is lent, and the number of its owner's next root; both 0 where it is
    /// gone.
    pub fn look(&self, number: u64) -> (u32, u64)
        ensures loans { result.0 ≡ loans_in (at self.now.spots number) }
        ensures next { result.1 ≡ next_in (at self.now.spots number) }
    {
        match self.get(number) {
            Some(place) => (place.word.count, place.next),
            None => (0, 0),
        }
    }

    /// Takes an object out.
    pub fn take(&mut self, number: u64) -> Option<Place>
        ensures numbered { Numbered self.old.spots }
        ensures value { spot_in result ≡ at self.old.spots number }
        ensures rest { self.new ≡ record self.old { spots = map (unless_spot number) self.old.spots } }
    {
        let key = key_of(&self.keys, number)?;
        self.keys[index_of(number)] = None;
        Some(self.places.remove(key))
    }

    /// The next root of the owner is another one.
    pub fn set_next(&mut self, number: u64, next: u64)
        ensures { self.new ≡ record self.old { spots = map (on_spot number (to_next next)) self.old.spots } }
    {
        if let Some(key) = key_of(&self.keys, number) {
            self.places[key].next = next;
        }
    }

    /// The root before is another one.
    pub fn set_prev(&mut self, number: u64, prev: u64)
        ensures { self.new ≡ record self.old { spots = map (on_spot number (to_prev prev)) self.old.spots } }
    {
        if let Some(key) = key_of(&self.keys, number) {
            self.places[key].prev = prev;
        }
    }

    /// The object is a root of this owner, before another one.
    pub fn set_owner(&mut self, number: u64, owner: Owner, next: u64)
        ensures { self.new ≡ record self.old { spots = map (on_spot number (to_owner owner next)) self.old.spots } }
    {
        if let Some(key) = key_of(&self.keys, number) {
            let place = &mut self.places[key];
            place.owner = owner;
            place.hangs = None;
            place.next = next;
            place.prev = 0;
        }
    }

    /// The object hangs in a cell.
    pub fn set_hanging(&mut self, number: u64, hanging: Hanging)
        ensures { self.new ≡ record self.old {
          spots = map (on_spot number (to_cell hanging.parent hanging.place)) self.old.spots;
        } }
    {
        if let Some(key) = key_of(&self.keys, number) {
            let place = &mut self.places[key];
            place.hangs = Some(hanging);
            place.next = 0;
            place.prev = 0;
        }
    }

    /// Another object hangs in a cell of this one, or none.
    pub fn set_below(&mut self, number: u64, cell: u32, below: u64)
        requires { (p : ASpot) → at self.old.spots number ≡ Some p → cell < length p.below }
        ensures { self.new ≡ record self.old { spots = map (on_spot number (to_below cell below)) self.old.spots } }
    {
        if let Some(key) = key_of(&self.keys, number) {
            let place = &mut self.places[key];
            place.below[cell as usize] = below;
        }
    }

    /// The next sweep takes the object.
    pub fn set_leaving(&mut self, number: u64)
        ensures { self.new ≡ record self.old { spots = map (on_spot number to_leave) self.old.spots } }
    {
        if let Some(key) = key_of(&self.keys, number) {
            self.places[key].leaves = true;
        }
    }

    /// One loan more.
    pub fn lend(&mut self, number: u64)
        requires { (p : ASpot) → at self.old.spots number ≡ Some p → p.loans < 1048576 }
        ensures { self.new ≡ record self.old { spots = map (on_spot number one_more) self.old.spots } }
    {
        if let Some(key) = key_of(&self.keys, number) {
            self.places[key].word.lend();
        }
    }

    /// One loan less. The answer is whether nobody can reach the object any more, where it is told
    /// whether its owner has ended.
    pub fn give_back(&mut self, number: u64, ended: bool) -> bool
        requires { (p : ASpot) → at self.old.spots number ≡ Some p → 0 < p.loans }
        ensures loans { self.new ≡ record self.old { spots = map (on_spot number one_fewer) self.old.spots } }
        ensures free { (p : ASpot) → at self.old.spots number ≡ Some p → result ≡ ended && (p.loans == 1) }
    {
        let Some(key) = key_of(&self.keys, number) else {
            return false;
        };
        give_back_word(&mut self.places[key].word, ended)
    }

    /// Cells from a place on have these values.
    pub fn write(&mut self, number: u64, from: u32, values: &[u64])
        requires { (p : ASpot) → at self.old.spots number ≡ Some p → from + length values.now ≤ length p.cells }
        ensures { self.new ≡ record self.old { spots = map (on_spot number (written from values.now)) self.old.spots } }
    {
        if let Some(key) = key_of(&self.keys, number) {
            write_cells(&mut self.places[key].cells, from as usize, values);
        }
    }

    /// All cells have these values.
    pub fn fill(&mut self, number: u64, values: &[u64])
        requires { (p : ASpot) → at self.old.spots number ≡ Some p → length values.now ≡ length p.cells }
        ensures { self.new ≡ record self.old { spots = map (on_spot number (to_cells values.now)) self.old.spots } }
    {
        if let Some(key) = key_of(&self.keys, number) {
            write_cells(&mut self.places[key].cells, 0, values);
        }
    }
}
