//! The list for the next sweep.
ghost use Rattle.std.specs.Prelude.{◌≡◌, ◌<◌, ◌≤◌, ◌+◌, [], ◌∷◌, ◌++◌, ℕ, length, OnOk, OnErr, Some, None};
ghost use Rattle.std.specs.Option.{option_to_list};
ghost use Rattle.std.specs.Prelude.{IsPermutation};
ghost use Rattle.rref_heap.specs.Listing.{Falls};

use std::alloc::{AllocError, Global};
use std::marker::Model;

/// The numbers of the objects that the next sweep takes, with room for some more.
#[derive(Drop)]
pub struct Listing {
    numbers: Vec<u64>,
}

impl Model for Listing {
    ghost use Rattle.std.specs.Prelude.{vec_len, vec_capacity, ◌-◌};
    ghost use Rattle.rref_heap.specs.Listing.{ListingValue};

    ghost Value = { ListingValue };

    ghost view = { λ l. record { numbers = l.numbers.items; spare = vec_capacity l.numbers - vec_len l.numbers } };
}

impl Listing {
    /// An empty list.
    pub fn new(alloc: Global) -> Listing
        ensures { result.numbers ≡ [] }
    {
        Listing {
            numbers: Vec::new(alloc),
        }
    }

    /// How many numbers are listed.
    pub fn len(&self) -> usize
        ensures { result ≡ length self.now.numbers }
    {
        self.numbers.len()
    }

    /// Makes room for this many more.
    pub fn reserve(&mut self, more: usize) -> Result<(), AllocError>
        ensures numbers { self.new.numbers ≡ self.old.numbers }
        ensures ok { OnOk result (more ≤ self.new.spare) }
        ensures grows { self.old.spare ≤ self.new.spare }
        ensures err { OnErr result (self.new ≡ self.old) }
    {
        self.numbers.reserve(more)?;
        Ok(())
    }

    /// Lists one more, in the room that was reserved.
    pub fn push(&mut self, number: u64)
        requires { 0 < self.old.spare }
        ensures numbers { self.new.numbers ≡ self.old.numbers ++ number ∷ [] }
        ensures spare { self.new.spare + 1 ≡ self.old.spare }
    {
        self.numbers.push_reserved(number);
    }

    /// Takes out the last. None exactly where none is listed.
    pub fn pop(&mut self) -> Option<u64>
        ensures numbers { self.old.numbers ≡ self.new.numbers ++ option_to_list result }
        ensures none { result ≡ None → length self.old.numbers ≡ 0 }
        ensures spare { self.new.spare + length self.new.numbers ≡ self.old.spare + length self.old.numbers }
    {
        self.numbers.pop()
    }

    /// Puts the greatest first and the least last. It takes no memory.
    pub fn sort(&mut self)
        ensures same { IsPermutation self.old.numbers self.new.numbers }
        ensures falls { Falls self.new.numbers }
        ensures spare { self.new.spare ≡ self.old.spare }
    {
        self.numbers.sort_unstable();
        self.numbers.reverse();
    }
}
