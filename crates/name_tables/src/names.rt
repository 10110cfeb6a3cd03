//! Names in order, with the place where each stands first.
ghost use Rattle.std.specs.Prelude.{◌≡◌, ◌≢◌, ℕ, ◌+◌, ◌-◌, ◌^◌, ◌<◌, List, [], ◌∷◌, ◌++◌, Some, None, length, nat_eq, OnOk, OnErr, IfOk};
ghost use Rattle.std.specs.Cmp.Lexicographic.{pointwise};
ghost use Rattle.indexmap.specs.IndexMap.{get, Updates};
ghost use Rattle.rl_defs.specs.Interfaces.{place_of};

use indexmap::IndexMap;
use rl_defs::name::Name;
use std::alloc::{AllocError, Global};
use std::marker::Model;

/// Names in order, with the place where each stands first. A name may stand there more than once.
/// Contracts see the list of the names.
#[derive(Drop)]
pub struct Names {
    names: Vec<Name>,
    places: IndexMap<Name, u32>,
}

impl Model for Names {
    ghost use Rattle.std.specs.Prelude.{List, ℕ};
    ghost use Rattle.name_tables.specs.Placed.{IsPlaced};

    ghost Value = { List (List ℕ) };

    ghost view = { λ t. t.names.items };

    ghost invariant = { λ t. IsPlaced t.names.items t.places };
}

impl Names {
    /// No names. They take memory only as they are added.
    pub fn new(alloc: Global) -> Names
        ensures { result ≡ [] }
    {
        Names {
            names: Vec::new(alloc),
            places: IndexMap::new(alloc),
        }
    }

    /// No names, and room for as many as are counted. It is a help alone, so where memory for it
    /// isn't found it is left away.
    pub fn with_room(alloc: Global, count: usize) -> Names
        ensures { result ≡ [] }
    {
        let mut names = Names::new(alloc);
        let _ = names.names.reserve(count);
        let _ = names.places.reserve(count);
        names
    }

    /// Takes all names out. Their memory is kept, unless it is for many more than they were: so
    /// this takes time for the names alone.
    pub fn clear(&mut self)
        ensures { self.new ≡ [] }
    {
        let count = self.names.len();
        if count == 0 {
            return;
        }
        self.names.clear();
        if self.places.capacity() / 8 > count {
            self.places = IndexMap::new(*self.names.allocator());
        } else {
            self.places.clear();
        }
    }

    /// Adds a name, and gives the place where it stood before, from 0, if it did. After
    /// `AllocError` the names are as before.
    pub fn add(&mut self, name: &Name) -> Result<Option<u32>, AllocError>
        requires room { length self.old < 2 ^ 32 - 1 }
        ensures added { OnOk result (self.new ≡ self.old ++ name.now ∷ []) }
        ensures before { IfOk result (λ place. place ≡ place_of name.now self.old) }
        ensures full { OnErr result (self.new ≡ self.old) }
    {
        let place = self.names.len() as u32;
        push(&mut self.names, name)?;
        match self.places.insert(*name, place) {
            Ok(None) => Ok(None),
            Ok(Some(earlier)) => {
                put_back(&mut self.places, name, earlier);
                Ok(Some(earlier))
            }
            Err(_) => {
                self.names.pop();
                Err(AllocError)
            }
        }
    }

    /// The place where a name stands first, from 0, if it is there.
    pub fn place(&self, name: &Name) -> Option<u32>
        ensures { result ≡ place_of name.now self.now }
    {
        self.places.get(name).copied()
    }

    /// How many names were added.
    pub fn len(&self) -> u32
        ensures { result ≡ length self.now }
    {
        self.names.len() as u32
    }
}

fn push(names: &mut Vec<Name>, name: &Name) -> Result<(), AllocError>
    ensures added { OnOk result (names.new.items ≡ names.old.items ++ name.now ∷ []) }
    ensures full { OnErr result (names.new.items ≡ names.old.items) }
{
    match names.push(*name) {
        Ok(()) => Ok(()),
        Err(_) => Err(AllocError),
    }
}

// Gives a name that is there its first place back. Most names are new, and are then looked up once.
fn put_back(places: &mut IndexMap<Name, u32>, name: &Name, first: u32)
    requires { get (pointwise nat_eq) places.old name.now ≢ None }
    ensures { Updates (pointwise nat_eq) places.old places.new name.now (Some first) }
{
    match places.insert(*name, first) {
        Ok(_) => {}
        Err(_) => unreachable!(),
    }
}
