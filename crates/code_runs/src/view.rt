//! A view whose words, slots, objects, blocks and bindings are plain values in memory.
ghost use Rattle.std.specs.Prelude.{◌≡◌, ◌==◌};
ghost use Rattle.std.specs.List.{slice_index_or};
ghost use Rattle.code_runs.specs.Seen.{cell_at, types_of};

use machine_defs::frame::View;
use rl_defs::list::List;

/// What a cell of an object holds.
#[derive(Clone, Copy, Debug, PartialEq, Eq)]
pub enum Cell {
    /// A number.
    Num(u64),
    /// An `RRef` cell, in which nothing hangs.
    Empty,
    /// An `RRef` cell, in which this object hangs.
    Holds(u64),
}

/// An object: its struct, by its number, and its cells.
#[derive(Debug, Drop)]
pub struct SeenObject {
    pub of: u32,
    pub cells: List<Cell>,
}

/// What a frame sees, and of which struct each object and of which trait each target is. An
/// object's number is its place, from 0. Objects that are to be made stand here beforehand.
#[derive(Debug, Drop)]
pub struct MemoryView {
    pub objects: List<SeenObject>,
    pub words: List<u64>,
    /// What each slot holds.
    pub slots: List<Option<u64>>,
    /// How many blocks the device has.
    pub blocks: u64,
    /// The target that is bound to each import.
    pub binds: List<u32>,
    /// The trait of each target, from target 0 on.
    pub traits: List<u32>,
}

impl MemoryView {
    fn cell_at(&self, object: u64, at: u64) -> Option<Cell>
        ensures { result ≡ cell_at self.now object at }
    {
        self.objects
            .get(object as usize)?
            .cells
            .get(at as usize)
            .copied()
    }

    /// Whether an object is there, and of this struct.
    pub fn is_of(&self, object: u64, of: u32) -> bool
        ensures { result ≡ ((types_of self.now).struct_of object == of) }
    {
        match self.objects.get(object as usize) {
            Some(seen) => seen.of == of,
            None => false,
        }
    }

    /// The trait of a target, and 0 where it isn't there.
    pub fn trait_of(&self, target: u32) -> u32
        ensures { result ≡ (types_of self.now).trait_of target }
    {
        number_at(self.traits.as_slice(), target)
    }
}

// The number at a place, and 0 where there is none.
fn number_at(numbers: &[u32], at: u32) -> u32
    ensures { result ≡ slice_index_or numbers.now at 0 }
{
    match numbers.get(at as usize) {
        Some(number) => *number,
        None => 0,
    }
}

impl View for MemoryView {
    ghost use Rattle.code_runs.specs.Seen.{sight_of};

    ghost sight = { sight_of };

    fn cell(&self, object: u64, at: u64) -> Option<u64> {
        match self.cell_at(object, at) {
            Some(Cell::Num(number)) => Some(number),
            _ => None,
        }
    }

    fn word(&self, at: u64) -> Option<u64> {
        self.words.get(at as usize).copied()
    }

    fn slot(&self, at: u32) -> Option<u64> {
        match self.slots.get(at as usize) {
            Some(held) => *held,
            None => None,
        }
    }

    fn hung(&self, object: u64, at: u64) -> Option<u64> {
        match self.cell_at(object, at) {
            Some(Cell::Holds(held)) => Some(held),
            _ => None,
        }
    }

    fn blocks(&self) -> u64 {
        self.blocks
    }

    fn bound(&self, import: u32) -> u32 {
        number_at(self.binds.as_slice(), import)
    }
}
