//! A place of the heap.

use borrow_counts::BorrowWord;
use machine_defs::values::Owner;

/// The cell that an object hangs in.
#[derive(Clone, Copy, Debug, PartialEq, Eq)]
pub struct Hanging {
    pub parent: u64,
    pub place: u32,
}

/// An object, with the numbers of its neighbors among its owner's roots, 0 for none.
///
/// `owner` tells of a root alone. `below` is empty where nothing may hang here, and otherwise has a
/// number for each cell: of the object that hangs in it, 0 for none.
#[derive(Drop)]
pub struct Place {
    pub number: u64,
    pub ty: u32,
    pub owner: Owner,
    pub hangs: Option<Hanging>,
    pub word: BorrowWord,
    pub leaves: bool,
    pub cells: Vec<u64>,
    pub below: Vec<u64>,
    pub next: u64,
    pub prev: u64,
}
