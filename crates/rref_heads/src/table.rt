//! The table of heads, and what a caller steps with.
ghost use Rattle.std.specs.Prelude.{◌≡◌, ◌+◌, ◌<◌, ◌≤◌, []};

use crate::plays::Rule;
use atomic_table::{Seat, Table};
use machine_defs::heads::{HeadWord, Size, View};
use rl_defs::list::List;
use std::alloc::Global;

/// What a head carries.
pub type Payload = List<u64>;

/// The word that a compare and exchange found in place of the one that it expected.
#[derive(Debug, Drop)]
pub struct Changed {
    pub word: HeadWord,
}

/// A table of heads, numbered from 1, each with a place for a payload. Threads share it by
/// reference, and each steps with a pass of its own. Its type keeps that `HeadRule` holds between
/// any two steps.
#[derive(Drop)]
pub struct Heads {
    pub(crate) table: Table<Option<Payload>, View, Size, Rule, Global>,
    pub(crate) heads: u32,
    pub(crate) seats: u32,
    ghost sized: { (table.shared.table_id.words ≡ heads + 1) × (table.shared.table_id.slots ≡ heads) },
    ghost keyed: { (table.shared.key.heads ≡ heads) × (table.shared.key.seats ≡ seats) },
    ghost few: { (1 ≤ seats) × (seats ≤ 64) },
}

/// One caller's seat at a table. Between calls it has no claim and no right of release, and holds
/// no payload.
#[derive(Drop)]
pub struct Pass {
    pub(crate) number: u32,
    pub(crate) seat: Seat<Option<Payload>, View>,
    ghost rests: { (seat.me.1 ≡ []) × (seat.me.0.passes ≡ 1) × (seat.me.0.claims ≡ []) × (seat.me.0.rights ≡ []) },
    ghost low: { number < 64 },
}

impl Pass {
    /// The number of the pass, from 0.
    pub fn number(&self) -> u32
        ensures { result ≡ self.now.number }
    {
        self.number
    }
}
