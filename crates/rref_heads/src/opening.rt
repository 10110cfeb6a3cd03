//! How a table is made.
ghost use Rattle.std.specs.Prelude.{◌≡◌, ◌≤◌, [], length, IfOk};
ghost use Rattle.machine_defs.specs.Heads.{empty};
ghost use Rattle.rref_heads.specs.Passes.{AreFresh};

use crate::plays::SplitOff;
use crate::table::{Heads, Pass, Payload};
use atomic_table::{Seat, Table};
use machine_defs::heads::{Size, View};
use std::alloc::{AllocError, Global};

impl Heads {
    /// A table of vacant heads, and its passes in order of their numbers, of which none knows
    /// anything yet.
    ///
    /// # Errors
    ///
    /// [`AllocError`] where memory ran out.
    pub fn new(alloc: Global, heads: u32, seats: u32) -> Result<(Heads, Vec<Pass>), AllocError>
        requires { (1 ≤ heads) × (heads ≤ 4096) × (1 ≤ seats) × (seats ≤ 64) }
        ensures size { IfOk result (λ made. (made.0.heads ≡ heads) × (made.0.seats ≡ seats)) }
        ensures passes { IfOk result (λ made. (length made.1.items ≡ seats) × AreFresh made.0 0 made.1.items) }
    {
        let words = Vec::from_elem(alloc, 0u64, heads as usize + 1)?;
        let size = Size { heads, seats };
        let (table, seat) = Table::vacant(alloc, words.as_slice(), heads as usize, &size)?;
        let table = Heads {
            table,
            heads,
            seats,
        };
        let passes = table.deal(alloc, seat)?;
        Ok((table, passes))
    }

    // Cuts the first seat into passes.
    fn deal(
        &self,
        alloc: Global,
        mut seat: Seat<Option<Payload>, View>,
    ) -> Result<Vec<Pass>, AllocError>
        requires { (seat.table_id ≡ self.now.table.shared.table_id) × (seat.me ≡ (empty self.now.seats, [])) }
        ensures { IfOk result (λ passes. (length passes.items ≡ self.now.seats) × AreFresh self.now 0 passes.items) }
    {
        let last = self.seats - 1;
        let mut passes = Vec::with_capacity(alloc, self.seats as usize)?;
        for number in 0..last {
            let other = self.table.shared.split_seat::<SplitOff>(&mut seat);
            passes.push(Pass {
                number,
                seat: other,
            })?;
        }
        passes.push(Pass { number: last, seat })?;
        Ok(passes)
    }
}
