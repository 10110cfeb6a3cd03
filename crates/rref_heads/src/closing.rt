//! How a table is closed, and what that tells.
ghost use Rattle.std.specs.Prelude.{◌≡◌, ℕ, ◌≤◌, [], length, IfOk};
ghost use Rattle.machine_defs.specs.Heads.{Kind, how_many, HeadRule};
ghost use Rattle.rref_heads.specs.Passes.{AreEmpty, IsClosed, closed_table, sum_over, size_of};

use crate::emptied::{read_words, take_payloads};
use crate::plays::Unite;
use crate::table::{Heads, Pass, Payload};
use atomic_table::Seat;
use machine_defs::heads::{HeadWord, View};
use rl_defs::list::List;
use std::alloc::{AllocError, Global};

/// What closing a table tells of each head, in the order of their numbers: its word, and its
/// payload where one is left.
#[derive(Drop)]
pub struct Closed {
    pub words: List<HeadWord>,
    pub payloads: List<Option<Payload>>,
}

impl Heads {
    // One seat with all that these passes have.
    fn gather(&self, mut passes: Vec<Pass>) -> Seat<Option<Payload>, View>
        requires { (1 ≤ length passes.items) × AreEmpty self.now passes.items }
        ensures seat { (result.table_id ≡ self.now.table.shared.table_id) × (result.me.1 ≡ [])
            × (result.me.0.passes ≡ length passes.items) }
        ensures sums { (k : Kind) (h : ℕ) → how_many k h result.me.0 ≡ sum_over k h passes.items }
    {
        let Some(
            Pass {
                mut seat,
                number: _,
            },
        ) = passes.pop()
        else {
            unreachable!()
        };
        while let Some(pass) = passes.pop() {
            let Pass {
                seat: other,
                number: _,
            } = pass;
            self.table.shared.join_seat::<Unite>(&mut seat, other);
        }
        seat
    }

    /// The words and the payloads that are left. The passes are all of this table, and none has a
    /// title or a loan any more. What their claimed and released lists say of a head, its word
    /// shows: it is vacant exactly where no pass claimed it, and gone exactly where a pass released
    /// it. A payload is there exactly where the word is live.
    ///
    /// # Errors
    ///
    /// [`AllocError`] where memory ran out. Then the table and its passes are gone.
    pub fn close(self, alloc: Global, passes: Vec<Pass>) -> Result<Closed, AllocError>
        requires { (length passes.items ≡ self.seats) × AreEmpty self passes.items }
        ensures heads { IfOk result (λ closed. IsClosed self.heads passes.items closed.words closed.payloads) }
        ensures rule { IfOk result
            (λ closed. HeadRule (size_of self) (closed_table closed.words closed.payloads passes.items)) }
    {
        let count = self.heads as usize;
        let mut words = Vec::with_capacity(alloc, count)?;
        let mut payloads = Vec::with_capacity(alloc, count)?;
        let seat = self.gather(passes);
        let Heads {
            table,
            heads: _,
            seats: _,
        } = self;
        let mut closed = table.close_with(seat);
        read_words(&closed, &mut words, count);
        take_payloads(&mut closed, &mut payloads, count);
        closed.free();
        Ok(Closed {
            words: List::from_vec(words),
            payloads: List::from_vec(payloads),
        })
    }
}
