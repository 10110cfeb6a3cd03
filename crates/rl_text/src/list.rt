//! The lists of a line: parts with a comma before each of them, or between them.
ghost use Rattle.std.specs.Prelude.{ℕ, ◌≤◌, List, length, OnOk};
ghost use Rattle.rl_text.specs.Reading.{Reader, Gives};
ghost use Rattle.rl_text.specs.Many.{all_at, list_at, some_at};

use crate::cursor::{Cursor, Stop};
use rl_defs::lexeme::Mark;
use rl_defs::list::List;
use std::alloc::Global;

/// How a part that a line may list is read.
pub trait Item {
    /// What is read.
    type Part: Drop;

    ghost item_at: { Reader Self.Part };

    /// Takes one part from the front, and leaves no more tokens than there were.
    fn read(alloc: Global, left: &mut Cursor<'_>) -> Result<Self::Part, Stop>
        ensures gives { Gives (λ a. a) result left.new (item_at left.old) }
        ensures fewer { OnOk result (length left.new ≤ length left.old) };
}

/// The parts at the front, each behind a comma.
pub fn behind_commas<I: Item>(alloc: Global, left: &mut Cursor<'_>) -> Result<Vec<I::Part>, Stop>
    ensures { Gives (λ v. v.items) result left.new (all_at I.item_at left.old) }
{
    let mut all = Vec::new(alloc);
    'items: while left.skip_mark(Mark::Comma) {
        let item = I::read(alloc, left)?;
        all.push(item)?;
    }
    Ok(all)
}

/// One part or more, with commas between them.
#[tactic(auto, unfolding(crate::specs::Many::list_at))]
pub fn list<I: Item>(alloc: Global, left: &mut Cursor<'_>) -> Result<List<I::Part>, Stop>
    ensures { Gives (λ l. l) result left.new (list_at I.item_at left.old) }
{
    let first = I::read(alloc, left)?;
    let mut all = behind_commas::<I>(alloc, left)?;
    all.insert(0, first)?;
    Ok(List::from_vec(all))
}

/// Parts up to the end of the line, any number of them, with commas between them.
#[tactic(auto, unfolding(crate::specs::Many::some_at))]
pub fn list_to_end<I: Item>(alloc: Global, left: &mut Cursor<'_>) -> Result<List<I::Part>, Stop>
    ensures { Gives (λ l. l) result left.new (some_at I.item_at left.old) }
{
    if left.is_empty() {
        return Ok(List::new(alloc));
    }
    list::<I>(alloc, left)
}
