//! The search for structs that hold an `RRef`.
ghost use Rattle.std.specs.Prelude.{◌≡◌, ℕ, ◌+◌, ◌++◌, ◌∷◌, [], ◌<◌, ◌≤◌, Some, length, slice_get, slice_set, IfOk, OnOk};
ghost use Rattle.rl_defs.specs.Interfaces.{struct_names};
ghost use Rattle.exchangeable_types.specs.Search.{Searching, Marks, IsScan, IsSearch};

use crate::part::Part;
use crate::types::{field_at, holds_rref, struct_held};
use crate::walk::start_of;
use std::alloc::{AllocError, Global};

/// Marks a struct to be looked at, unless it was seen.
pub fn mark(seen: &mut Vec<bool>, waiting: &mut Vec<u32>, held: u32) -> Result<(), AllocError>
    requires { held < length seen.old.items }
    ensures { OnOk result (Marks seen.old.items seen.new.items waiting.old.items waiting.new.items held) }
{
    if seen.as_slice()[held as usize] {
        return Ok(());
    }
    seen[held as usize] = true;
    waiting.push(held)?;
    Ok(())
}

// Looks at the fields of a struct: whether one is an `RRef`, and which structs they hold.
fn scan(
    part: &Part,
    seen: &mut Vec<bool>,
    waiting: &mut Vec<u32>,
    number: u32,
) -> Result<bool, AllocError>
    requires { Searching part.now.lines.now seen.old.items (waiting.old.items ++ number ∷ []) }
    ensures { IfOk result (IsScan part.now.lines.now
        seen.old.items seen.new.items waiting.old.items waiting.new.items number) }
{
    let mut at = start_of(part, number) + 1;
    'fields: while let Some(ty) = field_at(part.lines, at) {
        if holds_rref(ty) {
            return Ok(true);
        }
        if let Some(held) = struct_held(part, ty) {
            mark(seen, waiting, held)?;
        }
        at += 1;
    }
    Ok(false)
}

/// Whether a struct holds an `RRef`, in a field of its own or of a struct that it reaches by fields
/// outside `RRef`. What was seen without one is marked, and no search looks at it again.
pub fn search(
    alloc: Global,
    part: &Part,
    seen: &mut Vec<bool>,
    first: u32,
) -> Result<bool, AllocError>
    requires searching { Searching part.now.lines.now seen.old.items [] }
    requires below { first < length (struct_names part.now.lines.now) }
    ensures { IfOk result (IsSearch part.now.lines.now seen.new.items first) }
{
    let mut waiting = Vec::new(alloc);
    mark(seen, &mut waiting, first)?;
    'search: while let Some(number) = waiting.pop() {
        if scan(part, seen, &mut waiting, number)? {
            return Ok(true);
        }
    }
    Ok(false)
}
