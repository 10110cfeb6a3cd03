//! The search for an `RRef` of a struct that holds an `RRef`, by the fields of structs. So the
//! cells of a struct are gone over only where there may be one.
ghost use Rattle.std.specs.Prelude.{◌≡◌, ℕ, ◌+◌, ◌++◌, ◌∷◌, [], ◌<◌, ◌≤◌, Some, length, slice_get, IfOk, OnOk};
ghost use Rattle.rl_defs.specs.Interfaces.{struct_names};
ghost use Rattle.exchangeable_types.specs.Search.{Searching};
ghost use Rattle.exchangeable_types.specs.Nesting.{IsNesting, Passing, IsPass, MayNest};

use crate::part::Part;
use crate::rows::is_nested_kind;
use crate::search::mark;
use crate::types::{field_at, kind_held, struct_held};
use crate::walk::start_of;
use rl_defs::idl::TypeText;
use std::alloc::{AllocError, Global};

// Whether a type is an `RRef` of a struct that holds an `RRef`.
fn is_nesting(
    alloc: Global,
    part: &Part,
    seen: &mut Vec<bool>,
    ty: &TypeText,
) -> Result<bool, AllocError>
    requires { Searching part.now.lines.now seen.old.items [] }
    ensures { IfOk result (IsNesting part.now.lines.now ty.now seen.new.items) }
{
    match kind_held(part, ty) {
        Some(kind) => is_nested_kind(alloc, part, seen, kind),
        None => Ok(false),
    }
}

// Looks at the fields of a struct: whether one is an `RRef` of a struct that holds an `RRef`, and
// which structs they hold.
fn scan(
    alloc: Global,
    part: &Part,
    seen: &mut Vec<bool>,
    passed: &mut Vec<bool>,
    waiting: &mut Vec<u32>,
    number: u32,
) -> Result<bool, AllocError>
    requires searching { Searching part.now.lines.now seen.old.items [] }
    requires passing { Passing part.now.lines.now passed.old.items (waiting.old.items ++ number ∷ []) }
    ensures { IfOk result (IsPass part.now.lines.now seen.new.items
        passed.old.items passed.new.items waiting.old.items waiting.new.items) }
{
    let mut at = start_of(part, number) + 1;
    'fields: while let Some(ty) = field_at(part.lines, at) {
        if is_nesting(alloc, part, seen, ty)? {
            return Ok(true);
        }
        if let Some(held) = struct_held(part, ty) {
            mark(passed, waiting, held)?;
        }
        at += 1;
    }
    Ok(false)
}

/// Whether a struct, or one that it reaches by fields outside `RRef`, has a field that is an `RRef`
/// of a struct that holds an `RRef`. What was passed has none, and is not looked at again.
pub fn may_nest(
    alloc: Global,
    part: &Part,
    seen: &mut Vec<bool>,
    passed: &mut Vec<bool>,
    first: u32,
) -> Result<bool, AllocError>
    requires searching { Searching part.now.lines.now seen.old.items [] }
    requires passing { Passing part.now.lines.now passed.old.items [] }
    requires below { first < length (struct_names part.now.lines.now) }
    ensures { IfOk result (MayNest part.now.lines.now seen.new.items passed.new.items first) }
{
    if passed.as_slice()[first as usize] {
        return Ok(false);
    }
    passed[first as usize] = true;
    let mut waiting = Vec::new(alloc);
    if scan(alloc, part, seen, passed, &mut waiting, first)? {
        return Ok(true);
    }
    'search: while let Some(number) = waiting.pop() {
        if scan(alloc, part, seen, passed, &mut waiting, number)? {
            return Ok(true);
        }
    }
    Ok(false)
}
