//! The rows of structs, in the order of the text.
ghost use Rattle.std.specs.Prelude.{◌≡◌, ℕ, ◌+◌, ◌++◌, ◌∷◌, [], ◌<◌, ◌≤◌, Some, length, slice_get, slice_set, IfOk, IfErr, OnOk, Err};
ghost use Rattle.rl_defs.specs.Flattening.{Flattens};
ghost use Rattle.rl_defs.specs.Interfaces.{Rises, struct_names, types_at};
ghost use Rattle.exchangeable_types.specs.Nesting.{Passing, IsNestAnswer};
ghost use Rattle.rl_defs.specs.Refusals.{Answers};
ghost use Rattle.exchangeable_types.specs.Search.{Searching};
ghost use Rattle.exchangeable_types.specs.Walk.{Walked};
ghost use Rattle.exchangeable_types.specs.Rows.{StateAt, IsHead, IsNested, IsRowAnswer, AllRows, FailsStructs, Rowing};

use crate::cells::Cells;
use crate::nesting::may_nest;
use crate::part::{Part, struct_name};
use crate::search::search;
use crate::walk::{State, count, start_of, walk};
use rl_defs::LoadFault;
use rl_defs::list::List;
use rl_defs::name::Name;
use rl_defs::tables::{Kind, StructRow};
use std::alloc::{AllocError, Global};
use std::mem;

/// The first line of a struct: its number, and the struct's name.
#[derive(Clone, Copy, Debug)]
pub struct Head {
    pub line: u32,
    pub name: Name,
}

fn head_of(part: &Part, number: u32) -> Head
    requires { number < length (struct_names part.now.lines.now) }
    ensures { IsHead part.now.lines.now number result }
{
    let first = &part.lines[start_of(part, number)];
    match struct_name(&first.form) {
        Some(name) => Head {
            line: first.line,
            name,
        },
        None => unreachable!(),
    }
}

// Whether one of the kinds is an `RRef` of a struct that holds an `RRef`.
fn is_nested(
    alloc: Global,
    part: &Part,
    seen: &mut Vec<bool>,
    kinds: &[Kind],
) -> Result<bool, AllocError>
    requires { Searching part.now.lines.now seen.old.items [] }
    ensures { IfOk result (IsNested part.now.lines.now kinds.now seen.new.items) }
{
    'kinds: for kind in kinds {
        if is_nested_kind(alloc, part, seen, *kind)? {
            return Ok(true);
        }
    }
    Ok(false)
}

/// The same of one kind. A struct that isn't there has no fields.
pub(crate) fn is_nested_kind(
    alloc: Global,
    part: &Part,
    seen: &mut Vec<bool>,
    kind: Kind,
) -> Result<bool, AllocError>
    requires { Searching part.now.lines.now seen.old.items [] }
    ensures { IfOk result (IsNested part.now.lines.now (kind ∷ []) seen.new.items) }
{
    match kind {
        Kind::Own(held) => {
            if held >= count(part) {
                return Ok(false);
            }
            // What was seen holds none.
            if seen.as_slice()[held as usize] {
                return Ok(false);
            }
            search(alloc, part, seen, held)
        }
        _ => Ok(false),
    }
}

// Whether one of the cells of a struct is an `RRef` of a struct that holds an `RRef`. Mostly the
// fields tell that none is; where they don't, each cell is looked at, with nothing seen before.
fn nests(
    alloc: Global,
    part: &Part,
    seen: &mut Vec<bool>,
    passed: &mut Vec<bool>,
    number: u32,
    kinds: &[Kind],
) -> Result<bool, AllocError>
    requires below { number < length (struct_names part.now.lines.now) }
    requires flat { Flattens part.now.lines.now (types_at part.now.lines.now number) kinds.now }
    requires searching { Searching part.now.lines.now seen.old.items [] }
    requires passing { Passing part.now.lines.now passed.old.items [] }
    ensures { IfOk result (IsNestAnswer part.now.lines.now kinds.now seen.new.items passed.new.items) }
{
    if !may_nest(alloc, part, seen, passed, number)? {
        return Ok(false);
    }
    *seen = none_seen(alloc, part)?;
    *passed = none_seen(alloc, part)?;
    is_nested(alloc, part, seen, kinds)
}

// The row of a struct, or the lowest rule that refuses it.
fn row_of(
    alloc: Global,
    part: &Part,
    seen: &mut Vec<bool>,
    passed: &mut Vec<bool>,
    number: u32,
    state: State,
) -> Result<StructRow, LoadFault>
    requires below { number < length (struct_names part.now.lines.now) }
    requires known { StateAt part.now.lines.now number state }
    requires searching { Searching part.now.lines.now seen.old.items [] }
    requires passing { Passing part.now.lines.now passed.old.items [] }
    ensures answer { IsRowAnswer part.now.lines.now number result }
    ensures searching { OnOk result (Searching part.now.lines.now seen.new.items []) }
    ensures passing { OnOk result (Passing part.now.lines.now passed.new.items []) }
{
    let head = head_of(part, number);
    match state {
        State::Endless => Err(LoadFault::refused(head.line, 11)),
        State::Ended(Cells::TooMany) => Err(LoadFault::refused(head.line, 12)),
        State::Ended(Cells::Few(flat)) => {
            match nests(alloc, part, seen, passed, number, flat.as_slice()) {
                Ok(true) => Err(LoadFault::refused(head.line, 13)),
                Ok(false) => Ok(StructRow {
                    name: head.name,
                    flat,
                }),
                Err(_) => Err(LoadFault::Memory),
            }
        }
        State::New | State::Open(_) => unreachable!(),
    }
}

// Takes the state of a struct out of the list.
fn take(states: &mut Vec<State>, number: u32) -> State
    requires { number < length states.old.items }
    ensures taken { slice_get states.old.items number ≡ Some result }
    ensures left { states.new.items ≡ slice_set states.old.items number State.New }
{
    mem::replace(&mut states[number as usize], State::New)
}

// Puts the row of the next struct last, or says which rule refuses the struct.
fn next_row(
    alloc: Global,
    part: &Part,
    states: &mut Vec<State>,
    seen: &mut Vec<bool>,
    passed: &mut Vec<bool>,
    rows: &mut List<StructRow>,
    number: u32,
) -> Result<(), LoadFault>
    requires below { number < length (struct_names part.now.lines.now) }
    requires rowing { Rowing part.now.lines.now states.old.items seen.old.items rows.old number }
    requires passing { Passing part.now.lines.now passed.old.items [] }
    ensures ok { OnOk result (Rowing part.now.lines.now states.new.items seen.new.items rows.new (number + 1)) }
    ensures passing { OnOk result (Passing part.now.lines.now passed.new.items []) }
    ensures err { IfErr result (λ e. IsRowAnswer part.now.lines.now number (Err e)) }
{
    let state = take(states, number);
    let row = row_of(alloc, part, seen, passed, number, state)?;
    rows.push(row)?;
    Ok(())
}

fn none_seen(alloc: Global, part: &Part) -> Result<Vec<bool>, AllocError>
    ensures searching { IfOk result (λ seen. Searching part.now.lines.now seen.items []) }
    ensures passing { IfOk result (λ seen. Passing part.now.lines.now seen.items []) }
{
    let mut seen = Vec::with_capacity(alloc, part.starts.len())?;
    'structs: for _ in 0..part.starts.len() {
        seen.push(false)?;
    }
    Ok(seen)
}

/// The rows of the structs of a part, or the first line and rule of the rules 11 to 13 that refuses
/// one.
pub fn struct_rows(alloc: Global, part: &Part) -> Result<List<StructRow>, LoadFault>
    requires { Rises part.now.lines.now }
    ensures { Answers (FailsStructs part.now.lines.now) (AllRows part.now.lines.now) result }
{
    let mut states = walk(alloc, part)?;
    let mut seen = none_seen(alloc, part)?;
    let mut passed = none_seen(alloc, part)?;
    let room = Vec::with_capacity(alloc, part.starts.len())?;
    let mut rows = List::from_vec(room);
    'structs: for number in 0..count(part) {
        next_row(
            alloc,
            part,
            &mut states,
            &mut seen,
            &mut passed,
            &mut rows,
            number,
        )?;
    }
    Ok(rows)
}
