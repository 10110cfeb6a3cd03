//! The cells of each struct, by a walk from each struct to those that it holds.
ghost use Rattle.std.specs.Prelude.{◌≡◌, ℕ, ◌+◌, ◌++◌, ◌∷◌, [], ◌<◌, ◌≤◌, ◌^◌, List as Items, Some, None, length, slice_get, slice_set, IfOk, OnOk};
ghost use Rattle.rl_defs.specs.declared.idl.TypeText.{TypeText as Written};
ghost use Rattle.rl_defs.specs.Interfaces.{types_at, struct_names, structs_of};
ghost use Rattle.rl_defs.specs.Flattening.{struct_held};
ghost use Rattle.exchangeable_types.specs.Capped.{CellsOf};
ghost use Rattle.rl_defs.specs.Holding.{Reaches};
ghost use Rattle.exchangeable_types.specs.declared.walk.Visit.{Visit as VisitValue};
ghost use Rattle.exchangeable_types.specs.Walk.{KnowsCells, IsVisit, Walking, Entered, StartsAt, WaitsFor, Stepped, Visited, Walked, WalkedTo, is_new};
ghost use Rattle.exchangeable_types.specs.declared.walk.State.{State as StateValue};
ghost use Rattle.exchangeable_types.specs.Steps.{IsAdded, IsStop};

use crate::cells::{Cells, MOST, put, put_struct};
use crate::part::Part;
use crate::types::{field_at, kind_held, struct_held, times};
use rl_defs::idl::TypeText;
use rl_defs::list::List;
use std::alloc::{AllocError, Global};

/// How far the walk has come with a struct.
#[derive(Debug, Drop)]
pub enum State {
    /// It wasn't visited yet.
    New,
    /// Its visit stands at this place of the stack, from 0.
    Open(usize),
    /// It reaches a struct that holds itself.
    Endless,
    /// All that it holds has ended, and these are its cells.
    Ended(Cells),
}

/// The visit of a struct: its number, the place of the line that comes next, and the cells of the
/// fields before.
#[derive(Debug, Drop)]
pub struct Visit {
    pub number: u32,
    pub at: usize,
    pub cells: Cells,
}

/// Where a visit stops.
#[derive(Debug, Drop)]
pub enum Stop {
    /// All fields are passed, and these are the cells of the struct with this number.
    Whole(u32, Cells),
    /// The next field holds this struct by value, which hasn't ended.
    Waits(Visit, u32),
}

/// What a field adds.
#[derive(Debug, Drop)]
pub enum Added {
    /// The cells with the field's behind them.
    Cells(Cells),
    /// Nothing, since this struct hasn't ended.
    Waits(Cells, u32),
}

// Puts the cells of a field behind the cells before it.
fn add(part: &Part, states: &[State], cells: Cells, ty: &TypeText) -> Result<Added, AllocError>
    requires known { KnowsCells part.now.lines.now states.now }
    requires declared { (t : ℕ) → struct_held part.now.lines.now ty.now ≡ Some t → t < length states.now }
    ensures { IfOk result (IsAdded part.now.lines.now states.now cells ty.now) }
{
    let times = times(ty.wraps.as_slice());
    let Some(held) = struct_held(part, ty) else {
        let Some(kind) = kind_held(part, ty) else {
            return Ok(Added::Cells(cells));
        };
        return Ok(Added::Cells(put(MOST, cells, &[kind], times)?));
    };
    match &states[held as usize] {
        State::Ended(inner) => Ok(Added::Cells(put_struct(cells, inner, times)?)),
        _ => Ok(Added::Waits(cells, held)),
    }
}

// Goes on with a visit, to the end of its fields or to a struct that hasn't ended.
fn advance(part: &Part, states: &[State], visit: Visit) -> Result<Stop, AllocError>
    requires count { length states.now ≡ length (struct_names part.now.lines.now) }
    requires known { KnowsCells part.now.lines.now states.now }
    requires visit { IsVisit part.now.lines.now visit }
    requires below { visit.number < length states.now }
    ensures { IfOk result (IsStop part.now.lines.now states.now visit.number) }
{
    let number = visit.number;
    let mut at = visit.at;
    let mut cells = visit.cells;
    'fields: while let Some(ty) = field_at(part.lines, at) {
        match add(part, states, cells, ty)? {
            Added::Cells(more) => cells = more,
            Added::Waits(same, held) => {
                return Ok(Stop::Waits(
                    Visit {
                        number,
                        at,
                        cells: same,
                    },
                    held,
                ));
            }
        }
        at += 1;
    }
    Ok(Stop::Whole(number, cells))
}

fn set(states: &mut Vec<State>, number: u32, state: State)
    requires { number < length states.old.items }
    ensures { states.new.items ≡ slice_set states.old.items number state }
{
    states[number as usize] = state;
}

fn push(stack: &mut Vec<Visit>, visit: Visit) -> Result<(), AllocError>
    ensures { OnOk result (stack.new.items ≡ stack.old.items ++ visit ∷ []) }
{
    stack.push(visit)?;
    Ok(())
}

// Begins the visit of a new struct. It stands on top of the stack, but isn't put there.
fn begin(alloc: Global, part: &Part, states: &mut Vec<State>, stack: &[Visit], number: u32) -> Visit
    requires walking { Walking part.now.lines.now states.old.items stack.now }
    requires new { slice_get states.old.items number ≡ Some State.New }
    requires below { (i : ℕ) (v : VisitValue) → slice_get stack.now i ≡ Some v
        → Reaches part.now.lines.now v.number number }
    ensures { Entered part.now.lines.now states.old.items states.new.items stack.now (stack.now ++ result ∷ []) number }
{
    let visit = Visit {
        number,
        at: start_of(part, number) + 1,
        cells: Cells::Few(List::new(alloc)),
    };
    set(states, number, State::Open(stack.len()));
    visit
}

/// The place of the first line of a struct.
pub fn start_of(part: &Part, number: u32) -> usize
    requires { number < length (struct_names part.now.lines.now) }
    ensures below { result < length part.now.lines.now }
    ensures start { StartsAt part.now.lines.now number result }
{
    part.starts.as_slice()[number as usize] as usize
}

fn is_new(state: &State) -> bool
    ensures { result ≡ is_new state.now }
{
    matches!(state, State::New)
}

// A visit waits for a struct: that one is entered, or it is found again and never ends.
fn wait(
    alloc: Global,
    part: &Part,
    states: &mut Vec<State>,
    stack: &mut Vec<Visit>,
    visit: Visit,
    held: u32,
) -> Result<(), AllocError>
    requires walking { Walking part.now.lines.now states.old.items (stack.old.items ++ visit ∷ []) }
    requires waits { WaitsFor part.now.lines.now states.old.items visit.number held }
    ensures { OnOk result (Stepped part.now.lines.now
        states.old.items states.new.items stack.old.items stack.new.items) }
{
    if is_new(&states[held as usize]) {
        push(stack, visit)?;
        let inner = begin(alloc, part, states, stack.as_slice(), held);
        return push(stack, inner);
    }
    set(states, visit.number, State::Endless);
    Ok(())
}

// Goes on with the visit that was on top of the stack.
fn step(
    alloc: Global,
    part: &Part,
    states: &mut Vec<State>,
    stack: &mut Vec<Visit>,
    visit: Visit,
) -> Result<(), AllocError>
    requires { Walking part.now.lines.now states.old.items (stack.old.items ++ visit ∷ []) }
    ensures { OnOk result (Stepped part.now.lines.now
        states.old.items states.new.items stack.old.items stack.new.items) }
{
    match advance(part, states.as_slice(), visit)? {
        Stop::Whole(number, cells) => {
            set(states, number, State::Ended(cells));
            Ok(())
        }
        Stop::Waits(visit, held) => wait(alloc, part, states, stack, visit, held),
    }
}

// Visits a new struct, and all that it reaches.
fn visit_from(
    alloc: Global,
    part: &Part,
    states: &mut Vec<State>,
    number: u32,
) -> Result<(), AllocError>
    requires walking { Walking part.now.lines.now states.old.items [] }
    requires new { slice_get states.old.items number ≡ Some State.New }
    ensures { OnOk result (Visited part.now.lines.now states.old.items states.new.items number) }
{
    let mut stack = Vec::new(alloc);
    let first = begin(alloc, part, states, stack.as_slice(), number);
    step(alloc, part, states, &mut stack, first)?;
    'walk: while let Some(visit) = stack.pop() {
        step(alloc, part, states, &mut stack, visit)?;
    }
    Ok(())
}

fn all_new(alloc: Global, count: usize) -> Result<Vec<State>, AllocError>
    ensures count { IfOk result (λ states. length states.items ≡ count) }
    ensures new { IfOk result (λ states. (s : ℕ) (x : StateValue) → slice_get states.items s ≡ Some x → x ≡ State.New) }
{
    let mut states = Vec::with_capacity(alloc, count)?;
    'states: for _ in 0..count {
        states.push(State::New)?;
    }
    Ok(states)
}

// Visits the struct of this number, unless it was visited.
fn visit_next(
    alloc: Global,
    part: &Part,
    states: &mut Vec<State>,
    number: u32,
) -> Result<(), AllocError>
    requires walked { WalkedTo part.now.lines.now states.old.items number }
    requires below { number < length (struct_names part.now.lines.now) }
    ensures { OnOk result (WalkedTo part.now.lines.now states.new.items (number + 1)) }
{
    if is_new(&states.as_slice()[number as usize]) {
        visit_from(alloc, part, states, number)
    } else {
        Ok(())
    }
}

/// The structs of a part, each with its cells or found to reach one that holds itself.
pub fn walk(alloc: Global, part: &Part) -> Result<Vec<State>, AllocError>
    ensures { IfOk result (λ states. Walked part.now.lines.now states.items) }
{
    let mut states = all_new(alloc, part.starts.len())?;
    'structs: for number in 0..count(part) {
        visit_next(alloc, part, &mut states, number)?;
    }
    Ok(states)
}

/// How many structs the part has.
pub fn count(part: &Part) -> u32
    ensures { result ≡ length (struct_names part.now.lines.now) }
{
    part.starts.len() as u32
}
