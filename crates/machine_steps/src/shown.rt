//! What `show` lists of an object.
ghost use Rattle.std.specs.Prelude.{◌≡◌, ◌<◌, ◌≤◌, ◌^◌, length, true, false, IfOk};
ghost use Rattle.machine_defs.specs.Objects.{cell_value, is_zero, listed_from, shown};
ghost use Rattle.rref_heap.specs.HeapValue.{cells_at, hung_at, is_there, leaves_at};
ghost use Rattle.machine_steps.specs.CellsShown.{heap_state, values_from};

use rl_defs::list::List;
use rl_defs::values::Value;
use rref_heap::Heap;
use std::alloc::{AllocError, Global};

// What a cell shows: the object that hangs in it, or else its number.
fn cell_value(heap: &Heap, o: u64, at: u32, number: u64) -> Value
    requires there { is_there heap.now.rows o ≡ true }
    requires stays { leaves_at heap.now.rows o ≡ false }
    ensures { result ≡ cell_value (hung_at heap.now.rows o at) number }
{
    match heap.hung(o, at) {
        Some(v) => Value::Obj(v),
        None => Value::Num(number),
    }
}

// Whether a value is the number 0.
fn is_zero(value: Value) -> bool
    ensures { result ≡ is_zero value }
{
    matches!(value, Value::Num(0))
}

// How many of the cells of an object are listed: those up to the last that doesn't show 0.
fn count_shown(heap: &Heap, o: u64, cells: &[u64]) -> usize
    requires there { is_there heap.now.rows o ≡ true }
    requires stays { leaves_at heap.now.rows o ≡ false }
    requires few { length cells.now < 2 ^ 32 }
    ensures { result ≡ length (listed_from (heap_state heap.now.rows) o 0 cells.now) }
{
    let mut count = 0;
    'cells: for (at, number) in cells.iter().enumerate() {
        if !is_zero(cell_value(heap, o, at as u32, *number)) {
            count = at + 1;
        }
    }
    count
}

// What cells of an object show, the first ones.
fn values_of(alloc: Global, heap: &Heap, o: u64, cells: &[u64]) -> Result<List<Value>, AllocError>
    requires there { is_there heap.now.rows o ≡ true }
    requires stays { leaves_at heap.now.rows o ≡ false }
    requires few { length cells.now < 2 ^ 32 }
    ensures { IfOk result (λ values. values ≡ values_from (heap_state heap.now.rows) o 0 cells.now) }
{
    let mut values = List::new(alloc);
    'cells: for (at, number) in cells.iter().enumerate() {
        values.push(cell_value(heap, o, at as u32, *number))?;
    }
    Ok(values)
}

/// What `show` lists of an object. Each cell is looked at twice at most.
pub(crate) fn shown(alloc: Global, heap: &Heap, o: u64) -> Result<List<Value>, AllocError>
    requires there { is_there heap.now.rows o ≡ true }
    requires stays { leaves_at heap.now.rows o ≡ false }
    requires few { length (cells_at heap.now.rows o) < 2 ^ 32 }
    ensures { IfOk result (λ values. values ≡ shown (heap_state heap.now.rows) o) }
{
    heap.is_kept();
    let cells = heap.cells(o);
    let count = count_shown(heap, o, cells);
    values_of(alloc, heap, o, &cells[..count])
}
