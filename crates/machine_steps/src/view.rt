//! What a frame of domain code sees of a machine.
ghost use Rattle.std.specs.Prelude.{◌≡◌, slice_get};
ghost use Rattle.std.specs.List.{slice_index_or};
ghost use Rattle.rl_defs.specs.declared.load.LoadRows.{LoadRows as Rows};
ghost use Rattle.rl_defs.specs.CodeNames.{cells_of};
ghost use Rattle.rl_defs.specs.Rows.{binds};
ghost use Rattle.machine_defs.specs.State.{State};
ghost use Rattle.machine_defs.specs.Objects.{if_number, number_cell};
ghost use Rattle.machine_defs.specs.Seen.{blocks_seen};
ghost use Rattle.rref_heap.specs.HeapValue.{heap_objects, hung_at};
ghost use Rattle.machine_steps.specs.Sights.{IsAtRest};

use instance_table::Instances;
use machine_defs::frame::View;
use rl_defs::load::{Load, LoadRows};
use rl_defs::tables::{Kind, Tables};
use rref_heap::Heap;
use std::marker::Model;

// The most cells of an object.
const MOST_CELLS: u64 = 512;

/// What a frame of an instance sees of a machine between its steps. Contracts see the parts that it
/// looks at.
#[derive(Drop)]
pub(crate) struct FrameView<'a> {
    load: &'a Load,
    instances: &'a Instances,
    heap: &'a Heap,
    instance: u32,
}

impl<'a> Model for FrameView<'a> {
    ghost use Rattle.machine_steps.specs.Sights.{Looked, IsAtRest};

    ghost Value = { Looked };

    ghost view = { λ v. record {
      load = v.load.now;
      instances = v.instances.now;
      rows = v.heap.now.rows;
      instance = v.instance;
    } };

    ghost invariant = { λ v. IsAtRest v.heap.now.rows };
}

impl<'a> FrameView<'a> {
    /// What a frame of this instance sees, where no object is listed for the sweep.
    pub(crate) fn new(
        load: &'a Load,
        instances: &'a Instances,
        heap: &'a Heap,
        instance: u32,
    ) -> FrameView<'a>
        requires { IsAtRest heap.now.rows }
        ensures { result ≡ record {
          load = load.now;
          instances = instances.now;
          rows = heap.now.rows;
          instance = instance;
        } }
    {
        FrameView {
            load,
            instances,
            heap,
            instance,
        }
    }
}

// The kind of a struct's cell. None exactly where there is none.
fn kind_of_cell(tables: &Tables, of: u32, at: u64) -> Option<Kind>
    ensures { result ≡ slice_get (cells_of tables.now of) at }
{
    tables
        .structs
        .get(of as usize)?
        .flat
        .get(at as usize)
        .copied()
}

// The cell at a place. None exactly where there is none.
fn cell_at(cells: &[u64], at: u64) -> Option<u64>
    ensures { result ≡ slice_get cells.now at }
{
    cells.get(at as usize).copied()
}

// What is in a cell of this kind, if it is for a number.
fn if_number(kind: Option<Kind>, cell: Option<u64>) -> Option<u64>
    ensures { result ≡ if_number kind cell }
{
    match kind {
        Some(Kind::Num(_)) => cell,
        _ => None,
    }
}

// The number in a cell of an object. None exactly where there is no such cell or it is for an
// `RRef`.
fn number_cell(load: &Load, heap: &Heap, object: u64, at: u64) -> Option<u64>
    ensures { (s : State) → s.objects ≡ heap_objects heap.now.rows → result ≡ number_cell load.now s object at }
{
    heap.is_kept();
    let Some(row) = heap.row(object) else {
        return None;
    };
    let kind = kind_of_cell(load.rows().tables.get(), row.ty, at);
    if_number(kind, cell_at(heap.cells(object), at))
}

// The object that hangs in a cell of an object. None exactly where none does.
fn hung_in(heap: &Heap, object: u64, at: u64) -> Option<u64>
    requires { IsAtRest heap.now.rows }
    ensures { result ≡ hung_at heap.now.rows object at }
{
    heap.is_kept();
    if at >= MOST_CELLS {
        return None;
    }
    if !heap.is_live(object) {
        return None;
    }
    heap.hung(object, at as u32)
}

// How many blocks of the device a load sees.
fn blocks_seen(rows: &LoadRows, k: u32) -> u64
    ensures { result ≡ blocks_seen rows.now k }
{
    if k == rows.device_load {
        u64::from(rows.blocks)
    } else {
        0
    }
}

// The targets that are bound to a load's imports.
fn binds_of(rows: &LoadRows, k: u32) -> &[u32]
    ensures { result.now ≡ binds rows.now k }
{
    match rows.load_row(k) {
        Some(row) => row.binds.as_slice(),
        None => &[],
    }
}

// The target that is bound to an import of a load, 0 where there is no such import.
fn bound_to(rows: &LoadRows, k: u32, import: u32) -> u32
    ensures { result ≡ slice_index_or (binds rows.now k) import 0 }
{
    match binds_of(rows, k).get(import as usize) {
        Some(target) => *target,
        None => 0,
    }
}

impl<'a> View for FrameView<'a> {
    ghost use Rattle.machine_steps.specs.Sights.{sight_of};

    ghost sight = { sight_of };

    fn cell(&self, object: u64, at: u64) -> Option<u64> {
        number_cell(self.load, self.heap, object, at)
    }

    fn word(&self, at: u64) -> Option<u64> {
        self.instances.word(self.instance, at)
    }

    fn slot(&self, at: u32) -> Option<u64> {
        self.instances.slot(self.instance, at)
    }

    fn hung(&self, object: u64, at: u64) -> Option<u64> {
        hung_in(self.heap, object, at)
    }

    fn blocks(&self) -> u64 {
        blocks_seen(self.load.rows(), self.instances.load_of(self.instance))
    }

    fn bound(&self, import: u32) -> u32 {
        bound_to(
            self.load.rows(),
            self.instances.load_of(self.instance),
            import,
        )
    }
}
