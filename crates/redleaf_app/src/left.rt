//! The objects that are left at the end of a run.
ghost use Rattle.std.specs.Prelude.{◌≡◌, length, IfOk};
ghost use Rattle.heap_report.specs.Left.{AreLeft};

use domain_machine::World;
use heap_report::ObjectRow;
use std::alloc::{AllocError, Global};

/// The objects that are left on the heap of a world, by rising number.
pub(crate) fn objects_left(alloc: Global, world: &World) -> Result<Vec<ObjectRow>, AllocError>
    ensures { IfOk result (λ left. AreLeft left.items (length world.now.state.instances) world.now.state) }
{
    let heap = world.heap();
    heap.is_kept();
    let mut left = Vec::new(alloc);
    'objects: for place in 0..heap.made() {
        if let Some(row) = heap.row(place as u64 + 1) {
            left.push(ObjectRow {
                number: row.number,
                ty: row.ty,
                loans: u64::from(row.loans),
            })?;
        }
    }
    Ok(left)
}
