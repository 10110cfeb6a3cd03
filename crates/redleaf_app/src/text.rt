//! What a run prints: its history, its replies and its report.
ghost use Rattle.std.specs.Prelude.{◌≡◌, IfOk};
ghost use Rattle.machine_defs.specs.Report as report;

use crate::left::objects_left;
use crate::put::put_line;
use domain_machine::World;
use heap_report::write_report;
use history_text::{Spellings, write_log, write_replies};
use std::alloc::{AllocError, Global};

/// What the run of a world prints, as far as it went.
pub(crate) fn text_of(alloc: Global, world: &World) -> Result<Vec<u8>, AllocError>
    ensures { IfOk result (λ v. v.items ≡ report.out_text world.now.load world.now.log world.now.state) }
{
    world.is_kept();
    let log = world.log();
    let spellings = Spellings::new(alloc, world.load())?;
    let left = objects_left(alloc, world)?;
    let mut out = Vec::new(alloc);
    put_line(&mut out, b"history")?;
    write_log(&spellings, &mut out, log)?;
    put_line(&mut out, b"replies")?;
    write_replies(alloc, &spellings, &mut out, log)?;
    put_line(&mut out, b"report")?;
    write_report(
        alloc,
        &mut out,
        world.load(),
        log.as_slice(),
        &left,
        world.opened(),
    )?;
    Ok(out)
}
