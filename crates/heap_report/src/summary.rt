//! The summary of a run.
ghost use Rattle.std.specs.Prelude.{◌≡◌, ◌+◌, ◌≤◌, ◌<◌, ◌^◌, ◌-◌, [], ◌∷◌, ℕ, length, IfOk};
ghost use Rattle.heap_report.specs.Left.{IsSummary};
ghost use Rattle.heap_report.specs.Summed.{counts_of, plus, AreCountsFew};

use crate::entries::dropped;
use crate::put::put_line;
use machine_defs::entry::Entry;
use std::alloc::{AllocError, Global};

/// How many calls entered, calls failed, objects were made and objects were freed.
#[derive(Clone, Copy, Debug)]
struct Counts {
    calls: u64,
    errors: u64,
    made: u64,
    freed: u64,
}

// Counts an entry.
fn count_entry(counts: Counts, entry: &Entry) -> Counts
    requires { AreCountsFew counts (2 ^ 60 - 1) }
    ensures counts { result ≡ plus counts (counts_of (entry.now ∷ [])) }
    ensures room { (n : ℕ) → AreCountsFew counts n → AreCountsFew result (n + 1) }
{
    match entry {
        Entry::Call { .. } => Counts {
            calls: counts.calls + 1,
            ..counts
        },
        Entry::Unwound { .. } => Counts {
            errors: counts.errors + 1,
            ..counts
        },
        Entry::New { .. } => Counts {
            made: counts.made + 1,
            ..counts
        },
        Entry::Refuse { .. } => Counts {
            errors: counts.errors + 1,
            freed: counts.freed + dropped(entry).len() as u64,
            ..counts
        },
        Entry::Drop { .. } | Entry::Free(_) => Counts {
            freed: counts.freed + 1,
            ..counts
        },
        _ => counts,
    }
}

/// The summary of a run with this log, at whose end so many objects are left. Only want of memory
/// fails.
pub fn write_summary(alloc: Global, log: &[Entry], left: u32) -> Result<Vec<u8>, AllocError>
    requires { length log.now < 2 ^ 60 }
    ensures { IfOk result (λ v. IsSummary log.now left v.items) }
{
    let mut counts = Counts {
        calls: 0,
        errors: 0,
        made: 0,
        freed: 0,
    };
    'each: for entry in log {
        counts = count_entry(counts, entry);
    }
    let mut out = Vec::new(alloc);
    put_line(&mut out, b"entries", log.len() as u64)?;
    put_line(&mut out, b"calls", counts.calls)?;
    put_line(&mut out, b"errors", counts.errors)?;
    put_line(&mut out, b"made", counts.made)?;
    put_line(&mut out, b"freed", counts.freed)?;
    put_line(&mut out, b"left", u64::from(left))?;
    Ok(out)
}
