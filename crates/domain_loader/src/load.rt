//! A bundle as a load.
ghost use Rattle.std.specs.Prelude.{◌≤◌, length, IfOk};
ghost use Rattle.rl_defs.specs.Refusals.{Answers};
ghost use Rattle.rl_defs.specs.Lines.{lines_of};
ghost use Rattle.rl_defs.specs.BundleParts.{FailsForms, IsBundle};
ghost use Rattle.rl_defs.specs.BundleOrder.{IsOrdered};
ghost use Rattle.rl_defs.specs.Acceptance.{Fails, Accepted};

use crate::bundle::load_bundle;
use bundle_parts::read_bundle;
use rl_defs::LoadFault;
use rl_defs::bundle::Bundle;
use rl_defs::load::{Load, LoadRows};
use rl_text::line::{LONGEST_TEXT, lines};
use std::alloc::Global;

// The lines of a bundle's parts, by its bytes.
fn read(alloc: Global, bytes: &[u8]) -> Result<Bundle, LoadFault>
    requires { length bytes.now ≤ LONGEST_TEXT }
    ensures reads { Answers (FailsForms (lines_of bytes.now)) (IsBundle (lines_of bytes.now)) result }
    ensures ordered { IfOk result (λ b. IsOrdered b) }
{
    let Ok(lines) = lines(alloc, bytes) else {
        return Err(LoadFault::Memory);
    };
    read_bundle(alloc, bytes, &lines)
}

// The rows of the load that a bundle stands for.
fn load_rows(alloc: Global, bytes: &[u8]) -> Result<LoadRows, LoadFault>
    requires { length bytes.now ≤ LONGEST_TEXT }
    ensures { Answers (Fails bytes.now) (Accepted bytes.now) result }
{
    match read(alloc, bytes) {
        Ok(bundle) => load_bundle(alloc, bundle),
        Err(fault) => Err(fault),
    }
}

/// The load that a bundle stands for, by its bytes. It is refused where a rule fails: of the rules'
/// phases the first that has a failing line is looked at, of its failing lines the first, and of
/// the rules that fail there the lowest. The phases are the rules 1 and 2; 3 and 4; 10 to 13; 20 to
/// 23; 30 to 37; 40 to 46; 50 and 51.
pub fn load(alloc: Global, bytes: &[u8]) -> Result<Load, LoadFault>
    requires { length bytes.now ≤ LONGEST_TEXT }
    ensures { Answers (Fails bytes.now) (Accepted bytes.now) result }
{
    match load_rows(alloc, bytes) {
        Ok(rows) => Ok(Load::new(rows)),
        Err(fault) => Err(fault),
    }
}
