//! The lines of the plan, in order.
ghost use Rattle.std.specs.Prelude.{◌≡◌, ℕ, ◌^◌, ◌<◌, length};
ghost use Rattle.rl_defs.specs.Refusals.{Answers};
ghost use Rattle.plan_checker.specs.LineScan.{LinesRise, FailsIn};
ghost use Rattle.plan_checker.specs.PlanTests.{FailsPlanLine};

use crate::rules::{Seen, rule_of};
use crate::tables::PlanTables;
use rl_defs::LoadFault;
use std::alloc::Global;

/// Checks the lines of the plan: the first line that fails, with its lowest rule.
pub fn check_lines(alloc: Global, tables: &PlanTables) -> Result<(), LoadFault>
    requires rises { LinesRise tables.now.plan.lines }
    requires few { length tables.now.plan.lines < 2 ^ 31 }
    ensures { Answers (FailsIn tables.now.plan.lines (FailsPlanLine tables.now)) (λ _. Unit {0}) result }
{
    let mut seen = Seen::new(alloc);
    let lines = tables.lines();
    'lines: for line in lines {
        if let Some(rule) = rule_of(tables, &seen, &line.form) {
            return Err(LoadFault::refused(line.line, rule));
        }
        let _ = seen.add(&line.form)?;
    }
    Ok(())
}
