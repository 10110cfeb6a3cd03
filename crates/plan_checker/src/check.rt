//! The check of a plan.
ghost use Rattle.rl_defs.specs.declared.idl.Idl.{Idl as Part};
ghost use Rattle.rl_defs.specs.Refusals.{Answers};
ghost use Rattle.rl_defs.specs.BundleOrder.{bundle_of};
ghost use Rattle.rl_defs.specs.PlanRules.{FailsPlanRules};
ghost use Rattle.rl_defs.specs.EarlierRules.{HasNames};
ghost use Rattle.plan_checker.specs.Parts.{PartsRise, FailsParts};
ghost use Rattle.plan_checker.specs.Rows.{AreRowsOf, AnswersParts};

use crate::limits::{check_clients, check_domains};
use crate::rows::{PlanRows, rows_of};
use crate::scan::check_lines;
use crate::tables::PlanTables;
use rl_defs::LoadFault;
use rl_defs::bundle::{ClientLine, Clients, Numbered, Plan, PlanLine};
use rl_defs::checked::CheckedDomain;
use rl_defs::list::List;
use std::alloc::Global;

// The parts in the order of the text: the domains, the plan, the clients.
fn check_parts(
    alloc: Global,
    domains: &[CheckedDomain],
    tables: &PlanTables,
    clients: &[Numbered<ClientLine>],
) -> Result<(), LoadFault>
    requires { PartsRise domains.now tables.now.plan.lines clients.now }
    ensures { Answers (FailsParts domains.now tables.now clients.now) (λ _. Unit {0}) result }
{
    check_domains(domains)?;
    check_lines(alloc, tables)?;
    check_clients(clients)
}

// The rows of a plan, by the lines of the parts, or the first of these lines that is refused.
fn rows_by_parts(
    alloc: Global,
    domains: &[CheckedDomain],
    lines: &[Numbered<PlanLine>],
    clients: &[Numbered<ClientLine>],
) -> Result<PlanRows, LoadFault>
    requires { PartsRise domains.now lines.now clients.now }
    ensures { AnswersParts domains.now lines.now clients.now result }
{
    let tables = PlanTables::new(alloc, domains, lines)?;
    check_parts(alloc, domains, &tables, clients)?;
    Ok(rows_of(alloc, &tables, clients)?)
}

/// The rows that a plan stands for, or the first line of the bundle that one of the rules 40 to 46
/// refuses, with the lowest of these rules there. The bundle's names are known to be given once and
/// declared; its interfaces are not looked at.
pub fn check_plan(
    alloc: Global,
    domains: &List<CheckedDomain>,
    plan: &Plan,
    clients: &Clients,
) -> Result<PlanRows, LoadFault>
    requires { (idl : Part) × HasNames (bundle_of idl domains.now plan.now clients.now) }
    ensures { (idl : Part)
        → Answers (FailsPlanRules (bundle_of idl domains.now plan.now clients.now))
        (AreRowsOf (bundle_of idl domains.now plan.now clients.now)) result }
{
    let all = domains.as_slice();
    let lines = plan.lines.as_slice();
    let scripts = clients.lines.as_slice();
    rows_by_parts(alloc, all, lines, scripts)
}
