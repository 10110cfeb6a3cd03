//! A bundle whose lines were read, as a load.
ghost use Rattle.std.specs.Prelude.{◌≡◌, map};
ghost use Rattle.rl_defs.specs.declared.idl.Idl.{Idl};
ghost use Rattle.rl_defs.specs.Refusals.{Answers};
ghost use Rattle.rl_defs.specs.TableSizes.{AreTablesSmall};
ghost use Rattle.rl_defs.specs.MethodRules.{TableRows};
ghost use Rattle.rl_defs.specs.PlanRules.{FailsPlanRules};
ghost use Rattle.rl_defs.specs.ScriptRules.{FailsScripts};
ghost use Rattle.rl_defs.specs.BundleOrder.{IsOrdered, bundle_of};
ghost use Rattle.rl_defs.specs.Acceptance.{Next, FailsBehindForms};
ghost use Rattle.rl_defs.specs.EarlierRules.{HasNames};
ghost use Rattle.domain_loader.specs.Phases.{IsReady, IsLoadOf, load_with};

use crate::domains::check_domains;
use crate::tables::tables_of;
use bundle_names::check_names;
use plan_checker::check::check_plan;
use rl_defs::LoadFault;
use rl_defs::bundle::{Bundle, Clients, Plan};
use rl_defs::checked::CheckedDomain;
use rl_defs::list::List;
use rl_defs::load::LoadRows;
use rl_defs::tables::SharedTables;
use script_checker::checker::check_scripts;
use std::alloc::Global;

// The load of checked domains with their plan and clients.
fn load_checked(
    alloc: Global,
    tables: SharedTables,
    domains: List<CheckedDomain>,
    plan: Plan,
    clients: Clients,
) -> Result<LoadRows, LoadFault>
    requires { (idl : Idl) × IsReady tables (bundle_of idl domains plan clients) }
    ensures { (idl : Idl) → let b = bundle_of idl domains plan clients in
        Answers (Next (FailsPlanRules b) (FailsScripts tables b)) (λ load. load ≡ load_with tables domains b) result }
{
    let rows = match check_plan(alloc, &domains, &plan, &clients) {
        Ok(rows) => rows,
        Err(fault) => return Err(fault),
    };
    let clients = match check_scripts(alloc, tables.get(), &domains, &plan, &clients) {
        Ok(clients) => clients,
        Err(fault) => return Err(fault),
    };
    Ok(LoadRows {
        tables,
        domains,
        loads: rows.loads,
        shadows: rows.shadows,
        clients,
        order: rows.order,
        fuel: rows.fuel,
        device_load: rows.device_load,
        blocks: rows.blocks,
    })
}

/// The load that a bundle stands for, by its lines.
pub fn load_bundle(alloc: Global, bundle: Bundle) -> Result<LoadRows, LoadFault>
    requires { IsOrdered bundle }
    ensures { Answers (FailsBehindForms bundle) (IsLoadOf bundle) result }
{
    match check_names(alloc, &bundle) {
        Ok(()) => {}
        Err(fault) => return Err(fault),
    }
    let tables = match tables_of(alloc, &bundle.idl) {
        Ok(tables) => tables,
        Err(fault) => return Err(fault),
    };
    let Bundle {
        idl: _,
        domains,
        plan,
        clients,
    } = bundle;
    match check_domains(alloc, &tables, domains) {
        Ok(domains) => load_checked(alloc, tables, domains, plan, clients),
        Err(fault) => Err(fault),
    }
}
