//! The check of all scripts.
ghost use Rattle.std.specs.Prelude.{◌≡◌};
ghost use Rattle.rl_defs.specs.declared.idl.Idl.{Idl};
ghost use Rattle.rl_defs.specs.Refusals.{Answers};
ghost use Rattle.rl_defs.specs.BundleOrder.{bundle_of};
ghost use Rattle.rl_defs.specs.EarlierRules.{HasPlan};
ghost use Rattle.rl_defs.specs.ScriptRules.{FailsScripts};
ghost use Rattle.rl_defs.specs.LoadOf.{clients_of};

use crate::clients::rows_of;
use crate::scope::Scope;
use rl_defs::LoadFault;
use rl_defs::bundle::{Clients, Plan};
use rl_defs::checked::CheckedDomain;
use rl_defs::list::List;
use rl_defs::load::ClientRow;
use rl_defs::tables::Tables;
use std::alloc::Global;

/// The rows of the clients, or the first line of their scripts that rule 50 or 51 refuses, with the
/// lower one that it breaks there. Of the bundle, the interfaces stand in the tables, the domains
/// keep their rules, and the plan breaks none.
pub fn check_scripts(
    alloc: Global,
    tables: &Tables,
    domains: &List<CheckedDomain>,
    plan: &Plan,
    clients: &Clients,
) -> Result<List<ClientRow>, LoadFault>
    requires { (idl : Idl) × HasPlan tables.now (bundle_of idl domains.now plan.now clients.now) }
    ensures { (idl : Idl)
        → Answers (FailsScripts tables.now (bundle_of idl domains.now plan.now clients.now))
        (λ rows. rows ≡ clients_of tables.now (bundle_of idl domains.now plan.now clients.now)) result }
{
    let scope = Scope::new(alloc, tables, domains, plan, clients)?;
    rows_of(alloc, &scope)
}
