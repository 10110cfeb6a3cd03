//! Rules 3 and 4 in a whole bundle.
ghost use Rattle.rl_defs.specs.Refusals.{Answers};
ghost use Rattle.rl_defs.specs.BundleOrder.{IsOrdered};
ghost use Rattle.rl_defs.specs.NameRules.{FailsBundleNames};

use crate::clients::check_client_names;
use crate::domains::check_domains;
use crate::interfaces::check_interfaces;
use crate::plan::check_plan_names;
use rl_defs::LoadFault;
use rl_defs::bundle::Bundle;
use std::alloc::Global;

/// Checks the names of a bundle, part by part in the order of the text: the first line that gives a
/// name again (rule 3), or that names what nothing declares (rule 4). Of both at one line it is
/// rule 3.
pub fn check_names(alloc: Global, bundle: &Bundle) -> Result<(), LoadFault>
    requires ordered { IsOrdered bundle.now }
    ensures { Answers (FailsBundleNames bundle.now) (λ _. Unit {0}) result }
{
    check_interfaces(alloc, &bundle.idl)?;
    check_domains(alloc, bundle)?;
    check_plan_names(alloc, bundle)?;
    check_client_names(alloc, bundle)
}
