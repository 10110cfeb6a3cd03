//! Rules 3 and 4 in the plan.
ghost use Rattle.std.specs.Prelude.{◌≡◌};
ghost use Rattle.rl_defs.specs.declared.LoadFault.TheVariants.{Refused};
ghost use Rattle.rl_defs.specs.Refusals.{Answers};
ghost use Rattle.rl_defs.specs.BundleOrder.{IsOrdered};
ghost use Rattle.bundle_names.specs.Tests.{rule_of};
ghost use Rattle.bundle_names.specs.PlanNames.{FailsPlanNames, names_nothing};

use crate::given::Given;
use crate::known::{Known, has_unknown, is_unknown};
use rl_defs::LoadFault;
use rl_defs::bundle::{Bundle, PlanLine};
use std::alloc::Global;

/// Checks the names in the plan: the first line that gives a load's, a shadow's or another name of
/// the plan again (rule 3), or that names a domain, a load, an import, a target or a client that
/// nothing declares (rule 4).
pub fn check_plan_names(alloc: Global, bundle: &Bundle) -> Result<(), LoadFault>
    requires ordered { IsOrdered bundle.now }
    ensures { Answers (FailsPlanNames bundle.now) (λ _. Unit {0}) result }
{
    let known = Known::new(alloc, bundle)?;
    let mut given = Given::new(alloc);
    'lines: for line in bundle.plan.lines.as_slice() {
        let again = given.take(&line.form)?;
        if let Some(rule) = rule_of(again, names_nothing(&known, &line.form)) {
            return Err(LoadFault::refused(line.line, rule));
        }
    }
    Ok(())
}

// The lower of the rules that a line breaks: it gives a name again, or it names nothing.
pub(crate) fn rule_of(again: bool, nothing: bool) -> Option<u8>
    ensures { result ≡ rule_of again nothing }
{
    if again {
        return Some(3);
    }
    if nothing {
        return Some(4);
    }
    None
}

// Whether a line of the plan names what nothing declares.
pub(crate) fn names_nothing(known: &Known, form: &PlanLine) -> bool
    ensures { result ≡ names_nothing known.now form.now }
{
    match form {
        PlanLine::Load { domain, .. } => is_unknown(&known.domains, domain),
        PlanLine::Bind {
            load,
            import,
            target,
        } => {
            is_unknown(&known.loads, load)
                || is_unknown(&known.targets, target)
                || known.lacks_import(load, import)
        }
        PlanLine::Shadow { load, .. } | PlanLine::Device { load, .. } | PlanLine::Serial(load) => {
            is_unknown(&known.loads, load)
        }
        PlanLine::Fuel(_) => false,
        PlanLine::Order(clients) => has_unknown(&known.clients, clients.as_slice()),
    }
}
