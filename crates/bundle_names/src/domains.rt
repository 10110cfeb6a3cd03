//! The names of the domains.
ghost use Rattle.std.specs.Prelude.{◌≡◌, ℕ, ◌+◌, ◌-◌, ◌^◌, ◌<◌, ◌≤◌, All, length, OnOk};
ghost use Rattle.rl_defs.specs.Refusals.{Answers};
ghost use Rattle.rl_defs.specs.DomainParts.{IsOneDomain, LinesRise};
ghost use Rattle.rl_defs.specs.BundleOrder.{IsOrdered, IsDomainText};
ghost use Rattle.bundle_names.specs.Scopes.{names_in, behind_all, Somewhere};
ghost use Rattle.bundle_names.specs.DomainNames.{domain_role, all_lines, NumbersRise, FailsIn, FailsAtDomain, FailsDomainNames};

use crate::domain_lines::DomainScopes;
use crate::interface_names::InterfaceNames;
use rl_defs::LoadFault;
use rl_defs::bundle::Bundle;
use rl_defs::code::DomainText;
use std::alloc::Global;

/// Checks the names of the domains: the first line that gives a name which was given before (rule
/// 3), or uses a struct, a trait or a method that nothing declares (rule 4).
pub fn check_domains(alloc: Global, bundle: &Bundle) -> Result<(), LoadFault>
    requires { IsOrdered bundle.now }
    ensures { Answers (FailsDomainNames bundle.now) (λ _. Unit {0}) result }
{
    let known = InterfaceNames::new(alloc, bundle.idl.lines.as_slice())?;
    first_fault(alloc, &known, bundle.domains.as_slice())
}

fn first_fault(
    alloc: Global,
    known: &InterfaceNames,
    domains: &[DomainText],
) -> Result<(), LoadFault>
    requires few { length (all_lines domains.now) ≤ 1048576 }
    requires rises { NumbersRise domains.now }
    requires each { All IsDomainText domains.now }
    ensures { Answers (Somewhere (FailsAtDomain known.now domains.now)) (λ _. Unit {0}) result }
{
    let mut declared = DomainScopes::new(alloc, domains.len());
    'domains: for domain in domains {
        check_domain(known, &mut declared, domain)?;
    }
    Ok(())
}

fn check_domain(
    known: &InterfaceNames,
    declared: &mut DomainScopes,
    domain: &DomainText,
) -> Result<(), LoadFault>
    requires few { names_in declared.old.domains + length domain.now.lines < 2 ^ 32 - 1 }
    requires rises { LinesRise domain.now.lines }
    requires one { IsOneDomain domain.now.lines }
    ensures domains { OnOk result (declared.new.domains
        ≡ behind_all domain_role declared.old.domains domain.now.lines) }
    ensures answer { Answers (FailsIn known.now declared.old.domains domain.now.lines) (λ _. Unit {0}) result }
{
    declared.begin();
    let lines = domain.lines.as_slice();
    let methods = known.methods_of_domain(lines);
    'lines: for line in lines {
        let rule = declared.rule_of(known, methods, &line.form)?;
        if let Some(rule) = rule {
            return Err(LoadFault::refused(line.line, rule));
        }
    }
    Ok(())
}
