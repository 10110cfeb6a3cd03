//! The domains of a bundle, checked.
ghost use Rattle.std.specs.Prelude.{◌≡◌, ◌++◌, ◌∷◌, [], map};
ghost use Rattle.rl_defs.specs.declared.code.DomainText.{DomainText as Text};
ghost use Rattle.rl_defs.specs.Refusals.{Answers};
ghost use Rattle.rl_defs.specs.TableSizes.{AreTablesSmall};
ghost use Rattle.rl_defs.specs.LoadOf.{checked_with};
ghost use Rattle.domain_loader.specs.Phases.{FailsDomains, InOrder};

use domain_checker::Checker;
use rl_defs::LoadFault;
use rl_defs::checked::CheckedDomain;
use rl_defs::code::DomainText;
use rl_defs::list::List;
use rl_defs::tables::SharedTables;
use std::alloc::Global;

/// The domains of these texts, or the first line that the rules 30 to 37 refuse, with the lowest of
/// these rules there.
pub fn check_domains(
    alloc: Global,
    tables: &SharedTables,
    domains: List<DomainText>,
) -> Result<List<CheckedDomain>, LoadFault>
    requires small { AreTablesSmall tables.now }
    requires order { InOrder domains }
    ensures { Answers (FailsDomains tables.now domains)
        (λ checked. checked ≡ map (checked_with tables.now) domains) result }
{
    let Ok(shared) = tables.share() else {
        return Err(LoadFault::Memory);
    };
    let Ok(checker) = Checker::new(alloc, shared) else {
        return Err(LoadFault::Memory);
    };
    let mut all = List::new(alloc);
    'texts: for text in domains.into_vec() {
        let checked = match checker.check(alloc, text) {
            Ok(checked) => checked,
            Err(fault) => return Err(fault),
        };
        match all.push(checked) {
            Ok(()) => {}
            Err(_) => return Err(LoadFault::Memory),
        }
    }
    Ok(all)
}
