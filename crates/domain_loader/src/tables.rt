//! The tables of a bundle's interfaces.
ghost use Rattle.std.specs.Prelude.{◌<◌, ◌^◌, length};
ghost use Rattle.rl_defs.specs.Refusals.{Answers};
ghost use Rattle.rl_defs.specs.Interfaces.{Rises};
ghost use Rattle.rl_defs.specs.TypeRules.{FailsTypes};
ghost use Rattle.rl_defs.specs.MethodRules.{FailsMethods};
ghost use Rattle.rl_defs.specs.Acceptance.{Next};
ghost use Rattle.domain_loader.specs.Phases.{AreSmallTables};

use exchangeable_types::check_types;
use proxy_tables::build;
use rl_defs::LoadFault;
use rl_defs::idl::Idl;
use rl_defs::tables::SharedTables;
use std::alloc::Global;

/// The tables of an interface part, or the first line that the rules 10 to 13 refuse, or the first
/// that the rules 20 to 23 do.
pub fn tables_of(alloc: Global, idl: &Idl) -> Result<SharedTables, LoadFault>
    requires few { length idl.now.lines < 2 ^ 32 }
    requires rises { Rises idl.now.lines }
    ensures { Answers (Next (FailsTypes idl.now) (FailsMethods idl.now)) (AreSmallTables idl.now) result }
{
    let types = match check_types(alloc, idl) {
        Ok(types) => types,
        Err(fault) => return Err(fault),
    };
    let tables = match build(alloc, types, idl) {
        Ok(tables) => tables,
        Err(fault) => return Err(fault),
    };
    match SharedTables::new(alloc, tables) {
        Ok(tables) => Ok(tables),
        Err(_) => Err(LoadFault::Memory),
    }
}
