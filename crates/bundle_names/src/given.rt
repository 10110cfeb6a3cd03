//! The names that lines of the plan gave.
ghost use Rattle.std.specs.Prelude.{◌≡◌, ◌&&◌, nat_eq, true, IsTrue, OnOk, IfOk};
ghost use Rattle.indexmap.specs.IndexSet.{contains, Updates};
ghost use Rattle.rl_defs.specs.Words.{is_name};
ghost use Rattle.bundle_names.specs.PlanNames.{GivenNames, none_given, given_after, gives_again};
ghost use Rattle.bundle_names.specs.GivenSoFar.{AreGiven, same_pair};

use crate::known::add;
use indexmap::IndexSet;
use name_tables::names::Names;
use rl_defs::bundle::PlanLine;
use rl_defs::name::Name;
use std::alloc::{AllocError, Global};

/// What lines of the plan gave so far. No name has a dot in it, so a bound import is kept as the
/// names before and behind the dot.
#[derive(Drop)]
pub struct Given {
    pub targets: Names,
    pub binds: IndexSet<(Name, Name)>,
    pub serials: Names,
    pub fuel: bool,
    pub order: bool,
}

// Adds a pair, and says whether it was there.
fn add_pair(
    pairs: &mut IndexSet<(Name, Name)>,
    load: &Name,
    import: &Name,
) -> Result<bool, AllocError>
    ensures again { IfOk result (λ again. again ≡ contains same_pair pairs.old (load.now, import.now)) }
    ensures added { OnOk result (Updates same_pair pairs.old pairs.new (load.now, import.now) true) }
    ensures named { IsTrue (is_name load.now) }
{
    let _ = load.bytes();
    match pairs.insert((*load, *import)) {
        Ok(new) => Ok(!new),
        Err(_) => Err(AllocError),
    }
}

impl Given {
    /// Nothing is given yet.
    pub fn new(alloc: Global) -> Given
        ensures { AreGiven result none_given }
    {
        Given {
            targets: Names::new(alloc),
            binds: IndexSet::new(alloc),
            serials: Names::new(alloc),
            fuel: false,
            order: false,
        }
    }

    /// Takes what a line gives, and says whether it was given before.
    pub fn take(&mut self, form: &PlanLine) -> Result<bool, AllocError>
        ensures again { IfOk result (λ again. (names : GivenNames) → AreGiven self.old names
            → again ≡ gives_again names form.now) }
        ensures given { OnOk result ((names : GivenNames) → AreGiven self.old names
            → AreGiven self.new (given_after names form.now)) }
    {
        match form {
            PlanLine::Load { name, .. } | PlanLine::Shadow { name, .. } => {
                add(&mut self.targets, name)
            }
            PlanLine::Bind { load, import, .. } => add_pair(&mut self.binds, load, import),
            PlanLine::Serial(load) => add(&mut self.serials, load),
            PlanLine::Fuel(_) => {
                let again = self.fuel;
                self.fuel = true;
                Ok(again)
            }
            PlanLine::Order(_) => {
                let again = self.order;
                self.order = true;
                Ok(again)
            }
            PlanLine::Device { .. } => Ok(false),
        }
    }
}
