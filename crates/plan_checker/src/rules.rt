//! The rules of one line of the plan.
ghost use Rattle.std.specs.Prelude.{◌≡◌, ℕ, ◌+◌, ◌^◌, ◌<◌, ◌∷◌, ◌++◌, [], length, is_some, is_none, ◌||◌, nat_le, nat_lt, OnOk};
ghost use Rattle.std.specs.List.{list_any};
ghost use Rattle.rl_defs.specs.Interfaces.{place_of};
ghost use Rattle.rl_defs.specs.BundleNames.{load_given, lines_of_domain, load_lines, shadowed, device_given};
ghost use Rattle.plan_checker.specs.LineScan.{lowest_of, IsSmallStep};
ghost use Rattle.plan_checker.specs.Loaded.{IsLoaded, LoadsLoaded};
ghost use Rattle.plan_checker.specs.Lookups.{bound_at};
ghost use Rattle.plan_checker.specs.PlanTests.{is_unbound, has_other_trait, is_bound_backwards, has_native, is_outside, lowest_at};

use crate::tables::PlanTables;
use name_tables::names::Names;
use rl_defs::bundle::PlanLine;
use rl_defs::name::Name;
use std::alloc::{AllocError, Global};

/// The most loads of a bundle.
pub const MOST_LOADS: usize = 64;
/// The most restarts of a shadow.
pub const MOST_RESTARTS: u64 = 16;
/// The most fuel of a command.
pub const MOST_FUEL: u64 = 1_000_000;
/// The most blocks of a device.
pub const MOST_BLOCKS: u64 = 4_096;

/// What the lines before a line give: how many loads, the loads that have a shadow, and how many
/// devices.
#[derive(Drop)]
pub struct Seen {
    pub loads: usize,
    pub shadowed: Names,
    pub devices: usize,
}

impl Seen {
    /// Nothing.
    pub fn new(alloc: Global) -> Seen
        ensures loads { result.loads ≡ 0 }
        ensures shadowed { result.shadowed ≡ [] }
        ensures devices { result.devices ≡ 0 }
    {
        Seen {
            loads: 0,
            shadowed: Names::new(alloc),
            devices: 0,
        }
    }

    /// Takes in what one more line gives.
    pub fn add(&mut self, form: &PlanLine) -> Result<(), AllocError>
        requires loads { self.old.loads < 2 ^ 31 }
        requires shadowed { length self.old.shadowed < 2 ^ 31 }
        requires devices { self.old.devices < 2 ^ 31 }
        ensures loads { OnOk result (self.new.loads ≡ self.old.loads + length (load_given form.now)) }
        ensures shadowed { OnOk result (self.new.shadowed ≡ self.old.shadowed ++ shadowed form.now) }
        ensures devices { OnOk result (self.new.devices ≡ self.old.devices + length (device_given form.now)) }
        ensures few { OnOk result (IsSmallStep self.old.loads self.new.loads
            × IsSmallStep self.old.devices self.new.devices
            × IsSmallStep (length self.old.shadowed) (length self.new.shadowed)) }
    {
        match form {
            PlanLine::Load { .. } => self.loads += 1,
            PlanLine::Shadow { load, .. } => {
                self.shadowed.add(load)?;
            }
            PlanLine::Device { .. } => self.devices += 1,
            _ => {}
        }
        Ok(())
    }
}

// The lower of two rules that fails, where one does.
fn lowest_of(first: bool, low: u8, second: bool, high: u8) -> Option<u8>
    ensures { result ≡ lowest_of first low second high }
{
    if first {
        Some(low)
    } else if second {
        Some(high)
    } else {
        None
    }
}

// Whether an import of a domain isn't bound for this load.
fn is_unbound(tables: &PlanTables, load: &Name, domain: &Name) -> bool
    requires { IsLoaded tables.now domain.now }
    ensures { result ≡ is_unbound tables.now load.now domain.now }
{
    match tables.domain(domain) {
        Some(facts) => has_unbound(tables, load, facts.imports()),
        None => false,
    }
}

fn has_unbound(tables: &PlanTables, load: &Name, imports: &[Name]) -> bool
    ensures { result ≡ list_any (λ import. is_none (bound_at tables.now.plan.lines load.now import)) imports.now }
{
    imports
        .iter()
        .any(|import| tables.bound(load, import).is_none())
}

// Whether the target of a `bind` has another trait than the import.
fn has_other_trait(tables: &PlanTables, load: &Name, import: &Name, target: &Name) -> bool
    ensures { result ≡ has_other_trait tables.now load.now import.now target.now }
{
    let Some(binds) = tables.facts_of_load(load) else {
        return false;
    };
    match tables.facts_of_target(target) {
        Some(bound) => binds.is_other_trait(import, bound),
        None => false,
    }
}

// Whether the target's load isn't before the load that binds.
fn is_bound_backwards(tables: &PlanTables, load: &Name, target: &Name) -> bool
    ensures { result ≡ is_bound_backwards tables.now load.now target.now }
{
    match (tables.load_place(load), tables.place_of_target(target)) {
        (Some(place), Some(bound)) => place <= bound,
        _ => false,
    }
}

fn has_native(tables: &PlanTables, load: &Name) -> bool
    ensures { result ≡ has_native (load_lines tables.now load.now) }
{
    match tables.facts_of_load(load) {
        Some(facts) => facts.is_native(),
        None => false,
    }
}

// Whether a load is native, or has a shadow.
fn is_badly_shadowed(tables: &PlanTables, shadowed: &Names, load: &Name) -> bool
    ensures { result ≡ (has_native (load_lines tables.now load.now) || is_some (place_of load.now shadowed.now)) }
{
    has_native(tables, load) || shadowed.place(load).is_some()
}

fn is_outside(least: u64, most: u64, number: u64) -> bool
    ensures { result ≡ is_outside least most number }
{
    number < least || number > most
}

/// The lowest rule that a line of the plan fails, where the lines before it give what was seen.
pub fn rule_of(tables: &PlanTables, seen: &Seen, form: &PlanLine) -> Option<u8>
    requires { LoadsLoaded tables.now form.now }
    ensures { result ≡ lowest_at tables.now seen.now.loads seen.now.shadowed seen.now.devices form.now }
{
    match form {
        PlanLine::Load { name, domain } => {
            let unbound = is_unbound(tables, name, domain);
            lowest_of(unbound, 40, seen.loads >= MOST_LOADS, 46)
        }
        PlanLine::Bind {
            load,
            import,
            target,
        } => {
            let other = has_other_trait(tables, load, import, target);
            lowest_of(other, 41, is_bound_backwards(tables, load, target), 42)
        }
        PlanLine::Shadow { load, restarts, .. } => {
            let badly = is_badly_shadowed(tables, &seen.shadowed, load);
            lowest_of(badly, 43, *restarts > MOST_RESTARTS, 44)
        }
        PlanLine::Device { blocks, .. } => {
            lowest_of(
                seen.devices > 0,
                45,
                is_outside(1, MOST_BLOCKS, *blocks),
                46,
            )
        }
        PlanLine::Fuel(fuel) => lowest_of(false, 46, is_outside(1, MOST_FUEL, *fuel), 46),
        PlanLine::Serial(_) | PlanLine::Order(_) => None,
    }
}
