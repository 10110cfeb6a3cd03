//! The names that a plan gives its loads and shadows, with the names that stand beside them.
ghost use Rattle.std.specs.Prelude.{◌≡◌, ℕ, ◌^◌, ◌<◌, ◌≤◌, ◌∷◌, ◌++◌, [], List as Items, length, drop, nat_eq, IsTrue, OnOk, IfOk};
ghost use Rattle.rl_defs.specs.BundleNames.{given_by, names_of, load_given, domains_loaded, serial_given, shadow_given, shadowed};
ghost use Rattle.rl_defs.specs.Words.{is_name};
ghost use Rattle.indexmap.specs.IndexMap.{get};
ghost use Rattle.plan_checker.specs.Facts.{AreNames};
ghost use Rattle.plan_checker.specs.Lookups.{binding, bound_at};
ghost use Rattle.plan_checker.specs.Tables.{ArePairs, same_pair, noted_pair};

use indexmap::IndexMap;
use name_tables::names::Names;
use rl_defs::bundle::{Numbered, PlanLine};
use rl_defs::list::List;
use rl_defs::name::Name;
use std::alloc::{AllocError, Global};

/// Names, each with another name at the same place.
#[derive(Drop)]
pub struct Pairs {
    pub names: Names,
    pub others: List<Name>,
}

/// What is bound to each import of a load, by the names of the load and the import.
pub type Binds = IndexMap<(Name, Name), Name>;

fn no_pairs(alloc: Global) -> Pairs
    ensures names { result.names ≡ [] }
    ensures others { result.others ≡ [] }
{
    Pairs {
        names: Names::new(alloc),
        others: List::new(alloc),
    }
}

fn put(pairs: &mut Pairs, name: &Name, other: &Name) -> Result<(), AllocError>
    requires { length pairs.old.names < 2 ^ 31 }
    ensures names { OnOk result (pairs.new.names ≡ pairs.old.names ++ name.now ∷ []) }
    ensures others { OnOk result (pairs.new.others ≡ pairs.old.others ++ other.now ∷ []) }
    ensures named { IsTrue (is_name name.now) }
{
    let _ = name.bytes();
    pairs.names.add(name)?;
    pairs.others.push(*other)
}

/// The loads of a plan, each with the name of its domain.
pub fn loads_of(alloc: Global, lines: &[Numbered<PlanLine>]) -> Result<Pairs, AllocError>
    requires { length lines.now < 2 ^ 31 }
    ensures { IfOk result (λ p. ArePairs p.names p.others
        (names_of (given_by load_given lines.now)) (names_of (given_by domains_loaded lines.now))) }
{
    let mut pairs = no_pairs(alloc);
    'lines: for line in lines {
        if let PlanLine::Load { name, domain } = &line.form {
            put(&mut pairs, name, domain)?;
        }
    }
    Ok(pairs)
}

/// The shadows of a plan, each with the name of its load.
pub fn shadows_of(alloc: Global, lines: &[Numbered<PlanLine>]) -> Result<Pairs, AllocError>
    requires { length lines.now < 2 ^ 31 }
    ensures { IfOk result (λ p. ArePairs p.names p.others
        (names_of (given_by shadow_given lines.now)) (names_of (given_by shadowed lines.now))) }
{
    let mut pairs = no_pairs(alloc);
    'lines: for line in lines {
        if let PlanLine::Shadow { name, load, .. } = &line.form {
            put(&mut pairs, name, load)?;
        }
    }
    Ok(pairs)
}

/// The loads of the `serial` lines.
pub fn serial_of(alloc: Global, lines: &[Numbered<PlanLine>]) -> Result<Names, AllocError>
    requires { length lines.now < 2 ^ 31 }
    ensures { IfOk result (λ n. n ≡ names_of (given_by serial_given lines.now)) }
{
    let mut names = Names::new(alloc);
    'lines: for line in lines {
        if let PlanLine::Serial(load) = &line.form {
            names.add(load)?;
        }
    }
    Ok(names)
}

/// The names of the domains that the plan loads, load by load.
pub fn loaded_of(alloc: Global, lines: &[Numbered<PlanLine>]) -> Result<Names, AllocError>
    requires { length lines.now < 2 ^ 31 }
    ensures { IfOk result (λ n. n ≡ names_of (given_by domains_loaded lines.now)) }
{
    let mut names = Names::new(alloc);
    'lines: for line in lines {
        if let PlanLine::Load { domain, .. } = &line.form {
            names.add(domain)?;
        }
    }
    Ok(names)
}

// Notes what is bound to an import, unless something is bound to it.
fn bind(binds: &mut Binds, load: &Name, import: &Name, target: &Name) -> Result<(), AllocError>
    ensures noted { OnOk result ((q : Items ℕ) (r : Items ℕ)
        → get same_pair binds.new (q, r)
        ≡ noted_pair (get same_pair binds.old (q, r)) load.now import.now target.now q r) }
    ensures named { IsTrue (is_name load.now) }
{
    let _ = load.bytes();
    let key = (*load, *import);
    let known = binds.get(&key).copied();
    if known.is_some() {
        return Ok(());
    }
    match binds.insert(key, *target) {
        Ok(_) => Ok(()),
        Err(_) => Err(AllocError),
    }
}

/// What the plan binds to the imports of its loads: of two lines that bind one import the first.
pub fn binds_of(alloc: Global, lines: &[Numbered<PlanLine>]) -> Result<Binds, AllocError>
    ensures bound { IfOk result (λ t. (q : Items ℕ) (r : Items ℕ) → get same_pair t (q, r) ≡ bound_at lines.now q r) }
    ensures named { IfOk result (λ _. AreNames (names_of (given_by binding lines.now))) }
{
    let mut binds = IndexMap::new(alloc);
    'lines: for line in lines {
        if let PlanLine::Bind {
            load,
            import,
            target,
        } = &line.form
        {
            bind(&mut binds, load, import, target)?;
        }
    }
    Ok(binds)
}
