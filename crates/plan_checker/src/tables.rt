//! A plan with look-ups of its names.
ghost use Rattle.std.specs.Prelude.{◌≡◌, ℕ, ◌+◌, ◌^◌, ◌<◌, ◌≤◌, ◌∷◌, ◌++◌, [], List as Items, length, map, take, drop, OnOk, IfOk, IfSome};
ghost use Rattle.std.specs.Option.{option_copied};
ghost use Rattle.std.specs.List.{flat_map};
ghost use Rattle.rl_defs.specs.Interfaces.{place_of};
ghost use Rattle.rl_defs.specs.DomainValue.{Domain};
ghost use Rattle.rl_defs.specs.BundleNames.{given_by, names_of, domain_names, domains_loaded, load_names, lines_of_domain, domain_of_load, load_behind, load_lines, target_lines};
ghost use Rattle.rl_defs.specs.LoadOf.{load_number, target_number, is_serial_in, bound_to};
ghost use Rattle.plan_checker.specs.Facts.{HasLoadNames};
ghost use Rattle.plan_checker.specs.Loaded.{IsLoaded, AreLoaded, IsPut};
ghost use Rattle.plan_checker.specs.Lookups.{PlanLines, plan_bundle, place_of_target, bound_at, load_of_shadow};

use crate::facts::{DomainFacts, head};
use crate::pairs::{Binds, Pairs, binds_of, loaded_of, loads_of, serial_of, shadows_of};
use name_tables::names::Names;
use rl_defs::bundle::{Numbered, PlanLine};
use rl_defs::checked::CheckedDomain;
use rl_defs::list::List;
use rl_defs::name::Name;
use std::alloc::{AllocError, Global};
use std::marker::Model;

// The domains that the plan loads, by their names: the number of each among all domains, and what
// the plan looks at in it. A bundle may have many domains that no load names, and nothing is kept
// of them.
#[derive(Drop)]
struct Domains<'a> {
    names: Names,
    numbers: List<u32>,
    facts: List<DomainFacts<'a>>,
}

/// The lines of a plan and the domains of its bundle, with look-ups. Contracts see a bundle of
/// these domains and this plan.
#[derive(Drop)]
pub struct PlanTables<'a> {
    lines: &'a [Numbered<PlanLine>],
    all: &'a [CheckedDomain],
    domains: Domains<'a>,
    loads: Pairs,
    shadows: Pairs,
    serial: Names,
    binds: Binds,
}

impl<'a> Model for PlanTables<'a> {
    ghost use Rattle.rl_defs.specs.declared.bundle.Bundle.{Bundle};
    ghost use Rattle.indexmap.specs.IndexMap.{get};
    ghost use Rattle.plan_checker.specs.Lookups.{plan_bundle};
    ghost use Rattle.plan_checker.specs.Tables.{AreTables, same_pair};

    ghost Value = { Bundle };

    ghost view = { λ t. plan_bundle t.all.now t.lines.now };

    ghost invariant = { λ t. AreTables (plan_bundle t.all.now t.lines.now)
        t.domains.names t.domains.numbers t.domains.facts
        t.loads.names t.loads.others t.shadows.names t.shadows.others
        t.serial (λ q r. get same_pair t.binds (q, r)) };
}

// Puts a domain last, with its number, if it is among those that are loaded.
fn put<'a>(
    alloc: Global,
    domains: &mut Domains<'a>,
    loaded: &Names,
    number: u32,
    domain: &'a CheckedDomain,
) -> Result<(), AllocError>
    requires { length domains.old.names < 2 ^ 31 }
    ensures { OnOk result (IsPut loaded.now domain.now.lines number
        domains.old.names domains.new.names
        domains.old.numbers domains.new.numbers
        domains.old.facts domains.new.facts) }
{
    let head = head(domain);
    if loaded.place(&head.name).is_none() {
        return Ok(());
    }
    let facts = DomainFacts::new(alloc, domain)?;
    domains.names.add(&head.name)?;
    domains.numbers.push(number)?;
    domains.facts.push(facts)?;
    Ok(())
}

// The domains whose names are among those that are loaded.
fn domains_of<'a>(
    alloc: Global,
    loaded: &Names,
    domains: &'a [CheckedDomain],
) -> Result<Domains<'a>, AllocError>
    requires { length domains.now < 2 ^ 31 }
    ensures { IfOk result (λ d. (lines : PlanLines)
        → loaded.now ≡ names_of (given_by domains_loaded lines)
        → AreLoaded (plan_bundle domains.now lines) d.names d.numbers d.facts) }
{
    let mut all = Domains {
        names: Names::new(alloc),
        numbers: List::new(alloc),
        facts: List::new(alloc),
    };
    'domains: for (number, domain) in domains.iter().enumerate() {
        put(alloc, &mut all, loaded, number as u32, domain)?;
    }
    Ok(all)
}

impl<'a> PlanTables<'a> {
    /// The look-ups of a plan and of the domains of its bundle.
    pub fn new(
        alloc: Global,
        domains: &'a [CheckedDomain],
        lines: &'a [Numbered<PlanLine>],
    ) -> Result<PlanTables<'a>, AllocError>
        requires domains { length domains.now < 2 ^ 31 }
        requires lines { length lines.now < 2 ^ 31 }
        ensures value { IfOk result (λ t. t ≡ plan_bundle domains.now lines.now) }
        ensures names { IfOk result (λ _. HasLoadNames lines.now) }
    {
        let all = domains;
        let loaded = loaded_of(alloc, lines)?;
        let domains = domains_of(alloc, &loaded, all)?;
        let loads = loads_of(alloc, lines)?;
        let shadows = shadows_of(alloc, lines)?;
        let serial = serial_of(alloc, lines)?;
        let binds = binds_of(alloc, lines)?;
        Ok(PlanTables {
            lines,
            all,
            domains,
            loads,
            shadows,
            serial,
            binds,
        })
    }

    /// The lines of the plan.
    pub fn lines(&self) -> &'a [Numbered<PlanLine>]
        ensures { result.now ≡ self.now.plan.lines }
    {
        self.lines
    }

    /// The number of a domain that is loaded, from 0.
    pub fn domain_place(&self, name: &Name) -> Option<u32>
        requires { IsLoaded self.now name.now }
        ensures { result ≡ place_of name.now (domain_names self.now) }
    {
        match self.domains.names.place(name) {
            Some(place) => self.domains.numbers.get(place as usize).copied(),
            None => None,
        }
    }

    /// The domain of this name, which is loaded.
    pub fn domain(&self, name: &Name) -> Option<&DomainFacts<'a>>
        requires { IsLoaded self.now name.now }
        ensures { option_copied result ≡ lines_of_domain self.now name.now }
    {
        match self.domains.names.place(name) {
            Some(place) => self.domains.facts.get(place as usize),
            None => None,
        }
    }

    /// The place of a load among the loads, from 0.
    pub fn load_place(&self, load: &Name) -> Option<u32>
        ensures value { result ≡ place_of load.now (load_names self.now) }
        ensures few { IfSome result (λ place. place < 2 ^ 31) }
    {
        self.loads.names.place(load)
    }

    fn domain_of_load(&self, load: &Name) -> Option<&Name>
        ensures { option_copied result ≡ domain_of_load self.now load.now }
    {
        match self.load_place(load) {
            Some(place) => self.loads.others.get(place as usize),
            None => None,
        }
    }

    /// The domain of a load.
    pub fn facts_of_load(&self, load: &Name) -> Option<&DomainFacts<'a>>
        ensures { option_copied result ≡ load_lines self.now load.now }
    {
        match self.domain_of_load(load) {
            Some(domain) => self.domain(domain),
            None => None,
        }
    }

    fn load_of_shadow(&self, target: &Name) -> Option<Name>
        ensures { result ≡ load_of_shadow self.now target.now }
    {
        match self.shadows.names.place(target) {
            Some(place) => self.shadows.others.get(place as usize).copied(),
            None => None,
        }
    }

    // The load of a target: a load is its own, and a shadow has the one that it stands for.
    fn load_of_target(&self, target: &Name) -> Option<Name>
        ensures { result ≡ load_behind self.now target.now }
    {
        match self.load_place(target) {
            Some(_) => Some(*target),
            None => self.load_of_shadow(target),
        }
    }

    /// The domain of a target's load.
    pub fn facts_of_target(&self, target: &Name) -> Option<&DomainFacts<'a>>
        ensures { option_copied result ≡ target_lines self.now target.now }
    {
        match self.load_of_target(target) {
            Some(load) => self.facts_of_load(&load),
            None => None,
        }
    }

    /// The place of a target's load among the loads, from 0.
    pub fn place_of_target(&self, target: &Name) -> Option<u32>
        ensures { result ≡ place_of_target self.now target.now }
    {
        match self.load_of_target(target) {
            Some(load) => self.load_place(&load),
            None => None,
        }
    }

    /// What the plan binds to an import of a load.
    pub fn bound(&self, load: &Name, import: &Name) -> Option<&Name>
        ensures { option_copied result ≡ bound_at self.now.plan.lines load.now import.now }
    {
        let key = (*load, *import);
        self.binds.get(&key)
    }

    /// Whether a `serial` line names the load.
    pub fn is_serial(&self, load: &Name) -> bool
        ensures { result ≡ is_serial_in self.now load.now }
    {
        self.serial.place(load).is_some()
    }

    /// The number of a load, from 1. It is 0 where there is none.
    pub fn load_number(&self, load: &Name) -> u32
        ensures { result ≡ load_number self.now load.now }
    {
        match self.load_place(load) {
            Some(place) => place + 1,
            None => 0,
        }
    }

    /// The number of a target: the loads are numbered from 1, and the shadows on after them. It is
    /// 0 where there is none.
    pub fn target_number(&self, target: &Name) -> u32
        ensures { result ≡ target_number self.now target.now }
    {
        if let Some(place) = self.load_place(target) {
            return place + 1;
        }
        match self.shadows.names.place(target) {
            Some(place) => self.loads.names.len() + place + 1,
            None => 0,
        }
    }

    /// The number of the target that an import of a load is bound to. It is 0 where none is.
    pub fn number_bound(&self, load: &Name, import: &Name) -> u32
        ensures { result ≡ target_number self.now (bound_to self.now load.now import.now) }
    {
        let _ = &self.lines;
        match self.bound(load, import) {
            Some(target) => self.target_number(target),
            None => 0,
        }
    }
}
