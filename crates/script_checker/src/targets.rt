//! The loads and the shadows, with their traits.
ghost use Rattle.std.specs.Prelude.{◌≡◌, ℕ, true, List, [], ◌∷◌, ◌++◌, map, Some, OnOk, IfOk};
ghost use Rattle.rl_defs.specs.Interfaces.{place_of};
ghost use Rattle.rl_defs.specs.Domains.{trait_name, trait_of_form};
ghost use Rattle.rl_defs.specs.DomainParts.{IsOneDomain};
ghost use Rattle.rl_defs.specs.DomainParts.{begins_domain};
ghost use Rattle.rl_defs.specs.BundleNames.{given_by, names_of, domain_given, load_given, domains_loaded, shadow_given, shadowed as shadows_loaded};
ghost use Rattle.rl_defs.specs.BundleOrder.{text_of};
ghost use Rattle.script_checker.specs.Scopes.{trait_in, number_at, number_of, all_lines};

use crate::names::add;
use name_tables::names::Names;
use rl_defs::bundle::{Numbered, Plan, PlanLine};
use rl_defs::checked::CheckedDomain;
use rl_defs::code::DomainLine;
use rl_defs::list::List;
use rl_defs::name::Name;
use std::alloc::{AllocError, Global};

/// Domains, loads or shadows: their names, and the number of the trait of each.
#[derive(Drop)]
pub struct Targets {
    pub names: Names,
    pub traits: List<u32>,
}

// None yet, and room for the names of so many.
fn room_for(alloc: Global, count: usize) -> Targets
    ensures names { result.names ≡ [] }
    ensures traits { result.traits ≡ [] }
{
    Targets {
        names: Names::with_room(alloc, count),
        traits: List::new(alloc),
    }
}

impl Targets {
    /// The number of the trait of the one at this place.
    pub fn trait_at(&self, place: u32) -> u32
        ensures { result ≡ number_at self.now.traits (Some place) }
    {
        self.traits.get(place as usize).copied().unwrap_or(0)
    }

    /// The number of the trait of the first one of this name. It is 0 where there is none.
    pub fn trait_of(&self, name: &Name) -> u32
        ensures { result ≡ number_at self.now.traits (place_of name.now self.now.names) }
    {
        match self.names.place(name) {
            Some(place) => self.trait_at(place),
            None => 0,
        }
    }
}

// Adds one with its trait.
fn put(targets: &mut Targets, name: &Name, of: u32) -> Result<(), AllocError>
    ensures names { OnOk result (targets.new.names ≡ targets.old.names ++ name.now ∷ []) }
    ensures traits { OnOk result (targets.new.traits ≡ targets.old.traits ++ of ∷ []) }
{
    add(&mut targets.names, name)?;
    targets.traits.push(of)
}

// Adds a domain by its first line, which names it and its trait.
fn put_first(domains: &mut Targets, traits: &Names, form: &DomainLine) -> Result<(), AllocError>
    requires { begins_domain form.now ≡ true }
    ensures names { OnOk result (domains.new.names ≡ domains.old.names ++ domain_given form.now) }
    ensures traits { OnOk result (domains.new.traits ≡ domains.old.traits
        ++ number_of (trait_of_form form.now []) traits.now ∷ []) }
{
    match form {
        DomainLine::Domain(name, has) => put(domains, name, traits.place(has).unwrap_or(0)),
        _ => Ok(()),
    }
}

// Adds a domain.
fn put_domain(
    domains: &mut Targets,
    traits: &Names,
    lines: &[Numbered<DomainLine>],
) -> Result<(), AllocError>
    requires { IsOneDomain lines.now }
    ensures names { OnOk result (domains.new.names ≡ domains.old.names ++ names_of (given_by domain_given lines.now)) }
    ensures traits { OnOk result (domains.new.traits ≡ domains.old.traits
        ++ number_of (trait_name lines.now) traits.now ∷ []) }
{
    match lines {
        [first, ..] => put_first(domains, traits, &first.form),
        [] => Ok(()),
    }
}

// The domains, with their traits.
fn domains_of(
    alloc: Global,
    traits: &Names,
    domains: &[CheckedDomain],
) -> Result<Targets, AllocError>
    ensures names { IfOk result (λ t. t.names
        ≡ names_of (given_by domain_given (all_lines (map text_of domains.now)))) }
    ensures traits { IfOk result (λ t. t.traits
        ≡ map (λ d. number_of (trait_name d.lines) traits.now) (map text_of domains.now)) }
{
    let mut targets = room_for(alloc, domains.len());
    'each: for domain in domains {
        put_domain(&mut targets, traits, domain.lines())?;
    }
    Ok(targets)
}

fn put_load(loads: &mut Targets, domains: &Targets, form: &PlanLine) -> Result<(), AllocError>
    ensures names { OnOk result (loads.new.names ≡ loads.old.names ++ load_given form.now) }
    ensures traits { OnOk result (loads.new.traits ≡ loads.old.traits
        ++ map (λ d. number_at domains.now.traits (place_of d domains.now.names)) (domains_loaded form.now)) }
{
    match form {
        PlanLine::Load { name, domain } => put(loads, name, domains.trait_of(domain)),
        _ => Ok(()),
    }
}

fn put_shadow(shadows: &mut Targets, loads: &Targets, form: &PlanLine) -> Result<(), AllocError>
    ensures names { OnOk result (shadows.new.names ≡ shadows.old.names ++ shadow_given form.now) }
    ensures traits { OnOk result (shadows.new.traits ≡ shadows.old.traits
        ++ map (λ d. number_at loads.now.traits (place_of d loads.now.names)) (shadows_loaded form.now)) }
{
    match form {
        PlanLine::Shadow { name, load, .. } => put(shadows, name, loads.trait_of(load)),
        _ => Ok(()),
    }
}

// The loads, with the traits of their domains.
fn loads_among(alloc: Global, domains: &Targets, plan: &Plan) -> Result<Targets, AllocError>
    ensures names { IfOk result (λ t. t.names ≡ names_of (given_by load_given plan.now.lines)) }
    ensures traits { IfOk result (λ t. t.traits
        ≡ map (λ d. number_at domains.now.traits (place_of d domains.now.names))
        (names_of (given_by domains_loaded plan.now.lines))) }
{
    let mut loads = room_for(alloc, 0);
    let lines = plan.lines.as_slice();
    'each: for line in lines {
        put_load(&mut loads, domains, &line.form)?;
    }
    Ok(loads)
}

/// The loads of a plan, each with the trait of its domain.
pub fn loads_of(
    alloc: Global,
    traits: &Names,
    domains: &List<CheckedDomain>,
    plan: &Plan,
) -> Result<Targets, AllocError>
    ensures names { IfOk result (λ t. t.names ≡ names_of (given_by load_given plan.now.lines)) }
    ensures traits { IfOk result (λ t. t.traits
        ≡ map (trait_in traits.now (map text_of domains.now)) (names_of (given_by domains_loaded plan.now.lines))) }
{
    let domains = domains_of(alloc, traits, domains.as_slice())?;
    loads_among(alloc, &domains, plan)
}

/// The shadows of a plan, each with the trait of its load.
pub fn shadows_of(alloc: Global, loads: &Targets, plan: &Plan) -> Result<Targets, AllocError>
    ensures names { IfOk result (λ t. t.names ≡ names_of (given_by shadow_given plan.now.lines)) }
    ensures traits { IfOk result (λ t. t.traits
        ≡ map (λ d. number_at loads.now.traits (place_of d loads.now.names))
        (names_of (given_by shadows_loaded plan.now.lines))) }
{
    let mut shadows = room_for(alloc, 0);
    let lines = plan.lines.as_slice();
    'each: for line in lines {
        put_shadow(&mut shadows, loads, &line.form)?;
    }
    Ok(shadows)
}
