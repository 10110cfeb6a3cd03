//! The names that a bundle declares, with look-ups.
ghost use Rattle.std.specs.Prelude.{◌≡◌, ℕ, ◌<◌, ◌||◌, false, if◌then◌else◌, get_or, length, ◌∷◌, [], ◌++◌, OnOk, IfOk};
ghost use Rattle.std.specs.List.{flat_map};
ghost use Rattle.std.specs.Option.{option_copied};
ghost use Rattle.rl_defs.specs.CodeNames.{imports};
ghost use Rattle.rl_defs.specs.BundleNames.{names_of, given_by, domain_given, import_given, domains_loaded, target_given, load_given, client_given, domain_names};
ghost use Rattle.bundle_names.specs.Tests.{is_given, is_unknown, lacks, has_unknown};
ghost use Rattle.bundle_names.specs.PlanNames.{declared_names, known_names, imports_of_load, is_place, is_loaded, imports_from};

use name_tables::names::Names;
use rl_defs::bundle::{Bundle, ClientLine, Numbered, PlanLine};
use rl_defs::code::{DomainLine, DomainText};
use rl_defs::list::List;
use rl_defs::name::Name;
use std::alloc::{AllocError, Global};

/// Adds a name, and says whether it was there. A table counts its names in 32 bits; more are more
/// than memory has room for.
pub fn add(names: &mut Names, name: &Name) -> Result<bool, AllocError>
    ensures added { OnOk result (names.new ≡ names.old ++ name.now ∷ []) }
    ensures again { IfOk result (λ again. again ≡ is_given names.old name.now) }
{
    if names.len() == u32::MAX {
        return Err(AllocError);
    }
    Ok(names.add(name)?.is_some())
}

/// Whether none of these names is this one.
pub fn is_unknown(names: &Names, name: &Name) -> bool
    ensures { result ≡ is_unknown names.now name.now }
{
    names.place(name).is_none()
}

/// Whether one of the names that are used isn't declared.
pub fn has_unknown(declared: &Names, used: &[Name]) -> bool
    ensures { result ≡ has_unknown declared.now used.now }
{
    used.iter().any(|name| is_unknown(declared, name))
}

fn put_domain(names: &mut Names, form: &DomainLine) -> Result<(), AllocError>
    ensures { OnOk result (names.new ≡ names.old ++ domain_given form.now) }
{
    if let DomainLine::Domain(name, _) = form {
        add(names, name)?;
    }
    Ok(())
}

fn put_import(names: &mut Names, form: &DomainLine) -> Result<(), AllocError>
    ensures { OnOk result (names.new ≡ names.old ++ import_given form.now) }
{
    if let DomainLine::Import(name, _) = form {
        add(names, name)?;
    }
    Ok(())
}

fn put_load(names: &mut Names, form: &PlanLine) -> Result<(), AllocError>
    ensures { OnOk result (names.new ≡ names.old ++ load_given form.now) }
{
    if let PlanLine::Load { name, .. } = form {
        add(names, name)?;
    }
    Ok(())
}

fn put_loaded(names: &mut List<Name>, form: &PlanLine) -> Result<(), AllocError>
    ensures { OnOk result (names.new ≡ names.old ++ domains_loaded form.now) }
{
    if let PlanLine::Load { domain, .. } = form {
        names.push(*domain)?;
    }
    Ok(())
}

fn put_target(names: &mut Names, form: &PlanLine) -> Result<(), AllocError>
    ensures { OnOk result (names.new ≡ names.old ++ target_given form.now) }
{
    if let PlanLine::Load { name, .. } | PlanLine::Shadow { name, .. } = form {
        add(names, name)?;
    }
    Ok(())
}

fn put_client(names: &mut Names, form: &ClientLine) -> Result<(), AllocError>
    ensures { OnOk result (names.new ≡ names.old ++ client_given form.now) }
{
    if let ClientLine::Client(name) = form {
        add(names, name)?;
    }
    Ok(())
}

// Adds the names of the domains that begin at these lines.
fn add_domains(names: &mut Names, lines: &[Numbered<DomainLine>]) -> Result<(), AllocError>
    ensures { OnOk result (names.new ≡ names.old ++ names_of (given_by domain_given lines.now)) }
{
    'lines: for line in lines {
        put_domain(names, &line.form)?;
    }
    Ok(())
}

fn domain_names(alloc: Global, domains: &[DomainText]) -> Result<Names, AllocError>
    ensures { IfOk result (λ names. names ≡ names_of (given_by domain_given (flat_map (λ d. d.lines) domains.now))) }
{
    let mut names = Names::with_room(alloc, domains.len());
    'domains: for domain in domains {
        add_domains(&mut names, domain.lines.as_slice())?;
    }
    Ok(names)
}

fn imports_of(alloc: Global, lines: &[Numbered<DomainLine>]) -> Result<Names, AllocError>
    ensures { IfOk result (λ names. names ≡ declared_names (imports lines.now)) }
{
    let mut names = Names::new(alloc);
    'lines: for line in lines {
        put_import(&mut names, &line.form)?;
    }
    Ok(names)
}

// Marks the place, if there is one.
fn mark(marks: &mut Vec<bool>, place: Option<u32>)
    ensures count { length marks.new.items ≡ length marks.old.items }
    ensures marks { (number : ℕ) → number < length marks.old.items
        → get_or marks.new.items number false ≡ (is_place number place || get_or marks.old.items number false) }
{
    if let Some(place) = place {
        let place = place as usize;
        if place < marks.len() {
            marks[place] = true;
        }
    }
}

// Which of so many domains are loaded, by their numbers.
fn loaded_domains(
    alloc: Global,
    domains: &Names,
    count: usize,
    loaded: &[Name],
) -> Result<Vec<bool>, AllocError>
    ensures count { IfOk result (λ marks. length marks.items ≡ count) }
    ensures marks { IfOk result (λ marks. (number : ℕ) → number < count
        → get_or marks.items number false ≡ is_loaded loaded.now domains.now number) }
{
    let Ok(mut marks) = vec![in alloc; false; count] else {
        return Err(AllocError);
    };
    'loads: for name in loaded {
        mark(&mut marks, domains.place(name));
    }
    Ok(marks)
}

// The imports of a domain that is kept, and none of another.
fn imports_kept(alloc: Global, is_kept: bool, domain: &DomainText) -> Result<Names, AllocError>
    ensures { IfOk result (λ names. names ≡ (if is_kept then declared_names (imports domain.now.lines) else [])) }
{
    if is_kept {
        imports_of(alloc, domain.lines.as_slice())
    } else {
        Ok(Names::new(alloc))
    }
}

// The imports of the domains that are marked. A bundle may have many domains that no load names,
// and no table is made of theirs.
fn imports_by_domain(
    alloc: Global,
    domains: &[DomainText],
    marks: &[bool],
) -> Result<List<Names>, AllocError>
    requires { length marks.now ≡ length domains.now }
    ensures { IfOk result (λ all. all ≡ imports_from (λ number. get_or marks.now number false) 0 domains.now) }
{
    let mut room = Vec::new(alloc);
    let _ = room.reserve(domains.len());
    let mut all = List::from_vec(room);
    'domains: for number in 0..domains.len() {
        let names = imports_kept(alloc, marks[number], &domains[number])?;
        all.push(names)?;
    }
    Ok(all)
}

// The imports of the domains that are loaded, by the numbers of the domains.
fn imports_of_loaded(
    alloc: Global,
    bundle: &Bundle,
    domains: &Names,
    loaded: &[Name],
) -> Result<List<Names>, AllocError>
    requires domains { domains.now ≡ domain_names bundle.now }
    requires loaded { loaded.now ≡ names_of (given_by domains_loaded bundle.now.plan.lines) }
    ensures { IfOk result (λ all. all ≡ (known_names bundle.now).imports) }
{
    let texts = bundle.domains.as_slice();
    let marks = loaded_domains(alloc, domains, texts.len(), loaded)?;
    imports_by_domain(alloc, texts, marks.as_slice())
}

fn load_names(alloc: Global, lines: &[Numbered<PlanLine>]) -> Result<Names, AllocError>
    ensures { IfOk result (λ names. names ≡ names_of (given_by load_given lines.now)) }
{
    let mut names = Names::new(alloc);
    'lines: for line in lines {
        put_load(&mut names, &line.form)?;
    }
    Ok(names)
}

fn domains_loaded(alloc: Global, lines: &[Numbered<PlanLine>]) -> Result<List<Name>, AllocError>
    ensures { IfOk result (λ names. names ≡ names_of (given_by domains_loaded lines.now)) }
{
    let mut names = List::new(alloc);
    'lines: for line in lines {
        put_loaded(&mut names, &line.form)?;
    }
    Ok(names)
}

/// The names of the loads and shadows.
pub fn target_names(alloc: Global, lines: &[Numbered<PlanLine>]) -> Result<Names, AllocError>
    ensures { IfOk result (λ names. names ≡ names_of (given_by target_given lines.now)) }
{
    let mut names = Names::new(alloc);
    'lines: for line in lines {
        put_target(&mut names, &line.form)?;
    }
    Ok(names)
}

fn client_names(alloc: Global, lines: &[Numbered<ClientLine>]) -> Result<Names, AllocError>
    ensures { IfOk result (λ names. names ≡ names_of (given_by client_given lines.now)) }
{
    let mut names = Names::new(alloc);
    'lines: for line in lines {
        put_client(&mut names, &line.form)?;
    }
    Ok(names)
}

/// The names that lines of the plan may use. The imports stand by the number of their domain, and
/// those of domains that no load names are left out; the domains that are loaded stand by the
/// number of their load.
#[derive(Drop)]
pub struct Known {
    pub domains: Names,
    pub imports: List<Names>,
    pub loads: Names,
    pub loaded: List<Name>,
    pub targets: Names,
    pub clients: Names,
}

impl Known {
    /// The names of a bundle.
    pub fn new(alloc: Global, bundle: &Bundle) -> Result<Known, AllocError>
        ensures { IfOk result (λ k. k ≡ known_names bundle.now) }
    {
        let plan = bundle.plan.lines.as_slice();
        let domains = domain_names(alloc, bundle.domains.as_slice())?;
        let loaded = domains_loaded(alloc, plan)?;
        let imports = imports_of_loaded(alloc, bundle, &domains, loaded.as_slice())?;
        Ok(Known {
            domains,
            imports,
            loads: load_names(alloc, plan)?,
            loaded,
            targets: target_names(alloc, plan)?,
            clients: client_names(alloc, bundle.clients.lines.as_slice())?,
        })
    }

    // The imports of the domain of the load of this name, where the load and the domain are
    // declared.
    fn imports_of_load(&self, load: &Name) -> Option<&Names>
        ensures { option_copied result ≡ imports_of_load self.now load.now }
    {
        let load = self.loads.place(load)?;
        let domain = self.loaded.get(load as usize)?;
        let domain = self.domains.place(domain)?;
        self.imports.get(domain as usize)
    }

    /// Whether the domain of this load is declared, and has no import of this name.
    pub fn lacks_import(&self, load: &Name, import: &Name) -> bool
        ensures { result ≡ lacks (imports_of_load self.now load.now) import.now }
    {
        match self.imports_of_load(load) {
            Some(imports) => is_unknown(imports, import),
            None => false,
        }
    }
}
