//! What the plan looks at in a domain.
ghost use Rattle.std.specs.Prelude.{◌≡◌, ℕ, ◌^◌, ◌<◌, ◌≤◌, ◌∷◌, ◌++◌, [], List as Items, length, drop, not, nat_eq, IsTrue, OnOk, IfOk};
ghost use Rattle.std.specs.Cmp.Lexicographic.{pointwise};
ghost use Rattle.rl_defs.specs.CodeRules.{KeepsRules};
ghost use Rattle.rl_defs.specs.Domains.{trait_name, is_native};
ghost use Rattle.rl_defs.specs.CodeNames.{imports, place_in, type_at};
ghost use Rattle.rl_defs.specs.BundleNames.{given_by, names_of, domain_given};
ghost use Rattle.rl_defs.specs.Words.{is_name};
ghost use Rattle.plan_checker.specs.Facts.{import_names, import_traits};
ghost use Rattle.plan_checker.specs.PlanTests.{is_other_trait};

use name_tables::names::Names;
use rl_defs::bundle::Numbered;
use rl_defs::checked::CheckedDomain;
use rl_defs::code::DomainLine;
use rl_defs::list::List;
use rl_defs::lookups::is_native;
use rl_defs::name::Name;
use std::alloc::{AllocError, Global};
use std::marker::Model;

// The imports of a domain: the places of their names, the names, and the names of their traits.
#[derive(Drop)]
struct Imports {
    places: Names,
    names: List<Name>,
    traits: List<Name>,
}

/// What the plan looks at in a domain, found once. Contracts see the lines of the domain.
#[derive(Drop)]
pub struct DomainFacts<'a> {
    lines: &'a [Numbered<DomainLine>],
    has: Name,
    imports: Imports,
    native: bool,
}

impl<'a> Model for DomainFacts<'a> {
    ghost use Rattle.rl_defs.specs.Domains.{Lines};
    ghost use Rattle.plan_checker.specs.Facts.{AreFacts};

    ghost Value = { Lines };

    ghost view = { λ d. d.lines.now };

    ghost invariant = { λ d. AreFacts d.lines.now d.has d.imports.places d.imports.names d.imports.traits d.native };
}

/// The names of a domain and of its trait, which its first line gives.
#[derive(Clone, Copy)]
pub struct Begin {
    pub name: Name,
    pub has: Name,
}

/// The names that a domain begins with.
pub fn head(domain: &CheckedDomain) -> Begin
    ensures name { names_of (given_by domain_given domain.now.lines) ≡ result.name ∷ [] }
    ensures has { trait_name domain.now.lines ≡ result.has }
    ensures named { IsTrue (is_name result.has) }
{
    match &domain.lines()[0].form {
        DomainLine::Domain(name, has) => {
            let _ = has.bytes();
            Begin {
                name: *name,
                has: *has,
            }
        }
        _ => unreachable!(),
    }
}

fn put(imports: &mut Imports, name: &Name, has: &Name) -> Result<(), AllocError>
    requires { length imports.old.places < 2 ^ 31 }
    ensures places { OnOk result (imports.new.places ≡ imports.old.places ++ name.now ∷ []) }
    ensures names { OnOk result (imports.new.names ≡ imports.old.names ++ name.now ∷ []) }
    ensures traits { OnOk result (imports.new.traits ≡ imports.old.traits ++ has.now ∷ []) }
{
    imports.places.add(name)?;
    imports.names.push(*name)?;
    imports.traits.push(*has)
}

fn imports_of(alloc: Global, lines: &[Numbered<DomainLine>]) -> Result<Imports, AllocError>
    requires { length lines.now < 2 ^ 31 }
    ensures places { IfOk result (λ i. i.places ≡ import_names lines.now) }
    ensures names { IfOk result (λ i. i.names ≡ import_names lines.now) }
    ensures traits { IfOk result (λ i. i.traits ≡ import_traits lines.now) }
{
    let mut imports = Imports {
        places: Names::new(alloc),
        names: List::new(alloc),
        traits: List::new(alloc),
    };
    'lines: for line in lines {
        if let DomainLine::Import(name, has) = &line.form {
            put(&mut imports, name, has)?;
        }
    }
    Ok(imports)
}

impl<'a> DomainFacts<'a> {
    /// What the plan looks at in this domain.
    pub fn new(alloc: Global, domain: &'a CheckedDomain) -> Result<DomainFacts<'a>, AllocError>
        ensures { IfOk result (λ d. d ≡ domain.now.lines) }
    {
        let head = head(domain);
        let lines = domain.lines();
        let imports = imports_of(alloc, lines)?;
        Ok(DomainFacts {
            lines,
            has: head.has,
            imports,
            native: is_native(lines),
        })
    }

    /// The names of the imports, in the order of the text.
    pub fn imports(&self) -> &[Name]
        ensures { result.now ≡ import_names self.now }
    {
        self.imports.names.as_slice()
    }

    /// Whether the domain has a native body.
    pub fn is_native(&self) -> bool
        ensures { result ≡ is_native self.now }
    {
        self.native
    }

    /// Whether an import has another trait than the domain of a target. That is so of an import
    /// that isn't there.
    pub fn is_other_trait(&self, import: &Name, target: &DomainFacts) -> bool
        ensures { result ≡ is_other_trait self.now import.now target.now }
    {
        let wanted = &target.has;
        let Some(place) = self.imports.places.place(import) else {
            return true;
        };
        match self.imports.traits.get(place as usize) {
            Some(has) => *has != *wanted,
            None => true,
        }
    }
}
