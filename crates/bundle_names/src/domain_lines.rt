//! What the lines of a domain give and use.
ghost use Rattle.std.specs.Prelude.{◌≡◌, ◌||◌, Some, None, [], not, is_some, OnOk, IfOk};
ghost use Rattle.std.specs.List.{list_any};
ghost use Rattle.rl_defs.specs.Interfaces.{place_of};
ghost use Rattle.bundle_names.specs.Scopes.{rule_when};
ghost use Rattle.bundle_names.specs.DomainNames.{at_domain, domain_role, slot_role, import_role, function_role, label_role, declared_behind, HasSpace, is_given_again, is_absent, is_kind_unknown, names_unknown};

use crate::interface_names::InterfaceNames;
use crate::roles::{Role, ScopeNames, pass, rule_when};
use name_tables::names::Names;
use rl_defs::code::{DomainLine, HeadItem, HeadKind, Instr};
use rl_defs::name::Name;
use std::alloc::{AllocError, Global};

/// The names that the lines so far have given: of domains; of slots, imports and functions of the
/// domain; of labels of the function.
#[derive(Drop)]
pub struct DomainScopes {
    domains: ScopeNames,
    slots: ScopeNames,
    imports: ScopeNames,
    functions: ScopeNames,
    labels: ScopeNames,
}

impl DomainScopes {
    /// Nothing was given yet. There is room for so many domains.
    pub fn new(alloc: Global, count: usize) -> DomainScopes
        ensures { result ≡ at_domain (Some []) }
    {
        DomainScopes {
            domains: ScopeNames::opened(alloc, count),
            slots: ScopeNames::opened(alloc, 0),
            imports: ScopeNames::opened(alloc, 0),
            functions: ScopeNames::opened(alloc, 0),
            labels: ScopeNames::closed(alloc),
        }
    }

    /// Begins the next domain, which may give the names of another's slots, imports, functions and
    /// labels again.
    pub fn begin(&mut self)
        ensures { self.new ≡ at_domain self.old.domains }
    {
        self.slots.open();
        self.imports.open();
        self.functions.open();
        self.labels.close();
    }

    /// Takes one line more, and gives the lower of the rules 3 and 4 that fails there.
    pub fn rule_of(
        &mut self,
        known: &InterfaceNames,
        methods: &Names,
        line: &DomainLine,
    ) -> Result<Option<u8>, AllocError>
        requires { HasSpace self.old }
        ensures behind { OnOk result (self.new ≡ declared_behind line.now self.old) }
        ensures rule { IfOk result (λ rule. rule ≡ rule_when (is_given_again line.now self.old)
            (names_unknown known.now.structs known.now.traits methods.now line.now)) }
    {
        let repeats = self.pass(line)?;
        Ok(rule_when(
            repeats,
            names_unknown(&known.structs, &known.traits, methods, line),
        ))
    }

    // Takes one line more, and tells whether it gives a name again. Most lines are code, which
    // gives none.
    fn pass(&mut self, line: &DomainLine) -> Result<bool, AllocError>
        requires { HasSpace self.old }
        ensures behind { OnOk result (self.new ≡ declared_behind line.now self.old) }
        ensures repeats { IfOk result (λ again. again ≡ is_given_again line.now self.old) }
    {
        match line {
            DomainLine::Code(_) | DomainLine::Words(_) | DomainLine::Native(_) => Ok(false),
            DomainLine::Head(_, _) | DomainLine::Close => {
                pass(&mut self.labels, label_role(line))
            }
            DomainLine::Domain(_, _) => pass(&mut self.domains, domain_role(line)),
            DomainLine::Slot(_, _) => pass(&mut self.slots, slot_role(line)),
            DomainLine::Import(_, _) => pass(&mut self.imports, import_role(line)),
            DomainLine::Function(_) => {
                let function = pass(&mut self.functions, function_role(line))?;
                let label = pass(&mut self.labels, label_role(line))?;
                Ok(function || label)
            }
        }
    }
}

fn domain_role(line: &DomainLine) -> Role
    ensures { result ≡ domain_role line.now }
{
    match line {
        DomainLine::Domain(name, _) => Role::Gives(*name),
        _ => Role::Passes,
    }
}

fn slot_role(line: &DomainLine) -> Role
    ensures { result ≡ slot_role line.now }
{
    match line {
        DomainLine::Slot(name, _) => Role::Gives(*name),
        _ => Role::Passes,
    }
}

fn import_role(line: &DomainLine) -> Role
    ensures { result ≡ import_role line.now }
{
    match line {
        DomainLine::Import(name, _) => Role::Gives(*name),
        _ => Role::Passes,
    }
}

fn function_role(line: &DomainLine) -> Role
    ensures { result ≡ function_role line.now }
{
    match line {
        DomainLine::Function(name) => Role::Gives(*name),
        _ => Role::Passes,
    }
}

fn label_role(line: &DomainLine) -> Role
    ensures { result ≡ label_role line.now }
{
    match line {
        DomainLine::Function(_) => Role::Opens,
        DomainLine::Head(name, _) => Role::Gives(*name),
        DomainLine::Close => Role::Ends,
        _ => Role::Passes,
    }
}

fn is_absent(names: &Names, name: &Name) -> bool
    ensures { result ≡ is_absent names.now name.now }
{
    names.place(name).is_none()
}

fn is_kind_unknown(structs: &Names, traits: &Names, kind: &HeadKind) -> bool
    ensures { result ≡ is_kind_unknown structs.now traits.now kind.now }
{
    match kind {
        HeadKind::Own(ty) | HeadKind::Lent(ty) => is_absent(structs, ty),
        HeadKind::Cap(has) => is_absent(traits, has),
        HeadKind::Num => false,
    }
}

fn is_any_unknown(structs: &Names, traits: &Names, items: &[HeadItem]) -> bool
    ensures { result ≡ list_any (λ item. is_kind_unknown structs.now traits.now item.kind) items.now }
{
    items
        .iter()
        .any(|item| is_kind_unknown(structs, traits, &item.kind))
}

// Whether the line names a struct or trait that nothing declares, or a function that the trait has
// no method for.
fn names_unknown(structs: &Names, traits: &Names, methods: &Names, line: &DomainLine) -> bool
    ensures { result ≡ names_unknown structs.now traits.now methods.now line.now }
{
    match line {
        DomainLine::Slot(_, ty) | DomainLine::Code(Instr::New(_, ty)) => is_absent(structs, ty),
        DomainLine::Domain(_, has) | DomainLine::Import(_, has) => is_absent(traits, has),
        DomainLine::Function(name) => is_absent(methods, name),
        DomainLine::Head(_, items) => is_any_unknown(structs, traits, items.as_slice()),
        _ => false,
    }
}
