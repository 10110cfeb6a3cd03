//! What an interface part declares.
ghost use Rattle.std.specs.Prelude.{◌≡◌, ◌-◌, ◌^◌, ◌<◌, ◌++◌, [], length, map, drop, IfOk, OnOk};
ghost use Rattle.rl_defs.specs.BundleNames.{names_of};
ghost use Rattle.rl_defs.specs.Domains.{trait_name};
ghost use Rattle.rl_defs.specs.DomainParts.{IsOneDomain};
ghost use Rattle.bundle_names.specs.Scopes.{members, scopes};
ghost use Rattle.bundle_names.specs.InterfaceLines.{method_role};
ghost use Rattle.bundle_names.specs.DomainNames.{method_tables, methods_of, Knows, role_names, goes_on, role_tables};

use crate::interface_lines::method_role;
use crate::interfaces::{struct_names, trait_names};
use crate::roles::Role;
use name_tables::names::Names;
use rl_defs::bundle::Numbered;
use rl_defs::code::DomainLine;
use rl_defs::idl::IdlLine;
use rl_defs::list::List;
use rl_defs::name::Name;
use std::alloc::{AllocError, Global};

/// The names of structs, of traits, and of the methods of each trait, in the order of the text.
#[derive(Drop)]
pub struct InterfaceNames {
    pub structs: Names,
    pub traits: Names,
    methods: List<Names>,
    nothing: Names,
}

impl InterfaceNames {
    /// What these lines declare.
    pub fn new(alloc: Global, lines: &[Numbered<IdlLine>]) -> Result<InterfaceNames, AllocError>
        requires { length lines.now < 2 ^ 32 }
        ensures { IfOk result (Knows lines.now) }
    {
        let structs = struct_names(alloc, lines)?;
        let traits = trait_names(alloc, lines)?;
        let methods = method_tables(alloc, lines)?;
        Ok(InterfaceNames {
            structs,
            traits,
            methods,
            nothing: Names::new(alloc),
        })
    }

    /// The methods of the trait of this name. There are none where no trait has it.
    pub fn methods_of(&self, has: &Name) -> &Names
        ensures { result.now ≡ methods_of self.now has.now }
    {
        let Some(place) = self.traits.place(has) else {
            return &self.nothing;
        };
        match self.methods.get(place as usize) {
            Some(names) => names,
            None => &self.nothing,
        }
    }

    /// The methods of a domain's trait.
    pub fn methods_of_domain(&self, lines: &[Numbered<DomainLine>]) -> &Names
        requires { IsOneDomain lines.now }
        ensures { result.now ≡ methods_of self.now (trait_name lines.now) }
    {
        let Some(first) = lines.first() else {
            return &self.nothing;
        };
        match &first.form {
            DomainLine::Domain(_, has) => self.methods_of(has),
            _ => &self.nothing,
        }
    }
}

// Adds the name that a line gives, and tells whether the scope goes on behind it.
fn put(names: &mut Names, role: Role) -> Result<bool, AllocError>
    requires { length names.old < 2 ^ 32 - 1 }
    ensures names { OnOk result (names.new ≡ names.old ++ role_names role) }
    ensures on { IfOk result (λ on. on ≡ goes_on role) }
{
    match role {
        Role::Gives(name) => {
            names.add(&name)?;
            Ok(true)
        }
        Role::Passes => Ok(true),
        _ => Ok(false),
    }
}

// The names of the methods at the front of these lines.
fn methods_at_front(alloc: Global, lines: &[Numbered<IdlLine>]) -> Result<Names, AllocError>
    requires { length lines.now < 2 ^ 32 }
    ensures { IfOk result (λ names. names ≡ names_of (members method_role lines.now)) }
{
    let mut names = Names::new(alloc);
    'lines: for line in lines {
        if !put(&mut names, method_role(&line.form))? {
            return Ok(names);
        }
    }
    Ok(names)
}

// Adds the methods of the trait that the line begins, where it begins one.
fn put_methods(
    alloc: Global,
    tables: &mut List<Names>,
    line: &IdlLine,
    rest: &[Numbered<IdlLine>],
) -> Result<(), AllocError>
    requires { length rest.now < 2 ^ 32 }
    ensures { OnOk result (tables.new ≡ tables.old
        ++ role_tables (method_role line.now) (names_of (members method_role rest.now))) }
{
    match method_role(line) {
        Role::Opens => tables.push(methods_at_front(alloc, rest)?),
        _ => Ok(()),
    }
}

// The names of the methods of each trait. No line is looked at more than twice, since the lines of
// two traits are apart.
fn method_tables(alloc: Global, lines: &[Numbered<IdlLine>]) -> Result<List<Names>, AllocError>
    requires { length lines.now < 2 ^ 32 }
    ensures { IfOk result (λ tables. tables ≡ method_tables lines.now) }
{
    let mut tables = List::new(alloc);
    'lines: for (place, line) in lines.iter().enumerate() {
        put_methods(alloc, &mut tables, &line.form, &lines[place + 1..])?;
    }
    Ok(tables)
}
