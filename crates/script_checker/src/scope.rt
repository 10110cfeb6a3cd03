//! A bundle and its tables, with look-ups of what scripts name.
ghost use Rattle.std.specs.Prelude.{◌≡◌, IfOk, slice_get};
ghost use Rattle.std.specs.List.{list_all};
ghost use Rattle.std.specs.Option.{option_copied};
ghost use Rattle.rl_defs.specs.declared.tables.Width.TheVariants as width;
ghost use Rattle.rl_defs.specs.NativeShapes.{is_number};
ghost use Rattle.rl_defs.specs.CodeNames.{struct_number, cells_of, methods_of, method_number, method_named};
ghost use Rattle.rl_defs.specs.ScriptRules.{target_trait};
ghost use Rattle.rl_defs.specs.LoadOf.{target_number};
ghost use Rattle.script_checker.specs.Scopes.{without_interfaces};

use crate::names::{are_bytes, method_names, struct_names, trait_names};
use crate::targets::{Targets, loads_of, shadows_of};
use name_tables::names::Names;
use rl_defs::bundle::{ClientLine, Clients, Numbered, Plan};
use rl_defs::checked::CheckedDomain;
use rl_defs::list::List;
use rl_defs::name::Name;
use rl_defs::tables::{Kind, MethodRow, Tables};
use std::alloc::{AllocError, Global};
use std::marker::Model;

/// A bundle and its tables, with look-ups of its structs, methods and targets. Contracts see the
/// tables and the bundle.
#[derive(Drop)]
pub struct Scope<'a> {
    tables: &'a Tables,
    domains: &'a List<CheckedDomain>,
    plan: &'a Plan,
    clients: &'a Clients,
    structs: Names,
    methods: List<Names>,
    loads: Targets,
    shadows: Targets,
}

impl<'a> Model for Scope<'a> {
    ghost use Rattle.script_checker.specs.Scopes.{Scoped, IsScope, without_interfaces};

    ghost Value = { Scoped };

    ghost view = { λ s. record {
      tables = s.tables.now;
      bundle = without_interfaces s.domains.now s.plan.now s.clients.now;
    } };

    ghost invariant = { λ s. IsScope (record {
      tables = s.tables.now;
      bundle = without_interfaces s.domains.now s.plan.now s.clients.now;
    }) s.structs s.methods s.loads.names s.loads.traits s.shadows.names s.shadows.traits };
}

fn method_at(tables: &Tables, of: u32, number: u32) -> Option<&MethodRow>
    ensures { option_copied result ≡ slice_get (methods_of tables.now of) number }
{
    match tables.traits.get(of as usize) {
        Some(row) => row.methods.get(number as usize),
        None => None,
    }
}

impl<'a> Scope<'a> {
    /// These tables and these parts of a bundle. It answers `AllocError` too where the targets are
    /// more than can be numbered.
    pub fn new(
        alloc: Global,
        tables: &'a Tables,
        domains: &'a List<CheckedDomain>,
        plan: &'a Plan,
        clients: &'a Clients,
    ) -> Result<Scope<'a>, AllocError>
        ensures { IfOk result (λ s. s ≡ record {
          tables = tables.now;
          bundle = without_interfaces domains.now plan.now clients.now;
        }) }
    {
        let traits = trait_names(alloc, tables.traits.as_slice())?;
        let structs = struct_names(alloc, tables.structs.as_slice())?;
        let methods = method_names(alloc, tables.traits.as_slice())?;
        let loads = loads_of(alloc, &traits, domains, plan)?;
        let shadows = shadows_of(alloc, &loads, plan)?;
        if loads.names.len() > u32::MAX - shadows.names.len() {
            return Err(AllocError);
        }
        Ok(Scope {
            tables,
            domains,
            plan,
            clients,
            structs,
            methods,
            loads,
            shadows,
        })
    }

    /// The lines of the clients.
    pub fn lines(&self) -> &'a [Numbered<ClientLine>]
        ensures { result.now ≡ self.now.bundle.clients.lines }
    {
        let _ = self.domains;
        let _ = self.plan;
        self.clients.lines.as_slice()
    }

    /// The number of the struct of this name. It is 0 where there is none.
    pub fn struct_number(&self, name: &Name) -> u32
        ensures { result ≡ struct_number self.now.tables name.now }
    {
        self.structs.place(name).unwrap_or(0)
    }

    /// The cells of a struct.
    pub fn cells(&self, s: u32) -> &[Kind]
        ensures { result.now ≡ cells_of self.now.tables s }
    {
        match self.tables.structs.get(s as usize) {
            Some(row) => row.flat.as_slice(),
            None => &[],
        }
    }

    /// Whether all cells of a struct are `u8`.
    pub fn is_of_bytes(&self, s: u32) -> bool
        ensures { result ≡ list_all (is_number width.W8) (cells_of self.now.tables s) }
    {
        are_bytes(self.cells(s))
    }

    /// The number of the trait of a target. It is 0 where there is no such target.
    pub fn target_trait(&self, name: &Name) -> u32
        ensures { result ≡ target_trait self.now.tables self.now.bundle name.now }
    {
        match self.loads.names.place(name) {
            Some(place) => self.loads.trait_at(place),
            None => self.shadows.trait_of(name),
        }
    }

    /// The number of a target, from 1: first the loads, then the shadows. It is 0 where there is no
    /// such target.
    pub fn target_number(&self, name: &Name) -> u32
        ensures { result ≡ target_number self.now.bundle name.now }
    {
        match self.loads.names.place(name) {
            Some(load) => load + 1,
            None => match self.shadows.names.place(name) {
                Some(shadow) => self.loads.names.len() + shadow + 1,
                None => 0,
            },
        }
    }

    /// The number of the method of this name of a trait.
    pub fn method_number(&self, of: u32, name: &Name) -> Option<u32>
        ensures { result ≡ method_number self.now.tables of name.now }
    {
        match self.methods.get(of as usize) {
            Some(names) => names.place(name),
            None => None,
        }
    }

    /// The method of this name of a trait.
    pub fn method_named(&self, of: u32, name: &Name) -> Option<&MethodRow>
        ensures { option_copied result ≡ method_named self.now.tables of name.now }
    {
        match self.method_number(of, name) {
            Some(number) => method_at(self.tables, of, number),
            None => None,
        }
    }
}
