//! A domain that is checked, with look-ups of what it declares.
ghost use Rattle.std.specs.Prelude.{◌≡◌, ℕ, ◌^◌, ◌<◌, List, length, nat_eq, is_some, unwrap_or, IfOk};
ghost use Rattle.rl_defs.specs.Domains.{is_native};
ghost use Rattle.rl_defs.specs.CodeNames.{slots, imports, place_in, slot_struct, import_trait, domain_trait, has_words};
ghost use Rattle.domain_checker.specs.Numbering.{body_from};

use crate::declared::{
    Declarations, bodies_of_many, body_in, has_words, imports_of, is_native, slots_of, trait_of,
};
use crate::names::NameTable;
use crate::tables::NamedTables;
use rl_defs::bundle::Numbered;
use rl_defs::code::DomainLine;
use rl_defs::name::Name;
use std::alloc::{AllocError, Global};
use std::marker::Model;

/// The lines of a domain and the tables that its names are looked up in, with look-ups. Contracts
/// see the domain.
#[derive(Drop)]
pub struct Scope<'a> {
    tables: &'a NamedTables,
    lines: &'a [Numbered<DomainLine>],
    of: u32,
    slots: Declarations,
    imports: Declarations,
    // Only where more than a few functions are looked for.
    bodies: Option<NameTable>,
    words: bool,
    native: bool,
}

impl<'a> Model for Scope<'a> {
    ghost use Rattle.std.specs.Prelude.{nat_eq};
    ghost use Rattle.std.specs.Cmp.Lexicographic.{pointwise};
    ghost use Rattle.indexmap.specs.IndexMap.{get};
    ghost use Rattle.rl_defs.specs.DomainValue.{Domain};
    ghost use Rattle.domain_checker.specs.Scopes.{IsScope};

    ghost Value = { Domain };

    ghost view = { λ s. record { lines = s.lines.now; tables = s.tables.now } };

    ghost invariant = { λ s. IsScope (record { lines = s.lines.now; tables = s.tables.now })
        s.of (get (pointwise nat_eq) s.slots.places) s.slots.types
        (get (pointwise nat_eq) s.imports.places) s.imports.types
        (get (pointwise nat_eq)) s.bodies s.words s.native };
}

impl<'a> Scope<'a> {
    /// The domain of these lines and tables.
    pub fn new(
        alloc: Global,
        tables: &'a NamedTables,
        lines: &'a [Numbered<DomainLine>],
    ) -> Result<Scope<'a>, AllocError>
        requires { length lines.now < 2 ^ 31 }
        ensures { IfOk result (λ s. s ≡ record { lines = lines.now; tables = tables.now }) }
    {
        let slots = slots_of(alloc, tables, lines)?;
        let imports = imports_of(alloc, tables, lines)?;
        let of = trait_of(tables, lines);
        let bodies = bodies_of_many(alloc, lines, tables.methods(of).len())?;
        Ok(Scope {
            tables,
            lines,
            of,
            slots,
            imports,
            bodies,
            words: has_words(lines),
            native: is_native(lines),
        })
    }

    /// The tables that its names are looked up in.
    pub fn tables(&self) -> &'a NamedTables
        ensures { result.now ≡ self.now.tables }
    {
        self.tables
    }

    /// Its lines.
    pub fn lines(&self) -> &'a [Numbered<DomainLine>]
        ensures value { result.now ≡ self.now.lines }
        ensures short { length self.now.lines < 2 ^ 31 }
    {
        self.lines
    }

    /// The number of its trait.
    pub fn domain_trait(&self) -> u32
        ensures { result ≡ domain_trait self.now }
    {
        self.of
    }

    /// The number of a slot.
    pub fn slot(&self, name: &Name) -> Option<u32>
        ensures { result ≡ place_in name.now (slots self.now.lines) }
    {
        self.slots.places.get(name).copied()
    }

    /// The number of an import.
    pub fn import(&self, name: &Name) -> Option<u32>
        ensures { result ≡ place_in name.now (imports self.now.lines) }
    {
        self.imports.places.get(name).copied()
    }

    /// The number of the struct of a slot.
    pub fn slot_struct(&self, name: &Name) -> u32
        ensures { result ≡ slot_struct self.now name.now }
    {
        let none = self.tables.number_of_none();
        match self.slot(name) {
            Some(place) => self
                .slots
                .types
                .get(place as usize)
                .copied()
                .unwrap_or(none),
            None => none,
        }
    }

    /// The number of the trait of an import.
    pub fn import_trait(&self, name: &Name) -> u32
        ensures { result ≡ import_trait self.now name.now }
    {
        let none = self.tables.number_of_none();
        match self.import(name) {
            Some(place) => self
                .imports
                .types
                .get(place as usize)
                .copied()
                .unwrap_or(none),
            None => none,
        }
    }

    /// Where the body of the function of this name begins.
    pub fn body(&self, name: &Name) -> Option<u32>
        ensures { result ≡ body_from name.now self.now.lines 0 }
    {
        match &self.bodies {
            Some(bodies) => bodies.get(name).copied(),
            None => body_in(self.lines, name),
        }
    }

    /// Whether it has a `words` line.
    pub fn has_words(&self) -> bool
        ensures { result ≡ has_words self.now.lines }
    {
        self.words
    }

    /// Whether it has a native body.
    pub fn is_native(&self) -> bool
        ensures { result ≡ is_native self.now.lines }
    {
        self.native
    }
}
