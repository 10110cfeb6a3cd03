//! Interfaces as rows: structs as the kinds of their cells, and traits as the kinds of their
//! methods.
ghost use Rattle.std.specs.Prelude.{◌≡◌, IfOk};

use crate::list::List;
use crate::name::Name;
use std::alloc::{AllocError, Global};
use std::marker::Model;
use std::sync::Arc;

/// The width of a number. `Bool` holds 0 and 1.
#[derive(Clone, Copy, Debug, PartialEq, Eq)]
pub enum Width {
    Bool,
    W8,
    W16,
    W32,
    W64,
}

/// The kind of a cell, a parameter or a result.
#[derive(Clone, Copy, Debug, PartialEq, Eq)]
pub enum Kind {
    Num(Width),
    /// `RRef` of the struct with this number: an object that passes along.
    Own(u32),
    /// `&RRef` of the struct with this number: an object that is lent.
    Lent(u32),
    /// `&dyn` of the trait with this number.
    Cap(u32),
}

/// A struct: its name, and the kinds that its fields flatten to, in order.
#[derive(Debug, Drop)]
pub struct StructRow {
    pub name: Name,
    pub flat: List<Kind>,
}

/// A method of a trait: the kinds that its parameters and results flatten to.
#[derive(Debug, Drop)]
pub struct MethodRow {
    pub name: Name,
    /// Whether a call of it that was cut off may be issued again.
    pub idempotent: bool,
    pub params: List<Kind>,
    pub results: List<Kind>,
}

/// A trait: its methods, numbered from 0 in the order of the text.
#[derive(Debug, Drop)]
pub struct TraitRow {
    pub name: Name,
    pub methods: List<MethodRow>,
}

/// The structs and traits of a bundle, each numbered from 0 in the order of the text.
#[derive(Debug, Drop)]
pub struct Tables {
    pub structs: List<StructRow>,
    pub traits: List<TraitRow>,
}

/// Tables that a load and its domains share. Contracts see the tables.
#[derive(Debug, Drop)]
pub struct SharedTables {
    tables: Arc<Tables, Global>,
}

impl Model for SharedTables {
    ghost use Rattle.rl_defs.specs.declared.tables.Tables.{Tables as Shared};

    ghost Value = { Shared };

    ghost view = { λ t. t.tables.value };
}

impl SharedTables {
    /// These tables, for one owner.
    pub fn new(alloc: Global, tables: Tables) -> Result<SharedTables, AllocError>
        ensures { IfOk result (λ t. t ≡ tables) }
    {
        let tables = Arc::new(alloc, tables)?;
        Ok(SharedTables { tables })
    }

    /// The same tables, for one owner more. `AllocError` where there are as many owners as can be
    /// counted.
    pub fn share(&self) -> Result<SharedTables, AllocError>
        ensures { IfOk result (λ t. t ≡ self.now) }
    {
        let tables = self.tables.clone()?;
        Ok(SharedTables { tables })
    }

    /// The tables.
    pub fn get(&self) -> &Tables
        ensures { result.now ≡ self.now }
    {
        &self.tables
    }
}
