//! Tables with look-ups of their names.
ghost use Rattle.std.specs.Prelude.{◌≡◌, ℕ, ◌^◌, ◌<◌, ◌≤◌, List, [], ◌∷◌, ◌++◌, Some, length, slice_get, nat_eq, OnOk, IfOk, IfSome, All};
ghost use Rattle.std.specs.Option.{option_copied};
ghost use Rattle.std.specs.Cmp.Lexicographic.{pointwise};
ghost use Rattle.indexmap.specs.IndexMap.{get};
ghost use Rattle.rl_defs.specs.declared.tables.TraitRow.{TraitRow as Row};
ghost use Rattle.rl_defs.specs.CodeNames.{struct_number, trait_number, cells_of, methods_of, method_number, row_at, method_named};
ghost use Rattle.rl_defs.specs.TableSizes.{AreTablesSmall, IsMethodSmall};
ghost use Rattle.domain_checker.specs.Numbering.{AreLooks};

use crate::names::{NameTable, methods_by_name, structs_by_name, traits_by_name};
use rl_defs::name::Name;
use rl_defs::tables::{Kind, MethodRow, SharedTables, TraitRow};
use std::alloc::{AllocError, Global};
use std::marker::Model;

/// Tables, with look-ups of their structs, traits and methods. Contracts see the tables.
#[derive(Drop)]
pub struct NamedTables {
    tables: SharedTables,
    structs: NameTable,
    traits: NameTable,
    methods: Vec<NameTable>,
}

impl Model for NamedTables {
    ghost use Rattle.std.specs.Prelude.{nat_eq, slice_get};
    ghost use Rattle.std.specs.Cmp.Lexicographic.{pointwise};
    ghost use Rattle.indexmap.specs.IndexMap.{get};
    ghost use Rattle.rl_defs.specs.declared.tables.Tables.{Tables as Seen};
    ghost use Rattle.domain_checker.specs.Numbering.{look_in, AreLookUps};

    ghost Value = { Seen };

    ghost view = { λ n. n.tables };

    ghost invariant = { λ n. AreLookUps n.tables
        (get (pointwise nat_eq) n.structs) (get (pointwise nat_eq) n.traits)
        (λ t. look_in (get (pointwise nat_eq)) (slice_get n.methods.items t)) };
}

fn push(all: &mut Vec<NameTable>, table: NameTable) -> Result<(), AllocError>
    ensures { OnOk result (all.new.items ≡ all.old.items ++ table ∷ []) }
{
    all.push(table)?;
    Ok(())
}

// The methods of each trait by their names.
fn methods_of_traits(alloc: Global, traits: &[TraitRow]) -> Result<Vec<NameTable>, AllocError>
    requires { (t : ℕ) (row : Row) → slice_get traits.now t ≡ Some row → length row.methods < 2 ^ 32 }
    ensures { IfOk result (λ all. AreLooks (get (pointwise nat_eq)) all.items traits.now) }
{
    let mut all = Vec::new(alloc);
    'traits: for row in traits {
        let table = methods_by_name(alloc, row.methods.as_slice())?;
        push(&mut all, table)?;
    }
    Ok(all)
}

impl NamedTables {
    /// These tables, with their look-ups.
    pub fn new(alloc: Global, tables: SharedTables) -> Result<NamedTables, AllocError>
        requires { AreTablesSmall tables }
        ensures { IfOk result (λ n. n ≡ tables) }
    {
        let rows = tables.get();
        let structs = structs_by_name(alloc, rows.structs.as_slice())?;
        let traits = traits_by_name(alloc, rows.traits.as_slice())?;
        let methods = methods_of_traits(alloc, rows.traits.as_slice())?;
        Ok(NamedTables {
            tables,
            structs,
            traits,
            methods,
        })
    }

    /// The same tables, for one owner more.
    pub fn share(&self) -> Result<SharedTables, AllocError>
        ensures shared { IfOk result (λ t. t ≡ self.now) }
        ensures small { AreTablesSmall self.now }
    {
        self.tables.share()
    }

    /// The number of the struct of this name. It is 0 where there is none.
    pub fn struct_number(&self, name: &Name) -> u32
        ensures { result ≡ struct_number self.now name.now }
    {
        self.structs.get(name).copied().unwrap_or(0)
    }

    /// The number of the trait of this name. It is 0 where there is none.
    pub fn trait_number(&self, name: &Name) -> u32
        ensures { result ≡ trait_number self.now name.now }
    {
        self.traits.get(name).copied().unwrap_or(0)
    }

    /// The number of the struct, and that of the trait, of what isn't declared, which has no name.
    pub fn number_of_none(&self) -> u32
        ensures structs { result ≡ struct_number self.now [] }
        ensures traits { result ≡ trait_number self.now [] }
    {
        let _ = &self.structs;
        0
    }

    /// The cells of a struct.
    pub fn cells(&self, s: u32) -> &[Kind]
        ensures { result.now ≡ cells_of self.now s }
    {
        match self.tables.get().structs.get(s as usize) {
            Some(row) => row.flat.as_slice(),
            None => &[],
        }
    }

    /// The methods of a trait.
    pub fn methods(&self, t: u32) -> &[MethodRow]
        ensures value { result.now ≡ methods_of self.now t }
        ensures small { All IsMethodSmall result.now }
    {
        match self.tables.get().traits.get(t as usize) {
            Some(row) => row.methods.as_slice(),
            None => &[],
        }
    }

    /// The number of the method of this name of a trait.
    pub fn method_number(&self, t: u32, name: &Name) -> Option<u32>
        ensures { result ≡ method_number self.now t name.now }
    {
        match self.methods.get(t as usize) {
            Some(table) => table.get(name).copied(),
            None => None,
        }
    }

    /// The method of a trait with this number. There is none where there is no number.
    pub fn method_numbered(&self, t: u32, number: Option<u32>) -> Option<&MethodRow>
        ensures value { option_copied result ≡ row_at (methods_of self.now t) number }
        ensures small { IfSome result (λ m. IsMethodSmall m.now) }
    {
        match number {
            Some(number) => self.methods(t).get(number as usize),
            None => None,
        }
    }

    /// The method of this name of a trait.
    pub fn method_named(&self, t: u32, name: &Name) -> Option<&MethodRow>
        ensures value { option_copied result ≡ method_named self.now t name.now }
        ensures small { IfSome result (λ m. IsMethodSmall m.now) }
    {
        self.method_numbered(t, self.method_number(t, name))
    }
}
