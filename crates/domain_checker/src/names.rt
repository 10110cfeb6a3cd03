//! Numbers by names.
ghost use Rattle.std.specs.Prelude.{◌≡◌, ℕ, ◌^◌, ◌<◌, ◌≤◌, List, [], None, Some, map, length, drop, nat_eq, IsTrue, OnOk, IfOk};
ghost use Rattle.std.specs.Cmp.Lexicographic.{pointwise};
ghost use Rattle.indexmap.specs.IndexMap.{get, Updates};
ghost use Rattle.rl_defs.specs.Words.{is_name};
ghost use Rattle.rl_defs.specs.Interfaces.{place_of};
ghost use Rattle.domain_checker.specs.Numbering.{noted};

use indexmap::IndexMap;
use rl_defs::name::Name;
use rl_defs::tables::{MethodRow, StructRow, TraitRow};
use std::alloc::{AllocError, Global};

/// Numbers by names.
pub type NameTable = IndexMap<Name, u32>;

// Gives a name that is there another number.
fn put_back(table: &mut NameTable, name: &Name, number: u32) -> Result<(), AllocError>
    ensures { OnOk result (Updates (pointwise nat_eq) table.old table.new name.now (Some number)) }
{
    table.insert(*name, number)?;
    Ok(())
}

/// Notes a name with its number, unless it is there. Most names are new, so it is put first, and
/// put back where it was there.
pub fn note(table: &mut NameTable, name: &Name, number: u32) -> Result<(), AllocError>
    ensures noted { let before = get (pointwise nat_eq) table.old in let after = get (pointwise nat_eq) table.new in
        OnOk result ((q : List ℕ) → after q ≡ noted before name.now number q) }
{
    match table.insert(*name, number)? {
        None => Ok(()),
        Some(earlier) => put_back(table, name, earlier),
    }
}

// The same of a name that isn't empty.
fn note_named(table: &mut NameTable, name: &Name, number: u32) -> Result<(), AllocError>
    ensures noted { let before = get (pointwise nat_eq) table.old in let after = get (pointwise nat_eq) table.new in
        OnOk result ((q : List ℕ) → after q ≡ noted before name.now number q) }
    ensures named { IsTrue (is_name name.now) }
{
    let _ = name.bytes();
    note(table, name, number)
}

/// The structs by their names. No name is empty.
pub fn structs_by_name(alloc: Global, structs: &[StructRow]) -> Result<NameTable, AllocError>
    requires { length structs.now < 2 ^ 32 }
    ensures found { let names = map (λ s. s.name) structs.now in
        IfOk result (λ t. (q : List ℕ) → get (pointwise nat_eq) t q ≡ place_of q names) }
    ensures named { IfOk result (λ _. place_of [] (map (λ s. s.name) structs.now) ≡ None) }
{
    let mut table = IndexMap::new(alloc);
    'structs: for (number, row) in structs.iter().enumerate() {
        note_named(&mut table, &row.name, number as u32)?;
    }
    Ok(table)
}

/// The traits by their names. No name is empty.
pub fn traits_by_name(alloc: Global, traits: &[TraitRow]) -> Result<NameTable, AllocError>
    requires { length traits.now < 2 ^ 32 }
    ensures found { let names = map (λ s. s.name) traits.now in
        IfOk result (λ t. (q : List ℕ) → get (pointwise nat_eq) t q ≡ place_of q names) }
    ensures named { IfOk result (λ _. place_of [] (map (λ s. s.name) traits.now) ≡ None) }
{
    let mut table = IndexMap::new(alloc);
    'traits: for (number, row) in traits.iter().enumerate() {
        note_named(&mut table, &row.name, number as u32)?;
    }
    Ok(table)
}

/// The methods of a trait by their names.
pub fn methods_by_name(alloc: Global, methods: &[MethodRow]) -> Result<NameTable, AllocError>
    requires { length methods.now < 2 ^ 32 }
    ensures { let names = map (λ m. m.name) methods.now in
        IfOk result (λ t. (q : List ℕ) → get (pointwise nat_eq) t q ≡ place_of q names) }
{
    let mut table = IndexMap::new(alloc);
    'methods: for (number, row) in methods.iter().enumerate() {
        note(&mut table, &row.name, number as u32)?;
    }
    Ok(table)
}
