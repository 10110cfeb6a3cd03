//! An interface part with look-ups of its names.
ghost use Rattle.std.specs.Prelude.{◌≡◌, ℕ, ◌^◌, ◌<◌, List, Some, length, nat_eq, OnOk, IfOk, slice_get};
ghost use Rattle.std.specs.Cmp.Lexicographic.{pointwise};
ghost use Rattle.indexmap.specs.IndexMap.{get, IsEmpty, Updates};
ghost use Rattle.rl_defs.specs.Interfaces.{place_of, struct_name, trait_name, struct_names, trait_names, struct_number, trait_number};
ghost use Rattle.exchangeable_types.specs.Numbering.{noted, starts_from};

use indexmap::IndexMap;
use rl_defs::bundle::Numbered;
use rl_defs::idl::IdlLine;
use rl_defs::list::List;
use rl_defs::name::Name;
use std::alloc::{AllocError, Global};

/// Numbers by names.
pub type NameTable = IndexMap<Name, u32>;

/// The lines of an interface part, with the numbers of its structs and traits by their names, and
/// the places where structs begin.
#[derive(Drop)]
pub struct Part<'a> {
    pub lines: &'a [Numbered<IdlLine>],
    structs: NameTable,
    traits: NameTable,
    pub starts: List<u32>,
    ghost few: { length lines.now < 2 ^ 32 },
    ghost by_struct: { (q : List ℕ) → get (pointwise nat_eq) structs q ≡ place_of q (struct_names lines.now) },
    ghost by_trait: { (q : List ℕ) → get (pointwise nat_eq) traits q ≡ place_of q (trait_names lines.now) },
    ghost begins: { starts ≡ starts_from 0 lines.now },
}

impl<'a> Part<'a> {
    /// The part of these lines.
    pub fn new(alloc: Global, lines: &'a [Numbered<IdlLine>]) -> Result<Part<'a>, AllocError>
        requires { length lines.now < 2 ^ 32 }
        ensures { IfOk result (λ part. part.lines.now ≡ lines.now) }
    {
        let starts = starts_of(alloc, lines)?;
        let structs = structs_by_name(alloc, lines, starts.len())?;
        let traits = traits_by_name(alloc, lines)?;
        Ok(Part {
            lines,
            structs,
            traits,
            starts,
        })
    }

    /// The number of the struct of this name, from 0 in the order of the text.
    pub fn struct_number(&self, name: &Name) -> u32
        ensures { result ≡ struct_number self.now.lines.now name.now }
    {
        self.structs.get(name).copied().unwrap_or(0)
    }

    /// The number of the trait of this name, from 0 in the order of the text.
    pub fn trait_number(&self, name: &Name) -> u32
        ensures { result ≡ trait_number self.now.lines.now name.now }
    {
        self.traits.get(name).copied().unwrap_or(0)
    }
}

/// The name that a line declares for a struct.
pub fn struct_name(line: &IdlLine) -> Option<Name>
    ensures { result ≡ struct_name line.now }
{
    match line {
        IdlLine::Struct(name) => Some(*name),
        _ => None,
    }
}

/// The name that a line declares for a trait.
pub fn trait_name(line: &IdlLine) -> Option<Name>
    ensures { result ≡ trait_name line.now }
{
    match line {
        IdlLine::Trait(name) => Some(*name),
        _ => None,
    }
}

// Gives a name that is there another number.
fn put_back(table: &mut NameTable, name: &Name, number: u32) -> Result<(), AllocError>
    ensures { OnOk result (Updates (pointwise nat_eq) table.old table.new name.now (Some number)) }
{
    table.insert(*name, number)?;
    Ok(())
}

// Notes a name with its number, unless it is there. Most names are new, so it is put first, and put
// back where it was there.
fn note(table: &mut NameTable, name: &Name, number: u32) -> Result<(), AllocError>
    ensures { let before = get (pointwise nat_eq) table.old in let after = get (pointwise nat_eq) table.new in
        OnOk result ((q : List ℕ) → after q ≡ noted before name.now number q) }
{
    match table.insert(*name, number)? {
        None => Ok(()),
        Some(earlier) => put_back(table, name, earlier),
    }
}

// A table with room for so many names.
fn table_for(alloc: Global, names: usize) -> Result<NameTable, AllocError>
    ensures { IfOk result IsEmpty }
{
    IndexMap::with_capacity(alloc, names)
}

// The table has room for so many structs at once.
fn structs_by_name(
    alloc: Global,
    lines: &[Numbered<IdlLine>],
    structs: usize,
) -> Result<NameTable, AllocError>
    requires { length lines.now < 2 ^ 32 }
    ensures { IfOk result (λ t. (q : List ℕ) → get (pointwise nat_eq) t q ≡ place_of q (struct_names lines.now)) }
{
    let mut table = table_for(alloc, structs)?;
    let mut count = 0u32;
    'lines: for line in lines {
        if let Some(name) = struct_name(&line.form) {
            note(&mut table, &name, count)?;
            count += 1;
        }
    }
    Ok(table)
}

fn traits_by_name(alloc: Global, lines: &[Numbered<IdlLine>]) -> Result<NameTable, AllocError>
    requires { length lines.now < 2 ^ 32 }
    ensures { IfOk result (λ t. (q : List ℕ) → get (pointwise nat_eq) t q ≡ place_of q (trait_names lines.now)) }
{
    let mut table = IndexMap::new(alloc);
    let mut count = 0u32;
    'lines: for line in lines {
        if let Some(name) = trait_name(&line.form) {
            note(&mut table, &name, count)?;
            count += 1;
        }
    }
    Ok(table)
}

fn starts_of(alloc: Global, lines: &[Numbered<IdlLine>]) -> Result<List<u32>, AllocError>
    requires { length lines.now < 2 ^ 32 }
    ensures { IfOk result (λ starts. starts ≡ starts_from 0 lines.now) }
{
    let mut starts = List::new(alloc);
    'lines: for (k, line) in lines.iter().enumerate() {
        if let IdlLine::Struct(_) = &line.form {
            starts.push(k as u32)?;
        }
    }
    Ok(starts)
}
