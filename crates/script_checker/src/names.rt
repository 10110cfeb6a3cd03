//! Tables of the names of structs, traits and methods.
ghost use Rattle.std.specs.Prelude.{◌≡◌, ℕ, List, [], ◌∷◌, ◌++◌, map, OnOk, OnErr, IfOk};
ghost use Rattle.std.specs.List.{list_all};
ghost use Rattle.rl_defs.specs.declared.tables.Width.TheVariants as width;
ghost use Rattle.rl_defs.specs.Interfaces.{place_of};
ghost use Rattle.rl_defs.specs.NativeShapes.{is_number};

use name_tables::names::Names;
use rl_defs::list::List;
use rl_defs::name::Name;
use rl_defs::tables::{Kind, MethodRow, StructRow, TraitRow, Width};
use std::alloc::{AllocError, Global};

/// Adds a name, and gives the place where it stood before. It answers `AllocError` too where the
/// names are as many as can be numbered.
pub fn add(names: &mut Names, name: &Name) -> Result<Option<u32>, AllocError>
    ensures added { OnOk result (names.new ≡ names.old ++ name.now ∷ []) }
    ensures before { IfOk result (λ place. place ≡ place_of name.now names.old) }
    ensures full { OnErr result (names.new ≡ names.old) }
{
    if names.len() == u32::MAX {
        return Err(AllocError);
    }
    names.add(name)
}

/// The names of the structs.
pub fn struct_names(alloc: Global, structs: &[StructRow]) -> Result<Names, AllocError>
    ensures { IfOk result (λ names. names ≡ map (λ s. s.name) structs.now) }
{
    let mut names = Names::new(alloc);
    'each: for row in structs {
        add(&mut names, &row.name)?;
    }
    Ok(names)
}

/// The names of the traits.
pub fn trait_names(alloc: Global, traits: &[TraitRow]) -> Result<Names, AllocError>
    ensures { IfOk result (λ names. names ≡ map (λ t. t.name) traits.now) }
{
    let mut names = Names::new(alloc);
    'each: for row in traits {
        add(&mut names, &row.name)?;
    }
    Ok(names)
}

fn names_of_methods(alloc: Global, methods: &[MethodRow]) -> Result<Names, AllocError>
    ensures { IfOk result (λ names. names ≡ map (λ m. m.name) methods.now) }
{
    let mut names = Names::new(alloc);
    'each: for row in methods {
        add(&mut names, &row.name)?;
    }
    Ok(names)
}

/// The names of the methods of each trait.
pub fn method_names(alloc: Global, traits: &[TraitRow]) -> Result<List<Names>, AllocError>
    ensures { IfOk result (λ all. all ≡ map (λ t. map (λ m. m.name) t.methods) traits.now) }
{
    let mut all = List::new(alloc);
    'each: for row in traits {
        all.push(names_of_methods(alloc, row.methods.as_slice())?)?;
    }
    Ok(all)
}

// Whether the cell is a `u8`.
fn is_byte(cell: Kind) -> bool
    ensures { result ≡ is_number width.W8 cell }
{
    matches!(cell, Kind::Num(Width::W8))
}

/// Whether all cells are `u8`.
pub fn are_bytes(cells: &[Kind]) -> bool
    ensures { result ≡ list_all (is_number width.W8) cells.now }
{
    'each: for cell in cells {
        if !is_byte(*cell) {
            return false;
        }
    }
    true
}
