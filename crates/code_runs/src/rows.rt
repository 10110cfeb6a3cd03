//! The rows of the tables that a domain names.
ghost use Rattle.std.specs.Prelude.{◌≡◌, map, slice_get};
ghost use Rattle.std.specs.Option.{option_copied};
ghost use Rattle.rl_defs.specs.Interfaces.{place_of};
ghost use Rattle.rl_defs.specs.CodeNames.{struct_number, trait_number, method_number, methods_of, results_of, cells_of, domain_trait};

use rl_defs::checked::CheckedDomain;
use rl_defs::name::Name;
use rl_defs::tables::{Kind, MethodRow, StructRow, Tables, TraitRow};

/// A row that has a name.
pub trait Named {
    ghost use Rattle.std.specs.Prelude.{ℕ, List};

    ghost name_of: { Self → List ℕ };

    /// The name.
    fn name(&self) -> &Name
        ensures { result.now ≡ name_of self.now };
}

impl Named for StructRow {
    ghost name_of = { λ row. row.name };

    fn name(&self) -> &Name {
        &self.name
    }
}

impl Named for TraitRow {
    ghost name_of = { λ row. row.name };

    fn name(&self) -> &Name {
        &self.name
    }
}

impl Named for MethodRow {
    ghost name_of = { λ row. row.name };

    fn name(&self) -> &Name {
        &self.name
    }
}

/// The place of the first row with a name. None exactly where no row has it.
pub fn place_of<T: Named>(rows: &[T], name: &[u8]) -> Option<usize>
    ensures { result ≡ place_of name.now (map T.name_of rows.now) }
{
    'rows: for place in 0..rows.len() {
        if rows[place].name().bytes() == name {
            return Some(place);
        }
    }
    None
}

/// The number of the struct of a name, and 0 where there is none.
pub fn struct_number(domain: &CheckedDomain, name: &[u8]) -> u32
    ensures { result ≡ struct_number domain.now.tables name.now }
{
    // Its contract says that the tables are small.
    let _ = domain.lines();
    match place_of(domain.tables().structs.as_slice(), name) {
        Some(place) => place as u32,
        None => 0,
    }
}

/// The number of the trait of a name, and 0 where there is none.
pub fn trait_number(domain: &CheckedDomain, name: &[u8]) -> u32
    ensures { result ≡ trait_number domain.now.tables name.now }
{
    // Its contract says that the tables are small.
    let _ = domain.lines();
    match place_of(domain.tables().traits.as_slice(), name) {
        Some(place) => place as u32,
        None => 0,
    }
}

/// The kinds of a struct's cells, by its number. None where there is no such struct.
pub fn cells_of(tables: &Tables, of: u32) -> &[Kind]
    ensures { result.now ≡ cells_of tables.now of }
{
    match tables.structs.get(of as usize) {
        Some(row) => row.flat.as_slice(),
        None => &[],
    }
}

/// The methods of a trait, by its number. None where there is no such trait.
pub fn methods_of(tables: &Tables, of: u32) -> &[MethodRow]
    ensures { result.now ≡ methods_of tables.now of }
{
    match tables.traits.get(of as usize) {
        Some(row) => row.methods.as_slice(),
        None => &[],
    }
}

/// The kinds of the results of a trait's method, by their numbers. None where there is no such
/// method.
pub fn results_of(tables: &Tables, of: u32, number: u32) -> &[Kind]
    ensures { result.now ≡ results_of (slice_get (methods_of tables.now of) number) }
{
    match methods_of(tables, of).get(number as usize) {
        Some(row) => row.results.as_slice(),
        None => &[],
    }
}
