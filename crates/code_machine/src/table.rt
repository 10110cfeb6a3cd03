//! The rows of the tables that instructions name.
ghost use Rattle.std.specs.Prelude.{◌≡◌, slice_get};
ghost use Rattle.std.specs.Option.{option_copied};
ghost use Rattle.rl_defs.specs.CodeNames.{methods_of, params_of, results_of, cells_of};
ghost use Rattle.machine_defs.specs.Instructions.{cell_kind};

use rl_defs::tables::{Kind, MethodRow, Tables, Width};

// The method of a trait, by their numbers.
fn method(tables: &Tables, of: u32, number: u32) -> Option<&MethodRow>
    ensures { option_copied result ≡ slice_get (methods_of tables.now of) number }
{
    tables.traits.get(of as usize)?.methods.get(number as usize)
}

/// The kinds of the parameters of a trait's method, by their numbers. None where there is no such
/// method.
pub fn params(tables: &Tables, of: u32, number: u32) -> &[Kind]
    ensures { result.now ≡ params_of (slice_get (methods_of tables.now of) number) }
{
    match method(tables, of, number) {
        Some(row) => row.params.as_slice(),
        None => &[],
    }
}

/// The kinds of the results of a trait's method, by their numbers. None where there is no such
/// method.
pub fn results(tables: &Tables, of: u32, number: u32) -> &[Kind]
    ensures { result.now ≡ results_of (slice_get (methods_of tables.now of) number) }
{
    match method(tables, of, number) {
        Some(row) => row.results.as_slice(),
        None => &[],
    }
}

/// The kind of a struct's cell.
pub fn cell_kind(tables: &Tables, of: u32, at: u64) -> Kind
    ensures { result ≡ cell_kind tables.now of at }
{
    match cell(tables, of, at) {
        Some(kind) => kind,
        None => Kind::Num(Width::W64),
    }
}

fn cell(tables: &Tables, of: u32, at: u64) -> Option<Kind>
    ensures { result ≡ slice_get (cells_of tables.now of) at }
{
    tables
        .structs
        .get(of as usize)?
        .flat
        .get(at as usize)
        .copied()
}
