//! What the parameters and results of a method flatten to, up to a limit.
ghost use Rattle.std.specs.Prelude.{◌≡◌, ℕ, ◌∷◌, ◌++◌, [], ◌≤◌, List as Items, length, IfOk};
ghost use Rattle.rl_defs.specs.declared.idl.TypeText.{TypeText as Written};
ghost use Rattle.rl_defs.specs.Interfaces.{types_at, param_types};
ghost use Rattle.rl_defs.specs.Flattening.{Flattens};
ghost use Rattle.proxy_tables.specs.Rules.{KnowsRows};
ghost use Rattle.exchangeable_types.specs.Capped.{CellsOf};

use exchangeable_types::{Cells, Part, kind_held, put, struct_held, times};
use rl_defs::idl::{Param, TypeText};
use rl_defs::list::List;
use rl_defs::tables::{Kind, StructRow};
use std::alloc::{AllocError, Global};

/// The cells with those of one type more behind them, up to a limit.
pub fn put_type(
    part: &Part,
    structs: &List<StructRow>,
    limit: usize,
    cells: Cells,
    ty: &TypeText,
) -> Result<Cells, AllocError>
    requires rows { KnowsRows part.now.lines.now structs.now }
    requires low { limit ≤ 512 }
    ensures { IfOk result (λ more. (passed : Items Written) → CellsOf part.now.lines.now limit passed cells
        → CellsOf part.now.lines.now limit (passed ++ ty.now ∷ []) more) }
{
    let times = times(ty.wraps.as_slice());
    if let Some(held) = struct_held(part, ty) {
        return put(limit, cells, row_flat(part, structs, held), times);
    }
    match kind_held(part, ty) {
        Some(kind) => put(limit, cells, &[kind], times),
        None => Ok(cells),
    }
}

/// What the fields of a struct flatten to. A struct that isn't there has no fields.
pub fn row_flat<'a>(part: &Part, structs: &'a List<StructRow>, held: u32) -> &'a [Kind]
    requires { KnowsRows part.now.lines.now structs.now }
    ensures flat { Flattens part.now.lines.now (types_at part.now.lines.now held) result.now }
    ensures few { length result.now ≤ 512 }
{
    let _ = part;
    match structs.get(held as usize) {
        Some(row) => row.flat.as_slice(),
        None => &[],
    }
}

/// What types flatten to, up to a limit.
pub fn put_types(
    alloc: Global,
    part: &Part,
    structs: &List<StructRow>,
    limit: usize,
    types: &[TypeText],
) -> Result<Cells, AllocError>
    requires rows { KnowsRows part.now.lines.now structs.now }
    requires low { limit ≤ 512 }
    ensures { IfOk result (CellsOf part.now.lines.now limit types.now) }
{
    let mut cells = Cells::Few(List::new(alloc));
    'types: for ty in types {
        cells = put_type(part, structs, limit, cells, ty)?;
    }
    Ok(cells)
}

/// What the types of parameters flatten to, up to a limit.
pub fn put_params(
    alloc: Global,
    part: &Part,
    structs: &List<StructRow>,
    limit: usize,
    params: &[Param],
) -> Result<Cells, AllocError>
    requires rows { KnowsRows part.now.lines.now structs.now }
    requires low { limit ≤ 512 }
    ensures { IfOk result (CellsOf part.now.lines.now limit (param_types params.now)) }
{
    let mut cells = Cells::Few(List::new(alloc));
    'params: for param in params {
        cells = put_type(part, structs, limit, cells, &param.ty)?;
    }
    Ok(cells)
}
