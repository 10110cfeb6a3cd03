//! The rules of one method.
ghost use Rattle.std.specs.Prelude.{◌≡◌, ◌∷◌, [], IfOk};
ghost use Rattle.std.specs.List.{list_any};
ghost use Rattle.rl_defs.specs.Interfaces.{param_types};
ghost use Rattle.rl_defs.specs.TypeRules.{is_lent};
ghost use Rattle.rl_defs.specs.MethodRules.{is_rpc};
ghost use Rattle.proxy_tables.specs.Rules.{KnowsRows, Moves, IsLowest, IsExceeding, IsMovedAgain, is_own, is_many};

use crate::flat::{put_params, put_types, row_flat};
use exchangeable_types::{Cells, Part, is_lent, kind_held, result_types, struct_held, times};
use rl_defs::idl::{Param, ResultText, TypeText};
use rl_defs::list::List;
use rl_defs::tables::{Kind, StructRow};
use std::alloc::{AllocError, Global};

fn is_rpc(outcome: &ResultText) -> bool
    ensures { result ≡ is_rpc outcome.now }
{
    matches!(outcome, ResultText::Rpc(_))
}

fn lends(types: &[TypeText]) -> bool
    ensures { result ≡ list_any (λ ty. is_lent ty.base) types.now }
{
    types.iter().any(|ty| is_lent(&ty.base))
}

fn is_own(kind: &Kind) -> bool
    ensures { result ≡ is_own kind.now }
{
    matches!(kind, Kind::Own(_))
}

fn has_own(kinds: &[Kind]) -> bool
    ensures { result ≡ list_any is_own kinds.now }
{
    kinds.iter().any(|kind| is_own(kind))
}

// Whether one of the kinds that a type flattens to is an `RRef`.
fn moves_type(part: &Part, structs: &List<StructRow>, ty: &TypeText) -> bool
    requires { KnowsRows part.now.lines.now structs.now }
    ensures { Moves part.now.lines.now (ty.now ∷ []) result }
{
    if times(ty.wraps.as_slice()) == 0 {
        return false;
    }
    if let Some(held) = struct_held(part, ty) {
        return has_own(row_flat(part, structs, held));
    }
    match kind_held(part, ty) {
        Some(kind) => is_own(&kind),
        None => false,
    }
}

// Whether one of the kinds that the parameters flatten to is an `RRef`.
fn moves(part: &Part, structs: &List<StructRow>, params: &[Param]) -> bool
    requires { KnowsRows part.now.lines.now structs.now }
    ensures { Moves part.now.lines.now (param_types params.now) result }
{
    let mut found = false;
    'params: for param in params {
        found = found | moves_type(part, structs, &param.ty);
    }
    found
}

// Whether a call that may be issued again would pass an object along.
fn moves_again(part: &Part, structs: &List<StructRow>, marked: bool, params: &[Param]) -> bool
    requires { KnowsRows part.now.lines.now structs.now }
    ensures { IsMovedAgain part.now.lines.now marked (param_types params.now) result }
{
    if marked {
        moves(part, structs, params)
    } else {
        false
    }
}

fn is_many(cells: &Cells) -> bool
    ensures { result ≡ is_many cells.now }
{
    matches!(cells, Cells::TooMany)
}

// Whether there are more than 8 parameters or 4 results after flattening.
fn exceeds(
    alloc: Global,
    part: &Part,
    structs: &List<StructRow>,
    params: &[Param],
    results: &[TypeText],
) -> Result<bool, AllocError>
    requires { KnowsRows part.now.lines.now structs.now }
    ensures { IfOk result (IsExceeding part.now.lines.now (param_types params.now) results.now) }
{
    let flat_params = put_params(alloc, part, structs, 8, params)?;
    let flat_results = put_types(alloc, part, structs, 4, results)?;
    if is_many(&flat_params) {
        return Ok(true);
    }
    Ok(is_many(&flat_results))
}

/// The lowest of the rules 20 to 23 that refuses a method, which is marked as idempotent or isn't.
pub fn rule_of(
    alloc: Global,
    part: &Part,
    structs: &List<StructRow>,
    marked: bool,
    params: &[Param],
    outcome: &ResultText,
) -> Result<Option<u8>, AllocError>
    requires { KnowsRows part.now.lines.now structs.now }
    ensures { IfOk result (IsLowest part.now.lines.now marked params.now outcome.now) }
{
    if !is_rpc(outcome) {
        return Ok(Some(20));
    }
    if lends(result_types(outcome)) {
        return Ok(Some(21));
    }
    if moves_again(part, structs, marked, params) {
        return Ok(Some(22));
    }
    if exceeds(alloc, part, structs, params, result_types(outcome))? {
        return Ok(Some(23));
    }
    Ok(None)
}
