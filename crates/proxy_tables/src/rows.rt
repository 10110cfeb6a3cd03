//! The tables of an interface part.
ghost use Rattle.std.specs.Prelude.{◌≡◌, ℕ, ◌+◌, ◌<◌, ◌≤◌, ◌^◌, List as Items, Some, false, length, slice_get, drop, IfOk, OnOk};
ghost use Rattle.std.specs.Option.{option_copied};
ghost use Rattle.rl_defs.specs.declared.idl.IdlLine.{IdlLine as Form};
ghost use Rattle.rl_defs.specs.Interfaces.{Rises, methods_of, traits_of, structs_of, param_types, result_types};
ghost use Rattle.rl_defs.specs.Refusals.{Answers};
ghost use Rattle.rl_defs.specs.TypeRules.{StructRows};
ghost use Rattle.rl_defs.specs.MethodRules.{FailsMethods, TableRows, IsMethodRow, AreMethodRows, AreTraitRows};
ghost use Rattle.proxy_tables.specs.Rules.{KnowsRows, Exceeds, is_many};
ghost use Rattle.rl_defs.specs.Flattening.{Flattens};
ghost use Rattle.proxy_tables.specs.Built.{AllFit, TraitsTo};

use crate::flat::{put_params, put_types};
use crate::scan::check_methods;
use exchangeable_types::{Cells, Part, Types, result_types, trait_name};
use rl_defs::LoadFault;
use rl_defs::bundle::Numbered;
use rl_defs::idl::{Idl, IdlLine, Param, ResultText};
use rl_defs::list::List;
use rl_defs::name::Name;
use rl_defs::tables::{Kind, MethodRow, StructRow, Tables, TraitRow};
use std::alloc::{AllocError, Global};

// The kinds, which are few.
fn few(cells: Cells) -> List<Kind>
    requires { is_many cells ≡ false }
    ensures { cells ≡ Cells.Few result }
{
    match cells {
        Cells::Few(list) => list,
        Cells::TooMany => unreachable!(),
    }
}

fn method_row(
    alloc: Global,
    part: &Part,
    structs: &List<StructRow>,
    name: &Name,
    marked: bool,
    params: &[Param],
    outcome: &ResultText,
) -> Result<MethodRow, AllocError>
    requires rows { KnowsRows part.now.lines.now structs.now }
    requires params { Exceeds part.now.lines.now (param_types params.now) 8 → ⊥ }
    requires results { Exceeds part.now.lines.now (result_types outcome.now) 4 → ⊥ }
    ensures name { IfOk result (λ row. row.name ≡ name.now) }
    ensures marked { IfOk result (λ row. row.idempotent ≡ marked) }
    ensures params { IfOk result (λ row. Flattens part.now.lines.now (param_types params.now) row.params) }
    ensures results { IfOk result (λ row. Flattens part.now.lines.now (result_types outcome.now) row.results) }
{
    let flat_params = put_params(alloc, part, structs, 8, params)?;
    let flat_results = put_types(alloc, part, structs, 4, result_types(outcome))?;
    Ok(MethodRow {
        name: *name,
        idempotent: marked,
        params: few(flat_params),
        results: few(flat_results),
    })
}

fn line_at<'a>(lines: &'a [Numbered<IdlLine>], at: usize) -> Option<&'a Numbered<IdlLine>>
    ensures { option_copied result ≡ slice_get lines.now at }
{
    lines.get(at)
}

// The rows of the methods that stand from a place on.
fn method_rows(
    alloc: Global,
    part: &Part,
    structs: &List<StructRow>,
    start: usize,
) -> Result<List<MethodRow>, AllocError>
    requires start { start ≤ length part.now.lines.now }
    requires rows { KnowsRows part.now.lines.now structs.now }
    requires fit { AllFit part.now.lines.now }
    ensures { IfOk result (AreMethodRows part.now.lines.now (methods_of (drop start part.now.lines.now) false)) }
{
    let mut rows = List::new(alloc);
    let mut marked = false;
    let mut at = start;
    'methods: while let Some(line) = line_at(part.lines, at) {
        match &line.form {
            IdlLine::Idempotent => marked = true,
            IdlLine::Method {
                name,
                params,
                result: outcome,
            } => {
                let row = method_row(
                    alloc,
                    part,
                    structs,
                    name,
                    marked,
                    params.as_slice(),
                    outcome,
                )?;
                rows.push(row)?;
                marked = false;
            }
            _ => return Ok(rows),
        }
        at += 1;
    }
    Ok(rows)
}

// Puts the row of a trait last, where the line at this place begins one.
fn put_trait(
    alloc: Global,
    part: &Part,
    structs: &List<StructRow>,
    rows: &mut List<TraitRow>,
    line: &Numbered<IdlLine>,
    at: usize,
) -> Result<(), AllocError>
    requires here { slice_get part.now.lines.now at ≡ Some line.now }
    requires rows { KnowsRows part.now.lines.now structs.now }
    requires fit { AllFit part.now.lines.now }
    requires before { TraitsTo part.now.lines.now rows.old at }
    ensures { OnOk result (TraitsTo part.now.lines.now rows.new (at + 1)) }
{
    let Some(name) = trait_name(&line.form) else {
        return Ok(());
    };
    let methods = method_rows(alloc, part, structs, at + 1)?;
    rows.push(TraitRow { name, methods })?;
    Ok(())
}

fn trait_rows(
    alloc: Global,
    part: &Part,
    structs: &List<StructRow>,
) -> Result<List<TraitRow>, AllocError>
    requires rows { KnowsRows part.now.lines.now structs.now }
    requires fit { AllFit part.now.lines.now }
    ensures { IfOk result (AreTraitRows part.now.lines.now (traits_of part.now.lines.now)) }
{
    let mut rows = List::new(alloc);
    let mut at = 0usize;
    'traits: while let Some(line) = line_at(part.lines, at) {
        put_trait(alloc, part, structs, &mut rows, line, at)?;
        at += 1;
    }
    Ok(rows)
}

/// The tables of an interface part whose types were checked, or the first line that the rules 20 to
/// 23 refuse, with the lowest of these rules there.
pub fn build(alloc: Global, types: Types, idl: &Idl) -> Result<Tables, LoadFault>
    requires few { length idl.now.lines < 2 ^ 32 }
    requires rises { Rises idl.now.lines }
    requires types { StructRows idl.now types.structs }
    ensures { Answers (FailsMethods idl.now) (TableRows idl.now) result }
{
    let part = Part::new(alloc, idl.lines.as_slice())?;
    let structs = types.structs;
    check_methods(alloc, idl, &part, &structs)?;
    let traits = trait_rows(alloc, &part, &structs)?;
    Ok(Tables { structs, traits })
}
