//! What is kept beside the lines of a domain.
ghost use Rattle.std.specs.Prelude.{◌≡◌, ℕ, ◌+◌, ◌<◌, Some, length, slice_get, slice_range, unwrap_or, IfOk, IfSome, OnOk};
ghost use Rattle.rl_defs.specs.declared.tables.Tables.{Tables};
ghost use Rattle.rl_defs.specs.CodeKinds.{at_label};
ghost use Rattle.rl_defs.specs.CodeKinds.{trait_of_kind};
ghost use Rattle.rl_defs.specs.LineRows.{number_named, type_named, Leads};
ghost use Rattle.rl_defs.specs.Checked.{IsWithin, IsRow};
ghost use Rattle.domain_checker.specs.Heads.{Grows};
ghost use Rattle.domain_checker.specs.Keeping.{AreRows};

use crate::effects::kinds_at_label;
use crate::here::{Here, target};
use crate::kinds::{Kinds, kind_in};
use crate::operands::object_struct;
use crate::rules::is_plain;
use crate::ways::Ways;
use rl_defs::bundle::Numbered;
use rl_defs::checked::{LineRow, Way};
use rl_defs::code::{DomainLine, Instr, RegKind, Register};
use std::alloc::AllocError;

/// What is kept beside the lines so far: a row for each, and the registers that heads empty.
#[derive(Drop)]
pub struct Kept {
    pub rows: Vec<LineRow>,
    pub emptied: Vec<Register>,
}

fn trait_of_kind(kind: RegKind) -> u32
    ensures { result ≡ trait_of_kind kind }
{
    match kind {
        RegKind::Cap(t) => t,
        _ => 0,
    }
}

// The number of the struct, slot, import or method that an instruction names. A `ret` names the
// method of its function.
fn number_named(here: &Here, instr: &Instr) -> u32
    ensures { result ≡ unwrap_or (number_named here.now.scope.now here.now.place here.now.kinds instr.now) 0 }
{
    let scope = here.scope;
    match instr {
        Instr::New(_, ty) => scope.tables().struct_number(ty),
        Instr::Has(_, slot) | Instr::Take(_, slot) | Instr::Put(slot, _) => {
            scope.slot(slot).unwrap_or(0)
        }
        Instr::Cap(_, import) => scope.import(import).unwrap_or(0),
        Instr::Call { target, method, .. } => scope
            .tables()
            .method_number(trait_of_kind(kind_in(&here.kinds, *target)), method)
            .unwrap_or(0),
        Instr::Ret(_) => here.number,
        _ => 0,
    }
}

// The trait of the interface that is called, or of the domain that returns, or the struct of the
// object whose cell is set.
fn type_named(here: &Here, instr: &Instr) -> u32
    ensures { result ≡ unwrap_or (type_named here.now.scope.now here.now.kinds instr.now) 0 }
{
    match instr {
        Instr::Set(o, _, _) => object_struct(kind_in(&here.kinds, *o)).unwrap_or(0),
        Instr::Call { target, .. } => trait_of_kind(kind_in(&here.kinds, *target)),
        Instr::Ret(_) => here.scope.domain_trait(),
        _ => 0,
    }
}

// The way of a frame that goes to the label of an instruction before which the registers are of
// these kinds, or else another way.
fn jump_way(
    ways: &Ways,
    emptied: &mut Vec<Register>,
    kinds: &Kinds,
    instr: &Instr,
    to: Option<u32>,
    otherwise: Way,
) -> Result<Way, AllocError>
    requires label { IfSome to (λ p. p < length ways.now.lines.now) }
    requires within { IsWithin emptied.old.items otherwise }
    ensures leads { IfOk result (λ way. (tables : Tables) (p : ℕ) → to ≡ Some p
        → Leads (record { lines = ways.now.lines.now; tables = tables }) (at_label kinds.now instr.now) p way.line
        (slice_range emptied.new.items way.from way.to)) }
    ensures within { IfOk result (IsWithin emptied.new.items) }
    ensures grows { OnOk result (Grows 32 emptied.old.items emptied.new.items) }
{
    match to {
        Some(place) => {
            let there = kinds_at_label(kinds, instr);
            let way = ways.way(emptied, &there, place as usize)?;
            Ok(way)
        }
        None => Ok(otherwise),
    }
}

// The row of a line that names nothing.
fn bare_row(way: Way) -> LineRow
    ensures { result ≡ record { number = 0; of = 0; label = 0; here = way; jump = way } }
{
    LineRow {
        number: 0,
        of: 0,
        label: 0,
        here: way,
        jump: way,
    }
}

// The row of a line.
fn row_of(
    ways: &Ways,
    here: &Here,
    line: &Numbered<DomainLine>,
    emptied: &mut Vec<Register>,
) -> Result<LineRow, AllocError>
    requires lines { ways.now.lines.now ≡ here.now.scope.now.lines }
    requires here { slice_get here.now.scope.now.lines here.now.place ≡ Some line.now }
    ensures row { IfOk result (IsRow here.now.scope.now emptied.new.items here.now.place) }
    ensures grows { OnOk result (Grows 64 emptied.old.items emptied.new.items) }
{
    let way = ways.way(emptied, &here.kinds, here.place)?;
    if is_plain(&line.form) {
        return Ok(bare_row(way));
    }
    match &line.form {
        DomainLine::Code(instr) => {
            let to = target(here, &line.form);
            let jump = jump_way(ways, emptied, &here.kinds, instr, to, way)?;
            Ok(LineRow {
                number: number_named(here, instr),
                of: type_named(here, instr),
                label: to.unwrap_or(0),
                here: way,
                jump,
            })
        }
        _ => Ok(bare_row(way)),
    }
}

/// Keeps the row of one line more.
pub fn keep(
    kept: &mut Kept,
    ways: &Ways,
    here: &Here,
    line: &Numbered<DomainLine>,
) -> Result<(), AllocError>
    requires lines { ways.now.lines.now ≡ here.now.scope.now.lines }
    requires here { slice_get here.now.scope.now.lines here.now.place ≡ Some line.now }
    requires rows { AreRows here.now.scope.now kept.old.emptied.items kept.old.rows.items here.now.place }
    ensures { OnOk result (AreRows here.now.scope.now kept.new.emptied.items kept.new.rows.items (here.now.place + 1)) }
{
    let row = row_of(ways, here, line, &mut kept.emptied)?;
    kept.rows.push(row)?;
    Ok(())
}
