//! The check of all types of an interface part.
ghost use Rattle.std.specs.Prelude.{◌≡◌, ℕ, ◌<◌, ◌≤◌, ◌^◌, IsTrue, IfSome, Some, length, slice_get};
ghost use Rattle.rl_defs.specs.declared.tables.StructRow.{StructRow as Row};
ghost use Rattle.rl_defs.specs.Refusals.{Answers, IsFirst};
ghost use Rattle.rl_defs.specs.TypeRules.{FailsTypes, StructRows};
ghost use Rattle.exchangeable_types.specs.Rows.{AllRows, FailsStructs};
ghost use Rattle.rl_defs.specs.Interfaces.{Rises};
ghost use Rattle.exchangeable_types.specs.BadLines.{IsFirstBad, IsFirstRefusal};

use crate::part::Part;
use crate::rows::struct_rows;
use crate::types::has_bad_type;
use rl_defs::bundle::Numbered;
use rl_defs::idl::{Idl, IdlLine};
use rl_defs::list::List;
use rl_defs::tables::StructRow;
use rl_defs::{LoadFault, Refusal};
use std::alloc::Global;

/// The structs of an interface part, numbered from 0 in the order of the text. Each has at most 512
/// cells.
#[derive(Debug, Drop)]
pub struct Types {
    pub structs: List<StructRow>,
    ghost small: { (k : ℕ) (row : Row) → slice_get structs k ≡ Some row → length row.flat ≤ 512 },
}

/// Checks the types of an interface part: the rows of its structs, or the first line that the rules
/// 10 to 13 refuse, with the lowest of these rules there.
pub fn check_types(alloc: Global, idl: &Idl) -> Result<Types, LoadFault>
    requires few { length idl.now.lines < 2 ^ 32 }
    requires rises { Rises idl.now.lines }
    ensures { Answers (FailsTypes idl.now) (λ types. StructRows idl.now types.structs) result }
{
    let lines = idl.lines.as_slice();
    let part = Part::new(alloc, lines)?;
    earlier(idl, first_bad(lines), struct_rows(alloc, &part))
}

/// How many cells a struct has.
pub fn cells(types: &Types, s: u32) -> u32
    requires { s < length types.now.structs }
    ensures { IfSome (slice_get types.now.structs s) (λ row. result ≡ length row.flat) }
{
    types.structs.as_slice()[s as usize].flat.len() as u32
}

/// Whether a struct may stand in an `RRef`. The check has refused each struct whose cells hold a
/// struct too deep, so every struct that is left may.
pub fn in_rref(types: &Types, s: u32) -> bool
    requires { s < length types.now.structs }
    ensures { IsTrue result }
{
    let _ = types;
    let _ = s;
    true
}

// The number of the first line that holds a type which may not stand there.
fn first_bad(lines: &[Numbered<IdlLine>]) -> Option<u32>
    requires { Rises lines.now }
    ensures { IsFirstBad lines.now result }
{
    'lines: for line in lines {
        if has_bad_type(&line.form) {
            return Some(line.line);
        }
    }
    None
}

// The earlier of the two refusals, or the types where there is none.
fn earlier(
    idl: &Idl,
    bad: Option<u32>,
    rows: Result<List<StructRow>, LoadFault>,
) -> Result<Types, LoadFault>
    requires bad { IsFirstBad idl.now.lines bad }
    requires rows { Answers (FailsStructs idl.now.lines) (AllRows idl.now.lines) rows }
    ensures { Answers (FailsTypes idl.now) (λ types. StructRows idl.now types.structs) result }
{
    match rows {
        Ok(structs) => match bad {
            Some(line) => Err(LoadFault::refused(line, 10)),
            None => Ok(Types { structs }),
        },
        Err(LoadFault::Refused(at)) => Err(earlier_refusal(idl, bad, at)),
        Err(LoadFault::Memory) => Err(LoadFault::Memory),
    }
}

fn earlier_refusal(idl: &Idl, bad: Option<u32>, at: Refusal) -> LoadFault
    requires bad { IsFirstBad idl.now.lines bad }
    requires at { IsFirst (FailsStructs idl.now.lines) at.line at.rule }
    ensures { IsFirstRefusal idl.now result }
{
    let _ = idl;
    let Some(line) = bad else {
        return LoadFault::Refused(at);
    };
    if line <= at.line {
        return LoadFault::refused(line, 10);
    }
    LoadFault::Refused(at)
}
