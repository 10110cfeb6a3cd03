//! The first method that is refused.
ghost use Rattle.std.specs.Prelude.{◌≡◌, IfOk};
ghost use Rattle.rl_defs.specs.Interfaces.{Rises};
ghost use Rattle.rl_defs.specs.Refusals.{Answers};
ghost use Rattle.rl_defs.specs.MethodRules.{FailsMethods};
ghost use Rattle.proxy_tables.specs.Rules.{KnowsRows};
ghost use Rattle.proxy_tables.specs.Scan.{IsLowestAt, is_mark};

use crate::rules::rule_of;
use exchangeable_types::Part;
use rl_defs::LoadFault;
use rl_defs::idl::{Idl, IdlLine};
use rl_defs::list::List;
use rl_defs::tables::StructRow;
use std::alloc::{AllocError, Global};

fn is_mark(line: &IdlLine) -> bool
    ensures { result ≡ is_mark line.now }
{
    matches!(line, IdlLine::Idempotent)
}

fn rule_at(
    alloc: Global,
    part: &Part,
    structs: &List<StructRow>,
    marked: bool,
    line: &IdlLine,
) -> Result<Option<u8>, AllocError>
    requires { KnowsRows part.now.lines.now structs.now }
    ensures { IfOk result (IsLowestAt part.now.lines.now marked line.now) }
{
    match line {
        IdlLine::Method {
            params,
            result: outcome,
            ..
        } => rule_of(alloc, part, structs, marked, params.as_slice(), outcome),
        _ => Ok(None),
    }
}

/// The first line that the rules 20 to 23 refuse, with the lowest of these rules there.
pub fn check_methods(
    alloc: Global,
    idl: &Idl,
    part: &Part,
    structs: &List<StructRow>,
) -> Result<(), LoadFault>
    requires same { part.now.lines.now ≡ idl.now.lines }
    requires rises { Rises idl.now.lines }
    requires rows { KnowsRows part.now.lines.now structs.now }
    ensures { Answers (FailsMethods idl.now) (λ _. Unit {0}) result }
{
    let mut marked = false;
    'lines: for line in idl.lines.as_slice() {
        let rule = rule_at(alloc, part, structs, marked, &line.form)?;
        if let Some(rule) = rule {
            return Err(LoadFault::refused(line.line, rule));
        }
        marked = is_mark(&line.form);
    }
    Ok(())
}
