//! All lines of a domain.
ghost use Rattle.std.specs.Prelude.{◌≡◌, ℕ, length};
ghost use Rattle.rl_defs.specs.Refusals.{Answers};
ghost use Rattle.rl_defs.specs.CodeRules.{FailsCode};
ghost use Rattle.rl_defs.specs.DomainParts.{LinesRise};
ghost use Rattle.domain_checker.specs.Keeping.{AreRows};

use crate::here::{first, next};
use crate::rows::{Kept, keep};
use crate::rules::rule_of;
use crate::scope::Scope;
use crate::ways::Ways;
use rl_defs::LoadFault;
use std::alloc::Global;

/// What is kept beside the lines of a domain, or the first line that a rule refuses, with the
/// lowest rule there.
pub fn scan(alloc: Global, scope: &Scope, ways: &Ways) -> Result<Kept, LoadFault>
    requires lines { ways.now.lines.now ≡ scope.now.lines }
    requires rises { LinesRise scope.now.lines }
    ensures { let count = length scope.now.lines in
        Answers (FailsCode scope.now) (λ kept. AreRows scope.now kept.emptied.items kept.rows.items count) result }
{
    let lines = scope.lines();
    let rows = Vec::with_capacity(alloc, lines.len())?;
    let mut kept = Kept {
        rows,
        emptied: Vec::new(alloc),
    };
    let mut here = first(alloc, scope);
    'lines: for place in 0..lines.len() {
        let line = &lines[place];
        if let Some(rule) = rule_of(&here, &line.form) {
            return Err(LoadFault::refused(line.line, rule));
        }
        keep(&mut kept, ways, &here, line)?;
        next(alloc, &mut here, line)?;
    }
    Ok(kept)
}
