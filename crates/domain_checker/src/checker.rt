//! The check of a domain.
ghost use Rattle.std.specs.Prelude.{◌≡◌, ℕ, ◌^◌, ◌<◌, length, map, drop, IfOk};
ghost use Rattle.rl_defs.specs.DomainValue.{Domain};
ghost use Rattle.rl_defs.specs.Domains.{body_of_function};
ghost use Rattle.rl_defs.specs.Refusals.{Answers};
ghost use Rattle.rl_defs.specs.CodeRules.{FailsCode};
ghost use Rattle.rl_defs.specs.TableSizes.{AreTablesSmall};
ghost use Rattle.rl_defs.specs.DomainParts.{IsOneDomain, LinesRise};
ghost use Rattle.domain_checker.specs.Keeping.{IsKept};

use crate::rows::Kept;
use crate::scan::scan;
use crate::scope::Scope;
use crate::tables::NamedTables;
use crate::ways::Ways;
use rl_defs::LoadFault;
use rl_defs::bundle::Numbered;
use rl_defs::checked::CheckedDomain;
use rl_defs::code::{DomainLine, DomainText};
use rl_defs::name::Name;
use rl_defs::tables::{MethodRow, SharedTables};
use std::alloc::{AllocError, Global};
use std::marker::Model;

/// A checker of domains whose names are looked up in one set of tables. It is made once, and no
/// check goes over the tables. Contracts see the tables.
#[derive(Drop)]
pub struct Checker {
    tables: NamedTables,
}

impl Model for Checker {
    ghost use Rattle.rl_defs.specs.declared.tables.Tables.{Tables as Seen};

    ghost Value = { Seen };

    ghost view = { λ c. c.tables };
}

// What is kept beside the lines of a domain that keeps the rules.
#[derive(Drop)]
struct Whole {
    kept: Kept,
    entries: Vec<u32>,
}

// Where the body of the function of this name begins: behind its head. It is one more than the
// count of lines where there is no such function.
fn entry_of(scope: &Scope, name: &Name) -> u32
    ensures { result ≡ body_of_function scope.now.lines name.now }
{
    let past = scope.lines().len() as u32 + 1;
    scope.body(name).unwrap_or(past)
}

// Where the functions for methods begin.
fn entries_of(alloc: Global, scope: &Scope, methods: &[MethodRow]) -> Result<Vec<u32>, AllocError>
    ensures { let begins = map (λ m. body_of_function scope.now.lines m.name) methods.now in
        IfOk result (λ entries. entries.items ≡ begins) }
{
    let mut entries = Vec::new(alloc);
    'methods: for method in methods {
        entries.push(entry_of(scope, &method.name))?;
    }
    Ok(entries)
}

// What is kept beside lines that keep the rules, or the first line that one of the rules refuses,
// with the lowest of these rules there.
fn kept_beside(
    alloc: Global,
    tables: &NamedTables,
    lines: &[Numbered<DomainLine>],
) -> Result<Whole, LoadFault>
    requires short { length lines.now < 2 ^ 31 }
    requires rises { LinesRise lines.now }
    ensures { let d : Domain = record { lines = lines.now; tables = tables.now } in
        Answers (FailsCode d) (λ w. IsKept d w.kept.emptied.items w.kept.rows.items w.entries.items) result }
{
    let scope = Scope::new(alloc, tables, lines)?;
    let ways = Ways::new(alloc, lines)?;
    let kept = scan(alloc, &scope, &ways)?;
    let entries = entries_of(alloc, &scope, tables.methods(scope.domain_trait()))?;
    Ok(Whole { kept, entries })
}

impl Checker {
    /// The checker of domains over these tables.
    pub fn new(alloc: Global, tables: SharedTables) -> Result<Checker, AllocError>
        requires { AreTablesSmall tables }
        ensures { IfOk result (λ c. c ≡ tables) }
    {
        let tables = NamedTables::new(alloc, tables)?;
        Ok(Checker { tables })
    }

    /// The domain of a text that keeps the rules, or the first line that one of the rules 30 to 37
    /// refuses, with the lowest of these rules there.
    pub fn check(&self, alloc: Global, text: DomainText) -> Result<CheckedDomain, LoadFault>
        requires short { length text.lines < 2 ^ 31 }
        requires ordered { IsOneDomain text.lines }
        requires rises { LinesRise text.lines }
        ensures { let d : Domain = record { lines = text.lines; tables = self.now } in
            Answers (FailsCode d) (λ checked. checked ≡ d) result }
    {
        let whole = kept_beside(alloc, &self.tables, text.lines.as_slice())?;
        let tables = self.tables.share()?;
        Ok(CheckedDomain::new(
            text,
            tables,
            whole.kept.rows,
            whole.kept.emptied,
            whole.entries,
        ))
    }
}
