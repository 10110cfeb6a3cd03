//! What is known before a line.
ghost use Rattle.std.specs.Prelude.{◌≡◌, ◌≢◌, ℕ, ◌+◌, ◌≤◌, ◌<◌, List, Some, length, slice_get, nat_eq, unwrap_or, IfSome, OnOk};
ghost use Rattle.std.specs.Cmp.Lexicographic.{pointwise};
ghost use Rattle.indexmap.specs.IndexMap.{get};
ghost use Rattle.rl_defs.specs.declared.code.DomainLine.TheVariants as Form;
ghost use Rattle.rl_defs.specs.CodeNames.{label_at, function_at};
ghost use Rattle.rl_defs.specs.LineRows.{number_of_function};
ghost use Rattle.rl_defs.specs.CodeNames.{label_of, place_of_label};
ghost use Rattle.rl_defs.specs.CodeNames.{label_of_form};
ghost use Rattle.domain_checker.specs.Knowing.{Known};

use crate::declared::labels_from;
use crate::effects::{enter_method, pass_line, results_of};
use crate::jumps::goes_on;
use crate::kinds::{Kinds, no_kinds};
use crate::names::NameTable;
use crate::scope::Scope;
use indexmap::IndexMap;
use rl_defs::bundle::Numbered;
use rl_defs::code::{DomainLine, Instr};
use rl_defs::name::Name;
use rl_defs::tables::Kind;
use std::alloc::{AllocError, Global};

/// A place among the lines of a domain, and what is known before the line there.
#[derive(Drop)]
pub struct Here<'a> {
    pub scope: &'a Scope<'a>,
    pub place: usize,
    /// What the registers hold.
    pub kinds: Kinds,
    /// Whether control comes to the line from the line before it.
    pub reached: bool,
    /// Whether the line is in a function.
    pub inside: bool,
    /// The number of the function's method.
    pub number: u32,
    /// The results of the function's method.
    pub results: &'a [Kind],
    /// The places of the function's labels.
    pub labels: NameTable,
    ghost known: { Known scope.now place kinds reached inside results.now (get (pointwise nat_eq) labels) },
    ghost numbered: { number ≡ unwrap_or (number_of_function scope.now (function_at scope.now.lines place)) 0 },
}

// The label that an instruction may go to.
fn label_of(instr: &Instr) -> Option<Name>
    ensures { result ≡ label_of instr.now }
{
    match instr {
        Instr::Jmp(label) => Some(*label),
        Instr::Jz(_, label) => Some(*label),
        Instr::Call { label, .. } => Some(*label),
        _ => None,
    }
}

// The label that a line may go to.
fn label_of_form(form: &DomainLine) -> Option<Name>
    ensures { result ≡ label_of_form form.now }
{
    match form {
        DomainLine::Code(instr) => label_of(instr),
        _ => None,
    }
}

// The place of a label of the function.
fn label_place(here: &Here, label: &Name) -> Option<u32>
    ensures { result ≡ label_at here.now.scope.now.lines here.now.place label.now }
{
    here.labels.get(label).copied()
}

/// The place of the label that a line may go to.
pub fn target(here: &Here, form: &DomainLine) -> Option<u32>
    ensures value { result ≡ place_of_label here.now.scope.now here.now.place (label_of_form form.now) }
    ensures within { IfSome result (λ p. p < length here.now.scope.now.lines) }
{
    match label_of_form(form) {
        Some(label) => label_place(here, &label),
        None => None,
    }
}

/// The first line of a domain, before which nothing is known.
pub fn first<'a>(alloc: Global, scope: &'a Scope<'a>) -> Here<'a>
    ensures scope { result.scope.now ≡ scope.now }
    ensures place { result.place ≡ 0 }
{
    let _ = scope.lines();
    Here {
        scope,
        place: 0,
        kinds: no_kinds(),
        reached: false,
        inside: false,
        number: 0,
        results: &[],
        labels: IndexMap::new(alloc),
    }
}

// Goes on to the first line of a function.
fn enter(
    alloc: Global,
    here: &mut Here,
    line: &Numbered<DomainLine>,
    name: &Name,
) -> Result<(), AllocError>
    requires here { slice_get here.old.scope.now.lines here.old.place ≡ Some line.now }
    requires name { line.now.form ≡ Form.Function name.now }
    ensures scope { OnOk result (here.new.scope.now ≡ here.old.scope.now) }
    ensures place { OnOk result (here.new.place ≡ here.old.place + 1) }
{
    let scope = here.scope;
    let place = here.place + 1;
    let tables = scope.tables();
    let of = scope.domain_trait();
    let number = tables.method_number(of, name);
    let method = tables.method_numbered(of, number);
    let labels = labels_from(alloc, scope.lines(), place)?;
    enter_method(&mut here.kinds, method);
    here.place = place;
    here.reached = goes_on(&line.form);
    here.inside = true;
    here.number = number.unwrap_or(0);
    here.results = results_of(method);
    here.labels = labels;
    Ok(())
}

// Goes on to the line behind a `}`.
fn leave(alloc: Global, here: &mut Here, line: &Numbered<DomainLine>)
    requires here { slice_get here.old.scope.now.lines here.old.place ≡ Some line.now }
    requires close { line.now.form ≡ Form.Close }
    ensures scope { here.new.scope.now ≡ here.old.scope.now }
    ensures place { here.new.place ≡ here.old.place + 1 }
{
    pass_line(&mut here.kinds, here.scope, &line.form);
    here.place += 1;
    here.reached = goes_on(&line.form);
    here.inside = false;
    here.number = 0;
    here.results = &[];
    here.labels = IndexMap::new(alloc);
}

// Behind a line that begins or ends no function.
fn go_on(here: &mut Here, line: &Numbered<DomainLine>)
    requires here { slice_get here.old.scope.now.lines here.old.place ≡ Some line.now }
    requires no_function { (name : List ℕ) → line.now.form ≢ Form.Function name }
    requires no_close { line.now.form ≢ Form.Close }
    ensures scope { here.new.scope.now ≡ here.old.scope.now }
    ensures place { here.new.place ≡ here.old.place + 1 }
{
    pass_line(&mut here.kinds, here.scope, &line.form);
    here.reached = goes_on(&line.form);
    here.place += 1;
}

/// Goes on to the next line.
pub fn next(alloc: Global, here: &mut Here, line: &Numbered<DomainLine>) -> Result<(), AllocError>
    requires { slice_get here.old.scope.now.lines here.old.place ≡ Some line.now }
    ensures scope { OnOk result (here.new.scope.now ≡ here.old.scope.now) }
    ensures place { OnOk result (here.new.place ≡ here.old.place + 1) }
{
    match &line.form {
        DomainLine::Function(name) => enter(alloc, here, line, name),
        DomainLine::Close => {
            leave(alloc, here, line);
            Ok(())
        }
        _ => {
            go_on(here, line);
            Ok(())
        }
    }
}
