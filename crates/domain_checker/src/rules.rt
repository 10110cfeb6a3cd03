//! The rules of domain code at one line.
ghost use Rattle.std.specs.Prelude.{◌≡◌};
ghost use Rattle.rl_defs.specs.CodeRules.{breaks};
ghost use Rattle.domain_checker.specs.Plain.{is_plain};
ghost use Rattle.domain_checker.specs.Lowest.{lowest, from_30, from_31, from_32, from_34, from_35, from_36, from_37, IsLowest};

use crate::claims::{
    declares, has_functions, has_import, has_its_words, has_method, has_one_struct, has_shape,
};
use crate::here::{Here, target};
use crate::jumps::{ends_before, enters_head, enters_label, names_label};
use crate::moves::{leaves_nothing, moves_once, moves_or_lends, spares_objects};
use crate::operands::{has_apart, has_cell, has_kinds};
use rl_defs::code::{DomainLine, Instr};

fn from_37(here: &Here, form: &DomainLine) -> Option<u8>
    ensures { result ≡ lowest (from_37 here.now.scope.now here.now.place form.now) }
{
    if ends_before(here, form) {
        None
    } else {
        Some(37)
    }
}

fn from_36(here: &Here, form: &DomainLine) -> Option<u8>
    ensures { result ≡ lowest (from_36 here.now.scope.now here.now.place here.now.kinds form.now) }
{
    if !has_functions(here.scope, form) || !has_method(here, form) {
        return Some(36);
    }
    if !has_shape(here.scope, form) || !has_one_struct(here.scope, form) {
        return Some(36);
    }
    from_37(here, form)
}

fn from_35(here: &Here, form: &DomainLine) -> Option<u8>
    ensures { result ≡ lowest (from_35 here.now.scope.now here.now.place here.now.kinds form.now) }
{
    if !declares(here.scope, form)
        || !has_its_words(here.scope, form)
        || !has_import(here.scope, form)
    {
        return Some(35);
    }
    from_36(here, form)
}

fn from_34(here: &Here, form: &DomainLine) -> Option<u8>
    ensures { result ≡ lowest (from_34 here.now.scope.now here.now.place here.now.kinds form.now) }
{
    if !moves_once(&here.kinds, form) || !moves_or_lends(&here.kinds, form) {
        return Some(34);
    }
    from_35(here, form)
}

// The same of a line that is no head.
fn from_32_apart(here: &Here, form: &DomainLine) -> Option<u8>
    ensures { result ≡ lowest (from_32 here.now.scope.now here.now.place here.now.kinds form.now) }
{
    let to = target(here, form);
    if !enters_label(here, form, to) || !enters_head(here, form) {
        return Some(32);
    }
    if !names_label(here, form, to) {
        return Some(33);
    }
    from_34(here, form)
}

// A head names nothing and moves nothing: it keeps the rules from 33 on.
fn from_32(here: &Here, form: &DomainLine) -> Option<u8>
    ensures { result ≡ lowest (from_32 here.now.scope.now here.now.place here.now.kinds form.now) }
{
    match form {
        DomainLine::Head(..) => {
            if enters_head(here, form) {
                None
            } else {
                Some(32)
            }
        }
        _ => from_32_apart(here, form),
    }
}

/// Whether a line is register work that names nothing, moves no object and goes to no label. Most
/// lines are: they keep the rules from 32 on, and their rows name nothing.
pub fn is_plain(form: &DomainLine) -> bool
    ensures { result ≡ is_plain form.now }
{
    matches!(
        form,
        DomainLine::Code(Instr::Const(..) | Instr::Copy(..) | Instr::Math(..) | Instr::Get(..))
    )
}

#[tactic(auto, using(crate::proofs::Plain::plain_keeps))]
fn from_31(here: &Here, form: &DomainLine) -> Option<u8>
    ensures { result ≡ lowest (from_31 here.now.scope.now here.now.place here.now.kinds form.now) }
{
    if !spares_objects(&here.kinds, form) || !leaves_nothing(&here.kinds, form) {
        return Some(31);
    }
    if is_plain(form) {
        return None;
    }
    from_32(here, form)
}

fn from_30(here: &Here, form: &DomainLine) -> Option<u8>
    ensures { result ≡ lowest (from_30 here.now.scope.now here.now.place here.now.kinds form.now) }
{
    if !has_kinds(here, form) || !has_cell(here, form) || !has_apart(form) {
        return Some(30);
    }
    from_31(here, form)
}

/// The lowest of the rules 30 to 37 that a line breaks.
pub fn rule_of(here: &Here, form: &DomainLine) -> Option<u8>
    ensures { IsLowest (breaks here.now.scope.now here.now.place form.now) result }
{
    from_30(here, form)
}
