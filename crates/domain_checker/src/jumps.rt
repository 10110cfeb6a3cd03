//! Rules 32, 33 and 37: where control goes.
ghost use Rattle.std.specs.Prelude.{◌≡◌, ℕ, length, drop, map};
ghost use Rattle.std.specs.List.{list_all};
ghost use Rattle.rl_defs.specs.CodeKinds.{Kinds as KindList, at_label, listed, kind_in};
ghost use Rattle.rl_defs.specs.CodeRules.{same_kind, without, owns_nothing, enters, enters_at, enters_label, enters_head, names_label, goes_on, ends_before};
ghost use Rattle.rl_defs.specs.CodeNames.{place_of_label};
ghost use Rattle.rl_defs.specs.CodeNames.{label_of_form};
ghost use Rattle.rl_defs.specs.DomainParts.{ends};

use crate::effects::{kinds_at_label, listed_kind};
use crate::here::Here;
use crate::kinds::{Kinds, kind_in, owns_nothing, put_kind, same_kind, same_kinds};
use crate::scope::Scope;
use crate::tables::NamedTables;
use rl_defs::code::{DomainLine, HeadItem, Instr, RegKind};

// Whether the registers have the kinds that a head lists.
fn are_listed(tables: &NamedTables, items: &[HeadItem], kinds: &Kinds) -> bool
    ensures { result ≡ list_all (λ w. same_kind w.kind (kind_in kinds.now w.register)) (listed tables.now items.now) }
{
    'items: for item in items {
        if !same_kind(
            listed_kind(tables, &item.kind),
            kind_in(kinds, item.register),
        ) {
            return false;
        }
    }
    true
}

// The listed registers lose what they hold.
fn empty_listed(kinds: &mut Kinds, items: &[HeadItem])
    ensures { kinds.new ≡ without (map (λ item. item.register) items.now) kinds.old }
{
    'items: for item in items {
        put_kind(kinds, item.register, RegKind::Empty);
    }
}

// Whether no register beside those that a head lists holds an own object. Some heads list none.
fn owns_nothing_beside(items: &[HeadItem], kinds: &Kinds) -> bool
    ensures { result ≡ owns_nothing (without (map (λ item. item.register) items.now) kinds.now) }
{
    match items {
        [] => owns_nothing(kinds),
        _ => {
            let mut others = same_kinds(kinds);
            empty_listed(&mut others, items);
            owns_nothing(&others)
        }
    }
}

// Whether registers of these kinds may enter a head.
fn enters(scope: &Scope, items: &[HeadItem], kinds: &Kinds) -> bool
    ensures { result ≡ enters scope.now items.now kinds.now }
{
    are_listed(scope.tables(), items, kinds) && owns_nothing_beside(items, kinds)
}

// Whether registers of these kinds may enter the head at a place.
fn enters_at(scope: &Scope, place: Option<u32>, kinds: &Kinds) -> bool
    ensures { result ≡ enters_at scope.now place kinds.now }
{
    let Some(place) = place else {
        return true;
    };
    let lines = scope.lines();
    if place as usize >= lines.len() {
        return true;
    }
    match &lines[place as usize].form {
        DomainLine::Head(_, items) => enters(scope, items.as_slice(), kinds),
        _ => true,
    }
}

/// Whether a jump, or the `else` of a call, enters the head of its label, which is at this place.
pub fn enters_label(here: &Here, form: &DomainLine, to: Option<u32>) -> bool
    requires { to ≡ place_of_label here.now.scope.now here.now.place (label_of_form form.now) }
    ensures { result ≡ enters_label here.now.scope.now here.now.place here.now.kinds form.now }
{
    match form {
        DomainLine::Code(instr) => match to {
            Some(_) => enters_at(here.scope, to, &kinds_at_label(&here.kinds, instr)),
            None => true,
        },
        _ => true,
    }
}

/// Whether a head that is reached from the line before it is entered.
pub fn enters_head(here: &Here, form: &DomainLine) -> bool
    ensures { result ≡ enters_head here.now.scope.now here.now.place here.now.kinds form.now }
{
    match form {
        DomainLine::Head(_, items) => {
            !here.reached || enters(here.scope, items.as_slice(), &here.kinds)
        }
        _ => true,
    }
}

/// Whether a jump or an `else` names a label of its function, which is at this place.
pub fn names_label(here: &Here, form: &DomainLine, to: Option<u32>) -> bool
    requires { to ≡ place_of_label here.now.scope.now here.now.place (label_of_form form.now) }
    ensures { result ≡ names_label here.now.scope.now here.now.place form.now }
{
    let _ = here;
    match form {
        DomainLine::Code(Instr::Jmp(_) | Instr::Jz(..) | Instr::Call { .. }) => to.is_some(),
        _ => true,
    }
}

/// Whether control goes on from a line to the next one.
pub fn goes_on(form: &DomainLine) -> bool
    ensures { result ≡ goes_on form.now }
{
    !matches!(
        form,
        DomainLine::Code(Instr::Jmp(_) | Instr::Ret(_) | Instr::Trap)
    )
}

/// Whether control doesn't reach the end of a function.
pub fn ends_before(here: &Here, form: &DomainLine) -> bool
    ensures { result ≡ ends_before here.now.scope.now here.now.place form.now }
{
    match form {
        DomainLine::Close => !here.inside || !here.reached,
        _ => true,
    }
}
