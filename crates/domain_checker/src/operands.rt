//! Rule 30: the registers have the kinds that an instruction asks for.
ghost use Rattle.std.specs.Prelude.{◌≡◌, ℕ, ◌≤◌, length, drop, map};
ghost use Rattle.std.specs.List.{list_all};
ghost use Rattle.rl_defs.specs.CodeNames.{slots, place_in};
ghost use Rattle.rl_defs.specs.CodeKinds.{Number, Copied, Owned, Object, Target, Passed, read, read_of_arg, kind_in};
ghost use Rattle.rl_defs.specs.CodeRules.{meets, is_met, reads_are_met, is_struct, passes_as, args_suit, results_suit, holds_block, suits_slot, suits_cell, operands_suit, has_kinds, has_cell, is_among, are_distinct, has_apart};
ghost use Rattle.rl_defs.specs.CodeKinds.{object_struct};

use crate::effects::{hung_at, method_called, params_of};
use crate::here::Here;
use crate::kinds::{Kinds, as_register, kind_in, same_kind};
use crate::native::has_cells;
use crate::scope::Scope;
use crate::tables::NamedTables;
use rl_defs::code::{CallArg, DomainLine, HeadItem, Instr, RegKind, Register};
use rl_defs::name::Name;
use rl_defs::tables::{Kind, Width};

fn is_number(kinds: &Kinds, register: Register) -> bool
    ensures { result ≡ meets Number (kind_in kinds.now register) }
{
    matches!(kind_in(kinds, register), RegKind::Num)
}

fn is_copied(kinds: &Kinds, register: Register) -> bool
    ensures { result ≡ meets Copied (kind_in kinds.now register) }
{
    matches!(
        kind_in(kinds, register),
        RegKind::Num | RegKind::Lent(_) | RegKind::Cap(_)
    )
}

fn is_owned(kinds: &Kinds, register: Register) -> bool
    ensures { result ≡ meets Owned (kind_in kinds.now register) }
{
    matches!(kind_in(kinds, register), RegKind::Own(_))
}

fn is_object(kinds: &Kinds, register: Register) -> bool
    ensures { result ≡ meets Object (kind_in kinds.now register) }
{
    matches!(kind_in(kinds, register), RegKind::Own(_) | RegKind::Lent(_))
}

fn is_target(kinds: &Kinds, register: Register) -> bool
    ensures { result ≡ meets Target (kind_in kinds.now register) }
{
    matches!(kind_in(kinds, register), RegKind::Cap(_))
}

fn is_passed(kinds: &Kinds, register: Register) -> bool
    ensures { result ≡ meets Passed (kind_in kinds.now register) }
{
    matches!(
        kind_in(kinds, register),
        RegKind::Num | RegKind::Own(_) | RegKind::Cap(_)
    )
}

fn is_argument(kinds: &Kinds, arg: &CallArg) -> bool
    ensures { result ≡ is_met kinds.now (read_of_arg arg.now) }
{
    match arg {
        CallArg::Passed(register) => is_passed(kinds, *register),
        CallArg::Lent(register) => is_object(kinds, *register),
    }
}

fn are_arguments(kinds: &Kinds, args: &[CallArg]) -> bool
    ensures { result ≡ list_all (is_met kinds.now) (map read_of_arg args.now) }
{
    'each: for arg in args {
        if !is_argument(kinds, arg) {
            return false;
        }
    }
    true
}

fn are_results(kinds: &Kinds, results: &[Register]) -> bool
    ensures { result ≡ list_all (is_met kinds.now) (map (λ r. read r Passed) results.now) }
{
    'each: for register in results {
        if !is_passed(kinds, *register) {
            return false;
        }
    }
    true
}

// Whether each register that the instruction reads has a kind that is asked for.
fn reads_are_met(kinds: &Kinds, instr: &Instr) -> bool
    ensures { result ≡ reads_are_met kinds.now instr.now }
{
    match instr {
        Instr::Const(..)
        | Instr::Jmp(_)
        | Instr::Has(..)
        | Instr::Cap(..)
        | Instr::DevSize(_)
        | Instr::New(..)
        | Instr::Take(..)
        | Instr::Trap => true,
        Instr::Copy(_, b) => is_copied(kinds, *b),
        Instr::Math(_, _, b, c) => is_number(kinds, *b) && is_number(kinds, *c),
        Instr::Jz(a, _) => is_number(kinds, *a),
        Instr::Move(_, b) => is_owned(kinds, *b),
        Instr::Get(_, o, i) => is_object(kinds, *o) && is_number(kinds, *i),
        Instr::Wget(_, i) => is_number(kinds, *i),
        Instr::Drop(a) => is_owned(kinds, *a),
        Instr::Set(o, i, v) => {
            is_owned(kinds, *o) && is_number(kinds, *i) && is_number(kinds, *v)
        }
        Instr::Wput(i, v) => is_number(kinds, *i) && is_number(kinds, *v),
        Instr::Put(_, a) => is_owned(kinds, *a),
        Instr::DevGet(o, n) => is_owned(kinds, *o) && is_number(kinds, *n),
        Instr::DevPut(n, o) => is_number(kinds, *n) && is_object(kinds, *o),
        Instr::Hang(o, _, v) => is_owned(kinds, *o) && is_owned(kinds, *v),
        Instr::Unhang(_, o, _) => is_owned(kinds, *o),
        Instr::Call { target, args, .. } => {
            is_target(kinds, *target) && are_arguments(kinds, args.as_slice())
        }
        Instr::Ret(results) => are_results(kinds, results.as_slice()),
    }
}

/// The struct of an own or lent object.
pub fn object_struct(kind: RegKind) -> Option<u32>
    ensures { result ≡ object_struct kind }
{
    match kind {
        RegKind::Own(s) | RegKind::Lent(s) => Some(s),
        _ => None,
    }
}

fn is_struct(s: u32, of: Option<u32>) -> bool
    ensures { result ≡ is_struct s of }
{
    match of {
        Some(t) => t == s,
        None => false,
    }
}

fn passes_as(kinds: &Kinds, param: Kind, arg: &CallArg) -> bool
    ensures { result ≡ passes_as kinds.now param arg.now }
{
    match (param, arg) {
        (Kind::Lent(s), CallArg::Lent(register)) => {
            is_struct(s, object_struct(kind_in(kinds, *register)))
        }
        (Kind::Lent(_), CallArg::Passed(_)) => false,
        (_, CallArg::Passed(register)) => same_kind(as_register(param), kind_in(kinds, *register)),
        (_, CallArg::Lent(_)) => false,
    }
}

#[tactic(auto, using(crate::proofs::Registers::no_params))]
fn args_suit(kinds: &Kinds, params: &[Kind], args: &[CallArg]) -> bool
    ensures { result ≡ args_suit kinds.now params.now args.now }
{
    'each: for k in 0..args.len() {
        if k >= params.len() {
            return true;
        }
        if !passes_as(kinds, params[k], &args[k]) {
            return false;
        }
    }
    true
}

fn results_suit(kinds: &Kinds, listed: &[Kind], results: &[Register]) -> bool
    ensures { result ≡ results_suit kinds.now listed.now results.now }
{
    'each: for k in 0..listed.len() {
        if k >= results.len() {
            return false;
        }
        if !same_kind(as_register(listed[k]), kind_in(kinds, results[k])) {
            return false;
        }
    }
    results.len() <= listed.len()
}

fn holds_block(tables: &NamedTables, scope: &Scope, of: Option<u32>) -> bool
    requires { tables.now ≡ scope.now.tables }
    ensures { result ≡ holds_block scope.now of }
{
    let _ = scope;
    match of {
        Some(s) => has_cells(64, Width::W64, tables.cells(s)),
        None => false,
    }
}

fn suits_slot(scope: &Scope, slot: &Name, kind: RegKind) -> bool
    ensures { result ≡ suits_slot scope.now (place_in slot.now (slots scope.now.lines)) slot.now kind }
{
    match scope.slot(slot) {
        Some(_) => same_kind(RegKind::Own(scope.slot_struct(slot)), kind),
        None => true,
    }
}

fn suits_cell(of: Option<u32>, kind: RegKind) -> bool
    ensures { result ≡ suits_cell of kind }
{
    match of {
        Some(s) => same_kind(RegKind::Own(s), kind),
        None => true,
    }
}

// Whether the registers are of the structs, parameters or results that the instruction is about.
fn operands_suit(here: &Here, instr: &Instr) -> bool
    ensures { result ≡ operands_suit here.now.scope.now here.now.place here.now.kinds instr.now }
{
    let kinds = &here.kinds;
    let scope = here.scope;
    let tables = scope.tables();
    match instr {
        Instr::Put(slot, a) => suits_slot(scope, slot, kind_in(kinds, *a)),
        Instr::DevGet(o, _) | Instr::DevPut(_, o) => {
            holds_block(tables, scope, object_struct(kind_in(kinds, *o)))
        }
        Instr::Hang(o, place, v) => suits_cell(
            hung_at(tables, kind_in(kinds, *o), *place),
            kind_in(kinds, *v),
        ),
        Instr::Call {
            target,
            method,
            args,
            ..
        } => args_suit(
            kinds,
            params_of(method_called(tables, kind_in(kinds, *target), method)),
            args.as_slice(),
        ),
        Instr::Ret(results) => results_suit(kinds, here.results, results.as_slice()),
        _ => true,
    }
}

/// Whether each register has the kind that the line asks for.
pub fn has_kinds(here: &Here, form: &DomainLine) -> bool
    ensures { result ≡ has_kinds here.now.scope.now here.now.place here.now.kinds form.now }
{
    match form {
        DomainLine::Code(instr) => reads_are_met(&here.kinds, instr) && operands_suit(here, instr),
        _ => true,
    }
}

/// Whether the place of `hang` and `unhang` is an `RRef` cell of the object's struct.
pub fn has_cell(here: &Here, form: &DomainLine) -> bool
    ensures { result ≡ has_cell here.now.scope.now here.now.kinds form.now }
{
    match form {
        DomainLine::Code(Instr::Hang(o, place, _) | Instr::Unhang(_, o, place)) => {
            hung_at(here.scope.tables(), kind_in(&here.kinds, *o), *place).is_some()
        }
        _ => true,
    }
}

fn is_among_from(register: Register, others: &[Register], from: usize) -> bool
    requires { from ≤ length others.now }
    ensures { result ≡ is_among register (drop from others.now) }
{
    'each: for k in from..others.len() {
        if others[k].number == register.number {
            return true;
        }
    }
    false
}

// Each register that isn't among the later ones is another one, so no more than 33 of them are
// looked for.
fn are_distinct(registers: &[Register]) -> bool
    ensures { result ≡ are_distinct registers.now }
{
    'each: for k in 0..registers.len() {
        if is_among_from(registers[k], registers, k + 1) {
            return false;
        }
    }
    true
}

fn is_listed_from(register: Register, items: &[HeadItem], from: usize) -> bool
    requires { from ≤ length items.now }
    ensures { result ≡ is_among register (map (λ item. item.register) (drop from items.now)) }
{
    'each: for k in from..items.len() {
        if items[k].register.number == register.number {
            return true;
        }
    }
    false
}

fn are_listed_once(items: &[HeadItem]) -> bool
    ensures { result ≡ are_distinct (map (λ item. item.register) items.now) }
{
    'each: for k in 0..items.len() {
        if is_listed_from(items[k].register, items, k + 1) {
            return false;
        }
    }
    true
}

/// Whether the registers are distinct that have to be.
pub fn has_apart(form: &DomainLine) -> bool
    ensures { result ≡ has_apart form.now }
{
    match form {
        DomainLine::Code(Instr::Move(a, b)) => a.number != b.number,
        DomainLine::Code(Instr::Call { results, .. }) => are_distinct(results.as_slice()),
        DomainLine::Head(_, items) => are_listed_once(items.as_slice()),
        _ => true,
    }
}
