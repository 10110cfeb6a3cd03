//! Rules 31 and 34: no own object is lost, and none goes two ways.
ghost use Rattle.std.specs.Prelude.{◌≡◌, ℕ, ◌≤◌, length, drop, map};
ghost use Rattle.std.specs.List.{list_all, list_any};
ghost use Rattle.rl_defs.specs.CodeKinds.{kind_in, passed, left, leave_all};
ghost use Rattle.rl_defs.specs.CodeRules.{spares, written, owns_nothing, spares_objects, leaves_nothing, owning, lent, is_among, are_distinct, moves_once, moves_or_lends};

use crate::kinds::{Kinds, is_own, kind_in, leave_all, leave_moved, owns_nothing, same_kinds};
use rl_defs::code::{CallArg, DomainLine, Instr, Register};

fn spares(kinds: &Kinds, register: Register) -> bool
    ensures { result ≡ spares kinds.now register }
{
    !is_own(kind_in(kinds, register))
}

fn spares_all(kinds: &Kinds, registers: &[Register]) -> bool
    ensures { result ≡ list_all (spares kinds.now) registers.now }
{
    'each: for register in registers {
        if !spares(kinds, *register) {
            return false;
        }
    }
    true
}

// Whether no register that the instruction writes holds an own object.
fn spares_written(kinds: &Kinds, instr: &Instr) -> bool
    ensures { result ≡ list_all (spares kinds.now) (written instr.now) }
{
    match instr {
        Instr::Const(a, _)
        | Instr::Copy(a, _)
        | Instr::Math(_, a, _, _)
        | Instr::Move(a, _)
        | Instr::Get(a, _, _)
        | Instr::Wget(a, _)
        | Instr::Has(a, _)
        | Instr::Cap(a, _)
        | Instr::DevSize(a)
        | Instr::New(a, _)
        | Instr::Take(a, _)
        | Instr::Unhang(a, _, _) => spares(kinds, *a),
        Instr::Call { results, code, .. } => {
            spares(kinds, *code) && spares_all(kinds, results.as_slice())
        }
        _ => true,
    }
}

// The same behind what the instruction moves. Only a `move` and a call move an object and write a
// register.
fn spares_unmoved(kinds: &Kinds, instr: &Instr) -> bool
    ensures { result ≡ list_all (spares (left kinds.now instr.now)) (written instr.now) }
{
    match instr {
        Instr::Move(..) | Instr::Call { .. } => {
            let mut after = same_kinds(kinds);
            leave_moved(&mut after, instr);
            spares_written(&after, instr)
        }
        _ => spares_written(kinds, instr),
    }
}

/// Whether no register is written that holds an own object which the line doesn't move.
pub fn spares_objects(kinds: &Kinds, form: &DomainLine) -> bool
    ensures { result ≡ spares_objects kinds.now form.now }
{
    match form {
        DomainLine::Code(instr) => spares_unmoved(kinds, instr),
        _ => true,
    }
}

// Whether no register holds an own object once those in these have left. Some `ret`s have no
// results.
fn owns_nothing_behind(kinds: &Kinds, results: &[Register]) -> bool
    ensures { result ≡ owns_nothing (leave_all results.now kinds.now) }
{
    match results {
        [] => owns_nothing(kinds),
        _ => {
            let mut after = same_kinds(kinds);
            leave_all(&mut after, results);
            owns_nothing(&after)
        }
    }
}

/// Whether a `ret` leaves no own object in a register.
pub fn leaves_nothing(kinds: &Kinds, form: &DomainLine) -> bool
    ensures { result ≡ leaves_nothing kinds.now form.now }
{
    match form {
        DomainLine::Code(Instr::Ret(results)) => owns_nothing_behind(kinds, results.as_slice()),
        _ => true,
    }
}

// Whether one of the arguments from a place on moves the object in this register.
fn is_moved_from(kinds: &Kinds, register: Register, args: &[CallArg], from: usize) -> bool
    requires { from ≤ length args.now }
    ensures { result ≡ is_among register (owning kinds.now (passed (drop from args.now))) }
{
    'each: for k in from..args.len() {
        if let CallArg::Passed(other) = args[k] {
            if is_own(kind_in(kinds, other)) && other.number == register.number {
                return true;
            }
        }
    }
    false
}

// Whether the arguments move no object twice. Each register whose object isn't moved again is
// another one, so no more than 33 of them are looked for.
fn args_move_once(kinds: &Kinds, args: &[CallArg]) -> bool
    ensures { result ≡ are_distinct (owning kinds.now (passed args.now)) }
{
    'each: for k in 0..args.len() {
        if let CallArg::Passed(register) = args[k] {
            if is_own(kind_in(kinds, register)) && is_moved_from(kinds, register, args, k + 1) {
                return false;
            }
        }
    }
    true
}

fn is_returned_from(kinds: &Kinds, register: Register, results: &[Register], from: usize) -> bool
    requires { from ≤ length results.now }
    ensures { result ≡ is_among register (owning kinds.now (drop from results.now)) }
{
    'each: for k in from..results.len() {
        if is_own(kind_in(kinds, results[k])) && results[k].number == register.number {
            return true;
        }
    }
    false
}

// Whether the results move no object twice.
fn results_move_once(kinds: &Kinds, results: &[Register]) -> bool
    ensures { result ≡ are_distinct (owning kinds.now results.now) }
{
    'each: for k in 0..results.len() {
        if is_own(kind_in(kinds, results[k]))
            && is_returned_from(kinds, results[k], results, k + 1)
        {
            return false;
        }
    }
    true
}

/// Whether no object is moved twice in one call or one `ret`.
pub fn moves_once(kinds: &Kinds, form: &DomainLine) -> bool
    ensures { result ≡ moves_once kinds.now form.now }
{
    match form {
        DomainLine::Code(Instr::Call { args, .. }) => args_move_once(kinds, args.as_slice()),
        DomainLine::Code(Instr::Ret(results)) => results_move_once(kinds, results.as_slice()),
        _ => true,
    }
}

// Whether one of the arguments lends this register.
fn is_lent(register: Register, args: &[CallArg]) -> bool
    ensures { result ≡ is_among register (lent args.now) }
{
    'each: for arg in args {
        if let CallArg::Lent(other) = arg {
            if other.number == register.number {
                return true;
            }
        }
    }
    false
}

// Whether one of the arguments moves an object that another of these lends.
fn moves_a_lent(kinds: &Kinds, args: &[CallArg], others: &[CallArg]) -> bool
    ensures { result ≡ list_any (λ r. is_among r (lent others.now)) (owning kinds.now (passed args.now)) }
{
    'each: for arg in args {
        if let CallArg::Passed(register) = arg {
            if is_own(kind_in(kinds, *register)) && is_lent(*register, others) {
                return true;
            }
        }
    }
    false
}

/// Whether no object is moved and lent in one call. It is asked where no object is moved twice, so
/// that no more than 32 are looked for.
pub fn moves_or_lends(kinds: &Kinds, form: &DomainLine) -> bool
    ensures { result ≡ moves_or_lends kinds.now form.now }
{
    match form {
        DomainLine::Code(Instr::Call { args, .. }) => {
            !moves_a_lent(kinds, args.as_slice(), args.as_slice())
        }
        _ => true,
    }
}
