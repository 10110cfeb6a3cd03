//! The kinds of the registers before and behind a line.
ghost use Rattle.std.specs.Prelude.{◌≡◌, ℕ, ◌≤◌, ◌||◌, false, length, drop, fold, map};
ghost use Rattle.std.specs.List.{list_all};
ghost use Rattle.rl_defs.specs.CodeKinds.{no_kinds, kind_in, with_kind, is_own, leave, leave_all, passed, left, as_register, paired, put_all, put_from};
ghost use Rattle.rl_defs.specs.CodeRules.{same_kind, owns_nothing};
ghost use Rattle.domain_checker.specs.Heads.{holds_some, holds_any};

use rl_defs::code::{CallArg, Instr, RegKind, Register};
use rl_defs::tables::Kind;
use std::marker::Model;

/// What each of the registers `r0` to `r31` is known to hold. Contracts see the list of the kinds.
#[derive(Drop)]
pub struct Kinds {
    each: [RegKind; 32],
    // Whether it is known that no register holds anything, as at a head that lists none. Then the
    // registers aren't gone over.
    bare: bool,
}

impl Model for Kinds {
    ghost use Rattle.rl_defs.specs.CodeKinds.{Kinds as Seen};
    ghost use Rattle.domain_checker.specs.Bare.{IsBare};

    ghost Value = { Seen };

    ghost view = { λ k. k.each };

    ghost invariant = { λ k. IsBare k.bare k.each };
}

/// No register holds anything.
pub fn no_kinds() -> Kinds
    ensures { result ≡ no_kinds }
{
    Kinds {
        each: [RegKind::Empty; 32],
        bare: true,
    }
}

/// The same kinds.
pub fn same_kinds(kinds: &Kinds) -> Kinds
    ensures { result ≡ kinds.now }
{
    Kinds {
        each: kinds.each,
        bare: kinds.bare,
    }
}

/// No register holds anything any more.
pub fn empty_all(kinds: &mut Kinds)
    ensures { kinds.new ≡ no_kinds }
{
    if !kinds.bare {
        *kinds = no_kinds();
    }
}

/// The kinds of all registers, in order.
pub fn all_kinds(kinds: &Kinds) -> &[RegKind; 32]
    ensures { result.now ≡ kinds.now }
{
    &kinds.each
}

/// What a register is known to hold.
pub fn kind_in(kinds: &Kinds, register: Register) -> RegKind
    ensures { result ≡ kind_in kinds.now register }
{
    kinds.each[register.number as usize]
}

/// Gives a register another kind.
pub fn put_kind(kinds: &mut Kinds, register: Register, kind: RegKind)
    ensures { kinds.new ≡ with_kind kinds.old register kind }
{
    kinds.each[register.number as usize] = kind;
    kinds.bare = false;
}

/// Whether it is the kind of an own object.
pub fn is_own(kind: RegKind) -> bool
    ensures { result ≡ is_own kind }
{
    matches!(kind, RegKind::Own(_))
}

/// Whether two kinds are one.
pub fn same_kind(left: RegKind, right: RegKind) -> bool
    ensures { result ≡ same_kind left right }
{
    match (left, right) {
        (RegKind::Empty, RegKind::Empty) | (RegKind::Num, RegKind::Num) => true,
        (RegKind::Own(s), RegKind::Own(t)) => s == t,
        (RegKind::Lent(s), RegKind::Lent(t)) => s == t,
        (RegKind::Cap(s), RegKind::Cap(t)) => s == t,
        _ => false,
    }
}

/// The kind of a register that holds such a value: numbers of any width are numbers.
pub fn as_register(kind: Kind) -> RegKind
    ensures { result ≡ as_register kind }
{
    match kind {
        Kind::Num(_) => RegKind::Num,
        Kind::Own(s) => RegKind::Own(s),
        Kind::Lent(s) => RegKind::Lent(s),
        Kind::Cap(t) => RegKind::Cap(t),
    }
}

// An own object leaves its register.
fn leave(kinds: &mut Kinds, register: Register)
    ensures { kinds.new ≡ leave kinds.old register }
{
    if is_own(kind_in(kinds, register)) {
        put_kind(kinds, register, RegKind::Empty);
    }
}

/// The own objects in these registers leave them.
pub fn leave_all(kinds: &mut Kinds, registers: &[Register])
    ensures { kinds.new ≡ leave_all registers.now kinds.old }
{
    'registers: for register in registers {
        leave(kinds, *register);
    }
}

/// The objects that a call moves leave their registers.
pub fn leave_passed(kinds: &mut Kinds, args: &[CallArg])
    ensures { kinds.new ≡ leave_all (passed args.now) kinds.old }
{
    'each: for arg in args {
        if let CallArg::Passed(register) = arg {
            leave(kinds, *register);
        }
    }
}

/// The objects that an instruction moves leave their registers.
pub fn leave_moved(kinds: &mut Kinds, instr: &Instr)
    ensures { kinds.new ≡ left kinds.old instr.now }
{
    match instr {
        Instr::Move(_, b) => leave(kinds, *b),
        Instr::Drop(a) => leave(kinds, *a),
        Instr::Put(_, a) => leave(kinds, *a),
        Instr::Hang(_, _, v) => leave(kinds, *v),
        Instr::Call { args, .. } => leave_passed(kinds, args.as_slice()),
        Instr::Ret(results) => leave_all(kinds, results.as_slice()),
        _ => {}
    }
}

// Whether a register holds an own object. It goes over all of them, since a loop without an early
// end takes several at a time.
fn owns_any(kinds: &[RegKind; 32]) -> bool
    ensures { result ≡ fold (λ found k. found || is_own k) false kinds.now }
{
    kinds
        .iter()
        .fold(false, |found, kind| found | is_own(*kind))
}

/// Whether no register holds an own object.
#[tactic(auto, using(crate::proofs::Emptying::none_owned))]
pub fn owns_nothing(kinds: &Kinds) -> bool
    ensures { result ≡ owns_nothing kinds.now }
{
    kinds.bare || !owns_any(&kinds.each)
}

/// Whether it is the kind of a register that holds something.
pub fn holds_some(kind: RegKind) -> bool
    ensures { result ≡ holds_some kind }
{
    !matches!(kind, RegKind::Empty)
}

// Whether a register holds something. It goes over all of them too.
fn any_holds(kinds: &[RegKind; 32]) -> bool
    ensures { result ≡ holds_any kinds.now }
{
    kinds
        .iter()
        .fold(false, |found, kind| found | holds_some(*kind))
}

/// Whether a register holds something.
pub fn holds_any(kinds: &Kinds) -> bool
    ensures { result ≡ holds_any kinds.now }
{
    !kinds.bare && any_holds(&kinds.each)
}

/// Values of the listed kinds stand in these registers, one after the other.
pub fn put_pairs(kinds: &mut Kinds, listed: &[Kind], registers: &[Register])
    ensures { kinds.new ≡ put_all (paired listed.now registers.now) kinds.old }
{
    'pairs: for k in 0..listed.len() {
        if k >= registers.len() {
            return;
        }
        put_kind(kinds, registers[k], as_register(listed[k]));
    }
}

fn put_each(kinds: &mut [RegKind; 32], params: &[Kind])
    requires { length params.now ≤ 8 }
    ensures { kinds.new ≡ put_from 0 params.now kinds.old }
{
    'params: for k in 0..params.len() {
        kinds[k] = as_register(params[k]);
    }
}

/// The parameters of a method stand in the first registers.
pub fn put_params(kinds: &mut Kinds, params: &[Kind])
    requires { length params.now ≤ 8 }
    ensures { kinds.new ≡ put_from 0 params.now kinds.old }
{
    match params {
        [] => {}
        _ => {
            kinds.bare = false;
            put_each(&mut kinds.each, params);
        }
    }
}
