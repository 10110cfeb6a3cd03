//! What a line of the domain part lists: registers, arguments of a call, and registers of a head.
ghost use Rattle.std.specs.Prelude.{◌≡◌, ℕ, ◌≤◌, List, length, OnOk};
ghost use Rattle.rl_text.specs.Reading.{Gives};
ghost use Rattle.domain_code.specs.Operands.{register_at};
ghost use Rattle.domain_code.specs.Lists.{arg_at, passed_at, lent_at, struct_at, lent_kind_at, kind_at, head_at};

use crate::operand::register;
use rl_defs::code::{CallArg, HeadItem, HeadKind, Register};
use rl_defs::lexeme::{Key, Mark};
use rl_defs::name::Name;
use rl_text::cursor::{Cursor, Stop};
use rl_text::list::Item;
use std::alloc::Global;

// `&rN` behind its mark, which lends the object.
fn lent(left: &mut Cursor<'_>) -> Result<CallArg, Stop>
    ensures { Gives (λ a. a) result left.new (lent_at left.old) }
{
    let register = register(left)?;
    Ok(CallArg::Lent(register))
}

// `rN`
fn passed(left: &mut Cursor<'_>) -> Result<CallArg, Stop>
    ensures { Gives (λ a. a) result left.new (passed_at left.old) }
{
    let register = register(left)?;
    Ok(CallArg::Passed(register))
}

// An argument of a call.
#[tactic(auto, unfolding(crate::specs::Lists::arg_at))]
fn arg(left: &mut Cursor<'_>) -> Result<CallArg, Stop>
    ensures { Gives (λ a. a) result left.new (arg_at left.old) }
{
    if left.skip_mark(Mark::Ampersand) {
        return lent(left);
    }
    passed(left)
}

// `<STRUCT>`, behind its `RRef`.
#[tactic(auto, unfolding(crate::specs::Lists::struct_at))]
fn structure(left: &mut Cursor<'_>) -> Result<Name, Stop>
    ensures { Gives (λ n. n) result left.new (struct_at left.old) }
{
    left.mark(Mark::Less)?;
    let name = left.name()?;
    left.mark(Mark::Greater)?;
    Ok(name)
}

// What a head says of a register, behind a `&`.
#[tactic(auto, unfolding(crate::specs::Lists::lent_kind_at))]
fn lent_kind(left: &mut Cursor<'_>) -> Result<HeadKind, Stop>
    ensures { Gives (λ k. k) result left.new (lent_kind_at left.old) }
{
    if left.skip_key(Key::RRef) {
        let name = structure(left)?;
        return Ok(HeadKind::Lent(name));
    }
    left.key(Key::Dyn)?;
    let name = left.name()?;
    Ok(HeadKind::Cap(name))
}

// What a head says of a register.
#[tactic(auto, unfolding(crate::specs::Lists::kind_at))]
fn kind(left: &mut Cursor<'_>) -> Result<HeadKind, Stop>
    ensures { Gives (λ k. k) result left.new (kind_at left.old) }
{
    if left.skip_key(Key::Num) {
        return Ok(HeadKind::Num);
    }
    if left.skip_mark(Mark::Ampersand) {
        return lent_kind(left);
    }
    left.key(Key::RRef)?;
    let name = structure(left)?;
    Ok(HeadKind::Own(name))
}

// A register of a head, with what it holds.
#[tactic(auto, unfolding(crate::specs::Lists::head_at))]
fn head(left: &mut Cursor<'_>) -> Result<HeadItem, Stop>
    ensures { Gives (λ h. h) result left.new (head_at left.old) }
{
    let register = register(left)?;
    let kind = kind(left)?;
    Ok(HeadItem { register, kind })
}

/// A register.
pub(crate) struct OneRegister;

impl Item for OneRegister {
    type Part = Register;

    ghost item_at = { register_at };

    fn read(_alloc: Global, left: &mut Cursor<'_>) -> Result<Register, Stop>
        ensures gives { Gives (λ r. r) result left.new (register_at left.old) }
        ensures fewer { OnOk result (length left.new ≤ length left.old) }
    {
        register(left)
    }
}

/// An argument of a call.
pub(crate) struct OneArg;

impl Item for OneArg {
    type Part = CallArg;

    ghost item_at = { arg_at };

    fn read(_alloc: Global, left: &mut Cursor<'_>) -> Result<CallArg, Stop>
        ensures gives { Gives (λ a. a) result left.new (arg_at left.old) }
        ensures fewer { OnOk result (length left.new ≤ length left.old) }
    {
        arg(left)
    }
}

/// A register of a head.
pub(crate) struct OneHead;

impl Item for OneHead {
    type Part = HeadItem;

    ghost item_at = { head_at };

    fn read(_alloc: Global, left: &mut Cursor<'_>) -> Result<HeadItem, Stop>
        ensures gives { Gives (λ h. h) result left.new (head_at left.old) }
        ensures fewer { OnOk result (length left.new ≤ length left.old) }
    {
        head(left)
    }
}
