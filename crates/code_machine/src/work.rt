//! One instruction that works on registers, by the table of the instructions. Those that act are in
//! `act`.
ghost use Rattle.std.specs.Prelude.{◌≡◌, ℕ, ◌==◌, is_some, if◌then◌else◌};
ghost use Rattle.machine_defs.specs.declared.values.Cause.TheVariants as cause;
ghost use Rattle.rl_defs.specs.declared.values.Value.TheVariants as value;
ghost use Rattle.machine_defs.specs.Instructions.{Works, Jumps, with_number, number_in, object_in, number_or_trap, calculate, bit, meaning, work};
ghost use Rattle.rl_defs.specs.Registers.{value_in, with_value};
ghost use Rattle.code_machine.specs.Went.{Comes};
ghost use Rattle.code_machine.specs.Fitting.{standing, Fitting, AtInstr, IsLine};

use crate::registers::{number_in, object_in};
use crate::went::{Went, put};
use machine_defs::arrays::Registers;
use machine_defs::frame::View;
use rl_defs::checked::CheckedDomain;
use rl_defs::code::{DomainLine, Instr, MathOp, Register};
use rl_defs::values::Value;

// The operation on two numbers. None where it is a division by 0.
fn calculate(op: MathOp, x: u64, y: u64) -> Option<u64>
    ensures { result ≡ calculate op x y }
{
    match op {
        MathOp::Add => Some(x.wrapping_add(y)),
        MathOp::Sub => Some(x.wrapping_sub(y)),
        MathOp::Mul => Some(x.wrapping_mul(y)),
        MathOp::Div => x.checked_div(y),
        MathOp::Rem => x.checked_rem(y),
        MathOp::And => Some(x & y),
        MathOp::Or => Some(x | y),
        MathOp::Xor => Some(x ^ y),
        MathOp::Lt => Some(u64::from(x < y)),
        MathOp::Eq => Some(u64::from(x == y)),
    }
}

fn math(registers: &mut Registers, op: MathOp, to: Register, x: Register, y: Register) -> Went
    ensures { Comes (number_or_trap registers.old to cause.Divide
        (calculate op (number_in registers.old x) (number_in registers.old y))) registers.old registers.new
        result }
{
    match calculate(op, number_in(registers, x), number_in(registers, y)) {
        Some(number) => put_number(registers, to, number),
        None => Went::Stop,
    }
}

fn copy(registers: &mut Registers, to: Register, from: Register) -> Went
    ensures { Comes (Works (with_value registers.old to (value_in registers.old from))) registers.old
        registers.new result }
{
    let value = registers.get(from);
    put(registers, to, value)
}

fn jump_if_zero(registers: &Registers, register: Register) -> Went
    ensures { Comes (if number_in registers.now register == 0 then Jumps registers.now else Works registers.now)
        registers.now registers.now result }
{
    if number_in(registers, register) == 0 {
        Went::Jump
    } else {
        Went::Next
    }
}

fn move_over(registers: &mut Registers, to: Register, from: Register) -> Went
    ensures { Comes (Works (with_value (with_value registers.old from None) to (value_in registers.old from)))
        registers.old registers.new result }
{
    let value = registers.get(from);
    registers.set(from, None);
    put(registers, to, value)
}

fn get<V: View>(
    view: &V,
    registers: &mut Registers,
    to: Register,
    object: Register,
    at: Register,
) -> Went
    ensures { Comes (number_or_trap registers.old to cause.Bounds
        ((V.sight view.now).cell (object_in registers.old object) (number_in registers.old at))) registers.old
        registers.new result }
{
    match view.cell(object_in(registers, object), number_in(registers, at)) {
        Some(number) => put_number(registers, to, number),
        None => Went::Stop,
    }
}

fn word<V: View>(view: &V, registers: &mut Registers, to: Register, at: Register) -> Went
    ensures { Comes (number_or_trap registers.old to cause.Bounds
        ((V.sight view.now).word (number_in registers.old at))) registers.old registers.new result }
{
    match view.word(number_in(registers, at)) {
        Some(number) => put_number(registers, to, number),
        None => Went::Stop,
    }
}

fn put_number(registers: &mut Registers, to: Register, number: u64) -> Went
    ensures { Comes (Works (with_number registers.old to number)) registers.old registers.new result }
{
    put(registers, to, Some(Value::Num(number)))
}

// Whether a slot is full.
fn has<V: View>(view: &V, registers: &mut Registers, to: Register, slot: u32) -> Went
    ensures { Comes (Works (with_number registers.old to (bit (is_some ((V.sight view.now).slot slot)))))
        registers.old registers.new result }
{
    let full = view.slot(slot).is_some();
    put_number(registers, to, u64::from(full))
}

fn cap<V: View>(view: &V, registers: &mut Registers, to: Register, import: u32) -> Went
    ensures { Comes (Works (with_value registers.old to (Some (value.Cap ((V.sight view.now).bound import)))))
        registers.old registers.new result }
{
    put(registers, to, Some(Value::Cap(view.bound(import))))
}

/// What the instruction at a place comes to, however many objects are live.
pub fn work<V: View>(
    domain: &CheckedDomain,
    place: usize,
    view: &V,
    registers: &mut Registers,
) -> Went
    requires fits { Fitting domain.now (V.sight view.now) (standing place registers.old) }
    requires at { AtInstr domain.now (standing place registers.old) }
    ensures { (live : ℕ) → Comes (work domain.now (V.sight view.now) live (standing place registers.old))
        registers.old registers.new result }
{
    match &domain.lines()[place].form {
        DomainLine::Code(instr) => meaning(domain, place, view, registers, instr),
        _ => unreachable!(),
    }
}

fn meaning<V: View>(
    domain: &CheckedDomain,
    place: usize,
    view: &V,
    registers: &mut Registers,
    instr: &Instr,
) -> Went
    requires here { IsLine domain.now place instr.now }
    ensures { (live : ℕ) → Comes (meaning domain.now place (V.sight view.now) live registers.old instr.now)
        registers.old registers.new result }
{
    match instr {
        Instr::Const(a, number) => put_number(registers, *a, *number),
        Instr::Copy(a, b) => copy(registers, *a, *b),
        Instr::Math(op, a, b, c) => math(registers, *op, *a, *b, *c),
        Instr::Jmp(_) => Went::Jump,
        Instr::Jz(a, _) => jump_if_zero(registers, *a),
        Instr::Move(a, b) => move_over(registers, *a, *b),
        Instr::Get(a, o, i) => get(view, registers, *a, *o, *i),
        Instr::Wget(a, i) => word(view, registers, *a, *i),
        Instr::Has(a, _) => has(view, registers, *a, domain.row(place).number),
        Instr::Cap(a, _) => cap(view, registers, *a, domain.row(place).number),
        Instr::DevSize(a) => put_number(registers, *a, view.blocks()),
        _ => Went::Stop,
    }
}
