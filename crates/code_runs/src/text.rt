//! What a frame wants, in one line of text.
ghost use Rattle.std.specs.Prelude.{◌≡◌, ◌++◌, true, OnOk};
ghost use Rattle.std.specs.Fmt.{decimal};
ghost use Rattle.machine_defs.specs.Texts as text;
ghost use Rattle.code_runs.specs.Wants.{arg_text, args_text, value_text, values_text, act_text, register_text, registers_from, wanted_text};
ghost use Rattle.code_runs.specs.Wants.{moves};

use crate::run::Wanted;
use code_machine::act::Act;
use itoa::Buffer;
use machine_defs::values::{Arg, Cause};
use rl_defs::values::Value;
use std::alloc::AllocError;

fn put(out: &mut Vec<u8>, bytes: &[u8]) -> Result<(), AllocError>
    ensures { OnOk result (out.new.items ≡ out.old.items ++ bytes.now) }
{
    out.extend_from_slice(bytes)
}

fn put_digits(out: &mut Vec<u8>, number: u64) -> Result<(), AllocError>
    ensures { OnOk result (out.new.items ≡ out.old.items ++ decimal number) }
{
    let mut digits = Buffer::new();
    put(out, digits.format(number).as_bytes())
}

// Puts a number behind a blank.
fn put_number(out: &mut Vec<u8>, number: u64) -> Result<(), AllocError>
    ensures { OnOk result (out.new.items ≡ out.old.items ++ text.spaced (decimal number)) }
{
    put(out, b" ")?;
    put_digits(out, number)
}

// Puts an object behind a blank.
fn put_object(out: &mut Vec<u8>, object: u64) -> Result<(), AllocError>
    ensures { OnOk result (out.new.items ≡ out.old.items ++ text.spaced (text.object_text object)) }
{
    put(out, b" o")?;
    put_digits(out, object)
}

fn put_arg(out: &mut Vec<u8>, arg: Arg) -> Result<(), AllocError>
    ensures { OnOk result (out.new.items ≡ out.old.items ++ text.spaced (arg_text arg)) }
{
    match arg {
        Arg::Num(number) => put_number(out, number),
        Arg::Moved(object) => put_object(out, object),
        Arg::Lent(object) => {
            put(out, b" &o")?;
            put_digits(out, object)
        }
        Arg::Cap(target) => {
            put(out, b" t")?;
            put_digits(out, u64::from(target))
        }
    }
}

fn put_args(out: &mut Vec<u8>, args: &[Arg]) -> Result<(), AllocError>
    ensures { OnOk result (out.new.items ≡ out.old.items ++ args_text args.now) }
{
    'each: for arg in args {
        put_arg(out, *arg)?;
    }
    Ok(())
}

fn put_value(out: &mut Vec<u8>, value: Value) -> Result<(), AllocError>
    ensures { OnOk result (out.new.items ≡ out.old.items ++ text.spaced (value_text value)) }
{
    match value {
        Value::Num(number) => put_number(out, number),
        Value::Obj(object) => put_object(out, object),
        Value::Cap(target) => {
            put(out, b" t")?;
            put_digits(out, u64::from(target))
        }
    }
}

fn put_values(out: &mut Vec<u8>, values: &[Value]) -> Result<(), AllocError>
    ensures { OnOk result (out.new.items ≡ out.old.items ++ values_text values.now) }
{
    'each: for value in values {
        put_value(out, *value)?;
    }
    Ok(())
}

fn cause_word(cause: Cause) -> &'static [u8]
    ensures { result.now ≡ text.cause_text cause }
{
    match cause {
        Cause::Divide => b"divide",
        Cause::Bounds => b"bounds",
        Cause::Range => b"range",
        Cause::Empty => b"empty",
        Cause::Full => b"full",
        Cause::Device => b"device",
        Cause::HeapFull => b"heapfull",
        Cause::Fuel => b"fuel",
        Cause::Asked => b"asked",
        Cause::Io => b"io",
    }
}

// Puts an act, by the instruction's word and what it is done with.
fn put_act(out: &mut Vec<u8>, act: &Act) -> Result<(), AllocError>
    ensures { OnOk result (out.new.items ≡ out.old.items ++ act_text act.now) }
{
    match act {
        Act::New(of) => {
            put(out, b"new")?;
            put_number(out, u64::from(*of))
        }
        Act::Drop(object) => {
            put(out, b"drop")?;
            put_object(out, *object)
        }
        Act::Set(object, at, number) => {
            put(out, b"set")?;
            put_object(out, *object)?;
            put_number(out, u64::from(*at))?;
            put_number(out, *number)
        }
        Act::Wput(at, number) => {
            put(out, b"wput")?;
            put_number(out, u64::from(*at))?;
            put_number(out, *number)
        }
        Act::Call(target, method, args) => {
            put(out, b"call t")?;
            put_digits(out, u64::from(*target))?;
            put_number(out, u64::from(*method))?;
            put_args(out, args.as_slice())
        }
        Act::Ret(values) => {
            put(out, b"ret")?;
            put_values(out, values.as_slice())
        }
        Act::Trap(cause) => {
            put(out, b"trap ")?;
            put(out, cause_word(*cause))
        }
        _ => put_move(out, act),
    }
}

// Puts an act on slots, cells that objects hang in, and blocks.
fn put_move(out: &mut Vec<u8>, act: &Act) -> Result<(), AllocError>
    ensures { OnOk result (moves act.now ≡ true → out.new.items ≡ out.old.items ++ act_text act.now) }
{
    match act {
        Act::Take(slot) => {
            put(out, b"take")?;
            put_number(out, u64::from(*slot))
        }
        Act::Put(slot, object) => {
            put(out, b"put")?;
            put_number(out, u64::from(*slot))?;
            put_object(out, *object)
        }
        Act::DevGet(object, block) => {
            put(out, b"devget")?;
            put_object(out, *object)?;
            put_number(out, *block)
        }
        Act::DevPut(block, object) => {
            put(out, b"devput")?;
            put_number(out, *block)?;
            put_object(out, *object)
        }
        Act::Hang(object, at, below) => {
            put(out, b"hang")?;
            put_object(out, *object)?;
            put_number(out, u64::from(*at))?;
            put_object(out, *below)
        }
        Act::Unhang(object, at) => {
            put(out, b"unhang")?;
            put_object(out, *object)?;
            put_number(out, u64::from(*at))
        }
        _ => Ok(()),
    }
}

fn put_register(out: &mut Vec<u8>, place: u64, held: Option<Value>) -> Result<(), AllocError>
    ensures { OnOk result (out.new.items ≡ out.old.items ++ register_text place held) }
{
    match held {
        Some(value) => {
            put(out, b", r")?;
            put_digits(out, place)?;
            put_value(out, value)
        }
        None => Ok(()),
    }
}

fn put_registers(out: &mut Vec<u8>, registers: &[Option<Value>]) -> Result<(), AllocError>
    ensures { OnOk result (out.new.items ≡ out.old.items ++ registers_from 0 registers.now) }
{
    'each: for place in 0..registers.len() {
        put_register(out, place as u64, registers[place])?;
    }
    Ok(())
}

/// Puts what a frame wants: the action or the trap, the fuel that is left, and each register that
/// holds something. An object is `o` and its number, a target `t` and its number; structs, slots
/// and methods are told by their numbers.
pub fn put_wanted(out: &mut Vec<u8>, wanted: &Wanted) -> Result<(), AllocError>
    ensures { OnOk result (out.new.items ≡ out.old.items ++ wanted_text wanted.now) }
{
    put_act(out, &wanted.act)?;
    put(out, b", fuel")?;
    put_number(out, u64::from(wanted.fuel))?;
    put_registers(out, wanted.registers.as_slice())?;
    put(out, b"\n")
}
