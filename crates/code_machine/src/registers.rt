//! What registers hold.
ghost use Rattle.std.specs.Prelude.{◌≡◌, ◌≤◌, length, map};
ghost use Rattle.machine_defs.specs.Instructions.{number_in, object_in, target, passed_value, given_by, result_in};
ghost use Rattle.rl_defs.specs.Registers.{value_in};
ghost use Rattle.rl_defs.specs.LineRows.{emptied};

use machine_defs::arrays::{Args, Registers, Results};
use machine_defs::values::Arg;
use rl_defs::code::{CallArg, Register};
use rl_defs::values::Value;

/// The number that a register holds, and 0 where it holds none.
pub fn number_in(registers: &Registers, register: Register) -> u64
    ensures { result ≡ number_in registers.now register }
{
    match registers.get(register) {
        Some(Value::Num(number)) => number,
        _ => 0,
    }
}

/// The object that a register holds, by its number, and 0 where it holds none.
pub fn object_in(registers: &Registers, register: Register) -> u64
    ensures { result ≡ object_in registers.now register }
{
    match registers.get(register) {
        Some(Value::Obj(object)) => object,
        _ => 0,
    }
}

/// The target that a register holds, by its number, and 0 where it holds none.
pub fn target_in(registers: &Registers, register: Register) -> u32
    ensures { result ≡ target (value_in registers.now register) }
{
    match registers.get(register) {
        Some(Value::Cap(target)) => target,
        _ => 0,
    }
}

/// The arguments that registers give.
pub fn given(registers: &Registers, args: &[CallArg]) -> Args
    requires { length args.now ≤ 8 }
    ensures { result ≡ map (given_by registers.now) args.now }
{
    let mut all = Args::new();
    'each: for arg in args {
        all.push(given_by(registers, *arg));
    }
    all
}

fn given_by(registers: &Registers, arg: CallArg) -> Arg
    ensures { result ≡ given_by registers.now arg }
{
    match arg {
        CallArg::Passed(register) => passed(registers.get(register)),
        CallArg::Lent(register) => Arg::Lent(object_in(registers, register)),
    }
}

fn passed(value: Option<Value>) -> Arg
    ensures { result ≡ passed_value value }
{
    match value {
        Some(Value::Num(number)) => Arg::Num(number),
        Some(Value::Obj(object)) => Arg::Moved(object),
        Some(Value::Cap(target)) => Arg::Cap(target),
        None => Arg::Num(0),
    }
}

/// The results that registers give.
pub fn results(registers: &Registers, from: &[Register]) -> Results
    requires { length from.now ≤ 4 }
    ensures { result ≡ map (result_in registers.now) from.now }
{
    let mut all = Results::new();
    'each: for register in from {
        all.push(result_in(registers, *register));
    }
    all
}

fn result_in(registers: &Registers, register: Register) -> Value
    ensures { result ≡ result_in registers.now register }
{
    registers.get(register).unwrap_or(Value::Num(0))
}

/// Empties these registers.
pub fn empty(registers: &mut Registers, list: &[Register])
    ensures { registers.new ≡ emptied list.now registers.old }
{
    'each: for register in list {
        registers.set(*register, None);
    }
}
