//! Whether numbers fit the cells, parameters and results that they are meant for.
ghost use Rattle.std.specs.Prelude.{◌≡◌};
ghost use Rattle.machine_defs.specs.Instructions.{number_fits, arg_fits, args_fit, value_fits, values_fit};

use machine_defs::values::Arg;
use rl_defs::tables::{Kind, Width};
use rl_defs::values::Value;

/// Whether a number doesn't exceed the width of its cell, parameter or result.
pub fn fits(kind: Kind, number: u64) -> bool
    ensures { result ≡ number_fits kind number }
{
    match kind {
        Kind::Num(Width::Bool) => number < 2,
        Kind::Num(Width::W8) => number < 256,
        Kind::Num(Width::W16) => number < 65_536,
        Kind::Num(Width::W32) => number < 4_294_967_296,
        _ => true,
    }
}

/// Whether each number fits the parameter at its place.
pub fn args_fit(kinds: &[Kind], args: &[Arg]) -> bool
    ensures { result ≡ args_fit kinds.now args.now }
{
    'each: for place in 0..kinds.len() {
        if place >= args.len() {
            return true;
        }
        if !arg_fits(kinds[place], args[place]) {
            return false;
        }
    }
    true
}

fn arg_fits(kind: Kind, arg: Arg) -> bool
    ensures { result ≡ arg_fits kind arg }
{
    match arg {
        Arg::Num(number) => fits(kind, number),
        _ => true,
    }
}

/// Whether each number fits the result at its place.
pub fn values_fit(kinds: &[Kind], values: &[Value]) -> bool
    ensures { result ≡ values_fit kinds.now values.now }
{
    'each: for place in 0..kinds.len() {
        if place >= values.len() {
            return true;
        }
        if !value_fits(kinds[place], values[place]) {
            return false;
        }
    }
    true
}

fn value_fits(kind: Kind, value: Value) -> bool
    ensures { result ≡ value_fits kind value }
{
    match value {
        Value::Num(number) => fits(kind, number),
        _ => true,
    }
}
