//! How a call of domain code begins.
ghost use Rattle.std.specs.Prelude.{◌≡◌, ℕ, ◌≤◌, length, Some};
ghost use Rattle.machine_defs.specs.declared.frame.FrameBody.TheVariants as body;
ghost use Rattle.machine_defs.specs.Arguments.{value_of, entry_registers};
ghost use Rattle.rl_defs.specs.Registers.{Typing};
ghost use Rattle.machine_defs.specs.CodeFits.{FitsStand, stand_of};
ghost use Rattle.machine_defs.specs.CodeLaws.{FitsArguments};
ghost use Rattle.rl_defs.specs.CodeNames.{entry_at};
ghost use Rattle.code_machine.specs.Fitting.{Enters};

use machine_defs::arrays::Registers;
use machine_defs::frame::FrameBody;
use machine_defs::values::Arg;
use rl_defs::checked::CheckedDomain;
use rl_defs::code::Register;
use rl_defs::values::Value;

/// The body of a frame that begins a method of the domain's trait, by the method's number: at its
/// function's first line, with the arguments in `r0` upwards.
pub fn body_at_entry<N: Drop>(domain: &CheckedDomain, method: u32, args: &[Arg]) -> FrameBody<N>
    requires { Enters domain.now method args.now }
    ensures begins { (place : ℕ) → entry_at domain.now method ≡ Some place → result
        ≡ body.Code place (entry_registers args.now) }
    ensures fits { (types : Typing) → FitsArguments types domain.now method args.now →
        FitsStand types domain.now (stand_of result) }
{
    // Its contract says that the domain keeps the rules.
    let _ = domain.lines();
    FrameBody::Code {
        line: domain.entry(method as usize),
        registers: entry_registers(args),
    }
}

fn entry_registers(args: &[Arg]) -> Registers
    requires { length args.now ≤ 32 }
    ensures { result ≡ entry_registers args.now }
{
    let mut registers = Registers::new();
    'each: for place in 0..args.len() {
        let register = Register {
            number: place as u8,
        };
        registers.set(register, Some(value_of(args[place])));
    }
    registers
}

fn value_of(arg: Arg) -> Value
    ensures { result ≡ value_of arg }
{
    match arg {
        Arg::Num(number) => Value::Num(number),
        Arg::Moved(object) => Value::Obj(object),
        Arg::Lent(object) => Value::Obj(object),
        Arg::Cap(target) => Value::Cap(target),
    }
}
