//! What one instruction comes to.
ghost use Rattle.std.specs.Prelude.{◌≡◌};
ghost use Rattle.machine_defs.specs.Instructions.{Works};
ghost use Rattle.rl_defs.specs.Registers.{with_value};
ghost use Rattle.code_machine.specs.Went.{Comes};

use machine_defs::arrays::Registers;
use rl_defs::code::Register;
use rl_defs::values::Value;

/// Where an instruction leads.
#[derive(Clone, Copy, Debug)]
pub enum Went {
    /// On to the next line.
    Next,
    /// To its label.
    Jump,
    /// To an action or a trap. The registers are as they were.
    Stop,
}

/// Puts a value into a register, or empties it, and goes on.
pub fn put(registers: &mut Registers, register: Register, value: Option<Value>) -> Went
    ensures { Comes (Works (with_value registers.old register value)) registers.old registers.new result }
{
    registers.set(register, value);
    Went::Next
}
