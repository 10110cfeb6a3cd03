//! Where register work has come.

use machine_defs::arrays::Registers;

/// Where register work has come: the fuel that is left, the line, from 0, and the registers. It
/// isn't the frame's own, so that a turn that isn't made leaves the frame as it was.
#[derive(Debug, Drop)]
pub struct Standing {
    pub fuel: u32,
    pub line: u32,
    pub registers: Registers,
}

impl Standing {
    /// A place for register work.
    pub fn new() -> Standing {
        Standing {
            fuel: 0,
            line: 0,
            registers: Registers::new(),
        }
    }
}
