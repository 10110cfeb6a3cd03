//! What a frame of domain code would do next.
ghost use Rattle.std.specs.Prelude.{◌≡◌, ◌<◌, length};
ghost use Rattle.machine_defs.specs.declared.frame.FrameBody.TheVariants as body;
ghost use Rattle.machine_defs.specs.Instructions.{Before, settle, jumped};
ghost use Rattle.rl_defs.specs.Registers.{behind_heads};
ghost use Rattle.rl_defs.specs.Registers.{Typing};
ghost use Rattle.machine_defs.specs.CodeFits.{FitsStand, FitsSight, stand_of};
ghost use Rattle.code_machine.specs.Act.{action_of};
ghost use Rattle.code_machine.specs.Fitting.{standing, put_at, Fitting, FitsLine, GoesToLabel};

use crate::act::{Act, act_at};
use crate::registers::empty;
use crate::went::Went;
use crate::work::work;
use machine_defs::arrays::Registers;
use machine_defs::frame::{Frame, FrameBody, View};
use machine_defs::values::Cause;
use rl_defs::checked::CheckedDomain;

/// The first action or trap of a frame, from the line where it stands, with this fuel and so many
/// live objects. The frame and the fuel go on to it: each instruction before it costs 1, and the
/// action itself isn't paid yet. At fuel 0 it is the trap `fuel`.
pub fn settle<V: View, N: Drop>(
    domain: &CheckedDomain,
    frame: &mut Frame<N>,
    fuel: &mut u32,
    view: &V,
    live: u32,
) -> Act
    requires { Fitting domain.now (V.sight view.now) (stand_of frame.old.body) }
    ensures wanted { settle domain.now (V.sight view.now) live fuel.old (stand_of frame.old.body)
        ≡ Before (action_of result) fuel.new (stand_of frame.new.body) }
    ensures same { frame.new ≡ put_at frame.old (stand_of frame.new.body) }
    ensures fits { (types : Typing) → FitsStand types domain.now (stand_of frame.old.body) →
        FitsSight types domain.now (V.sight view.now) → FitsStand types domain.now (stand_of frame.new.body) }
{
    match &mut frame.body {
        FrameBody::Code { line, registers } => {
            settle_in(domain, line, registers, fuel, view, live)
        }
        FrameBody::Native { .. } => unreachable!(),
    }
}

/// As `settle`, for a line and registers that need not stand in a frame: for register work that is
/// done beside the machine, or goes on from there.
pub fn settle_in<V: View>(
    domain: &CheckedDomain,
    line: &mut u32,
    registers: &mut Registers,
    fuel: &mut u32,
    view: &V,
    live: u32,
) -> Act
    requires { Fitting domain.now (V.sight view.now) (standing line.old registers.old) }
    ensures wanted { settle domain.now (V.sight view.now) live fuel.old (standing line.old registers.old)
        ≡ Before (action_of result) fuel.new (standing line.new registers.new) }
    ensures fits { (types : Typing) → FitsStand types domain.now (standing line.old registers.old) →
        FitsSight types domain.now (V.sight view.now) →
        FitsStand types domain.now (standing line.new registers.new) }
{
    // Its contract says that the domain keeps the rules.
    let _ = domain.lines();
    let mut left = *fuel;
    let mut place = come(domain, *line, registers);
    'lines: while left > 0 {
        match work(domain, place as usize, view, registers) {
            Went::Next => {
                place = come(domain, place + 1, registers);
                left -= 1;
            }
            Went::Jump => {
                place = come_to_label(domain, place, registers);
                left -= 1;
            }
            Went::Stop => {
                *line = place;
                *fuel = left;
                return act_at(domain, place as usize, view, live, registers);
            }
        }
    }
    *line = place;
    *fuel = 0;
    Act::Trap(Cause::Fuel)
}

// Comes to a line, and through the heads that stand there.
fn come(domain: &CheckedDomain, place: u32, registers: &mut Registers) -> u32
    requires within { place < length domain.now.lines }
    requires fits { FitsLine domain.now place registers.old }
    ensures { behind_heads domain.now (standing place registers.old) ≡ standing result registers.new }
{
    let (to, emptied) = domain.here(place as usize);
    empty(registers, emptied);
    to
}

// Goes to the label of the instruction at a place, and through the heads that stand there.
fn come_to_label(domain: &CheckedDomain, place: u32, registers: &mut Registers) -> u32
    requires within { place < length domain.now.lines }
    requires goes { GoesToLabel domain.now place registers.old }
    ensures { behind_heads domain.now (jumped domain.now place registers.old) ≡ standing result registers.new }
{
    let (to, emptied) = domain.jump(place as usize);
    empty(registers, emptied);
    to
}
