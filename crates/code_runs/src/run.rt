//! What a frame wants, and how it goes on from an answer.
ghost use Rattle.code_machine.specs.Fitting.{standing};
ghost use Rattle.std.specs.Prelude.{◌≡◌, ◌&&◌, not, is_some, IfSome, true, false};
ghost use Rattle.rl_defs.specs.declared.code.Instr.{Instr as AnInstr};
ghost use Rattle.machine_defs.specs.CodeFits.{FitsStand, FitsSight, stand_of};
ghost use Rattle.machine_defs.specs.Instructions.{after_answer};
ghost use Rattle.machine_defs.specs.CodeLaws.{StandsAt};
ghost use Rattle.code_runs.specs.Seen.{sight_of, types_of};
ghost use Rattle.code_runs.specs.Suits.{ends};
ghost use Rattle.code_runs.specs.Answered.{answer_suits};
ghost use Rattle.machine_defs.specs.Instructions.{settle, Before};
ghost use Rattle.code_machine.specs.Act.{action_of};

use crate::answers::answer_fits;
use crate::view::MemoryView;
use code_machine::act::Act;
use code_machine::answer::take_answer;
use code_machine::settle::settle_in;
use machine_defs::arrays::{Args, Objects, Registers};
use machine_defs::frame::{Answer, Frame, FrameBody};
use rl_defs::checked::CheckedDomain;

/// What a frame would do next, and where it stands before it.
#[derive(Debug, Drop)]
pub struct Wanted {
    pub act: Act,
    /// The place in the domain's text of the act's line.
    pub line: u32,
    pub registers: Registers,
    /// The fuel that is left. The act itself isn't paid yet.
    pub fuel: u32,
}

/// What a frame goes by: the fuel that is left, and how many objects are live.
#[derive(Clone, Copy, Debug)]
pub struct Bounds {
    pub fuel: u32,
    pub live: u32,
}

// A frame of a call that nothing is asked of but its body.
pub(crate) fn frame_of(body: FrameBody<()>) -> Frame<()>
    ensures { result.body ≡ body }
{
    Frame {
        call: 1,
        target: 1,
        instance: 1,
        method: 0,
        args: Args::new(),
        lent: Objects::new(),
        body,
    }
}

/// What a frame wants. It fits there again.
pub fn wants(domain: &CheckedDomain, view: &MemoryView, frame: &Frame<()>, bounds: Bounds) -> Wanted
    requires stands { FitsStand (types_of view.now) domain.now (stand_of frame.now.body) }
    requires sees { FitsSight (types_of view.now) domain.now (sight_of view.now) }
    ensures wanted { settle domain.now (sight_of view.now) bounds.live bounds.fuel (stand_of frame.now.body)
        ≡ Before (action_of result.act) result.fuel (standing result.line result.registers) }
    ensures stands { FitsStand (types_of view.now) domain.now (standing result.line result.registers) }
{
    let mut fuel = bounds.fuel;
    match &frame.body {
        FrameBody::Code { line, registers } => {
            let mut line = *line;
            let mut registers = registers.copied();
            let act = settle_in(
                domain,
                &mut line,
                &mut registers,
                &mut fuel,
                view,
                bounds.live,
            );
            Wanted {
                act,
                line,
                registers,
                fuel,
            }
        }
        FrameBody::Native { .. } => unreachable!(),
    }
}

// Whether an act ends its frame, so that nothing is answered.
fn ends(act: &Act) -> bool
    ensures { result ≡ ends act.now }
{
    matches!(act, Act::Trap(_) | Act::Ret(_))
}

/// The frame behind an answer to what it wants. None where the answer doesn't fit, or the frame
/// wants none since it traps or returns.
pub fn go_on(
    domain: &CheckedDomain,
    view: &MemoryView,
    wanted: Wanted,
    answer: Answer,
) -> Option<Frame<()>>
    requires stands { FitsStand (types_of view.now) domain.now (standing wanted.line wanted.registers) }
    requires sees { FitsSight (types_of view.now) domain.now (sight_of view.now) }
    ensures exact { is_some result ≡ (not (ends wanted.act) && answer_suits (types_of view.now) domain.now
        (sight_of view.now) (standing wanted.line wanted.registers) answer) }
    ensures goes_on { IfSome result (λ f. (i : AnInstr) →
        StandsAt domain.now i (standing wanted.line wanted.registers) →
        stand_of f.body ≡ after_answer domain.now (standing wanted.line wanted.registers) i answer) }
    ensures stands { IfSome result (λ f. FitsStand (types_of view.now) domain.now (stand_of f.body)) }
    ensures lives { IfSome result (λ f. ends wanted.act ≡ false) }
{
    if ends(&wanted.act) {
        return None;
    }
    if !answer_fits(domain, view, wanted.line, &wanted.registers, &answer) {
        return None;
    }
    let mut frame = frame_of(FrameBody::Code {
        line: wanted.line,
        registers: wanted.registers,
    });
    take_answer(domain, &mut frame, &answer);
    Some(frame)
}
