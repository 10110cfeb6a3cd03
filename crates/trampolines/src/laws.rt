//! The words on stacks are those of the machine's state.
ghost use Rattle.std.specs.Prelude.{◌≡◌, ℕ, ◌<◌, ◌≤◌, List, Option, length};
ghost use Rattle.rl_defs.specs.Domains.{row};
ghost use Rattle.machine_defs.specs.State.{StackFrame};
ghost use Rattle.machine_defs.specs.State as state;
ghost use Rattle.machine_defs.specs.Frames as frames;
ghost use Rattle.machine_defs.specs.Calling as calling;
ghost use Rattle.trampolines.specs.Words as words;

use crate::body::Body;
use crate::stacks::Stacks;

/// Of frames of the machine's state, the newest, those below it and those in an instance are the
/// same in both words.
pub fn words_agree()
    ensures top { (fs : List StackFrame) → words.top fs ≡ state.top fs }
    ensures below_top { (fs : List StackFrame) → words.below_top fs ≡ frames.below_top fs }
    ensures frames_of { (stack : Option (List StackFrame)) → words.frames_of stack ≡ state.frames_of stack }
    ensures others_in { (i but k : ℕ) (stacks : List (List StackFrame))
        → words.others_in i but k stacks ≡ calling.others_in i but k stacks }
{}

/// The stacks of native bodies are those of the machine's state.
pub fn frames_are_of_the_state<S: Drop>(stacks: &Stacks<Body<S>>, t: u32) -> usize
    requires { (0 < t) × (t ≤ length stacks.now.frames) }
    ensures { (all : List (List StackFrame)) → all ≡ stacks.now.frames
        → result ≡ length (state.frames_of (row all t)) }
{
    stacks.depth(t) as usize - 1
}
