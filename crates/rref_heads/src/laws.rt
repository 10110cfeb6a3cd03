//! Laws of heads: functions with nothing to do, whose contracts are facts about the definitions.
ghost use Rattle.machine_defs.specs.HeadEvents.{EachStepIsOneEvent};

/// Each step on a head is one event on its object in the domain machine's heap at most: publish is
/// `new`, lend and give back are the start and the end of a loan, take up is a move, end is the
/// owner's end, and claim, pass on and release are none. The step that gains the right of release
/// is the one behind which the machine lists `free`.
pub fn each_step_is_one_event()
    ensures { EachStepIsOneEvent }
{}
