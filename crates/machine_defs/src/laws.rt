//! Laws of the machine: functions with nothing to do, whose contracts are facts about the
//! definitions.
ghost use Rattle.machine_defs.specs.CodeLaws.{NeverStuck, AlwaysSettles, AnswersFit, WaitingAnswersFit, GivesUp, EntriesFit};
ghost use Rattle.machine_defs.specs.Laws.{TurnsAreTold, OrderedRunsGoOn};

/// Domain code that keeps the rules never meets a register that doesn't hold what is asked for, nor
/// a line that is no instruction.
pub fn code_never_stuck()
    ensures { NeverStuck }
{}

/// Register work of domain code that keeps the rules comes to an action, whatever the fuel is, and
/// the registers fit again there.
pub fn code_settles()
    ensures { AlwaysSettles }
{}

/// A frame fits again behind each answer that fits its action, whether it goes on at the next line
/// or at a label.
pub fn answers_fit()
    ensures { AnswersFit }
{}

/// So does a frame that waited without the objects that it moved.
pub fn waiting_answers_fit()
    ensures { WaitingAnswersFit }
{}

/// A frame that gives up the objects that its instruction moves fits as one that waits.
pub fn moving_waits()
    ensures { GivesUp }
{}

/// A call of domain code begins with a frame that fits.
pub fn entries_fit()
    ensures { EntriesFit }
{}

/// A history is cut into turns where the turns of a run end: a step adds its own turn to those of
/// the history so far.
pub fn turns_are_told()
    ensures { TurnsAreTold }
{}

/// Turns that go round the order list lead on from a run to a run. So each ordered run is a run.
pub fn ordered_runs_go_on()
    ensures { OrderedRunsGoOn }
{}
