//! Laws of the steps of the domain machine: functions with nothing to do, whose contracts say what
//! one step of a run counts, lends and frees, by the kind of its entry. What they say is stated in
//! `specs/StepLaws.antt`.
#![tactic(auto)]

ghost use Rattle.step_laws.specs.StepLaws.{QuietStepsFreeNothing, KillsAgainFreeNothing, StepsCountUp, RunsCountUp, ObjectsStayFew};
ghost use Rattle.step_laws.specs.StepLaws.{LoansOfSteps, RunsLendFew, RowsLendFew, EntriesNameRoots};
ghost use Rattle.step_laws.specs.StepLaws.{DoomedAreFreed, ObjectsAreFound, EndsFree, DropsFree, ReturnsFree};

/// A step frees nothing whose entry drops nothing and ends no frame and no instance.
pub fn quiet_steps_free_nothing()
    ensures { QuietStepsFreeNothing }
{}

/// Nor does a kill of an instance that has ended.
pub fn kills_again_free_nothing()
    ensures { KillsAgainFreeNothing }
{}

/// A step uses one number at most of calls, of objects and of instances. The threads, stacks,
/// shadows and blocks stay as many as they are.
pub fn steps_count_up()
    ensures { StepsCountUp }
{}

/// So a run has used as few numbers of calls, objects and instances as it has entries.
pub fn runs_count_up()
    ensures { RunsCountUp }
{}

/// At most 65,536 objects are there before a step frees some, so it frees no more.
pub fn objects_stay_few()
    ensures { ObjectsStayFew }
{}

/// A call adds the loans of its arguments, the end of a frame takes those of that frame, and other
/// steps leave loans as they are.
pub fn loans_of_steps()
    ensures { LoansOfSteps }
{}

/// An object is lent 3,968 times at most, before and behind a row.
pub fn loans_stay_few()
    ensures runs { RunsLendFew }
    ensures rows { RowsLendFew }
{}

/// What an entry moves, returns, drops, puts away, hangs or writes is a root of who acts, and
/// nobody has borrowed it. What it lends or shows is somebody's root.
pub fn entries_name_roots()
    ensures { EntriesNameRoots }
{}

/// Each object that a row leaves is found by its number.
pub fn objects_are_found()
    ensures { ObjectsAreFound }
{}

/// What is known to be doomed, object by object, is freed, and the other objects stay.
pub fn doomed_are_freed()
    ensures { DoomedAreFreed }
{}

/// An end of an instance frees its roots that nobody has borrowed, with what hangs in them, and
/// nothing else.
pub fn ends_free()
    ensures { EndsFree }
{}

/// A drop, and a refusal with the objects that its call would have moved, frees what hangs in what
/// it drops, and nothing else.
pub fn drops_free()
    ensures { DropsFree }
{}

/// The end of a frame frees roots of ended owners that nobody has borrowed any more, with what
/// hangs in them: of the roots that were lent to the frame or are results of its call, and no
/// others.
pub fn returns_free()
    ensures { ReturnsFree }
{}
