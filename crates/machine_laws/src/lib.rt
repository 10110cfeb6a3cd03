//! Laws of the domain machine: functions with nothing to do, whose contracts are facts about every
//! run of every valid load. The laws are stated in `machine_defs`, `specs/Laws.antt`.
#![tactic(auto)]

ghost use Rattle.machine_defs.specs.Laws.{HistoriesTellLaws, StatesAreSound, CallsCloseOnce, SomeThreadIsEnabled, EnabledThreadsStep, EndsLeaveAlone, StepsAreDetermined};

/// What the history of every run tells: each call, refusal, end, repeat and reload has its number
/// and its cause; each object has one owner at a time and leaves the heap once at most; what is
/// freed has a cause; and the words and slots of an instance change only by what it does itself.
pub fn histories_tell_laws()
    ensures { HistoriesTellLaws }
{}

/// Every state of every run is sound: each object that a live owner has is in one place of it, what
/// is lent is a root that its owner keeps until the last loan ends, frames stand where their code
/// is, and what registers, slots and script names hold is of the kinds that code and commands give
/// them.
pub fn states_are_sound()
    ensures { StatesAreSound }
{}

/// In a whole run each call that was entered is closed exactly once.
pub fn calls_close_once()
    ensures { CallsCloseOnce }
{}

/// Threads never all wait: while a client isn't done, some thread is enabled, that is, not done and
/// not waiting.
pub fn some_thread_is_enabled()
    ensures { SomeThreadIsEnabled }
{}

/// A thread that is enabled, in a state of a run, has a step: its entry, what is freed after it,
/// and the state that it leads to.
pub fn enabled_threads_step()
    ensures { EnabledThreadsStep }
{}

/// An end of an instance, by a trap or a kill, leaves all other instances and all frames as they
/// are, and frees its own objects alone.
pub fn ends_leave_alone()
    ensures { EndsLeaveAlone }
{}

/// A step is determined by the state and its entry, but for the action that a native body chooses
/// after it.
pub fn steps_are_determined()
    ensures { StepsAreDetermined }
{}
