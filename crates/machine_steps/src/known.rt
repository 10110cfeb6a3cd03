//! What is known of every run of every valid load.
ghost use Rattle.machine_steps.specs.Known.{Known};

use machine_laws::states_are_sound;
use step_laws::{
    doomed_are_freed, drops_free, ends_free, entries_name_roots, kills_again_free_nothing,
    loans_of_steps, loans_stay_few, objects_are_found, objects_stay_few, quiet_steps_free_nothing,
    returns_free, runs_count_up, steps_count_up,
};

/// The laws of runs and of steps, in one call.
pub(crate) fn laws()
    ensures { Known }
{
    states_are_sound();
    quiet_steps_free_nothing();
    kills_again_free_nothing();
    objects_stay_few();
    steps_count_up();
    runs_count_up();
    loans_of_steps();
    loans_stay_few();
    entries_name_roots();
    doomed_are_freed();
    objects_are_found();
    ends_free();
    drops_free();
    returns_free();
}
