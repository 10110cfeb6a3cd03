//! Laws of printed histories: functions with nothing to do, whose contracts are facts about the
//! entries of every valid load, of every run and of every accepted bundle. What they say is stated
//! in `machine_defs`, `specs/EntryTexts.antt`.
#![tactic(auto)]

ghost use Rattle.std.specs.Prelude.{ℕ, ◌≤◌, List, length};
ghost use Rattle.rl_defs.specs.declared.load.LoadRows.{LoadRows};
ghost use Rattle.rl_defs.specs.Acceptance.{Accepted};
ghost use Rattle.machine_defs.specs.EntryTexts.{HasWords, TextsAreApart, HistoriesAreApart, RunsNameRows, RunsAreTold};

/// No two entries of a load have one text.
pub fn texts_are_apart()
    ensures { TextsAreApart }
{}

/// No two histories of a load have one text.
pub fn histories_are_apart()
    ensures { HistoriesAreApart }
{}

/// The targets, methods and structs of each entry of each run are rows of the load.
pub fn runs_name_rows()
    ensures { RunsNameRows }
{}

/// The loads, shadows, structs and methods of an accepted bundle are named by words.
pub fn accepted_loads_have_words()
    ensures { (bytes : List ℕ) (L : LoadRows) → Accepted bytes L → HasWords L }
{}

/// So the printed history of a run of an accepted bundle, of at most 1,048,576 bytes, tells each of
/// its entries: a run with another history prints another text. Numbers of entries have at most 64
/// bits.
pub fn printed_histories_tell_runs()
    ensures { (bytes : List ℕ) (L : LoadRows) → length bytes ≤ 1048576 → Accepted bytes L → RunsAreTold L }
{}
