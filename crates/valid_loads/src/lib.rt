//! What the loader accepts is valid: functions with nothing to do, whose contracts are laws of
//! accepted bundles and their loads.
#![tactic(auto)]

ghost use Rattle.std.specs.Prelude.{ℕ, List, length, ◌≤◌};
ghost use Rattle.rl_defs.specs.declared.load.LoadRows.{LoadRows};
ghost use Rattle.rl_defs.specs.Acceptance.{Accepted};
ghost use Rattle.rl_defs.specs.Valid.{Valid};

/// The load that an accepted bundle stands for is valid, where the bundle has at most 1,048,576
/// bytes.
pub fn accepted_loads_are_valid()
    ensures { (bytes : List ℕ) (L : LoadRows) → length bytes ≤ 1048576 → Accepted bytes L → Valid L }
{}
