//! Who comes next in going round the order list.
ghost use Rattle.std.specs.Prelude.{◌≡◌, ℕ, ◌+◌, ◌%◌, Some, None, length, slice_index};
ghost use Rattle.rl_defs.specs.declared.load.LoadRows.{LoadRows};
ghost use Rattle.machine_defs.specs.State.{State};
ghost use Rattle.machine_defs.specs.Runs.{order_of, next_turn};
ghost use Rattle.turn_order.specs.Rounds.{round_from, ComesNext, NobodyEnabled};

/// Where from a place on some clients aren't enabled and the one behind them is, it takes the next
/// turn, and the place after its own comes then. Where no client is enabled, there is no next turn.
pub fn first_enabled_comes_next()
    ensures some { (L : LoadRows) (s : State) (place step : ℕ) → ComesNext L s place step → next_turn L s place
        ≡ Some (slice_index (round_from (order_of L) place) step, (place + step + 1) % length (order_of L)) }
    ensures none { (L : LoadRows) (s : State) (place : ℕ) → NobodyEnabled L s place → next_turn L s place ≡ None }
{}
