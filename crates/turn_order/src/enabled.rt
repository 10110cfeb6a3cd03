//! The next place of a list whose client is enabled.
ghost use Rattle.std.specs.Prelude.{◌≡◌, ℕ, ◌<◌, ◌≤◌, length, All, IfSome, true, false};
ghost use Rattle.std.specs.List.{slice_index_or};
ghost use Rattle.turn_order.specs.Rounds.{is_on, next_place};

/// The first place of the list from `from` on, going round, whose client is enabled. None exactly
/// where there is none. Clients are numbered from 1, and `enabled` tells of each client by its
/// number.
pub fn next(order: &[u32], from: usize, enabled: &[bool]) -> Option<usize>
    requires clients { All (λ t. (1 ≤ t) × (t ≤ length enabled.now)) order.now }
    requires within { from ≤ length order.now }
    ensures { result ≡ next_place order.now enabled.now from }
{
    match first_on(order, from, order.len(), enabled) {
        Some(place) => Some(place),
        None => first_on(order, 0, from, enabled),
    }
}

// The first place between two places whose client is enabled.
fn first_on(order: &[u32], from: usize, to: usize, enabled: &[bool]) -> Option<usize>
    requires clients { All (λ t. (1 ≤ t) × (t ≤ length enabled.now)) order.now }
    requires within { (from ≤ to) × (to ≤ length order.now) }
    ensures found { IfSome result (λ p. (from ≤ p) × (p < to)
        × (is_on enabled.now (slice_index_or order.now p 0) ≡ true)) }
    ensures first { (k : ℕ) → from ≤ k → k < to → IfSome result (λ p. k < p)
        → is_on enabled.now (slice_index_or order.now k 0) ≡ false }
{
    'places: for place in from..to {
        if enabled[order[place] as usize - 1] {
            return Some(place);
        }
    }
    None
}
