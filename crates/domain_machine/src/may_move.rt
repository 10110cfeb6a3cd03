//! What may move between threads. These calls are here for their bounds.

use crate::world::World;

fn may_move<T: Send>() {}

/// A world may move between threads.
pub fn world_moves() {
    may_move::<World>();
}
