//! What may move between threads. These calls are here for their bounds.

use crate::blocks::Blocks;

fn may_move<T: Send>() {}

/// The blocks may move between threads.
pub fn blocks_move() {
    may_move::<Blocks>();
}
