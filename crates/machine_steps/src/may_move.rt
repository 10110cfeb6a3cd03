//! What may move between threads. These calls are here for their bounds.

use crate::machine::Machine;

fn may_move<T: Send>() {}

/// A machine may move between threads.
pub fn machine_moves() {
    may_move::<Machine>();
}
