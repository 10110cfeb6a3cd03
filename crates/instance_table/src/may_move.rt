//! What may move between threads. These calls are here for their bounds.

use crate::instances::Instances;

fn may_move<T: Send>() {}

/// The instances may move between threads.
pub fn instances_move() {
    may_move::<Instances>();
}
