//! What may move between threads. These calls are here for their bounds.

use crate::shadows::Shadows;

fn may_move<T: Send>() {}

/// The shadows may move between threads.
pub fn shadows_move() {
    may_move::<Shadows>();
}
