//! What may move between threads. These calls are here for their bounds.

use crate::threads::Threads;

fn may_move<T: Send>() {}

/// The threads of clients may move between threads.
pub fn threads_move() {
    may_move::<Threads>();
}
