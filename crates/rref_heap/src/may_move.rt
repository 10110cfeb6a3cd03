//! What may move between threads. These calls are here for their bounds.

use crate::heap::Heap;

fn may_move<T: Send>() {}

fn may_be_shared<T: Sync>() {}

/// A heap may move between threads, and be read by several.
pub fn heap_may_move() {
    may_move::<Heap>();
    may_be_shared::<Heap>();
}
