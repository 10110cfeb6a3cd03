//! What may move between threads. These calls are here for their bounds.

use crate::order::Order;

fn may_move<T: Send>() {}

/// The order list may move between threads.
pub fn order_moves() {
    may_move::<Order>();
}
