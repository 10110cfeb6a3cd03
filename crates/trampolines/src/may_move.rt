//! What may move between threads. These calls are here for their bounds.

use crate::body::Body;
use crate::stacks::Stacks;
use machine_defs::frame::Action;

fn may_move<T: Send>() {}

/// Stacks may move between threads, of actions and of native bodies.
pub fn stacks_move() {
    may_move::<Stacks<Action>>();
    may_move::<Stacks<Body<u64>>>();
}
