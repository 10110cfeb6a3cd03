//! The stacks of continuations: the frames of the calls that each thread has entered and not left.
//!
//! A thread of RedLeaf (OSDI 2020, section 3.1) migrates into the domain that it calls, and the
//! proxy keeps a continuation at the crossing, to which the thread is unwound where the domain
//! ends. Here a frame is that continuation. Beside the stacks there is a count of frames for each
//! instance, so that no stack is walked to find that nobody is in an instance.
#![tactic(auto)]

mod body;
pub mod laws;
mod may_move;
mod stack;
mod stacks;
#[cfg(test)]
mod tests;

pub use body::Body;
pub use stack::{MOST_FRAMES, Stack};
pub use stacks::Stacks;
