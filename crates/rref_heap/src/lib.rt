//! The shared heap: objects that domains pass and lend to one another (RedLeaf, OSDI 2020, section
//! 3.1).
//!
//! A [`Heap`] knows of each object its owner, its loans, its cells and what hangs in them. It keeps
//! the roots of each owner together, so the end of an owner looks at what that owner had, and at
//! nothing else. Only calls that end in `_one` or `_owner` and answer a
//! `Result` take memory.
#![tactic(auto)]

mod firsts;
mod heap;
mod listing;
mod may_move;
mod place;
mod places;
mod steps;
mod store;
#[cfg(test)]
mod tests;

pub use heap::{Heap, ObjectRow};
pub use may_move::heap_may_move;
pub use place::{Hanging, Place};
pub use steps::Steps;
