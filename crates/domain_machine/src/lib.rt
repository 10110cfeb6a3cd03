//! The domain machine: a world is a machine with its order list, and runs its load turn by turn.
#![tactic(auto)]

mod may_move;
mod world;

pub use machine_steps::Turn;
pub use world::{Finish, World, builds};
