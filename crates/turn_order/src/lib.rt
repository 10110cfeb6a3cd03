//! The order in which an ordered run gives the clients their turns.
//!
//! The order list has the clients that the plan names, and then the others in the order of the
//! text. A run goes round it, and passes over each client that isn't enabled.
#![tactic(auto)]

mod enabled;
pub mod laws;
mod may_move;
mod order;

pub use enabled::next;
pub use order::Order;
