//! The steps of the domain machine: a load, its log and the state that the log leads to, and one
//! call for each kind of step.
//!
//! A [`Machine`] keeps that its log is a run of its load that ends in its state. Each call makes
//! one step of the machine, and logs it with the objects that are freed behind it. Which step a
//! thread takes is decided elsewhere; here it is made.
#![tactic(auto)]

mod act;
mod calls;
mod ends;
mod frames;
mod given;
mod known;
mod machine;
mod making;
mod may_move;
mod names;
mod natives;
mod next;
mod object_acts;
mod objects;
mod refusals;
mod reloads;
mod reply;
mod returns;
mod script;
mod settle;
mod shown;
mod standing;
mod start;
mod turn;
mod view;

pub use machine::Machine;
pub use natives::NativeState;
pub use standing::Standing;
pub use start::is_code_alone;
pub use turn::Turn;
