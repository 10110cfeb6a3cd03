//! The threads of clients: what each has beside its stack of continuations.
//!
//! A thread of RedLeaf (OSDI 2020, section 3.1) moves into the domain that it calls and back out of
//! it. Here a client has one thread, which makes the commands of its script one by one. A thread
//! has fuel, the place of its next command, and the names of its script: a name that holds an
//! object owns it, and a call that moves the object takes it out of the name.
#![tactic(auto)]

pub mod laws;
mod may_move;
mod names;
#[cfg(test)]
mod tests;
mod thread;
mod threads;

pub use thread::Thread;
pub use threads::Threads;
