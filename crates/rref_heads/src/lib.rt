//! A table of heads that threads share without a lock.
//!
//! A head says of one object of a shared heap who owns it, who has borrowed it and who frees it.
//! All of that is one word, which changes in single atomic steps, so no call waits for another.
//! Beside the word there is a place for the object's payload, which only the caller may touch that
//! just claimed the head, or that frees it. docs/HEADS.md shows the states of the word.
#![tactic(auto)]

mod calls;
mod closing;
mod emptied;
pub mod laws;
mod numbers;
mod opening;
mod plays;
mod table;

pub use closing::Closed;
pub use machine_defs::heads::HeadWord;
pub use table::{Changed, Heads, Pass, Payload};
