//! What the program does with its input and output: one call from the bytes that come in to the
//! bytes that go out.
#![tactic(auto)]

mod calm;
mod command;
pub mod front;
mod left;
pub mod put;
mod refusal;
mod reply;
mod run;
mod status;
mod text;

pub use calm::{LONGEST_BUNDLE, redleaf_calm};
pub use refusal::refusal_in;
pub use status::Status;
