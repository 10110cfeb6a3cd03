//! The command `heads N`: two threads give up the heads of a table that no lock guards, and what
//! closing it told is printed.
#![tactic(auto)]

mod run;
#[cfg(test)]
mod tests;
mod text;
mod words;
mod workers;

pub use run::redleaf_heads;
pub use words::{MOST_HEADS, heads_of};
