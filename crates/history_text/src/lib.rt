//! The texts of a history, both ways: the line of each entry, the lines of a log, the replies of
//! its clients' commands, and the entry that a line is.
//!
//! A line is written from its end to its start in a small buffer, so that each number is written
//! where it stays, and goes to the text as one piece. What the texts are is stated in
//! `machine_defs`, `specs/Texts.antt`.
#![tactic(auto)]

mod acts;
mod ending;
mod entries;
mod fields;
mod heads;
mod items;
mod names;
mod numbers;
mod reader;
mod replies;
mod spellings;
mod tallies;
mod verb;
mod words;

pub use entries::{write_entry, write_log};
pub use numbers::number_of;
pub use reader::read_entry;
pub use replies::write_replies;
pub use spellings::Spellings;
