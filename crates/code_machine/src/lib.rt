//! Register work: what the lines of a domain come to, up to the next action, and how a frame goes
//! on from the action's answer.
//!
//! A frame of domain code runs by the table of the instructions. `settle` finds what it would do
//! next; the machine does it, and `take_answer` puts what came of it into the frame. No step looks
//! a name up, and none takes memory.
#![tactic(auto)]

pub mod act;
pub mod answer;
pub mod entry;
mod registers;
pub mod settle;
mod table;
mod went;
mod widths;
mod work;
