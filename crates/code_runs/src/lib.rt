//! Worked runs of frames of domain code, through the calls that the machine makes of it.
//!
//! A `MemoryView` is what a frame sees, as plain values. `begin` enters a method of a checked
//! domain, `wants` tells what its frame wants, and `go_on` goes on from an answer. Views, arguments
//! and answers are tested before they are used, so that the machine's calls may be made.
#![tactic(auto)]

pub mod answers;
pub mod enter;
pub mod fits;
pub mod rows;
pub mod run;
#[cfg(test)]
mod tests;
#[cfg(test)]
mod tests_calls;
#[cfg(test)]
mod tests_cells;
#[cfg(test)]
mod tests_numbers;
#[cfg(test)]
mod tests_objects;
#[cfg(test)]
mod tests_refused;
#[cfg(test)]
mod tests_ways;
pub mod text;
pub mod view;
