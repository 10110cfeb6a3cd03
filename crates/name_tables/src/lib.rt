//! Names in the order in which a text gives them, and where each was given first.
#![tactic(auto)]

pub mod names;
#[cfg(test)]
mod tests;
