//! The tables that proxies are made from: structs and traits as the kinds of their cells,
//! parameters and results (RedLeaf, section 3.1: proxies).
#![tactic(auto)]

mod flat;
pub mod laws;
mod names;
mod rows;
mod rules;
mod scan;

pub use names::method;
pub use rows::build;
