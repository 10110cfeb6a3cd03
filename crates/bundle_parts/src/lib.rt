//! A bundle, cut at its headers, and its parts read.
#![tactic(auto)]

mod cut;
pub mod header;
pub mod laws;
mod read;

pub use read::read_bundle;
