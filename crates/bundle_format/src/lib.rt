//! A bundle written in its canonical spelling: each line at its place, with its comment.
#![tactic(auto)]

mod alike;
mod alike_bundles;
mod alike_domains;
mod alike_interfaces;
mod calm;
mod canonical;
pub mod format;
mod line;
mod put;
mod queue;
mod status;
mod weave;

pub use calm::format_calm;
pub use status::Status;
