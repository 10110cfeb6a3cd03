//! The shipped driver of a block device, and its law: a `read` that returned gives what the last
//! `devput` to its block had written.
#![tactic(auto)]

pub mod laws;
mod texts;

pub use texts::{driver_idl, driver_text};
