//! From the bytes of a bundle to the load that it stands for, or to the first rule that fails.
#![tactic(auto)]

mod bundle;
mod domains;
pub mod laws;
pub mod load;
mod tables;
