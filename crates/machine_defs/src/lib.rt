//! The domain machine: the data that only it uses, and the definitions that contracts cite.
//!
//! RedLeaf (OSDI 2020) keeps kernel parts, *domains*, apart by language safety alone. `rl_defs` has
//! what a bundle stands for; this crate has what runs: frames, actions, entries and logs, and in
//! `specs/` the machine itself: its states, its steps, its runs, and what their histories tell.
#![tactic(auto)]

pub mod arrays;
pub mod entry;
pub mod frame;
pub mod heads;
pub mod laws;
pub mod log;
pub mod values;
