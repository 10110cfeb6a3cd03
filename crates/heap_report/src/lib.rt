//! The report and the summary of a run.
//!
//! The shared heap of RedLeaf (OSDI 2020, section 3) knows for each object who owns it and how
//! often it is borrowed. The report lists the objects that are left on it, and what each owner
//! made, received, passed on and freed. All of that but the loans is read off the history, in one
//! pass.
#![tactic(auto)]

mod accounts;
mod calls;
mod counting;
mod entries;
mod objects;
mod put;
mod reading;
mod report;
mod summary;

pub use report::{ObjectRow, write_report};
pub use summary::write_summary;
