//! The table of instances: which were opened, which of them live, and their words and slots.
//!
//! An instance is a domain that runs (RedLeaf, OSDI 2020, section 3). It has a private heap, here
//! its words and slots, which nobody else reads or writes. Instances are numbered from 1 and never
//! renumbered; one that has ended stays in the table.
#![tactic(auto)]

mod instance;
mod instances;
mod may_move;
mod sizes;

pub use instance::Instance;
pub use instances::Instances;
