//! What stands between domains: whether a call may cross, where it goes, and what it does to the
//! objects that it passes and lends.
//!
//! RedLeaf (OSDI 2020, section 3.1) puts a proxy at each crossing. It checks that the called domain
//! lives, and moves or lends the `RRef`s among the arguments. Here a crossing is asked about first,
//! then made by the machine; none of these calls but the table's takes memory.
#![tactic(auto)]

mod crossing;
mod objects;
mod reentry;
mod table;

pub use crossing::{Crossing, crossing_of};
pub use objects::{end_loans, give_up, hand_back, hand_over};
pub use reentry::{Reentry, reentry_of};
pub use table::Proxies;
