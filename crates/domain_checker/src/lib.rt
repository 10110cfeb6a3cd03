//! Domain code that keeps the ownership rules: each register has the kind that a line asks for, and
//! no own object is lost (RedLeaf, section 3.1).
#![tactic(auto)]

mod checker;
mod claims;
mod declared;
mod effects;
mod here;
mod jumps;
mod kinds;
mod moves;
mod names;
mod native;
mod operands;
mod rows;
mod rules;
mod scan;
mod scope;
mod tables;
mod ways;

pub use checker::Checker;
