//! The lines of the domain part, read and written: domain code.
#![tactic(auto)]

mod form;
mod instr;
pub mod laws;
mod list;
mod operand;
mod part;
mod read;
mod verb;
mod write;

pub use part::read_domains;
pub use write::write_domain;
