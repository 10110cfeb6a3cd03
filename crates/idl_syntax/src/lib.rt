//! The lines of the interface part, read and written.
#![tactic(auto)]

mod form;
pub mod laws;
mod list;
mod part;
mod read;
mod types;
mod write;

pub use part::read_idl;
pub use read::read_idl_line;
pub use write::{write_idl, write_idl_line};
