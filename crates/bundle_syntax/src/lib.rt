//! The lines of the plan and of the clients, read and written.
#![tactic(auto)]

mod clients;
pub mod laws;
mod list;
mod plan;
mod written;

pub use clients::{read_clients, write_clients};
pub use plan::{read_plan, write_plan};
