//! The lines of the clients.

mod arg;
mod form;
mod read;
mod write;

pub use read::read_clients;
pub use write::write_clients;
