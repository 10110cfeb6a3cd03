//! The lines of the plan.

mod form;
mod read;
mod write;

pub use read::read_plan;
pub use write::write_plan;
