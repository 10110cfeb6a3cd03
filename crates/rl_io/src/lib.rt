//! The outside of the machine: where bytes come from, where they go, and what may hold up a turn.
//!
//! A [`Source`] and a [`Sink`] each keep a count of their faults, which never falls, and answer
//! [`Failed`] only where it rose in that call or stands at the greatest `u64`. Code that is generic
//! over them can't raise the count, so a caller that answers a fault can only hand one on.
#![tactic(auto)]

mod adapters;
mod gate;
mod in_memory;
mod sink;
mod source;
mod steady;
#[cfg(test)]
mod tests;
mod whole;

pub use adapters::{StdSink, StdSource};
pub use gate::Gate;
pub use in_memory::{MemSink, MemSource};
pub use sink::Sink;
pub use source::Source;
pub use steady::{SteadySink, SteadySource};
pub use whole::{ReadAll, read_whole, write_whole};

/// A `take` or a `give` failed. The count of faults of the source or the sink says so too.
#[derive(Clone, Copy, Debug, PartialEq, Eq)]
pub struct Failed;
