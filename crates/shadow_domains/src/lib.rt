//! The table of shadows: which instance each stands for now, and how often it may be loaded again.
//!
//! A shadow domain exposes the interface of the driver that it stands for, and reloads it after it
//! has failed (RedLeaf, OSDI 2020, section 3.2). Here a reload opens a fresh instance of the
//! shadow's load and makes it the current one.
#![tactic(auto)]

mod may_move;
mod shadows;

pub use shadows::{Shadow, Shadows};
