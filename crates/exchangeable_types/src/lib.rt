//! Which types may cross a domain boundary, and what they flatten to (RedLeaf, section 3.1:
//! exchangeable types).
#![tactic(auto)]

mod cells;
pub mod check;
pub mod laws;
mod nesting;
mod part;
mod rows;
mod search;
mod types;
mod walk;

// What the tables of proxies are made with.
pub use cells::{Cells, put};
pub use check::{Types, check_types};
pub use part::{Part, trait_name};
pub use types::{is_lent, kind_held, result_types, struct_held, times};
