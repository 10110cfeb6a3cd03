//! What files are: definitions that contracts on the file system cite, and what they come to.
//!
//! `specs/FileTable` says what a file system is: a table of 64 named rows, and what each request on
//! it is answered. `specs/Deeds` says what an instance's calls on its disk tell of that disk, and
//! `specs/DiskLayout` when a block breaks the layout. `specs/Calls` and `specs/DiskCalls` read both
//! from a history.
#![tactic(auto)]

pub mod laws;
pub mod worked;
