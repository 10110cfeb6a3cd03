//! The end of an instance.
//!
//! Where a domain of RedLeaf (OSDI 2020, section 3.1) crashes, the threads inside it are unwound
//! and its heap is freed. Here an instance ends by a trap of its own or a client's kill: from then
//! on it is dead, what it owned is freed but for what is lent, and its frames are unwound one by
//! one as their threads run on.
#![tactic(auto)]

mod end;

pub use end::end_instance;
