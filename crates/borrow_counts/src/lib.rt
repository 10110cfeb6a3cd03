//! How often an object is lent, and whether its owner has ended: the two of which one word of an
//! `RRef` tells who frees it (RedLeaf, OSDI 2020, section 3.1).
#![tactic(auto)]

#[cfg(test)]
mod tests;
mod word;

pub use word::{BorrowWord, MOST_LOANS};
