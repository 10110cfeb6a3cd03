//! The block device: what its blocks hold.
//!
//! A driver of RedLeaf is a domain, which is loaded again after it has failed (OSDI 2020, section
//! 3.2). What its device holds is no part of it and outlives each of its instances. Here the device
//! has blocks of 64 words, which are read and written whole, and are 0 at the start.
#![tactic(auto)]

mod blocks;
mod may_move;
#[cfg(test)]
mod tests;

pub use blocks::{BLOCK_WORDS, Blocks};
