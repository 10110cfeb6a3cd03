//! Large bundles to run, each made from a number.
//!
//! A storm has up to sixteen clients. They share a device behind a shadow, a serial domain, and two
//! domains that pass an object on. Which commands a client has is drawn from the number, so a
//! storm is the same each time.
#![tactic(auto)]

mod bundle;
mod commands;
mod draws;
mod put;
#[cfg(test)]
mod tests;

pub use bundle::{MOST, storm};
