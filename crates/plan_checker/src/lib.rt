//! The plan of a bundle: the rules 40 to 46, and the rows that a plan stands for. The names of the
//! bundle are known to be declared.
#![tactic(auto)]

pub mod check;
mod facts;
mod limits;
mod pairs;
mod rows;
mod rules;
mod scan;
mod tables;

pub use rows::PlanRows;
