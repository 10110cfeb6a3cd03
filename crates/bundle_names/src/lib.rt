//! Rules 3 and 4 in a bundle: names that are given twice, and names that nothing declares.
//!
//! [`check_names`] checks the interfaces, the domains, the plan and the clients, in the order of
//! the text.
#![tactic(auto)]

mod check;
mod clients;
mod domain_lines;
mod domains;
mod given;
mod interface_lines;
mod interface_names;
mod interfaces;
mod known;
mod plan;
mod roles;

pub use check::check_names;
