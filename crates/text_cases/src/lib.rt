//! Worked texts of the parts of a bundle: what is read, where it is refused, and what is written
//! back. That reading and writing keep to the rules is proved in the crates that do it.
#![tactic(auto)]

#[cfg(test)]
mod code;
#[cfg(test)]
mod idl;
#[cfg(test)]
mod scripts;
#[cfg(test)]
mod tokens;
