//! The scripts of the clients: each command is given what it asks for, and no object is used that
//! is gone. What the commands stand for, by the numbers of structs, targets, methods and script
//! names.
#![tactic(auto)]

mod bindings;
pub mod checker;
mod clients;
mod commands;
mod fits;
mod names;
mod owned;
mod scope;
mod script;
mod targets;
