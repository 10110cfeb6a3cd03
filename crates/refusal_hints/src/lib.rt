//! Why a line of a bundle is refused, as far as that is sure: the place in the line, what was found
//! there, what was expected, and another line that has to do with it.
#![tactic(auto)]

mod case;
mod code;
mod control;
mod forms;
mod given;
pub mod hint;
mod kinds;
mod methods;
mod order;
mod plan;
pub mod put;
mod registers;
mod scripts;
mod spelling;
mod structs;
mod tokens;
mod types;
mod used;
mod walk;
pub mod why;
