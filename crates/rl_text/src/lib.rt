//! Lines and tokens of a text, and what the readers of line forms stand on: lexemes, a cursor over
//! them, and the writing of tokens.
#![tactic(auto)]

pub mod cursor;
pub mod decimal;
pub mod lexeme;
pub mod line;
pub mod list;
mod number;
pub mod part;
pub mod render;
pub mod scan;
pub mod token;
