//! What is told of a refusal beside the program's output: the place, the rule in a plain sentence,
//! the line, and why it is refused.
#![tactic(auto)]

pub mod keeping;
mod kept;
pub mod note;
pub mod sentences;
#[cfg(test)]
mod tests;
