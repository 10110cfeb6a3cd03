//! The program's calls on worked bundles, from the bytes that come in to the bytes that go out.
//! What they answer is proved in the crates that do it.
#![tactic(auto)]

#[cfg(test)]
mod bundles;
#[cfg(test)]
mod spellings;
