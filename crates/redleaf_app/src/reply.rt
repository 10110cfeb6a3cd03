//! What the bytes of a bundle are answered.

/// What the bytes of a bundle are answered: a text.
#[derive(Drop)]
pub(crate) enum Reply {
    /// It was done what the command asks for.
    Answered(Vec<u8>),
    /// They are refused.
    Refused(Vec<u8>),
    /// They were run until the history was full.
    Long(Vec<u8>),
}
