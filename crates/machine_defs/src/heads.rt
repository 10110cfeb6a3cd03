//! What a head word shows, and what a caller knows of a table of heads.

/// What a head word shows.
#[derive(Clone, Copy, Debug, PartialEq, Eq)]
pub enum HeadWord {
    /// Nobody has claimed the head.
    Vacant,
    /// It is claimed, and its object isn't published yet.
    Busy,
    /// It was released: its object is freed, for good.
    Gone,
    /// It is published, with a count of loans, whether it has ended, and the number of the pass to
    /// which it is being passed on.
    Live {
        loans: u32,
        ended: bool,
        to: Option<u32>,
    },
}

/// The title to a head: the right to end it or to pass it on. That of the pass which claimed the
/// head knows the payload's list.
pub struct Title {
    pub head: u64,
    pub list: Option<[u64; 0]>,
}

/// What a pass knows. No value of it is made: a clause reads its arrays as lists, of any length.
pub struct View {
    /// The heads that it has claimed and not published yet.
    pub claims: [u64; 0],
    pub titles: [Title; 0],
    /// The heads that it has borrowed, one entry a loan.
    pub loans: [u64; 0],
    /// The heads of which it has the right of release.
    pub rights: [u64; 0],
    /// The heads that it ever claimed.
    pub claimed: [u64; 0],
    /// The heads that it ever released.
    pub released: [u64; 0],
    /// How many looks it made, at which head the last one was, the word that it found there, and
    /// the word that it left.
    pub looks: u64,
    pub last_head: u64,
    pub last_word: HeadWord,
    pub left_word: HeadWord,
    /// How many passes it stands for.
    pub passes: u64,
}

/// How large a table is.
#[derive(Clone, Copy)]
pub struct Size {
    pub heads: u32,
    pub seats: u32,
}
