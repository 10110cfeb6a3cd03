//! What may hold up a turn.

/// Something that a worker passes before each of its turns, as a test that makes two workers wait
/// for each other.
///
/// It is called with no lock held and can change nothing of the kernel. Workers share one gate, so
/// whoever takes a gate asks for `Sync` too.
pub trait Gate {
    /// Thread `t` is about to make its turn number `turn`, counted from 1.
    fn before(&self, t: u32, turn: u64);
}
