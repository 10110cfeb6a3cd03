//! Where bytes go.
ghost use Rattle.std.specs.Prelude.{ℕ, ◌<◌, List, length, Option, IfOk};
ghost use Rattle.std.specs.Io.{WritesAtMost};
ghost use Rattle.std.specs.Io.KnownBytes.{WriteAppends};
ghost use Rattle.rl_io.specs.Causes.{HasCause};

use crate::Failed;

/// A sink for bytes.
pub trait Sink {
    // The bytes given so far, where it tells them.
    ghost given: { Self → Option (List ℕ) };

    // How often it has failed.
    ghost faults: { Self → ℕ };

    /// Gives the first bytes of `piece` and nothing else, and answers how many: at least one of a
    /// piece that isn't empty.
    ///
    /// # Errors
    ///
    /// [`Failed`] where the count of faults rose. Then nothing of the piece was given.
    fn give(&mut self, piece: &[u8]) -> Result<usize, Failed>
        ensures within { WritesAtMost result piece.now }
        ensures bytes { WriteAppends (given self.old) (given self.new) result piece.now }
        ensures progress { 0 < length piece.now → IfOk result (λ n. 0 < n) }
        ensures cause { HasCause (faults self.old) (faults self.new) result };
}
