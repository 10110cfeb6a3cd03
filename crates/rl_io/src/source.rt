//! Where bytes come from.
ghost use Rattle.std.specs.Prelude.{ℕ, List, Option};
ghost use Rattle.std.specs.Io.{ReadsAtMost};
ghost use Rattle.std.specs.Io.KnownBytes.{ReadConsumes};
ghost use Rattle.rl_io.specs.Causes.{HasCause};

use crate::Failed;

/// A source of bytes.
pub trait Source {
    // The bytes that are left, where it tells them.
    ghost left: { Self → Option (List ℕ) };

    // How often it has failed.
    ghost faults: { Self → ℕ };

    /// Takes some of the bytes that are left to the front of `buf`, and answers how many. 0 bytes
    /// in a buffer that isn't empty are the end of input.
    ///
    /// # Errors
    ///
    /// [`Failed`] where the count of faults rose. Then the same bytes are left as before.
    fn take(&mut self, buf: &mut [u8]) -> Result<usize, Failed>
        ensures within { ReadsAtMost result buf.new }
        ensures bytes { ReadConsumes (left self.old) (left self.new) result buf.new }
        ensures cause { HasCause (faults self.old) (faults self.new) result };
}
