//! A source and a sink that never fail.
ghost use Rattle.std.specs.Prelude.{◌≡◌, ◌+◌, ◌-◌, ◌^◌, ◌++◌, min, length, take, drop, Some, None, Ok};

use crate::in_memory::Remaining;
use crate::{Failed, Sink, Source};
use std::marker::Model;

/// A source over bytes in memory that never fails. Contracts see it as the bytes that are left,
/// which it tells.
#[derive(Drop)]
pub struct SteadySource {
    left: Remaining,
}

impl Model for SteadySource {
    ghost use Rattle.std.specs.Prelude.{ℕ, List};

    ghost Value = { List ℕ };

    ghost view = { λ s. s.left };
}

impl SteadySource {
    /// A source of these bytes.
    pub fn new(bytes: Vec<u8>) -> Self
        ensures { result ≡ bytes.items }
    {
        SteadySource {
            left: Remaining::new(bytes),
        }
    }
}

impl Source for SteadySource {
    ghost left = { λ s. Some s };

    ghost faults = { λ s. 0 };

    /// Takes as many of the bytes left as the buffer has room for.
    fn take(&mut self, buf: &mut [u8]) -> Result<usize, Failed>
        ensures count { result ≡ Ok (min (length self.old) (length buf.old)) }
        ensures buffer { buf.new ≡ take (length buf.old) self.old ++ drop (length self.old) buf.old }
        ensures left { self.new ≡ drop (length buf.old) self.old }
    {
        Ok(self.left.take(buf.len(), buf))
    }
}

/// A sink that counts the bytes given, keeps none, tells none and never fails. Contracts see it as
/// that count.
#[derive(Drop)]
pub struct SteadySink {
    count: u64,
}

impl Model for SteadySink {
    ghost use Rattle.std.specs.Prelude.{ℕ};

    ghost Value = { ℕ };

    ghost view = { λ s. s.count };
}

impl SteadySink {
    /// A sink that was given nothing.
    pub fn new() -> Self
        ensures { result ≡ 0 }
    {
        SteadySink { count: 0 }
    }

    /// How many bytes were given. It stays at the greatest `u64`.
    pub fn count(&self) -> u64
        ensures { result ≡ self.now }
    {
        self.count
    }
}

impl Sink for SteadySink {
    ghost given = { λ s. None };

    ghost faults = { λ s. 0 };

    /// Takes the whole piece.
    fn give(&mut self, piece: &[u8]) -> Result<usize, Failed>
        ensures whole { result ≡ Ok (length piece.now) }
        ensures count { self.new ≡ min (self.old + length piece.now) (2 ^ 64 - 1) }
    {
        self.count = self.count.saturating_add(piece.len() as u64);
        Ok(piece.len())
    }
}
