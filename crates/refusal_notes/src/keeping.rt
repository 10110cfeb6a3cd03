//! A source and a sink that pass everything on and keep what passed.
ghost use Rattle.std.specs.Prelude.{◌≡◌, ◌<◌, [], length, Some, IfOk};
ghost use Rattle.std.specs.Option.{option_copied};
ghost use Rattle.std.specs.Io.{ReadsAtMost, WritesAtMost};
ghost use Rattle.std.specs.Io.KnownBytes.{ReadConsumes, WriteAppends};
ghost use Rattle.rl_io.specs.Causes.{HasCause};
ghost use Rattle.refusal_notes.specs.Keeping.{KeepsTaken};

use crate::kept::Kept;
use rl_io::{Failed, Sink, Source};
use std::alloc::Global;
use std::marker::Model;

/// A source that passes on what another one gives, and keeps it.
#[derive(Drop)]
pub struct KeepingSource<S: Source + Drop> {
    inner: S,
    kept: Kept,
}

impl<S: Source + Drop> Model for KeepingSource<S> {
    ghost use Rattle.refusal_notes.specs.Keeping.{Kept as WithKept};

    ghost Value = { WithKept S };

    ghost view = { λ s. record { inner = s.inner; bytes = s.kept } };
}

impl<S: Source + Drop> KeepingSource<S> {
    /// A source of what `inner` gives, of which it keeps at most so many bytes.
    pub fn new(alloc: Global, inner: S, most: usize) -> Self
        ensures inner { result.inner ≡ inner }
        ensures kept { result.bytes ≡ Some [] }
    {
        KeepingSource {
            inner,
            kept: Kept::new(alloc, most),
        }
    }

    /// All bytes that were taken, where they were not given up.
    pub fn kept(&self) -> Option<&[u8]>
        ensures { option_copied result ≡ self.now.bytes }
    {
        self.kept.bytes()
    }
}

impl<S: Source + Drop> Source for KeepingSource<S> {
    ghost left = { λ s. S.left s.inner };

    ghost faults = { λ s. S.faults s.inner };

    /// Takes what the inner source gives.
    fn take(&mut self, buf: &mut [u8]) -> Result<usize, Failed>
        ensures within { ReadsAtMost result buf.new }
        ensures bytes { ReadConsumes (S.left self.old.inner) (S.left self.new.inner) result buf.new }
        ensures cause { HasCause (S.faults self.old.inner) (S.faults self.new.inner) result }
        ensures kept { KeepsTaken self.old.bytes result buf.new self.new.bytes }
    {
        match self.inner.take(buf) {
            Ok(count) => {
                self.kept.keep(&buf[..count]);
                Ok(count)
            }
            Err(failed) => Err(failed),
        }
    }
}

/// A sink that passes on what it is given, and keeps it.
#[derive(Drop)]
pub struct KeepingSink<K: Sink + Drop> {
    inner: K,
    kept: Kept,
}

impl<K: Sink + Drop> Model for KeepingSink<K> {
    ghost use Rattle.refusal_notes.specs.Keeping.{Kept as WithKept};

    ghost Value = { WithKept K };

    ghost view = { λ s. record { inner = s.inner; bytes = s.kept } };
}

impl<K: Sink + Drop> KeepingSink<K> {
    /// A sink to `inner` that keeps at most so many bytes of what it is given.
    pub fn new(alloc: Global, inner: K, most: usize) -> Self
        ensures inner { result.inner ≡ inner }
        ensures kept { result.bytes ≡ Some [] }
    {
        KeepingSink {
            inner,
            kept: Kept::new(alloc, most),
        }
    }

    /// All bytes that were given, where they were not given up.
    pub fn kept(&self) -> Option<&[u8]>
        ensures { option_copied result ≡ self.now.bytes }
    {
        self.kept.bytes()
    }
}

impl<K: Sink + Drop> Sink for KeepingSink<K> {
    ghost given = { λ s. K.given s.inner };

    ghost faults = { λ s. K.faults s.inner };

    /// Gives to the inner sink.
    fn give(&mut self, piece: &[u8]) -> Result<usize, Failed>
        ensures within { WritesAtMost result piece.now }
        ensures bytes { WriteAppends (K.given self.old.inner) (K.given self.new.inner) result piece.now }
        ensures progress { 0 < length piece.now → IfOk result (λ n. 0 < n) }
        ensures cause { HasCause (K.faults self.old.inner) (K.faults self.new.inner) result }
        ensures kept { KeepsTaken self.old.bytes result piece.now self.new.bytes }
    {
        match self.inner.give(piece) {
            Ok(count) => {
                self.kept.keep(&piece[..count]);
                Ok(count)
            }
            Err(failed) => Err(failed),
        }
    }
}
