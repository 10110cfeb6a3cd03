//! A source and a sink in memory, which take bytes in small pieces and fail at the calls that they
//! are told.
ghost use Rattle.std.specs.Prelude.{◌≡◌, ◌<◌, ◌≤◌, ◌↔◌, ◌⊎◌, ◌++◌, min, length, take, drop, Some, IsErr, IfOk, MatchResult, Contains};
ghost use Rattle.std.specs.Io.{ReadsAtMost, WritesAtMost};
ghost use Rattle.std.specs.Io.KnownBytes.{ReadConsumes, WriteAppends};
ghost use Rattle.rl_io.specs.Causes.{next_count, HasCause};
ghost use Rattle.rl_io.specs.InMemory.{fresh_source, after_take, after_failed_take, fresh_sink, share, after_give, after_failed_give};

use crate::{Failed, Sink, Source};
use std::alloc::{AllocError, Global};
use std::marker::Model;

/// Bytes that are taken from the front. Contracts see it as the bytes that are left.
#[derive(Drop)]
pub(crate) struct Remaining {
    bytes: Vec<u8>,
    at: usize,
}

impl Model for Remaining {
    ghost use Rattle.std.specs.Prelude.{ℕ, ◌≤◌, List, drop, vec_len};

    ghost Value = { List ℕ };

    ghost view = { λ r. drop r.at r.bytes.items };

    ghost invariant = { λ r. r.at ≤ vec_len r.bytes };
}

impl Remaining {
    pub(crate) fn new(bytes: Vec<u8>) -> Self
        ensures { result ≡ bytes.items }
    {
        Remaining { bytes, at: 0 }
    }

    /// Moves as many of the first bytes as there are and `most` and the buffer allow, and answers
    /// how many.
    pub(crate) fn take(&mut self, most: usize, buf: &mut [u8]) -> usize
        ensures count { result ≡ min (length self.old) (min most (length buf.old)) }
        ensures buffer { buf.new ≡ take result self.old ++ drop result buf.old }
        ensures left { self.new ≡ drop result self.old }
    {
        let rest = &self.bytes[self.at..];
        let count = rest.len().min(most).min(buf.len());
        buf[..count].copy_from_slice(&rest[..count]);
        self.at += count;
        count
    }
}

/// A source over bytes in memory, of which one call takes at most `chunk`. The calls named in
/// `failing` fail.
///
/// It counts its calls, from 1, and its faults; both counts stay at the greatest `u64`.
#[derive(Drop)]
pub struct MemSource {
    left: Remaining,
    chunk: usize,
    failing: Vec<u64>,
    calls: u64,
    faults: u64,
}

impl Model for MemSource {
    ghost use Rattle.std.specs.Prelude.{◌<◌};
    ghost use Rattle.rl_io.specs.InMemory.{SourceState};

    ghost Value = { SourceState };

    ghost view = { λ s. record {
      left = s.left;
      chunk = s.chunk;
      failing = s.failing.items;
      calls = s.calls;
      faults = s.faults;
    } };

    ghost invariant = { λ s. 0 < s.chunk };
}

impl MemSource {
    /// A source of these bytes, which hands out at most `chunk` of them in one call and fails at
    /// the calls named.
    pub fn new(bytes: Vec<u8>, chunk: usize, failing: Vec<u64>) -> Self
        requires { 0 < chunk }
        ensures { result ≡ fresh_source bytes.items chunk failing.items }
    {
        MemSource {
            left: Remaining::new(bytes),
            chunk,
            failing,
            calls: 0,
            faults: 0,
        }
    }

    /// How many calls of `take` were made. It stays at the greatest `u64`.
    pub fn calls(&self) -> u64
        ensures { result ≡ self.now.calls }
    {
        self.calls
    }
}

impl Source for MemSource {
    ghost left = { λ s. Some s.left };

    ghost faults = { λ s. s.faults };

    /// Takes as many bytes as are left and the chunk and the buffer allow, or fails where this call
    /// is named.
    fn take(&mut self, buf: &mut [u8]) -> Result<usize, Failed>
        ensures within { ReadsAtMost result buf.new }
        ensures bytes { ReadConsumes (Some self.old.left) (Some self.new.left) result buf.new }
        ensures cause { HasCause self.old.faults self.new.faults result }

        // Exactly the calls named fail.
        ensures failing { IsErr result ↔ Contains self.old.failing (next_count self.old.calls) }
        ensures count { IfOk result (λ n. n ≡ min (length self.old.left) (min self.old.chunk (length buf.old))) }
        ensures buffer { MatchResult result (λ n. buf.new ≡ take n self.old.left ++ drop n buf.old)
            (λ _. buf.new ≡ buf.old) }
        ensures after { MatchResult result (λ n. self.new ≡ after_take n self.old)
            (λ _. self.new ≡ after_failed_take self.old) }
    {
        self.calls = self.calls.saturating_add(1);
        if self.failing.contains(&self.calls) {
            self.faults = self.faults.saturating_add(1);
            return Err(Failed);
        }
        let most = self.chunk;
        Ok(self.left.take(most, buf))
    }
}

/// A sink in memory that keeps what it is given: at most `chunk` bytes of one call and `room` bytes
/// over all. The calls named in `failing` fail, and so does one that could take nothing of a piece
/// that isn't empty.
///
/// Its room is reserved when it is made, so no call takes memory. It counts its calls, from 1, and
/// its faults; both counts stay at the greatest `u64`.
#[derive(Drop)]
pub struct MemSink {
    bytes: Vec<u8>,
    room: usize,
    chunk: usize,
    failing: Vec<u64>,
    calls: u64,
    faults: u64,
}

impl Model for MemSink {
    ghost use Rattle.std.specs.Prelude.{◌≤◌, vec_len, vec_capacity};
    ghost use Rattle.rl_io.specs.InMemory.{SinkState};

    ghost Value = { SinkState };

    ghost view = { λ s. record {
      given = s.bytes.items;
      room = s.room;
      chunk = s.chunk;
      failing = s.failing.items;
      calls = s.calls;
      faults = s.faults;
    } };

    ghost invariant = { λ s. (vec_len s.bytes ≤ s.room) × (s.room ≤ vec_capacity s.bytes) };
}

impl MemSink {
    /// An empty sink. A chunk of 0 takes nothing: then each piece that isn't empty fails.
    ///
    /// # Errors
    ///
    /// [`AllocError`] where the room can't be reserved.
    pub fn new(
        alloc: Global,
        room: usize,
        chunk: usize,
        failing: Vec<u64>,
    ) -> Result<Self, AllocError>
        ensures { IfOk result (λ sink. sink ≡ fresh_sink room chunk failing.items) }
    {
        let bytes = Vec::with_capacity(alloc, room)?;
        Ok(MemSink {
            bytes,
            room,
            chunk,
            failing,
            calls: 0,
            faults: 0,
        })
    }

    /// The bytes given so far.
    pub fn given(&self) -> &[u8]
        ensures given { result.now ≡ self.now.given }
        ensures room { length result.now ≤ self.now.room }
    {
        self.bytes.as_slice()
    }

    /// How many calls of `give` were made. It stays at the greatest `u64`.
    pub fn calls(&self) -> u64
        ensures { result ≡ self.now.calls }
    {
        self.calls
    }
}

impl Sink for MemSink {
    ghost given = { λ s. Some s.given };

    ghost faults = { λ s. s.faults };

    /// Takes as many of the piece's first bytes as the chunk and the room that is left allow.
    fn give(&mut self, piece: &[u8]) -> Result<usize, Failed>
        ensures within { WritesAtMost result piece.now }
        ensures bytes { WriteAppends (Some self.old.given) (Some self.new.given) result piece.now }
        ensures progress { 0 < length piece.now → IfOk result (λ n. 0 < n) }
        ensures cause { HasCause self.old.faults self.new.faults result }

        // Exactly the calls named fail, and those that could take nothing of something.
        ensures failing { IsErr result ↔ (Contains self.old.failing (next_count self.old.calls)
            ⊎ (0 < length piece.now) × (share self.old (length piece.now) ≡ 0)) }
        ensures count { IfOk result (λ n. n ≡ share self.old (length piece.now)) }
        ensures after { MatchResult result (λ n. self.new ≡ after_give (take n piece.now) self.old)
            (λ _. self.new ≡ after_failed_give self.old) }
    {
        self.calls = self.calls.saturating_add(1);
        let free = self.room - self.bytes.len();
        let count = piece.len().min(self.chunk).min(free);
        let takes_nothing = count == 0 && !piece.is_empty();
        if takes_nothing || self.failing.contains(&self.calls) {
            self.faults = self.faults.saturating_add(1);
            return Err(Failed);
        }
        match self.bytes.extend_from_slice(&piece[..count]) {
            Ok(()) => Ok(count),
            Err(_) => unreachable!(),
        }
    }
}
