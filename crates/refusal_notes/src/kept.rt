//! Bytes that are kept as they pass, up to a limit.
ghost use Rattle.refusal_notes.specs.Keeping.{Keeps};

use std::alloc::Global;
use std::marker::Model;

/// Bytes that passed, all of them or none. Contracts see the bytes, or that they were given up:
/// more came than may be kept, or memory ran out.
#[derive(Drop)]
pub struct Kept {
    bytes: Vec<u8>,
    most: usize,
    lost: bool,
}

impl Model for Kept {
    ghost use Rattle.std.specs.Prelude.{ℕ, List, Option, Some, None, if◌then◌else◌};

    ghost Value = { Option (List ℕ) };

    ghost view = { λ k. if k.lost then None else Some k.bytes.items };
}

impl Kept {
    ghost use Rattle.std.specs.Prelude.{◌≡◌, [], Some};
    ghost use Rattle.std.specs.Option.{option_copied};

    /// No bytes yet, of which at most so many are kept.
    pub fn new(alloc: Global, most: usize) -> Kept
        ensures { result ≡ Some [] }
    {
        Kept {
            bytes: Vec::new(alloc),
            most,
            lost: false,
        }
    }

    /// Keeps bytes behind the others, or gives all up.
    pub fn keep(&mut self, bytes: &[u8])
        ensures { Keeps self.old bytes.now self.new }
    {
        if self.lost {
            return;
        }
        if bytes.len() > self.most.saturating_sub(self.bytes.len()) {
            self.lost = true;
            return;
        }
        if self.bytes.extend_from_slice(bytes).is_err() {
            self.lost = true;
        }
    }

    /// The bytes, where they were not given up.
    pub fn bytes(&self) -> Option<&[u8]>
        ensures { option_copied result ≡ self.now }
    {
        if self.lost {
            return None;
        }
        Some(self.bytes.as_slice())
    }
}
