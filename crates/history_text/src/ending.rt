//! The end of a line, written from the last byte to the first.
ghost use Rattle.std.specs.Prelude.{◌≡◌, ◌+◌, ◌≤◌, [], ◌++◌, length};
ghost use Rattle.std.specs.Fmt.{decimal};

use itoa::write_digits;
use std::marker::Model;

// More than the longest line has without its arguments, results or values.
const ROOM: usize = 128;

/// The bytes that a line ends with. What is put goes in front of what is there. Contracts see the
/// bytes.
#[derive(Drop)]
pub(crate) struct Ending {
    bytes: [u8; ROOM],
    start: usize,
}

impl Model for Ending {
    ghost use Rattle.std.specs.Prelude.{◌≡◌, ◌≤◌, ℕ, List, length, drop};

    ghost Value = { List ℕ };

    ghost view = { λ e. drop e.start e.bytes };

    ghost invariant = { λ e. (e.start ≤ 128) × (length e.bytes ≡ 128) };
}

impl Ending {
    /// No bytes yet.
    #[inline]
    pub(crate) fn new() -> Ending
        ensures { result ≡ [] }
    {
        Ending {
            bytes: [0; ROOM],
            start: ROOM,
        }
    }

    /// The bytes.
    #[inline]
    pub(crate) fn as_slice(&self) -> &[u8]
        ensures { result.now ≡ self.now }
    {
        &self.bytes[self.start..]
    }

    /// Puts bytes in front.
    #[inline(always)]
    pub(crate) fn put(&mut self, text: &[u8])
        requires { length text.now + length self.old ≤ 128 }
        ensures value { self.new ≡ text.now ++ self.old }
        ensures room { length self.new ≡ length text.now + length self.old }
    {
        let end = self.start;
        let start = end - text.len();
        self.bytes[start..end].copy_from_slice(text);
        self.start = start;
    }

    // Puts a number in front. It stands apart, and so its loop stands in the program once.
    #[inline(never)]
    fn put_digits(&mut self, number: u64)
        requires { 20 + length self.old ≤ 128 }
        ensures value { self.new ≡ decimal number ++ self.old }
        ensures room { length self.new ≤ 20 + length self.old }
    {
        self.start = write_digits(number, &mut self.bytes, self.start);
    }

    /// Puts bytes and a number in front.
    #[inline(always)]
    pub(crate) fn put_number(&mut self, text: &[u8], number: u64)
        requires { length text.now + (20 + length self.old) ≤ 128 }
        ensures value { self.new ≡ text.now ++ (decimal number ++ self.old) }
        ensures room { length self.new ≤ length text.now + (20 + length self.old) }
    {
        self.put_digits(number);
        self.put(text);
    }

    /// Puts bytes and a name in front.
    #[inline(always)]
    pub(crate) fn put_name(&mut self, text: &[u8], name: &[u8])
        requires short { length name.now ≤ 24 }
        requires room { length text.now + (24 + length self.old) ≤ 128 }
        ensures value { self.new ≡ text.now ++ (name.now ++ self.old) }
        ensures room { length self.new ≤ length text.now + (24 + length self.old) }
    {
        self.put(name);
        self.put(text);
    }
}
