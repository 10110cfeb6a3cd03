//! The words of a line.
ghost use Rattle.std.specs.Prelude.{◌≡◌, ◌==◌, ◌<◌, ◌≤◌, length, IfSome, IfNone};
ghost use Rattle.std.specs.List.{position_or_len, before_first, after_first};
ghost use Rattle.std.specs.Option.{option_copied};
ghost use Rattle.history_text.specs.Reading.{words_of, words_left, first, rest};

use std::marker::Model;

/// What is left of a line. A word ends at each blank. Contracts see the list of the words.
#[derive(Drop)]
pub(crate) struct Words<'a> {
    left: Option<&'a [u8]>,
}

impl<'a> Model for Words<'a> {
    ghost use Rattle.std.specs.Prelude.{List, ℕ};
    ghost use Rattle.std.specs.Option.{option_copied};
    ghost use Rattle.history_text.specs.Reading.{words_left};

    ghost Value = { List (List ℕ) };

    ghost view = { λ w. words_left (option_copied w.left) };
}

// The place of the first such byte, or the length.
fn place_of(text: &[u8], byte: u8) -> usize
    ensures { result ≡ position_or_len (λ b. b == byte) text.now }
{
    text.iter().take_while(|b| **b != byte).count()
}

/// What stands before the first such byte, and what behind it. None exactly where there is none.
pub(crate) fn cut(text: &[u8], byte: u8) -> Option<(&[u8], &[u8])>
    ensures some { IfSome result (λ r. (r.0.now ≡ before_first (λ b. b == byte) text.now)
        × (r.1.now ≡ after_first (λ b. b == byte) text.now) × (position_or_len (λ b. b == byte) text.now < length text.now)) }
    ensures none { IfNone result (length text.now ≤ position_or_len (λ b. b == byte) text.now) }
{
    let len = place_of(text, byte);
    if len < text.len() {
        Some((&text[..len], &text[len + 1..]))
    } else {
        None
    }
}

// The first word of what is left, and what is left then.
fn next_of(left: Option<&[u8]>) -> (&[u8], Option<&[u8]>)
    ensures word { result.0.now ≡ first (words_left (option_copied left.entry)) }
    ensures others { words_left (option_copied result.1) ≡ rest (words_left (option_copied left.entry)) }
{
    let Some(text) = left else {
        return (b"", None);
    };
    match cut(text, b' ') {
        Some((word, others)) => (word, Some(others)),
        None => (text, None),
    }
}

// Whether no word is left.
fn is_used_up(left: Option<&[u8]>) -> bool
    ensures { result ≡ (length (words_left (option_copied left.entry)) == 0) }
{
    match left {
        Some(_) => false,
        None => true,
    }
}

impl<'a> Words<'a> {
    /// The words of a text.
    pub(crate) fn new(text: &'a [u8]) -> Words<'a>
        ensures { result ≡ words_of text.now }
    {
        Words { left: Some(text) }
    }

    /// Whether no word is left.
    pub(crate) fn is_empty(&self) -> bool
        ensures { result ≡ (length self.now == 0) }
    {
        is_used_up(self.left)
    }

    /// Takes the first word, the empty one where none is left.
    pub(crate) fn next(&mut self) -> &'a [u8]
        ensures word { result.now ≡ first self.old }
        ensures others { self.new ≡ rest self.old }
    {
        let (word, left) = next_of(self.left);
        self.left = left;
        word
    }
}
