//! The canonical lines that are still to be written.
ghost use Rattle.std.specs.Prelude.{◌≡◌, List, ℕ, map, option_map};
ghost use Rattle.std.specs.Option.{option_copied};
ghost use Rattle.rl_text.specs.Places.{text_of};
ghost use Rattle.bundle_format.specs.Queues.{AreInside, Takes};

use rl_text::line::Line;

/// Lines of a text, from some line on.
#[derive(Clone, Copy)]
pub(crate) struct Queue<'a> {
    bytes: &'a [u8],
    lines: &'a [Line],
    ghost inside: { AreInside bytes.now lines.now },
}

impl<'a> Queue<'a> {
    /// These lines of a text.
    pub(crate) fn new(bytes: &'a [u8], lines: &'a [Line]) -> Queue<'a>
        requires { AreInside bytes.now lines.now }
        ensures { map (text_of result.bytes.now) result.lines.now ≡ map (text_of bytes.now) lines.now }
    {
        Queue { bytes, lines }
    }

    /// Takes the first line.
    pub(crate) fn next(&mut self) -> Option<&'a [u8]>
        ensures { Takes (map (text_of self.old.bytes.now) self.old.lines.now) (option_copied result)
            (map (text_of self.new.bytes.now) self.new.lines.now) }
    {
        match self.lines {
            [] => None,
            [first, rest @ ..] => {
                let text = first.text(self.bytes);
                *self = Queue {
                    bytes: self.bytes,
                    lines: rest,
                };
                Some(text)
            }
        }
    }
}
