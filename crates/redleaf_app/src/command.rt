//! The commands, by the words after the program's name.
ghost use Rattle.std.specs.Prelude.{◌≡◌, ◌↔◌, ◌∷◌, [], IsTrue, map, string_bytes};
ghost use Rattle.redleaf_app.specs.Commands.{IsCommandOf};

/// What the program is asked to do with a bundle.
#[derive(Clone, Copy, Debug, PartialEq, Eq)]
pub enum Command {
    /// To say whether it is accepted.
    Check,
    /// To run it.
    Run,
}

// Whether the words are this one word.
fn is_word(words: &[String], word: &str) -> bool
    ensures { IsTrue result ↔ (map string_bytes words.now ≡ word.now ∷ []) }
{
    match words {
        [only] => only.as_str() == word,
        _ => false,
    }
}

/// The command of the words. None exactly where they are the words of none.
pub fn command_of(words: &[String]) -> Option<Command>
    ensures { IsCommandOf (map string_bytes words.now) result }
{
    if is_word(words, "check") {
        return Some(Command::Check);
    }
    if is_word(words, "run") {
        return Some(Command::Run);
    }
    None
}
