//! The tokens of a line that are still to be read.
ghost use Rattle.std.specs.Prelude.{◌≡◌, ℕ, List, MatchBool, Some, None, slice_range};
ghost use Rattle.rl_text.specs.Reading.{Gives, Passes, name_at, number_at, text_at, mark_at, key_at, word_at, end_at, first_key, begins_number, begins_word, behind_first, none_left};

use crate::lexeme::Lexeme;
use rl_defs::lexeme::{Key, Mark};
use rl_defs::name::Name;
use std::alloc::{AllocError, AllocFailed};
use std::marker::Model;

/// Why nothing was read.
#[derive(Clone, Copy, Debug, PartialEq, Eq)]
pub enum Stop {
    /// The tokens are no such part.
    NoForm,
    /// Memory ran out.
    Memory,
}

impl From<AllocError> for Stop {
    ghost use Rattle.std.specs.Prelude.{◌≡◌};
    ghost use Rattle.rl_text.specs.declared.cursor.Stop.TheVariants as stop;

    ghost from_gives = { λ _ e. e ≡ stop.Memory };

    fn from(_error: AllocError) -> Stop {
        Stop::Memory
    }
}

// What couldn't be stored is let go.
impl<T: Drop> From<AllocFailed<T>> for Stop {
    ghost use Rattle.std.specs.Prelude.{◌≡◌};
    ghost use Rattle.rl_text.specs.declared.cursor.Stop.TheVariants as stop;

    ghost from_gives = { λ _ e. e ≡ stop.Memory };

    fn from(_error: AllocFailed<T>) -> Stop {
        Stop::Memory
    }
}

/// The tokens of a line that are left. A method that reads takes its part from the front; where
/// there is no such part, some tokens may be gone.
#[derive(Drop)]
pub struct Cursor<'a> {
    line: &'a [u8],
    left: &'a [Lexeme],
}

impl<'a> Model for Cursor<'a> {
    ghost use Rattle.std.specs.Prelude.{List, map};
    ghost use Rattle.rl_defs.specs.Tokens.{Token};

    ghost Value = { List Token };

    ghost use Rattle.rl_text.specs.Lexemes.{token_of};

    ghost view = { λ c. map (token_of c.line.now) c.left.now };
}

impl<'a> Cursor<'a> {
    ghost use Rattle.std.specs.Prelude.{map};
    ghost use Rattle.rl_text.specs.Lexemes.{token_of};

    /// All tokens of a line, by its bytes and its lexemes.
    pub fn new(line: &'a [u8], left: &'a [Lexeme]) -> Cursor<'a>
        ensures { result ≡ map (token_of line.now) left.now }
    {
        Cursor { line, left }
    }

    /// Takes a word that isn't reserved.
    #[tactic(auto, unfolding(crate::specs::Reading::name_at))]
    pub fn name(&mut self) -> Result<Name, Stop>
        ensures { Gives (λ n. n) result self.new (name_at self.old) }
    {
        match self.left {
            [Lexeme::Word(name), rest @ ..] => {
                self.left = rest;
                Ok(*name)
            }
            _ => Err(Stop::NoForm),
        }
    }

    /// Takes a number.
    #[tactic(auto, unfolding(crate::specs::Reading::number_at))]
    pub fn number(&mut self) -> Result<u64, Stop>
        ensures { Gives (λ n. n) result self.new (number_at self.old) }
    {
        match self.left {
            [Lexeme::Number(n), rest @ ..] => {
                self.left = rest;
                Ok(*n)
            }
            _ => Err(Stop::NoForm),
        }
    }

    /// Takes a text: the bytes between its quotes.
    #[tactic(auto, unfolding(crate::specs::Reading::text_at))]
    pub fn text(&mut self) -> Result<&'a [u8], Stop>
        ensures { Gives (λ t. t.now) result self.new (text_at self.old) }
    {
        match self.left {
            [Lexeme::Text { start, end }, rest @ ..] => {
                let inner = part(self.line, *start as usize, *end as usize);
                self.left = rest;
                Ok(inner)
            }
            _ => Err(Stop::NoForm),
        }
    }

    /// Takes a mark.
    #[tactic(auto, unfolding(crate::specs::Reading::mark_at))]
    pub fn mark(&mut self, mark: Mark) -> Result<(), Stop>
        ensures { Passes result self.new (mark_at mark self.old) }
    {
        match self.left {
            [Lexeme::Mark(other), rest @ ..] if *other == mark => {
                self.left = rest;
                Ok(())
            }
            _ => Err(Stop::NoForm),
        }
    }

    /// Takes a reserved word.
    #[tactic(auto, unfolding(crate::specs::Reading::key_at))]
    pub fn key(&mut self, key: Key) -> Result<(), Stop>
        ensures { Passes result self.new (key_at key self.old) }
    {
        match self.left {
            [Lexeme::Key(other), rest @ ..] if *other == key => {
                self.left = rest;
                Ok(())
            }
            _ => Err(Stop::NoForm),
        }
    }

    /// Takes a word that isn't reserved and has these bytes.
    #[tactic(auto, unfolding(crate::specs::Reading::word_at))]
    pub fn word(&mut self, word: &[u8]) -> Result<(), Stop>
        ensures { Passes result self.new (word_at word.now self.old) }
    {
        match self.left {
            [Lexeme::Word(other), rest @ ..] if other.bytes() == word => {
                self.left = rest;
                Ok(())
            }
            _ => Err(Stop::NoForm),
        }
    }

    /// Takes the first token where it is this mark.
    #[tactic(auto, unfolding(crate::specs::Reading::mark_at))]
    pub fn skip_mark(&mut self, mark: Mark) -> bool
        ensures { MatchBool result (mark_at mark self.old ≡ Some self.new)
            ((mark_at mark self.old ≡ None) × (self.new ≡ self.old)) }
    {
        match self.left {
            [Lexeme::Mark(other), rest @ ..] if *other == mark => {
                self.left = rest;
                true
            }
            _ => false,
        }
    }

    /// Takes the first token where it is this reserved word.
    #[tactic(auto, unfolding(crate::specs::Reading::key_at))]
    pub fn skip_key(&mut self, key: Key) -> bool
        ensures { MatchBool result (key_at key self.old ≡ Some self.new)
            ((key_at key self.old ≡ None) × (self.new ≡ self.old)) }
    {
        match self.left {
            [Lexeme::Key(other), rest @ ..] if *other == key => {
                self.left = rest;
                true
            }
            _ => false,
        }
    }

    /// The reserved word that comes first, if one does.
    pub fn first_key(&self) -> Option<Key>
        ensures { result ≡ first_key self.now }
    {
        match self.left {
            [Lexeme::Key(key), ..] => Some(*key),
            _ => None,
        }
    }

    /// Whether a number comes first.
    pub fn begins_number(&self) -> bool
        ensures { result ≡ begins_number self.now }
    {
        match self.left {
            [Lexeme::Number(_), ..] => true,
            _ => false,
        }
    }

    /// Whether this word comes first, which isn't reserved.
    pub fn begins_word(&self, word: &[u8]) -> bool
        ensures { result ≡ begins_word word.now self.now }
    {
        match self.left {
            [Lexeme::Word(name), ..] => name.bytes() == word,
            _ => false,
        }
    }

    /// Takes the first token, if there is one.
    pub fn skip_first(&mut self)
        ensures { self.new ≡ behind_first self.old }
    {
        match self.left {
            [_, rest @ ..] => self.left = rest,
            [] => {}
        }
    }

    /// Whether nothing is left.
    pub fn is_empty(&self) -> bool
        ensures { result ≡ none_left self.now }
    {
        match self.left {
            [] => true,
            _ => false,
        }
    }

    /// Takes nothing, where nothing is left.
    #[tactic(auto, unfolding(crate::specs::Reading::end_at))]
    pub fn end(&mut self) -> Result<(), Stop>
        ensures { Passes result self.new (end_at self.old) }
    {
        match self.left {
            [] => Ok(()),
            _ => Err(Stop::NoForm),
        }
    }
}

// The bytes from a place up to another one, as far as there are such bytes.
fn part(line: &[u8], start: usize, end: usize) -> &[u8]
    ensures { result.now ≡ slice_range line.now start end }
{
    let end = end.min(line.len());
    let start = start.min(end);
    &line[start..end]
}
