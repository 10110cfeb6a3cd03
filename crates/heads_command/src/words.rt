//! The words of the command.
ghost use Rattle.std.specs.Prelude.{ℕ, ◌≤◌, map, string_bytes, MatchOption, IfSome};
ghost use Rattle.heads_command.specs.Words.{AreWordsFor, IsNumberOf};

use redleaf_app::front::number_at;

/// The most heads that a table may have.
pub const MOST_HEADS: u32 = 4096;

// The number of heads that a word spells, in the one spelling of a number.
fn number_in(word: &[u8]) -> Option<u32>
    ensures { MatchOption result ((n : ℕ) → IsNumberOf word.now n → ⊥) (λ n. IsNumberOf word.now n) }
{
    let (n, rest) = number_at(word)?;
    if !rest.is_empty() {
        return None;
    }
    if n == 0 || n > u64::from(MOST_HEADS) {
        return None;
    }
    Some(n as u32)
}

/// For how many heads the words are the command: `heads` and a number from 1 to 4096, without a
/// sign or a leading zero. None exactly where they are no such words.
pub fn heads_of(words: &[String]) -> Option<u32>
    ensures words { MatchOption result ((n : ℕ) → AreWordsFor (map string_bytes words.now) n → ⊥)
        (λ n. AreWordsFor (map string_bytes words.now) n) }
    ensures range { IfSome result (λ n. (1 ≤ n) × (n ≤ 4096)) }
{
    match words {
        [command, number] => {
            let n = number_in(number.as_bytes())?;
            if command.as_bytes() == b"heads".as_slice() {
                Some(n)
            } else {
                None
            }
        }
        _ => None,
    }
}
