//! What stands at the front of a text: a number, or a text that is looked for.
ghost use Rattle.std.specs.Prelude.{◌≡◌, ◌≢◌, ℕ, ◌^◌, ◌<◌, List, ◌++◌, IfSome, IfNone, MatchOption};
ghost use Rattle.std.specs.Fmt.{decimal};
ghost use Rattle.redleaf_app.specs.Digits as text;
ghost use Rattle.redleaf_app.specs.Digits.{NoDigit};

use history_text::number_of;

// How many digits stand at the front.
fn digits_len(bytes: &[u8]) -> usize
    ensures { result ≡ text.digits_len bytes.now }
{
    bytes.iter().take_while(|b| b.is_ascii_digit()).count()
}

/// The number at the front, in its one spelling, and what follows its last digit. None where no
/// such number below 2^64 stands there.
pub fn number_at(bytes: &[u8]) -> Option<(u64, &[u8])>
    ensures found { IfSome result (λ r. (bytes.now ≡ decimal r.0 ++ r.1.now) × (r.0 < 2 ^ 64) × NoDigit r.1.now) }
    ensures none { IfNone result ((n : ℕ) (rest : List ℕ) → n < 2 ^ 64 → NoDigit rest → bytes.now ≢ decimal n ++ rest) }
{
    let (digits, rest) = bytes.split_at(digits_len(bytes));
    Some((number_of(digits)?, rest))
}

// What follows a text at the front.
pub(crate) fn after<'a>(bytes: &'a [u8], text: &[u8]) -> Option<&'a [u8]>
    ensures { MatchOption result ((rest : List ℕ) → bytes.now ≢ text.now ++ rest) (λ r. bytes.now ≡ text.now ++ r.now) }
{
    bytes.strip_prefix(text)
}
