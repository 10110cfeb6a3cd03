//! Numbers from their digits.
ghost use Rattle.std.specs.Prelude.{◌≡◌, ◌≢◌, ℕ, ◌+◌, ◌-◌, ◌*◌, ◌^◌, ◌<◌, ◌≤◌, MatchOption};
ghost use Rattle.std.specs.Fmt.{decimal};
ghost use Rattle.std.specs.Int.{IsInRange};
ghost use Rattle.std.specs.List.{list_all};
ghost use Rattle.std.specs.Char.{is_ascii_digit};
ghost use Rattle.std.specs.Str.Parse.{AllDigits, digits_value};
ghost use Rattle.history_text.specs.Reading.{number_of_64, number_of_32, narrow};

// The value of digits, where it has at most 64 bits.
fn value_of(digits: &[u8]) -> Option<u64>
    requires { AllDigits 10 digits.now }
    ensures { MatchOption result (2 ^ 64 ≤ digits_value 10 digits.now)
        (λ n. (n ≡ digits_value 10 digits.now) × (n < 2 ^ 64)) }
{
    let mut value = 0u64;
    'digits: for digit in digits {
        value = append_digit(value, *digit)?;
    }
    Some(value)
}

// The number with one digit more, where it has at most 64 bits.
fn append_digit(value: u64, digit: u8) -> Option<u64>
    requires { IsInRange 48 57 digit }
    ensures { MatchOption result (2 ^ 64 ≤ value * 10 + (digit - 48))
        (λ n. (n ≡ value * 10 + (digit - 48)) × (n < 2 ^ 64)) }
{
    value.checked_mul(10)?.checked_add(u64::from(digit - b'0'))
}

/// The number that digits spell, in its one spelling. None where it hasn't 64 bits, or a zero
/// stands in front.
pub fn number_of(digits: &[u8]) -> Option<u64>
    requires { AllDigits 10 digits.now }
    ensures { MatchOption result ((n : ℕ) → n < 2 ^ 64 → digits.now ≢ decimal n)
        (λ n. (digits.now ≡ decimal n) × (n < 2 ^ 64)) }
{
    if digits.is_empty() {
        return None;
    }
    if digits[0] == b'0' && digits.len() > 1 {
        return None;
    }
    value_of(digits)
}

fn are_digits(word: &[u8]) -> bool
    ensures { result ≡ list_all is_ascii_digit word.now }
{
    word.iter().all(|byte| byte.is_ascii_digit())
}

/// The number that a word spells, where it is the one spelling of a number of 64 bits.
pub(crate) fn read_64(word: &[u8]) -> Option<u64>
    ensures { result ≡ number_of_64 word.now }
{
    if are_digits(word) {
        number_of(word)
    } else {
        None
    }
}

/// The number, where it has at most 32 bits.
pub(crate) fn narrow(number: u64) -> Option<u32>
    ensures { result ≡ narrow number }
{
    if number > u64::from(u32::MAX) {
        return None;
    }
    Some(number as u32)
}

/// The number that a word spells, where it is the one spelling of a number of 32 bits.
pub(crate) fn read_32(word: &[u8]) -> Option<u32>
    ensures { result ≡ number_of_32 word.now }
{
    match read_64(word) {
        Some(number) => narrow(number),
        None => None,
    }
}
