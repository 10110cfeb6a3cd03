//! The numbers that digits stand for.
ghost use Rattle.std.specs.Prelude.{◌≡◌, ℕ, ◌+◌, ◌*◌, ◌^◌, ◌<◌, ◌≤◌, length, MatchOption, SomeIff};
ghost use Rattle.std.specs.Char.{digit_value};
ghost use Rattle.std.specs.Str.Parse.{IsNumeral, digits_value};
ghost use Rattle.rl_text.specs.Scan.{number_of};

// The value of one digit or more in this radix, where it fits 64 bits.
pub(crate) fn number_of(digits: &[u8], radix: u32) -> Option<u64>
    requires low { 2 ≤ radix }
    requires high { radix ≤ 16 }
    ensures { result ≡ number_of radix digits.now }
{
    if digits.is_empty() {
        return None;
    }
    let mut value = 0;
    'digits: for byte in digits {
        let digit = digit_of(*byte, radix)?;
        value = with_digit(value, radix, digit)?;
    }
    Some(value)
}

// What a digit of the radix stands for.
fn digit_of(byte: u8, radix: u32) -> Option<u32>
    requires low { 2 ≤ radix }
    requires high { radix ≤ 16 }
    ensures { SomeIff result (digit_value byte < radix) (digit_value byte) }
{
    char::from(byte).to_digit(radix)
}

// The number with one digit more, where it fits.
fn with_digit(value: u64, radix: u32, digit: u32) -> Option<u64>
    ensures { MatchOption result (2 ^ 64 ≤ value * radix + digit)
        (λ n. (n ≡ value * radix + digit) × (n < 2 ^ 64)) }
{
    value
        .checked_mul(u64::from(radix))?
        .checked_add(u64::from(digit))
}
