//! Head words as numbers.
ghost use Rattle.std.specs.Prelude.{◌≡◌};
ghost use Rattle.machine_defs.specs.declared.heads.HeadWord.{HeadWord as Word};
ghost use Rattle.machine_defs.specs.Heads.{word_number, Fits};
ghost use Rattle.machine_defs.specs.HeadSteps.{is_last as last, is_idle as idle};

use machine_defs::heads::HeadWord;

pub(crate) const LOAN: u64 = 4;

pub(crate) const ENDED: u64 = 262_144;

pub(crate) const SEAT: u64 = 524_288;

/// The number of this word.
pub(crate) fn number_of(word: HeadWord) -> u64
    requires { Fits 64 word }
    ensures { result ≡ word_number word }
{
    match word {
        HeadWord::Vacant => 0,
        HeadWord::Busy => 1,
        HeadWord::Gone => 2,
        HeadWord::Live { loans, ended, to } => {
            let ended = if ended { ENDED } else { 0 };
            let seat = match to {
                None => 0,
                Some(to) => SEAT * (u64::from(to) + 1),
            };
            3 + LOAN * u64::from(loans) + ended + seat
        }
    }
}

/// The word of this number.
pub(crate) fn word_of(number: u64) -> HeadWord
    requires { (a : Word) × (number ≡ word_number a) × Fits 64 a }
    ensures { (a : Word) → number ≡ word_number a → Fits 64 a → result ≡ a }
{
    match number {
        0 => HeadWord::Vacant,
        1 => HeadWord::Busy,
        2 => HeadWord::Gone,
        _ => {
            let rest = number / LOAN;
            let to = rest / 131_072;
            HeadWord::Live {
                loans: (rest % 65_536) as u32,
                ended: rest / 65_536 % 2 == 1,
                to: if to == 0 { None } else { Some((to - 1) as u32) },
            }
        }
    }
}

/// Ended, with one loan.
pub(crate) fn is_last(word: HeadWord) -> bool
    ensures { result ≡ last word }
{
    match word {
        HeadWord::Live { loans, ended, .. } => ended && loans == 1,
        _ => false,
    }
}

/// No loan.
pub(crate) fn is_idle(word: HeadWord) -> bool
    ensures { result ≡ idle word }
{
    match word {
        HeadWord::Live { loans, .. } => loans == 0,
        _ => false,
    }
}
