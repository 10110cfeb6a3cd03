//! How many words and slots the instances of a domain have.
ghost use Rattle.std.specs.Prelude.{◌≡◌, length};
ghost use Rattle.rl_defs.specs.Domains as domain;

use rl_defs::bundle::Numbered;
use rl_defs::code::{DomainLine, Native};

/// How many words each instance of a domain with these lines has.
pub fn count_of_words(lines: &[Numbered<DomainLine>]) -> u64
    ensures { result ≡ domain.words_of lines.now }
{
    'lines: for line in lines {
        match &line.form {
            DomainLine::Words(count) => return *count,
            DomainLine::Native(Native::Rv6) => return 530,
            _ => {}
        }
    }
    0
}

/// How many slots each instance of a domain with these lines has.
pub fn count_of_slots(lines: &[Numbered<DomainLine>]) -> usize
    ensures { result ≡ length (domain.slots_of lines.now) }
{
    let mut count = 0;
    'lines: for line in lines {
        if let DomainLine::Slot(_, _) = &line.form {
            count += 1;
        }
    }
    count
}
