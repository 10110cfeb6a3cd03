//! The rows of a load by their names.
ghost use Rattle.std.specs.Prelude.{◌≡◌, ℕ, List};
ghost use Rattle.rl_defs.specs.Words.{same_bytes};
ghost use Rattle.history_text.specs.Reading as reading;

use crate::numbers::narrow;
use crate::spellings::Spellings;
use rl_defs::load::{LoadRow, ShadowRow};
use rl_defs::name::Name;
use rl_defs::tables::{MethodRow, StructRow};

// A row that has a name.
trait Named {
    ghost name: { Self → List ℕ };

    fn is_named(&self, word: &[u8]) -> bool
        ensures { result ≡ same_bytes (name self.now) word.now };
}

impl Named for LoadRow {
    ghost name = { λ r. r.name };

    fn is_named(&self, word: &[u8]) -> bool {
        self.name.bytes() == word
    }
}

impl Named for ShadowRow {
    ghost name = { λ r. r.name };

    fn is_named(&self, word: &[u8]) -> bool {
        self.name.bytes() == word
    }
}

impl Named for StructRow {
    ghost name = { λ r. r.name };

    fn is_named(&self, word: &[u8]) -> bool {
        self.name.bytes() == word
    }
}

impl Named for MethodRow {
    ghost name = { λ r. r.name };

    fn is_named(&self, word: &[u8]) -> bool {
        self.name.bytes() == word
    }
}

// The place of the first row with this name, or the count of rows.
fn place_of<R: Named>(rows: &[R], word: &[u8]) -> usize
    ensures { result ≡ reading.place_of R.name rows.now word.now }
{
    rows.iter().take_while(|row| !row.is_named(word)).count()
}

// The place of the first row with this name.
fn place_in<R: Named>(rows: &[R], word: &[u8]) -> Option<usize>
    ensures { result ≡ reading.place_in R.name rows.now word.now }
{
    let place = place_of(rows, word);
    if place < rows.len() {
        Some(place)
    } else {
        None
    }
}

/// The target with this name.
#[tactic(auto, unfolding(crate::specs::Reading::target_in))]
pub(crate) fn read_target(spellings: &Spellings, word: &[u8]) -> Option<u32>
    ensures { result ≡ reading.target_in spellings.now word.now }
{
    let rows = spellings.rows();
    let loads = rows.loads.as_slice();
    if let Some(place) = place_in(loads, word) {
        return narrow(place as u64 + 1);
    }
    let place = place_in(rows.shadows.as_slice(), word)?;
    narrow((loads.len() + place) as u64 + 1)
}

/// The method of a target with this name.
#[tactic(auto, unfolding(crate::specs::Reading::method_in))]
pub(crate) fn read_method(spellings: &Spellings, target: u32, word: &[u8]) -> Option<u32>
    ensures { result ≡ reading.method_in spellings.now target word.now }
{
    let place = place_in(spellings.methods(target), word)?;
    narrow(place as u64)
}

/// The struct with this name.
#[tactic(auto, unfolding(crate::specs::Reading::struct_in))]
pub(crate) fn read_struct(spellings: &Spellings, word: &[u8]) -> Option<u32>
    ensures { result ≡ reading.struct_in spellings.now word.now }
{
    let tables = spellings.rows().tables.get();
    let place = place_in(tables.structs.as_slice(), word)?;
    narrow(place as u64)
}

/// The name that a word is.
#[tactic(auto, unfolding(crate::specs::Reading::slot_in))]
pub(crate) fn read_slot(word: &[u8]) -> Option<Name>
    ensures { result ≡ reading.slot_in word.now }
{
    Name::read(word)
}
