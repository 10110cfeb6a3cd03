//! Reads a table that no thread shares any more.
ghost use Rattle.std.specs.Prelude.{◌≡◌, ℕ, suc, ◌+◌, ◌<◌, ◌≤◌, false, [], length, slice_index_or, vec_capacity};
ghost use Rattle.std.specs.Mem.Slots.{slots_items, slots_filled, slots_len, IsFull};
ghost use mathlib.Core.Option.{some};
ghost use lib.ListN.{get_elem?};
ghost use Rattle.machine_defs.specs.declared.heads.HeadWord.{HeadWord as Word};
ghost use Rattle.machine_defs.specs.Heads.{word_number, Fits};
ghost use Rattle.machine_defs.specs.Heads.{Slot};

use crate::numbers::word_of;
use atomic_table::Closed;
use machine_defs::heads::HeadWord;
use rl_defs::list::List;
use std::alloc::Global;

// The head words, behind word 0.
pub(crate) fn read_words(
    closed: &Closed<Option<List<u64>>, Global>,
    words: &mut Vec<HeadWord>,
    count: usize,
)
    requires room { (words.old.items ≡ []) × (count ≤ vec_capacity words.old) }
    requires full { (slots_len closed.now.words ≡ count + 1) × IsFull closed.now.words }
    requires shown { (i : ℕ) → i < count → (a : Word) × Fits 64 a
        × (get_elem? (slots_items closed.now.words) (suc i) ≡ some (word_number a)) }
    ensures length { length words.new.items ≡ count }
    ensures each { (i : ℕ) → i < count → (a : Word) × (get_elem? words.new.items i ≡ some a) × Fits 64 a
        × (get_elem? (slots_items closed.now.words) (suc i) ≡ some (word_number a)) }
{
    for i in 0..count {
        let word = word_of(closed.word(i + 1));
        words.push_reserved(word);
    }
}

// The payloads, which are taken out.
pub(crate) fn take_payloads(
    closed: &mut Closed<Option<List<u64>>, Global>,
    payloads: &mut Vec<Option<List<u64>>>,
    count: usize,
)
    requires room { (payloads.old.items ≡ []) × (count ≤ vec_capacity payloads.old) }
    requires full { (slots_len closed.old.slots ≡ count) × IsFull closed.old.slots }
    ensures length { length payloads.new.items ≡ count }
    ensures each { (i : ℕ) → i < count → (o : Slot) × (get_elem? payloads.new.items i ≡ some o)
        × (get_elem? (slots_items closed.old.slots) i ≡ some o) }
    ensures emptied { (slots_len closed.new.slots ≡ count)
        × ((k : ℕ) → k < count → slice_index_or (slots_filled closed.new.slots) k false ≡ false) }
{
    for i in 0..count {
        payloads.push_reserved(closed.take(i));
    }
}
