//! One instance.
ghost use Rattle.std.specs.Prelude.{◌≡◌, IfOk, false, slice_get, slice_set, None};
ghost use Rattle.std.specs.Option.{unwrap_or};
ghost use Rattle.machine_defs.specs.State.{first_instance};

use crate::sizes::{count_of_slots, count_of_words};
use rl_defs::load::{LoadRow, LoadRows};
use std::alloc::{AllocError, Global};
use std::marker::Model;

/// An instance of a load, live or ended, with its words and its slots. Contracts see the instance
/// of the machine's state.
#[derive(Debug, Drop)]
pub struct Instance {
    load: u32,
    live: bool,
    words: Vec<u64>,
    slots: Vec<Option<u64>>,
}

impl Model for Instance {
    ghost use Rattle.machine_defs.specs.State.{Instance as Row};

    ghost Value = { Row };

    ghost view = { λ i. record { load = i.load; live = i.live; words = i.words.items; slots = i.slots.items } };
}

impl Instance {
    /// A live instance of a load, with all words 0 and all slots empty.
    pub fn first(
        alloc: Global,
        rows: &LoadRows,
        load: u32,
        row: &LoadRow,
    ) -> Result<Instance, AllocError>
        ensures { IfOk result (λ i. i ≡ first_instance rows.now load row.now) }
    {
        let lines = rows.domain_lines(row.domain);
        let mut words = Vec::new(alloc);
        words.resize(count_of_words(lines) as usize, 0)?;
        let mut slots = Vec::new(alloc);
        slots.resize(count_of_slots(lines), None)?;
        Ok(Instance {
            load,
            live: true,
            words,
            slots,
        })
    }

    /// The number of its load.
    pub fn load(&self) -> u32
        ensures { result ≡ self.now.load }
    {
        self.load
    }

    /// Whether it hasn't ended.
    pub fn is_live(&self) -> bool
        ensures { result ≡ self.now.live }
    {
        self.live
    }

    /// Ends it. Its words and slots stay as they are.
    pub fn end(&mut self)
        ensures { self.new ≡ record self.old { live = false } }
    {
        self.live = false;
    }

    /// The word at a place, from 0. None exactly where the place isn't below the count of words.
    pub fn word(&self, at: u64) -> Option<u64>
        ensures { result ≡ slice_get self.now.words at }
    {
        self.words.get(at as usize).copied()
    }

    /// Gives the word at a place another value. Where there is no such word, nothing changes.
    pub fn set_word(&mut self, at: u32, value: u64)
        ensures { self.new ≡ record self.old { words = slice_set self.old.words at value } }
    {
        if let Some(word) = self.words.get_mut(at as usize) {
            *word = value;
        }
    }

    /// The object in a slot, from 0. None exactly where the slot is empty or there is none of this
    /// number.
    pub fn slot(&self, slot: u32) -> Option<u64>
        ensures { result ≡ unwrap_or (slice_get self.now.slots slot) None }
    {
        match self.slots.get(slot as usize) {
            Some(held) => *held,
            None => None,
        }
    }

    /// Puts an object into a slot, or empties it. Where there is no such slot, nothing changes.
    pub fn set_slot(&mut self, slot: u32, content: Option<u64>)
        ensures { self.new ≡ record self.old { slots = slice_set self.old.slots slot content } }
    {
        if let Some(held) = self.slots.get_mut(slot as usize) {
            *held = content;
        }
    }
}
