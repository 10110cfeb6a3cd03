//! All instances that were opened.
ghost use Rattle.std.specs.Prelude.{◌≡◌, ◌+◌, ◌-◌, ◌<◌, ◌≤◌, ◌^◌, [], ◌∷◌, ◌++◌, length, false, IfOk, OnOk, OnErr, None};
ghost use Rattle.std.specs.Prelude.{slice_get, slice_set};
ghost use Rattle.std.specs.Option.{option_copied, option_map_or, unwrap_or};
ghost use Rattle.rl_defs.specs.Domains.{row, load_row};
ghost use Rattle.machine_defs.specs.State.{first_instance, first_instances, lives};
ghost use Rattle.machine_defs.specs.Seen.{change_row};

use crate::instance::Instance;
use rl_defs::load::Load;
use std::alloc::{AllocError, Global};
use std::marker::Model;

/// The instances that were opened, by their numbers from 1. Contracts see them as a list.
#[derive(Debug, Drop)]
pub struct Instances {
    rows: Vec<Instance>,
}

impl Model for Instances {
    ghost use Rattle.std.specs.Prelude.{List};
    ghost use Rattle.machine_defs.specs.State.{Instance as Row};

    ghost Value = { List Row };

    ghost view = { λ s. s.rows.items };
}

impl Instances {
    /// One live instance of each load, numbered as the loads are.
    pub fn new(alloc: Global, load: &Load) -> Result<Instances, AllocError>
        ensures { IfOk result (λ s. s ≡ first_instances load.now 1 load.now.loads) }
    {
        let rows = load.rows();
        let mut opened = Vec::new(alloc);
        let mut number = 0;
        'loads: for row in rows.loads.as_slice() {
            number += 1;
            opened.push(Instance::first(alloc, rows, number, row)?)?;
        }
        Ok(Instances { rows: opened })
    }

    /// Opens one more instance of load `k`, and answers its number. After `AllocError` all is as
    /// before.
    pub fn open(&mut self, load: &Load, k: u32) -> Result<u32, AllocError>
        requires a_load { (1 ≤ k) × (k ≤ length load.now.loads) }
        requires few { length self.old < 2 ^ 32 - 1 }
        ensures opened { OnOk result (self.new
            ≡ self.old ++ option_map_or (λ l. first_instance load.now k l ∷ []) (load_row load.now k) []) }
        ensures number { IfOk result (λ i. i ≡ length self.old + 1) }
        ensures unchanged { OnErr result (self.new ≡ self.old) }
    {
        let rows = load.rows();
        let row = match rows.load_row(k) {
            Some(row) => row,
            None => unreachable!(),
        };
        let alloc = *self.rows.allocator();
        self.rows.push(Instance::first(alloc, rows, k, row)?)?;
        Ok(self.rows.len() as u32)
    }

    /// How many instances were opened.
    pub fn len(&self) -> usize
        ensures { result ≡ length self.now }
    {
        self.rows.len()
    }

    /// Ends instance `i`. Nothing else changes, and nothing does where there is no such instance.
    pub fn end(&mut self, i: u32)
        ensures { self.new ≡ change_row self.old i (λ x. record x { live = false }) (row self.old i) }
    {
        if i == 0 || i as usize > self.rows.len() {
            return;
        }
        self.rows[i as usize - 1].end();
    }

    /// Whether instance `i` was opened and hasn't ended.
    pub fn is_live(&self, i: u32) -> bool
        ensures { result ≡ lives (row self.now i) }
    {
        match self.instance(i) {
            Some(instance) => instance.is_live(),
            None => false,
        }
    }

    /// The load of instance `i`, 0 where there is no such instance.
    pub fn load_of(&self, i: u32) -> u32
        ensures { result ≡ option_map_or (λ x. x.load) (row self.now i) 0 }
    {
        match self.instance(i) {
            Some(instance) => instance.load(),
            None => 0,
        }
    }

    /// A word of instance `i`, by its place from 0. None exactly where the place isn't below the
    /// count of words, or there is no such instance.
    pub fn word(&self, i: u32, at: u64) -> Option<u64>
        ensures { result ≡ slice_get (option_map_or (λ x. x.words) (row self.now i) []) at }
    {
        match self.instance(i) {
            Some(instance) => instance.word(at),
            None => None,
        }
    }

    /// Gives a word of instance `i` another value. Nothing else changes, and nothing does where
    /// there is no such word or instance.
    pub fn set_word(&mut self, i: u32, at: u32, value: u64)
        ensures { self.new
            ≡ change_row self.old i (λ x. record x { words = slice_set x.words at value }) (row self.old i) }
    {
        if i == 0 || i as usize > self.rows.len() {
            return;
        }
        self.rows[i as usize - 1].set_word(at, value);
    }

    /// The object in a slot of instance `i`. None exactly where the slot is empty, or there is no
    /// such slot or instance.
    pub fn slot(&self, i: u32, slot: u32) -> Option<u64>
        ensures { result ≡ unwrap_or (slice_get (option_map_or (λ x. x.slots) (row self.now i) []) slot) None }
    {
        match self.instance(i) {
            Some(instance) => instance.slot(slot),
            None => None,
        }
    }

    /// Puts an object into a slot of instance `i`, or empties it. Nothing else changes, and nothing
    /// does where there is no such slot or instance.
    pub fn set_slot(&mut self, i: u32, slot: u32, content: Option<u64>)
        ensures { self.new
            ≡ change_row self.old i (λ x. record x { slots = slice_set x.slots slot content }) (row self.old i) }
    {
        if i == 0 || i as usize > self.rows.len() {
            return;
        }
        self.rows[i as usize - 1].set_slot(slot, content);
    }

    /// Instance `i`. None exactly where it wasn't opened.
    pub fn instance(&self, i: u32) -> Option<&Instance>
        ensures { option_copied result ≡ row self.now i }
    {
        if i == 0 {
            return None;
        }
        self.rows.get(i as usize - 1)
    }
}
