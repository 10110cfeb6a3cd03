//! The stacks of all clients.
ghost use Rattle.std.specs.Prelude.{◌≡◌, ℕ, ◌+◌, ◌<◌, ◌≤◌, [], ◌∷◌, ◌++◌, length, true, IfOk, OnOk, OnErr, Some, is_some, slice_get};
ghost use Rattle.std.specs.Prelude.{replicate};
ghost use Rattle.std.specs.List.{list_any};
ghost use Rattle.std.specs.Option.{option_copied};
ghost use Rattle.trampolines.specs.Words.{top, below_top, stack_of, with_stack_of, is_in, others_in, Holds, stands_in_code, top_standing_at};

use crate::stack::Stack;
use machine_defs::arrays::Registers;
use machine_defs::frame::Frame;
use std::alloc::{AllocError, Global};
use std::marker::Model;

/// A stack for each client, by its number from 1, and a count of frames for each instance.
/// Contracts see for each client the frames above its own, and of how many instances frames are
/// counted.
#[derive(Debug, Drop)]
pub struct Stacks<N: Drop> {
    stacks: Vec<Stack<N>>,
    counts: Vec<u64>,
}

impl<N: Drop> Model for Stacks<N> {
    ghost use Rattle.std.specs.Prelude.{length};
    ghost use Rattle.trampolines.specs.Laid.{Laid};
    ghost use Rattle.trampolines.specs.Counted.{IsLaid};

    ghost Value = { Laid N };

    ghost view = { λ s. record { frames = s.stacks.items; instances = length s.counts.items } };

    ghost invariant = { λ s. IsLaid s.counts.items s.stacks.items };
}

impl<N: Drop> Stacks<N> {
    /// An empty stack for each client, with room for all frames that it may have. Frames are
    /// counted of so many instances.
    pub fn new(alloc: Global, clients: u32, instances: u32) -> Result<Stacks<N>, AllocError>
        ensures { IfOk result (λ s. s ≡ record { frames = replicate clients []; instances = instances }) }
    {
        let mut counts = Vec::new(alloc);
        counts.resize(instances as usize, 0)?;
        let mut stacks = Vec::new(alloc);
        'clients: for _ in 0..clients {
            stacks.push(Stack::new(alloc)?)?;
        }
        Ok(Stacks { stacks, counts })
    }

    /// Frames of one more instance are counted. After `AllocError` all is as before.
    pub fn open(&mut self) -> Result<(), AllocError>
        ensures frames { self.new.frames ≡ self.old.frames }
        ensures opened { OnOk result (self.new.instances ≡ self.old.instances + 1) }
        ensures unchanged { OnErr result (self.new ≡ self.old) }
    {
        self.counts.push(0)?;
        Ok(())
    }

    /// Puts a frame on top of a client's stack.
    pub fn push(&mut self, t: u32, frame: Frame<N>)
        requires a_client { (0 < t) × (t ≤ length self.old.frames) }
        requires room { length (stack_of self.old.frames t) < 31 }
        requires counted { (0 < frame.instance) × (frame.instance ≤ self.old.instances) }
        ensures frames { self.new.frames
            ≡ with_stack_of self.old.frames t (stack_of self.old.frames t ++ frame ∷ []) }
        ensures instances { self.new.instances ≡ self.old.instances }
    {
        self.counts[frame.instance as usize - 1] += 1;
        self.stacks[t as usize - 1].push(frame);
    }

    /// Takes the top frame off a client's stack.
    pub fn pop(&mut self, t: u32) -> Frame<N>
        requires a_client { (0 < t) × (t ≤ length self.old.frames) }
        requires a_frame { 0 < length (stack_of self.old.frames t) }
        ensures gives { top (stack_of self.old.frames t) ≡ Some result }
        ensures frames { self.new.frames
            ≡ with_stack_of self.old.frames t (below_top (stack_of self.old.frames t)) }
        ensures instances { self.new.instances ≡ self.old.instances }
    {
        let frame = self.stacks[t as usize - 1].pop();
        self.counts[frame.instance as usize - 1] -= 1;
        frame
    }

    /// The top frame of a client's stack. None exactly where the client has none above its own.
    pub fn top(&self, t: u32) -> Option<&Frame<N>>
        requires { (0 < t) × (t ≤ length self.now.frames) }
        ensures { option_copied result ≡ top (stack_of self.now.frames t) }
    {
        self.stacks[t as usize - 1].top()
    }

    /// How many frames a client has, with its own.
    pub fn depth(&self, t: u32) -> u32
        requires { (0 < t) × (t ≤ length self.now.frames) }
        ensures value { result ≡ length (stack_of self.now.frames t) + 1 }
        ensures few { result ≤ 32 }
    {
        self.stacks[t as usize - 1].as_slice().len() as u32 + 1
    }

    /// The frame at a place of a client's stack, from 0 above the client's own. None exactly where
    /// there is none.
    pub fn frame_at(&self, t: u32, place: u32) -> Option<&Frame<N>>
        requires { (0 < t) × (t ≤ length self.now.frames) }
        ensures { option_copied result ≡ slice_get (stack_of self.now.frames t) place }
    {
        self.stacks[t as usize - 1].as_slice().get(place as usize)
    }

    /// The top frame of a client, which is one of domain code, stands at this line with these
    /// registers. Nothing else changes.
    pub fn set_code(&mut self, t: u32, line: u32, registers: &Registers)
        requires a_client { (0 < t) × (t ≤ length self.old.frames) }
        requires code { stands_in_code (top (stack_of self.old.frames t)) ≡ true }
        ensures frames { self.new.frames ≡ with_stack_of self.old.frames t
            (top_standing_at line registers.now (stack_of self.old.frames t) (top (stack_of self.old.frames t))) }
        ensures instances { self.new.instances ≡ self.old.instances }
    {
        self.stacks[t as usize - 1].set_code(line, registers);
    }

    /// The least client other than `but` that has a frame in instance `i`. None exactly where there
    /// is none.
    pub fn holder(&self, i: u32, but: u32) -> Option<u32>
        ensures some { is_some result ≡ others_in i but 1 self.now.frames }
        ensures least { (t : ℕ) → result ≡ Some t
            → Holds i but self.now.frames t × ((u : ℕ) → Holds i but self.now.frames u → t ≤ u) }
    {
        if !self.is_entered(i) {
            return None;
        }
        let mut client = 0;
        'stacks: for stack in self.stacks.as_slice() {
            client += 1;
            if client != but && stack.is_in(i) {
                return Some(client);
            }
        }
        None
    }

    /// Whether a client other than `but` has a frame in instance `i`.
    pub fn is_held(&self, i: u32, but: u32) -> bool
        ensures { result ≡ others_in i but 1 self.now.frames }
    {
        self.holder(i, but).is_some()
    }

    /// Whether any client has a frame in instance `i`.
    pub fn is_entered(&self, i: u32) -> bool
        ensures { result ≡ list_any (is_in i) self.now.frames }
    {
        let counts = self.counts.as_slice();
        if i == 0 {
            return false;
        }
        if i as usize > counts.len() {
            return false;
        }
        counts[i as usize - 1] > 0
    }
}
