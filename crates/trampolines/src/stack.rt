//! The stack of one client.
ghost use Rattle.std.specs.Prelude.{◌≡◌, ◌==◌, ◌<◌, ◌≤◌, [], ◌∷◌, ◌++◌, length, true, IfOk, Some};
ghost use Rattle.std.specs.Option.{option_copied};
ghost use Rattle.trampolines.specs.Words.{top, below_top, is_in, stands_in_code, top_standing_at};

use machine_defs::arrays::Registers;
use machine_defs::frame::{Frame, FrameBody};
use std::alloc::{AllocError, Global};
use std::marker::Model;

/// The most frames above the client's own that a stack may have.
pub const MOST_FRAMES: usize = 31;

/// The frames of a client above its own, the lowest first. There is room for all that a stack may
/// have, so that a call takes no memory for its frame.
#[derive(Debug, Drop)]
pub struct Stack<N: Drop> {
    frames: Vec<Frame<N>>,
}

impl<N: Drop> Model for Stack<N> {
    ghost use Rattle.std.specs.Prelude.{List, ◌≤◌, vec_len, vec_capacity};
    ghost use Rattle.machine_defs.specs.declared.frame.Frame.{Frame as AFrame};

    ghost Value = { List (AFrame N) };

    ghost view = { λ s. s.frames.items };

    ghost invariant = { λ s. (31 ≤ vec_capacity s.frames) × (vec_len s.frames ≤ 31) };
}

impl<N: Drop> Stack<N> {
    /// No frames, and room for all.
    pub fn new(alloc: Global) -> Result<Stack<N>, AllocError>
        ensures { IfOk result (λ s. s ≡ []) }
    {
        let mut frames = Vec::new(alloc);
        match frames.reserve(MOST_FRAMES) {
            Ok(()) => Ok(Stack { frames }),
            Err(_) => Err(AllocError),
        }
    }

    /// The frames, the lowest first.
    pub fn as_slice(&self) -> &[Frame<N>]
        ensures value { result.now ≡ self.now }
        ensures few { length self.now ≤ 31 }
    {
        self.frames.as_slice()
    }

    /// The top frame. None exactly where there is none.
    pub fn top(&self) -> Option<&Frame<N>>
        ensures { option_copied result ≡ top self.now }
    {
        self.frames.last()
    }

    /// Puts a frame on top.
    pub fn push(&mut self, frame: Frame<N>)
        requires { length self.old < 31 }
        ensures { self.new ≡ self.old ++ frame ∷ [] }
    {
        self.frames.push_reserved(frame);
    }

    /// Takes the top frame off.
    pub fn pop(&mut self) -> Frame<N>
        requires { 0 < length self.old }
        ensures gives { top self.old ≡ Some result }
        ensures leaves { self.new ≡ below_top self.old }
    {
        match self.frames.pop() {
            Some(frame) => frame,
            None => unreachable!(),
        }
    }

    /// The top frame, which is one of domain code, stands at this line with these registers.
    /// Nothing else changes.
    pub fn set_code(&mut self, line: u32, registers: &Registers)
        requires { stands_in_code (top self.old) ≡ true }
        ensures { self.new ≡ top_standing_at line registers.now self.old (top self.old) }
    {
        let place = self.frames.len() - 1;
        match &mut self.frames[place].body {
            FrameBody::Code {
                line: at,
                registers: held,
            } => {
                *at = line;
                held.copy_from(registers);
            }
            FrameBody::Native { .. } => unreachable!(),
        }
    }

    /// Whether a frame is in the instance.
    pub fn is_in(&self, instance: u32) -> bool
        ensures { result ≡ is_in instance self.now }
    {
        self.frames.iter().any(|frame| runs_in(frame, instance))
    }
}

// Whether the frame is in the instance.
fn runs_in<N: Drop>(frame: &Frame<N>, instance: u32) -> bool
    ensures { result ≡ (frame.now.instance == instance) }
{
    frame.instance == instance
}
