//! The turn of a client.
ghost use Rattle.std.specs.Prelude.{◌≡◌, ◌<◌, ◌≤◌, length};
ghost use Rattle.machine_defs.specs.Calling.{is_enabled};
ghost use Rattle.machine_steps.specs.Turns.{TurnAnswers};

use crate::machine::Machine;
use crate::next::Next;
use crate::standing::Standing;
use std::alloc::{AllocError, Global};

// A turn begins where the log has fewer entries than these.
const MOST_ENTRIES: usize = 262_144;

/// What comes of a client's turn.
#[derive(Clone, Copy, Debug, PartialEq, Eq)]
pub enum Turn {
    /// The client made a step.
    Went,
    /// The client waits to enter an instance that this client, the least other one, has a frame in.
    NotYet(u32),
    /// The client's script has ended.
    Done,
    /// The client could make a step, but the log has 262,144 entries or more.
    Long,
    /// The client's step needs memory, and there was none.
    Memory,
}

impl Machine {
    /// Whether client `t` can make a step: it isn't done and doesn't wait.
    pub fn enabled(&self, t: u32) -> bool
        requires { (0 < t) × (t ≤ length self.now.load.clients) }
        ensures { result ≡ is_enabled self.now.load self.now.state t }
    {
        let mut stand = Standing::new();
        match self.next(t, &mut stand) {
            Next::Go(_) => true,
            Next::Wait(_) | Next::Done => false,
        }
    }

    /// A turn of client `t`: one step, unless it is done, waits, or the log or the memory is full.
    /// `stand` is a place for its register work.
    pub fn turn(&mut self, alloc: Global, t: u32, stand: &mut Standing) -> Turn
        requires { (0 < t) × (t ≤ length self.old.load.clients) }
        ensures { TurnAnswers self.old self.new t result }
    {
        match self.next(t, stand) {
            Next::Done => Turn::Done,
            Next::Wait(client) => Turn::NotYet(client),
            Next::Go(step) => {
                if self.log.len() >= MOST_ENTRIES {
                    return Turn::Long;
                }
                match self.make_step(alloc, t, stand, step) {
                    Ok(()) => Turn::Went,
                    Err(AllocError) => Turn::Memory,
                }
            }
        }
    }
}
