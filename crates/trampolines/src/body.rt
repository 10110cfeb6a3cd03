//! A native body, in a box that moves with its frame.
ghost use Rattle.std.specs.Prelude.{◌≡◌, IfOk};

use machine_defs::frame::Action;
use std::alloc::{AllocError, Global};
use std::marker::Model;

/// What is kept of a native body: its own state, and the action that it wants next.
#[derive(Debug, Drop)]
struct Kept<S: Drop> {
    state: S,
    action: Action,
}

/// A native body in its box, so that a frame of it is small. Contracts see the action that it wants
/// next, and a frame of it as a frame of the machine's state.
#[derive(Debug, Drop)]
pub struct Body<S: Drop> {
    kept: Box<Kept<S>>,
}

impl<S: Drop> Model for Body<S> {
    ghost use Rattle.machine_defs.specs.declared.frame.Action.{Action as AnAction};

    ghost Value = { AnAction };

    ghost view = { λ b. b.kept.value.action };
}

impl<S: Drop> Body<S> {
    /// A body with this state, which wants this action.
    pub fn new(alloc: Global, state: S, action: Action) -> Result<Body<S>, AllocError>
        ensures { IfOk result (λ b. b ≡ action) }
    {
        let kept = Box::new(alloc, Kept { state, action })?;
        Ok(Body { kept })
    }

    /// The action that the body wants next.
    pub fn wants(&self) -> &Action
        ensures { result.now ≡ self.now }
    {
        &self.kept.action
    }

    /// The body wants another action next.
    pub fn choose(&mut self, action: Action)
        ensures { self.new ≡ action }
    {
        self.kept.action = action;
    }

    /// The state of the body.
    pub fn state(&self) -> &S {
        &self.kept.state
    }
}
