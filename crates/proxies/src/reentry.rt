//! Whether the call of a dead frame may be issued again, and where it goes.
ghost use Rattle.std.specs.Prelude.{◌≡◌, ◌<◌, ◌≤◌, ℕ, Some, length};
ghost use Rattle.machine_defs.specs.State.{StackFrame, stack, top};
ghost use Rattle.trampolines.specs.Words.{stack_of};
ghost use Rattle.proxies.specs.Table.{proxies_of};
ghost use Rattle.proxies.specs.Crossing.{seen_by_proxy};
ghost use Rattle.proxies.specs.Reentry.{IsReentry};

use crate::crossing::holder;
use crate::table::Proxies;
use instance_table::Instances;
use rl_defs::load::Load;
use shadow_domains::Shadows;
use trampolines::{Body, Stacks};

/// What comes of the call of a dead frame.
#[derive(Clone, Copy, Debug, PartialEq, Eq)]
pub enum Reentry {
    /// It is issued again in this instance, which lives.
    Again(u32),
    /// It is over: it went to no idempotent method of a shadow, or the shadow is gone for good.
    Unwound,
    /// The instance of the shadow has ended, and has to be loaded again first.
    Reload,
    /// The instance is serial, and this client, the least other one that has a frame in it, has to
    /// leave it first.
    Wait(u32),
}

/// What comes of the call of client `t`'s top frame, which is dead (RedLeaf, section 3.2).
pub fn reentry_of<S: Drop>(
    proxies: &Proxies,
    load: &Load,
    instances: &Instances,
    stacks: &Stacks<Body<S>>,
    shadows: &Shadows,
    t: u32,
) -> Reentry
    requires found { proxies.now ≡ proxies_of load.now }
    requires a_client { (0 < t) × (t ≤ length stacks.now.frames) }
    requires a_frame { 0 < length (stack_of stacks.now.frames t) }
    ensures { (f : StackFrame)
        → top (stack (seen_by_proxy instances.now stacks.now.frames shadows.now) t) ≡ Some f
        → IsReentry load.now (seen_by_proxy instances.now stacks.now.frames shadows.now) t f result }
{
    let frame = match stacks.top(t) {
        Some(frame) => frame,
        None => unreachable!(),
    };
    let (target, method) = (frame.target, frame.method);
    let current = shadows.current(load, target);
    let lives = instances.is_live(current);
    if !proxies.is_reissuable(load, target, method) {
        return Reentry::Unwound;
    }
    if !lives {
        return if shadows.left(load, target) == 0 {
            Reentry::Unwound
        } else {
            Reentry::Reload
        };
    }
    match holder(proxies, load, instances, stacks, t, current) {
        Some(client) => Reentry::Wait(client),
        None => Reentry::Again(current),
    }
}
