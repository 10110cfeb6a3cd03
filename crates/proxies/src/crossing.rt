//! Whether a call may cross, and where it goes.
ghost use Rattle.std.specs.Prelude.{◌≡◌, ◌<◌, ◌≤◌, ℕ, List, length, Some, is_some};
ghost use Rattle.machine_defs.specs.State.{State, StackFrame, Shadow};
ghost use Rattle.machine_defs.specs.Calling.{breaks_order, outranks, is_taken};
ghost use Rattle.proxies.specs.Table.{proxies_of};
ghost use Rattle.proxies.specs.Crossing.{seen_by_proxy, IsCrossing, IsHolder};

use crate::table::Proxies;
use instance_table::Instances;
use machine_defs::values::RpcCode;
use rl_defs::load::Load;
use shadow_domains::Shadows;
use trampolines::{Body, Stacks};

/// What comes of a call.
#[derive(Clone, Copy, Debug, PartialEq, Eq)]
pub enum Crossing {
    /// It enters this instance, which lives.
    Enter(u32),
    /// It is refused.
    Refuse(RpcCode),
    /// The instance of its target has ended, and has to be loaded again first.
    Reload,
    /// The instance is serial, and this client, the least other one that has a frame in it, has to
    /// leave it first.
    Wait(u32),
}

/// What comes of a call of `target` by client `t`, where the first cause decides: the stack is
/// full, the target is gone for good, the order of serial domains is broken, the instance has
/// ended, or another thread is in it.
pub fn crossing_of<S: Drop>(
    proxies: &Proxies,
    load: &Load,
    instances: &Instances,
    stacks: &Stacks<Body<S>>,
    shadows: &Shadows,
    t: u32,
    target: u32,
) -> Crossing
    requires found { proxies.now ≡ proxies_of load.now }
    requires a_client { (0 < t) × (t ≤ length stacks.now.frames) }
    ensures { IsCrossing load.now (seen_by_proxy instances.now stacks.now.frames shadows.now) t target result }
{
    if stacks.depth(t) > 31 {
        return Crossing::Refuse(RpcCode::Deep);
    }
    let current = shadows.current(load, target);
    let lives = instances.is_live(current);
    if !lives && shadows.left(load, target) == 0 {
        return Crossing::Refuse(RpcCode::Gone);
    }
    if breaks_order(proxies, load, instances, stacks, t, target) {
        return Crossing::Refuse(RpcCode::Order);
    }
    if !lives {
        return Crossing::Reload;
    }
    match holder(proxies, load, instances, stacks, t, current) {
        Some(client) => Crossing::Wait(client),
        None => Crossing::Enter(current),
    }
}

// Whether the call would enter a serial domain against the order of ranks.
fn breaks_order<S: Drop>(
    proxies: &Proxies,
    load: &Load,
    instances: &Instances,
    stacks: &Stacks<Body<S>>,
    t: u32,
    target: u32,
) -> bool
    requires found { proxies.now ≡ proxies_of load.now }
    requires a_client { (0 < t) × (t ≤ length stacks.now.frames) }
    ensures { (shadows : List Shadow) → result
        ≡ breaks_order load.now (seen_by_proxy instances.now stacks.now.frames shadows) t target }
{
    let rank = proxies.load_of(load, target);
    if !proxies.is_serial(load, rank) {
        return false;
    }
    let count = stacks.depth(t) - 1;
    'frames: for place in 0..count {
        match stacks.frame_at(t, place) {
            Some(frame) => {
                if outranks(proxies, load, instances, rank, frame.instance) {
                    return true;
                }
            }
            None => unreachable!(),
        }
    }
    false
}

// Whether an instance lives, is serial, and has a rank that isn't above this one.
fn outranks(proxies: &Proxies, load: &Load, instances: &Instances, rank: u32, instance: u32) -> bool
    requires { proxies.now ≡ proxies_of load.now }
    ensures { (s : State) (f : StackFrame) → s.instances ≡ instances.now → f.instance ≡ instance
        → result ≡ outranks load.now s rank f }
{
    let of = instances.load_of(instance);
    instances.is_live(instance) && proxies.is_serial(load, of) && of <= rank
}

/// The client that has to leave an instance before client `t` may enter it: where the instance is
/// serial, the least other one that has a frame in it.
pub fn holder<S: Drop>(
    proxies: &Proxies,
    load: &Load,
    instances: &Instances,
    stacks: &Stacks<Body<S>>,
    t: u32,
    instance: u32,
) -> Option<u32>
    requires { proxies.now ≡ proxies_of load.now }
    ensures taken { (shadows : List Shadow) → is_some result
        ≡ is_taken load.now (seen_by_proxy instances.now stacks.now.frames shadows) t instance }
    ensures holder { (shadows : List Shadow) (h : ℕ) → result ≡ Some h
        → IsHolder (seen_by_proxy instances.now stacks.now.frames shadows) t instance h }
{
    if !proxies.is_serial(load, instances.load_of(instance)) {
        return None;
    }
    stacks.holder(instance, t)
}
