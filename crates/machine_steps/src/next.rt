//! What a client does next.
ghost use Rattle.std.specs.Prelude.{◌≡◌, ℕ, ◌<◌, ◌≤◌, length, true, false, Some, None};
ghost use Rattle.rl_defs.specs.Rows.{row};
ghost use Rattle.machine_defs.specs.State.{stack, top};
ghost use Rattle.machine_defs.specs.Wants.{Commands, can_do, makes, name_held, wanted};
ghost use Rattle.machine_defs.specs.Calling.{is_undone};
ghost use Rattle.rl_defs.specs.declared.values.Value.TheVariants as value;
ghost use Rattle.proxies.specs.Crossing.{IsCrossing};
ghost use Rattle.machine_steps.specs.declared.standing.Standing.{Standing};
ghost use Rattle.machine_steps.specs.Wishes.{IsLiveTop, IsDeadTop};
ghost use Rattle.machine_steps.specs.Calls.{ClientCalls};
ghost use Rattle.machine_steps.specs.Next.{IsNext};

use crate::machine::Machine;
use crate::standing::Standing;
use client_threads::Thread;
use code_machine::act::Act;
use machine_defs::arrays::Args;
use machine_defs::values::RpcCode;
use proxies::{Crossing, Reentry, crossing_of, reentry_of};
use rl_defs::load::Command;
use rl_defs::values::Value;

/// A call that a client or a frame would make.
#[derive(Debug, Drop)]
pub(crate) struct Call {
    pub target: u32,
    pub method: u32,
    pub args: Args,
}

/// A step, with what it is to be made with.
#[derive(Debug, Drop)]
pub(crate) enum Step {
    /// The script has ended.
    Finish,
    /// The command with this number can't be done.
    Skip(u32),
    /// The command makes an object.
    Make,
    /// The command shows the object that this name holds.
    Show(u32, u64),
    /// The command drops the object that this name holds.
    Drop(u32, u64),
    /// The command ends the instance that this target stands for.
    Kill(u32, u32),
    /// The command's call enters this instance.
    Enter(Call, u32),
    /// The command's call is refused.
    Refuse(Call, RpcCode),
    /// The call of the frame of this instance enters another one.
    FrameEnter(u32, Call, u32),
    /// The call of the frame of this instance is refused.
    FrameRefuse(u32, Call, RpcCode),
    /// The frame of this instance acts, and doesn't call.
    Act(u32, Act),
    /// The instance of this shadow is loaded again.
    Reload(u32),
    /// This call is issued again through this shadow, in this instance.
    Again(u32, u32, u32),
    /// This call, whose instance has ended, is over.
    Unwind(u32),
}

/// What a client does next.
#[derive(Debug, Drop)]
pub(crate) enum Next {
    /// Nothing: its script has ended.
    Done,
    /// It waits for this client to leave an instance.
    Wait(u32),
    /// It makes this step.
    Go(Step),
}

// As many objects may be there at a time.
const MOST_OBJECTS: u32 = 65_536;

// Whether a command makes an object.
fn makes(command: &Command) -> bool
    ensures { result ≡ makes command.now }
{
    matches!(command, Command::Let { .. } | Command::Text { .. })
}

// The object that a name of a script holds.
fn object_named(thread: &Thread, name: u32) -> u64
    requires { (o : ℕ) × (name_held thread.now.names name ≡ Some (value.Obj o)) }
    ensures { name_held thread.now.names name ≡ Some (value.Obj result) }
{
    match thread.name(name) {
        Some(Value::Obj(object)) => object,
        _ => unreachable!(),
    }
}

impl Machine {
    /// What client `t` does next, and where its top frame stands before it.
    pub(crate) fn next(&self, t: u32, stand: &mut Standing) -> Next
        requires a_client { (0 < t) × (t ≤ length self.now.load.clients) }
        ensures { IsNext self.now t stand.new result }
    {
        if !self.threads.is_undone(t) {
            return Next::Done;
        }
        match self.stacks.top(t) {
            None => self.next_of_script(t),
            Some(frame) if self.instances.is_live(frame.instance) => {
                self.next_of_frame(t, frame.instance, stand)
            }
            Some(frame) => self.next_of_dead(t, frame.call, frame.target),
        }
    }

    // What client `t`, which has no frame, does next.
    fn next_of_script(&self, t: u32) -> Next
        requires a_client { (0 < t) × (t ≤ length self.now.load.clients) }
        requires undone { is_undone (row self.now.state.threads t) ≡ true }
        requires no_frame { top (stack self.now.state t) ≡ None }
        ensures { (stand : Standing) → IsNext self.now t stand result }
    {
        let Some(thread) = self.threads.thread(t) else {
            unreachable!();
        };
        match thread.command(&self.load, t) {
            None => Next::Go(Step::Finish),
            Some(command) if self.can_do(thread, command) => {
                self.next_of_command(t, thread, command)
            }
            Some(_) => Next::Go(Step::Skip(thread.place() + 1)),
        }
    }

    // Whether a command can be done: its names hold something, and there is room for the object
    // that it makes.
    fn can_do(&self, thread: &Thread, command: &Command) -> bool
        ensures { result ≡ can_do self.now.state thread.now.names command.now }
    {
        thread.has_names(command) && !(makes(command) && self.heap.live() >= MOST_OBJECTS)
    }

    // What client `t`, which has no frame, does next, where its next command can be done.
    fn next_of_command(&self, t: u32, thread: &Thread, command: &Command) -> Next
        requires a_client { (0 < t) × (t ≤ length self.now.load.clients) }
        requires undone { is_undone (row self.now.state.threads t) ≡ true }
        requires no_frame { top (stack self.now.state t) ≡ None }
        requires thread { row self.now.state.threads t ≡ Some thread.now }
        requires wants { wanted self.now.load self.now.state t ≡ Commands command.now }
        ensures { (stand : Standing) → IsNext self.now t stand result }
    {
        match command {
            Command::Let { .. } | Command::Text { .. } => Next::Go(Step::Make),
            Command::Show(name) => Next::Go(Step::Show(*name, object_named(thread, *name))),
            Command::Drop(name) => Next::Go(Step::Drop(*name, object_named(thread, *name))),
            Command::Kill(target) => {
                let instance = self.shadows.current(&self.load, *target);
                Next::Go(Step::Kill(*target, instance))
            }
            Command::Call {
                target,
                method,
                args,
                ..
            } => self.next_of_call(
                t,
                Call {
                    target: *target,
                    method: *method,
                    args: thread.args(args.as_slice()),
                },
            ),
        }
    }

    // What client `t`, which has no frame, does next, where its command is this call.
    fn next_of_call(&self, t: u32, call: Call) -> Next
        requires a_client { (0 < t) × (t ≤ length self.now.load.clients) }
        requires undone { is_undone (row self.now.state.threads t) ≡ true }
        requires no_frame { top (stack self.now.state t) ≡ None }
        requires calls { ClientCalls self.now t call.target call.method call.args }
        ensures { (stand : Standing) → IsNext self.now t stand result }
    {
        match self.crossing(t, call.target) {
            Crossing::Enter(instance) => Next::Go(Step::Enter(call, instance)),
            Crossing::Refuse(why) => Next::Go(Step::Refuse(call, why)),
            Crossing::Reload => Next::Go(Step::Reload(call.target)),
            Crossing::Wait(client) => Next::Wait(client),
        }
    }

    // What comes of a call of `target` by client `t`.
    fn crossing(&self, t: u32, target: u32) -> Crossing
        requires a_client { (0 < t) × (t ≤ length self.now.load.clients) }
        ensures { IsCrossing self.now.load self.now.state t target result }
    {
        crossing_of(
            &self.proxies,
            &self.load,
            &self.instances,
            &self.stacks,
            &self.shadows,
            t,
            target,
        )
    }

    // What client `t` does next, whose top frame is of instance `i`, which lives; and where the
    // frame stands before it.
    fn next_of_frame(&self, t: u32, i: u32, stand: &mut Standing) -> Next
        requires a_client { (0 < t) × (t ≤ length self.now.load.clients) }
        requires undone { is_undone (row self.now.state.threads t) ≡ true }
        requires lives { IsLiveTop self.now t i }
        ensures { IsNext self.now t stand.new result }
    {
        match self.settle_top(t, i, stand) {
            Act::Call(target, method, args) => {
                let call = Call {
                    target,
                    method,
                    args,
                };
                match self.crossing(t, target) {
                    Crossing::Enter(instance) => Next::Go(Step::FrameEnter(i, call, instance)),
                    Crossing::Refuse(why) => Next::Go(Step::FrameRefuse(i, call, why)),
                    Crossing::Reload => Next::Go(Step::Reload(target)),
                    Crossing::Wait(client) => Next::Wait(client),
                }
            }
            act => Next::Go(Step::Act(i, act)),
        }
    }

    // What client `t` does next, whose top frame is of this call of a target, and whose instance
    // has ended.
    fn next_of_dead(&self, t: u32, call: u32, target: u32) -> Next
        requires a_client { (0 < t) × (t ≤ length self.now.load.clients) }
        requires undone { is_undone (row self.now.state.threads t) ≡ true }
        requires dead { IsDeadTop self.now t call target }
        ensures { (stand : Standing) → IsNext self.now t stand result }
    {
        match reentry_of(
            &self.proxies,
            &self.load,
            &self.instances,
            &self.stacks,
            &self.shadows,
            t,
        ) {
            Reentry::Again(instance) => Next::Go(Step::Again(call, target, instance)),
            Reentry::Unwound => Next::Go(Step::Unwind(call)),
            Reentry::Reload => Next::Go(Step::Reload(target)),
            Reentry::Wait(client) => Next::Wait(client),
        }
    }
}
