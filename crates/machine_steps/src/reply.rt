//! Who called gets the answer of a call that has ended.
ghost use Rattle.std.specs.Prelude.{◌≡◌, ℕ, ◌+◌, ◌<◌, ◌≤◌, ◌^◌, length, Some, slice_get};
ghost use Rattle.rl_defs.specs.Rows.{row, bound_by, commands_of};
ghost use Rattle.machine_defs.specs.State.{StackFrame, Thread as AThread};
ghost use Rattle.machine_defs.specs.Seen.{change_row};
ghost use Rattle.machine_defs.specs.Frames.{after_command, names_of, results_in};
ghost use Rattle.proxies.specs.Objects.{is_over_for};
ghost use Rattle.trampolines.specs.Words.{top, stack_of};
ghost use Rattle.machine_steps.specs.Replying.{actor_in, told_stacks, told_threads, MayBeTold};

use crate::act::domain_of;
use crate::natives::NativeState;
use client_threads::{Thread, Threads};
use code_machine::answer::take_answer_in;
use instance_table::Instances;
use machine_defs::frame::{Answer, FrameBody};
use machine_defs::values::Owner;
use rl_defs::load::{Command, Load};
use rl_defs::values::Value;
use std::slice;
use trampolines::{Body, Stacks};

/// Who acts for client `t`: the instance of its top frame, or the client itself where it has no
/// frame.
pub(crate) fn actor(stacks: &Stacks<Body<NativeState>>, t: u32) -> Owner
    requires { (0 < t) × (t ≤ length stacks.now.frames) }
    ensures { result ≡ actor_in stacks.now.frames t }
{
    match stacks.top(t) {
        Some(frame) => Owner::Instance(frame.instance),
        None => Owner::Client(t),
    }
}

/// Whether an owner has ended. A client never does.
pub(crate) fn is_over(instances: &Instances, owner: Owner) -> bool
    ensures { result ≡ is_over_for instances.now owner }
{
    match owner {
        Owner::Client(_) => false,
        Owner::Instance(i) => !instances.is_live(i),
    }
}

/// A call of client `t` has ended, and its frame is popped. Who made it gets the answer: the frame
/// that is on top now goes on from it, or gets nothing where its instance has ended; where there is
/// none, the client's command is done.
pub(crate) fn reply(
    load: &Load,
    instances: &Instances,
    stacks: &mut Stacks<Body<NativeState>>,
    threads: &mut Threads,
    t: u32,
    answer: &Answer,
)
    requires a_client { (0 < t) × (t ≤ length stacks.old.frames) }
    requires a_frame { (f : StackFrame) → top (stack_of stacks.old.frames t) ≡ Some f
        → MayBeTold load.now instances.now answer.now f }
    requires a_place { (x : AThread) → row threads.old t ≡ Some x → x.place + 1 < 2 ^ 32 }
    ensures frames { stacks.new.frames
        ≡ told_stacks load.now instances.now t answer.now stacks.old.frames (top (stack_of stacks.old.frames t)) }
    ensures instances { stacks.new.instances ≡ stacks.old.instances }
    ensures threads { threads.new
        ≡ told_threads load.now t answer.now threads.old (top (stack_of stacks.old.frames t)) }
{
    match stacks.top(t) {
        Some(_) => tell_frame(load, instances, stacks, t, answer),
        None => end_call(load, threads, t, answer),
    }
}

// The top frame of client `t` goes on from an answer. A frame of an instance that has ended gets
// nothing.
fn tell_frame(
    load: &Load,
    instances: &Instances,
    stacks: &mut Stacks<Body<NativeState>>,
    t: u32,
    answer: &Answer,
)
    requires a_client { (0 < t) × (t ≤ length stacks.old.frames) }
    requires a_frame { (f : StackFrame) → top (stack_of stacks.old.frames t) ≡ Some f
        → MayBeTold load.now instances.now answer.now f }
    ensures frames { stacks.new.frames
        ≡ told_stacks load.now instances.now t answer.now stacks.old.frames (top (stack_of stacks.old.frames t)) }
    ensures instances { stacks.new.instances ≡ stacks.old.instances }
{
    let frame = match stacks.top(t) {
        Some(frame) => frame,
        None => return,
    };
    let i = frame.instance;
    if !instances.is_live(i) {
        return;
    }
    let (mut line, mut registers) = match &frame.body {
        FrameBody::Code { line, registers } => (*line, registers.copied()),
        FrameBody::Native { .. } => unreachable!(),
    };
    let domain = match domain_of(load, instances.load_of(i)) {
        Some(domain) => domain,
        None => unreachable!(),
    };
    take_answer_in(domain, &mut line, &mut registers, answer);
    stacks.set_code(t, line, &registers);
}

/// The command of client `t`, which is a call, is done: its names hold the results.
pub(crate) fn end_call(load: &Load, threads: &mut Threads, t: u32, answer: &Answer)
    requires { (x : AThread) → row threads.old t ≡ Some x → x.place + 1 < 2 ^ 32 }
    ensures { threads.new
        ≡ change_row threads.old t (λ x. after_command load.now t x (results_in answer.now)) (row threads.old t) }
{
    let names = match threads.thread(t) {
        Some(thread) => names_of(load, t, thread),
        None => return,
    };
    threads.end_command(t, names, results_of(answer));
}

// The names that the next command of client `t` binds.
fn names_of<'a>(load: &'a Load, t: u32, thread: &Thread) -> &'a [u32]
    ensures { result.now ≡ names_of (slice_get (commands_of (row load.now.clients t)) thread.now.place) }
{
    match thread.command(load, t) {
        Some(command) => bound_by(command),
        None => &[],
    }
}

// The names that a command binds.
fn bound_by(command: &Command) -> &[u32]
    ensures { result.now ≡ bound_by command.now }
{
    match command {
        Command::Let { name, .. } | Command::Text { name, .. } => slice::from_ref(name),
        Command::Call { names, .. } => names.as_slice(),
        Command::Show(_) | Command::Drop(_) | Command::Kill(_) => &[],
    }
}

// The results that an answer brings.
fn results_of(answer: &Answer) -> &[Value]
    ensures { result.now ≡ results_in answer.now }
{
    match answer {
        Answer::Back(results) => results.as_slice(),
        _ => &[],
    }
}
