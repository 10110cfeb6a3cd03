//! Calls that enter an instance.
ghost use Rattle.std.specs.Prelude.{◌≡◌, true, ◌+◌, ◌<◌, ◌≤◌, ◌++◌, ◌∷◌, [], ℕ, List, length, map, Some, slice_get};
ghost use Rattle.std.specs.Option.{option_map_or};
ghost use Rattle.machine_defs.specs.declared.values.Owner.TheVariants as owner;
ghost use Rattle.machine_defs.specs.declared.entry.Entry.TheVariants as entry;
ghost use Rattle.machine_defs.specs.declared.frame.Action.TheVariants as action;
ghost use Rattle.machine_defs.specs.declared.frame.FrameBody.TheVariants as body;
ghost use Rattle.rl_defs.specs.declared.load.Command.TheVariants as command;
ghost use Rattle.rl_defs.specs.declared.load.ScriptArg.{ScriptArg};
ghost use Rattle.rl_defs.specs.Rows.{row, commands_of};
ghost use Rattle.rl_defs.specs.CodeKinds.{moved};
ghost use Rattle.machine_defs.specs.State.{StackFrame, Thread};
ghost use Rattle.machine_defs.specs.Instructions.{all_given_up};
ghost use Rattle.machine_defs.specs.Frames.{with_body, instr_at};
ghost use Rattle.machine_defs.specs.Seen.{change_row};
ghost use Rattle.client_threads.specs.GivenUp.{given_up_names};
ghost use Rattle.rref_heap.specs.HeapValue.{MayOwn};
ghost use Rattle.proxies.specs.Objects.{MayGive, handed};
ghost use Rattle.trampolines.specs.Words.{top, below_top, stack_of, with_stack_of, stands_in_code};
ghost use Rattle.machine_steps.specs.Kept.{MayStep, Went};
ghost use Rattle.machine_steps.specs.Acting.{WouldAct, domain_in};
ghost use Rattle.machine_steps.specs.Calls.{ClientCalls, MayEnter};

use crate::act::domain_of;
use crate::frames::frame_at_entry;
use crate::known::laws;
use crate::machine::Machine;
use crate::natives::NativeState;
use crate::standing::Standing;
use client_threads::Threads;
use client_threads::laws::the_moved_are_given_up;
use code_machine::answer::wait_for_call;
use instance_table::Instances;
use machine_defs::arrays::Args;
use machine_defs::entry::Entry;
use machine_defs::frame::Frame;
use machine_defs::values::Owner;
use proxies::hand_over;
use rl_defs::load::{Command, Load};
use rref_heap::Heap;
use trampolines::{Body, Stacks};

// A call enters: what it moves passes to the instance of its frame, what it lends gains a loan, and
// the frame stands on top of the client's stack. It takes no memory.
fn enter(
    heap: &mut Heap,
    stacks: &mut Stacks<Body<NativeState>>,
    t: u32,
    frame: Frame<Body<NativeState>>,
)
    requires gives { MayGive heap.old.rows frame.args }
    requires owner { MayOwn heap.old (owner.Instance frame.instance) }
    requires a_client { (0 < t) × (t ≤ length stacks.old.frames) }
    requires room { length (stack_of stacks.old.frames t) < 31 }
    requires counted { (0 < frame.instance) × (frame.instance ≤ stacks.old.instances) }
    ensures heap { heap.new
        ≡ record heap.old { rows = map (handed frame.args (owner.Instance frame.instance)) heap.old.rows } }
    ensures frames { stacks.new.frames
        ≡ with_stack_of stacks.old.frames t (stack_of stacks.old.frames t ++ frame ∷ []) }
    ensures instances { stacks.new.instances ≡ stacks.old.instances }
{
    hand_over(heap, frame.args.as_slice(), Owner::Instance(frame.instance));
    stacks.push(t, frame);
}

/// The names out of which the next command of client `t`, a call, moves objects hold nothing any
/// more.
pub(crate) fn give_up_names(load: &Load, threads: &mut Threads, t: u32)
    ensures { (x : Thread) (target method : ℕ) (given : List ScriptArg) (names : List ℕ) → row threads.old t ≡ Some x
        → slice_get (commands_of (row load.now.clients t)) x.place ≡ Some (command.Call target method given names)
        → threads.new
        ≡ change_row threads.old t (λ x. record x { names = given_up_names given x.names }) (row threads.old t) }
{
    let command = match threads.thread(t) {
        Some(thread) => thread.command(load, t),
        None => None,
    };
    if let Some(Command::Call { args, .. }) = command {
        threads.give_up(t, args.as_slice());
    }
}

// The top frame of client `t`, of instance `i`, which stands so at its call, waits for the call:
// the objects that the call moves have left its registers.
fn wait(
    load: &Load,
    instances: &Instances,
    stacks: &mut Stacks<Body<NativeState>>,
    t: u32,
    i: u32,
    stand: &mut Standing,
)
    requires a_client { (0 < t) × (t ≤ length stacks.old.frames) }
    requires code { stands_in_code (top (stack_of stacks.old.frames t)) ≡ true }
    ensures frames { (f : StackFrame) → top (stack_of stacks.old.frames t) ≡ Some f → stacks.new.frames
        ≡ with_stack_of stacks.old.frames t (below_top (stack_of stacks.old.frames t)
        ++ with_body f (body.Code stand.old.line
        (all_given_up (option_map_or moved (instr_at (domain_in load.now instances.now i) stand.old.line) [])
        stand.old.registers)) ∷ []) }
    ensures instances { stacks.new.instances ≡ stacks.old.instances }
{
    if let Some(domain) = domain_of(load, instances.load_of(i)) {
        wait_for_call(domain, stand.line, &mut stand.registers);
    }
    stacks.set_code(t, stand.line, &stand.registers);
}

impl Machine {
    /// The next command of client `t`, a call of method `m` of target `x` with these arguments,
    /// enters instance `i`. It takes no memory.
    pub fn client_enters(&mut self, t: u32, x: u32, m: u32, args: &Args, i: u32)
        requires may { MayStep self.old t }
        requires wants { ClientCalls self.old t x m args.now }
        requires enters { MayEnter self.old t x i }
        ensures { Went self.old self.new (entry.Call t self.old.state.next_call x i m args.now) }
    {
        laws();
        the_moved_are_given_up();
        // Each row is that of the object with its number.
        self.heap.is_kept();
        let call = self.next_call;
        let frame = frame_at_entry(&self.load, call, x, i, m, args);
        self.threads
            .set_fuel(t, self.load.rows().fuel.saturating_sub(1));
        give_up_names(&self.load, &mut self.threads, t);
        enter(&mut self.heap, &mut self.stacks, t, frame);
        self.log.put(Entry::Call {
            thread: t,
            call,
            target: x,
            instance: i,
            method: m,
            args: args.copied(),
        });
        self.next_call = call + 1;
    }

    /// The top frame of client `t`, of instance `j`, which stands so, calls method `m` of target
    /// `x` with these arguments, and enters instance `i`. It takes no memory.
    pub fn frame_enters(
        &mut self,
        t: u32,
        j: u32,
        stand: &mut Standing,
        x: u32,
        m: u32,
        args: &Args,
        i: u32,
    )
        requires may { MayStep self.old t }
        requires wants { WouldAct self.old t j (action.Call x m args.now) stand.old }
        requires enters { MayEnter self.old t x i }
        ensures { Went self.old self.new (entry.Call t self.old.state.next_call x i m args.now) }
    {
        laws();
        // Each row is that of the object with its number.
        self.heap.is_kept();
        let call = self.next_call;
        let frame = frame_at_entry(&self.load, call, x, i, m, args);
        self.threads.set_fuel(t, stand.fuel.saturating_sub(1));
        wait(&self.load, &self.instances, &mut self.stacks, t, j, stand);
        enter(&mut self.heap, &mut self.stacks, t, frame);
        self.log.put(Entry::Call {
            thread: t,
            call,
            target: x,
            instance: i,
            method: m,
            args: args.copied(),
        });
        self.next_call = call + 1;
    }
}
