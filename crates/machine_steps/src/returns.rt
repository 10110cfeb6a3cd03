//! Calls that end by a return, or since their instance has ended.
ghost use Rattle.std.specs.Prelude.{◌≡◌, Some};
ghost use Rattle.machine_defs.specs.declared.entry.Entry.TheVariants as entry;
ghost use Rattle.machine_defs.specs.declared.frame.Action.TheVariants as action;
ghost use Rattle.machine_defs.specs.State.{StackFrame, stack, top};
ghost use Rattle.machine_steps.specs.Kept.{MayStep, Went};
ghost use Rattle.machine_steps.specs.Acting.{WouldAct};
ghost use Rattle.machine_steps.specs.Returning.{MayUnwind};

use crate::known::laws;
use crate::machine::Machine;
use crate::reply::{actor, is_over, reply};
use crate::standing::Standing;
use machine_defs::arrays::Results;
use machine_defs::entry::Entry;
use machine_defs::frame::Answer;
use machine_defs::values::RpcCode;
use proxies::{end_loans, hand_back};

// The same results once more.
fn copied(results: &Results) -> Results
    ensures { result ≡ results.now }
{
    let mut all = Results::new();
    'each: for value in results.as_slice() {
        all.push(*value);
    }
    all
}

impl Machine {
    /// The top frame of client `t` ends, which is of call `c`, and whose instance has ended. Its
    /// loans end with it, and its caller gets the code for that. What nobody can reach then is
    /// freed. It takes no memory.
    pub fn unwind(&mut self, t: u32, c: u32)
        requires may { MayStep self.old t }
        requires over { MayUnwind self.old t c }
        ensures { Went self.old self.new (entry.Unwound t c) }
    {
        laws();
        self.heap.is_kept();
        self.log.put(Entry::Unwound { thread: t, call: c });
        let frame = self.stacks.pop(t);
        end_loans(&mut self.heap, frame.lent.as_slice(), &self.instances);
        reply(
            &self.load,
            &self.instances,
            &mut self.stacks,
            &mut self.threads,
            t,
            &Answer::Failed(RpcCode::Unwound),
        );
        self.heap.is_kept();
        self.heap.sweep(&mut self.log);
    }

    /// The top frame of client `t`, of instance `i` and of call `c`, returns. Its loans end with
    /// it, and its results pass to whoever made the call. What nobody can reach then is freed. It
    /// takes no memory.
    pub fn ret(&mut self, t: u32, i: u32, stand: &Standing, c: u32, results: &Results)
        requires may { MayStep self.old t }
        requires wants { WouldAct self.old t i (action.Ret results.now) stand.now }
        requires call { (f : StackFrame) → top (stack self.old.state t) ≡ Some f → c ≡ f.call }
        ensures { Went self.old self.new (entry.Ret t c results.now) }
    {
        laws();
        self.heap.is_kept();
        self.log.put(Entry::Ret {
            thread: t,
            call: c,
            results: copied(results),
        });
        self.threads.set_fuel(t, stand.fuel.saturating_sub(1));
        let frame = self.stacks.pop(t);
        let to = actor(&self.stacks, t);
        end_loans(&mut self.heap, frame.lent.as_slice(), &self.instances);
        hand_back(
            &mut self.heap,
            results.as_slice(),
            to,
            is_over(&self.instances, to),
        );
        reply(
            &self.load,
            &self.instances,
            &mut self.stacks,
            &mut self.threads,
            t,
            &Answer::Back(copied(results)),
        );
        self.heap.is_kept();
        self.heap.sweep(&mut self.log);
    }
}
