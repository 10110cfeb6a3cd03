//! The next step of a client is made.
ghost use Rattle.std.specs.Prelude.{◌≡◌, ◌<◌, OnOk, OnErr};
ghost use Rattle.machine_defs.specs.declared.frame.Action.TheVariants as action;
ghost use Rattle.rl_defs.specs.declared.load.Command.TheVariants as command;
ghost use Rattle.machine_defs.specs.State.{current};
ghost use Rattle.machine_defs.specs.Wants.{Commands, wanted};
ghost use Rattle.code_machine.specs.Act.{action_of};
ghost use Rattle.machine_steps.specs.Kept.{MayStep};
ghost use Rattle.machine_steps.specs.Acting.{WouldAct};
ghost use Rattle.machine_steps.specs.Next.{IsNoCall, IsStep};
ghost use Rattle.machine_steps.specs.Turns.{TakesMemory, WentBy};

use crate::known::laws;
use crate::machine::Machine;
use crate::next::Step;
use crate::standing::Standing;
use code_machine::act::Act;
use machine_defs::arrays::Results;
use machine_defs::values::Cause;
use rref_heap::Steps;
use std::alloc::{AllocError, Global};
use std::marker::Brand;
use std::sync::ledger::{Blank, Ledger};

impl Machine {
    /// Client `t` makes its next step. After `AllocError` all is as before.
    pub(crate) fn make_step(
        &mut self,
        alloc: Global,
        t: u32,
        stand: &mut Standing,
        step: Step,
    ) -> Result<(), AllocError>
        requires may { MayStep self.old t }
        requires step { IsStep self.old t stand.old step }
        ensures ok { OnOk result (WentBy self.old self.new t) }
        ensures err { OnErr result ((self.new ≡ self.old) × TakesMemory self.old t) }
    {
        match step {
            Step::Finish => self.finish_script(t),
            Step::Skip(number) => self.skip(t, number),
            Step::Make => self.make_named(alloc, t)?,
            Step::Show(name, object) => self.show(alloc, t, name, object)?,
            Step::Drop(name, object) => self.drop_named(t, name, object),
            Step::Kill(target, instance) => self.kill_one::<Brand>(
                t,
                target,
                instance,
                Blank::new(1),
            ),
            Step::Enter(call, instance) => {
                self.client_enters(t, call.target, call.method, &call.args, instance)
            }
            Step::Refuse(call, why) => {
                self.client_refused(t, call.target, call.method, &call.args, why)
            }
            Step::FrameEnter(from, call, instance) => {
                self.frame_enters(
                    t,
                    from,
                    stand,
                    call.target,
                    call.method,
                    &call.args,
                    instance,
                )
            }
            Step::FrameRefuse(from, call, why) => {
                self.frame_refused(t, from, stand, call.target, call.method, &call.args, why)
            }
            Step::Act(instance, act) => self.make_act(alloc, t, instance, stand, act)?,
            Step::Reload(shadow) => self.reload(t, shadow)?,
            Step::Again(call, target, instance) => self.again(t, call, target, instance),
            Step::Unwind(call) => self.unwind(t, call),
        }
        Ok(())
    }

    // A frame of instance `i` acts, and doesn't call. After `AllocError` all is as before.
    fn make_act(
        &mut self,
        alloc: Global,
        t: u32,
        i: u32,
        stand: &mut Standing,
        act: Act,
    ) -> Result<(), AllocError>
        requires may { MayStep self.old t }
        requires wants { WouldAct self.old t i (action_of act) stand.old }
        requires no_call { IsNoCall act }
        ensures ok { OnOk result (WentBy self.old self.new t) }
        ensures err { OnErr result ((self.new ≡ self.old) × TakesMemory self.old t) }
    {
        match act {
            Act::New(ty) => self.make_object(alloc, t, i, stand, ty)?,
            Act::Set(object, at, value) => self.set_cell(alloc, t, i, stand, object, at, value)?,
            Act::Drop(object) => self.drop_object(t, i, stand, object),
            Act::Wput(at, value) => self.put_word(t, i, stand, at, value),
            Act::Take(slot) => self.take_from(t, i, stand, slot),
            Act::Put(slot, object) => self.put_in(t, i, stand, slot, object),
            Act::DevGet(object, block) => self.get_block(t, i, stand, object, block),
            Act::DevPut(block, object) => self.put_block(t, i, stand, block, object),
            Act::Hang(object, at, hung) => self.hang(t, i, stand, object, at, hung),
            Act::Unhang(object, at) => self.unhang_from(t, i, stand, object, at),
            Act::Ret(results) => self.ret_top(t, i, stand, &results),
            Act::Trap(cause) => self.trap_one::<Brand>(t, i, stand, cause, Blank::new(1)),
            Act::Call(..) => unreachable!(),
        }
        Ok(())
    }

    // A frame of instance `i` takes the object out of a slot.
    fn take_from(&mut self, t: u32, i: u32, stand: &mut Standing, slot: u32)
        requires may { MayStep self.old t }
        requires wants { WouldAct self.old t i (action.Take slot) stand.old }
        ensures { WentBy self.old self.new t }
    {
        let Some(object) = self.instances.slot(i, slot) else {
            unreachable!();
        };
        self.take_out(t, i, stand, slot, object);
    }

    // A frame of instance `i` moves the object out of a cell of another.
    fn unhang_from(&mut self, t: u32, i: u32, stand: &mut Standing, object: u64, at: u32)
        requires may { MayStep self.old t }
        requires wants { WouldAct self.old t i (action.Unhang object at) stand.old }
        ensures { WentBy self.old self.new t }
    {
        laws();
        self.heap.is_kept();
        let Some(hung) = self.heap.hung(object, at) else {
            unreachable!();
        };
        self.unhang(t, i, stand, object, at, hung);
    }

    // The top frame of client `t`, of instance `i`, returns.
    fn ret_top(&mut self, t: u32, i: u32, stand: &Standing, results: &Results)
        requires may { MayStep self.old t }
        requires wants { WouldAct self.old t i (action.Ret results.now) stand.now }
        ensures { WentBy self.old self.new t }
    {
        let call = match self.stacks.top(t) {
            Some(frame) => frame.call,
            None => unreachable!(),
        };
        self.ret(t, i, stand, call, results);
    }

    // Instance `i`, of client `t`'s top frame, ends by its own code, and nobody counts the steps.
    fn trap_one<L: Ledger>(&mut self, t: u32, i: u32, stand: &Standing, cause: Cause, blank: Blank)
        requires name { blank.name ≡ L.name }
        requires parts { blank.parts ≡ L.parts }
        requires some { 0 < blank.parts }
        requires may { MayStep self.old t }
        requires wants { WouldAct self.old t i (action.Trap cause) stand.now }
        ensures { WentBy self.old self.new t }
    {
        let mut steps: Steps<L> = Steps::new(blank);
        self.trap(t, i, stand, cause, &mut steps);
    }

    // Client `t` ends instance `i`, which the target stands for, and nobody counts the steps.
    fn kill_one<L: Ledger>(&mut self, t: u32, target: u32, i: u32, blank: Blank)
        requires name { blank.name ≡ L.name }
        requires parts { blank.parts ≡ L.parts }
        requires some { 0 < blank.parts }
        requires may { MayStep self.old t }
        requires wants { wanted self.old.load self.old.state t ≡ Commands (command.Kill target) }
        requires into { i ≡ current self.old.load self.old.state target }
        ensures { WentBy self.old self.new t }
    {
        let mut steps: Steps<L> = Steps::new(blank);
        self.kill(t, target, i, &mut steps);
    }
}
