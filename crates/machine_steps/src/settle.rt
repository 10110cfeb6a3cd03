//! What the top frame of a client would do next.
ghost use Rattle.std.specs.Prelude.{◌≡◌, ◌<◌, ◌≤◌, length, true};
ghost use Rattle.machine_defs.specs.declared.frame.FrameBody.TheVariants as body;
ghost use Rattle.machine_defs.specs.Instructions.{Before, settle};
ghost use Rattle.machine_defs.specs.Seen.{seen};
ghost use Rattle.code_machine.specs.Act.{action_of};
ghost use Rattle.code_machine.specs.Fitting.{standing, Fitting};
ghost use Rattle.rref_heap.specs.HeapValue.{heap_objects};
ghost use Rattle.trampolines.specs.Words.{is_code};
ghost use Rattle.machine_steps.specs.Acting.{WouldAct, domain_in};
ghost use Rattle.machine_steps.specs.Sights.{IsAtRest, seen_by_frame};
ghost use Rattle.machine_steps.specs.Wishes.{IsLiveTop};

use crate::act::domain_of;
use crate::machine::Machine;
use crate::natives::NativeState;
use crate::standing::Standing;
use crate::view::FrameView;
use code_machine::act::Act;
use code_machine::settle::settle_in;
use instance_table::Instances;
use machine_defs::frame::{Frame, FrameBody};
use rl_defs::load::Load;
use rref_heap::Heap;
use trampolines::Body;

// The line and the registers of a frame of domain code.
fn copy_stand(frame: &Frame<Body<NativeState>>, stand: &mut Standing)
    requires { is_code frame.now.body ≡ true }
    ensures stand { frame.now.body ≡ body.Code stand.new.line stand.new.registers }
    ensures fuel { stand.new.fuel ≡ stand.old.fuel }
{
    match &frame.body {
        FrameBody::Code { line, registers } => {
            stand.line = *line;
            stand.registers.copy_from(registers);
        }
        FrameBody::Native { .. } => unreachable!(),
    }
}

// What a frame of instance `i` that stands so would do next. It stands there then, and the action
// isn't paid yet.
fn settle_stand(
    load: &Load,
    instances: &Instances,
    heap: &Heap,
    i: u32,
    stand: &mut Standing,
) -> Act
    requires rest { IsAtRest heap.now.rows }
    requires fits { Fitting (domain_in load.now instances.now i)
        (seen load.now (seen_by_frame instances.now heap.now.rows) i)
        (standing stand.old.line stand.old.registers) }
    ensures { settle (domain_in load.now instances.now i)
        (seen load.now (seen_by_frame instances.now heap.now.rows) i)
        (length (heap_objects heap.now.rows)) stand.old.fuel (standing stand.old.line stand.old.registers)
        ≡ Before (action_of result) stand.new.fuel (standing stand.new.line stand.new.registers) }
{
    let domain = match domain_of(load, instances.load_of(i)) {
        Some(domain) => domain,
        None => unreachable!(),
    };
    let view = FrameView::new(load, instances, heap, i);
    settle_in(
        domain,
        &mut stand.line,
        &mut stand.registers,
        &mut stand.fuel,
        &view,
        heap.live(),
    )
}

impl Machine {
    /// What client `t`'s top frame, of instance `i`, would do next, and where it stands before it.
    /// The machine stays as it is.
    pub fn settle_top(&self, t: u32, i: u32, stand: &mut Standing) -> Act
        requires a_client { (0 < t) × (t ≤ length self.now.load.clients) }
        requires lives { IsLiveTop self.now t i }
        ensures { WouldAct self.now t i (action_of result) stand.new }
    {
        self.heap.is_kept();
        match self.threads.thread(t) {
            Some(thread) => stand.fuel = thread.fuel(),
            None => unreachable!(),
        }
        match self.stacks.top(t) {
            Some(frame) => copy_stand(frame, stand),
            None => unreachable!(),
        }
        settle_stand(&self.load, &self.instances, &self.heap, i, stand)
    }
}
