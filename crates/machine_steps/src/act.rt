//! How a frame of domain code goes on from the answer to its action.
ghost use Rattle.std.specs.Prelude.{◌≡◌, ◌-◌, ◌<◌, ◌≤◌, ◌++◌, ◌∷◌, [], length, true, Some, None, IfSome};
ghost use Rattle.rl_defs.specs.Domains.{row};
ghost use Rattle.rl_defs.specs.Rows.{domain_of_load};
ghost use Rattle.machine_defs.specs.State.{StackFrame};
ghost use Rattle.machine_defs.specs.Seen.{change_row};
ghost use Rattle.machine_defs.specs.Calling.{with_fuel};
ghost use Rattle.machine_defs.specs.Frames.{with_body, code_at, answered_code};
ghost use Rattle.code_machine.specs.Fitting.{standing, Awaits};
ghost use Rattle.trampolines.specs.Words.{top, below_top, stack_of, with_stack_of, stands_in_code};
ghost use Rattle.machine_steps.specs.Acting.{domain_in};

use crate::natives::NativeState;
use crate::standing::Standing;
use client_threads::Threads;
use code_machine::answer::take_answer_in;
use instance_table::Instances;
use machine_defs::frame::Answer;
use rl_defs::checked::CheckedDomain;
use rl_defs::load::Load;
use trampolines::{Body, Stacks};

// The domain of a load.
pub(crate) fn domain_of(load: &Load, k: u32) -> Option<&CheckedDomain>
    ensures some { IfSome result (λ d. d.now ≡ domain_of_load load.now k) }
    ensures none { result ≡ None → (domain_of_load load.now k).lines ≡ [] }
{
    let rows = load.rows();
    rows.domains.get(rows.load_row(k)?.domain as usize)
}

/// The top frame of client `t`, of instance `i`, goes on from the answer to its action, before
/// which it stood so. The action is charged.
pub(crate) fn go_on(
    load: &Load,
    instances: &Instances,
    stacks: &mut Stacks<Body<NativeState>>,
    threads: &mut Threads,
    t: u32,
    i: u32,
    stand: &mut Standing,
    answer: &Answer,
)
    requires a_client { (0 < t) × (t ≤ length stacks.old.frames) }
    requires code { stands_in_code (top (stack_of stacks.old.frames t)) ≡ true }
    requires awaits { Awaits (domain_in load.now instances.now i)
        (standing stand.old.line stand.old.registers) answer.now }
    ensures threads { threads.new ≡ change_row threads.old t (with_fuel (stand.old.fuel - 1)) (row threads.old t) }
    ensures frames { (f : StackFrame) → top (stack_of stacks.old.frames t) ≡ Some f → stacks.new.frames
        ≡ with_stack_of stacks.old.frames t (below_top (stack_of stacks.old.frames t)
        ++ with_body f (code_at (answered_code (domain_in load.now instances.now i)
        (standing stand.old.line stand.old.registers) answer.now)) ∷ []) }
    ensures instances { stacks.new.instances ≡ stacks.old.instances }
{
    let domain = match domain_of(load, instances.load_of(i)) {
        Some(domain) => domain,
        None => unreachable!(),
    };
    take_answer_in(domain, &mut stand.line, &mut stand.registers, answer);
    stacks.set_code(t, stand.line, &stand.registers);
    threads.set_fuel(t, stand.fuel.saturating_sub(1));
}
