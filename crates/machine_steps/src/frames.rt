//! Frames of calls that begin.
ghost use Rattle.std.specs.Prelude.{◌≡◌, ◌≤◌, length, true};
ghost use Rattle.rl_defs.specs.Domains.{load_of_target};
ghost use Rattle.rl_defs.specs.Rows.{domain_of_load, is_target};
ghost use Rattle.machine_defs.specs.State.{State};
ghost use Rattle.machine_defs.specs.Arguments.{lent_of};
ghost use Rattle.machine_defs.specs.Frames.{Begins};
ghost use Rattle.code_machine.specs.Fitting.{Enters};

use crate::natives::NativeState;
use code_machine::entry::body_at_entry;
use machine_defs::arrays::{Args, Objects};
use machine_defs::frame::Frame;
use machine_defs::values::Arg;
use rl_defs::checked::CheckedDomain;
use rl_defs::load::Load;
use trampolines::Body;

/// The frame of a call that begins: of a method of the target, in an instance of its load, with
/// these arguments. It takes no memory.
pub(crate) fn frame_at_entry(
    load: &Load,
    call: u32,
    target: u32,
    instance: u32,
    method: u32,
    args: &Args,
) -> Frame<Body<NativeState>>
    requires target { is_target load.now target ≡ true }
    requires enters { Enters (domain_of_load load.now (load_of_target load.now target)) method args.now }
    ensures { (made : State) → Begins load.now made call target instance method args.now result }
{
    let domain = domain_of_target(load, target);
    Frame {
        call,
        target,
        instance,
        method,
        args: args.copied(),
        lent: lent_objects(args.as_slice()),
        body: body_at_entry(domain, method, args.as_slice()),
    }
}

// The domain that a target runs.
fn domain_of_target(load: &Load, target: u32) -> &CheckedDomain
    requires { is_target load.now target ≡ true }
    ensures { result.now ≡ domain_of_load load.now (load_of_target load.now target) }
{
    let rows = load.rows();
    let row = match rows.load_row(rows.load_of_target(target)) {
        Some(row) => row,
        None => unreachable!(),
    };
    match rows.domains.get(row.domain as usize) {
        Some(domain) => domain,
        None => unreachable!(),
    }
}

// The objects that arguments lend.
fn lent_objects(args: &[Arg]) -> Objects
    requires { length args.now ≤ 8 }
    ensures { result ≡ lent_of args.now }
{
    let mut lent = Objects::new();
    'args: for arg in args {
        if let Arg::Lent(object) = arg {
            lent.push(*object);
        }
    }
    lent
}
