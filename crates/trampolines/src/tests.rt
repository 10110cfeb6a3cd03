//! Each call once, and what two clients' frames show of each other.
ghost use Rattle.std.specs.Prelude.{◌≡◌, true};
ghost use Rattle.trampolines.specs.Words.{is_code};

use crate::body::Body;
use crate::laws::frames_are_of_the_state;
use crate::stack::Stack;
use crate::stacks::Stacks;
use machine_defs::arrays::{Args, Objects, Registers};
use machine_defs::frame::{Action, Frame, FrameBody};
use machine_defs::values::Cause;
use std::process::Abort;
use std::test::Fail;

// A frame of domain code in an instance.
fn code_frame(call: u32, instance: u32) -> Frame<Body<u64>>
    ensures place { result.instance ≡ instance }
    ensures code { is_code result.body ≡ true }
{
    Frame {
        call,
        target: 1,
        instance,
        method: 0,
        args: Args::new(),
        lent: Objects::new(),
        body: FrameBody::Code {
            line: 3,
            registers: Registers::new(),
        },
    }
}

#[test]
fn frames_are_found(rt: HostRuntime) -> Result<(), Fail> {
    let mut stacks = Stacks::<Body<u64>>::new(rt.alloc(), 2, 2)?;
    assert_eq!(rt; stacks.depth(2), 1);
    stacks.push(2, code_frame(5, 2));
    assert_eq!(rt; stacks.depth(2), 2);
    assert_eq!(rt; stacks.holder(2, 1), Some(2));
    assert_eq!(rt; stacks.holder(2, 2), None);
    assert_eq!(rt; stacks.is_held(1, 1), false);
    assert_eq!(rt; stacks.is_held(2, 1), true);
    assert_eq!(rt; frames_are_of_the_state(&stacks, 2), 1);
    Ok(())
}

#[test]
fn frames_are_left(rt: HostRuntime) -> Result<(), Fail> {
    let mut stacks = Stacks::<Body<u64>>::new(rt.alloc(), 1, 0)?;
    stacks.open()?;
    assert_eq!(rt; stacks.is_entered(1), false);
    stacks.push(1, code_frame(7, 1));
    assert_eq!(rt; stacks.is_entered(1), true);
    assert_eq!(rt; stacks.frame_at(1, 0).is_some(), true);
    assert_eq!(rt; stacks.frame_at(1, 1).is_none(), true);
    let frame = stacks.pop(1);
    assert_eq!(rt; frame.call, 7);
    assert_eq!(rt; stacks.is_entered(1), false);
    Ok(())
}

// The line at which a frame of domain code stands, 0 where there is none.
fn line_of(frame: Option<&Frame<Body<u64>>>) -> u32 {
    match frame {
        Some(frame) => match &frame.body {
            FrameBody::Code { line, .. } => *line,
            FrameBody::Native { .. } => 0,
        },
        None => 0,
    }
}

#[test]
fn code_stands_at_lines(rt: HostRuntime) -> Result<(), Fail> {
    let mut stack = Stack::<Body<u64>>::new(rt.alloc())?;
    assert_eq!(rt; line_of(stack.top()), 0);
    stack.push(code_frame(5, 2));
    assert_eq!(rt; line_of(stack.top()), 3);
    stack.set_code(9, &Registers::new());
    assert_eq!(rt; line_of(stack.top()), 9);
    assert_eq!(rt; stack.as_slice().len(), 1);
    assert_eq!(rt; stack.is_in(2), true);
    assert_eq!(rt; stack.pop().instance, 2);
    assert_eq!(rt; stack.is_in(2), false);
    Ok(())
}

#[test]
fn clients_stand_at_lines(rt: HostRuntime) -> Result<(), Fail> {
    let mut stacks = Stacks::<Body<u64>>::new(rt.alloc(), 2, 1)?;
    stacks.push(2, code_frame(5, 1));
    stacks.set_code(2, 8, &Registers::new());
    assert_eq!(rt; line_of(stacks.top(2)), 8);
    assert_eq!(rt; line_of(stacks.top(1)), 0);
    Ok(())
}

#[test]
fn bodies_want(rt: HostRuntime) -> Result<(), Fail> {
    let mut body = Body::new(rt.alloc(), 4u64, Action::Take(1))?;
    assert_eq!(rt; matches!(body.wants(), Action::Take(1)), true);
    body.choose(Action::Trap(Cause::Asked));
    assert_eq!(rt; matches!(body.wants(), Action::Trap(Cause::Asked)), true);
    assert_eq!(rt; *body.state(), 4);
    Ok(())
}
