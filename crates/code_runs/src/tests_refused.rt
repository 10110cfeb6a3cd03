//! Answers, calls and views that don't fit.
use crate::tests::{Case, PLAIN, all_say, all_say_in, world};
use crate::view::SeenObject;
use rl_defs::list::List;
use std::test::Fail;

// Calls `ask` and returns what comes back, or the code of the failure.
const ASK: Case<'static> = Case {
    method: ", p: &dyn Peer, a: u64, b: u64) -> RpcResult<u64>",
    code: "call r0.ask(r1, r2) -> r3 else r4, bad\nret r3\nbad: r4 num\nret r4",
    ..PLAIN
};

// Makes an object and returns it.
const NEW: Case<'static> = Case {
    method: ") -> RpcResult<RRef<Item>>",
    code: "new r0, Item\nret r0",
    ..PLAIN
};

#[test]
fn what_is_made_is_of_its_struct(rt: HostRuntime) -> Result<(), Fail> {
    const CASES: [Case<'static>; 5] = [
        Case {
            answers: "made6",
            says: "the answer doesn't fit",
            ..NEW
        },
        Case {
            answers: "made99",
            says: "the answer doesn't fit",
            ..NEW
        },
        Case {
            answers: "done",
            says: "the answer doesn't fit",
            ..NEW
        },
        Case {
            method: ") -> RpcResult<RRef<Item>>",
            code: "take r0, full\nret r0",
            answers: "made0",
            says: "the answer doesn't fit",
            ..PLAIN
        },
        Case {
            method: ", o: RRef<Bag>) -> RpcResult<(RRef<Bag>, RRef<Item>)>",
            code: "unhang r1, r0, 1\nret r0, r1",
            args: "o2",
            answers: "made0",
            says: "the answer doesn't fit",
            ..PLAIN
        },
    ];
    all_say(rt.alloc(), &CASES)
}

#[test]
fn what_comes_back_is_what_the_method_says(rt: HostRuntime) -> Result<(), Fail> {
    const CASES: [Case<'static>; 5] = [
        Case {
            args: "t1 7 8",
            answers: "back o5",
            says: "the answer doesn't fit",
            ..ASK
        },
        Case {
            args: "t1 7 8",
            answers: "back",
            says: "the answer doesn't fit",
            ..ASK
        },
        Case {
            args: "t1 7 8",
            answers: "back 1 2",
            says: "the answer doesn't fit",
            ..ASK
        },
        Case {
            method: ", p: &dyn Peer, o: RRef<Item>, l: &RRef<Item>) -> RpcResult<(RRef<Item>, u64)>",
            code: "call r0.give(r1, &r2, r0) -> r3, r4 else r5, bad\nret r3, r4\nbad: r5 num\ntrap",
            args: "t1 o0 &o1",
            answers: "back o6 1",
            says: "the answer doesn't fit",
            ..PLAIN
        },
        Case {
            args: "t1 7 8",
            answers: "done",
            says: "the answer doesn't fit",
            ..ASK
        },
    ];
    all_say(rt.alloc(), &CASES)
}

#[test]
fn a_trap_and_a_return_are_not_answered(rt: HostRuntime) -> Result<(), Fail> {
    const CASES: [Case<'static>; 5] = [
        Case {
            method: ") -> RpcResult<()>",
            code: "trap",
            answers: "done",
            says: "the answer doesn't fit",
            ..PLAIN
        },
        Case {
            method: ") -> RpcResult<()>",
            code: "ret",
            answers: "done",
            says: "the answer doesn't fit",
            ..PLAIN
        },
        Case {
            method: ", o: RRef<Item>) -> RpcResult<()>",
            code: "put full, r0\nret",
            args: "o0",
            answers: "done",
            says: "the answer doesn't fit",
            ..PLAIN
        },
        Case {
            method: ") -> RpcResult<RRef<Item>>",
            code: "take r0, empty\nret r0",
            answers: "made1",
            says: "the answer doesn't fit",
            ..PLAIN
        },
        Case {
            method: ", o: RRef<Item>) -> RpcResult<()>",
            code: "drop r0\nret",
            args: "o0",
            answers: "gone",
            says: "the answer doesn't fit",
            ..PLAIN
        },
    ];
    all_say(rt.alloc(), &CASES)
}

#[test]
fn arguments_are_of_the_parameters(rt: HostRuntime) -> Result<(), Fail> {
    const CASES: [Case<'static>; 5] = [
        Case {
            args: "t2 7 8",
            says: "the call doesn't fit",
            ..ASK
        },
        Case {
            args: "7 7 8",
            says: "the call doesn't fit",
            ..ASK
        },
        Case {
            args: "t1 7",
            says: "the call doesn't fit",
            ..ASK
        },
        Case {
            method: ", o: &RRef<Item>, i: u64) -> RpcResult<u64>",
            code: "get r2, r0, r1\nret r2",
            args: "&o2 0",
            says: "the call doesn't fit",
            ..PLAIN
        },
        Case {
            method: ", o: &RRef<Item>, i: u64) -> RpcResult<u64>",
            code: "get r2, r0, r1\nret r2",
            args: "&o99 0",
            says: "the call doesn't fit",
            ..PLAIN
        },
    ];
    all_say(rt.alloc(), &CASES)
}

const RETURNS: [Case<'static>; 1] = [Case {
    method: ") -> RpcResult<()>",
    code: "ret",
    says: "ret, fuel 10\n",
    ..PLAIN
}];

const REFUSED: [Case<'static>; 1] = [Case {
    method: ") -> RpcResult<()>",
    code: "ret",
    says: "the view doesn't fit",
    ..PLAIN
}];

#[test]
fn a_slot_holds_an_object_of_its_struct(rt: HostRuntime) -> Result<(), Fail> {
    let alloc = rt.alloc();
    let mut view = world(alloc)?;
    let mut slots = List::new(alloc);
    slots.push(Some(2u64)).map_err(|_| "memory")?;
    slots.push(None).map_err(|_| "memory")?;
    view.slots = slots;
    all_say_in(alloc, &view, &REFUSED)?;
    view.slots = List::new(alloc);
    all_say_in(alloc, &view, &REFUSED)
}

#[test]
fn an_import_is_bound_to_a_target_of_its_trait(rt: HostRuntime) -> Result<(), Fail> {
    let alloc = rt.alloc();
    let mut view = world(alloc)?;
    let mut binds = List::new(alloc);
    binds.push(2u32).map_err(|_| "memory")?;
    view.binds = binds;
    all_say_in(alloc, &view, &REFUSED)?;
    view.binds = List::new(alloc);
    all_say_in(alloc, &view, &REFUSED)
}

#[test]
fn an_object_has_the_cells_of_its_struct(rt: HostRuntime) -> Result<(), Fail> {
    let alloc = rt.alloc();
    let mut view = world(alloc)?;
    all_say_in(alloc, &view, &RETURNS)?;
    let cells = List::new(alloc);
    view.objects
        .push(SeenObject { of: 1, cells })
        .map_err(|_| "memory")?;
    all_say_in(alloc, &view, &REFUSED)
}
