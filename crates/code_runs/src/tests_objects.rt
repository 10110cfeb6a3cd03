//! Objects that are made, given up, kept and hung.
use crate::tests::{Case, PLAIN, all_say};
use std::test::Fail;

// Makes an object and returns it.
const NEW: Case<'static> = Case {
    method: ") -> RpcResult<RRef<Item>>",
    code: "new r0, Item\nret r0",
    ..PLAIN
};

#[test]
fn objects_are_made(rt: HostRuntime) -> Result<(), Fail> {
    const CASES: [Case<'static>; 5] = [
        Case {
            answers: "made5",
            says: "new 0, fuel 10\nret o5, fuel 9, r0 o5\n",
            ..NEW
        },
        Case {
            method: ") -> RpcResult<RRef<Bag>>",
            code: "new r7, Bag\nret r7",
            answers: "made6",
            says: "new 1, fuel 10\nret o6, fuel 9, r7 o6\n",
            ..PLAIN
        },
        Case {
            live: 65535,
            says: "new 0, fuel 10\n",
            ..NEW
        },
        Case {
            live: 65536,
            says: "trap heapfull, fuel 10\n",
            ..NEW
        },
        Case {
            live: 65537,
            says: "trap heapfull, fuel 10\n",
            ..NEW
        },
    ];
    all_say(rt.alloc(), &CASES)
}

#[test]
fn objects_are_given_up(rt: HostRuntime) -> Result<(), Fail> {
    const CASES: [Case<'static>; 2] = [
        Case {
            method: ", o: RRef<Item>) -> RpcResult<()>",
            code: "drop r0\nret",
            args: "o0",
            answers: "done",
            says: "drop o0, fuel 10, r0 o0\nret, fuel 9\n",
            ..PLAIN
        },
        Case {
            method: ", o: RRef<Item>, q: RRef<Item>) -> RpcResult<RRef<Item>>",
            code: "drop r0\nret r1",
            args: "o0 o1",
            answers: "done",
            says: "drop o0, fuel 10, r0 o0, r1 o1\nret o1, fuel 9, r1 o1\n",
            ..PLAIN
        },
    ];
    all_say(rt.alloc(), &CASES)
}

#[test]
fn slots_are_filled_and_emptied(rt: HostRuntime) -> Result<(), Fail> {
    const CASES: [Case<'static>; 4] = [
        Case {
            method: ") -> RpcResult<RRef<Item>>",
            code: "take r0, full\nret r0",
            answers: "made1",
            says: "take 0, fuel 10\nret o1, fuel 9, r0 o1\n",
            ..PLAIN
        },
        Case {
            method: ") -> RpcResult<RRef<Item>>",
            code: "take r0, empty\nret r0",
            says: "trap empty, fuel 10\n",
            ..PLAIN
        },
        Case {
            method: ", o: RRef<Item>) -> RpcResult<()>",
            code: "put empty, r0\nret",
            args: "o0",
            answers: "done",
            says: "put 1 o0, fuel 10, r0 o0\nret, fuel 9\n",
            ..PLAIN
        },
        Case {
            method: ", o: RRef<Item>) -> RpcResult<()>",
            code: "put full, r0\nret",
            args: "o0",
            says: "trap full, fuel 10, r0 o0\n",
            ..PLAIN
        },
    ];
    all_say(rt.alloc(), &CASES)
}

#[test]
fn objects_are_hung(rt: HostRuntime) -> Result<(), Fail> {
    const CASES: [Case<'static>; 4] = [
        Case {
            method: ", o: RRef<Bag>, v: RRef<Item>) -> RpcResult<RRef<Bag>>",
            code: "hang r0, 2, r1\nret r0",
            args: "o2 o0",
            answers: "done",
            says: "hang o2 2 o0, fuel 10, r0 o2, r1 o0\nret o2, fuel 9, r0 o2\n",
            ..PLAIN
        },
        Case {
            method: ", o: RRef<Bag>, v: RRef<Item>) -> RpcResult<RRef<Bag>>",
            code: "hang r0, 1, r1\nret r0",
            args: "o2 o0",
            says: "trap full, fuel 10, r0 o2, r1 o0\n",
            ..PLAIN
        },
        Case {
            method: ", o: RRef<Bag>) -> RpcResult<(RRef<Bag>, RRef<Item>)>",
            code: "unhang r1, r0, 1\nret r0, r1",
            args: "o2",
            answers: "made3",
            says: "unhang o2 1, fuel 10, r0 o2\nret o2 o3, fuel 9, r0 o2, r1 o3\n",
            ..PLAIN
        },
        Case {
            method: ", o: RRef<Bag>) -> RpcResult<(RRef<Bag>, RRef<Item>)>",
            code: "unhang r1, r0, 2\nret r0, r1",
            args: "o2",
            says: "trap empty, fuel 10, r0 o2\n",
            ..PLAIN
        },
    ];
    all_say(rt.alloc(), &CASES)
}

#[test]
fn blocks_are_moved(rt: HostRuntime) -> Result<(), Fail> {
    const CASES: [Case<'static>; 4] = [
        Case {
            method: ", o: RRef<Block>, n: u64) -> RpcResult<RRef<Block>>",
            code: "devget r0, r1\nret r0",
            args: "o4 7",
            answers: "done",
            says: "devget o4 7, fuel 10, r0 o4, r1 7\nret o4, fuel 9, r0 o4, r1 7\n",
            ..PLAIN
        },
        Case {
            method: ", o: RRef<Block>, n: u64) -> RpcResult<RRef<Block>>",
            code: "devget r0, r1\nret r0",
            args: "o4 8",
            says: "trap device, fuel 10, r0 o4, r1 8\n",
            ..PLAIN
        },
        Case {
            method: ", n: u64, o: &RRef<Block>) -> RpcResult<()>",
            code: "devput r0, r1\nret",
            args: "0 &o4",
            answers: "done",
            says: "devput 0 o4, fuel 10, r0 0, r1 o4\nret, fuel 9, r0 0, r1 o4\n",
            ..PLAIN
        },
        Case {
            method: ", n: u64, o: &RRef<Block>) -> RpcResult<()>",
            code: "devput r0, r1\nret",
            args: "18446744073709551615 &o4",
            says: "trap device, fuel 10, r0 18446744073709551615, r1 o4\n",
            ..PLAIN
        },
    ];
    all_say(rt.alloc(), &CASES)
}
