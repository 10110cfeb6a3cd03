//! Calls, how they come back and how they fail, and returns.
use crate::tests::{Case, PLAIN, all_say};
use std::test::Fail;

// Calls `ask` and returns what comes back, or the code of the failure.
const ASK: Case<'static> = Case {
    method: ", p: &dyn Peer, a: u64, b: u64) -> RpcResult<u64>",
    code: "call r0.ask(r1, r2) -> r3 else r4, bad\nret r3\nbad: r4 num\nret r4",
    ..PLAIN
};

// Gives an object away, lends one, and returns what comes back.
const GIVE: Case<'static> = Case {
    method: ", p: &dyn Peer, o: RRef<Item>, l: &RRef<Item>) -> RpcResult<(RRef<Item>, u64)>",
    code: "call r0.give(r1, &r2, r0) -> r3, r4 else r5, bad\nret r3, r4\nbad: r5 num\ntrap",
    ..PLAIN
};

#[test]
fn calls_come_back(rt: HostRuntime) -> Result<(), Fail> {
    const CASES: [Case<'static>; 6] = [
        Case {
            args: "t1 7 8",
            answers: "back 9",
            says: "call t1 0 7 8, fuel 10, r0 t1, r1 7, r2 8\nret 9, fuel 9, r0 t1, r1 7, r2 8, r3 9\n",
            ..ASK
        },
        Case {
            method: ", p: &dyn Peer, a: u64, b: u64) -> RpcResult<u64>",
            code: "call r0.ask(r1, r2) -> r1 else r4, bad\nret r1\nbad: r4 num\nret r4",
            args: "t1 7 8",
            answers: "back 9",
            says: "call t1 0 7 8, fuel 10, r0 t1, r1 7, r2 8\nret 9, fuel 9, r0 t1, r1 9, r2 8\n",
            ..PLAIN
        },
        Case {
            args: "t1 o0 &o1",
            answers: "back o5 1",
            says: "call t1 1 o0 &o1 t1, fuel 10, r0 t1, r1 o0, r2 o1\nret o5 1, fuel 9, r0 t1, r2 o1, r3 o5, r4 1\n",
            ..GIVE
        },
        Case {
            method: ", p: &dyn Peer, o: RRef<Item>, l: &RRef<Item>) -> RpcResult<(RRef<Item>, u64)>",
            code: "call r0.give(r1, &r2, r0) -> r1, r4 else r5, bad\nret r1, r4\nbad: r5 num\ntrap",
            args: "t1 o0 &o1",
            answers: "back o5 1",
            says: "call t1 1 o0 &o1 t1, fuel 10, r0 t1, r1 o0, r2 o1\nret o5 1, fuel 9, r0 t1, r1 o5, r2 o1, r4 1\n",
            ..PLAIN
        },
        Case {
            method: ", p: &dyn Peer, o: RRef<Item>, l: RRef<Item>) -> RpcResult<(RRef<Item>, RRef<Item>)>",
            code: "call r0.give(r1, &r2, r0) -> r3, r4 else r5, bad\nret r2, r3\nbad: r2 RRef<Item>, r5 num\ntrap",
            args: "t1 o0 o1",
            answers: "back o5 1",
            says: "call t1 1 o0 &o1 t1, fuel 10, r0 t1, r1 o0, r2 o1\nret o1 o5, fuel 9, r0 t1, r2 o1, r3 o5, r4 1\n",
            ..PLAIN
        },
        Case {
            method: ") -> RpcResult<()>",
            code: "cap r0, peer\ncall r0.none() else r1, bad\nret\nbad: r1 num\nret",
            answers: "back",
            says: "call t1 2, fuel 9, r0 t1\nret, fuel 8, r0 t1\n",
            ..PLAIN
        },
    ];
    all_say(rt.alloc(), &CASES)
}

#[test]
fn calls_fail(rt: HostRuntime) -> Result<(), Fail> {
    const CASES: [Case<'static>; 4] = [
        Case {
            args: "t1 7 8",
            answers: "gone",
            says: "call t1 0 7 8, fuel 10, r0 t1, r1 7, r2 8\nret 1, fuel 9, r4 1\n",
            ..ASK
        },
        Case {
            args: "t1 7 8",
            answers: "unwound",
            says: "call t1 0 7 8, fuel 10, r0 t1, r1 7, r2 8\nret 2, fuel 9, r4 2\n",
            ..ASK
        },
        Case {
            args: "t1 7 8",
            answers: "deep",
            says: "call t1 0 7 8, fuel 10, r0 t1, r1 7, r2 8\nret 3, fuel 9, r4 3\n",
            ..ASK
        },
        Case {
            args: "t1 7 8",
            answers: "order",
            says: "call t1 0 7 8, fuel 10, r0 t1, r1 7, r2 8\nret 4, fuel 9, r4 4\n",
            ..ASK
        },
    ];
    all_say(rt.alloc(), &CASES)
}

#[test]
fn what_a_failed_call_leaves(rt: HostRuntime) -> Result<(), Fail> {
    const CASES: [Case<'static>; 4] = [
        Case {
            args: "t1 o0 &o1",
            answers: "gone",
            says: "call t1 1 o0 &o1 t1, fuel 10, r0 t1, r1 o0, r2 o1\ntrap asked, fuel 9, r5 1\n",
            ..GIVE
        },
        Case {
            method: ", p: &dyn Peer, o: RRef<Item>, l: &RRef<Item>) -> RpcResult<(RRef<Item>, u64)>",
            code: "call r0.give(r1, &r2, r0) -> r3, r4 else r5, bad\nret r3, r4\nbad: r2 &RRef<Item>, r5 num\ntrap",
            args: "t1 o0 &o1",
            answers: "unwound",
            says: "call t1 1 o0 &o1 t1, fuel 10, r0 t1, r1 o0, r2 o1\ntrap asked, fuel 9, r2 o1, r5 2\n",
            ..PLAIN
        },
        Case {
            method: ", p: &dyn Peer) -> RpcResult<u64>",
            code: "const r3, 5\ncall r0.ask(r3, r3) -> r3 else r4, bad\nret r3\nbad: r3 num, r4 num\nret r3",
            args: "t1",
            answers: "gone",
            says: "call t1 0 5 5, fuel 9, r0 t1, r3 5\nret 5, fuel 8, r3 5, r4 1\n",
            ..PLAIN
        },
        Case {
            method: ", p: &dyn Peer, o: RRef<Item>, l: RRef<Item>) -> RpcResult<RRef<Item>>",
            code: "call r0.give(r1, &r2, r0) -> r3, r4 else r5, bad\ndrop r2\nret r3\nbad: r2 RRef<Item>, r5 num\nret r2",
            args: "t1 o0 o1",
            answers: "order",
            says: "call t1 1 o0 &o1 t1, fuel 10, r0 t1, r1 o0, r2 o1\nret o1, fuel 9, r2 o1, r5 4\n",
            ..PLAIN
        },
    ];
    all_say(rt.alloc(), &CASES)
}

#[test]
fn arguments_fit_their_width(rt: HostRuntime) -> Result<(), Fail> {
    const CASES: [Case<'static>; 3] = [
        Case {
            args: "t1 255 8",
            says: "call t1 0 255 8, fuel 10, r0 t1, r1 255, r2 8\n",
            ..ASK
        },
        Case {
            args: "t1 256 8",
            says: "trap range, fuel 10, r0 t1, r1 256, r2 8\n",
            ..ASK
        },
        Case {
            args: "t1 0 18446744073709551615",
            says: "call t1 0 0 18446744073709551615, fuel 10, r0 t1, r1 0, r2 18446744073709551615\n",
            ..ASK
        },
    ];
    all_say(rt.alloc(), &CASES)
}

#[test]
fn results_fit_their_width(rt: HostRuntime) -> Result<(), Fail> {
    const CASES: [Case<'static>; 6] = [
        Case {
            method: ", a: u64) -> RpcResult<bool>",
            code: "ret r0",
            args: "1",
            says: "ret 1, fuel 10, r0 1\n",
            ..PLAIN
        },
        Case {
            method: ", a: u64) -> RpcResult<bool>",
            code: "ret r0",
            args: "2",
            says: "trap range, fuel 10, r0 2\n",
            ..PLAIN
        },
        Case {
            method: ", a: u64) -> RpcResult<u8>",
            code: "ret r0",
            args: "255",
            says: "ret 255, fuel 10, r0 255\n",
            ..PLAIN
        },
        Case {
            method: ", a: u64) -> RpcResult<u8>",
            code: "ret r0",
            args: "256",
            says: "trap range, fuel 10, r0 256\n",
            ..PLAIN
        },
        Case {
            method: ", a: u64) -> RpcResult<(u64, u32)>",
            code: "ret r0, r0",
            args: "4294967296",
            says: "trap range, fuel 10, r0 4294967296\n",
            ..PLAIN
        },
        Case {
            method: ", a: u64) -> RpcResult<(u64, u32)>",
            code: "ret r0, r0",
            args: "4294967295",
            says: "ret 4294967295 4294967295, fuel 10, r0 4294967295\n",
            ..PLAIN
        },
    ];
    all_say(rt.alloc(), &CASES)
}
