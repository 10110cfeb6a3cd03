//! Where control goes, and what it costs.
use crate::tests::{Case, PLAIN, all_say};
use std::test::Fail;

// The document's example of fuel: `run` of `Spin`.
const SPIN: Case<'static> = Case {
    method: ", n: u64) -> RpcResult<()>",
    code: "const r1, 0\nconst r2, 1\ntop: r0 num, r1 num, r2 num\njz r0, end\nwput r1, r0\nsub r0, r0, r2\njmp top\nend:\nret",
    ..PLAIN
};

// No fuel.
const DRY: Case<'static> = Case { fuel: 0, ..PLAIN };

#[test]
fn jumps(rt: HostRuntime) -> Result<(), Fail> {
    const CASES: [Case<'static>; 5] = [
        Case {
            method: ") -> RpcResult<u64>",
            code: "const r0, 1\njmp on\non: r0 num\nret r0",
            says: "ret 1, fuel 8, r0 1\n",
            ..PLAIN
        },
        Case {
            method: ", a: u64) -> RpcResult<u64>",
            code: "const r1, 5\njz r0, zero\nret r0\nzero: r1 num\nret r1",
            args: "0",
            says: "ret 5, fuel 8, r1 5\n",
            ..PLAIN
        },
        Case {
            method: ", a: u64) -> RpcResult<u64>",
            code: "const r1, 5\njz r0, zero\nret r0\nzero: r1 num\nret r1",
            args: "7",
            says: "ret 7, fuel 8, r0 7, r1 5\n",
            ..PLAIN
        },
        Case {
            method: ", a: u64) -> RpcResult<u64>",
            code: "const r1, 1\ntop: r0 num, r1 num\njz r0, end\nsub r0, r0, r1\njmp top\nend: r0 num\nret r0",
            args: "2",
            says: "ret 0, fuel 2, r0 0\n",
            ..PLAIN
        },
        Case {
            method: ", a: u64) -> RpcResult<u64>",
            code: "const r1, 1\ntop: r0 num, r1 num\njz r0, end\nsub r0, r0, r1\njmp top\nend: r0 num\nret r0",
            args: "3",
            says: "trap fuel, fuel 0, r0 0, r1 1\n",
            ..PLAIN
        },
    ];
    all_say(rt.alloc(), &CASES)
}

#[test]
fn heads_empty_what_they_do_not_list(rt: HostRuntime) -> Result<(), Fail> {
    const CASES: [Case<'static>; 5] = [
        Case {
            method: ") -> RpcResult<u64>",
            code: "const r0, 1\nconst r1, 2\njmp on\non: r1 num\nret r1",
            says: "ret 2, fuel 7, r1 2\n",
            ..PLAIN
        },
        Case {
            method: ") -> RpcResult<u64>",
            code: "const r0, 1\nconst r1, 2\non: r1 num\nret r1",
            says: "ret 2, fuel 8, r1 2\n",
            ..PLAIN
        },
        Case {
            method: ") -> RpcResult<u64>",
            code: "const r0, 1\nconst r1, 2\njmp one\none: r0 num, r1 num\ntwo: r1 num\nret r1",
            says: "ret 2, fuel 7, r1 2\n",
            ..PLAIN
        },
        Case {
            method: ") -> RpcResult<u64>",
            code: "const r0, 1\nconst r1, 2\njmp two\none: r0 num, r1 num\ntwo: r0 num\nret r0",
            says: "ret 1, fuel 7, r0 1\n",
            ..PLAIN
        },
        Case {
            method: ") -> RpcResult<()>",
            code: "const r0, 1\njmp on\non:\nret",
            says: "ret, fuel 8\n",
            ..PLAIN
        },
    ];
    all_say(rt.alloc(), &CASES)
}

#[test]
fn the_fuel_ends(rt: HostRuntime) -> Result<(), Fail> {
    const CASES: [Case<'static>; 7] = [
        Case {
            method: ") -> RpcResult<()>",
            code: "ret",
            fuel: 0,
            says: "trap fuel, fuel 0\n",
            ..PLAIN
        },
        Case {
            method: ") -> RpcResult<()>",
            code: "ret",
            fuel: 1,
            says: "ret, fuel 1\n",
            ..PLAIN
        },
        Case {
            method: ") -> RpcResult<u64>",
            code: "const r0, 5\nret r0",
            fuel: 1,
            says: "trap fuel, fuel 0, r0 5\n",
            ..PLAIN
        },
        Case {
            method: ") -> RpcResult<u64>",
            code: "const r0, 5\nret r0",
            fuel: 2,
            says: "ret 5, fuel 1, r0 5\n",
            ..PLAIN
        },
        Case {
            method: ") -> RpcResult<()>",
            code: "jmp on\non:\nret",
            fuel: 1,
            says: "trap fuel, fuel 0\n",
            ..PLAIN
        },
        Case {
            method: ") -> RpcResult<()>",
            code: "jmp on\non:\nret",
            fuel: 2,
            says: "ret, fuel 1\n",
            ..PLAIN
        },
        Case {
            method: ") -> RpcResult<u64>",
            code: "const r0, 1\nconst r1, 2\non: r1 num\nret r1",
            fuel: 2,
            says: "trap fuel, fuel 0, r1 2\n",
            ..PLAIN
        },
    ];
    all_say(rt.alloc(), &CASES)
}

#[test]
fn no_fuel_is_seen_first(rt: HostRuntime) -> Result<(), Fail> {
    const CASES: [Case<'static>; 7] = [
        Case {
            method: ", a: u64, b: u64) -> RpcResult<u64>",
            code: "div r2, r0, r1\nret r2",
            args: "7 0",
            fuel: 0,
            says: "trap fuel, fuel 0, r0 7, r1 0\n",
            ..PLAIN
        },
        Case {
            method: ", a: u64, b: u64) -> RpcResult<u64>",
            code: "div r2, r0, r1\nret r2",
            args: "7 0",
            fuel: 1,
            says: "trap divide, fuel 1, r0 7, r1 0\n",
            ..PLAIN
        },
        Case {
            method: ") -> RpcResult<()>",
            code: "trap",
            fuel: 0,
            says: "trap fuel, fuel 0\n",
            ..PLAIN
        },
        Case {
            method: ") -> RpcResult<()>",
            code: "trap",
            fuel: 1,
            says: "trap asked, fuel 1\n",
            ..PLAIN
        },
        Case {
            method: ") -> RpcResult<RRef<Item>>",
            code: "new r0, Item\nret r0",
            fuel: 0,
            live: 65536,
            says: "trap fuel, fuel 0\n",
            ..PLAIN
        },
        Case {
            method: ") -> RpcResult<RRef<Item>>",
            code: "take r0, empty\nret r0",
            fuel: 0,
            says: "trap fuel, fuel 0\n",
            ..PLAIN
        },
        Case {
            method: ", a: u64) -> RpcResult<u8>",
            code: "ret r0",
            args: "256",
            fuel: 0,
            says: "trap fuel, fuel 0, r0 256\n",
            ..PLAIN
        },
    ];
    all_say(rt.alloc(), &CASES)
}

// A head costs nothing, and has emptied the register.
#[test]
fn register_work_needs_fuel(rt: HostRuntime) -> Result<(), Fail> {
    const CASES: [Case<'static>; 11] = [
        Case {
            method: ") -> RpcResult<u64>",
            code: "const r0, 5\nret r0",
            says: "trap fuel, fuel 0\n",
            ..DRY
        },
        Case {
            method: ", a: u64) -> RpcResult<u64>",
            code: "copy r3, r0\nret r3",
            args: "6",
            says: "trap fuel, fuel 0, r0 6\n",
            ..DRY
        },
        Case {
            method: ", o: RRef<Item>) -> RpcResult<RRef<Item>>",
            code: "move r4, r0\nret r4",
            args: "o0",
            says: "trap fuel, fuel 0, r0 o0\n",
            ..DRY
        },
        Case {
            method: ") -> RpcResult<()>",
            code: "jmp on\non:\nret",
            says: "trap fuel, fuel 0\n",
            ..DRY
        },
        Case {
            method: ", a: u64) -> RpcResult<()>",
            code: "jz r0, zero\nret\nzero:\nret",
            args: "0",
            says: "trap fuel, fuel 0, r0 0\n",
            ..DRY
        },
        Case {
            method: ", o: &RRef<Item>, i: u64) -> RpcResult<u64>",
            code: "get r2, r0, r1\nret r2",
            args: "&o0 5",
            says: "trap fuel, fuel 0, r0 o0, r1 5\n",
            ..DRY
        },
        Case {
            method: ", i: u64) -> RpcResult<u64>",
            code: "wget r1, r0\nret r1",
            args: "3",
            says: "trap fuel, fuel 0, r0 3\n",
            ..DRY
        },
        Case {
            method: ") -> RpcResult<u64>",
            code: "has r0, full\nret r0",
            says: "trap fuel, fuel 0\n",
            ..DRY
        },
        Case {
            method: ") -> RpcResult<()>",
            code: "cap r3, peer\nret",
            says: "trap fuel, fuel 0\n",
            ..DRY
        },
        Case {
            method: ") -> RpcResult<u64>",
            code: "devsize r0\nret r0",
            says: "trap fuel, fuel 0\n",
            ..DRY
        },
        Case {
            method: ", a: u64) -> RpcResult<()>",
            code: "on:\nret",
            args: "7",
            says: "trap fuel, fuel 0\n",
            ..DRY
        },
    ];
    all_say(rt.alloc(), &CASES)
}

#[test]
fn actions_need_fuel(rt: HostRuntime) -> Result<(), Fail> {
    const CASES: [Case<'static>; 9] = [
        Case {
            method: ", o: RRef<Item>) -> RpcResult<()>",
            code: "drop r0\nret",
            args: "o0",
            says: "trap fuel, fuel 0, r0 o0\n",
            ..DRY
        },
        Case {
            method: ", o: RRef<Item>, i: u64, v: u64) -> RpcResult<RRef<Item>>",
            code: "set r0, r1, r2\nret r0",
            args: "o0 5 1",
            says: "trap fuel, fuel 0, r0 o0, r1 5, r2 1\n",
            ..DRY
        },
        Case {
            method: ", i: u64, v: u64) -> RpcResult<()>",
            code: "wput r0, r1\nret",
            args: "3 7",
            says: "trap fuel, fuel 0, r0 3, r1 7\n",
            ..DRY
        },
        Case {
            method: ", o: RRef<Item>) -> RpcResult<()>",
            code: "put full, r0\nret",
            args: "o0",
            says: "trap fuel, fuel 0, r0 o0\n",
            ..DRY
        },
        Case {
            method: ", o: RRef<Block>, n: u64) -> RpcResult<RRef<Block>>",
            code: "devget r0, r1\nret r0",
            args: "o4 8",
            says: "trap fuel, fuel 0, r0 o4, r1 8\n",
            ..DRY
        },
        Case {
            method: ", n: u64, o: &RRef<Block>) -> RpcResult<()>",
            code: "devput r0, r1\nret",
            args: "8 &o4",
            says: "trap fuel, fuel 0, r0 8, r1 o4\n",
            ..DRY
        },
        Case {
            method: ", o: RRef<Bag>, v: RRef<Item>) -> RpcResult<RRef<Bag>>",
            code: "hang r0, 1, r1\nret r0",
            args: "o2 o0",
            says: "trap fuel, fuel 0, r0 o2, r1 o0\n",
            ..DRY
        },
        Case {
            method: ", o: RRef<Bag>) -> RpcResult<(RRef<Bag>, RRef<Item>)>",
            code: "unhang r1, r0, 2\nret r0, r1",
            args: "o2",
            says: "trap fuel, fuel 0, r0 o2\n",
            ..DRY
        },
        Case {
            method: ", p: &dyn Peer, a: u64, b: u64) -> RpcResult<u64>",
            code: "call r0.ask(r1, r2) -> r3 else r4, bad\nret r3\nbad: r4 num\nret r4",
            args: "t1 256 8",
            says: "trap fuel, fuel 0, r0 t1, r1 256, r2 8\n",
            ..DRY
        },
    ];
    all_say(rt.alloc(), &CASES)
}

// Entered with 2 in `r0` it is the document's example.
#[test]
fn the_example_of_fuel(rt: HostRuntime) -> Result<(), Fail> {
    const CASES: [Case<'static>; 5] = [
        Case {
            args: "2",
            says: "wput 0 2, fuel 7, r0 2, r1 0, r2 1\n",
            ..SPIN
        },
        Case {
            args: "2",
            answers: "done",
            says: "wput 0 2, fuel 7, r0 2, r1 0, r2 1\nwput 0 1, fuel 3, r0 1, r1 0, r2 1\n",
            ..SPIN
        },
        Case {
            args: "2",
            answers: "done done",
            says: "wput 0 2, fuel 7, r0 2, r1 0, r2 1\nwput 0 1, fuel 3, r0 1, r1 0, r2 1\ntrap fuel, fuel 0, r0 0, r1 0, r2 1\n",
            ..SPIN
        },
        Case {
            args: "0",
            says: "ret, fuel 7\n",
            ..SPIN
        },
        Case {
            args: "1",
            answers: "done",
            says: "wput 0 1, fuel 7, r0 1, r1 0, r2 1\nret, fuel 3\n",
            ..SPIN
        },
    ];
    all_say(rt.alloc(), &CASES)
}
