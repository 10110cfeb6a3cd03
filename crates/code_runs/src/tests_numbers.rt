//! What the instructions on numbers do at their edges.
use crate::tests::{Case, PLAIN, all_say};
use std::test::Fail;

// A function of two numbers.
const BINARY: Case<'static> = Case {
    method: ", a: u64, b: u64) -> RpcResult<u64>",
    ..PLAIN
};

#[test]
fn sums_and_differences(rt: HostRuntime) -> Result<(), Fail> {
    const CASES: [Case<'static>; 6] = [
        Case {
            code: "add r2, r0, r1\nret r2",
            args: "2 3",
            says: "ret 5, fuel 9, r0 2, r1 3, r2 5\n",
            ..BINARY
        },
        Case {
            code: "add r2, r0, r1\nret r2",
            args: "18446744073709551615 1",
            says: "ret 0, fuel 9, r0 18446744073709551615, r1 1, r2 0\n",
            ..BINARY
        },
        Case {
            code: "add r2, r0, r1\nret r2",
            args: "18446744073709551615 18446744073709551615",
            says: "ret 18446744073709551614, fuel 9, r0 18446744073709551615, r1 18446744073709551615, r2 18446744073709551614\n",
            ..BINARY
        },
        Case {
            code: "sub r2, r0, r1\nret r2",
            args: "0 1",
            says: "ret 18446744073709551615, fuel 9, r0 0, r1 1, r2 18446744073709551615\n",
            ..BINARY
        },
        Case {
            code: "sub r2, r0, r1\nret r2",
            args: "5 5",
            says: "ret 0, fuel 9, r0 5, r1 5, r2 0\n",
            ..BINARY
        },
        Case {
            code: "sub r2, r0, r1\nret r2",
            args: "9 4",
            says: "ret 5, fuel 9, r0 9, r1 4, r2 5\n",
            ..BINARY
        },
    ];
    all_say(rt.alloc(), &CASES)
}

#[test]
fn products(rt: HostRuntime) -> Result<(), Fail> {
    const CASES: [Case<'static>; 5] = [
        Case {
            code: "mul r2, r0, r1\nret r2",
            args: "3 7",
            says: "ret 21, fuel 9, r0 3, r1 7, r2 21\n",
            ..BINARY
        },
        Case {
            code: "mul r2, r0, r1\nret r2",
            args: "4294967296 4294967296",
            says: "ret 0, fuel 9, r0 4294967296, r1 4294967296, r2 0\n",
            ..BINARY
        },
        Case {
            code: "mul r2, r0, r1\nret r2",
            args: "18446744073709551615 18446744073709551615",
            says: "ret 1, fuel 9, r0 18446744073709551615, r1 18446744073709551615, r2 1\n",
            ..BINARY
        },
        Case {
            code: "mul r2, r0, r1\nret r2",
            args: "18446744073709551615 0",
            says: "ret 0, fuel 9, r0 18446744073709551615, r1 0, r2 0\n",
            ..BINARY
        },
        Case {
            code: "mul r2, r0, r1\nret r2",
            args: "9223372036854775808 2",
            says: "ret 0, fuel 9, r0 9223372036854775808, r1 2, r2 0\n",
            ..BINARY
        },
    ];
    all_say(rt.alloc(), &CASES)
}

#[test]
fn divisions(rt: HostRuntime) -> Result<(), Fail> {
    const CASES: [Case<'static>; 6] = [
        Case {
            code: "div r2, r0, r1\nret r2",
            args: "7 2",
            says: "ret 3, fuel 9, r0 7, r1 2, r2 3\n",
            ..BINARY
        },
        Case {
            code: "div r2, r0, r1\nret r2",
            args: "18446744073709551615 1",
            says: "ret 18446744073709551615, fuel 9, r0 18446744073709551615, r1 1, r2 18446744073709551615\n",
            ..BINARY
        },
        Case {
            code: "div r2, r0, r1\nret r2",
            args: "1 18446744073709551615",
            says: "ret 0, fuel 9, r0 1, r1 18446744073709551615, r2 0\n",
            ..BINARY
        },
        Case {
            code: "div r2, r0, r1\nret r2",
            args: "0 5",
            says: "ret 0, fuel 9, r0 0, r1 5, r2 0\n",
            ..BINARY
        },
        Case {
            code: "div r2, r0, r1\nret r2",
            args: "7 0",
            says: "trap divide, fuel 10, r0 7, r1 0\n",
            ..BINARY
        },
        Case {
            code: "div r2, r0, r1\nret r2",
            args: "0 0",
            says: "trap divide, fuel 10, r0 0, r1 0\n",
            ..BINARY
        },
    ];
    all_say(rt.alloc(), &CASES)
}

#[test]
fn rests(rt: HostRuntime) -> Result<(), Fail> {
    const CASES: [Case<'static>; 5] = [
        Case {
            code: "rem r2, r0, r1\nret r2",
            args: "7 2",
            says: "ret 1, fuel 9, r0 7, r1 2, r2 1\n",
            ..BINARY
        },
        Case {
            code: "rem r2, r0, r1\nret r2",
            args: "3 7",
            says: "ret 3, fuel 9, r0 3, r1 7, r2 3\n",
            ..BINARY
        },
        Case {
            code: "rem r2, r0, r1\nret r2",
            args: "18446744073709551615 10",
            says: "ret 5, fuel 9, r0 18446744073709551615, r1 10, r2 5\n",
            ..BINARY
        },
        Case {
            code: "rem r2, r0, r1\nret r2",
            args: "6 3",
            says: "ret 0, fuel 9, r0 6, r1 3, r2 0\n",
            ..BINARY
        },
        Case {
            code: "rem r2, r0, r1\nret r2",
            args: "7 0",
            says: "trap divide, fuel 10, r0 7, r1 0\n",
            ..BINARY
        },
    ];
    all_say(rt.alloc(), &CASES)
}

#[test]
fn bits(rt: HostRuntime) -> Result<(), Fail> {
    const CASES: [Case<'static>; 6] = [
        Case {
            code: "and r2, r0, r1\nret r2",
            args: "12 10",
            says: "ret 8, fuel 9, r0 12, r1 10, r2 8\n",
            ..BINARY
        },
        Case {
            code: "or r2, r0, r1\nret r2",
            args: "12 10",
            says: "ret 14, fuel 9, r0 12, r1 10, r2 14\n",
            ..BINARY
        },
        Case {
            code: "xor r2, r0, r1\nret r2",
            args: "12 10",
            says: "ret 6, fuel 9, r0 12, r1 10, r2 6\n",
            ..BINARY
        },
        Case {
            code: "and r2, r0, r1\nret r2",
            args: "18446744073709551615 0",
            says: "ret 0, fuel 9, r0 18446744073709551615, r1 0, r2 0\n",
            ..BINARY
        },
        Case {
            code: "or r2, r0, r1\nret r2",
            args: "0 18446744073709551615",
            says: "ret 18446744073709551615, fuel 9, r0 0, r1 18446744073709551615, r2 18446744073709551615\n",
            ..BINARY
        },
        Case {
            code: "xor r2, r0, r1\nret r2",
            args: "18446744073709551615 18446744073709551615",
            says: "ret 0, fuel 9, r0 18446744073709551615, r1 18446744073709551615, r2 0\n",
            ..BINARY
        },
    ];
    all_say(rt.alloc(), &CASES)
}

#[test]
fn less(rt: HostRuntime) -> Result<(), Fail> {
    const CASES: [Case<'static>; 5] = [
        Case {
            code: "lt r2, r0, r1\nret r2",
            args: "1 2",
            says: "ret 1, fuel 9, r0 1, r1 2, r2 1\n",
            ..BINARY
        },
        Case {
            code: "lt r2, r0, r1\nret r2",
            args: "2 1",
            says: "ret 0, fuel 9, r0 2, r1 1, r2 0\n",
            ..BINARY
        },
        Case {
            code: "lt r2, r0, r1\nret r2",
            args: "5 5",
            says: "ret 0, fuel 9, r0 5, r1 5, r2 0\n",
            ..BINARY
        },
        Case {
            code: "lt r2, r0, r1\nret r2",
            args: "0 18446744073709551615",
            says: "ret 1, fuel 9, r0 0, r1 18446744073709551615, r2 1\n",
            ..BINARY
        },
        Case {
            code: "lt r2, r0, r1\nret r2",
            args: "18446744073709551615 0",
            says: "ret 0, fuel 9, r0 18446744073709551615, r1 0, r2 0\n",
            ..BINARY
        },
    ];
    all_say(rt.alloc(), &CASES)
}

#[test]
fn equal(rt: HostRuntime) -> Result<(), Fail> {
    const CASES: [Case<'static>; 4] = [
        Case {
            code: "eq r2, r0, r1\nret r2",
            args: "5 5",
            says: "ret 1, fuel 9, r0 5, r1 5, r2 1\n",
            ..BINARY
        },
        Case {
            code: "eq r2, r0, r1\nret r2",
            args: "5 6",
            says: "ret 0, fuel 9, r0 5, r1 6, r2 0\n",
            ..BINARY
        },
        Case {
            code: "eq r2, r0, r1\nret r2",
            args: "0 18446744073709551615",
            says: "ret 0, fuel 9, r0 0, r1 18446744073709551615, r2 0\n",
            ..BINARY
        },
        Case {
            code: "eq r2, r0, r1\nret r2",
            args: "18446744073709551615 18446744073709551615",
            says: "ret 1, fuel 9, r0 18446744073709551615, r1 18446744073709551615, r2 1\n",
            ..BINARY
        },
    ];
    all_say(rt.alloc(), &CASES)
}

#[test]
fn registers(rt: HostRuntime) -> Result<(), Fail> {
    const CASES: [Case<'static>; 7] = [
        Case {
            method: ") -> RpcResult<u64>",
            code: "const r5, 18446744073709551615\nret r5",
            says: "ret 18446744073709551615, fuel 9, r5 18446744073709551615\n",
            ..PLAIN
        },
        Case {
            method: ") -> RpcResult<u64>",
            code: "const r31, 0x10\nret r31",
            says: "ret 16, fuel 9, r31 16\n",
            ..PLAIN
        },
        Case {
            method: ", a: u64) -> RpcResult<u64>",
            code: "copy r3, r0\nret r3",
            args: "6",
            says: "ret 6, fuel 9, r0 6, r3 6\n",
            ..PLAIN
        },
        Case {
            method: ", o: &RRef<Item>) -> RpcResult<()>",
            code: "copy r1, r0\nret",
            args: "&o0",
            says: "ret, fuel 9, r0 o0, r1 o0\n",
            ..PLAIN
        },
        Case {
            method: ", p: &dyn Peer) -> RpcResult<()>",
            code: "copy r1, r0\nret",
            args: "t1",
            says: "ret, fuel 9, r0 t1, r1 t1\n",
            ..PLAIN
        },
        Case {
            method: ", o: RRef<Item>) -> RpcResult<RRef<Item>>",
            code: "move r4, r0\nret r4",
            args: "o0",
            says: "ret o0, fuel 9, r4 o0\n",
            ..PLAIN
        },
        Case {
            code: "sub r0, r0, r1\nret r0",
            args: "9 4",
            says: "ret 5, fuel 9, r0 5, r1 4\n",
            ..BINARY
        },
    ];
    all_say(rt.alloc(), &CASES)
}
