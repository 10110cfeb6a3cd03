//! What is read and set: cells and words, slots, imports and blocks.
use crate::tests::{Case, PLAIN, all_say, all_say_in, world};
use rl_defs::list::List;
use std::test::Fail;

// Sets a cell of an `Item`.
const SET: Case<'static> = Case {
    method: ", o: RRef<Item>, i: u64, v: u64) -> RpcResult<RRef<Item>>",
    code: "set r0, r1, r2\nret r0",
    ..PLAIN
};

// Reads a cell of an `Item`.
const GET: Case<'static> = Case {
    method: ", o: &RRef<Item>, i: u64) -> RpcResult<u64>",
    code: "get r2, r0, r1\nret r2",
    ..PLAIN
};

// Reads a cell of a `Bag`.
const GET_OF_BAG: Case<'static> = Case {
    method: ", o: &RRef<Bag>, i: u64) -> RpcResult<u64>",
    code: "get r2, r0, r1\nret r2",
    ..PLAIN
};

// Reads a word.
const WGET: Case<'static> = Case {
    method: ", i: u64) -> RpcResult<u64>",
    code: "wget r1, r0\nret r1",
    ..PLAIN
};

// Sets a word.
const WPUT: Case<'static> = Case {
    method: ", i: u64, v: u64) -> RpcResult<()>",
    code: "wput r0, r1\nret",
    ..PLAIN
};

#[test]
fn cells_are_read(rt: HostRuntime) -> Result<(), Fail> {
    const CASES: [Case<'static>; 5] = [
        Case {
            args: "&o0 0",
            says: "ret 0, fuel 9, r0 o0, r1 0, r2 0\n",
            ..GET
        },
        Case {
            args: "&o0 4",
            says: "ret 4, fuel 9, r0 o0, r1 4, r2 4\n",
            ..GET
        },
        Case {
            args: "&o0 5",
            says: "trap bounds, fuel 10, r0 o0, r1 5\n",
            ..GET
        },
        Case {
            args: "&o0 18446744073709551615",
            says: "trap bounds, fuel 10, r0 o0, r1 18446744073709551615\n",
            ..GET
        },
        Case {
            method: ", o: RRef<Item>, i: u64) -> RpcResult<RRef<Item>>",
            code: "get r1, r0, r1\nret r0",
            args: "o1 0",
            says: "ret o1, fuel 9, r0 o1, r1 1\n",
            ..PLAIN
        },
    ];
    all_say(rt.alloc(), &CASES)
}

#[test]
fn a_cell_for_an_object_is_no_number(rt: HostRuntime) -> Result<(), Fail> {
    const CASES: [Case<'static>; 6] = [
        Case {
            args: "&o2 0",
            says: "ret 9, fuel 9, r0 o2, r1 0, r2 9\n",
            ..GET_OF_BAG
        },
        Case {
            args: "&o2 1",
            says: "trap bounds, fuel 10, r0 o2, r1 1\n",
            ..GET_OF_BAG
        },
        Case {
            args: "&o2 2",
            says: "trap bounds, fuel 10, r0 o2, r1 2\n",
            ..GET_OF_BAG
        },
        Case {
            args: "&o2 3",
            says: "trap bounds, fuel 10, r0 o2, r1 3\n",
            ..GET_OF_BAG
        },
        Case {
            method: ", o: RRef<Bag>, i: u64, v: u64) -> RpcResult<RRef<Bag>>",
            code: "set r0, r1, r2\nret r0",
            args: "o2 1 0",
            says: "trap bounds, fuel 10, r0 o2, r1 1, r2 0\n",
            ..PLAIN
        },
        Case {
            method: ", o: RRef<Bag>, i: u64, v: u64) -> RpcResult<RRef<Bag>>",
            code: "set r0, r1, r2\nret r0",
            args: "o2 2 0",
            says: "trap bounds, fuel 10, r0 o2, r1 2, r2 0\n",
            ..PLAIN
        },
    ];
    all_say(rt.alloc(), &CASES)
}

#[test]
fn words_are_read(rt: HostRuntime) -> Result<(), Fail> {
    const CASES: [Case<'static>; 4] = [
        Case {
            args: "0",
            says: "ret 10, fuel 9, r0 0, r1 10\n",
            ..WGET
        },
        Case {
            args: "2",
            says: "ret 12, fuel 9, r0 2, r1 12\n",
            ..WGET
        },
        Case {
            args: "3",
            says: "trap bounds, fuel 10, r0 3\n",
            ..WGET
        },
        Case {
            args: "18446744073709551615",
            says: "trap bounds, fuel 10, r0 18446744073709551615\n",
            ..WGET
        },
    ];
    all_say(rt.alloc(), &CASES)
}

#[test]
fn words_are_set(rt: HostRuntime) -> Result<(), Fail> {
    const CASES: [Case<'static>; 4] = [
        Case {
            args: "2 7",
            answers: "done",
            says: "wput 2 7, fuel 10, r0 2, r1 7\nret, fuel 9, r0 2, r1 7\n",
            ..WPUT
        },
        Case {
            args: "0 18446744073709551615",
            says: "wput 0 18446744073709551615, fuel 10, r0 0, r1 18446744073709551615\n",
            ..WPUT
        },
        Case {
            args: "3 7",
            says: "trap bounds, fuel 10, r0 3, r1 7\n",
            ..WPUT
        },
        Case {
            args: "4294967296 7",
            says: "trap bounds, fuel 10, r0 4294967296, r1 7\n",
            ..WPUT
        },
    ];
    all_say(rt.alloc(), &CASES)
}

#[test]
fn slots_imports_and_blocks_are_seen(rt: HostRuntime) -> Result<(), Fail> {
    const CASES: [Case<'static>; 3] = [
        Case {
            method: ") -> RpcResult<(u64, u64)>",
            code: "has r0, full\nhas r1, empty\nret r0, r1",
            says: "ret 1 0, fuel 8, r0 1, r1 0\n",
            ..PLAIN
        },
        Case {
            method: ") -> RpcResult<()>",
            code: "cap r3, peer\nret",
            says: "ret, fuel 9, r3 t1\n",
            ..PLAIN
        },
        Case {
            method: ") -> RpcResult<u64>",
            code: "devsize r0\nret r0",
            says: "ret 8, fuel 9, r0 8\n",
            ..PLAIN
        },
    ];
    all_say(rt.alloc(), &CASES)
}

#[test]
fn numbers_of_each_width_are_set(rt: HostRuntime) -> Result<(), Fail> {
    const CASES: [Case<'static>; 5] = [
        Case {
            args: "o0 0 1",
            answers: "done",
            says: "set o0 0 1, fuel 10, r0 o0, r1 0, r2 1\nret o0, fuel 9, r0 o0, r1 0, r2 1\n",
            ..SET
        },
        Case {
            args: "o0 1 255",
            answers: "done",
            says: "set o0 1 255, fuel 10, r0 o0, r1 1, r2 255\nret o0, fuel 9, r0 o0, r1 1, r2 255\n",
            ..SET
        },
        Case {
            args: "o0 2 65535",
            answers: "done",
            says: "set o0 2 65535, fuel 10, r0 o0, r1 2, r2 65535\nret o0, fuel 9, r0 o0, r1 2, r2 65535\n",
            ..SET
        },
        Case {
            args: "o0 3 4294967295",
            answers: "done",
            says: "set o0 3 4294967295, fuel 10, r0 o0, r1 3, r2 4294967295\nret o0, fuel 9, r0 o0, r1 3, r2 4294967295\n",
            ..SET
        },
        Case {
            args: "o0 4 18446744073709551615",
            answers: "done",
            says: "set o0 4 18446744073709551615, fuel 10, r0 o0, r1 4, r2 18446744073709551615\nret o0, fuel 9, r0 o0, r1 4, r2 18446744073709551615\n",
            ..SET
        },
    ];
    all_say(rt.alloc(), &CASES)
}

#[test]
fn numbers_too_wide_are_not(rt: HostRuntime) -> Result<(), Fail> {
    const CASES: [Case<'static>; 4] = [
        Case {
            args: "o0 0 2",
            says: "trap range, fuel 10, r0 o0, r1 0, r2 2\n",
            ..SET
        },
        Case {
            args: "o0 1 256",
            says: "trap range, fuel 10, r0 o0, r1 1, r2 256\n",
            ..SET
        },
        Case {
            args: "o0 2 65536",
            says: "trap range, fuel 10, r0 o0, r1 2, r2 65536\n",
            ..SET
        },
        Case {
            args: "o0 3 4294967296",
            says: "trap range, fuel 10, r0 o0, r1 3, r2 4294967296\n",
            ..SET
        },
    ];
    all_say(rt.alloc(), &CASES)
}

#[test]
fn a_missing_cell_is_seen_before_the_width(rt: HostRuntime) -> Result<(), Fail> {
    const CASES: [Case<'static>; 3] = [
        Case {
            args: "o0 5 1",
            says: "trap bounds, fuel 10, r0 o0, r1 5, r2 1\n",
            ..SET
        },
        Case {
            args: "o0 5 18446744073709551615",
            says: "trap bounds, fuel 10, r0 o0, r1 5, r2 18446744073709551615\n",
            ..SET
        },
        Case {
            args: "o0 18446744073709551615 0",
            says: "trap bounds, fuel 10, r0 o0, r1 18446744073709551615, r2 0\n",
            ..SET
        },
    ];
    all_say(rt.alloc(), &CASES)
}

#[test]
fn no_word_is_there(rt: HostRuntime) -> Result<(), Fail> {
    const CASES: [Case<'static>; 2] = [
        Case {
            words: "0",
            args: "0",
            says: "trap bounds, fuel 10, r0 0\n",
            ..WGET
        },
        Case {
            words: "0",
            args: "0 7",
            says: "trap bounds, fuel 10, r0 0, r1 7\n",
            ..WPUT
        },
    ];
    let alloc = rt.alloc();
    let mut view = world(alloc)?;
    view.words = List::new(alloc);
    all_say_in(alloc, &view, &CASES)
}

#[test]
fn no_device_is_there(rt: HostRuntime) -> Result<(), Fail> {
    const CASES: [Case<'static>; 3] = [
        Case {
            method: ") -> RpcResult<u64>",
            code: "devsize r0\nret r0",
            says: "ret 0, fuel 9, r0 0\n",
            ..PLAIN
        },
        Case {
            method: ", o: RRef<Block>, n: u64) -> RpcResult<RRef<Block>>",
            code: "devget r0, r1\nret r0",
            args: "o4 0",
            says: "trap device, fuel 10, r0 o4, r1 0\n",
            ..PLAIN
        },
        Case {
            method: ", n: u64, o: &RRef<Block>) -> RpcResult<()>",
            code: "devput r0, r1\nret",
            args: "0 &o4",
            says: "trap device, fuel 10, r0 0, r1 o4\n",
            ..PLAIN
        },
    ];
    let alloc = rt.alloc();
    let mut view = world(alloc)?;
    view.blocks = 0;
    all_say_in(alloc, &view, &CASES)
}
