//! Worked examples of the command and of the table below it.
ghost use Rattle.std.specs.Prelude.{◌≡◌, ◌≤◌, IfSome};
ghost use Rattle.machine_defs.specs.Heads.{how_many, title, loan};
ghost use Rattle.rref_heads.specs.Passes.{view, IsPassOf, IsHead};

use crate::redleaf_heads;
use crate::run::table_for_two;
use rl_defs::list::List;
use rl_io::MemSink;
use rref_heads::{HeadWord, Heads, Pass};
use std::alloc::{AllocError, Global};
use std::test::Fail;
use std::thread;
use std::thread::Threads;

fn cells(alloc: Global, cell: u64) -> Result<List<u64>, AllocError> {
    Ok(List::from_vec(vec![in alloc; cell]?))
}

const PUBLISHED: HeadWord = HeadWord::Live {
    loans: 0,
    ended: false,
    to: None,
};

#[test]
fn a_claim_of_a_published_head_gives_its_word_and_the_payload_back(
    rt: HostRuntime,
) -> Result<(), Fail> {
    let (table, mut first, mut second) = table_for_two(rt.alloc(), 1)?;
    assert_eq!(rt; first.number(), 0);
    assert_eq!(rt; second.number(), 1);
    let claimed = table.claim(&mut first, 1, cells(rt.alloc(), 7)?);
    assert!(rt; claimed.is_ok());
    let Err((changed, payload)) = table.claim(&mut second, 1, cells(rt.alloc(), 8)?) else {
        panic!(rt; "the head was vacant")
    };
    assert!(rt; changed.word == PUBLISHED && payload.as_slice() == [8].as_slice());
    Ok(())
}

#[test]
fn a_head_that_is_passed_on_is_taken_up_and_ended(rt: HostRuntime) -> Result<(), Fail> {
    let (table, mut first, mut second) = table_for_two(rt.alloc(), 1)?;
    let Ok(()) = table.claim(&mut first, 1, cells(rt.alloc(), 7)?) else {
        panic!(rt; "the head wasn't vacant")
    };
    table.pass_on(&mut first, 1, 1);
    let Err(changed) = table.lend(&mut first, 1, PUBLISHED) else {
        panic!(rt; "a head that is passed on was lent")
    };
    let seen = HeadWord::Live {
        loans: 0,
        ended: false,
        to: Some(1),
    };
    assert!(rt; changed.word == seen);
    let Ok(()) = table.take_up(&mut second, 1, seen) else {
        panic!(rt; "the head had no receiver")
    };
    let Some(payload) = table.end(&mut second, 1) else {
        panic!(rt; "the head was lent")
    };
    assert!(rt; payload.as_slice() == [7].as_slice());
    Ok(())
}

// One pass ends the head while the other gives its only loan back, on two threads. The cells that
// came out, at each of them.
fn race<R: Threads + Sync>(
    rt: &R,
    alloc: Global,
    table: &Heads,
    mut first: Pass,
    mut second: Pass,
    h: u32,
) -> Option<(Pass, Pass, u64, u64)>
    requires { IsPassOf table.now first × IsPassOf table.now second × IsHead table.now h }
    ensures { IfSome result (λ r. IsPassOf table.now r.0 × IsPassOf table.now r.1) }
{
    let Ok(payload) = cells(alloc, u64::from(h)) else {
        return None;
    };
    let Ok(()) = table.claim(&mut first, h, payload) else {
        return None;
    };
    let Ok(()) = table.lend(&mut second, h, PUBLISHED) else {
        return None;
    };
    let (one, other) = thread::join(
        rt,
        move ||
            requires { IsPassOf table.now first × IsHead table.now h × (1 ≤ how_many title h (view first)) }
            ensures { IsPassOf table.entry.now result.0 }
        { end_one(table, first, h) },
        move ||
            requires { IsPassOf table.now second × IsHead table.now h × (1 ≤ how_many loan h (view second)) }
            ensures { IsPassOf table.entry.now result.0 }
        { give_back_one(table, second, h) },
    );
    Some((one.0, other.0, one.1, other.1))
}

// The first cell of a payload, 0 where there is none.
fn first_cell(payload: Option<List<u64>>) -> u64 {
    match payload {
        Some(cells) => match cells.get(0) {
            Some(cell) => *cell,
            None => 0,
        },
        None => 0,
    }
}

fn end_one(table: &Heads, mut pass: Pass, h: u32) -> (Pass, u64)
    requires { IsPassOf table.now pass × IsHead table.now h × (1 ≤ how_many title h (view pass)) }
    ensures { IsPassOf table.now result.0 }
{
    let got = first_cell(table.end(&mut pass, h));
    (pass, got)
}

fn give_back_one(table: &Heads, mut pass: Pass, h: u32) -> (Pass, u64)
    requires { IsPassOf table.now pass × IsHead table.now h × (1 ≤ how_many loan h (view pass)) }
    ensures { IsPassOf table.now result.0 }
{
    let got = first_cell(table.give_back(&mut pass, h));
    (pass, got)
}

#[test]
fn exactly_one_of_two_gets_each_payload(rt: HostRuntime) -> Result<(), Fail> {
    let (table, mut first, mut second) = table_for_two(rt.alloc(), 1000)?;
    for i in 0..1000u32 {
        let Some((one, other, ended, given)) = race(&rt, rt.alloc(), &table, first, second, i + 1)
        else {
            panic!(rt; "the head wasn't vacant")
        };
        let got = (ended, given);
        let cell = u64::from(i) + 1;
        assert!(rt; got == (cell, 0) || got == (0, cell), "head {cell}");
        first = one;
        second = other;
    }
    Ok(())
}

#[test]
fn two_workers_free_every_head(rt: HostRuntime) -> Result<(), Fail> {
    for heads in [1u32, 2, 4096] {
        let mut wanted = format!(in rt.alloc(); "heads {heads}\n")?;
        for i in 0..heads {
            let h = u64::from(i) + 1;
            wanted.push_str(format!(in rt.alloc(); "{h} gone\n")?.as_str())?;
        }
        wanted.push_str(format!(in rt.alloc(); "returned {heads}\n")?.as_str())?;
        let mut sink = MemSink::new(rt.alloc(), 100_000, 100_000, Vec::new(rt.alloc()))?;
        let status = redleaf_heads(&rt, rt.alloc(), heads, &mut sink);
        assert_eq!(rt; status.exit_status(), 0);
        assert!(rt; sink.given() == wanted.as_bytes());
    }
    Ok(())
}

// A sink that takes 5 bytes in a call fails at each of its calls in turn: a front of the text is
// there.
#[test]
fn a_sink_that_fails_gets_a_front(rt: HostRuntime) -> Result<(), Fail> {
    let text = "heads 2\n1 gone\n2 gone\nreturned 2\n".as_bytes();
    for failing in 0..8u64 {
        let calls = vec![in rt.alloc(); failing]?;
        let mut sink = MemSink::new(rt.alloc(), 1000, 5, calls)?;
        let status = redleaf_heads(&rt, rt.alloc(), 2, &mut sink);
        let given = sink.given().len();
        if failing == 0 {
            assert_eq!(rt; status.exit_status(), 0);
            assert_eq!(rt; given, text.len());
        } else {
            assert_eq!(rt; status.exit_status(), 4);
            assert_eq!(rt; given as u64, 5 * (failing - 1));
            assert!(rt; text.starts_with(sink.given()));
        }
    }
    Ok(())
}
