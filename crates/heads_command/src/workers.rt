//! What the caller's thread and each worker do with the heads.
ghost use Rattle.std.specs.Prelude.{◌≡◌, ◌≤◌, ◌<◌, ◌^◌, IfOk};
ghost use Rattle.machine_defs.specs.Heads.{empty};
ghost use Rattle.rref_heads.specs.Passes.{view, IsPassOf, IsSamePass, IsHead, IsEmpty};
ghost use Rattle.heads_command.specs.Workers.{HoldsTitles, HoldsLoans, Released};

use rl_defs::list::List;
use rref_heads::{HeadWord, Heads, Pass};
use std::alloc::{AllocError, Global};

// Claims one head.
fn claim_one(
    table: &Heads,
    alloc: Global,
    pass: &mut Pass,
    held: &mut Vec<u32>,
    h: u32,
) -> Result<(), AllocError>
    requires own { IsPassOf table.now pass.old × IsHead table.now h }
    requires held { HoldsTitles table.now.heads held.old.items (view pass.old)
        × Released table.now.heads 0 (view pass.old) }
    ensures same { IsSamePass pass.old pass.new }
    ensures held { IfOk result (λ _. HoldsTitles table.now.heads held.new.items (view pass.new)
        × Released table.now.heads 0 (view pass.new)) }
{
    let mut cells = Vec::new(alloc);
    cells.push(u64::from(h))?;
    held.reserve(1)?;
    match table.claim(pass, h, List::from_vec(cells)) {
        Ok(()) => {
            held.push_reserved(h);
            Ok(())
        }
        Err(changed) => {
            drop(changed);
            Ok(())
        }
    }
}

/// Claims each head, with its number as the payload. The heads that were claimed, in order.
pub(crate) fn claim_all(
    table: &Heads,
    alloc: Global,
    count: u32,
    pass: &mut Pass,
) -> Result<Vec<u32>, AllocError>
    requires own { IsPassOf table.now pass.old × (view pass.old ≡ empty 1) }
    requires size { (count ≡ table.now.heads) × (count ≤ 4096) }
    ensures same { IsSamePass pass.old pass.new }
    ensures held { IfOk result (λ held. HoldsTitles table.now.heads held.items (view pass.new)
        × Released table.now.heads 0 (view pass.new)) }
{
    let mut held = Vec::with_capacity(alloc, count as usize)?;
    for i in 0..count {
        claim_one(table, alloc, pass, &mut held, i + 1)?;
    }
    Ok(held)
}

// Lends one head, where nobody lent or ended it.
fn lend_one(table: &Heads, pass: &mut Pass, held: &mut Vec<u32>, h: u32) -> Result<(), AllocError>
    requires own { IsPassOf table.now pass.old × IsHead table.now h }
    requires held { HoldsLoans table.now.heads held.old.items (view pass.old)
        × Released table.now.heads 0 (view pass.old) }
    ensures same { IsSamePass pass.old pass.new }
    ensures held { IfOk result (λ _. HoldsLoans table.now.heads held.new.items (view pass.new)
        × Released table.now.heads 0 (view pass.new)) }
{
    let fresh = HeadWord::Live {
        loans: 0,
        ended: false,
        to: None,
    };
    held.reserve(1)?;
    match table.lend(pass, h, fresh) {
        Ok(()) => {
            held.push_reserved(h);
            Ok(())
        }
        Err(changed) => {
            drop(changed);
            Ok(())
        }
    }
}

/// Lends each head once. The heads that were lent, in order.
pub(crate) fn lend_all(
    table: &Heads,
    alloc: Global,
    count: u32,
    pass: &mut Pass,
) -> Result<Vec<u32>, AllocError>
    requires own { IsPassOf table.now pass.old × (view pass.old ≡ empty 1) }
    requires size { (count ≡ table.now.heads) × (count ≤ 4096) }
    ensures same { IsSamePass pass.old pass.new }
    ensures held { IfOk result (λ held. HoldsLoans table.now.heads held.items (view pass.new)
        × Released table.now.heads 0 (view pass.new)) }
{
    let mut held = Vec::with_capacity(alloc, count as usize)?;
    for i in 0..count {
        lend_one(table, pass, &mut held, i + 1)?;
    }
    Ok(held)
}

/// Ends each head of which the pass has the title. The pass, and how many payloads came out.
pub(crate) fn end_all(table: &Heads, mut pass: Pass, mut held: Vec<u32>) -> (Pass, u64)
    requires { IsPassOf table.now pass × HoldsTitles table.now.heads held.items (view pass)
        × Released table.now.heads 0 (view pass) }
    ensures { IsPassOf table.now result.0 × IsEmpty (view result.0)
        × Released table.now.heads result.1 (view result.0) × (result.1 < 2 ^ 63) }
{
    let mut got = 0u64;
    while let Some(h) = held.pop() {
        match table.end(&mut pass, h) {
            Some(payload) => {
                drop(payload);
                got += 1;
            }
            None => {}
        }
    }
    (pass, got)
}

/// Gives back each loan of the pass. The pass, and how many payloads came out.
pub(crate) fn give_back_all(table: &Heads, mut pass: Pass, mut held: Vec<u32>) -> (Pass, u64)
    requires { IsPassOf table.now pass × HoldsLoans table.now.heads held.items (view pass)
        × Released table.now.heads 0 (view pass) }
    ensures { IsPassOf table.now result.0 × IsEmpty (view result.0)
        × Released table.now.heads result.1 (view result.0) × (result.1 < 2 ^ 63) }
{
    let mut got = 0u64;
    while let Some(h) = held.pop() {
        match table.give_back(&mut pass, h) {
            Some(payload) => {
                drop(payload);
                got += 1;
            }
            None => {}
        }
    }
    (pass, got)
}
