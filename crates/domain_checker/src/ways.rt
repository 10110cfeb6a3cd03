//! Ways through heads: for each place of a domain's lines, the line where control stands that comes
//! there.
ghost use Rattle.std.specs.Prelude.{◌≡◌, ℕ, ◌^◌, ◌<◌, length, drop, fold, IfOk, OnOk, slice_range};
ghost use Rattle.std.specs.List.{list_any};
ghost use Rattle.rl_defs.specs.declared.tables.Tables.{Tables};
ghost use Rattle.rl_defs.specs.LineRows.{Leads};
ghost use Rattle.rl_defs.specs.Checked.{IsWithin};
ghost use Rattle.domain_checker.specs.Heads.{is_in, with_items, run_form, run_at, is_head, AreRuns, AreKept, is_emptied, Puts, Grows};

use crate::kinds::{Kinds, all_kinds, holds_any, holds_some};
use rl_defs::bundle::Numbered;
use rl_defs::checked::Way;
use rl_defs::code::{DomainLine, HeadItem, RegKind, Register};
use rl_defs::list::List;
use std::alloc::{AllocError, Global};

// So many registers in a pool leave no room for 32 more that a `u32` can count.
const FULL: usize = u32::MAX as usize - 31;

// Where control stands that comes to a place: at the first line from there on that is no head.
#[derive(Clone, Copy, Debug)]
struct Run {
    line: u32,
    // The registers that each head on the way lists, one bit for each.
    listed: u32,
}

/// The ways through the heads of a domain's lines. They are found once, in one pass over the lines
/// from the last to the first.
#[derive(Debug, Drop)]
pub(crate) struct Ways<'a> {
    lines: &'a [Numbered<DomainLine>],
    // One for each line, that of the last line first, and none where no line is a head.
    runs: List<Run>,
    ghost short: { length lines.now < 2 ^ 31 },
    ghost kept: { AreKept lines.now runs },
}

impl<'a> Ways<'a> {
    /// The ways of these lines.
    pub(crate) fn new(
        alloc: Global,
        lines: &'a [Numbered<DomainLine>],
    ) -> Result<Ways<'a>, AllocError>
        requires { length lines.now < 2 ^ 31 }
        ensures { IfOk result (λ ways. ways.lines.now ≡ lines.now) }
    {
        let runs = kept_runs(alloc, lines)?;
        Ok(Ways { lines, runs })
    }

    // The run of the line at a place. A line that is no head stands for itself.
    fn run(&self, place: usize) -> Run
        requires { place < length self.now.lines.now }
        ensures { result ≡ run_at (drop place self.now.lines.now) place }
    {
        match self.runs.get(self.lines.len() - 1 - place) {
            Some(run) => *run,
            None => Run {
                line: place as u32,
                listed: u32::MAX,
            },
        }
    }

    /// The way of a frame that comes to a place with registers of these kinds. The registers that
    /// are emptied on the way are put last in the pool: those that aren't empty and that a head on
    /// the way doesn't list. `AllocError` also where the pool has 2^32 - 32 registers or more.
    pub(crate) fn way(
        &self,
        pool: &mut Vec<Register>,
        kinds: &Kinds,
        place: usize,
    ) -> Result<Way, AllocError>
        requires { place < length self.now.lines.now }
        ensures leads { IfOk result (λ way. (tables : Tables)
            → Leads (record { lines = self.now.lines.now; tables = tables }) kinds.now place way.line
            (slice_range pool.new.items way.from way.to)) }
        ensures within { IfOk result (IsWithin pool.new.items) }
        ensures grows { OnOk result (Grows 32 pool.old.items pool.new.items) }
    {
        if pool.len() >= FULL {
            return Err(AllocError);
        }
        let run = self.run(place);
        let from = pool.len();
        put_unlisted(pool, kinds, run.listed)?;
        Ok(Way {
            line: run.line,
            from: from as u32,
            to: pool.len() as u32,
        })
    }
}

fn bit_of(register: Register) -> u32
    ensures { result ≡ 2 ^ register.number }
{
    1 << register.number
}

// The registers of a head's items, one bit for each.
fn set_of(items: &[HeadItem]) -> u32
    ensures { result ≡ with_items 0 items.now }
{
    items
        .iter()
        .fold(0, |set, item| set | bit_of(item.register))
}

// The run of a line, by that of the next one.
fn run_of(form: &DomainLine, place: u32, next: Run) -> Run
    ensures { result ≡ run_form form.now place next }
{
    match form {
        DomainLine::Head(_, items) => Run {
            line: next.line,
            listed: next.listed & set_of(items.as_slice()),
        },
        _ => Run {
            line: place,
            listed: u32::MAX,
        },
    }
}

fn runs_of(alloc: Global, lines: &[Numbered<DomainLine>]) -> Result<List<Run>, AllocError>
    requires { length lines.now < 2 ^ 31 }
    ensures one_each { IfOk result (λ runs. length runs ≡ length lines.now) }
    ensures right { IfOk result (AreRuns lines.now) }
{
    let room = Vec::with_capacity(alloc, lines.len())?;
    let mut runs = List::from_vec(room);
    let mut next = Run {
        line: lines.len() as u32,
        listed: u32::MAX,
    };
    'lines: for place in (0..lines.len()).rev() {
        next = run_of(&lines[place].form, place as u32, next);
        runs.push(next)?;
    }
    Ok(runs)
}

fn is_head(form: &DomainLine) -> bool
    ensures { result ≡ is_head form.now }
{
    matches!(form, DomainLine::Head(..))
}

fn has_head(lines: &[Numbered<DomainLine>]) -> bool
    ensures { result ≡ list_any (λ l. is_head l.form) lines.now }
{
    lines.iter().any(|line| is_head(&line.form))
}

// The runs, or none where no line is a head.
fn kept_runs(alloc: Global, lines: &[Numbered<DomainLine>]) -> Result<List<Run>, AllocError>
    requires { length lines.now < 2 ^ 31 }
    ensures { IfOk result (AreKept lines.now) }
{
    if !has_head(lines) {
        return Ok(List::new(alloc));
    }
    runs_of(alloc, lines)
}

fn is_in(set: u32, number: u8) -> bool
    requires { number < 32 }
    ensures { result ≡ is_in set number }
{
    (set >> number) & 1 == 1
}

fn is_emptied(set: u32, kind: RegKind, number: u8) -> bool
    requires { number < 32 }
    ensures { result ≡ is_emptied set kind number }
{
    holds_some(kind) && !is_in(set, number)
}

// Puts the registers that hold something and that aren't in the set last in the pool.
fn put_emptied(pool: &mut Vec<Register>, kinds: &[RegKind; 32], set: u32) -> Result<(), AllocError>
    ensures { OnOk result (Puts kinds.now set 32 pool.old.items pool.new.items) }
{
    'registers: for number in 0..32u8 {
        if is_emptied(set, kinds[number as usize], number) {
            pool.push(Register { number })?;
        }
    }
    Ok(())
}

// The same of a set that mostly has all registers, since most lines are no heads, and of registers
// that may hold nothing: then none is put.
fn put_unlisted(pool: &mut Vec<Register>, kinds: &Kinds, set: u32) -> Result<(), AllocError>
    ensures { OnOk result (Puts kinds.now set 32 pool.old.items pool.new.items) }
{
    if set == u32::MAX {
        return Ok(());
    }
    if !holds_any(kinds) {
        return Ok(());
    }
    put_emptied(pool, all_kinds(kinds), set)
}
