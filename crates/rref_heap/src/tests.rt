//! Each call once, on a heap with one object or with two.
ghost use Rattle.std.specs.Prelude.{◌≡◌, ◌<◌, [], ◌∷◌, Some, true, false, IfOk};
ghost use Rattle.rl_defs.specs.declared.tables.Kind.TheVariants as kind;
ghost use Rattle.rl_defs.specs.declared.tables.Width.TheVariants as width;
ghost use Rattle.rref_heap.specs.HeapValue.{MayOwn};
ghost use Rattle.rref_heap.specs.Changing.{new_row};

use crate::heap::{Heap, ObjectRow};
use crate::may_move::heap_may_move;
use crate::steps::Steps;
use machine_defs::log::Log;
use machine_defs::values::Owner;
use rl_defs::list::List;
use rl_defs::name::Name;
use rl_defs::tables::{Kind, StructRow, Width};
use std::alloc::{AllocError, Global};
use std::marker::Brand;
use std::sync::ledger::{Blank, Ledger};
use std::test::Fail;

// A struct with a cell for a number and one for an `RRef`.
fn pair(alloc: Global) -> Result<StructRow, AllocError>
    ensures { IfOk result (λ s. s.flat ≡ kind.Num width.W64 ∷ kind.Own 0 ∷ []) }
{
    let Some(name) = Name::read(b"Pair") else {
        return Err(AllocError);
    };
    let kinds = vec![in alloc; Kind::Num(Width::W64), Kind::Own(0)]?;
    Ok(StructRow {
        name,
        flat: List::from_vec(kinds),
    })
}

// A heap with object 1, a pair.
fn one_pair(alloc: Global, who: Owner) -> Result<Heap, AllocError>
    ensures rows { IfOk result (λ h. h.rows ≡ Some (new_row 1 7 who (record { cells = 2; nests = true })) ∷ []) }
    ensures owner { IfOk result (λ h. MayOwn h who) }
{
    let mut heap = Heap::new(alloc);
    heap.reserve_owner(who)?;
    let s = pair(alloc)?;
    heap.reserve_one(alloc, &s)?;
    heap.make(7, who);
    Ok(heap)
}

// A struct with a cell for a number.
fn word(alloc: Global) -> Result<StructRow, AllocError>
    ensures { IfOk result (λ s. s.flat ≡ kind.Num width.W8 ∷ []) }
{
    let Some(name) = Name::read(b"Word") else {
        return Err(AllocError);
    };
    let kinds = vec![in alloc; Kind::Num(Width::W8)]?;
    Ok(StructRow {
        name,
        flat: List::from_vec(kinds),
    })
}

// A heap with object 1, a pair, and object 2, a word.
fn two_objects(alloc: Global, who: Owner) -> Result<Heap, AllocError>
    ensures { IfOk result (λ h. h.rows ≡ Some (new_row 1 7 who (record { cells = 2; nests = true }))
        ∷ Some (new_row 2 8 who (record { cells = 1; nests = false })) ∷ []) }
{
    let mut heap = one_pair(alloc, who)?;
    let s = word(alloc)?;
    heap.reserve_one(alloc, &s)?;
    heap.make(8, who);
    Ok(heap)
}

#[test]
fn objects_are_made(rt: HostRuntime) -> Result<(), Fail> {
    let heap = one_pair(rt.alloc(), Owner::Client(1))?;
    heap.is_kept();
    heap_may_move();
    let row = ObjectRow {
        number: 1,
        ty: 7,
        owner: Some(Owner::Client(1)),
        loans: 0,
    };
    assert_eq!(rt; heap.row(1), Some(row));
    assert_eq!(rt; heap.row(2), None);
    assert_eq!(rt; heap.is_live(1), true);
    assert_eq!(rt; heap.live(), 1);
    assert_eq!(rt; heap.made(), 1);
    Ok(())
}

#[test]
fn cells_are_written(rt: HostRuntime) -> Result<(), Fail> {
    let mut heap = one_pair(rt.alloc(), Owner::Client(1))?;
    assert_eq!(rt; heap.get(1, 0), 0);
    heap.fill(1, &[5, 0]);
    assert_eq!(rt; heap.get(1, 0), 5);
    heap.set(1, 0, &[6]);
    assert_eq!(rt; heap.get(1, 0), 6);
    assert_eq!(rt; heap.cells(1), [6, 0].as_slice());
    Ok(())
}

// How often an object is lent, 0 where it is gone.
fn loans(heap: &Heap, o: u64) -> u32 {
    match heap.row(o) {
        Some(row) => row.loans,
        None => 0,
    }
}

#[test]
fn loans_are_counted(rt: HostRuntime) -> Result<(), Fail> {
    let mut heap = one_pair(rt.alloc(), Owner::Client(1))?;
    heap.lend(1);
    assert_eq!(rt; loans(&heap, 1), 1);
    assert_eq!(rt; heap.give_back(1, false), false);
    assert_eq!(rt; loans(&heap, 1), 0);
    Ok(())
}

#[test]
fn what_leaves_is_swept(rt: HostRuntime) -> Result<(), Fail> {
    let mut heap = one_pair(rt.alloc(), Owner::Client(1))?;
    assert_eq!(rt; heap.pass(1, Owner::Client(1), true), true);
    let mut log = Log::new(rt.alloc());
    log.reserve(1)?;
    heap.sweep(&mut log);
    assert_eq!(rt; log.len(), 1);
    assert_eq!(rt; heap.live(), 0);
    Ok(())
}

#[test]
fn objects_are_dropped(rt: HostRuntime) -> Result<(), Fail> {
    let mut heap = one_pair(rt.alloc(), Owner::Client(1))?;
    heap.drop_object(1);
    assert_eq!(rt; heap.is_live(1), false);
    assert_eq!(rt; heap.made(), 1);
    Ok(())
}

#[test]
fn objects_hang(rt: HostRuntime) -> Result<(), Fail> {
    let mut heap = two_objects(rt.alloc(), Owner::Client(1))?;
    heap.hang(1, 1, 2);
    assert_eq!(rt; heap.hung(1, 0), None);
    assert_eq!(rt; heap.hung(1, 1), Some(2));
    assert_eq!(rt; heap.unhang(1, 1), 2);
    assert_eq!(rt; heap.live(), 2);
    Ok(())
}

// How many objects are there where their owner has ended, and how many were freed.
fn after_end<L: Ledger>(alloc: Global, blank: Blank) -> Result<(u32, usize), AllocError>
    requires name { blank.name ≡ L.name }
    requires parts { blank.parts ≡ L.parts }
    requires some { 0 < blank.parts }
{
    let mut heap = two_objects(alloc, Owner::Instance(1))?;
    let mut log = Log::new(alloc);
    log.reserve(2)?;
    let mut steps = Steps::<L>::new(blank);
    steps.tick();
    heap.end_owner(1, &mut log, &mut steps);
    Ok((heap.live(), log.len()))
}

#[test]
fn what_an_owner_leaves_is_freed(rt: HostRuntime) -> Result<(), Fail> {
    let (live, freed) = after_end::<Brand>(rt.alloc(), Blank::new(1))?;
    assert_eq!(rt; live, 0);
    assert_eq!(rt; freed, 2);
    Ok(())
}
