//! Worked runs of the domain machine, which show what its definitions say.
#![tactic(auto)]

ghost use Rattle.rl_defs.specs.Valid.{Valid};
ghost use Rattle.worked_runs.specs.MovedTwice.{IsMovedTwice, moved_load};
ghost use Rattle.worked_runs.specs.LentWhileKilled.{IsLentWhileKilled};
ghost use Rattle.worked_runs.specs.HungAndDropped.{IsHungAndDropped};
ghost use Rattle.worked_runs.specs.TrapOverHung.{IsTrapOverHung};
ghost use Rattle.worked_runs.specs.KilledTwice.{IsKilledTwice};
ghost use Rattle.worked_runs.specs.KilledInARead.{IsKilledInARead};
ghost use Rattle.worked_runs.specs.EndedCaller.{IsEndedCaller};
ghost use Rattle.worked_runs.specs.OppositeOrders.{IsOppositeOrders};
ghost use Rattle.worked_runs.specs.PutTwice.{IsPutTwice};
ghost use Rattle.worked_runs.specs.GoneAndSkipped.{IsGoneAndSkipped};
ghost use Rattle.worked_runs.specs.OutOfFuel.{IsOutOfFuel};
ghost use Rattle.worked_runs.specs.KeptInStore.{IsKeptInStore};
ghost use Rattle.worked_runs.specs.NativeOverDriver.{IsNativeOverDriver};
ghost use Rattle.worked_runs.specs.TrapAgain.{IsTrapAgain};
ghost use Rattle.worked_runs.specs.FullStack.{IsFullStack};
ghost use Rattle.worked_runs.specs.Wrong.{IsIssuedOnce, IsInnermostFirst, IsReloadCounted, IsKeptWhileLent, IsFreedWithTheLast};

/// A client's object is moved into a domain, from there into another one, and comes back by two
/// returns. The client drops it.
pub fn moved_twice()
    ensures { IsMovedTwice }
{}

/// The load of that run is valid.
pub fn moved_load_is_valid()
    ensures { Valid moved_load }
{}

/// An object's owner is killed while the object is lent, and lent on. It is freed when the last
/// loan ends, and not before.
pub fn lent_while_killed()
    ensures { IsLentWhileKilled }
{}

/// An object that hangs in another one goes where that one goes, is listed in its cell, and is
/// freed behind its drop.
pub fn hung_and_dropped()
    ensures { IsHungAndDropped }
{}

/// An instance traps. Its object is freed, and so is the object below that one.
pub fn trap_over_hung()
    ensures { IsTrapOverHung }
{}

/// Two clients are in a driver that a third one kills twice: behind the driver's shadow their calls
/// are issued again, and then unwound.
pub fn killed_twice()
    ensures { IsKilledTwice }
{}

/// A driver is killed while it reads a block: its object is freed, and behind its shadow the read
/// is issued again.
pub fn killed_in_a_read()
    ensures { IsKilledInARead }
{}

/// A call returns an object to a caller that has ended: the object is freed, and the caller's own
/// call is unwound.
pub fn ended_caller()
    ensures { IsEndedCaller }
{}

/// Two clients call two serial loads in opposite orders: one is refused, and the other waits.
pub fn opposite_orders()
    ensures { IsOppositeOrders }
{}

/// A domain puts an object into its slot, and traps where it would put another one into the full
/// slot. Both are freed.
pub fn put_twice()
    ensures { IsPutTwice }
{}

/// A client's call of a domain that it killed is refused, the object that it moves is dropped, and
/// what uses its result is skipped.
pub fn gone_and_skipped()
    ensures { IsGoneAndSkipped }
{}

/// A call's fuel is used up before its last instruction: its instance traps, and the call is
/// unwound.
pub fn out_of_fuel()
    ensures { IsOutOfFuel }
{}

/// A domain keeps a number in a word, in a slot and on its device. A later call empties the slot,
/// and returns what the device has.
pub fn kept_in_store()
    ensures { IsKeptInStore }
{}

/// A native body writes a block through its import and reads it back; when the driver is killed its
/// call is refused, and it traps.
pub fn native_over_driver()
    ensures { IsNativeOverDriver }
{}

/// A driver traps at a block that isn't there: behind its shadow the read is issued again, traps
/// again, and is unwound.
pub fn trap_again()
    ensures { IsTrapAgain }
{}

/// A domain calls itself until its client's stack is full: the 32nd call is refused, and all the
/// others return.
pub fn full_stack()
    ensures { IsFullStack }
{}

/// A history that no run has: a call is issued again whose method may be issued once only.
pub fn issued_once()
    ensures { IsIssuedOnce }
{}

/// A history that no run has: a call of a thread is unwound before the call that it has made since.
pub fn innermost_first()
    ensures { IsInnermostFirst }
{}

/// A history that no run has: a reload leaves as many restarts as there were.
pub fn reload_counted()
    ensures { IsReloadCounted }
{}

/// A history that no run has: an object is freed when its owner is killed, though it is lent.
pub fn kept_while_lent()
    ensures { IsKeptWhileLent }
{}

/// A history that no run has: the last loan of an object ends whose owner has ended, and the object
/// isn't freed before a client goes on.
pub fn freed_with_the_last()
    ensures { IsFreedWithTheLast }
{}
