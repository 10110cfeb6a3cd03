//! Frames of a stack, what they want to do, and what they are answered.
ghost use Rattle.std.specs.Prelude.{◌≡◌};
ghost use Rattle.machine_defs.specs.Sight.{Sight};

use crate::arrays::{Args, Numbers, Objects, Registers, Results};
use crate::values::{Cause, RpcCode};

/// Where a frame stands: at a line of domain code with its registers, or in a native body with the
/// objects that it holds.
#[derive(Debug, Drop)]
pub enum FrameBody<N: Drop> {
    /// `line` is a place in the domain's text, from 0.
    Code { line: u32, registers: Registers },
    Native { held: Objects, state: N },
}

/// A call that was entered: the continuation that RedLeaf's proxies keep of a thread that migrates
/// into a domain (section 3.1).
#[derive(Debug, Drop)]
pub struct Frame<N: Drop> {
    pub call: u32,
    /// The load or shadow that was called.
    pub target: u32,
    /// The instance that the call runs in.
    pub instance: u32,
    pub method: u32,
    pub args: Args,
    /// The objects that are lent to the call, in the order of its arguments.
    pub lent: Objects,
    pub body: FrameBody<N>,
}

/// What a frame would do next. Objects, structs, targets and methods are numbers, slots are
/// numbered from 0.
#[derive(Debug, Drop)]
pub enum Action {
    /// Makes an object of the struct.
    New(u32),
    /// Gives the object up.
    Drop(u64),
    /// Sets cells of the object from a place on.
    Set(u64, u32, Numbers),
    /// Sets a word of the instance.
    Wput(u32, u64),
    /// Takes the object out of the slot.
    Take(u32),
    /// Puts the object into the slot.
    Put(u32, u64),
    /// Sets the object's cells to the block's.
    DevGet(u64, u64),
    /// Sets the block to the object's cells.
    DevPut(u64, u64),
    /// Moves the second object into a cell of the first.
    Hang(u64, u32, u64),
    /// Moves an object out of a cell of the object.
    Unhang(u64, u32),
    /// Calls the method of the target.
    Call(u32, u32, Args),
    /// Returns.
    Ret(Results),
    /// Ends the instance.
    Trap(Cause),
}

/// What an action is answered.
#[derive(Debug, Drop)]
pub enum Answer {
    /// The object that was made, taken or moved out of a cell.
    Made(u64),
    /// It was done.
    Went,
    /// The call returned.
    Back(Results),
    /// The call failed.
    Failed(RpcCode),
}

/// What register work and native bodies see of the machine: one instance's words, slots and
/// bindings, the cells of the objects that its frame may read, and the device.
pub trait View {
    ghost sight: { Self → Sight };

    /// A number cell of an object. None exactly where the place isn't below the count of cells or
    /// is an `RRef` cell.
    fn cell(&self, object: u64, at: u64) -> Option<u64>
        ensures { result ≡ (sight self.now).cell object at };

    /// A word of the instance. None exactly where the place isn't below the count of words.
    fn word(&self, at: u64) -> Option<u64>
        ensures { result ≡ (sight self.now).word at };

    /// The object in a slot of the instance. None exactly where the slot is empty.
    fn slot(&self, at: u32) -> Option<u64>
        ensures { result ≡ (sight self.now).slot at };

    /// The object in an `RRef` cell of an object. None exactly where the place is no such cell or
    /// is empty.
    fn hung(&self, object: u64, at: u64) -> Option<u64>
        ensures { result ≡ (sight self.now).hung object at };

    /// How many blocks the device has, 0 where the domain isn't the device's.
    fn blocks(&self) -> u64
        ensures { result ≡ (sight self.now).blocks };

    /// The target that is bound to an import of the frame's load, 0 where there is no such import.
    fn bound(&self, import: u32) -> u32
        ensures { result ≡ (sight self.now).bound import };
}
