//! The entries of a history.

use crate::arrays::{Args, Results};
use crate::values::{Cause, Owner, RpcCode};
use rl_defs::list::List;
use rl_defs::name::Name;
use rl_defs::values::Value;

/// One event of a run. All rows but `Free` are an act of a thread, which is a client's number.
/// Calls, targets, instances, methods, structs and objects are numbers.
#[derive(Debug, Drop)]
pub enum Entry {
    /// The call enters an instance of its target.
    Call {
        thread: u32,
        call: u32,
        target: u32,
        instance: u32,
        method: u32,
        args: Args,
    },
    /// The call fails before it enters anything, and its moved arguments are dropped.
    Refuse {
        thread: u32,
        call: u32,
        code: RpcCode,
        target: u32,
        method: u32,
        args: Args,
    },
    /// The call returns.
    Ret {
        thread: u32,
        call: u32,
        results: Results,
    },
    /// The call ends since its instance has ended.
    Unwound {
        thread: u32,
        call: u32,
    },
    /// The shadow's load gets a fresh instance; `left` restarts are left.
    Reload {
        thread: u32,
        shadow: u32,
        instance: u32,
        left: u32,
    },
    /// The call enters the shadow's new instance once more.
    Again {
        thread: u32,
        call: u32,
        shadow: u32,
        instance: u32,
    },
    /// The instance ends by its own code.
    Trap {
        thread: u32,
        instance: u32,
        cause: Cause,
    },
    /// A client ends the instance.
    Kill {
        thread: u32,
        instance: u32,
    },
    /// An object is made. The values are those that `let` or `text` gave.
    New {
        thread: u32,
        owner: Owner,
        object: u64,
        ty: u32,
        values: List<u64>,
    },
    /// The object is given up.
    Drop {
        thread: u32,
        object: u64,
    },
    /// Cells of the object are set, from a place on.
    Set {
        thread: u32,
        object: u64,
        place: u32,
        values: List<u64>,
    },
    /// A word of the instance is set.
    Wput {
        thread: u32,
        instance: u32,
        place: u32,
        value: u64,
    },
    /// The object leaves a slot of the instance.
    Take {
        thread: u32,
        instance: u32,
        slot: Name,
        object: u64,
    },
    /// The object goes into a slot of the instance.
    Put {
        thread: u32,
        instance: u32,
        slot: Name,
        object: u64,
    },
    /// The object's cells become those of the device's block.
    DevGet {
        thread: u32,
        object: u64,
        block: u64,
    },
    /// The device's block becomes the object's cells.
    DevPut {
        thread: u32,
        block: u64,
        object: u64,
    },
    /// An object moves into a cell of another.
    Hang {
        thread: u32,
        object: u64,
        place: u32,
        hung: u64,
    },
    /// An object moves out of a cell of another.
    Unhang {
        thread: u32,
        object: u64,
        place: u32,
        hung: u64,
    },
    /// The object's cells are listed.
    Show {
        thread: u32,
        object: u64,
        values: List<Value>,
    },
    /// The command with this number uses a name that isn't bound, or finds the heap full.
    Skip {
        thread: u32,
        command: u32,
    },
    /// The script has ended.
    Done {
        thread: u32,
    },
    /// The object is freed, since nobody can reach it any more.
    Free(u64),
}
