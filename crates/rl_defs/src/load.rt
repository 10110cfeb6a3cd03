//! A load: what an accepted bundle stands for.
ghost use Rattle.std.specs.Prelude.{◌≡◌};
ghost use Rattle.rl_defs.specs.Valid.{Valid};

use crate::checked::CheckedDomain;
use crate::list::List;
use crate::name::Name;
use crate::tables::SharedTables;
use std::marker::Model;

/// An argument of a client's call. A script name is its place among the names that the client's
/// commands bind, from 0.
#[derive(Clone, Copy, Debug, PartialEq, Eq)]
pub enum ScriptArg {
    Num(u64),
    /// A number that is copied, or an object that is moved.
    Name(u32),
    /// An object that is lent.
    Lent(u32),
    /// A reference to the interface of a load or a shadow.
    Target(u32),
}

/// A command of a client. Structs, targets, methods and script names are numbers.
#[derive(Debug, Drop)]
pub enum Command {
    /// Makes an object whose first cells have these values.
    Let {
        name: u32,
        ty: u32,
        values: List<u64>,
    },
    /// Makes an object whose first cells have these bytes.
    Text {
        name: u32,
        ty: u32,
        bytes: List<u8>,
    },
    /// Calls a method of a target. The names are bound to its results.
    Call {
        target: u32,
        method: u32,
        args: List<ScriptArg>,
        names: List<u32>,
    },
    /// Lists the cells of an object.
    Show(u32),
    /// Gives an object up.
    Drop(u32),
    /// Ends the target's current instance.
    Kill(u32),
}

/// A load: a domain that is to run, with the targets that its imports are bound to, in the order of
/// its imports.
#[derive(Debug, Drop)]
pub struct LoadRow {
    pub name: Name,
    /// The domain's number, from 0.
    pub domain: u32,
    /// Whether one thread at a time may be in it.
    pub serial: bool,
    pub binds: List<u32>,
}

/// A shadow: it stands for a load, and reloads it at most so often after it has ended (RedLeaf,
/// section 3.2).
#[derive(Debug, Drop)]
pub struct ShadowRow {
    pub name: Name,
    /// The load's number, from 1.
    pub load: u32,
    pub restarts: u8,
}

/// A client and its script.
#[derive(Debug, Drop)]
pub struct ClientRow {
    pub name: Name,
    pub commands: List<Command>,
}

/// The rows of a load. Loads are numbered from 1, shadows on after them: these numbers are the
/// targets. Clients are numbered from 1.
#[derive(Debug, Drop)]
pub struct LoadRows {
    pub tables: SharedTables,
    pub domains: List<CheckedDomain>,
    pub loads: List<LoadRow>,
    pub shadows: List<ShadowRow>,
    pub clients: List<ClientRow>,
    /// The clients that the plan's order line names, in its order.
    pub order: List<u32>,
    /// The fuel that each command begins with.
    pub fuel: u32,
    /// The load that has the block device, 0 where none has.
    pub device_load: u32,
    /// How many blocks the device has.
    pub blocks: u32,
}

/// A load whose rows are valid: what an accepted bundle stands for. Contracts see its rows.
#[derive(Debug, Drop)]
pub struct Load {
    rows: LoadRows,
}

impl Model for Load {
    ghost use Rattle.rl_defs.specs.declared.load.LoadRows.{LoadRows as Rows};
    ghost use Rattle.rl_defs.specs.Valid.{Valid as IsValid};

    ghost Value = { Rows };

    ghost view = { λ l. l.rows };

    ghost invariant = { λ l. IsValid l.rows };
}

impl Load {
    /// The load of valid rows.
    pub fn new(rows: LoadRows) -> Load
        requires { Valid rows }
        ensures { result ≡ rows }
    {
        Load { rows }
    }

    /// The rows, which are valid.
    pub fn rows(&self) -> &LoadRows
        ensures value { result.now ≡ self.now }
        ensures valid { Valid self.now }
    {
        &self.rows
    }
}
