//! Arguments, owners, error codes and causes.

/// Who owns an object: a client or an instance, by its number.
#[derive(Clone, Copy, Debug, PartialEq, Eq)]
pub enum Owner {
    Client(u32),
    Instance(u32),
}

/// An argument of a call.
#[derive(Clone, Copy, Debug, PartialEq, Eq)]
pub enum Arg {
    Num(u64),
    /// An object that passes to the called instance.
    Moved(u64),
    /// An object that is lent until the call ends.
    Lent(u64),
    /// A reference to the interface of a load or a shadow.
    Cap(u32),
}

// What stands at the unused places of a short list.
impl Default for Arg {
    ghost use Rattle.std.specs.Prelude.{◌≡◌};
    ghost use Rattle.machine_defs.specs.declared.values.Arg.TheVariants as arg;

    ghost is_default = { λ a. a ≡ arg.Num 0 };

    fn default() -> Self {
        Arg::Num(0)
    }
}

/// Why a call failed: the error that RedLeaf's proxies return in place of a result (section 3.1,
/// `RpcResult`).
#[derive(Clone, Copy, Debug, PartialEq, Eq)]
pub enum RpcCode {
    /// The target had ended, and no restart was left.
    Gone = 1,
    /// The called instance ended before the call returned.
    Unwound = 2,
    /// The thread had as many frames as a stack may have.
    Deep = 3,
    /// The call would enter a serial domain against the order of ranks.
    Order = 4,
}

/// Why an instance trapped.
#[derive(Clone, Copy, Debug, PartialEq, Eq)]
pub enum Cause {
    /// A division by 0.
    Divide,
    /// A cell or a word that isn't there, or a cell that holds no number.
    Bounds,
    /// A number that is too wide for the cell, parameter or result that it is meant for.
    Range,
    /// An empty slot or cell was to be taken from.
    Empty,
    /// A full slot or cell was to be filled.
    Full,
    /// A block that isn't there, or an instance that isn't the device's.
    Device,
    /// The shared heap has as many objects as it may have.
    HeapFull,
    /// The fuel was used up.
    Fuel,
    /// The code asked for it.
    Asked,
    /// A native body met a failed or damaged disk.
    Io,
}
