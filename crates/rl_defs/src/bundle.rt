//! The lines of the plan and of the clients.

use crate::code::DomainText;
use crate::idl::Idl;
use crate::list::List;
use crate::name::Name;

/// A line's form with the number of its line, from 1.
#[derive(Debug, Drop)]
pub struct Numbered<F: Drop> {
    pub line: u32,
    pub form: F,
}

/// A line of the plan.
#[derive(Debug, Drop)]
pub enum PlanLine {
    /// `load NAME = DOMAIN`
    Load {
        name: Name,
        domain: Name,
    },
    /// `bind LOAD.IMPORT = TARGET`
    Bind {
        load: Name,
        import: Name,
        target: Name,
    },
    /// `shadow NAME = LOAD restarts N`
    Shadow {
        name: Name,
        load: Name,
        restarts: u64,
    },
    /// `device LOAD N`
    Device {
        load: Name,
        blocks: u64,
    },
    /// `serial LOAD`
    Serial(Name),
    /// `fuel N`
    Fuel(u64),
    /// `order CLIENT, CLIENT, ..`
    Order(List<Name>),
}

/// The lines of the plan, in order.
#[derive(Debug, Drop)]
pub struct Plan {
    pub lines: List<Numbered<PlanLine>>,
}

/// An argument of a client's call, as it is written.
#[derive(Clone, Copy, Debug)]
pub enum ScriptArgText {
    /// A number.
    Num(u64),
    /// `NAME`: a number that is copied, or an object that is moved.
    Name(Name),
    /// `&NAME`: an object that is lent.
    Lent(Name),
    /// `@TARGET`: a reference to the interface of a load or a shadow.
    Target(Name),
}

/// A line of the clients.
#[derive(Debug, Drop)]
pub enum ClientLine {
    /// `client NAME {`
    Client(Name),
    /// `let NAME = new STRUCT N, ..`
    Let {
        name: Name,
        ty: Name,
        values: List<u64>,
    },
    /// `text NAME = STRUCT TEXT`
    Text {
        name: Name,
        ty: Name,
        bytes: List<u8>,
    },
    /// `call TARGET.METHOD(SARG, ..) -> NAME, ..`
    Call {
        target: Name,
        method: Name,
        args: List<ScriptArgText>,
        names: List<Name>,
    },
    /// `show NAME`
    Show(Name),
    /// `drop NAME`
    Drop(Name),
    /// `kill TARGET`
    Kill(Name),
    /// `}`
    Close,
}

/// The lines of the clients, in order.
#[derive(Debug, Drop)]
pub struct Clients {
    pub lines: List<Numbered<ClientLine>>,
}

/// The lines of a bundle's parts. A part that is missing has none.
#[derive(Debug, Drop)]
pub struct Bundle {
    pub idl: Idl,
    pub domains: List<DomainText>,
    pub plan: Plan,
    pub clients: Clients,
}
