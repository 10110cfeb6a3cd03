//! The data of the domain machine, and the definitions that contracts cite.
//!
//! RedLeaf (OSDI 2020) keeps kernel parts, *domains*, apart by language safety alone. This crate
//! has what all layers of the model share: names, tables of interfaces, domain code, loads, frames,
//! actions and the entries of a history. `specs/` has the machine itself: its states, its steps and
//! its runs.
#![tactic(auto)]

ghost use Rattle.std.specs.Prelude.{◌≡◌};
ghost use Rattle.rl_defs.specs.declared.LoadFault.TheVariants as fault;

pub mod bundle;
pub mod checked;
pub mod code;
pub mod copies;
pub mod idl;
pub mod lexeme;
pub mod list;
pub mod load;
pub mod lookups;
pub mod name;
pub mod tables;
pub mod values;

use std::alloc::{AllocError, AllocFailed};

/// A line of a bundle that a rule refuses: the line, from 1, and the rule's number.
#[derive(Clone, Copy, Debug, PartialEq, Eq)]
pub struct Refusal {
    pub line: u32,
    pub rule: u8,
}

/// Why a bundle or a part of it gives no value.
#[derive(Clone, Copy, Debug, PartialEq, Eq)]
pub enum LoadFault {
    /// A rule refuses it.
    Refused(Refusal),
    /// Memory ran out.
    Memory,
}

/// The bytes that a bundle may have.
pub const LONGEST_BUNDLE: usize = 1_048_576;

impl LoadFault {
    /// The fault of a line, from 1, that a rule refuses.
    pub fn refused(line: u32, rule: u8) -> LoadFault
        ensures { result ≡ fault.Refused (record { line = line; rule = rule }) }
    {
        LoadFault::Refused(Refusal { line, rule })
    }
}

impl From<AllocError> for LoadFault {
    ghost use Rattle.std.specs.Prelude.{◌≡◌};
    ghost use Rattle.rl_defs.specs.declared.LoadFault.TheVariants as fault;

    ghost from_gives = { λ _ e. e ≡ fault.Memory };

    fn from(_error: AllocError) -> LoadFault {
        LoadFault::Memory
    }
}

// What couldn't be stored is let go.
impl<T: Drop> From<AllocFailed<T>> for LoadFault {
    ghost use Rattle.std.specs.Prelude.{◌≡◌};
    ghost use Rattle.rl_defs.specs.declared.LoadFault.TheVariants as fault;

    ghost from_gives = { λ _ e. e ≡ fault.Memory };

    fn from(_error: AllocFailed<T>) -> LoadFault {
        LoadFault::Memory
    }
}
