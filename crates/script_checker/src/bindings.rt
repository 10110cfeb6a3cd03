//! The names of a script, with what they are bound to.
ghost use Rattle.std.specs.Prelude.{◌≡◌, [], ◌∷◌, ◌++◌, slice_get, OnOk, OnErr};
ghost use Rattle.rl_defs.specs.ScriptRules.{kind_of, is_among};
ghost use Rattle.rl_defs.specs.LoadOf.{name_number};
ghost use Rattle.script_checker.specs.Known.{nothing, bound_name};

use crate::names::add;
use name_tables::names::Names;
use rl_defs::name::Name;
use rl_defs::tables::Kind;
use std::alloc::{AllocError, Global};
use std::marker::Model;

/// The names that some lines of a script bind, what each is bound to, and those whose objects were
/// moved or dropped.
#[derive(Drop)]
pub struct Bindings {
    names: Names,
    kinds: Vec<Kind>,
    gone: Names,
}

impl Model for Bindings {
    ghost use Rattle.std.specs.Prelude.{length};
    ghost use Rattle.rl_defs.specs.ScriptRules.{paired};
    ghost use Rattle.script_checker.specs.Known.{Known, IsEven};

    ghost Value = { Known };

    ghost view = { λ s. record { names = s.names; bound = paired s.names s.kinds.items; gone = s.gone } };

    ghost invariant = { λ s. IsEven s.names s.kinds.items };
}

fn push(kinds: &mut Vec<Kind>, kind: Kind) -> Result<(), AllocError>
    ensures added { OnOk result (kinds.new.items ≡ kinds.old.items ++ kind ∷ []) }
    ensures full { OnErr result (kinds.new.items ≡ kinds.old.items) }
{
    kinds.push(kind)?;
    Ok(())
}

fn kind_at(kinds: &Vec<Kind>, place: u32) -> Option<Kind>
    ensures { result ≡ slice_get kinds.now.items place }
{
    kinds.get(place as usize).copied()
}

impl Bindings {
    /// No names.
    pub fn new(alloc: Global) -> Bindings
        ensures { result ≡ nothing }
    {
        Bindings {
            names: Names::new(alloc),
            kinds: Vec::new(alloc),
            gone: Names::new(alloc),
        }
    }

    /// What a name is bound to.
    pub fn kind_of(&self, name: &Name) -> Option<Kind>
        ensures { result ≡ kind_of self.now.bound name.now }
    {
        match self.names.place(name) {
            Some(place) => kind_at(&self.kinds, place),
            None => None,
        }
    }

    /// The number of a name, from 0 in the order in which the script binds them. It is 0 where the
    /// name isn't bound.
    pub fn number(&self, name: &Name) -> u32
        ensures { result ≡ name_number self.now.names name.now }
    {
        self.names.place(name).unwrap_or(0)
    }

    /// Whether the object of a name was moved or dropped.
    pub fn is_gone(&self, name: &Name) -> bool
        ensures { result ≡ is_among name.now self.now.gone }
    {
        self.gone.place(name).is_some()
    }

    /// Binds a name.
    pub fn bind(&mut self, name: &Name, kind: Kind) -> Result<(), AllocError>
        ensures { OnOk result (self.new ≡ record {
          names = self.old.names ++ name.now ∷ [];
          bound = self.old.bound ++ bound_name name.now kind ∷ [];
          gone = self.old.gone;
        }) }
    {
        push(&mut self.kinds, kind)?;
        match add(&mut self.names, name) {
            Ok(_) => Ok(()),
            Err(_) => {
                self.kinds.pop();
                Err(AllocError)
            }
        }
    }

    /// Notes that the object of a name was moved or dropped.
    pub fn leave(&mut self, name: &Name) -> Result<(), AllocError>
        ensures { OnOk result (self.new ≡ record {
          names = self.old.names;
          bound = self.old.bound;
          gone = self.old.gone ++ name.now ∷ [];
        }) }
    {
        add(&mut self.gone, name)?;
        Ok(())
    }
}
