//! The scopes in which a name is given once.
ghost use Rattle.std.specs.Prelude.{◌≡◌, ℕ, ◌-◌, ◌^◌, ◌<◌, [], Some, None, OnOk, IfOk};
ghost use Rattle.bundle_names.specs.Scopes.{behind, repeats, names_in, with_name, has_name, rule_when};

use name_tables::names::Names;
use rl_defs::name::Name;
use std::alloc::{AllocError, Global};
use std::marker::Model;

/// What a line is for a scope of names.
#[derive(Clone, Copy, Debug)]
pub enum Role {
    /// It opens the scope.
    Opens,
    /// It gives a name in it.
    Gives(Name),
    /// It stands in it and gives no name.
    Passes,
    /// It ends it.
    Ends,
}

/// The names of a scope, which is open or isn't. Where it ends their memory is kept, for the next
/// scope of its kind.
#[derive(Drop)]
pub struct ScopeNames {
    names: Names,
    is_open: bool,
}

impl Model for ScopeNames {
    ghost use Rattle.std.specs.Prelude.{List, ℕ, Option, Some, None, cond};

    ghost Value = { Option (List (List ℕ)) };

    ghost view = { λ s. cond s.is_open (Some s.names) None };
}

impl ScopeNames {
    /// An open scope that has no names yet, with room for as many as are counted.
    pub fn opened(alloc: Global, count: usize) -> ScopeNames
        ensures { result ≡ Some [] }
    {
        ScopeNames {
            names: Names::with_room(alloc, count),
            is_open: true,
        }
    }

    /// No open scope.
    pub fn closed(alloc: Global) -> ScopeNames
        ensures { result ≡ None }
    {
        ScopeNames {
            names: Names::new(alloc),
            is_open: false,
        }
    }

    /// Opens the next scope.
    pub fn open(&mut self)
        ensures { self.new ≡ Some [] }
    {
        self.names.clear();
        self.is_open = true;
    }

    /// Ends the scope.
    pub fn close(&mut self)
        ensures { self.new ≡ None }
    {
        self.is_open = false;
    }

    // Gives a name in the scope, where it is open, and tells whether the scope has it.
    fn give(&mut self, name: &Name) -> Result<bool, AllocError>
        requires room { names_in self.old < 2 ^ 32 - 1 }
        ensures behind { OnOk result (self.new ≡ with_name name.now self.old) }
        ensures repeats { IfOk result (λ again. again ≡ has_name name.now self.old) }
    {
        if !self.is_open {
            return Ok(false);
        }
        Ok(self.names.add(name)?.is_some())
    }
}

/// Takes a line into a scope, which is open or isn't, and tells whether the line gives a name that
/// the scope has.
pub fn pass(scope: &mut ScopeNames, role: Role) -> Result<bool, AllocError>
    requires room { names_in scope.old < 2 ^ 32 - 1 }
    ensures behind { OnOk result (scope.new ≡ behind role scope.old) }
    ensures repeats { IfOk result (λ again. again ≡ repeats role scope.old) }
{
    match role {
        Role::Opens => {
            scope.open();
            Ok(false)
        }
        Role::Gives(name) => scope.give(&name),
        Role::Passes => Ok(false),
        Role::Ends => {
            scope.close();
            Ok(false)
        }
    }
}

/// The lower of the rules 3 and 4 that fails at a line which gives a name again, or uses one that
/// nothing declares.
pub fn rule_when(repeats: bool, unknown: bool) -> Option<u8>
    ensures { result ≡ rule_when repeats unknown }
{
    if repeats {
        Some(3)
    } else if unknown {
        Some(4)
    } else {
        None
    }
}
