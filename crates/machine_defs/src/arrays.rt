//! Short lists that never take memory, one type for each item and size that is used. Contracts see
//! each as the list of its items.
ghost use Rattle.std.specs.Prelude.{◌≡◌, [], ◌∷◌, ◌++◌, ◌<◌, ◌≤◌, length, slice_set, replicate, None};
ghost use Rattle.std.specs.List.{slice_index_or};

use crate::values::Arg;
use arrayvec::ArrayVec;
use rl_defs::code::Register;
use rl_defs::values::Value;
use std::marker::Model;

/// The arguments of a call, at most 8.
#[derive(Debug, Drop)]
pub struct Args {
    items: ArrayVec<Arg, 8>,
}

impl Model for Args {
    ghost use Rattle.std.specs.Prelude.{List};
    ghost use Rattle.machine_defs.specs.declared.values.Arg.{Arg};

    ghost Value = { List Arg };

    ghost view = { λ a. a.items.items };
}

impl Args {
    /// None yet.
    pub fn new() -> Args
        ensures { result ≡ [] }
    {
        Args {
            items: ArrayVec::new(),
        }
    }

    /// How many there are.
    pub fn len(&self) -> usize
        ensures { result ≡ length self.now }
    {
        self.items.len()
    }

    /// All of them, in order.
    pub fn as_slice(&self) -> &[Arg]
        ensures value { result.now ≡ self.now }
        ensures few { length self.now ≤ 8 }
    {
        self.items.as_slice()
    }

    /// Puts one last.
    pub fn push(&mut self, item: Arg)
        requires { length self.old < 8 }
        ensures { self.new ≡ self.old ++ item ∷ [] }
    {
        self.items.push(item);
    }

    /// The same arguments once more.
    pub fn copied(&self) -> Args
        ensures { result ≡ self.now }
    {
        let mut all = Args::new();
        'each: for arg in self.as_slice() {
            all.push(*arg);
        }
        all
    }
}

/// The results of a call, at most 4.
#[derive(Debug, Drop)]
pub struct Results {
    items: ArrayVec<Value, 4>,
}

impl Model for Results {
    ghost use Rattle.std.specs.Prelude.{List};
    ghost use Rattle.rl_defs.specs.declared.values.Value.{Value as Held};

    ghost Value = { List Held };

    ghost view = { λ a. a.items.items };
}

impl Results {
    /// None yet.
    pub fn new() -> Results
        ensures { result ≡ [] }
    {
        Results {
            items: ArrayVec::new(),
        }
    }

    /// How many there are.
    pub fn len(&self) -> usize
        ensures { result ≡ length self.now }
    {
        self.items.len()
    }

    /// All of them, in order.
    pub fn as_slice(&self) -> &[Value]
        ensures value { result.now ≡ self.now }
        ensures few { length self.now ≤ 4 }
    {
        self.items.as_slice()
    }

    /// Puts one last.
    pub fn push(&mut self, item: Value)
        requires { length self.old < 4 }
        ensures { self.new ≡ self.old ++ item ∷ [] }
    {
        self.items.push(item);
    }
}

/// At most 8 objects, by their numbers.
#[derive(Debug, Drop)]
pub struct Objects {
    items: ArrayVec<u64, 8>,
}

impl Model for Objects {
    ghost use Rattle.std.specs.Prelude.{List, ℕ};

    ghost Value = { List ℕ };

    ghost view = { λ a. a.items.items };
}

impl Objects {
    /// None yet.
    pub fn new() -> Objects
        ensures { result ≡ [] }
    {
        Objects {
            items: ArrayVec::new(),
        }
    }

    /// How many there are.
    pub fn len(&self) -> usize
        ensures { result ≡ length self.now }
    {
        self.items.len()
    }

    /// All of them, in order.
    pub fn as_slice(&self) -> &[u64]
        ensures value { result.now ≡ self.now }
        ensures few { length self.now ≤ 8 }
    {
        self.items.as_slice()
    }

    /// Puts one last.
    pub fn push(&mut self, item: u64)
        requires { length self.old < 8 }
        ensures { self.new ≡ self.old ++ item ∷ [] }
    {
        self.items.push(item);
    }
}

/// The values of cells, at most 512.
#[derive(Debug, Drop)]
pub struct Numbers {
    items: ArrayVec<u64, 512>,
}

impl Model for Numbers {
    ghost use Rattle.std.specs.Prelude.{List, ℕ};

    ghost Value = { List ℕ };

    ghost view = { λ a. a.items.items };
}

impl Numbers {
    /// None yet.
    pub fn new() -> Numbers
        ensures { result ≡ [] }
    {
        Numbers {
            items: ArrayVec::new(),
        }
    }

    /// How many there are.
    pub fn len(&self) -> usize
        ensures { result ≡ length self.now }
    {
        self.items.len()
    }

    /// All of them, in order.
    pub fn as_slice(&self) -> &[u64]
        ensures value { result.now ≡ self.now }
        ensures few { length self.now ≤ 512 }
    {
        self.items.as_slice()
    }

    /// Puts one last.
    pub fn push(&mut self, item: u64)
        requires { length self.old < 512 }
        ensures { self.new ≡ self.old ++ item ∷ [] }
    {
        self.items.push(item);
    }
}

/// The registers of a code frame, `r0` to `r31`. An empty register is None.
#[derive(Debug, Drop)]
pub struct Registers {
    items: [Option<Value>; 32],
}

impl Model for Registers {
    ghost use Rattle.std.specs.Prelude.{List, Option, length, ◌≡◌};
    ghost use Rattle.rl_defs.specs.declared.values.Value.{Value as Held};

    ghost Value = { List (Option Held) };

    ghost view = { λ r. r.items };

    ghost invariant = { λ r. length r.items ≡ 32 };
}

impl Registers {
    /// Registers that are all empty.
    pub fn new() -> Registers
        ensures { result ≡ replicate 32 None }
    {
        Registers { items: [None; 32] }
    }

    /// What a register holds.
    pub fn get(&self, register: Register) -> Option<Value>
        ensures value { result ≡ slice_index_or self.now register.number None }
        ensures count { length self.now ≡ 32 }
    {
        self.items[register.number as usize]
    }

    /// Gives a register something else to hold, or empties it.
    pub fn set(&mut self, register: Register, value: Option<Value>)
        ensures { self.new ≡ slice_set self.old register.number value }
    {
        self.items[register.number as usize] = value;
    }

    /// What all registers hold, in order.
    pub fn as_slice(&self) -> &[Option<Value>]
        ensures value { result.now ≡ self.now }
        ensures count { length self.now ≡ 32 }
    {
        &self.items
    }

    /// The same registers once more.
    pub fn copied(&self) -> Registers
        ensures value { result ≡ self.now }
        ensures count { length self.now ≡ 32 }
    {
        Registers { items: self.items }
    }

    /// Holds what others hold, in the place where these stand.
    pub fn copy_from(&mut self, others: &Registers)
        ensures { self.new ≡ others.now }
    {
        self.items = others.items;
    }
}
