//! The first root of each owner.
ghost use Rattle.std.specs.Prelude.{◌≡◌, ◌<◌, [], length, OnOk, OnErr};
ghost use Rattle.std.specs.List.{slice_index_or};
ghost use Rattle.rref_heap.specs.Links.{first_in, HasFirst, with_first, first_after, Widened};

use machine_defs::values::Owner;
use std::alloc::{AllocError, Global};
use std::marker::Model;

/// The number of the first root of each client and of each instance, 0 where it has none.
#[derive(Drop)]
pub struct Firsts {
    clients: Vec<u64>,
    instances: Vec<u64>,
}

impl Model for Firsts {
    ghost use Rattle.rref_heap.specs.Links.{FirstRows};

    ghost Value = { FirstRows };

    ghost view = { λ f. record { clients = f.clients.items; instances = f.instances.items } };
}

fn first_of(rows: &[u64], number: u32) -> u64
    ensures { result ≡ slice_index_or rows.now number 0 }
{
    match rows.get(number as usize) {
        Some(&first) => first,
        None => 0,
    }
}

// Sees to it that the number has a row.
fn widen(rows: &mut Vec<u64>, number: u32) -> Result<(), AllocError>
    ensures wide { OnOk result (number < length rows.new.items) }
    ensures same { Widened rows.old.items rows.new.items }
    ensures err { OnErr result (rows.new.items ≡ rows.old.items) }
{
    let wanted = number as usize + 1;
    if rows.len() < wanted {
        rows.resize(wanted, 0)?;
    }
    Ok(())
}

impl Firsts {
    /// No owners.
    pub fn new(alloc: Global) -> Firsts
        ensures { result ≡ record { clients = []; instances = [] } }
    {
        Firsts {
            clients: Vec::new(alloc),
            instances: Vec::new(alloc),
        }
    }

    /// The number of an owner's first root, 0 where it has none.
    pub fn get(&self, owner: Owner) -> u64
        ensures { result ≡ first_in self.now owner }
    {
        match owner {
            Owner::Client(c) => first_of(&self.clients, c),
            Owner::Instance(i) => first_of(&self.instances, i),
        }
    }

    /// The owner's first root is another one.
    pub fn set(&mut self, owner: Owner, first: u64)
        requires { HasFirst self.old owner }
        ensures { self.new ≡ with_first self.old owner first }
    {
        match owner {
            Owner::Client(c) => self.clients[c as usize] = first,
            Owner::Instance(i) => self.instances[i as usize] = first,
        }
    }

    /// The root after an owner's first becomes its first, where `prev` is 0: the root that goes was
    /// the first.
    pub fn set_after(&mut self, owner: Owner, prev: u64, next: u64)
        requires { prev ≡ 0 → HasFirst self.old owner }
        ensures { self.new ≡ first_after self.old owner prev next }
    {
        if prev == 0 {
            self.set(owner, next);
        }
    }

    /// Sees to it that the owner has a row. After `AllocError` all is as before.
    pub fn open(&mut self, owner: Owner) -> Result<(), AllocError>
        ensures has { OnOk result (HasFirst self.new owner) }
        ensures clients { Widened self.old.clients self.new.clients }
        ensures instances { Widened self.old.instances self.new.instances }
        ensures err { OnErr result (self.new ≡ self.old) }
    {
        match owner {
            Owner::Client(c) => widen(&mut self.clients, c),
            Owner::Instance(i) => widen(&mut self.instances, i),
        }
    }
}
