//! The order list.
ghost use Rattle.std.specs.Prelude.{◌≡◌, ℕ, ◌+◌, ◌%◌, ◌==◌, ◌<◌, ◌≤◌, ◌++◌, length, filter, not, All, IfOk, OnOk, slice_index};
ghost use Rattle.std.specs.List.{list_any, range_with_len};
ghost use Rattle.machine_defs.specs.Runs.{order_of};
ghost use Rattle.turn_order.specs.Rounds.{round_from, is_on};

use rl_defs::load::Load;
use std::alloc::{AllocError, Global};
use std::marker::Model;

/// The order list of a load. Contracts see it as the list of its clients.
#[derive(Debug, Drop)]
pub struct Order {
    clients: Vec<u32>,
}

impl Model for Order {
    ghost use Rattle.std.specs.Prelude.{List, ℕ};

    ghost Value = { List ℕ };

    ghost view = { λ o. o.clients.items };
}

impl Order {
    /// The clients that the plan's order names, and then the others in the order of the text.
    pub fn new(alloc: Global, load: &Load) -> Result<Order, AllocError>
        ensures { IfOk result (λ o. o ≡ order_of load.now) }
    {
        let rows = load.rows();
        let named = named_by(rows.order.as_slice());
        let mut clients = Vec::new(alloc);
        clients.extend_from_slice(rows.order.as_slice())?;
        put_others(&mut clients, named, rows.clients.len())?;
        Ok(Order { clients })
    }

    /// How many places the list has.
    pub fn len(&self) -> usize
        ensures { result ≡ length self.now }
    {
        self.clients.len()
    }

    /// The clients of the list, in order.
    pub fn as_slice(&self) -> &[u32]
        ensures { result.now ≡ self.now }
    {
        self.clients.as_slice()
    }

    /// The client that stands `step` places on from `place`, going round.
    pub fn client(&self, place: usize, step: usize) -> u32
        requires place { place ≤ length self.now }
        requires step { step < length self.now }
        ensures { result ≡ slice_index (round_from self.now place) step }
    {
        self.clients[self.round(place, step)]
    }

    /// The place after the one that is `step` places on from `place`, going round.
    pub fn after(&self, place: usize, step: usize) -> usize
        requires place { place ≤ length self.now }
        requires step { step < length self.now }
        ensures value { result ≡ (place + step + 1) % length self.now }
        ensures within { result < length self.now }
    {
        let last = self.clients.len() - 1;
        let at = self.round(place, step);
        if at == last { 0 } else { at + 1 }
    }

    // The place that is `step` places on from `place`, going round.
    fn round(&self, place: usize, step: usize) -> usize
        requires place { place ≤ length self.now }
        requires step { step < length self.now }
        ensures value { result ≡ (place + step) % length self.now }
        ensures within { result < length self.now }
    {
        let to_end = self.clients.len() - place;
        if step < to_end {
            place + step
        } else {
            step - to_end
        }
    }
}

// Which clients the plan's order names, each at the place before its number.
fn named_by(order: &[u32]) -> [bool; 16]
    requires { All (λ t. (1 ≤ t) × (t ≤ 16)) order.now }
    ensures { (t : ℕ) → 1 ≤ t → t ≤ 16 → is_on result t ≡ list_any (λ u. u == t) order.now }
{
    let mut named = [false; 16];
    'clients: for client in order {
        named[*client as usize - 1] = true;
    }
    named
}

// Puts the clients that aren't named last, in the order of their numbers.
fn put_others(clients: &mut Vec<u32>, named: [bool; 16], count: usize) -> Result<(), AllocError>
    requires { count ≤ 16 }
    ensures { OnOk result (clients.new.items
        ≡ clients.old.items ++ filter (λ t. not (is_on named t)) (range_with_len 1 count)) }
{
    'others: for place in 0..count {
        if named[place] {
            continue 'others;
        }
        clients.push(place as u32 + 1)?;
    }
    Ok(())
}
