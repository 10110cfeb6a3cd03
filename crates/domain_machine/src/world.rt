//! A machine with its order list.
ghost use Rattle.std.specs.Prelude.{◌≡◌, ◌<◌, ◌≤◌, ◌+◌, [], IfOk, IsTrue, ◌↔◌, length};
ghost use Rattle.rl_defs.specs.Valid.{Valid};
ghost use Rattle.machine_defs.specs.State.{start};
ghost use Rattle.machine_defs.specs.Runs.{Run, order_of};
ghost use Rattle.machine_defs.specs.Calling.{is_enabled};
ghost use Rattle.rref_heap.specs.HeapValue.{heap_objects};
ghost use Rattle.machine_steps.specs.Kept.{TurnsAreShort, IsCodeAlone, Agrees};
ghost use Rattle.machine_steps.specs.Turns.{TurnAnswers};
ghost use Rattle.domain_machine.specs.Finished.{FinishAnswers};
ghost use Rattle.domain_machine.specs.Going.{RoundAnswers};

use machine_defs::log::Log;
use machine_laws::{some_thread_is_enabled, states_are_sound};
use machine_steps::{Machine, Standing, Turn, is_code_alone};
use rl_defs::load::Load;
use rref_heap::Heap;
use std::alloc::{AllocError, Global};
use std::marker::Model;
use turn_order::Order;
use turn_order::laws::first_enabled_comes_next;

/// How a run ended.
#[derive(Clone, Copy, Debug, PartialEq, Eq)]
pub enum Finish {
    /// Every client is done.
    Whole,
    /// Not every client is done, and the log has 262,144 entries or more.
    Long,
    /// A step needs memory, and there was none.
    Memory,
}

/// Whether the machine can run a load: none is of a domain with a native body.
pub fn builds(load: &Load) -> bool
    ensures { IsTrue result ↔ IsCodeAlone load.now }
{
    is_code_alone(load)
}

/// A machine, ready to be run in the order of its order list. Contracts see the machine.
#[derive(Drop)]
pub struct World {
    machine: Machine,
    order: Order,
    stand: Standing,
    alloc: Global,
}

impl Model for World {
    ghost use Rattle.std.specs.Prelude.{◌≡◌};
    ghost use Rattle.machine_steps.specs.Kept.{Kept};
    ghost use Rattle.machine_defs.specs.Runs.{order_of as list_of};

    ghost Value = { Kept };

    ghost view = { λ w. w.machine };

    ghost invariant = { λ w. w.order ≡ list_of w.machine.load };
}

// What comes of going round the order list until a client's turn is made.
enum Round {
    // A client made a step. The next one is looked for from this place on.
    Went(usize),
    // Every client is done.
    AllDone,
    // A client could make a step, but the log is too long.
    Long,
    // A client's step needs memory, and there was none.
    Memory,
}

impl World {
    /// The start of a load, with an empty log.
    pub fn new(alloc: Global, load: Load) -> Result<World, AllocError>
        requires code { IsCodeAlone load }
        ensures { IfOk result (λ w. w ≡ record { load = load; log = []; state = start load }) }
    {
        let order = Order::new(alloc, &load)?;
        let machine = Machine::new(alloc, load)?;
        Ok(World {
            machine,
            order,
            stand: Standing::new(),
            alloc,
        })
    }

    /// The load.
    pub fn load(&self) -> &Load
        ensures { result.now ≡ self.now.load }
    {
        self.machine.load()
    }

    /// The log so far.
    pub fn log(&self) -> &Log
        ensures { result.now.entries ≡ self.now.log }
    {
        self.machine.log()
    }

    /// The shared heap. It has the objects of the state, and tells how often each is lent.
    pub fn heap(&self) -> &Heap
        ensures objects { heap_objects result.now.rows ≡ self.now.state.objects }
        ensures made { length result.now.rows + 1 ≡ self.now.state.next_object }
        ensures agrees { Agrees self.now.load self.now.state result.now.rows }
    {
        self.machine.heap()
    }

    /// How many instances were made.
    pub fn opened(&self) -> u32
        ensures { result ≡ length self.now.state.instances }
    {
        self.machine.opened()
    }

    /// The log is a run of the load that leads to the state, and no turn of it began where it was
    /// too long.
    pub fn is_kept(&self)
        ensures valid { Valid self.now.load }
        ensures run { Run self.now.load self.now.log self.now.state }
        ensures turns { TurnsAreShort self.now.log }
        ensures few { length self.now.log ≤ 327680 }
        ensures code { IsCodeAlone self.now.load }
    {
        self.machine.is_kept();
    }

    /// Whether a client isn't done and doesn't wait.
    pub fn enabled(&self, t: u32) -> bool
        requires { (0 < t) × (t ≤ length self.now.load.clients) }
        ensures { result ≡ is_enabled self.now.load self.now.state t }
    {
        self.machine.enabled(t)
    }

    /// A client's turn: one step, if it is enabled.
    pub fn turn(&mut self, t: u32) -> Turn
        requires { (0 < t) × (t ≤ length self.old.load.clients) }
        ensures { TurnAnswers self.old self.new t result }
    {
        self.machine.turn(self.alloc, t, &mut self.stand)
    }

    /// Makes turns round the order list from its first place, until every client is done, or a turn
    /// can't be made.
    pub fn finish(&mut self) -> Finish
        ensures { FinishAnswers self.old self.new result }
    {
        let mut place = 0;
        'rounds: loop {
            match self.round(place) {
                Round::Went(next) => place = next,
                Round::AllDone => return Finish::Whole,
                Round::Long => return Finish::Long,
                Round::Memory => return Finish::Memory,
            }
        }
    }

    // Goes round the order list from a place on, until a client's turn is made.
    fn round(&mut self, place: usize) -> Round
        requires { place ≤ length (order_of self.old.load) }
        ensures { RoundAnswers self.old self.new place result }
    {
        self.machine.is_kept();
        states_are_sound();
        some_thread_is_enabled();
        first_enabled_comes_next();
        'steps: for step in 0..self.order.len() {
            let client = self.order.client(place, step);
            match self.turn(client) {
                Turn::Went => return Round::Went(self.order.after(place, step)),
                Turn::NotYet(_) => {}
                Turn::Done => {}
                Turn::Long => return Round::Long,
                Turn::Memory => return Round::Memory,
            }
        }
        Round::AllDone
    }
}
