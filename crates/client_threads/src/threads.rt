//! The threads of all clients.
ghost use Rattle.std.specs.Prelude.{◌≡◌, ◌+◌, ◌<◌, ◌^◌, length, map, true, IfOk, Some};
ghost use Rattle.std.specs.Option.{option_copied};
ghost use Rattle.rl_defs.specs.Rows.{row};
ghost use Rattle.machine_defs.specs.State.{first_thread, Thread as Row};
ghost use Rattle.machine_defs.specs.Frames.{bind};
ghost use Rattle.machine_defs.specs.Calling.{with_fuel, is_undone};
ghost use Rattle.machine_defs.specs.ObjectRows.{without_name};
ghost use Rattle.machine_defs.specs.Seen.{change_row};
ghost use Rattle.client_threads.specs.GivenUp.{given_up_names};

use crate::thread::Thread;
use rl_defs::load::{Load, ScriptArg};
use rl_defs::values::Value;
use std::alloc::{AllocError, Global};
use std::marker::Model;

/// The threads of all clients, by their numbers from 1. Contracts see them as a list. Where a
/// client of a number isn't there, a call that would change its thread changes nothing.
#[derive(Debug, Drop)]
pub struct Threads {
    rows: Vec<Thread>,
}

impl Model for Threads {
    ghost use Rattle.std.specs.Prelude.{List};
    ghost use Rattle.machine_defs.specs.State.{Thread as Row};

    ghost Value = { List Row };

    ghost view = { λ s. s.rows.items };
}

impl Threads {
    /// A thread for each client of a load, before its first command.
    pub fn new(alloc: Global, load: &Load) -> Result<Threads, AllocError>
        ensures { IfOk result (λ s. s ≡ map first_thread load.now.clients) }
    {
        let mut rows = Vec::new(alloc);
        'clients: for client in load.rows().clients.as_slice() {
            rows.push(Thread::first(alloc, client)?)?;
        }
        Ok(Threads { rows })
    }

    /// How many threads there are.
    pub fn len(&self) -> usize
        ensures { result ≡ length self.now }
    {
        self.rows.len()
    }

    /// Whether the thread of client `t` is not done. It is false where there is no such client.
    pub fn is_undone(&self, t: u32) -> bool
        ensures { result ≡ is_undone (row self.now t) }
    {
        match self.thread(t) {
            Some(thread) => !thread.is_done(),
            None => false,
        }
    }

    /// The thread of client `t`. None exactly where there is no such client.
    pub fn thread(&self, t: u32) -> Option<&Thread>
        ensures { option_copied result ≡ row self.now t }
    {
        if t == 0 {
            return None;
        }
        self.rows.get(t as usize - 1)
    }

    /// Gives the thread of client `t` this much fuel. Nothing else changes.
    pub fn set_fuel(&mut self, t: u32, fuel: u32)
        ensures { self.new ≡ change_row self.old t (with_fuel fuel) (row self.old t) }
    {
        if t == 0 || t as usize > self.rows.len() {
            return;
        }
        self.rows[t as usize - 1].set_fuel(fuel);
    }

    /// The script of client `t` has ended. Nothing else changes.
    pub fn finish(&mut self, t: u32)
        ensures { self.new ≡ change_row self.old t (λ x. record x { done = true }) (row self.old t) }
    {
        if t == 0 || t as usize > self.rows.len() {
            return;
        }
        self.rows[t as usize - 1].finish();
    }

    /// A name of the script of client `t` holds nothing any more. Nothing else changes.
    pub fn unbind(&mut self, t: u32, k: u32)
        ensures { self.new ≡ change_row self.old t (without_name k) (row self.old t) }
    {
        if t == 0 || t as usize > self.rows.len() {
            return;
        }
        self.rows[t as usize - 1].unbind(k);
    }

    /// The names among the arguments that hold an object hold nothing any more: the call of client
    /// `t` moves those objects. Nothing else changes.
    pub fn give_up(&mut self, t: u32, args: &[ScriptArg])
        ensures { self.new
            ≡ change_row self.old t (λ x. record x { names = given_up_names args.now x.names }) (row self.old t) }
    {
        if t == 0 || t as usize > self.rows.len() {
            return;
        }
        self.rows[t as usize - 1].give_up(args);
    }

    /// The command of client `t` is done: its names hold the results, and the next command comes.
    /// Nothing else changes.
    pub fn end_command(&mut self, t: u32, names: &[u32], results: &[Value])
        requires { (x : Row) → row self.old t ≡ Some x → x.place + 1 < 2 ^ 32 }
        ensures { self.new ≡ change_row self.old t
            (λ x. record x { place = x.place + 1; names = bind names.now results.now x.names }) (row self.old t) }
    {
        if t == 0 || t as usize > self.rows.len() {
            return;
        }
        self.rows[t as usize - 1].end_command(names, results);
    }
}
