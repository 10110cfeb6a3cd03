//! The open calls of each thread, and who acts for it.
ghost use Rattle.std.specs.Prelude.{◌≡◌, ℕ, ◌<◌, ◌==◌, [], List, filter, map, not, length, OnOk};
ghost use Rattle.machine_defs.specs.History.{OpenCall as ToldCall, actor_in};
ghost use Rattle.heap_report.specs.KeptCalls.{AreCallsKept, TellsThreads, calls_of, moved_to, told_to};

use crate::entries::thread_of;
use machine_defs::entry::Entry;
use machine_defs::values::Owner;
use std::alloc::{AllocError, Global};
use std::marker::Model;

/// A call that is open, and the instance that it is in.
#[derive(Clone, Copy, Debug)]
pub struct Opened {
    pub call: u32,
    pub inside: u32,
}

/// The open calls of a thread, the oldest first. Contracts see the list of them.
#[derive(Debug, Drop)]
pub struct ThreadCalls {
    items: Vec<Opened>,
}

impl Model for ThreadCalls {
    ghost use Rattle.std.specs.Prelude.{List};
    ghost use Rattle.heap_report.specs.declared.calls.Opened.{Opened};

    ghost Value = { List Opened };

    ghost view = { λ c. c.items.items };
}

impl ThreadCalls {
    /// None yet.
    pub fn new(alloc: Global) -> ThreadCalls
        ensures { result ≡ [] }
    {
        ThreadCalls {
            items: Vec::new(alloc),
        }
    }

    /// Who acts for the thread: the instance that the newest call is in, or the client.
    pub fn actor(&self, thread: u32) -> Owner
        ensures { (os : List ToldCall) → AreCallsKept self.now os → result ≡ actor_in thread os }
    {
        match self.items.last() {
            Some(newest) => Owner::Instance(newest.inside),
            None => Owner::Client(thread),
        }
    }

    // A call that returned or was unwound is no longer open.
    fn close(&mut self, call: u32)
        ensures { self.new ≡ filter (λ o. not (o.call == call)) self.old }
    {
        self.items.retain(|o| o.call != call);
    }

    // A call that was issued again is in another instance.
    fn move_to(&mut self, call: u32, instance: u32)
        ensures { self.new ≡ map (moved_to call instance) self.old }
    {
        'each: for o in self.items.iter_mut() {
            *o = moved_to(*o, call, instance);
        }
    }

    /// Notes what an entry of the thread does to its open calls.
    pub fn tell(&mut self, entry: &Entry) -> Result<(), AllocError>
        ensures { OnOk result (self.new ≡ told_to entry.now self.old) }
    {
        match entry {
            Entry::Call { call, instance, .. } => {
                self.items.push(Opened {
                    call: *call,
                    inside: *instance,
                })?;
            }
            Entry::Ret { call, .. } | Entry::Unwound { call, .. } => {
                self.close(*call);
            }
            Entry::Again { call, instance, .. } => {
                self.move_to(*call, *instance);
            }
            _ => {}
        }
        Ok(())
    }
}

// What a call is once another one is issued again in another instance: moved to that, or as it was.
fn moved_to(o: Opened, call: u32, instance: u32) -> Opened
    ensures { result ≡ moved_to call instance o }
{
    if o.call == call {
        Opened {
            inside: instance,
            ..o
        }
    } else {
        o
    }
}

/// Who acts for a thread.
pub fn actor(threads: &[ThreadCalls], thread: u32) -> Owner
    ensures { (os : List ToldCall) → AreCallsKept (calls_of threads.now thread) os → result ≡ actor_in thread os }
{
    match threads.get(thread as usize) {
        Some(calls) => calls.actor(thread),
        None => Owner::Client(thread),
    }
}

// Keeps calls of the thread with this number.
fn make_room(alloc: Global, threads: &mut Vec<ThreadCalls>, thread: usize) -> Result<(), AllocError>
    ensures same { (t : ℕ) → calls_of threads.new.items t ≡ calls_of threads.old.items t }
    ensures room { OnOk result (thread < length threads.new.items) }
{
    'more: while threads.len() <= thread {
        threads.push(ThreadCalls::new(alloc))?;
    }
    Ok(())
}

/// Notes what an entry does to the open calls of its thread.
pub fn tell(alloc: Global, threads: &mut Vec<ThreadCalls>, entry: &Entry) -> Result<(), AllocError>
    ensures { OnOk result (TellsThreads entry.now threads.old.items threads.new.items) }
{
    let thread = thread_of(entry) as usize;
    make_room(alloc, threads, thread)?;
    threads[thread].tell(entry)
}
