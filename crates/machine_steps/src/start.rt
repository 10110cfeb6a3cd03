//! The start of a machine, and what can be read of it.
ghost use Rattle.std.specs.Prelude.{◌≡◌, ◌<◌, ◌≤◌, [], ◌==◌, IfOk, IsTrue, ◌↔◌, length, ◌+◌};
ghost use Rattle.std.specs.List.{list_any};
ghost use Rattle.rl_defs.specs.Valid.{Valid};
ghost use Rattle.machine_defs.specs.State.{start};
ghost use Rattle.machine_defs.specs.Runs.{Run};
ghost use Rattle.rref_heap.specs.HeapValue.{heap_objects};
ghost use Rattle.machine_steps.specs.Kept.{TurnsAreShort, IsCodeAlone, Agrees};

use crate::known::laws;
use crate::machine::Machine;
use block_device::Blocks;
use client_threads::Threads;
use instance_table::Instances;
use machine_defs::log::Log;
use machine_defs::values::Owner;
use proxies::Proxies;
use rl_defs::load::{Load, LoadRow};
use rl_defs::lookups::is_native;
use rref_heap::Heap;
use shadow_domains::Shadows;
use std::alloc::{AllocError, Global};
use trampolines::Stacks;

// The entries of a log that no more turns begin behind, and those of the last turn.
const LOG_ROOM: usize = 327_680;

/// Whether no load is of a domain with a native body.
pub fn is_code_alone(load: &Load) -> bool
    ensures { IsTrue result ↔ IsCodeAlone load.now }
{
    let rows = load.rows();
    let domains = rows.domains.as_slice();
    'domains: for place in 0..domains.len() {
        if is_loaded(rows.loads.as_slice(), place) && is_native(domains[place].lines()) {
            return false;
        }
    }
    true
}

// Whether a load is of the domain with this number.
fn is_loaded(loads: &[LoadRow], domain: usize) -> bool
    ensures { result ≡ list_any (λ l. l.domain == domain) loads.now }
{
    loads.iter().any(|row| is_of(row, domain))
}

fn is_of(row: &LoadRow, domain: usize) -> bool
    ensures { result ≡ (row.now.domain == domain) }
{
    row.domain as usize == domain
}

// A log with room for all entries that it may get.
fn first_log(alloc: Global) -> Result<Log, AllocError>
    ensures { IfOk result (λ l. (l.entries ≡ []) × (327680 ≤ l.spare)) }
{
    let mut log = Log::new(alloc);
    log.reserve(LOG_ROOM)?;
    Ok(log)
}

// A heap without objects, in which clients and instances up to these numbers may own some.
fn first_heap(alloc: Global, clients: u32, instances: u32) -> Result<Heap, AllocError>
    ensures { IfOk result (λ h. (h.rows ≡ []) × (clients < h.clients) × (instances < h.instances)) }
{
    let mut heap = Heap::new(alloc);
    heap.reserve_owner(Owner::Client(clients))?;
    heap.reserve_owner(Owner::Instance(instances))?;
    Ok(heap)
}

impl Machine {
    /// The machine of a load at its start, with room for all entries that its log may get. The load
    /// has no domain with a native body.
    pub fn new(alloc: Global, load: Load) -> Result<Machine, AllocError>
        requires code { IsCodeAlone load }
        ensures { IfOk result (λ w. w ≡ record { load = load; log = []; state = start load }) }
    {
        let rows = load.rows();
        let clients = rows.clients.len() as u32;
        let loads = rows.loads.len() as u32;
        let blocks = Blocks::new(alloc, u64::from(rows.blocks))?;
        let proxies = Proxies::new(alloc, &load)?;
        let instances = Instances::new(alloc, &load)?;
        let threads = Threads::new(alloc, &load)?;
        let shadows = Shadows::new(alloc, &load)?;
        let stacks = Stacks::new(alloc, clients, loads)?;
        let heap = first_heap(alloc, clients, loads)?;
        let log = first_log(alloc)?;
        Ok(Machine {
            load,
            proxies,
            log,
            heap,
            instances,
            stacks,
            threads,
            shadows,
            blocks,
            next_call: 1,
        })
    }

    /// The load.
    pub fn load(&self) -> &Load
        ensures { result.now ≡ self.now.load }
    {
        &self.load
    }

    /// The log: all entries of the machine's steps.
    pub fn log(&self) -> &Log
        ensures { result.now.entries ≡ self.now.log }
    {
        &self.log
    }

    /// The shared heap. What it keeps beside the objects is what the state says of them.
    pub fn heap(&self) -> &Heap
        ensures objects { heap_objects result.now.rows ≡ self.now.state.objects }
        ensures made { length result.now.rows + 1 ≡ self.now.state.next_object }
        ensures agrees { Agrees self.now.load self.now.state result.now.rows }
    {
        &self.heap
    }

    /// How many instances were opened.
    pub fn opened(&self) -> u32
        ensures { result ≡ length self.now.state.instances }
    {
        laws();
        self.instances.len() as u32
    }

    /// What the type keeps: the load is valid, the log is a run of it that leads to the state, and
    /// no turn began that may not. It does nothing.
    pub fn is_kept(&self)
        ensures valid { Valid self.now.load }
        ensures run { Run self.now.load self.now.log self.now.state }
        ensures turns { TurnsAreShort self.now.log }
        ensures few { length self.now.log ≤ 327680 }
        ensures code { IsCodeAlone self.now.load }
    {
        laws();
        let _ = &self.load;
    }
}
