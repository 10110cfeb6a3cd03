//! The machine's data.
use crate::natives::NativeState;
use block_device::Blocks;
use client_threads::Threads;
use instance_table::Instances;
use machine_defs::log::Log;
use proxies::Proxies;
use rl_defs::load::Load;
use rref_heap::Heap;
use shadow_domains::Shadows;
use std::marker::Model;
use trampolines::{Body, Stacks};

/// A load, a log of it, and the state that the log leads to. Its type keeps that the log is a run
/// of the load.
#[derive(Drop)]
pub struct Machine {
    pub(crate) load: Load,
    pub(crate) proxies: Proxies,
    pub(crate) log: Log,
    pub(crate) heap: Heap,
    pub(crate) instances: Instances,
    pub(crate) stacks: Stacks<Body<NativeState>>,
    pub(crate) threads: Threads,
    pub(crate) shadows: Shadows,
    pub(crate) blocks: Blocks,
    pub(crate) next_call: u32,
}

impl Model for Machine {
    ghost use Rattle.machine_steps.specs.Kept.{Kept};
    ghost use Rattle.machine_steps.specs.Inside.{kept, IsKept};

    ghost Value = { Kept };

    ghost view = { kept };

    ghost invariant = { IsKept };
}
