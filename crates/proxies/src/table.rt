//! What is found once for each load and target, so that no crossing searches.
ghost use Rattle.std.specs.Prelude.{◌≡◌, ◌+◌, ◌<◌, ◌^◌, ◌&&◌, length, map, IfOk, OnOk};
ghost use Rattle.std.specs.List.{position_or_len, range_with_len};
ghost use Rattle.std.specs.Option.{option_copied};
ghost use Rattle.rl_defs.specs.Domains as domain;
ghost use Rattle.rl_defs.specs.Words.{same_bytes};
ghost use Rattle.machine_defs.specs.Calling.{is_shadow, is_idempotent};
ghost use Rattle.proxies.specs.Table.{proxies_of, found_at, trait_of_load};

use rl_defs::load::{Load, LoadRows};
use rl_defs::lookups::{is_native, trait_name};
use rl_defs::tables::{MethodRow, TraitRow};
use std::alloc::{AllocError, Global};
use std::marker::Model;

/// What a target stands for: its load, and the place of its trait.
#[derive(Debug, Drop)]
struct Found {
    load: u32,
    has: usize,
}

impl Model for Found {
    ghost use Rattle.proxies.specs.Table.{Found as Row};

    ghost Value = { Row };

    ghost view = { λ f. record { load = f.load; has = f.has } };
}

/// The proxies of a load: whether each load is serial, and for each target its load and its trait.
/// Contracts see the table, which for a load `L` is `proxies_of L`.
#[derive(Debug, Drop)]
pub struct Proxies {
    serial: Vec<bool>,
    targets: Vec<Found>,
}

impl Model for Proxies {
    ghost use Rattle.proxies.specs.Table.{Table};

    ghost Value = { Table };

    ghost view = { λ p. record { serial = p.serial.items; targets = p.targets.items } };
}

impl Proxies {
    /// The proxies of a load.
    pub fn new(alloc: Global, load: &Load) -> Result<Proxies, AllocError>
        ensures { IfOk result (λ p. p ≡ proxies_of load.now) }
    {
        let rows = load.rows();
        let serial = serial_loads(alloc, rows, rows.loads.len())?;
        let mut targets = found_loads(alloc, rows)?;
        find_shadows(&mut targets, rows)?;
        Ok(Proxies { serial, targets })
    }

    /// Whether one thread at a time may be in the instances of a load; not where there is no such
    /// load.
    pub fn is_serial(&self, load: &Load, k: u32) -> bool
        requires { self.now ≡ proxies_of load.now }
        ensures { result ≡ domain.is_serial load.now k }
    {
        self.serial_at(k).unwrap_or(false)
    }

    /// The load of a target: a load is its own, and a shadow has the one that it stands for. 0
    /// where there is no such target.
    pub fn load_of(&self, load: &Load, target: u32) -> u32
        requires { self.now ≡ proxies_of load.now }
        ensures { result ≡ domain.load_of_target load.now target }
    {
        match self.found(target) {
            Some(found) => found.load,
            None => load.rows().load_of_target(target),
        }
    }

    /// The method of a target with this number, from 0. None exactly where there is none.
    pub fn method<'a>(&self, load: &'a Load, target: u32, method: u32) -> Option<&'a MethodRow>
        requires { self.now ≡ proxies_of load.now }
        ensures { option_copied result ≡ domain.method_of load.now target method }
    {
        let rows = load.rows();
        match self.found(target) {
            Some(found) => method_in(rows.tables.get().traits.get(found.has), method),
            None => rows.method_row(target, method),
        }
    }

    /// Whether a call of this method of the target may be issued again: where it goes through a
    /// shadow, and the method is idempotent.
    pub fn is_reissuable(&self, load: &Load, target: u32, method: u32) -> bool
        requires { self.now ≡ proxies_of load.now }
        ensures { result ≡ (is_shadow load.now target && is_idempotent load.now target method) }
    {
        if target as usize <= load.rows().loads.len() {
            return false;
        }
        match self.method(load, target, method) {
            Some(row) => row.idempotent,
            None => false,
        }
    }

    // Whether a load is serial. None exactly where there is no such load.
    fn serial_at(&self, k: u32) -> Option<bool>
        ensures { result ≡ domain.row self.now.serial k }
    {
        if k == 0 {
            return None;
        }
        self.serial.get(k as usize - 1).copied()
    }

    // What a target stands for. None exactly where there is no such target.
    fn found(&self, target: u32) -> Option<&Found>
        ensures { option_copied result ≡ domain.row self.now.targets target }
    {
        if target == 0 {
            return None;
        }
        self.targets.get(target as usize - 1)
    }
}

// The method of a trait with this number.
fn method_in<'a>(row: Option<&'a TraitRow>, method: u32) -> Option<&'a MethodRow>
    ensures { option_copied result ≡ domain.method_in (option_copied row.entry) method }
{
    match row {
        Some(row) => row.methods.get(method as usize),
        None => None,
    }
}

// Whether each of so many loads is serial.
fn serial_loads(alloc: Global, rows: &LoadRows, count: usize) -> Result<Vec<bool>, AllocError>
    requires { count < 2 ^ 32 }
    ensures { IfOk result (λ v. v.items ≡ map (domain.is_serial rows.now) (range_with_len 1 count)) }
{
    let mut serial = Vec::new(alloc);
    'loads: for before in 0..count {
        serial.push(is_serial(rows, before as u32 + 1))?;
    }
    Ok(serial)
}

fn is_serial(rows: &LoadRows, k: u32) -> bool
    ensures { result ≡ domain.is_serial rows.now k }
{
    match rows.load_row(k) {
        Some(row) => row.serial || is_native(rows.domain_lines(row.domain)),
        None => false,
    }
}

// What the loads stand for as targets: each for itself.
fn found_loads(alloc: Global, rows: &LoadRows) -> Result<Vec<Found>, AllocError>
    requires { length rows.now.loads < 2 ^ 32 }
    ensures { IfOk result (λ v. v.items ≡ map (found_at rows.now) (range_with_len 1 (length rows.now.loads))) }
{
    let mut targets = Vec::new(alloc);
    'loads: for before in 0..rows.loads.len() {
        targets.push(found_in(rows, before as u32 + 1))?;
    }
    Ok(targets)
}

// What the shadows stand for as targets: each for its load. They are numbered on after the last
// load.
fn find_shadows(targets: &mut Vec<Found>, rows: &LoadRows) -> Result<(), AllocError>
    requires { targets.old.items ≡ map (found_at rows.now) (range_with_len 1 (length rows.now.loads)) }
    ensures { OnOk result (targets.new.items
        ≡ map (found_at rows.now) (range_with_len 1 (length rows.now.loads + length rows.now.shadows))) }
{
    'shadows: for shadow in rows.shadows.as_slice() {
        targets.push(found_in(rows, shadow.load))?;
    }
    Ok(())
}

fn found_in(rows: &LoadRows, load: u32) -> Found
    ensures { result ≡ record { load = load; has = trait_of_load rows.now load } }
{
    let name = trait_name(rows.lines_of_load(load));
    let has = place_of_trait(rows.tables.get().traits.as_slice(), name);
    Found { load, has }
}

// The place of the first trait with this name, or the count of traits.
fn place_of_trait(traits: &[TraitRow], name: &[u8]) -> usize
    ensures { result ≡ position_or_len (λ row. same_bytes row.name name.now) traits.now }
{
    traits.iter().take_while(|row| !is_named(row, name)).count()
}

fn is_named(row: &TraitRow, name: &[u8]) -> bool
    ensures { result ≡ same_bytes row.now.name name.now }
{
    row.name.bytes() == name
}
