//! The rows that a plan stands for.
ghost use Rattle.std.specs.Prelude.{unwrap_or, ◌≡◌, ℕ, ◌+◌, ◌^◌, ◌<◌, ◌≤◌, ◌∷◌, ◌++◌, [], List as Items, length, map, drop, OnOk, IfOk};
ghost use Rattle.std.specs.List.{flat_map, slice_index_or};
ghost use Rattle.rl_defs.specs.BundleNames.{given_by, names_of, client_given, lines_of_domain};
ghost use Rattle.rl_defs.specs.LoadOf.{loads_in, shadows_in, number_in, fuel_in, device_in, blocks_in, binds_of, target_number, bound_to};
ghost use Rattle.rl_defs.specs.declared.bundle.PlanLine.TheVariants as plan;
ghost use Rattle.plan_checker.specs.Loaded.{IsLoaded};
ghost use Rattle.plan_checker.specs.Rows.{AreRowsOf, AreWithin, order_with};

use crate::tables::PlanTables;
use name_tables::names::Names;
use rl_defs::bundle::{ClientLine, Numbered, PlanLine};
use rl_defs::list::List;
use rl_defs::load::{LoadRow, ShadowRow};
use rl_defs::name::Name;
use std::alloc::{AllocError, Global};

/// The fuel of each command where the plan has no `fuel` line.
pub const FUEL: u32 = 10_000;

/// The rows that a plan stands for.
#[derive(Debug, Drop)]
pub struct PlanRows {
    pub loads: List<LoadRow>,
    pub shadows: List<ShadowRow>,
    /// The clients that the `order` line names, by their numbers from 1, in its order.
    pub order: List<u32>,
    /// The fuel that each command begins with.
    pub fuel: u32,
    /// The load that has the block device, 0 where none has.
    pub device_load: u32,
    /// How many blocks the device has.
    pub blocks: u32,
}

// The load that has the device, 0 where none has, and how many blocks the device has.
#[derive(Clone, Copy)]
struct DeviceRow {
    load: u32,
    blocks: u32,
}

// The numbers of the targets that imports of a load are bound to.
fn binds_of(
    alloc: Global,
    tables: &PlanTables,
    load: &Name,
    imports: &[Name],
) -> Result<List<u32>, AllocError>
    ensures { IfOk result (λ binds. binds
        ≡ map (λ import. target_number tables.now (bound_to tables.now load.now import)) imports.now) }
{
    let mut binds = List::new(alloc);
    'imports: for import in imports {
        binds.push(tables.number_bound(load, import))?;
    }
    Ok(binds)
}

fn binds_of_load(
    alloc: Global,
    tables: &PlanTables,
    load: &Name,
    domain: &Name,
) -> Result<List<u32>, AllocError>
    requires { IsLoaded tables.now domain.now }
    ensures { IfOk result (λ binds. binds
        ≡ binds_of tables.now load.now (unwrap_or (lines_of_domain tables.now domain.now) [])) }
{
    match tables.domain(domain) {
        Some(facts) => binds_of(alloc, tables, load, facts.imports()),
        None => Ok(List::new(alloc)),
    }
}

fn load_row(
    alloc: Global,
    tables: &PlanTables,
    name: &Name,
    domain: &Name,
) -> Result<LoadRow, AllocError>
    requires { IsLoaded tables.now domain.now }
    ensures { IfOk result (λ row. row ∷ [] ≡ loads_in tables.now (plan.Load name.now domain.now)) }
{
    let binds = binds_of_load(alloc, tables, name, domain)?;
    Ok(LoadRow {
        name: *name,
        domain: tables.domain_place(domain).unwrap_or(0),
        serial: tables.is_serial(name),
        binds,
    })
}

fn load_rows(
    alloc: Global,
    tables: &PlanTables,
    lines: &[Numbered<PlanLine>],
) -> Result<List<LoadRow>, AllocError>
    requires { lines.now ≡ tables.now.plan.lines }
    ensures { IfOk result (λ rows. rows ≡ flat_map (λ l. loads_in tables.now l.form) lines.now) }
{
    let mut rows = List::new(alloc);
    'lines: for line in lines {
        if let PlanLine::Load { name, domain } = &line.form {
            let row = load_row(alloc, tables, name, domain)?;
            rows.push(row)?;
        }
    }
    Ok(rows)
}

fn shadow_rows(
    alloc: Global,
    tables: &PlanTables,
    lines: &[Numbered<PlanLine>],
) -> Result<List<ShadowRow>, AllocError>
    requires { AreWithin lines.now }
    ensures { IfOk result (λ rows. rows ≡ flat_map (λ l. shadows_in tables.now l.form) lines.now) }
{
    let mut rows = List::new(alloc);
    'lines: for line in lines {
        if let PlanLine::Shadow {
            name,
            load,
            restarts,
        } = &line.form
        {
            let row = ShadowRow {
                name: *name,
                load: tables.load_number(load),
                restarts: *restarts as u8,
            };
            rows.push(row)?;
        }
    }
    Ok(rows)
}

fn fuel_of(lines: &[Numbered<PlanLine>]) -> u32
    requires { AreWithin lines.now }
    ensures { result ≡ slice_index_or (flat_map (λ l. fuel_in l.form) lines.now) 0 10000 }
{
    'lines: for line in lines {
        if let PlanLine::Fuel(fuel) = &line.form {
            return *fuel as u32;
        }
    }
    FUEL
}

fn device_of(tables: &PlanTables, lines: &[Numbered<PlanLine>]) -> DeviceRow
    requires { AreWithin lines.now }
    ensures load { result.load ≡ slice_index_or (flat_map (λ l. device_in tables.now l.form) lines.now) 0 0 }
    ensures blocks { result.blocks ≡ slice_index_or (flat_map (λ l. blocks_in l.form) lines.now) 0 0 }
{
    'lines: for line in lines {
        if let PlanLine::Device { load, blocks } = &line.form {
            return DeviceRow {
                load: tables.load_number(load),
                blocks: *blocks as u32,
            };
        }
    }
    DeviceRow { load: 0, blocks: 0 }
}

/// The names of the clients.
pub fn client_names(alloc: Global, lines: &[Numbered<ClientLine>]) -> Result<Names, AllocError>
    requires { length lines.now < 2 ^ 31 }
    ensures names { IfOk result (λ n. n ≡ names_of (given_by client_given lines.now)) }
    ensures few { IfOk result (λ n. length n < 2 ^ 31) }
{
    let mut names = Names::new(alloc);
    'lines: for line in lines {
        if let ClientLine::Client(name) = &line.form {
            names.add(name)?;
        }
    }
    Ok(names)
}

fn number_in(names: &Names, name: &Name) -> u32
    requires { length names.now < 2 ^ 31 }
    ensures { result ≡ number_in name.now names.now }
{
    match names.place(name) {
        Some(place) => place + 1,
        None => 0,
    }
}

// Puts the numbers of clients last.
fn put_clients(order: &mut List<u32>, clients: &Names, names: &[Name]) -> Result<(), AllocError>
    requires { length clients.now < 2 ^ 31 }
    ensures { OnOk result (order.new ≡ order.old ++ map (λ name. number_in name clients.now) names.now) }
{
    'names: for name in names {
        order.push(number_in(clients, name))?;
    }
    Ok(())
}

fn order_rows(
    alloc: Global,
    lines: &[Numbered<PlanLine>],
    clients: &Names,
) -> Result<List<u32>, AllocError>
    requires { length clients.now < 2 ^ 31 }
    ensures { IfOk result (λ order. order ≡ flat_map (λ l. order_with clients.now l.form) lines.now) }
{
    let mut order = List::new(alloc);
    'lines: for line in lines {
        if let PlanLine::Order(names) = &line.form {
            put_clients(&mut order, clients, names.as_slice())?;
        }
    }
    Ok(order)
}

/// The rows that a plan stands for, in a bundle with these clients.
pub fn rows_of(
    alloc: Global,
    tables: &PlanTables,
    clients: &[Numbered<ClientLine>],
) -> Result<PlanRows, AllocError>
    requires within { AreWithin tables.now.plan.lines }
    requires few { length clients.now < 2 ^ 31 }
    ensures { IfOk result (AreRowsOf (record {
      idl = tables.now.idl;
      domains = tables.now.domains;
      plan = tables.now.plan;
      clients = record { lines = clients.now };
    })) }
{
    let names = client_names(alloc, clients)?;
    let lines = tables.lines();
    let loads = load_rows(alloc, tables, lines)?;
    let shadows = shadow_rows(alloc, tables, lines)?;
    let order = order_rows(alloc, lines, &names)?;
    let device = device_of(tables, lines);
    Ok(PlanRows {
        loads,
        shadows,
        order,
        fuel: fuel_of(lines),
        device_load: device.load,
        blocks: device.blocks,
    })
}
