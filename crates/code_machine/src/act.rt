//! What domain code would do next, and the instructions that act or trap, by their table.
ghost use Rattle.std.specs.Prelude.{◌≡◌, ◌<◌, ◌≤◌, ◌^◌, true, [], ◌∷◌, length, map, slice_get, is_some, is_none, nat_lt};
ghost use Rattle.machine_defs.specs.declared.frame.Action.TheVariants as action;
ghost use Rattle.machine_defs.specs.declared.values.Cause.TheVariants as cause;
ghost use Rattle.machine_defs.specs.Instructions.{Would, number_in, object_in, target, unless_trap, setting, cell_kind, args_fit, given_by, values_fit, result_in, meaning, work};
ghost use Rattle.rl_defs.specs.Registers.{value_in};
ghost use Rattle.rl_defs.specs.CodeNames.{methods_of, params_of, results_of};
ghost use Rattle.code_machine.specs.Went.{stops};
ghost use Rattle.code_machine.specs.Act.{action_of};
ghost use Rattle.code_machine.specs.Fitting.{standing, Fitting, AtInstr, IsLine, IsNear};

use crate::registers::{given, number_in, object_in, results, target_in};
use crate::table;
use crate::widths::{args_fit, fits, values_fit};
use machine_defs::arrays::{Args, Registers, Results};
use machine_defs::frame::View;
use machine_defs::values::Cause;
use rl_defs::checked::CheckedDomain;
use rl_defs::code::{CallArg, DomainLine, Instr, Register};
use rl_defs::tables::Tables;

/// What a frame of domain code would do next: an action of which no more is kept than code can ask
/// for. Contracts speak of it as the
/// `Action` that it is, by `action_of`.
#[derive(Debug, Drop)]
pub enum Act {
    /// Makes an object of the struct.
    New(u32),
    /// Gives the object up.
    Drop(u64),
    /// Sets the cell of the object at a place.
    Set(u64, u32, u64),
    /// Sets a word of the instance.
    Wput(u32, u64),
    /// Takes the object out of the slot.
    Take(u32),
    /// Puts the object into the slot.
    Put(u32, u64),
    /// Sets the object's cells to the block's.
    DevGet(u64, u64),
    /// Sets the block to the object's cells.
    DevPut(u64, u64),
    /// Moves the second object into a cell of the first.
    Hang(u64, u32, u64),
    /// Moves an object out of a cell of the object.
    Unhang(u64, u32),
    /// Calls the method of the target.
    Call(u32, u32, Args),
    /// Returns.
    Ret(Results),
    /// Ends the instance.
    Trap(Cause),
}

// Sets a word, where it is there.
fn set_word<V: View>(view: &V, registers: &Registers, at: Register, from: Register) -> Act
    requires { IsNear (V.sight view.now) }
    ensures { unless_trap (is_some ((V.sight view.now).word (number_in registers.now at))) cause.Bounds
        (action.Wput (number_in registers.now at) (number_in registers.now from)) ≡ Would (action_of result) }
{
    let place = number_in(registers, at);
    let number = number_in(registers, from);
    match view.word(place) {
        Some(_) => Act::Wput(place as u32, number),
        None => Act::Trap(Cause::Bounds),
    }
}

// Sets a cell, where it is there and the number fits it.
fn set_cell<V: View>(
    tables: &Tables,
    of: u32,
    view: &V,
    registers: &Registers,
    object: Register,
    at: Register,
    from: Register,
) -> Act
    requires { IsNear (V.sight view.now) }
    ensures { setting ((V.sight view.now).cell (object_in registers.now object) (number_in registers.now at))
        (cell_kind tables.now of (number_in registers.now at)) (object_in registers.now object)
        (number_in registers.now at) (number_in registers.now from) ≡ Would (action_of result) }
{
    let object = object_in(registers, object);
    let place = number_in(registers, at);
    let number = number_in(registers, from);
    match view.cell(object, place) {
        Some(_) => {
            if fits(table::cell_kind(tables, of, place), number) {
                Act::Set(object, place as u32, number)
            } else {
                Act::Trap(Cause::Range)
            }
        }
        None => Act::Trap(Cause::Bounds),
    }
}

fn new_object(number: u32, live: u32) -> Act
    ensures { unless_trap (nat_lt live 65536) cause.HeapFull (action.New number) ≡ Would (action_of result) }
{
    if live < 65_536 {
        Act::New(number)
    } else {
        Act::Trap(Cause::HeapFull)
    }
}

fn drop_object(registers: &Registers, object: Register) -> Act
    ensures { Would (action.Drop (object_in registers.now object)) ≡ Would (action_of result) }
{
    Act::Drop(object_in(registers, object))
}

fn take<V: View>(view: &V, slot: u32) -> Act
    ensures { unless_trap (is_some ((V.sight view.now).slot slot)) cause.Empty (action.Take slot)
        ≡ Would (action_of result) }
{
    match view.slot(slot) {
        Some(_) => Act::Take(slot),
        None => Act::Trap(Cause::Empty),
    }
}

fn put_object<V: View>(view: &V, registers: &Registers, slot: u32, object: Register) -> Act
    ensures { unless_trap (is_none ((V.sight view.now).slot slot)) cause.Full
        (action.Put slot (object_in registers.now object)) ≡ Would (action_of result) }
{
    match view.slot(slot) {
        Some(_) => Act::Trap(Cause::Full),
        None => Act::Put(slot, object_in(registers, object)),
    }
}

fn read_block<V: View>(view: &V, registers: &Registers, object: Register, block: Register) -> Act
    ensures { unless_trap (nat_lt (number_in registers.now block) (V.sight view.now).blocks) cause.Device
        (action.DevGet (object_in registers.now object) (number_in registers.now block))
        ≡ Would (action_of result) }
{
    let number = number_in(registers, block);
    if number < view.blocks() {
        Act::DevGet(object_in(registers, object), number)
    } else {
        Act::Trap(Cause::Device)
    }
}

fn write_block<V: View>(view: &V, registers: &Registers, block: Register, object: Register) -> Act
    ensures { unless_trap (nat_lt (number_in registers.now block) (V.sight view.now).blocks) cause.Device
        (action.DevPut (number_in registers.now block) (object_in registers.now object))
        ≡ Would (action_of result) }
{
    let number = number_in(registers, block);
    if number < view.blocks() {
        Act::DevPut(number, object_in(registers, object))
    } else {
        Act::Trap(Cause::Device)
    }
}

fn hang<V: View>(view: &V, registers: &Registers, object: Register, at: u64, below: Register) -> Act
    requires { at < 2 ^ 32 }
    ensures { unless_trap (is_none ((V.sight view.now).hung (object_in registers.now object) at)) cause.Full
        (action.Hang (object_in registers.now object) at (object_in registers.now below))
        ≡ Would (action_of result) }
{
    let parent = object_in(registers, object);
    match view.hung(parent, at) {
        Some(_) => Act::Trap(Cause::Full),
        None => Act::Hang(parent, at as u32, object_in(registers, below)),
    }
}

fn unhang<V: View>(view: &V, registers: &Registers, object: Register, at: u64) -> Act
    requires { at < 2 ^ 32 }
    ensures { unless_trap (is_some ((V.sight view.now).hung (object_in registers.now object) at)) cause.Empty
        (action.Unhang (object_in registers.now object) at) ≡ Would (action_of result) }
{
    let parent = object_in(registers, object);
    match view.hung(parent, at) {
        Some(_) => Act::Unhang(parent, at as u32),
        None => Act::Trap(Cause::Empty),
    }
}

// Calls the method with this number of the trait `of`, where each number fits its parameter.
fn call(
    tables: &Tables,
    of: u32,
    method: u32,
    registers: &Registers,
    to: Register,
    args: &[CallArg],
) -> Act
    requires { length args.now ≤ 8 }
    ensures { unless_trap (args_fit (params_of (slice_get (methods_of tables.now of) method))
        (map (given_by registers.now) args.now)) cause.Range
        (action.Call (target (value_in registers.now to)) method (map (given_by registers.now) args.now))
        ≡ Would (action_of result) }
{
    let args = given(registers, args);
    if args_fit(table::params(tables, of, method), args.as_slice()) {
        Act::Call(target_in(registers, to), method, args)
    } else {
        Act::Trap(Cause::Range)
    }
}

// Returns from the method with this number of the trait `of`, where each number fits its result.
fn give_back(tables: &Tables, of: u32, method: u32, registers: &Registers, from: &[Register]) -> Act
    requires { length from.now ≤ 4 }
    ensures { unless_trap (values_fit (results_of (slice_get (methods_of tables.now of) method))
        (map (result_in registers.now) from.now)) cause.Range
        (action.Ret (map (result_in registers.now) from.now)) ≡ Would (action_of result) }
{
    let values = results(registers, from);
    if values_fit(table::results(tables, of, method), values.as_slice()) {
        Act::Ret(values)
    } else {
        Act::Trap(Cause::Range)
    }
}

/// The action or the trap of the instruction at a place, which stops there.
pub fn act_at<V: View>(
    domain: &CheckedDomain,
    place: usize,
    view: &V,
    live: u32,
    registers: &Registers,
) -> Act
    requires fits { Fitting domain.now (V.sight view.now) (standing place registers.now) }
    requires at { AtInstr domain.now (standing place registers.now) }
    requires stops { stops (work domain.now (V.sight view.now) live (standing place registers.now)) ≡ true }
    ensures { work domain.now (V.sight view.now) live (standing place registers.now) ≡ Would (action_of result) }
{
    match &domain.lines()[place].form {
        DomainLine::Code(instr) => instr_act(domain, place, view, live, registers, instr),
        _ => unreachable!(),
    }
}

fn instr_act<V: View>(
    domain: &CheckedDomain,
    place: usize,
    view: &V,
    live: u32,
    registers: &Registers,
    instr: &Instr,
) -> Act
    requires here { IsLine domain.now place instr.now }
    requires fits { Fitting domain.now (V.sight view.now) (standing place registers.now) }
    requires near { IsNear (V.sight view.now) }
    requires stops { stops (meaning domain.now place (V.sight view.now) live registers.now instr.now) ≡ true }
    ensures { meaning domain.now place (V.sight view.now) live registers.now instr.now ≡ Would (action_of result) }
{
    let row = domain.row(place);
    match instr {
        Instr::Math(_, _, _, _) => Act::Trap(Cause::Divide),
        Instr::Get(_, _, _) => Act::Trap(Cause::Bounds),
        Instr::Wget(_, _) => Act::Trap(Cause::Bounds),
        Instr::New(_, _) => new_object(row.number, live),
        Instr::Drop(a) => drop_object(registers, *a),
        Instr::Set(o, i, v) => set_cell(domain.tables(), row.of, view, registers, *o, *i, *v),
        Instr::Wput(i, v) => set_word(view, registers, *i, *v),
        Instr::Take(_, _) => take(view, row.number),
        Instr::Put(_, a) => put_object(view, registers, row.number, *a),
        Instr::DevGet(o, n) => read_block(view, registers, *o, *n),
        Instr::DevPut(n, o) => write_block(view, registers, *n, *o),
        Instr::Hang(o, at, v) => hang(view, registers, *o, *at, *v),
        Instr::Unhang(_, o, at) => unhang(view, registers, *o, *at),
        Instr::Call { target, args, .. } => call(
            domain.tables(),
            row.of,
            row.number,
            registers,
            *target,
            args.as_slice(),
        ),
        Instr::Ret(from) => give_back(
            domain.tables(),
            row.of,
            row.number,
            registers,
            from.as_slice(),
        ),
        Instr::Trap => Act::Trap(Cause::Asked),
        // The others go on.
        _ => unreachable!(),
    }
}
