//! Whether an answer fits the action that it is given to.
ghost use Rattle.std.specs.Prelude.{◌≡◌, ◌<◌, true, length, map};
ghost use Rattle.rl_defs.specs.declared.code.Instr.{Instr as AnInstr};
ghost use Rattle.machine_defs.specs.Arguments.{value_of};
ghost use Rattle.rl_defs.specs.CodeKinds.{kinds_at, as_register};
ghost use Rattle.machine_defs.specs.CodeFits.{FitsStand, FitsSight, FitsAnswer, are_values};
ghost use Rattle.rl_defs.specs.Registers.{fits_kind};
ghost use Rattle.machine_defs.specs.CodeLaws.{StandsAt};
ghost use Rattle.machine_defs.specs.Instructions.{object_in};
ghost use Rattle.code_machine.specs.Fitting.{standing, Awaits, IsLine};
ghost use Rattle.code_runs.specs.Seen.{sight_of, types_of};
ghost use Rattle.code_runs.specs.Suits.{is_held};
ghost use Rattle.code_runs.specs.Answered.{suits_instr, answer_suits};

use crate::rows::results_of;
use crate::view::MemoryView;
use machine_defs::arrays::Registers;
use machine_defs::frame::{Answer, View};
use machine_defs::values::Arg;
use rl_defs::checked::CheckedDomain;
use rl_defs::code::{DomainLine, Instr, Register};
use rl_defs::tables::Kind;
use rl_defs::values::Value;

fn value_is(view: &MemoryView, kind: Kind, value: Value) -> bool
    ensures { result ≡ fits_kind (types_of view.now) (as_register kind) (Some value) }
{
    match (kind, value) {
        (Kind::Num(_), Value::Num(_)) => true,
        (Kind::Own(of), Value::Obj(object)) => view.is_of(object, of),
        (Kind::Lent(of), Value::Obj(object)) => view.is_of(object, of),
        (Kind::Cap(of), Value::Cap(target)) => view.trait_of(target) == of,
        _ => false,
    }
}

/// Whether values are of these kinds, each.
pub fn values_are(view: &MemoryView, kinds: &[Kind], values: &[Value]) -> bool
    ensures { result ≡ are_values (types_of view.now) kinds.now values.now }
{
    if kinds.len() != values.len() {
        return false;
    }
    'each: for place in 0..kinds.len() {
        if !value_is(view, kinds[place], values[place]) {
            return false;
        }
    }
    true
}

fn value_of(arg: Arg) -> Value
    ensures { result ≡ value_of arg }
{
    match arg {
        Arg::Num(number) => Value::Num(number),
        Arg::Moved(object) => Value::Obj(object),
        Arg::Lent(object) => Value::Obj(object),
        Arg::Cap(target) => Value::Cap(target),
    }
}

/// Whether arguments are of these kinds, each.
pub fn args_are(view: &MemoryView, kinds: &[Kind], args: &[Arg]) -> bool
    ensures { result ≡ are_values (types_of view.now) kinds.now (map value_of args.now) }
{
    if kinds.len() != args.len() {
        return false;
    }
    'each: for place in 0..kinds.len() {
        if !value_is(view, kinds[place], value_of(args[place])) {
            return false;
        }
    }
    true
}

// The object that a register holds, by its number, and 0 where it holds none.
fn object_in(registers: &Registers, register: Register) -> u64
    ensures { result ≡ object_in registers.now register }
{
    match registers.get(register) {
        Some(Value::Obj(object)) => object,
        _ => 0,
    }
}

// Whether this object is held.
fn is_held(held: Option<u64>, object: u64) -> bool
    ensures { result ≡ is_held held object }
{
    match held {
        Some(other) => other == object,
        None => false,
    }
}

// Whether what is made, taken, done or returned fits an instruction.
fn suits_instr(
    domain: &CheckedDomain,
    view: &MemoryView,
    place: usize,
    registers: &Registers,
    instr: &Instr,
    answer: &Answer,
) -> bool
    requires stands { FitsStand (types_of view.now) domain.now (standing place registers.now) }
    requires sees { FitsSight (types_of view.now) domain.now (sight_of view.now) }
    requires here { IsLine domain.now place instr.now }
    ensures exact { result ≡ suits_instr (types_of view.now) domain.now (sight_of view.now)
        (standing place registers.now) instr.now answer.now }
    ensures fits { result ≡ true → FitsAnswer (types_of view.now) domain.now (kinds_at domain.now place)
        instr.now answer.now }
{
    let row = domain.row(place);
    match (instr, answer) {
        (Instr::New(_, _), Answer::Made(object)) => view.is_of(*object, row.number),
        (Instr::Take(_, _), Answer::Made(object)) => is_held(view.slot(row.number), *object),
        (Instr::Unhang(_, from, at), Answer::Made(object)) => {
            is_held(view.hung(object_in(registers, *from), *at), *object)
        }
        (Instr::Drop(_), Answer::Went) => true,
        (Instr::Set(_, _, _), Answer::Went) => true,
        (Instr::Wput(_, _), Answer::Went) => true,
        (Instr::Put(_, _), Answer::Went) => true,
        (Instr::DevGet(_, _), Answer::Went) => true,
        (Instr::DevPut(_, _), Answer::Went) => true,
        (Instr::Hang(_, _, _), Answer::Went) => true,
        (Instr::Call { .. }, Answer::Back(values)) => values_are(
            view,
            results_of(domain.tables(), row.of, row.number),
            values.as_slice(),
        ),
        (Instr::Call { .. }, Answer::Failed(_)) => true,
        _ => false,
    }
}

/// Whether an answer fits the instruction that a frame stands at. What is made is an object of the
/// struct; what is taken stands in the slot, or hangs in the cell; and what is returned is of the
/// method's results.
pub fn answer_fits(
    domain: &CheckedDomain,
    view: &MemoryView,
    line: u32,
    registers: &Registers,
    answer: &Answer,
) -> bool
    requires stands { FitsStand (types_of view.now) domain.now (standing line registers.now) }
    requires sees { FitsSight (types_of view.now) domain.now (sight_of view.now) }
    ensures exact { result ≡ answer_suits (types_of view.now) domain.now (sight_of view.now)
        (standing line registers.now) answer.now }
    ensures awaits { result ≡ true → Awaits domain.now (standing line registers.now) answer.now }
    ensures fits { result ≡ true → (i : AnInstr) → StandsAt domain.now i (standing line registers.now) →
        FitsAnswer (types_of view.now) domain.now (kinds_at domain.now line) i answer.now }
{
    let place = line as usize;
    match &domain.lines()[place].form {
        DomainLine::Code(instr) => suits_instr(domain, view, place, registers, instr, answer),
        _ => false,
    }
}
