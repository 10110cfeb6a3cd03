//! How a frame of domain code goes on from what its action is answered.
ghost use Rattle.std.specs.Prelude.{◌≡◌, []};
ghost use Rattle.std.specs.Option.{option_map_or};
ghost use Rattle.rl_defs.specs.declared.code.Instr.{Instr as AnInstr};
ghost use Rattle.machine_defs.specs.declared.frame.FrameBody.TheVariants as body;
ghost use Rattle.machine_defs.specs.Entries.{code_number};
ghost use Rattle.rl_defs.specs.CodeKinds.{kinds_at, passed, moved};
ghost use Rattle.rl_defs.specs.Registers.{kept};
ghost use Rattle.machine_defs.specs.Instructions.{behind_head};
ghost use Rattle.rl_defs.specs.Registers.{Typing};
ghost use Rattle.machine_defs.specs.CodeFits.{FitsStand, FitsWaiting, FitsAnswer, stand_of};
ghost use Rattle.machine_defs.specs.Instructions.{given_up, all_given_up, put_values, answered, after_answer};
ghost use Rattle.machine_defs.specs.CodeLaws.{StandsAt};
ghost use Rattle.machine_defs.specs.Frames.{instr_at};
ghost use Rattle.code_machine.specs.Fitting.{standing, put_at, Awaits, IsHead};

use machine_defs::arrays::Registers;
use machine_defs::frame::{Answer, Frame, FrameBody};
use machine_defs::values::RpcCode;
use rl_defs::checked::CheckedDomain;
use rl_defs::code::{CallArg, DomainLine, HeadItem, Instr, Register};
use rl_defs::values::Value;

/// A frame goes on from an answer. What was made, taken or returned stands in its registers, and
/// what was given up has left them; it stands at the next line, or, where its call failed, behind
/// the head of the call's label, with the call's code. A frame that waited for its call has given
/// up the objects that it moved already.
pub fn take_answer<N: Drop>(domain: &CheckedDomain, frame: &mut Frame<N>, answer: &Answer)
    requires { Awaits domain.now (stand_of frame.old.body) answer.now }
    ensures goes_on { (i : AnInstr) → StandsAt domain.now i (stand_of frame.old.body) →
        frame.new ≡ put_at frame.old (after_answer domain.now (stand_of frame.old.body) i answer.now) }
    ensures fits { (types : Typing) (i : AnInstr) → StandsAt domain.now i (stand_of frame.old.body) →
        FitsStand types domain.now (stand_of frame.old.body) →
        FitsAnswer types domain.now (kinds_at domain.now (stand_of frame.old.body).at) i answer.now →
        FitsStand types domain.now (stand_of frame.new.body) }
    ensures fits_again { (types : Typing) (i : AnInstr) →
        FitsWaiting types domain.now i (stand_of frame.old.body) →
        FitsAnswer types domain.now (kinds_at domain.now (stand_of frame.old.body).at) i answer.now →
        FitsStand types domain.now (stand_of frame.new.body) }
{
    match &mut frame.body {
        FrameBody::Code { line, registers } => take_answer_in(domain, line, registers, answer),
        FrameBody::Native { .. } => unreachable!(),
    }
}

/// As `take_answer`, for a line and registers that need not stand in a frame: for an answer to
/// register work that is done beside the machine.
pub fn take_answer_in(
    domain: &CheckedDomain,
    line: &mut u32,
    registers: &mut Registers,
    answer: &Answer,
)
    requires { Awaits domain.now (standing line.old registers.old) answer.now }
    ensures goes_on { (i : AnInstr) → StandsAt domain.now i (standing line.old registers.old) →
        standing line.new registers.new ≡ after_answer domain.now (standing line.old registers.old) i answer.now }
    ensures fits { (types : Typing) (i : AnInstr) → StandsAt domain.now i (standing line.old registers.old) →
        FitsStand types domain.now (standing line.old registers.old) →
        FitsAnswer types domain.now (kinds_at domain.now line.old) i answer.now →
        FitsStand types domain.now (standing line.new registers.new) }
    ensures fits_again { (types : Typing) (i : AnInstr) →
        FitsWaiting types domain.now i (standing line.old registers.old) →
        FitsAnswer types domain.now (kinds_at domain.now line.old) i answer.now →
        FitsStand types domain.now (standing line.new registers.new) }
{
    // Its contract says that the domain keeps the rules.
    let _ = domain.lines();
    *line = behind(domain, *line, registers, answer);
}

/// A frame at a call's line waits for the call: the objects that the call moves leave its
/// registers. At another instruction those that the instruction moves would leave, and where no
/// instruction stands nothing changes.
pub fn wait_for_call(domain: &CheckedDomain, line: u32, registers: &mut Registers)
    ensures { registers.new ≡ all_given_up (option_map_or moved (instr_at domain.now line) []) registers.old }
{
    if let Some(at) = domain.lines().get(line as usize) {
        if let DomainLine::Code(instr) = &at.form {
            give_up_moved(registers, instr);
        }
    }
}

// Where a frame stands behind an answer, and its registers there.
fn behind(domain: &CheckedDomain, line: u32, registers: &mut Registers, answer: &Answer) -> u32
    requires { Awaits domain.now (standing line registers.old) answer.now }
    ensures { (i : AnInstr) → StandsAt domain.now i (standing line registers.old) →
        after_answer domain.now (standing line registers.old) i answer.now ≡ standing result registers.new }
{
    let place = line as usize;
    match &domain.lines()[place].form {
        DomainLine::Code(instr) => {
            answered(registers, instr, answer);
            match answer {
                Answer::Failed(_) => enter(domain, domain.row(place).label, registers),
                _ => line + 1,
            }
        }
        _ => unreachable!(),
    }
}

// Goes behind the head at a place.
fn enter(domain: &CheckedDomain, place: u32, registers: &mut Registers) -> u32
    requires { IsHead domain.now place }
    ensures { behind_head domain.now place registers.old ≡ standing result registers.new }
{
    match &domain.lines()[place as usize].form {
        DomainLine::Head(_, items) => {
            keep(registers, items.as_slice());
            place + 1
        }
        _ => unreachable!(),
    }
}

// Empties the registers that a head doesn't list.
fn keep(registers: &mut Registers, items: &[HeadItem])
    ensures { registers.new ≡ kept items.now registers.old }
{
    let before = registers.copied();
    *registers = Registers::new();
    'each: for item in items {
        registers.set(item.register, before.get(item.register));
    }
}

// What an answer makes of the registers.
fn answered(registers: &mut Registers, instr: &Instr, answer: &Answer)
    ensures { registers.new ≡ answered instr.now answer.now registers.old }
{
    match (instr, answer) {
        (Instr::New(a, _), Answer::Made(o)) => registers.set(*a, Some(Value::Obj(*o))),
        (Instr::Take(a, _), Answer::Made(o)) => registers.set(*a, Some(Value::Obj(*o))),
        (Instr::Unhang(a, _, _), Answer::Made(o)) => registers.set(*a, Some(Value::Obj(*o))),
        (Instr::Drop(a), Answer::Went) => registers.set(*a, None),
        (Instr::Put(_, a), Answer::Went) => registers.set(*a, None),
        (Instr::Hang(_, _, v), Answer::Went) => registers.set(*v, None),
        (Instr::Call { args, results, .. }, Answer::Back(values)) => {
            give_up_passed(registers, args.as_slice());
            put_values(registers, results.as_slice(), values.as_slice());
        }
        (Instr::Call { args, code, .. }, Answer::Failed(failure)) => {
            give_up_passed(registers, args.as_slice());
            registers.set(*code, Some(Value::Num(code_number(*failure))));
        }
        _ => {}
    }
}

fn code_number(failure: RpcCode) -> u64
    ensures { result ≡ code_number failure }
{
    match failure {
        RpcCode::Gone => 1,
        RpcCode::Unwound => 2,
        RpcCode::Deep => 3,
        RpcCode::Order => 4,
    }
}

// The objects that a call passes leave their registers.
fn give_up_passed(registers: &mut Registers, args: &[CallArg])
    ensures { registers.new ≡ all_given_up (passed args.now) registers.old }
{
    'each: for arg in args {
        if let CallArg::Passed(register) = arg {
            give_up(registers, *register);
        }
    }
}

fn give_up(registers: &mut Registers, register: Register)
    ensures { registers.new ≡ given_up registers.old register }
{
    let value = registers.get(register);
    if let Some(Value::Obj(_)) = value {
        registers.set(register, None);
    }
}

// Puts results into their registers.
fn put_values(registers: &mut Registers, to: &[Register], values: &[Value])
    ensures { registers.new ≡ put_values to.now values.now registers.old }
{
    'each: for place in 0..to.len() {
        if place >= values.len() {
            return;
        }
        registers.set(to[place], Some(values[place]));
    }
}

// The objects that an instruction moves leave their registers.
fn give_up_moved(registers: &mut Registers, instr: &Instr)
    ensures { registers.new ≡ all_given_up (moved instr.now) registers.old }
{
    match instr {
        Instr::Move(_, a) | Instr::Drop(a) | Instr::Put(_, a) | Instr::Hang(_, _, a) => {
            give_up(registers, *a)
        }
        Instr::Call { args, .. } => give_up_passed(registers, args.as_slice()),
        Instr::Ret(from) => give_up_all(registers, from.as_slice()),
        _ => {}
    }
}

// The objects in these registers leave them.
fn give_up_all(registers: &mut Registers, from: &[Register])
    ensures { registers.new ≡ all_given_up from.now registers.old }
{
    'each: for register in from {
        give_up(registers, *register);
    }
}
