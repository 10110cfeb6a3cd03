//! Instructions, behind their words.
ghost use Rattle.std.specs.Prelude.{◌≡◌, ℕ, List, codes};
ghost use Rattle.rl_text.specs.Reading.{Gives};
ghost use Rattle.domain_code.specs.Operands.{register_at};
ghost use Rattle.domain_code.specs.Instructions.{one_of, two_of, three_of, named_of, const_at, one_at, two_at, three_at, named_at, jmp_at, put_at, hang_at, unhang_at, ret_at, args_at, several_args_at, results_at, landing_at, behind_args_at, call_at};

use crate::list::{OneArg, OneRegister};
use crate::operand::{next_name, next_number, next_register, register};
use crate::verb::{Named, One, Three, Two};
use rl_defs::code::{CallArg, DomainLine, Instr, Register};
use rl_defs::lexeme::Mark;
use rl_defs::list::List;
use rl_defs::name::Name;
use rl_text::cursor::{Cursor, Stop};
use rl_text::list::{list, list_to_end};
use std::alloc::Global;

// `const A, NUMBER`
#[tactic(auto, unfolding(crate::specs::Instructions::const_at))]
pub(crate) fn constant(left: &mut Cursor<'_>) -> Result<DomainLine, Stop>
    ensures { Gives (λ l. l) result left.new (const_at left.old) }
{
    let a = register(left)?;
    let number = next_number(left)?;
    Ok(DomainLine::Code(Instr::Const(a, number)))
}

fn one_of(verb: One, a: Register) -> Instr
    ensures { result ≡ one_of verb a }
{
    match verb {
        One::DevSize => Instr::DevSize(a),
        One::Drop => Instr::Drop(a),
    }
}

/// An instruction of one register.
#[tactic(auto, unfolding(crate::specs::Instructions::one_at))]
pub(crate) fn one(verb: One, left: &mut Cursor<'_>) -> Result<DomainLine, Stop>
    ensures { Gives (λ l. l) result left.new (one_at verb left.old) }
{
    let a = register(left)?;
    Ok(DomainLine::Code(one_of(verb, a)))
}

fn two_of(verb: Two, a: Register, b: Register) -> Instr
    ensures { result ≡ two_of verb a b }
{
    match verb {
        Two::Copy => Instr::Copy(a, b),
        Two::Move => Instr::Move(a, b),
        Two::Wget => Instr::Wget(a, b),
        Two::Wput => Instr::Wput(a, b),
        Two::DevGet => Instr::DevGet(a, b),
        Two::DevPut => Instr::DevPut(a, b),
    }
}

/// An instruction of two registers.
#[tactic(auto, unfolding(crate::specs::Instructions::two_at))]
pub(crate) fn two(verb: Two, left: &mut Cursor<'_>) -> Result<DomainLine, Stop>
    ensures { Gives (λ l. l) result left.new (two_at verb left.old) }
{
    let a = register(left)?;
    let b = next_register(left)?;
    Ok(DomainLine::Code(two_of(verb, a, b)))
}

fn three_of(verb: Three, a: Register, b: Register, c: Register) -> Instr
    ensures { result ≡ three_of verb a b c }
{
    match verb {
        Three::Math(op) => Instr::Math(op, a, b, c),
        Three::Get => Instr::Get(a, b, c),
        Three::Set => Instr::Set(a, b, c),
    }
}

/// An instruction of three registers.
#[tactic(auto, unfolding(crate::specs::Instructions::three_at))]
pub(crate) fn three(verb: Three, left: &mut Cursor<'_>) -> Result<DomainLine, Stop>
    ensures { Gives (λ l. l) result left.new (three_at verb left.old) }
{
    let a = register(left)?;
    let b = next_register(left)?;
    let c = next_register(left)?;
    Ok(DomainLine::Code(three_of(verb, a, b, c)))
}

fn named_of(verb: Named, a: Register, name: Name) -> Instr
    ensures { result ≡ named_of verb a name }
{
    match verb {
        Named::Jz => Instr::Jz(a, name),
        Named::Has => Instr::Has(a, name),
        Named::Cap => Instr::Cap(a, name),
        Named::New => Instr::New(a, name),
        Named::Take => Instr::Take(a, name),
    }
}

/// An instruction of a register and a name.
#[tactic(auto, unfolding(crate::specs::Instructions::named_at))]
pub(crate) fn named(verb: Named, left: &mut Cursor<'_>) -> Result<DomainLine, Stop>
    ensures { Gives (λ l. l) result left.new (named_at verb left.old) }
{
    let a = register(left)?;
    let name = next_name(left)?;
    Ok(DomainLine::Code(named_of(verb, a, name)))
}

/// `jmp LABEL`
#[tactic(auto, unfolding(crate::specs::Instructions::jmp_at))]
pub(crate) fn jump(left: &mut Cursor<'_>) -> Result<DomainLine, Stop>
    ensures { Gives (λ l. l) result left.new (jmp_at left.old) }
{
    let label = left.name()?;
    Ok(DomainLine::Code(Instr::Jmp(label)))
}

/// `put SLOT, A`
#[tactic(auto, unfolding(crate::specs::Instructions::put_at))]
pub(crate) fn put(left: &mut Cursor<'_>) -> Result<DomainLine, Stop>
    ensures { Gives (λ l. l) result left.new (put_at left.old) }
{
    let slot = left.name()?;
    let a = next_register(left)?;
    Ok(DomainLine::Code(Instr::Put(slot, a)))
}

/// `hang O, PLACE, V`
#[tactic(auto, unfolding(crate::specs::Instructions::hang_at))]
pub(crate) fn hang(left: &mut Cursor<'_>) -> Result<DomainLine, Stop>
    ensures { Gives (λ l. l) result left.new (hang_at left.old) }
{
    let object = register(left)?;
    let place = next_number(left)?;
    let value = next_register(left)?;
    Ok(DomainLine::Code(Instr::Hang(object, place, value)))
}

/// `unhang A, O, PLACE`
#[tactic(auto, unfolding(crate::specs::Instructions::unhang_at))]
pub(crate) fn unhang(left: &mut Cursor<'_>) -> Result<DomainLine, Stop>
    ensures { Gives (λ l. l) result left.new (unhang_at left.old) }
{
    let a = register(left)?;
    let object = next_register(left)?;
    let place = next_number(left)?;
    Ok(DomainLine::Code(Instr::Unhang(a, object, place)))
}

/// `ret A, ..`
#[tactic(auto, unfolding(crate::specs::Instructions::ret_at))]
pub(crate) fn ret(alloc: Global, left: &mut Cursor<'_>) -> Result<DomainLine, Stop>
    ensures { Gives (λ l. l) result left.new (ret_at left.old) }
{
    let results = list_to_end::<OneRegister>(alloc, left)?;
    Ok(DomainLine::Code(Instr::Ret(results)))
}

// One argument or more, and the `)`.
fn several_args(alloc: Global, left: &mut Cursor<'_>) -> Result<List<CallArg>, Stop>
    ensures { Gives (λ l. l) result left.new (several_args_at left.old) }
{
    let all = list::<OneArg>(alloc, left)?;
    left.mark(Mark::CloseParen)?;
    Ok(all)
}

// The arguments of a call, behind the `(`, and the `)`.
#[tactic(auto, unfolding(crate::specs::Instructions::args_at))]
fn args_of(alloc: Global, left: &mut Cursor<'_>) -> Result<List<CallArg>, Stop>
    ensures { Gives (λ l. l) result left.new (args_at left.old) }
{
    if left.skip_mark(Mark::CloseParen) {
        return Ok(List::new(alloc));
    }
    several_args(alloc, left)
}

// The results of a call, with their `->`, or none.
#[tactic(auto, unfolding(crate::specs::Instructions::results_at))]
fn results_of(alloc: Global, left: &mut Cursor<'_>) -> Result<List<Register>, Stop>
    ensures { Gives (λ l. l) result left.new (results_at left.old) }
{
    if left.skip_mark(Mark::Arrow) {
        return list::<OneRegister>(alloc, left);
    }
    Ok(List::new(alloc))
}

// Where a call that failed goes on.
#[derive(Clone, Copy)]
pub(crate) struct Landing {
    code: Register,
    label: Name,
}

// `else E, LABEL`
#[tactic(auto, unfolding(crate::specs::Instructions::landing_at))]
fn on_failure(left: &mut Cursor<'_>) -> Result<Landing, Stop>
    ensures { Gives (λ l. l) result left.new (landing_at left.old) }
{
    left.word(b"else")?;
    let code = register(left)?;
    let label = next_name(left)?;
    Ok(Landing { code, label })
}

// A call, behind its arguments.
#[tactic(auto, unfolding(crate::specs::Instructions::behind_args_at))]
fn behind_args(
    alloc: Global,
    target: Register,
    method: Name,
    args: List<CallArg>,
    left: &mut Cursor<'_>,
) -> Result<DomainLine, Stop>
    ensures { Gives (λ l. l) result left.new (behind_args_at target method args left.old) }
{
    let results = results_of(alloc, left)?;
    let landing = on_failure(left)?;
    Ok(DomainLine::Code(Instr::Call {
        target,
        method,
        args,
        results,
        code: landing.code,
        label: landing.label,
    }))
}

/// `call C.METHOD(ARG, ..) -> A, .. else E, LABEL`
#[tactic(auto, unfolding(crate::specs::Instructions::call_at))]
pub(crate) fn call(alloc: Global, left: &mut Cursor<'_>) -> Result<DomainLine, Stop>
    ensures { Gives (λ l. l) result left.new (call_at left.old) }
{
    let target = register(left)?;
    left.mark(Mark::Dot)?;
    let method = left.name()?;
    left.mark(Mark::OpenParen)?;
    let args = args_of(alloc, left)?;
    behind_args(alloc, target, method, args, left)
}
