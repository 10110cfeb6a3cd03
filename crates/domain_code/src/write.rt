//! Writing the domain part.
ghost use Rattle.std.specs.Prelude.{◌≡◌, ℕ, ◌+◌, ◌-◌, List, [], ◌∷◌, ◌++◌, codes, IfOk, OnOk};
ghost use Rattle.rl_defs.specs.declared.code.Instr.TheVariants as instr;
ghost use Rattle.rl_defs.specs.declared.code.DomainLine.TheVariants as line;
ghost use Rattle.rl_defs.specs.declared.lexeme.Key.TheVariants as k;
ghost use Rattle.rl_defs.specs.declared.lexeme.Mark.TheVariants as m;
ghost use Rattle.rl_defs.specs.Tokens as t;
ghost use Rattle.rl_defs.specs.IdlForms.{spell_more};
ghost use Rattle.rl_defs.specs.DomainForms.{spell_register, spell_one, spell_some, behind_comma, two, three, spell_arg, spell_results, spell_instr, spell_kind, spell_head, spell_native, spell_line};
ghost use Rattle.domain_code.specs.DomainCanonical.{depth_of, depth_behind, write_lines, write_domain};
ghost use Rattle.domain_code.specs.Verbs.{two_text, three_text, named_text, verb_text};
ghost use Rattle.domain_code.specs.Writable.{IsReadAgain, IsDomainAgain};

use crate::verb::{Named, One, Three, Two, Verb, verb_text};
use rl_defs::bundle::Numbered;
use rl_defs::code::{
    CallArg, DomainLine, DomainText, HeadItem, HeadKind, Instr, MathOp, Native, Register,
};
use rl_defs::lexeme::{Key, Mark};
use rl_defs::name::Name;
use rl_text::render::Spelling;
use std::alloc::{AllocError, Global};

fn put_register(out: &mut Spelling<'_>, register: Register) -> Result<(), AllocError>
    ensures { OnOk result (out.new ≡ out.old ++ spell_one register) }
{
    let number = register.number;
    if number < 10 {
        return out.word(&[b'r', b'0' + number]);
    }
    out.word(&[b'r', b'0' + number / 10, b'0' + number % 10])
}

// A register behind a comma.
fn put_next(out: &mut Spelling<'_>, register: Register) -> Result<(), AllocError>
    ensures { OnOk result (out.new ≡ out.old ++ behind_comma register) }
{
    out.mark(Mark::Comma)?;
    put_register(out, register)
}

// The word that a line begins with.
fn put_verb(out: &mut Spelling<'_>, verb: Verb) -> Result<(), AllocError>
    ensures { OnOk result (out.new ≡ out.old ++ t.Name (verb_text verb) ∷ []) }
{
    out.word(verb_text(verb))
}

fn put_else(out: &mut Spelling<'_>) -> Result<(), AllocError>
    ensures { OnOk result (out.new ≡ out.old ++ t.Name (codes "else") ∷ []) }
{
    out.word(b"else")
}

fn put_native(out: &mut Spelling<'_>, body: Native) -> Result<(), AllocError>
    ensures { OnOk result (out.new ≡ out.old ++ t.Name (spell_native body) ∷ []) }
{
    match body {
        Native::Fs => out.word(b"fs"),
        Native::Rv6 => out.word(b"rv6"),
    }
}

// A word and one register.
fn put_one(out: &mut Spelling<'_>, verb: Verb, a: Register) -> Result<(), AllocError>
    ensures { OnOk result (out.new ≡ out.old ++ (t.Name (verb_text verb) ∷ spell_one a)) }
{
    put_verb(out, verb)?;
    put_register(out, a)
}

// A word and two registers.
fn put_two(out: &mut Spelling<'_>, verb: Verb, a: Register, b: Register) -> Result<(), AllocError>
    ensures { OnOk result (out.new ≡ out.old ++ (t.Name (verb_text verb) ∷ two a b)) }
{
    put_one(out, verb, a)?;
    put_next(out, b)
}

// A word and three registers.
fn put_three(
    out: &mut Spelling<'_>,
    verb: Verb,
    a: Register,
    b: Register,
    c: Register,
) -> Result<(), AllocError>
    ensures { OnOk result (out.new ≡ out.old ++ (t.Name (verb_text verb) ∷ three a b c)) }
{
    put_two(out, verb, a, b)?;
    put_next(out, c)
}

// A word, a register and a name.
fn put_named(out: &mut Spelling<'_>, verb: Verb, a: Register, name: Name) -> Result<(), AllocError>
    ensures { OnOk result (out.new ≡ out.old
        ++ (t.Name (verb_text verb) ∷ spell_register a ∷ t.Sign m.Comma ∷ t.Name name ∷ [])) }
{
    put_one(out, verb, a)?;
    out.mark(Mark::Comma)?;
    out.name(name)
}

fn put_const(out: &mut Spelling<'_>, a: Register, number: u64) -> Result<(), AllocError>
    ensures { OnOk result (out.new ≡ out.old ++ spell_instr (instr.Const a number)) }
{
    out.key(Key::Const)?;
    put_register(out, a)?;
    out.mark(Mark::Comma)?;
    out.number(number)
}

fn put_jump(out: &mut Spelling<'_>, label: Name) -> Result<(), AllocError>
    ensures { OnOk result (out.new ≡ out.old ++ spell_instr (instr.Jmp label)) }
{
    put_verb(out, Verb::Jmp)?;
    out.name(label)
}

fn put_put(out: &mut Spelling<'_>, slot: Name, a: Register) -> Result<(), AllocError>
    ensures { OnOk result (out.new ≡ out.old ++ spell_instr (instr.Put slot a)) }
{
    put_verb(out, Verb::Put)?;
    out.name(slot)?;
    put_next(out, a)
}

fn put_hang(
    out: &mut Spelling<'_>,
    object: Register,
    place: u64,
    value: Register,
) -> Result<(), AllocError>
    ensures { OnOk result (out.new ≡ out.old ++ spell_instr (instr.Hang object place value)) }
{
    put_one(out, Verb::Hang, object)?;
    out.mark(Mark::Comma)?;
    out.number(place)?;
    put_next(out, value)
}

fn put_unhang(
    out: &mut Spelling<'_>,
    a: Register,
    object: Register,
    place: u64,
) -> Result<(), AllocError>
    ensures { OnOk result (out.new ≡ out.old ++ spell_instr (instr.Unhang a object place)) }
{
    put_two(out, Verb::Unhang, a, object)?;
    out.mark(Mark::Comma)?;
    out.number(place)
}

// Registers, a comma before each.
fn put_more_registers(out: &mut Spelling<'_>, registers: &[Register]) -> Result<(), AllocError>
    ensures { OnOk result (out.new ≡ out.old ++ spell_more spell_one registers.now) }
{
    'registers: for register in registers {
        out.mark(Mark::Comma)?;
        put_register(out, *register)?;
    }
    Ok(())
}

// Registers, a comma between two of them.
fn put_registers(out: &mut Spelling<'_>, registers: &[Register]) -> Result<(), AllocError>
    ensures { OnOk result (out.new ≡ out.old ++ spell_some spell_one registers.now) }
{
    match registers {
        [] => Ok(()),
        [first, more @ ..] => {
            put_register(out, *first)?;
            put_more_registers(out, more)
        }
    }
}

fn put_arg(out: &mut Spelling<'_>, arg: CallArg) -> Result<(), AllocError>
    ensures { OnOk result (out.new ≡ out.old ++ spell_arg arg) }
{
    match arg {
        CallArg::Passed(register) => put_register(out, register),
        CallArg::Lent(register) => {
            out.mark(Mark::Ampersand)?;
            put_register(out, register)
        }
    }
}

// Arguments, a comma before each.
fn put_more_args(out: &mut Spelling<'_>, args: &[CallArg]) -> Result<(), AllocError>
    ensures { OnOk result (out.new ≡ out.old ++ spell_more spell_arg args.now) }
{
    'arguments: for arg in args {
        out.mark(Mark::Comma)?;
        put_arg(out, *arg)?;
    }
    Ok(())
}

// Arguments, a comma between two of them.
fn put_args(out: &mut Spelling<'_>, args: &[CallArg]) -> Result<(), AllocError>
    ensures { OnOk result (out.new ≡ out.old ++ spell_some spell_arg args.now) }
{
    match args {
        [] => Ok(()),
        [first, more @ ..] => {
            put_arg(out, *first)?;
            put_more_args(out, more)
        }
    }
}

// `call C.METHOD(`
fn put_callee(out: &mut Spelling<'_>, target: Register, method: Name) -> Result<(), AllocError>
    ensures { OnOk result (out.new ≡ out.old
        ++ (t.Name (codes "call") ∷ spell_register target ∷ t.Sign m.Dot ∷ t.Name method ∷ t.Sign m.OpenParen ∷ [])) }
{
    put_one(out, Verb::Call, target)?;
    out.mark(Mark::Dot)?;
    out.name(method)?;
    out.mark(Mark::OpenParen)
}

// The results of a call, with their `->`, or nothing.
fn put_results(out: &mut Spelling<'_>, results: &[Register]) -> Result<(), AllocError>
    ensures { OnOk result (out.new ≡ out.old ++ spell_results results.now) }
{
    match results {
        [] => Ok(()),
        [first, more @ ..] => {
            out.mark(Mark::Arrow)?;
            put_register(out, *first)?;
            put_more_registers(out, more)
        }
    }
}

// `else E, LABEL`
fn put_landing(out: &mut Spelling<'_>, code: Register, label: Name) -> Result<(), AllocError>
    ensures { OnOk result (out.new ≡ out.old
        ++ (t.Name (codes "else") ∷ spell_register code ∷ t.Sign m.Comma ∷ t.Name label ∷ [])) }
{
    put_else(out)?;
    put_register(out, code)?;
    out.mark(Mark::Comma)?;
    out.name(label)
}

fn put_call(
    out: &mut Spelling<'_>,
    target: Register,
    method: Name,
    args: &[CallArg],
    results: &[Register],
    code: Register,
    label: Name,
) -> Result<(), AllocError>
    ensures { OnOk result (out.new ≡ out.old
        ++ spell_instr (instr.Call target method args.now results.now code label)) }
{
    put_callee(out, target, method)?;
    put_args(out, args)?;
    out.mark(Mark::CloseParen)?;
    put_results(out, results)?;
    put_landing(out, code, label)
}

fn put_return(out: &mut Spelling<'_>, results: &[Register]) -> Result<(), AllocError>
    ensures { OnOk result (out.new ≡ out.old ++ (t.Name (codes "ret") ∷ spell_some spell_one results.now)) }
{
    put_verb(out, Verb::Ret)?;
    put_registers(out, results)
}

fn put_math(
    out: &mut Spelling<'_>,
    op: MathOp,
    a: Register,
    b: Register,
    c: Register,
) -> Result<(), AllocError>
    ensures { OnOk result (out.new ≡ out.old ++ spell_instr (instr.Math op a b c)) }
{
    put_three(out, Verb::Three(Three::Math(op)), a, b, c)
}

fn put_instr(out: &mut Spelling<'_>, line: &Instr) -> Result<(), AllocError>
    ensures { OnOk result (out.new ≡ out.old ++ spell_instr line.now) }
{
    match line {
        Instr::Const(a, number) => put_const(out, *a, *number),
        Instr::Copy(a, b) => put_two(out, Verb::Two(Two::Copy), *a, *b),
        Instr::Math(op, a, b, c) => put_math(out, *op, *a, *b, *c),
        Instr::Jmp(label) => put_jump(out, *label),
        Instr::Jz(a, label) => put_named(out, Verb::Named(Named::Jz), *a, *label),
        Instr::Move(a, b) => put_two(out, Verb::Two(Two::Move), *a, *b),
        Instr::Get(a, object, place) => put_three(
            out,
            Verb::Three(Three::Get),
            *a,
            *object,
            *place,
        ),
        Instr::Wget(a, place) => put_two(out, Verb::Two(Two::Wget), *a, *place),
        Instr::Has(a, slot) => put_named(out, Verb::Named(Named::Has), *a, *slot),
        Instr::Cap(a, import) => put_named(out, Verb::Named(Named::Cap), *a, *import),
        Instr::DevSize(a) => put_one(out, Verb::One(One::DevSize), *a),
        Instr::New(a, ty) => put_named(out, Verb::Named(Named::New), *a, *ty),
        Instr::Drop(a) => put_one(out, Verb::One(One::Drop), *a),
        Instr::Set(object, place, value) => {
            put_three(out, Verb::Three(Three::Set), *object, *place, *value)
        }
        Instr::Wput(place, value) => put_two(out, Verb::Two(Two::Wput), *place, *value),
        Instr::Take(a, slot) => put_named(out, Verb::Named(Named::Take), *a, *slot),
        Instr::Put(slot, a) => put_put(out, *slot, *a),
        Instr::DevGet(object, block) => put_two(out, Verb::Two(Two::DevGet), *object, *block),
        Instr::DevPut(block, object) => put_two(out, Verb::Two(Two::DevPut), *block, *object),
        Instr::Hang(object, place, value) => put_hang(out, *object, *place, *value),
        Instr::Unhang(a, object, place) => put_unhang(out, *a, *object, *place),
        Instr::Call {
            target,
            method,
            args,
            results,
            code,
            label,
        } => put_call(
            out,
            *target,
            *method,
            args.as_slice(),
            results.as_slice(),
            *code,
            *label,
        ),
        Instr::Ret(results) => put_return(out, results.as_slice()),
        Instr::Trap => put_verb(out, Verb::Trap),
    }
}

// `RRef<STRUCT>`
fn put_struct(out: &mut Spelling<'_>, name: Name) -> Result<(), AllocError>
    ensures { OnOk result (out.new ≡ out.old
        ++ (t.Reserved k.RRef ∷ t.Sign m.Less ∷ t.Name name ∷ t.Sign m.Greater ∷ [])) }
{
    out.key(Key::RRef)?;
    out.mark(Mark::Less)?;
    out.name(name)?;
    out.mark(Mark::Greater)
}

fn put_kind(out: &mut Spelling<'_>, kind: HeadKind) -> Result<(), AllocError>
    ensures { OnOk result (out.new ≡ out.old ++ spell_kind kind) }
{
    match kind {
        HeadKind::Num => out.key(Key::Num),
        HeadKind::Own(name) => put_struct(out, name),
        HeadKind::Lent(name) => {
            out.mark(Mark::Ampersand)?;
            put_struct(out, name)
        }
        HeadKind::Cap(name) => {
            out.mark(Mark::Ampersand)?;
            out.key(Key::Dyn)?;
            out.name(name)
        }
    }
}

fn put_head(out: &mut Spelling<'_>, item: HeadItem) -> Result<(), AllocError>
    ensures { OnOk result (out.new ≡ out.old ++ spell_head item) }
{
    put_register(out, item.register)?;
    put_kind(out, item.kind)
}

// Registers of a head, a comma before each.
fn put_more_heads(out: &mut Spelling<'_>, heads: &[HeadItem]) -> Result<(), AllocError>
    ensures { OnOk result (out.new ≡ out.old ++ spell_more spell_head heads.now) }
{
    'heads: for head in heads {
        out.mark(Mark::Comma)?;
        put_head(out, *head)?;
    }
    Ok(())
}

// Registers of a head, a comma between two of them.
fn put_heads(out: &mut Spelling<'_>, heads: &[HeadItem]) -> Result<(), AllocError>
    ensures { OnOk result (out.new ≡ out.old ++ spell_some spell_head heads.now) }
{
    match heads {
        [] => Ok(()),
        [first, more @ ..] => {
            put_head(out, *first)?;
            put_more_heads(out, more)
        }
    }
}

fn put_label(out: &mut Spelling<'_>, label: Name, heads: &[HeadItem]) -> Result<(), AllocError>
    ensures { OnOk result (out.new ≡ out.old ++ spell_line (line.Head label heads.now)) }
{
    out.name(label)?;
    out.mark(Mark::Colon)?;
    put_heads(out, heads)
}

// A word, a name, and another one behind a colon.
fn put_pair(out: &mut Spelling<'_>, verb: Verb, name: Name, of: Name) -> Result<(), AllocError>
    ensures { OnOk result (out.new ≡ out.old
        ++ (t.Name (verb_text verb) ∷ t.Name name ∷ t.Sign m.Colon ∷ t.Name of ∷ [])) }
{
    put_verb(out, verb)?;
    out.name(name)?;
    out.mark(Mark::Colon)?;
    out.name(of)
}

fn put_domain(out: &mut Spelling<'_>, name: Name, has: Name) -> Result<(), AllocError>
    ensures { OnOk result (out.new ≡ out.old ++ spell_line (line.Domain name has)) }
{
    put_pair(out, Verb::Domain, name, has)?;
    out.mark(Mark::OpenBrace)
}

fn put_words(out: &mut Spelling<'_>, count: u64) -> Result<(), AllocError>
    ensures { OnOk result (out.new ≡ out.old ++ spell_line (line.Words count)) }
{
    put_verb(out, Verb::Words)?;
    out.number(count)
}

fn put_body(out: &mut Spelling<'_>, body: Native) -> Result<(), AllocError>
    ensures { OnOk result (out.new ≡ out.old ++ spell_line (line.Native body)) }
{
    put_verb(out, Verb::Native)?;
    put_native(out, body)
}

fn put_function(out: &mut Spelling<'_>, name: Name) -> Result<(), AllocError>
    ensures { OnOk result (out.new ≡ out.old ++ spell_line (line.Function name)) }
{
    out.key(Key::Fn)?;
    out.name(name)?;
    out.mark(Mark::OpenBrace)
}

fn put_line(out: &mut Spelling<'_>, form: &DomainLine) -> Result<(), AllocError>
    ensures { OnOk result (out.new ≡ out.old ++ spell_line form.now) }
{
    match form {
        DomainLine::Domain(name, has) => put_domain(out, *name, *has),
        DomainLine::Words(count) => put_words(out, *count),
        DomainLine::Slot(name, ty) => put_pair(out, Verb::Slot, *name, *ty),
        DomainLine::Import(name, has) => put_pair(out, Verb::Import, *name, *has),
        DomainLine::Native(body) => put_body(out, *body),
        DomainLine::Function(name) => put_function(out, *name),
        DomainLine::Head(label, heads) => put_label(out, *label, heads.as_slice()),
        DomainLine::Code(line) => put_instr(out, line),
        DomainLine::Close => out.mark(Mark::CloseBrace),
    }
}

// How many blocks are open round a line, where so many are open behind the line before it.
fn depth_of(open_blocks: u32, form: &DomainLine) -> u32
    ensures { result ≡ depth_of open_blocks form.now }
{
    match form {
        DomainLine::Close => open_blocks.saturating_sub(1),
        _ => open_blocks,
    }
}

// How many blocks are open behind a line.
fn depth_behind(open_blocks: u32, form: &DomainLine) -> u32
    ensures { result ≡ depth_behind open_blocks form.now }
{
    match form {
        DomainLine::Domain(_, _) => 1,
        DomainLine::Function(_) => 2,
        DomainLine::Close => open_blocks.saturating_sub(1),
        _ => open_blocks,
    }
}

fn put_lines(
    alloc: Global,
    bytes: &mut Vec<u8>,
    lines: &[Numbered<DomainLine>],
) -> Result<(), AllocError>
    ensures { OnOk result (bytes.new.items ≡ bytes.old.items ++ write_lines 0 lines.now) }
{
    let mut out = Spelling::new(alloc);
    let mut open_blocks = 0;
    'lines: for line in lines {
        out.clear();
        put_line(&mut out, &line.form)?;
        out.write_line(alloc, depth_of(open_blocks, &line.form), bytes)?;
        open_blocks = depth_behind(open_blocks, &line.form);
    }
    Ok(())
}

/// The canonical text of a domain: each line with four blanks for each block that is open round it,
/// and a line feed.
pub fn write_domain(alloc: Global, text: &DomainText) -> Result<Vec<u8>, AllocError>
    ensures canonical { IfOk result (λ v. v.items ≡ write_domain text.now.lines) }
    ensures again { IfOk result (λ v. IsReadAgain text.now.lines v.items) }
    ensures domain { IfOk result (λ v. IsDomainAgain text.now.lines v.items) }
{
    let mut bytes = Vec::new(alloc);
    put_lines(alloc, &mut bytes, text.lines.as_slice())?;
    Ok(bytes)
}
