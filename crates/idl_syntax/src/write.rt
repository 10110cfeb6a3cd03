//! Writing the interface part.
ghost use Rattle.std.specs.Prelude.{◌≡◌, ℕ, ◌+◌, ◌≤◌, ◌<◌, List, [], ◌∷◌, ◌++◌, map, length, codes, IfOk, OnOk};
ghost use Rattle.rl_text.specs.Canonical.{render};
ghost use Rattle.rl_defs.specs.IdlForms.{spell_width, spell_base, spell_round, spell_type, spell_param, spell_more, spell_out, spell_result, spell_line};
ghost use Rattle.idl_syntax.specs.IdlCanonical.{canonical, write_line, write_part, depth_of};
ghost use Rattle.rl_defs.specs.Tokens as t;
ghost use Rattle.idl_syntax.specs.Writable.{IsReadAgain, IsPartReadAgain};
ghost use Rattle.rl_defs.specs.declared.lexeme.Key.TheVariants as k;
ghost use Rattle.rl_defs.specs.declared.lexeme.Mark.TheVariants as m;
ghost use Rattle.rl_defs.specs.declared.idl.IdlLine.TheVariants as form;

use rl_defs::bundle::Numbered;
use rl_defs::idl::{Base, Idl, IdlLine, Param, ResultText, TypeText, Wrap};
use rl_defs::lexeme::{Key, Mark};
use rl_defs::name::Name;
use rl_defs::tables::Width;
use rl_text::render::Spelling;
use std::alloc::{AllocError, Global};

fn width(width: Width) -> Key
    ensures { result ≡ spell_width width }
{
    match width {
        Width::Bool => Key::Bool,
        Width::W8 => Key::U8,
        Width::W16 => Key::U16,
        Width::W32 => Key::U32,
        Width::W64 => Key::U64,
    }
}

fn put_base(out: &mut Spelling<'_>, base: &Base) -> Result<(), AllocError>
    ensures { OnOk result (out.new ≡ out.old ++ spell_base base.now) }
{
    match base {
        Base::Num(number) => out.key(width(*number)),
        Base::Struct(name) => out.name(*name),
        Base::RRef(name) => {
            out.key(Key::RRef)?;
            out.mark(Mark::Less)?;
            out.name(*name)?;
            out.mark(Mark::Greater)
        }
        Base::LentRRef(name) => {
            out.mark(Mark::Ampersand)?;
            out.key(Key::RRef)?;
            out.mark(Mark::Less)?;
            out.name(*name)?;
            out.mark(Mark::Greater)
        }
        Base::Dyn(name) => {
            out.mark(Mark::Ampersand)?;
            out.key(Key::Dyn)?;
            out.name(*name)
        }
        Base::String => out.key(Key::String),
        Base::Function => {
            out.key(Key::Fn)?;
            out.mark(Mark::OpenParen)?;
            out.mark(Mark::CloseParen)
        }
    }
}

// A type in angle brackets, behind the word that wraps it.
#[cycle(round)]
fn put_angled(
    out: &mut Spelling<'_>,
    key: Key,
    wraps: &[Wrap],
    base: &Base,
) -> Result<(), AllocError>
    ensures { OnOk result (out.new ≡ out.old
        ++ (t.Reserved key ∷ t.Sign m.Less ∷ spell_round wraps.now base.now ++ (t.Sign m.Greater ∷ []))) }
{
    out.key(key)?;
    out.mark(Mark::Less)?;
    put_round(out, wraps, base)?;
    out.mark(Mark::Greater)
}

// A type in brackets, with its count.
#[cycle(round)]
fn put_array(
    out: &mut Spelling<'_>,
    count: u16,
    wraps: &[Wrap],
    base: &Base,
) -> Result<(), AllocError>
    ensures { OnOk result (out.new ≡ out.old
        ++ (t.Sign m.OpenBracket ∷ spell_round wraps.now base.now ++ (t.Sign m.Semicolon ∷ t.Number count
        ∷ t.Sign m.CloseBracket ∷ []))) }
{
    out.mark(Mark::OpenBracket)?;
    put_round(out, wraps, base)?;
    out.mark(Mark::Semicolon)?;
    out.number(u64::from(count))?;
    out.mark(Mark::CloseBracket)
}

// A type behind a mark, and maybe a word.
#[cycle(round)]
fn put_behind(
    out: &mut Spelling<'_>,
    mark: Mark,
    key: Key,
    wraps: &[Wrap],
    base: &Base,
) -> Result<(), AllocError>
    ensures { OnOk result (out.new ≡ out.old ++ (t.Sign mark ∷ t.Reserved key ∷ spell_round wraps.now base.now)) }
{
    out.mark(mark)?;
    out.key(key)?;
    put_round(out, wraps, base)
}

#[cycle(round)]
fn put_round(out: &mut Spelling<'_>, wraps: &[Wrap], base: &Base) -> Result<(), AllocError>
    ensures { OnOk result (out.new ≡ out.old ++ spell_round wraps.now base.now) }
{
    match wraps {
        [] => put_base(out, base),
        [wrap, inner @ ..] => match wrap {
            Wrap::Array(count) => put_array(out, *count, inner, base),
            Wrap::Box => put_angled(out, Key::Box, inner, base),
            Wrap::Vec => put_angled(out, Key::Vec, inner, base),
            Wrap::Ref => {
                out.mark(Mark::Ampersand)?;
                put_round(out, inner, base)
            }
            Wrap::RefMut => put_behind(out, Mark::Ampersand, Key::Mut, inner, base),
            Wrap::PointerConst => put_behind(out, Mark::Star, Key::Const, inner, base),
            Wrap::PointerMut => put_behind(out, Mark::Star, Key::Mut, inner, base),
        },
    }
}

fn put_type(out: &mut Spelling<'_>, ty: &TypeText) -> Result<(), AllocError>
    ensures { OnOk result (out.new ≡ out.old ++ spell_type ty.now) }
{
    put_round(out, ty.wraps.as_slice(), &ty.base)
}

fn put_param(out: &mut Spelling<'_>, param: &Param) -> Result<(), AllocError>
    ensures { OnOk result (out.new ≡ out.old ++ spell_param param.now) }
{
    out.name(param.name)?;
    out.mark(Mark::Colon)?;
    put_type(out, &param.ty)
}

// Parameters, a comma before each.
fn put_params(out: &mut Spelling<'_>, params: &[Param]) -> Result<(), AllocError>
    ensures { OnOk result (out.new ≡ out.old ++ spell_more spell_param params.now) }
{
    'params: for param in params {
        out.mark(Mark::Comma)?;
        put_param(out, param)?;
    }
    Ok(())
}

// Types, a comma before each.
fn put_types(out: &mut Spelling<'_>, types: &[TypeText]) -> Result<(), AllocError>
    ensures { OnOk result (out.new ≡ out.old ++ spell_more spell_type types.now) }
{
    'types: for ty in types {
        out.mark(Mark::Comma)?;
        put_type(out, ty)?;
    }
    Ok(())
}

// Types in parentheses, a comma between two of them.
fn put_several(
    out: &mut Spelling<'_>,
    first: &TypeText,
    more: &[TypeText],
) -> Result<(), AllocError>
    ensures { OnOk result (out.new ≡ out.old
        ++ (t.Sign m.OpenParen ∷ spell_type first.now ++ (spell_more spell_type more.now
        ++ (t.Sign m.CloseParen ∷ [])))) }
{
    out.mark(Mark::OpenParen)?;
    put_type(out, first)?;
    put_types(out, more)?;
    out.mark(Mark::CloseParen)
}

fn put_nothing(out: &mut Spelling<'_>) -> Result<(), AllocError>
    ensures { OnOk result (out.new ≡ out.old ++ (t.Sign m.OpenParen ∷ t.Sign m.CloseParen ∷ [])) }
{
    out.mark(Mark::OpenParen)?;
    out.mark(Mark::CloseParen)
}

fn put_out(out: &mut Spelling<'_>, types: &[TypeText]) -> Result<(), AllocError>
    ensures { OnOk result (out.new ≡ out.old ++ spell_out types.now) }
{
    match types {
        [] => put_nothing(out),
        [first, more @ ..] => {
            if more.is_empty() {
                return put_type(out, first);
            }
            put_several(out, first, more)
        }
    }
}

fn put_result(out: &mut Spelling<'_>, outcome: &ResultText) -> Result<(), AllocError>
    ensures { OnOk result (out.new ≡ out.old ++ spell_result outcome.now) }
{
    match outcome {
        ResultText::Missing => Ok(()),
        ResultText::Plain(types) => {
            out.mark(Mark::Arrow)?;
            put_out(out, types.as_slice())
        }
        ResultText::Rpc(types) => {
            out.mark(Mark::Arrow)?;
            out.key(Key::RpcResult)?;
            out.mark(Mark::Less)?;
            put_out(out, types.as_slice())?;
            out.mark(Mark::Greater)
        }
    }
}

// The head of a struct or a trait.
fn put_head(out: &mut Spelling<'_>, key: Key, name: Name) -> Result<(), AllocError>
    ensures { OnOk result (out.new ≡ out.old
        ++ (t.Reserved k.Pub ∷ t.Reserved key ∷ t.Name name ∷ t.Sign m.OpenBrace ∷ [])) }
{
    out.key(Key::Pub)?;
    out.key(key)?;
    out.name(name)?;
    out.mark(Mark::OpenBrace)
}

// A field.
fn put_field(out: &mut Spelling<'_>, name: Name, ty: &TypeText) -> Result<(), AllocError>
    ensures { OnOk result (out.new ≡ out.old ++ spell_line canonical (form.Field name ty.now)) }
{
    out.key(Key::Pub)?;
    out.name(name)?;
    out.mark(Mark::Colon)?;
    put_type(out, ty)?;
    out.mark(Mark::Comma)
}

// A method's name and receiver.
fn put_receiver(out: &mut Spelling<'_>, name: Name) -> Result<(), AllocError>
    ensures { OnOk result (out.new ≡ out.old
        ++ (t.Reserved k.Fn ∷ t.Name name ∷ t.Sign m.OpenParen ∷ t.Sign m.Ampersand ∷ t.Reserved k.SelfWord ∷ [])) }
{
    out.key(Key::Fn)?;
    out.name(name)?;
    out.mark(Mark::OpenParen)?;
    out.mark(Mark::Ampersand)?;
    out.key(Key::SelfWord)
}

// A method.
fn put_method(
    out: &mut Spelling<'_>,
    name: Name,
    params: &[Param],
    outcome: &ResultText,
) -> Result<(), AllocError>
    ensures { OnOk result (out.new ≡ out.old ++ spell_line canonical (form.Method name params.now outcome.now)) }
{
    put_receiver(out, name)?;
    put_params(out, params)?;
    out.mark(Mark::CloseParen)?;
    put_result(out, outcome)?;
    out.mark(Mark::Semicolon)
}

fn put_idempotent(out: &mut Spelling<'_>) -> Result<(), AllocError>
    ensures { OnOk result (out.new ≡ out.old ++ t.Name (codes "idempotent") ∷ []) }
{
    out.word(b"idempotent")
}

fn put_attribute(out: &mut Spelling<'_>) -> Result<(), AllocError>
    ensures { OnOk result (out.new ≡ out.old ++ spell_line canonical form.Idempotent) }
{
    out.mark(Mark::Hash)?;
    out.mark(Mark::OpenBracket)?;
    put_idempotent(out)?;
    out.mark(Mark::CloseBracket)
}

fn put_line(out: &mut Spelling<'_>, line: &IdlLine) -> Result<(), AllocError>
    ensures { OnOk result (out.new ≡ out.old ++ spell_line canonical line.now) }
{
    match line {
        IdlLine::Struct(name) => put_head(out, Key::Struct, *name),
        IdlLine::Field(name, ty) => put_field(out, *name, ty),
        IdlLine::Trait(name) => put_head(out, Key::Trait, *name),
        IdlLine::Idempotent => put_attribute(out),
        IdlLine::Method {
            name,
            params,
            result: outcome,
        } => put_method(out, *name, params.as_slice(), outcome),
        IdlLine::Close => out.mark(Mark::CloseBrace),
    }
}

// How many blocks are open round a line.
fn depth_of(line: &IdlLine) -> u32
    ensures { result ≡ depth_of line.now }
{
    match line {
        IdlLine::Struct(_) | IdlLine::Trait(_) | IdlLine::Close => 0,
        IdlLine::Field(_, _) | IdlLine::Idempotent | IdlLine::Method { .. } => 1,
    }
}

/// The canonical text of a line by itself, without blanks before it and without a line feed.
pub fn write_idl_line(alloc: Global, line: &IdlLine) -> Result<Vec<u8>, AllocError>
    ensures canonical { IfOk result (λ v. v.items ≡ write_line line.now) }
    ensures again { IfOk result (λ v. IsReadAgain line.now v.items) }
{
    let mut out = Spelling::new(alloc);
    put_line(&mut out, line)?;
    let mut bytes = Vec::new(alloc);
    out.write(alloc, &mut bytes)?;
    Ok(bytes)
}

/// The canonical text of an interface part: each line with four blanks for each block that is open
/// round it, and a line feed.
pub fn write_idl(alloc: Global, idl: &Idl) -> Result<Vec<u8>, AllocError>
    ensures canonical { IfOk result (λ v. v.items ≡ write_part idl.now.lines) }
    ensures again { IfOk result (λ v. IsPartReadAgain idl.now.lines v.items) }
{
    let mut bytes = Vec::new(alloc);
    put_lines(alloc, &mut bytes, idl.lines.as_slice())?;
    Ok(bytes)
}

fn put_lines(
    alloc: Global,
    bytes: &mut Vec<u8>,
    lines: &[Numbered<IdlLine>],
) -> Result<(), AllocError>
    ensures { OnOk result (bytes.new.items ≡ bytes.old.items ++ write_part lines.now) }
{
    let mut out = Spelling::new(alloc);
    'lines: for line in lines {
        out.clear();
        put_line(&mut out, &line.form)?;
        out.write_line(alloc, depth_of(&line.form), bytes)?;
    }
    Ok(())
}
