//! Writing the clients.
ghost use Rattle.std.specs.Prelude.{◌≡◌, ℕ, List, [], ◌∷◌, ◌++◌, codes, IfOk, OnOk};
ghost use Rattle.rl_defs.specs.declared.bundle.ClientLine.TheVariants as client;
ghost use Rattle.rl_defs.specs.declared.lexeme.Mark.TheVariants as m;
ghost use Rattle.rl_defs.specs.IdlForms.{spell_more};
ghost use Rattle.rl_defs.specs.DomainForms.{spell_some};
ghost use Rattle.rl_defs.specs.BundleForms.{spell_arg, spell_names, spell_client};
ghost use Rattle.rl_defs.specs.Tokens as t;
ghost use Rattle.bundle_syntax.specs.ClientVerbs.{verb_text};
ghost use Rattle.bundle_syntax.specs.ClientCanonical.{depth_of, write_clients};
ghost use Rattle.bundle_syntax.specs.Writable.{IsReadAgain, NothingRefused};

use crate::clients::form::{Verb, verb_text};
use crate::list::{put_names, put_numbers};
use crate::written::{Written, put_lines};
use rl_defs::bundle::{ClientLine, Clients, ScriptArgText};
use rl_defs::lexeme::Mark;
use rl_defs::name::Name;
use rl_text::render::Spelling;
use std::alloc::{AllocError, Global};

// The word that a line begins with.
fn put_verb(out: &mut Spelling<'_>, verb: Verb) -> Result<(), AllocError>
    ensures { OnOk result (out.new ≡ out.old ++ t.Name (verb_text verb) ∷ []) }
{
    out.word(verb_text(verb))
}

fn put_client(out: &mut Spelling<'_>, name: Name) -> Result<(), AllocError>
    ensures { OnOk result (out.new ≡ out.old ++ spell_client (client.Client name)) }
{
    put_verb(out, Verb::Client)?;
    out.name(name)?;
    out.mark(Mark::OpenBrace)
}

// `let NAME = new STRUCT`
fn put_new(out: &mut Spelling<'_>, name: Name, ty: Name) -> Result<(), AllocError>
    ensures { OnOk result (out.new ≡ out.old
        ++ (t.Name (codes "let") ∷ t.Name name ∷ t.Sign m.Equals ∷ t.Name (codes "new") ∷ t.Name ty ∷ [])) }
{
    put_verb(out, Verb::Let)?;
    out.name(name)?;
    out.mark(Mark::Equals)?;
    out.word(b"new")?;
    out.name(ty)
}

fn put_let(out: &mut Spelling<'_>, name: Name, ty: Name, values: &[u64]) -> Result<(), AllocError>
    ensures { OnOk result (out.new ≡ out.old ++ spell_client (client.Let name ty values.now)) }
{
    put_new(out, name, ty)?;
    put_numbers(out, values)
}

fn put_text<'a>(
    out: &mut Spelling<'a>,
    name: Name,
    ty: Name,
    bytes: &'a [u8],
) -> Result<(), AllocError>
    ensures { OnOk result (out.new ≡ out.old ++ spell_client (client.Text name ty bytes.now)) }
{
    put_verb(out, Verb::Text)?;
    out.name(name)?;
    out.mark(Mark::Equals)?;
    out.name(ty)?;
    out.text(bytes)
}

fn put_arg(out: &mut Spelling<'_>, arg: &ScriptArgText) -> Result<(), AllocError>
    ensures { OnOk result (out.new ≡ out.old ++ spell_arg arg.now) }
{
    match arg {
        ScriptArgText::Num(n) => out.number(*n),
        ScriptArgText::Name(name) => out.name(*name),
        ScriptArgText::Lent(name) => {
            out.mark(Mark::Ampersand)?;
            out.name(*name)
        }
        ScriptArgText::Target(target) => {
            out.mark(Mark::At)?;
            out.name(*target)
        }
    }
}

// Arguments, a comma before each.
fn put_more_args(out: &mut Spelling<'_>, args: &[ScriptArgText]) -> Result<(), AllocError>
    ensures { OnOk result (out.new ≡ out.old ++ spell_more spell_arg args.now) }
{
    'arguments: for arg in args {
        out.mark(Mark::Comma)?;
        put_arg(out, arg)?;
    }
    Ok(())
}

// Arguments, a comma between two of them.
fn put_args(out: &mut Spelling<'_>, args: &[ScriptArgText]) -> Result<(), AllocError>
    ensures { OnOk result (out.new ≡ out.old ++ spell_some spell_arg args.now) }
{
    match args {
        [] => Ok(()),
        [first, more @ ..] => {
            put_arg(out, first)?;
            put_more_args(out, more)
        }
    }
}

// `call TARGET.METHOD(`
fn put_callee(out: &mut Spelling<'_>, target: Name, method: Name) -> Result<(), AllocError>
    ensures { OnOk result (out.new ≡ out.old
        ++ (t.Name (codes "call") ∷ t.Name target ∷ t.Sign m.Dot ∷ t.Name method ∷ t.Sign m.OpenParen ∷ [])) }
{
    out.word(b"call")?;
    out.name(target)?;
    out.mark(Mark::Dot)?;
    out.name(method)?;
    out.mark(Mark::OpenParen)
}

// The names that a call binds, with their `->`, or nothing.
fn put_bound(out: &mut Spelling<'_>, names: &[Name]) -> Result<(), AllocError>
    ensures { OnOk result (out.new ≡ out.old ++ spell_names names.now) }
{
    if names.is_empty() {
        return Ok(());
    }
    out.mark(Mark::Arrow)?;
    put_names(out, names)
}

fn put_call(
    out: &mut Spelling<'_>,
    target: Name,
    method: Name,
    args: &[ScriptArgText],
    names: &[Name],
) -> Result<(), AllocError>
    ensures { OnOk result (out.new ≡ out.old ++ spell_client (client.Call target method args.now names.now)) }
{
    put_callee(out, target, method)?;
    put_args(out, args)?;
    out.mark(Mark::CloseParen)?;
    put_bound(out, names)
}

// A word and a name.
fn put_named(out: &mut Spelling<'_>, verb: Verb, name: Name) -> Result<(), AllocError>
    ensures { OnOk result (out.new ≡ out.old ++ (t.Name (verb_text verb) ∷ t.Name name ∷ [])) }
{
    put_verb(out, verb)?;
    out.name(name)
}

impl Written for ClientLine {
    ghost use Rattle.rl_defs.specs.BundleForms.{spell_client};
    ghost use Rattle.bundle_syntax.specs.ClientCanonical.{depth_of};

    ghost spell = { spell_client };

    ghost depth_of = { depth_of };

    fn put<'a>(&'a self, out: &mut Spelling<'a>) -> Result<(), AllocError> {
        match self {
            ClientLine::Client(name) => put_client(out, *name),
            ClientLine::Let { name, ty, values } => put_let(out, *name, *ty, values.as_slice()),
            ClientLine::Text { name, ty, bytes } => put_text(out, *name, *ty, bytes.as_slice()),
            ClientLine::Call {
                target,
                method,
                args,
                names,
            } => put_call(out, *target, *method, args.as_slice(), names.as_slice()),
            ClientLine::Show(name) => put_named(out, Verb::Show, *name),
            ClientLine::Drop(name) => put_named(out, Verb::Drop, *name),
            ClientLine::Kill(target) => put_named(out, Verb::Kill, *target),
            ClientLine::Close => out.mark(Mark::CloseBrace),
        }
    }

    fn depth(&self) -> u32 {
        match self {
            ClientLine::Client(_) => 0,
            ClientLine::Close => 0,
            _ => 1,
        }
    }
}

/// The canonical text of clients: each line with four blanks where a client is open round it, and a
/// line feed.
pub fn write_clients(alloc: Global, clients: &Clients) -> Result<Vec<u8>, AllocError>
    ensures canonical { IfOk result (λ v. v.items ≡ write_clients clients.now.lines) }
    ensures again { IfOk result (λ v. IsReadAgain clients.now.lines v.items) }
    ensures accepted { IfOk result (λ v. NothingRefused clients.now.lines v.items) }
{
    let mut bytes = Vec::new(alloc);
    put_lines(alloc, &mut bytes, clients.lines.as_slice())?;
    Ok(bytes)
}
