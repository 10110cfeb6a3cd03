//! The line forms of the interface part.
ghost use Rattle.std.specs.Prelude.{◌≡◌, ℕ, List, [], ◌∷◌, Some, None, length, codes};
ghost use Rattle.rl_text.specs.Reading.{Gives, Passes, mark_at, key_at};
ghost use Rattle.rl_text.specs.Many.{all_at};
ghost use Rattle.idl_syntax.specs.Lines.{types_at, parts_at, one_at, out_at, rpc_at, plain_out_at, behind_arrow_at, result_at, head_at, struct_at, trait_at, behind_comma, field_at, attribute_at, receiver_at, method_at, open_at, form_at, line_at};
ghost use Rattle.rl_text.specs.Whole.{GivesWhole};

use crate::list::{OneParam, OneType};
use crate::types::whole_type;
use rl_defs::idl::{IdlLine, ResultText, TypeText};
use rl_defs::lexeme::{Key, Mark};
use rl_defs::list::List;
use rl_defs::name::Name;
use rl_text::cursor::{Cursor, Stop};
use rl_text::list::behind_commas;
use std::alloc::Global;

// Two types or more, behind their `(`.
#[tactic(auto, unfolding(crate::specs::Lines::types_at))]
fn several(alloc: Global, left: &mut Cursor<'_>) -> Result<List<TypeText>, Stop>
    ensures { Gives (λ l. l) result left.new (types_at left.old) }
{
    let first = whole_type(alloc, left)?;
    let mut all = behind_commas::<OneType>(alloc, left)?;
    left.mark(Mark::CloseParen)?;
    if all.is_empty() {
        return Err(Stop::NoForm);
    }
    all.insert(0, first)?;
    Ok(List::from_vec(all))
}

// Nothing, or two types or more, behind a `(`.
fn parts(alloc: Global, left: &mut Cursor<'_>) -> Result<List<TypeText>, Stop>
    ensures { Gives (λ l. l) result left.new (parts_at left.old) }
{
    if left.skip_mark(Mark::CloseParen) {
        return Ok(List::new(alloc));
    }
    several(alloc, left)
}

// One type.
fn one(alloc: Global, left: &mut Cursor<'_>) -> Result<List<TypeText>, Stop>
    ensures { Gives (λ l. l) result left.new (one_at left.old) }
{
    let ty = whole_type(alloc, left)?;
    let mut all = List::new(alloc);
    all.push(ty)?;
    Ok(all)
}

// `()`, a type, or two types or more in parentheses.
#[tactic(auto, unfolding(crate::specs::Lines::out_at))]
fn out(alloc: Global, left: &mut Cursor<'_>) -> Result<List<TypeText>, Stop>
    ensures { Gives (λ l. l) result left.new (out_at left.old) }
{
    if left.skip_mark(Mark::OpenParen) {
        return parts(alloc, left);
    }
    one(alloc, left)
}

// The types behind `RpcResult`.
fn rpc(alloc: Global, left: &mut Cursor<'_>) -> Result<ResultText, Stop>
    ensures { Gives (λ r. r) result left.new (rpc_at left.old) }
{
    left.mark(Mark::Less)?;
    let out = out(alloc, left)?;
    left.mark(Mark::Greater)?;
    Ok(ResultText::Rpc(out))
}

// The result behind its arrow.
fn behind_arrow(alloc: Global, left: &mut Cursor<'_>) -> Result<ResultText, Stop>
    ensures { Gives (λ r. r) result left.new (behind_arrow_at left.old) }
{
    if left.skip_key(Key::RpcResult) {
        return rpc(alloc, left);
    }
    let out = out(alloc, left)?;
    Ok(ResultText::Plain(out))
}

// What stands behind the parameters of a method.
#[tactic(auto, unfolding(crate::specs::Lines::result_at))]
fn result_of(alloc: Global, left: &mut Cursor<'_>) -> Result<ResultText, Stop>
    ensures { Gives (λ r. r) result left.new (result_at left.old) }
{
    if left.skip_mark(Mark::Arrow) {
        return behind_arrow(alloc, left);
    }
    Ok(ResultText::Missing)
}

// `NAME {`
#[tactic(auto, unfolding(crate::specs::Lines::head_at))]
fn head(left: &mut Cursor<'_>) -> Result<Name, Stop>
    ensures { Gives (λ n. n) result left.new (head_at left.old) }
{
    let name = left.name()?;
    left.mark(Mark::OpenBrace)?;
    Ok(name)
}

// `NAME: TYPE,`, where the comma may be missing.
#[tactic(auto, unfolding(crate::specs::Lines::field_at))]
fn field(alloc: Global, left: &mut Cursor<'_>) -> Result<IdlLine, Stop>
    ensures { Gives (λ l. l) result left.new (field_at left.old) }
{
    let name = left.name()?;
    left.mark(Mark::Colon)?;
    let ty = whole_type(alloc, left)?;
    let _ = left.skip_mark(Mark::Comma);
    Ok(IdlLine::Field(name, ty))
}

// `[idempotent]`, behind its `#`.
#[tactic(auto, unfolding(crate::specs::Lines::attribute_at))]
fn attribute(left: &mut Cursor<'_>) -> Result<IdlLine, Stop>
    ensures { Gives (λ l. l) result left.new (attribute_at left.old) }
{
    left.mark(Mark::OpenBracket)?;
    left.word(b"idempotent")?;
    left.mark(Mark::CloseBracket)?;
    Ok(IdlLine::Idempotent)
}

// `NAME(&self`
#[tactic(auto, unfolding(crate::specs::Lines::receiver_at))]
fn receiver(left: &mut Cursor<'_>) -> Result<Name, Stop>
    ensures { Gives (λ n. n) result left.new (receiver_at left.old) }
{
    let name = left.name()?;
    left.mark(Mark::OpenParen)?;
    left.mark(Mark::Ampersand)?;
    left.key(Key::SelfWord)?;
    Ok(name)
}

// A method, behind its `fn`.
#[tactic(auto, unfolding(crate::specs::Lines::method_at))]
fn method(alloc: Global, left: &mut Cursor<'_>) -> Result<IdlLine, Stop>
    ensures { Gives (λ l. l) result left.new (method_at left.old) }
{
    let name = receiver(left)?;
    let params = behind_commas::<OneParam>(alloc, left)?;
    left.mark(Mark::CloseParen)?;
    let outcome = result_of(alloc, left)?;
    left.mark(Mark::Semicolon)?;
    Ok(IdlLine::Method {
        name,
        params: List::from_vec(params),
        result: outcome,
    })
}

// A line before which `pub` may stand, behind that.
#[tactic(auto, unfolding(crate::specs::Lines::open_at))]
fn open_line(alloc: Global, left: &mut Cursor<'_>) -> Result<IdlLine, Stop>
    ensures { Gives (λ l. l) result left.new (open_at left.old) }
{
    if left.skip_key(Key::Struct) {
        let name = head(left)?;
        return Ok(IdlLine::Struct(name));
    }
    if left.skip_key(Key::Trait) {
        let name = head(left)?;
        return Ok(IdlLine::Trait(name));
    }
    field(alloc, left)
}

// The form at the front.
#[tactic(auto, unfolding(crate::specs::Lines::form_at))]
fn form(alloc: Global, left: &mut Cursor<'_>) -> Result<IdlLine, Stop>
    ensures { Gives (λ l. l) result left.new (form_at left.old) }
{
    if left.skip_key(Key::Pub) {
        return open_line(alloc, left);
    }
    if left.skip_key(Key::Fn) {
        return method(alloc, left);
    }
    if left.skip_mark(Mark::Hash) {
        return attribute(left);
    }
    if left.skip_mark(Mark::CloseBrace) {
        return Ok(IdlLine::Close);
    }
    open_line(alloc, left)
}

/// The form that all tokens of a line spell.
#[tactic(auto, unfolding(crate::specs::Lines::line_at))]
pub(crate) fn whole_form(alloc: Global, left: &mut Cursor<'_>) -> Result<IdlLine, Stop>
    ensures { GivesWhole result (line_at left.old) }
{
    let read = form(alloc, left);
    if read.is_ok() {
        left.end()?;
    }
    read
}
