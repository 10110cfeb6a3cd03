//! The types of interface lines.
ghost use Rattle.std.specs.Prelude.{◌≡◌, ℕ, List, MatchBool, Some, None, length};
ghost use Rattle.rl_text.specs.Reading.{Gives, Passes, mark_at, key_at, behind_first};
ghost use Rattle.idl_syntax.specs.Types.{angled_at, base_at, wrap_at, array_at, boxed_at, lent_at, pointer_at, plain_at, type_at, plain, wrapped};
ghost use Rattle.idl_syntax.specs.Wrapped.{Wraps};
ghost use Rattle.idl_syntax.specs.Lines.{whole_type_at};
ghost use Rattle.rl_defs.specs.declared.idl.Base.{Base as ABase};

use rl_defs::idl::{Base, TypeText, Wrap};
use rl_defs::lexeme::{Key, Mark};
use rl_defs::list::List;
use rl_defs::name::Name;
use rl_defs::tables::Width;
use rl_text::cursor::{Cursor, Stop};
use std::alloc::Global;

/// How deep types may nest.
const DEEPEST: u8 = 8;

// `<STRUCT>`
#[tactic(auto, unfolding(crate::specs::Types::angled_at))]
fn angled(left: &mut Cursor<'_>) -> Result<Name, Stop>
    ensures { Gives (λ n. n) result left.new (angled_at left.old) }
{
    left.mark(Mark::Less)?;
    let name = left.name()?;
    left.mark(Mark::Greater)?;
    Ok(name)
}

// A type that holds no other and doesn't begin with `&`.
#[tactic(auto, unfolding(crate::specs::Types::base_at))]
fn base(left: &mut Cursor<'_>) -> Result<Base, Stop>
    ensures { Gives (λ b. b) result left.new (base_at left.old) }
{
    match left.first_key() {
        Some(Key::Bool) => number(left, Width::Bool),
        Some(Key::U8) => number(left, Width::W8),
        Some(Key::U16) => number(left, Width::W16),
        Some(Key::U32) => number(left, Width::W32),
        Some(Key::U64) => number(left, Width::W64),
        Some(Key::String) => {
            left.skip_first();
            Ok(Base::String)
        }
        Some(Key::RRef) => {
            left.skip_first();
            let name = angled(left)?;
            Ok(Base::RRef(name))
        }
        Some(Key::Fn) => {
            left.skip_first();
            left.mark(Mark::OpenParen)?;
            left.mark(Mark::CloseParen)?;
            Ok(Base::Function)
        }
        Some(_) => Err(Stop::NoForm),
        None => {
            let name = left.name()?;
            Ok(Base::Struct(name))
        }
    }
}

fn number(left: &mut Cursor<'_>, width: Width) -> Result<Base, Stop>
    ensures { Gives (λ b. b) result left.new (Some (Base.Num width, behind_first left.old)) }
{
    left.skip_first();
    Ok(Base::Num(width))
}

// A type that holds no other.
fn plain(alloc: Global, base: Base) -> TypeText
    ensures { result ≡ plain base }
{
    TypeText {
        wraps: List::new(alloc),
        base,
    }
}

// A type in one more wrap.
fn wrapped(wrap: Wrap, inner: TypeText) -> Result<TypeText, Stop>
    ensures { Wraps wrap inner result }
{
    let TypeText { wraps, base } = inner;
    let mut all = wraps.into_vec();
    all.insert(0, wrap)?;
    Ok(TypeText {
        wraps: List::from_vec(all),
        base,
    })
}

// A type behind `[`.
#[cycle(types)]
fn array(alloc: Global, room: u8, left: &mut Cursor<'_>) -> Result<TypeText, Stop>
    ensures { Gives (λ t. t) result left.new (array_at (type_at room) left.old) }
{
    let inner = type_of(alloc, room, left)?;
    left.mark(Mark::Semicolon)?;
    let count = left.number()?;
    left.mark(Mark::CloseBracket)?;
    if count < 1 || count > 65_535 {
        return Err(Stop::NoForm);
    }
    wrapped(Wrap::Array(count as u16), inner)
}

// A type behind `Box` or `Vec`.
#[cycle(types)]
fn boxed(alloc: Global, wrap: Wrap, room: u8, left: &mut Cursor<'_>) -> Result<TypeText, Stop>
    ensures { Gives (λ t. t) result left.new (boxed_at wrap (type_at room) left.old) }
{
    left.mark(Mark::Less)?;
    let inner = type_of(alloc, room, left)?;
    left.mark(Mark::Greater)?;
    wrapped(wrap, inner)
}

// A type in a wrap that ends where the type does.
#[cycle(types)]
fn in_wrap(alloc: Global, wrap: Wrap, room: u8, left: &mut Cursor<'_>) -> Result<TypeText, Stop>
    ensures { Gives (λ t. t) result left.new (wrap_at wrap (type_at room) left.old) }
{
    let inner = type_of(alloc, room, left)?;
    wrapped(wrap, inner)
}

// A type behind `&`.
#[cycle(types)]
fn lent(alloc: Global, room: u8, left: &mut Cursor<'_>) -> Result<TypeText, Stop>
    ensures { Gives (λ t. t) result left.new (lent_at (type_at room) left.old) }
{
    match left.first_key() {
        Some(Key::RRef) => {
            left.skip_first();
            let name = angled(left)?;
            Ok(plain(alloc, Base::LentRRef(name)))
        }
        Some(Key::Dyn) => {
            left.skip_first();
            let name = left.name()?;
            Ok(plain(alloc, Base::Dyn(name)))
        }
        Some(Key::Mut) => {
            left.skip_first();
            in_wrap(alloc, Wrap::RefMut, room, left)
        }
        Some(_) => in_wrap(alloc, Wrap::Ref, room, left),
        None => in_wrap(alloc, Wrap::Ref, room, left),
    }
}

// A type behind `*`.
#[cycle(types)]
fn pointer(alloc: Global, room: u8, left: &mut Cursor<'_>) -> Result<TypeText, Stop>
    ensures { Gives (λ t. t) result left.new (pointer_at (type_at room) left.old) }
{
    match left.first_key() {
        Some(Key::Const) => {
            left.skip_first();
            in_wrap(alloc, Wrap::PointerConst, room, left)
        }
        Some(Key::Mut) => {
            left.skip_first();
            in_wrap(alloc, Wrap::PointerMut, room, left)
        }
        Some(_) => Err(Stop::NoForm),
        None => Err(Stop::NoForm),
    }
}

/// The type at the front, where at most `room` types stand in one another, itself counted.
#[cycle(types)]
#[tactic(auto, unfolding(crate::specs::Types::type_at))]
pub(crate) fn type_of(alloc: Global, room: u8, left: &mut Cursor<'_>) -> Result<TypeText, Stop>
    ensures { Gives (λ t. t) result left.new (type_at room left.old) }
{
    if room == 0 {
        return Err(Stop::NoForm);
    }
    if left.skip_mark(Mark::OpenBracket) {
        return array(alloc, room - 1, left);
    }
    if left.skip_mark(Mark::Ampersand) {
        return lent(alloc, room - 1, left);
    }
    if left.skip_mark(Mark::Star) {
        return pointer(alloc, room - 1, left);
    }
    if left.skip_key(Key::Box) {
        return boxed(alloc, Wrap::Box, room - 1, left);
    }
    if left.skip_key(Key::Vec) {
        return boxed(alloc, Wrap::Vec, room - 1, left);
    }
    let base = base(left)?;
    Ok(plain(alloc, base))
}

/// The type at the front. One that holds no other is 0 deep, and at most 8 deep they may be.
pub(crate) fn whole_type(alloc: Global, left: &mut Cursor<'_>) -> Result<TypeText, Stop>
    ensures { Gives (λ t. t) result left.new (whole_type_at left.old) }
{
    type_of(alloc, DEEPEST + 1, left)
}
