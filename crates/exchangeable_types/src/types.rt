//! What a type is, as it is written.
ghost use Rattle.std.specs.Prelude.{◌≡◌, ℕ, ◌+◌, ◌*◌, ◌<◌, ◌≤◌, ◌^◌, min, length, slice_get};
ghost use Rattle.std.specs.List.{list_any};
ghost use Rattle.std.specs.Option.{option_copied};
ghost use Rattle.rl_defs.specs.Interfaces.{result_types};
ghost use Rattle.rl_defs.specs.Flattening.{is_refused_wrap, is_refused_base, is_refused, times_of, struct_held, kind_held, base_kind, base_struct};
ghost use Rattle.rl_defs.specs.Holding.{holds_rref};
ghost use Rattle.rl_defs.specs.TypeRules.{is_array, is_lent, is_bad_field, is_bad_value, has_bad_type};
ghost use Rattle.exchangeable_types.specs.Numbering.{field_type, repeats};

use crate::part::Part;
use rl_defs::bundle::Numbered;
use rl_defs::idl::{Base, IdlLine, Param, ResultText, TypeText, Wrap};
use rl_defs::tables::Kind;

/// One more than the cells that a struct may have. Nothing is counted beyond it.
pub const OVER: u32 = 513;

fn is_refused_wrap(wrap: &Wrap) -> bool
    ensures { result ≡ is_refused_wrap wrap.now }
{
    !matches!(wrap, Wrap::Array(_))
}

fn has_refused_wrap(wraps: &[Wrap]) -> bool
    ensures { result ≡ list_any is_refused_wrap wraps.now }
{
    wraps.iter().any(|wrap| is_refused_wrap(wrap))
}

fn is_refused_base(base: &Base) -> bool
    ensures { result ≡ is_refused_base base.now }
{
    matches!(base, Base::String | Base::Function)
}

/// Whether the type holds one that may not cross a domain boundary.
pub fn is_refused(ty: &TypeText) -> bool
    ensures { result ≡ is_refused ty.now }
{
    has_refused_wrap(ty.wraps.as_slice()) || is_refused_base(&ty.base)
}

fn repeats(wrap: &Wrap) -> u32
    ensures value { result ≡ repeats wrap.now }
    ensures small { result < 2 ^ 16 }
{
    match wrap {
        Wrap::Array(count) => *count as u32,
        _ => 1,
    }
}

/// How often the arrays of a type repeat its base, or 513 where that is more.
pub fn times(wraps: &[Wrap]) -> u32
    ensures { result ≡ min 513 (times_of wraps.now) }
{
    let mut times = 1;
    'wraps: for wrap in wraps {
        times = (times * repeats(wrap)).min(OVER);
    }
    times
}

fn base_struct(part: &Part, base: &Base) -> Option<u32>
    ensures { result ≡ base_struct part.now.lines.now base.now }
{
    match base {
        Base::Struct(name) => Some(part.struct_number(name)),
        _ => None,
    }
}

/// The number of the struct that the type holds by value, outside any `RRef`.
pub fn struct_held(part: &Part, ty: &TypeText) -> Option<u32>
    ensures { result ≡ struct_held part.now.lines.now ty.now }
{
    if is_refused(ty) {
        None
    } else {
        base_struct(part, &ty.base)
    }
}

fn base_kind(part: &Part, base: &Base) -> Option<Kind>
    ensures { result ≡ base_kind part.now.lines.now base.now }
{
    match base {
        Base::Num(width) => Some(Kind::Num(*width)),
        Base::RRef(name) => Some(Kind::Own(part.struct_number(name))),
        Base::LentRRef(name) => Some(Kind::Lent(part.struct_number(name))),
        Base::Dyn(name) => Some(Kind::Cap(part.trait_number(name))),
        _ => None,
    }
}

/// The kind that the type repeats, where it is no struct and isn't refused.
pub fn kind_held(part: &Part, ty: &TypeText) -> Option<Kind>
    ensures { result ≡ kind_held part.now.lines.now ty.now }
{
    if is_refused(ty) {
        None
    } else {
        base_kind(part, &ty.base)
    }
}

/// Whether the type is an `RRef`, or arrays of one.
pub fn holds_rref(ty: &TypeText) -> bool
    ensures { result ≡ holds_rref ty.now }
{
    !is_refused(ty) && matches!(ty.base, Base::RRef(_))
}

/// Whether the type is `&RRef` or `&dyn`, or holds one.
pub fn is_lent(base: &Base) -> bool
    ensures { result ≡ is_lent base.now }
{
    matches!(base, Base::LentRRef(_) | Base::Dyn(_))
}

fn is_array(wrap: &Wrap) -> bool
    ensures { result ≡ is_array wrap.now }
{
    matches!(wrap, Wrap::Array(_))
}

fn has_array(wraps: &[Wrap]) -> bool
    ensures { result ≡ list_any is_array wraps.now }
{
    wraps.iter().any(|wrap| is_array(wrap))
}

fn is_bad_field(ty: &TypeText) -> bool
    ensures { result ≡ is_bad_field ty.now }
{
    is_refused(ty) || is_lent(&ty.base)
}

fn is_bad_value(ty: &TypeText) -> bool
    ensures { result ≡ is_bad_value ty.now }
{
    is_refused(ty) || (has_array(ty.wraps.as_slice()) && is_lent(&ty.base))
}

/// The types of a method's results.
pub fn result_types(outcome: &ResultText) -> &[TypeText]
    ensures { result.now ≡ result_types outcome.now }
{
    match outcome {
        ResultText::Missing => &[],
        ResultText::Plain(types) => types.as_slice(),
        ResultText::Rpc(types) => types.as_slice(),
    }
}

fn has_bad_param(params: &[Param]) -> bool
    ensures { result ≡ list_any (λ p. is_bad_value p.ty) params.now }
{
    params.iter().any(|param| is_bad_value(&param.ty))
}

fn has_bad_result(types: &[TypeText]) -> bool
    ensures { result ≡ list_any is_bad_value types.now }
{
    types.iter().any(|ty| is_bad_value(ty))
}

/// Whether the line holds a type that may not stand where it stands (rule 10).
pub fn has_bad_type(line: &IdlLine) -> bool
    ensures { result ≡ has_bad_type line.now }
{
    match line {
        IdlLine::Field(_, ty) => is_bad_field(ty),
        IdlLine::Method {
            params,
            result: outcome,
            ..
        } => { has_bad_param(params.as_slice()) || has_bad_result(result_types(outcome)) }
        _ => false,
    }
}

/// The type of the field line at a place, None where no field line stands there.
pub fn field_at<'a>(lines: &'a [Numbered<IdlLine>], place: usize) -> Option<&'a TypeText>
    ensures { option_copied result ≡ field_type (slice_get lines.now place) }
{
    match &lines.get(place)?.form {
        IdlLine::Field(_, ty) => Some(ty),
        _ => None,
    }
}
