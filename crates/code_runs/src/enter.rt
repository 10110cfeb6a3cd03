//! How a call of a domain's method begins.
ghost use Rattle.std.specs.Prelude.{ℕ, IfSome, Some, is_some, ◌≡◌};
ghost use Rattle.rl_defs.specs.Domains.{is_native, names_native};
ghost use Rattle.machine_defs.specs.CodeFits.{FitsStand, stand_of};
ghost use Rattle.machine_defs.specs.CodeLaws.{FitsArguments};
ghost use Rattle.machine_defs.specs.declared.frame.FrameBody.TheVariants as body;
ghost use Rattle.machine_defs.specs.Arguments.{entry_registers};
ghost use Rattle.rl_defs.specs.CodeNames.{entry_at};
ghost use Rattle.code_runs.specs.Seen.{types_of};
ghost use Rattle.code_runs.specs.Entered.{method_for, may_begin};

use crate::answers::args_are;
use crate::rows::{methods_of, place_of, trait_number};
use crate::view::MemoryView;
use code_machine::entry::body_at_entry;
use machine_defs::frame::FrameBody;
use machine_defs::values::Arg;
use rl_defs::bundle::Numbered;
use rl_defs::checked::CheckedDomain;
use rl_defs::code::DomainLine;
use rl_defs::lookups::trait_name;

fn names_native(form: &DomainLine) -> bool
    ensures { result ≡ names_native form.now }
{
    matches!(form, DomainLine::Native(_))
}

fn is_native(lines: &[Numbered<DomainLine>]) -> bool
    ensures { result ≡ is_native lines.now }
{
    lines.iter().any(|line| names_native(&line.form))
}

/// The number of the method of a name of the domain's trait, where the arguments are of its
/// parameters.
pub fn method_for(
    domain: &CheckedDomain,
    view: &MemoryView,
    name: &[u8],
    args: &[Arg],
) -> Option<u32>
    ensures exact { result ≡ method_for (types_of view.now) domain.now name.now args.now }
    ensures fits { IfSome result (λ m. FitsArguments (types_of view.now) domain.now m args.now) }
{
    // Its contract says that the tables are small.
    let _ = domain.lines();
    let of = trait_number(domain, trait_name(domain.lines()));
    let methods = methods_of(domain.tables(), of);
    let number = place_of(methods, name)?;
    if args_are(view, methods[number].params.as_slice(), args) {
        Some(number as u32)
    } else {
        None
    }
}

/// The body of a frame that begins a method of the domain, by the method's name. None where the
/// domain has a native body or no such method, or the arguments don't fit.
pub fn begin(
    domain: &CheckedDomain,
    view: &MemoryView,
    name: &[u8],
    args: &[Arg],
) -> Option<FrameBody<()>>
    ensures exact { is_some result ≡ may_begin (types_of view.now) domain.now name.now args.now }
    ensures begins { IfSome result (λ b. (method place : ℕ) →
        method_for (types_of view.now) domain.now name.now args.now ≡ Some method → entry_at domain.now method
        ≡ Some place → b ≡ body.Code place (entry_registers args.now)) }
    ensures fits { IfSome result (λ body. FitsStand (types_of view.now) domain.now (stand_of body)) }
{
    if is_native(domain.lines()) {
        return None;
    }
    let method = method_for(domain, view, name, args)?;
    Some(body_at_entry(domain, method, args))
}
