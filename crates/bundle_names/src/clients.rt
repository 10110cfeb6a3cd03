//! Rules 3 and 4 in the clients.
ghost use Rattle.std.specs.Prelude.{◌≡◌, ◌++◌, IfOk, OnOk};
ghost use Rattle.std.specs.List.{flat_map, list_any};
ghost use Rattle.rl_defs.specs.Refusals.{Answers};
ghost use Rattle.rl_defs.specs.BundleOrder.{IsOrdered};
ghost use Rattle.rl_defs.specs.NameRules.{target_passed, name_passed};
ghost use Rattle.bundle_names.specs.Tests.{repeats, has_unknown};
ghost use Rattle.bundle_names.specs.ClientNames.{FailsClientNames, no_scripts, usable_names, script_after, names_again, uses_nothing};

use crate::interfaces::struct_names;
use crate::known::{add, is_unknown, target_names};
use crate::plan::rule_of;
use name_tables::names::Names;
use rl_defs::LoadFault;
use rl_defs::bundle::{Bundle, ClientLine, ScriptArgText};
use rl_defs::name::Name;
use std::alloc::{AllocError, Global};

/// The names that a client's lines may use.
#[derive(Drop)]
pub struct Usable {
    pub structs: Names,
    pub targets: Names,
}

/// The names of the clients so far, and the script names that the lines of the open one bind.
#[derive(Drop)]
pub struct Scripts {
    pub clients: Names,
    pub bound: Names,
}

/// Checks the names in the clients: the first line that gives a client's name again or binds a
/// script name again in its client (rule 3), or that names a struct, a target, or a script name
/// that no earlier line of its client binds (rule 4).
pub fn check_client_names(alloc: Global, bundle: &Bundle) -> Result<(), LoadFault>
    requires ordered { IsOrdered bundle.now }
    ensures { Answers (FailsClientNames bundle.now) (λ _. Unit {0}) result }
{
    let usable = usable_names(alloc, bundle)?;
    let mut scripts = no_scripts(alloc);
    'lines: for line in bundle.clients.lines.as_slice() {
        let nothing = uses_nothing(&usable, &scripts, &line.form);
        let again = take(&mut scripts, &line.form)?;
        if let Some(rule) = rule_of(again, nothing) {
            return Err(LoadFault::refused(line.line, rule));
        }
    }
    Ok(())
}

pub(crate) fn usable_names(alloc: Global, bundle: &Bundle) -> Result<Usable, AllocError>
    ensures { IfOk result (λ u. u ≡ usable_names bundle.now) }
{
    let structs = struct_names(alloc, bundle.idl.lines.as_slice())?;
    let targets = target_names(alloc, bundle.plan.lines.as_slice())?;
    Ok(Usable { structs, targets })
}

pub(crate) fn no_scripts(alloc: Global) -> Scripts
    ensures { result ≡ no_scripts }
{
    Scripts {
        clients: Names::new(alloc),
        bound: Names::new(alloc),
    }
}

// Binds the names of a line, and says whether one of them was bound before.
fn bind_all(bound: &mut Names, names: &[Name]) -> Result<bool, AllocError>
    ensures again { IfOk result (λ again. again ≡ repeats bound.old names.now) }
    ensures bound { OnOk result (bound.new ≡ bound.old ++ names.now) }
{
    let mut again = false;
    'names: for name in names {
        let repeated = add(bound, name)?;
        again = again || repeated;
    }
    Ok(again)
}

// Takes what a line of the clients gives, and says whether it was given before.
pub(crate) fn take(scripts: &mut Scripts, form: &ClientLine) -> Result<bool, AllocError>
    ensures again { IfOk result (λ again. again ≡ names_again scripts.old form.now) }
    ensures after { OnOk result (scripts.new ≡ script_after scripts.old form.now) }
{
    match form {
        ClientLine::Client(name) => {
            scripts.bound.clear();
            add(&mut scripts.clients, name)
        }
        ClientLine::Let { name, .. } | ClientLine::Text { name, .. } => {
            add(&mut scripts.bound, name)
        }
        ClientLine::Call { names, .. } => bind_all(&mut scripts.bound, names.as_slice()),
        _ => Ok(false),
    }
}

// Whether an argument names a target that isn't declared.
fn passes_no_target(targets: &Names, arg: &ScriptArgText) -> bool
    ensures { result ≡ has_unknown targets.now (target_passed arg.now) }
{
    match arg {
        ScriptArgText::Target(name) => is_unknown(targets, name),
        _ => false,
    }
}

fn one_passes_no_target(targets: &Names, args: &[ScriptArgText]) -> bool
    ensures { result ≡ list_any (λ arg. has_unknown targets.now (target_passed arg)) args.now }
{
    args.iter().any(|arg| passes_no_target(targets, arg))
}

// Whether one of the arguments names a target that isn't declared.
fn pass_no_target(targets: &Names, args: &[ScriptArgText]) -> bool
    ensures { result ≡ has_unknown targets.now (flat_map target_passed args.now) }
{
    one_passes_no_target(targets, args)
}

// Whether an argument is a script name that isn't bound.
fn passes_no_name(bound: &Names, arg: &ScriptArgText) -> bool
    ensures { result ≡ has_unknown bound.now (name_passed arg.now) }
{
    match arg {
        ScriptArgText::Name(name) | ScriptArgText::Lent(name) => is_unknown(bound, name),
        _ => false,
    }
}

fn one_passes_no_name(bound: &Names, args: &[ScriptArgText]) -> bool
    ensures { result ≡ list_any (λ arg. has_unknown bound.now (name_passed arg)) args.now }
{
    args.iter().any(|arg| passes_no_name(bound, arg))
}

// Whether one of the arguments is a script name that isn't bound.
fn pass_no_name(bound: &Names, args: &[ScriptArgText]) -> bool
    ensures { result ≡ has_unknown bound.now (flat_map name_passed args.now) }
{
    one_passes_no_name(bound, args)
}

// Whether a line names what nothing declares, or a script name that no earlier line of its client
// binds.
pub(crate) fn uses_nothing(usable: &Usable, scripts: &Scripts, form: &ClientLine) -> bool
    ensures { result ≡ uses_nothing usable.now scripts.now form.now }
{
    match form {
        ClientLine::Let { ty, .. } | ClientLine::Text { ty, .. } => {
            is_unknown(&usable.structs, ty)
        }
        ClientLine::Call { target, args, .. } => {
            is_unknown(&usable.targets, target)
                || pass_no_target(&usable.targets, args.as_slice())
                || pass_no_name(&scripts.bound, args.as_slice())
        }
        ClientLine::Kill(target) => is_unknown(&usable.targets, target),
        ClientLine::Show(name) | ClientLine::Drop(name) => is_unknown(&scripts.bound, name),
        ClientLine::Client(_) | ClientLine::Close => false,
    }
}
