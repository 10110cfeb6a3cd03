//! Rule 51: no object is used that is gone, and none goes two ways in one call.
ghost use Rattle.std.specs.Prelude.{◌≡◌, ℕ, ◌≤◌, not, ◌++◌, List, [], length, drop, OnOk, IfOk};
ghost use Rattle.std.specs.List.{list_any, flat_map};
ghost use Rattle.std.specs.Option.{option_to_list};
ghost use Rattle.rl_defs.specs.NameRules.{names_used, name_passed};
ghost use Rattle.rl_defs.specs.ScriptRules.{is_among, moved_by, lent_by, gone_by, are_distinct, args_of, keeps_owned};

use crate::bindings::Bindings;
use crate::fits::names_object;
use rl_defs::bundle::{ClientLine, ScriptArgText};
use rl_defs::list::List;
use rl_defs::name::Name;
use std::alloc::{AllocError, Global};

// The name that an argument uses.
fn name_passed(arg: &ScriptArgText) -> Option<Name>
    ensures { option_to_list result ≡ name_passed arg.now }
{
    match arg {
        ScriptArgText::Name(name) | ScriptArgText::Lent(name) => Some(*name),
        _ => None,
    }
}

// The name whose object an argument moves.
fn name_moved(bindings: &Bindings, arg: &ScriptArgText) -> Option<Name>
    ensures { option_to_list result ≡ moved_by bindings.now.bound arg.now }
{
    match arg {
        ScriptArgText::Name(name) => {
            if names_object(bindings, name) {
                Some(*name)
            } else {
                None
            }
        }
        _ => None,
    }
}

// The name whose object an argument lends.
fn name_lent(arg: &ScriptArgText) -> Option<Name>
    ensures { option_to_list result ≡ lent_by arg.now }
{
    match arg {
        ScriptArgText::Lent(name) => Some(*name),
        _ => None,
    }
}

fn args_of(form: &ClientLine) -> &[ScriptArgText]
    ensures { result.now ≡ args_of form.now }
{
    match form {
        ClientLine::Call { args, .. } => args.as_slice(),
        _ => &[],
    }
}

fn push(names: &mut List<Name>, name: Option<Name>) -> Result<(), AllocError>
    ensures { OnOk result (names.new ≡ names.old ++ option_to_list name) }
{
    match name {
        Some(name) => names.push(name),
        None => Ok(()),
    }
}

/// The names whose objects a call moves, in the order of its arguments.
pub fn names_moved(
    alloc: Global,
    bindings: &Bindings,
    form: &ClientLine,
) -> Result<List<Name>, AllocError>
    ensures { IfOk result (λ names. names ≡ flat_map (moved_by bindings.now.bound) (args_of form.now)) }
{
    let mut names = List::new(alloc);
    let args = args_of(form);
    'each: for arg in args {
        push(&mut names, name_moved(bindings, arg))?;
    }
    Ok(names)
}

fn is_gone(bindings: &Bindings, name: Option<Name>) -> bool
    ensures { result ≡ list_any (λ other. is_among other bindings.now.gone) (option_to_list name) }
{
    match name {
        Some(name) => bindings.is_gone(&name),
        None => false,
    }
}

fn args_are_gone(bindings: &Bindings, args: &[ScriptArgText]) -> bool
    ensures { result ≡ list_any (λ other. is_among other bindings.now.gone) (flat_map name_passed args.now) }
{
    'each: for arg in args {
        if is_gone(bindings, name_passed(arg)) {
            return true;
        }
    }
    false
}

// Whether the line uses a name whose object is gone.
fn uses_gone(bindings: &Bindings, form: &ClientLine) -> bool
    ensures { result ≡ list_any (λ other. is_among other bindings.now.gone) (names_used form.now) }
{
    match form {
        ClientLine::Call { args, .. } => args_are_gone(bindings, args.as_slice()),
        ClientLine::Show(name) | ClientLine::Drop(name) => is_gone(bindings, Some(*name)),
        _ => false,
    }
}

fn is_among_from(name: &Name, names: &[Name], from: usize) -> bool
    requires { from ≤ length names.now }
    ensures { result ≡ is_among name.now (drop from names.now) }
{
    'each: for k in from..names.len() {
        if names[k] == *name {
            return true;
        }
    }
    false
}

// Whether no name stands twice. The names are those that one call moves.
fn are_distinct(names: &[Name]) -> bool
    ensures { result ≡ are_distinct names.now }
{
    'each: for k in 0..names.len() {
        if is_among_from(&names[k], names, k + 1) {
            return false;
        }
    }
    true
}

fn is_name(name: &Name, other: Option<Name>) -> bool
    ensures { result ≡ is_among name.now (option_to_list other) }
{
    match other {
        Some(other) => other == *name,
        None => false,
    }
}

// Whether an argument lends the object of this name.
fn is_lent(name: &Name, args: &[ScriptArgText]) -> bool
    ensures { result ≡ is_among name.now (flat_map lent_by args.now) }
{
    'each: for arg in args {
        if is_name(name, name_lent(arg)) {
            return true;
        }
    }
    false
}

fn are_lent(names: &[Name], args: &[ScriptArgText]) -> bool
    ensures { result ≡ list_any (λ name. is_among name (flat_map lent_by args.now)) names.now }
{
    'each: for name in names {
        if is_lent(name, args) {
            return true;
        }
    }
    false
}

/// Whether the line keeps every sentence of rule 51. The names are those whose objects it moves.
pub fn keeps_owned(bindings: &Bindings, form: &ClientLine, moved: &[Name]) -> bool
    requires { moved.now ≡ flat_map (moved_by bindings.now.bound) (args_of form.now) }
    ensures { result ≡ keeps_owned bindings.now.bound bindings.now.gone form.now }
{
    !uses_gone(bindings, form) && are_distinct(moved) && !are_lent(moved, args_of(form))
}

fn leave_all(bindings: &mut Bindings, names: &[Name]) -> Result<(), AllocError>
    ensures { OnOk result (bindings.new ≡ record {
      names = bindings.old.names;
      bound = bindings.old.bound;
      gone = bindings.old.gone ++ names.now;
    }) }
{
    'each: for name in names {
        bindings.leave(name)?;
    }
    Ok(())
}

/// Notes the objects that the line moves, or drops.
pub fn leave(bindings: &mut Bindings, form: &ClientLine, moved: &[Name]) -> Result<(), AllocError>
    requires { moved.now ≡ flat_map (moved_by bindings.old.bound) (args_of form.now) }
    ensures { OnOk result (bindings.new ≡ record {
      names = bindings.old.names;
      bound = bindings.old.bound;
      gone = bindings.old.gone ++ gone_by bindings.old.bound form.now;
    }) }
{
    match form {
        ClientLine::Call { .. } => leave_all(bindings, moved),
        ClientLine::Drop(name) => bindings.leave(name),
        _ => Ok(()),
    }
}
