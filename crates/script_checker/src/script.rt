//! One script: its lines in order, up to the first that is refused.
ghost use Rattle.std.specs.Prelude.{◌≡◌, ℕ, true, List, [], ◌∷◌, ◌++◌, None, length, OnOk, IfOk};
ghost use Rattle.std.specs.List.{flat_map};
ghost use Rattle.std.specs.Option.{option_copied, option_to_list};
ghost use Rattle.rl_defs.specs.declared.LoadFault.TheVariants.{Refused as IsRefused};
ghost use Rattle.rl_defs.specs.CodeNames.{results_of};
ghost use Rattle.rl_defs.specs.BundleNames.{name_given};
ghost use Rattle.rl_defs.specs.ScriptRules.{Bound, binds, paired, keeps_kinds, names_suit, moved_by, args_of};
ghost use Rattle.rl_defs.specs.LoadOf.{commands_in};
ghost use Rattle.script_checker.specs.Known.{nothing, after, with_names};
ghost use Rattle.script_checker.specs.Verdicts.{broken, refusal_at, verdict, commands_behind, Says};

use crate::bindings::Bindings;
use crate::commands::command_of;
use crate::fits::{keeps_kinds, method_of_call};
use crate::owned::{keeps_owned, leave, names_moved};
use crate::scope::Scope;
use rl_defs::LoadFault;
use rl_defs::bundle::{ClientLine, Numbered};
use rl_defs::list::List;
use rl_defs::load::Command;
use rl_defs::name::Name;
use rl_defs::tables::{Kind, MethodRow};
use std::alloc::{AllocError, Global};

// Binds names to the results of a method, as many as there are of both.
fn bind_all(bindings: &mut Bindings, names: &[Name], kinds: &[Kind]) -> Result<(), AllocError>
    requires { length names.now ≡ length kinds.now }
    ensures { OnOk result (bindings.new ≡ with_names bindings.old names.now (paired names.now kinds.now)) }
{
    'each: for k in 0..names.len() {
        bindings.bind(&names[k], kinds[k])?;
    }
    Ok(())
}

fn bind_results(
    bindings: &mut Bindings,
    names: &[Name],
    method: Option<&MethodRow>,
) -> Result<(), AllocError>
    requires { names_suit (results_of (option_copied method)) names.now ≡ true }
    ensures { OnOk result (bindings.new ≡ with_names bindings.old names.now
        (paired names.now (results_of (option_copied method.entry)))) }
{
    match method {
        Some(row) => {
            if names.is_empty() {
                return Ok(());
            }
            bind_all(bindings, names, row.results.as_slice())
        }
        None => Ok(()),
    }
}

// Binds the names of a line.
fn bind(scope: &Scope, bindings: &mut Bindings, form: &ClientLine) -> Result<(), AllocError>
    requires { (bound : List Bound) × (keeps_kinds scope.now.tables scope.now.bundle bound form.now ≡ true) }
    ensures { OnOk result (bindings.new ≡ with_names bindings.old (name_given form.now)
        (binds scope.now.tables scope.now.bundle form.now)) }
{
    match form {
        ClientLine::Let { name, ty, .. } | ClientLine::Text { name, ty, .. } => {
            bindings.bind(name, Kind::Own(scope.struct_number(ty)))
        }
        ClientLine::Call {
            target,
            method,
            names,
            ..
        } => bind_results(
            bindings,
            names.as_slice(),
            method_of_call(scope, target, method),
        ),
        _ => Ok(()),
    }
}

// What is known behind a line that keeps the rules.
fn go_on(
    scope: &Scope,
    bindings: &mut Bindings,
    form: &ClientLine,
    moved: &[Name],
) -> Result<(), AllocError>
    requires moved { moved.now ≡ flat_map (moved_by bindings.old.bound) (args_of form.now) }
    requires kinds { keeps_kinds scope.now.tables scope.now.bundle bindings.old.bound form.now ≡ true }
    ensures { OnOk result (bindings.new ≡ after scope.now.tables scope.now.bundle bindings.old form.now) }
{
    leave(bindings, form, moved)?;
    bind(scope, bindings, form)
}

// Goes over one line.
fn step(
    alloc: Global,
    scope: &Scope,
    bindings: &mut Bindings,
    line: &Numbered<ClientLine>,
) -> Result<(), LoadFault>
    ensures { Says (refusal_at line.now.line (broken scope.now.tables scope.now.bundle bindings.old line.now.form))
        (λ _. bindings.new ≡ after scope.now.tables scope.now.bundle bindings.old line.now.form) result }
{
    if !keeps_kinds(scope, bindings, &line.form) {
        return Err(LoadFault::refused(line.line, 50));
    }
    let moved = names_moved(alloc, bindings, &line.form)?;
    if !keeps_owned(bindings, &line.form, moved.as_slice()) {
        return Err(LoadFault::refused(line.line, 51));
    }
    go_on(scope, bindings, &line.form, moved.as_slice())?;
    Ok(())
}

fn push(commands: &mut List<Command>, command: Option<Command>) -> Result<(), AllocError>
    ensures { OnOk result (commands.new ≡ commands.old ++ option_to_list command) }
{
    match command {
        Some(command) => commands.push(command),
        None => Ok(()),
    }
}

fn put_command(
    alloc: Global,
    scope: &Scope,
    bindings: &Bindings,
    form: &ClientLine,
    commands: &mut List<Command>,
) -> Result<(), LoadFault>
    ensures { Says None (λ _. commands.new
        ≡ commands.old ++ commands_in scope.now.tables scope.now.bundle bindings.now.names form.now) result }
{
    let command = command_of(alloc, scope, bindings, form)?;
    push(commands, command)?;
    Ok(())
}

/// The commands of a script, or the first line that rule 50 or 51 refuses, with the lower one that
/// it breaks.
pub fn check_script(
    alloc: Global,
    scope: &Scope,
    script: &[Numbered<ClientLine>],
) -> Result<List<Command>, LoadFault>
    ensures { Says (verdict scope.now.tables scope.now.bundle nothing script.now)
        (λ commands. commands ≡ commands_behind scope.now.tables scope.now.bundle nothing script.now) result }
{
    let mut bindings = Bindings::new(alloc);
    let mut commands = List::new(alloc);
    'each: for line in script {
        step(alloc, scope, &mut bindings, line)?;
        put_command(alloc, scope, &bindings, &line.form, &mut commands)?;
    }
    Ok(commands)
}
