//! What the lines of a script stand for.
ghost use Rattle.std.specs.Prelude.{◌≡◌, ℕ, List, [], map, unwrap_or, IfOk};
ghost use Rattle.std.specs.Option.{option_to_list};
ghost use Rattle.rl_defs.specs.LoadOf.{name_number, arg_of, method_number_of, commands_in};

use crate::bindings::Bindings;
use crate::scope::Scope;
use rl_defs::bundle::{ClientLine, ScriptArgText};
use rl_defs::copies::Copies;
use rl_defs::list::List;
use rl_defs::load::{Command, ScriptArg};
use rl_defs::name::Name;
use std::alloc::{AllocError, Global};

fn copy_bytes(alloc: Global, bytes: &[u8]) -> Result<List<u8>, AllocError>
    ensures { IfOk result (λ copy. copy ≡ bytes.now) }
{
    let mut copy = List::new(alloc);
    'each: for byte in bytes {
        copy.push(*byte)?;
    }
    Ok(copy)
}

fn arg_of(scope: &Scope, bindings: &Bindings, arg: &ScriptArgText) -> ScriptArg
    ensures { result ≡ arg_of scope.now.bundle bindings.now.names arg.now }
{
    match arg {
        ScriptArgText::Num(n) => ScriptArg::Num(*n),
        ScriptArgText::Name(name) => ScriptArg::Name(bindings.number(name)),
        ScriptArgText::Lent(name) => ScriptArg::Lent(bindings.number(name)),
        ScriptArgText::Target(name) => ScriptArg::Target(scope.target_number(name)),
    }
}

fn args_of(
    alloc: Global,
    scope: &Scope,
    bindings: &Bindings,
    args: &[ScriptArgText],
) -> Result<List<ScriptArg>, AllocError>
    ensures { IfOk result (λ all. all ≡ map (arg_of scope.now.bundle bindings.now.names) args.now) }
{
    let mut all = List::new(alloc);
    'each: for arg in args {
        all.push(arg_of(scope, bindings, arg))?;
    }
    Ok(all)
}

fn numbers_of(alloc: Global, bindings: &Bindings, names: &[Name]) -> Result<List<u32>, AllocError>
    ensures { IfOk result (λ all. all ≡ map (name_number bindings.now.names) names.now) }
{
    let mut all = List::new(alloc);
    'each: for name in names {
        all.push(bindings.number(name))?;
    }
    Ok(all)
}

fn method_number_of(scope: &Scope, target: &Name, method: &Name) -> u32
    ensures { result ≡ method_number_of scope.now.tables scope.now.bundle target.now method.now }
{
    scope
        .method_number(scope.target_trait(target), method)
        .unwrap_or(0)
}

/// The command that a line stands for, where the names of the line and of those before it are
/// bound. A line that isn't a command stands for none.
pub fn command_of(
    alloc: Global,
    scope: &Scope,
    bindings: &Bindings,
    form: &ClientLine,
) -> Result<Option<Command>, AllocError>
    ensures { IfOk result (λ command. option_to_list command
        ≡ commands_in scope.now.tables scope.now.bundle bindings.now.names form.now) }
{
    let command = match form {
        ClientLine::Let { name, ty, values } => Command::Let {
            name: bindings.number(name),
            ty: scope.struct_number(ty),
            values: values.copy(alloc)?,
        },
        ClientLine::Text { name, ty, bytes } => Command::Text {
            name: bindings.number(name),
            ty: scope.struct_number(ty),
            bytes: copy_bytes(alloc, bytes.as_slice())?,
        },
        ClientLine::Call {
            target,
            method,
            args,
            names,
        } => Command::Call {
            target: scope.target_number(target),
            method: method_number_of(scope, target, method),
            args: args_of(alloc, scope, bindings, args.as_slice())?,
            names: numbers_of(alloc, bindings, names.as_slice())?,
        },
        ClientLine::Show(name) => Command::Show(bindings.number(name)),
        ClientLine::Drop(name) => Command::Drop(bindings.number(name)),
        ClientLine::Kill(target) => Command::Kill(scope.target_number(target)),
        _ => return Ok(None),
    };
    Ok(Some(command))
}
