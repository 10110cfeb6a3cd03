//! The names of a script, and what they hold.
ghost use Rattle.std.specs.Prelude.{◌≡◌, ◌++◌, length, replicate, slice_set, None, IfOk, OnOk};
ghost use Rattle.std.specs.List.{flat_map};
ghost use Rattle.rl_defs.specs.Rows.{bound_by};
ghost use Rattle.machine_defs.specs.Frames.{bind};
ghost use Rattle.machine_defs.specs.Wants.{given_arg, lent_arg, name_held};
ghost use Rattle.client_threads.specs.GivenUp.{given_up_names, without_object};

use machine_defs::values::Arg;
use rl_defs::load::{Command, ScriptArg};
use rl_defs::values::Value;
use std::alloc::{AllocError, Global};

/// The names that these commands bind, none of which holds anything yet.
pub fn unbound(alloc: Global, commands: &[Command]) -> Result<Vec<Option<Value>>, AllocError>
    ensures { IfOk result (λ v. v.items ≡ replicate (length (flat_map bound_by commands.now)) None) }
{
    let mut names = Vec::new(alloc);
    'commands: for command in commands {
        add_unbound(&mut names, count_of_bound(command))?;
    }
    Ok(names)
}

// So many more names, which hold nothing.
fn add_unbound(names: &mut Vec<Option<Value>>, count: usize) -> Result<(), AllocError>
    ensures { OnOk result (names.new.items ≡ names.old.items ++ replicate count None) }
{
    'names: for _ in 0..count {
        names.push(None)?;
    }
    Ok(())
}

// How many names a command binds.
fn count_of_bound(command: &Command) -> usize
    ensures { result ≡ length (bound_by command.now) }
{
    match command {
        Command::Let { .. } | Command::Text { .. } => 1,
        Command::Call { names, .. } => names.len(),
        Command::Show(_) | Command::Drop(_) | Command::Kill(_) => 0,
    }
}

/// Each of the names of a command holds the result at its place. A result without a name is let go,
/// and a name without a result keeps what it holds.
pub fn bind(held: &mut [Option<Value>], names: &[u32], results: &[Value])
    ensures { held.new ≡ bind names.now results.now held.old }
{
    'results: for (name, value) in names.iter().zip(results) {
        set(held, *name, Some(*value));
    }
}

/// The names that arguments move objects out of hold nothing any more.
pub fn give_up(held: &mut [Option<Value>], args: &[ScriptArg])
    ensures { held.new ≡ given_up_names args.now held.old }
{
    'each: for arg in args {
        if let ScriptArg::Name(name) = arg {
            give_up_object(held, *name);
        }
    }
}

// A name that holds an object holds nothing any more.
fn give_up_object(held: &mut [Option<Value>], name: u32)
    ensures { held.new ≡ without_object name (name_held held.old name) held.old }
{
    if let Some(Value::Obj(_)) = get(held, name) {
        set(held, name, None);
    }
}

/// What a name holds. None where it holds nothing, or where there is no such name.
pub fn get(held: &[Option<Value>], name: u32) -> Option<Value>
    ensures { result ≡ name_held held.now name }
{
    match held.get(name as usize) {
        Some(value) => *value,
        None => None,
    }
}

/// A name holds something else, or nothing any more. Where there is no such name, nothing changes.
pub fn set(held: &mut [Option<Value>], name: u32, content: Option<Value>)
    ensures { held.new ≡ slice_set held.old name content }
{
    let place = name as usize;
    if place < held.len() {
        held[place] = content;
    }
}

/// The argument that a name stands for where it isn't lent.
pub fn given(held: Option<Value>) -> Arg
    ensures { result ≡ given_arg held }
{
    match held {
        Some(Value::Num(number)) => Arg::Num(number),
        Some(Value::Obj(object)) => Arg::Moved(object),
        Some(Value::Cap(target)) => Arg::Cap(target),
        None => Arg::Num(0),
    }
}

/// The argument that a name stands for where it is lent.
pub fn lent(held: Option<Value>) -> Arg
    ensures { result ≡ lent_arg held }
{
    match held {
        Some(Value::Obj(object)) => Arg::Lent(object),
        _ => Arg::Num(0),
    }
}
