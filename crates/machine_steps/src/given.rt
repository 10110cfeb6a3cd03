//! What the next command of a script gives, where it makes an object.
ghost use Rattle.std.specs.Prelude.{◌≡◌, IfOk, Some, slice_get};
ghost use Rattle.std.specs.Option.{option_copied};
ghost use Rattle.rl_defs.specs.Rows.{row, commands_of};
ghost use Rattle.machine_defs.specs.State.{Thread};
ghost use Rattle.machine_steps.specs.Given.{name_given, struct_given, values_given};

use client_threads::Threads;
use rl_defs::copies::Copies;
use rl_defs::list::List;
use rl_defs::load::{Command, Load};
use rl_defs::tables::StructRow;
use std::alloc::{AllocError, Global};

/// The next command of the script of client `t`.
pub(crate) fn next_command<'a>(load: &'a Load, threads: &Threads, t: u32) -> Option<&'a Command>
    ensures { (x : Thread) → row threads.now t ≡ Some x
        → option_copied result ≡ slice_get (commands_of (row load.now.clients t)) x.place }
{
    threads.thread(t)?.command(load, t)
}

/// The struct of a number.
pub(crate) fn struct_row(load: &Load, ty: u32) -> Option<&StructRow>
    ensures { option_copied result ≡ slice_get load.now.tables.structs ty }
{
    load.rows().tables.get().structs.get(ty as usize)
}

/// The name that a command binds to the object that it makes; 0 where it makes none.
pub(crate) fn name_given(command: &Command) -> u32
    ensures { result ≡ name_given command.now }
{
    match command {
        Command::Let { name, .. } | Command::Text { name, .. } => *name,
        Command::Call { .. } | Command::Show(_) | Command::Drop(_) | Command::Kill(_) => 0,
    }
}

/// The struct of the object that a command makes; 0 where it makes none.
pub(crate) fn struct_given(command: &Command) -> u32
    ensures { result ≡ struct_given command.now }
{
    match command {
        Command::Let { ty, .. } | Command::Text { ty, .. } => *ty,
        Command::Call { .. } | Command::Show(_) | Command::Drop(_) | Command::Kill(_) => 0,
    }
}

// These bytes, as numbers.
fn numbers_of(alloc: Global, bytes: &[u8]) -> Result<List<u64>, AllocError>
    ensures { IfOk result (λ numbers. numbers ≡ bytes.now) }
{
    let mut numbers = List::new(alloc);
    'bytes: for byte in bytes {
        numbers.push(u64::from(*byte))?;
    }
    Ok(numbers)
}

/// The values of the first cells of the object that a command makes; none where it makes none.
pub(crate) fn values_given(alloc: Global, command: &Command) -> Result<List<u64>, AllocError>
    ensures { IfOk result (λ values. values ≡ values_given command.now) }
{
    match command {
        Command::Let { values, .. } => values.copy(alloc),
        Command::Text { bytes, .. } => numbers_of(alloc, bytes.as_slice()),
        Command::Call { .. } | Command::Show(_) | Command::Drop(_) | Command::Kill(_) => {
            Ok(List::new(alloc))
        }
    }
}
