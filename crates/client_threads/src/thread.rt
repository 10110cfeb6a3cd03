//! One client's thread.
ghost use Rattle.std.specs.Prelude.{◌≡◌, ◌+◌, ◌<◌, ◌≤◌, ◌^◌, length, map, true, is_some, slice_get, IfOk};
ghost use Rattle.std.specs.List.{list_all, flat_map};
ghost use Rattle.std.specs.Option.{option_copied};
ghost use Rattle.rl_defs.specs.Rows.{row, commands_of};
ghost use Rattle.machine_defs.specs.State.{first_thread};
ghost use Rattle.machine_defs.specs.Wants.{name_held, used, used_by_arg, arg_of};
ghost use Rattle.machine_defs.specs.Frames.{bind};
ghost use Rattle.machine_defs.specs.Calling.{with_fuel};
ghost use Rattle.machine_defs.specs.ObjectRows.{without_name};
ghost use Rattle.client_threads.specs.GivenUp.{given_up_names};

use crate::names;
use machine_defs::arrays::Args;
use machine_defs::values::Arg;
use rl_defs::load::{ClientRow, Command, Load, ScriptArg};
use rl_defs::values::Value;
use std::alloc::{AllocError, Global};
use std::marker::Model;

/// A client's thread beside its stack: its fuel, the place of the next command in the script, what
/// the script's names hold, and whether it is done. Contracts see the thread of the machine's
/// state.
#[derive(Debug, Drop)]
pub struct Thread {
    fuel: u32,
    place: u32,
    names: Vec<Option<Value>>,
    done: bool,
}

impl Model for Thread {
    ghost use Rattle.machine_defs.specs.State.{Thread as Row};

    ghost Value = { Row };

    ghost view = { λ x. record { fuel = x.fuel; place = x.place; names = x.names.items; done = x.done } };
}

impl Thread {
    /// The thread of a client before its first command, with no fuel and no name bound.
    pub fn first(alloc: Global, client: &ClientRow) -> Result<Thread, AllocError>
        ensures { IfOk result (λ x. x ≡ first_thread client.now) }
    {
        let names = names::unbound(alloc, client.commands.as_slice())?;
        Ok(Thread {
            fuel: 0,
            place: 0,
            names,
            done: false,
        })
    }

    /// The fuel that is left of its command.
    pub fn fuel(&self) -> u32
        ensures { result ≡ self.now.fuel }
    {
        self.fuel
    }

    /// The place of its next command in the script, from 0.
    pub fn place(&self) -> u32
        ensures { result ≡ self.now.place }
    {
        self.place
    }

    /// Whether its script has ended.
    pub fn is_done(&self) -> bool
        ensures { result ≡ self.now.done }
    {
        self.done
    }

    /// What a name of the script holds. None where it holds nothing, or where the script has no
    /// such name.
    pub fn name(&self, k: u32) -> Option<Value>
        ensures { result ≡ name_held self.now.names k }
    {
        names::get(self.names.as_slice(), k)
    }

    /// Whether all names that a command uses hold something.
    pub fn has_names(&self, command: &Command) -> bool
        ensures { result ≡ list_all (λ k. is_some (name_held self.now.names k)) (used command.now) }
    {
        match command {
            Command::Call { args, .. } => self.has_given(args.as_slice()),
            Command::Show(k) | Command::Drop(k) => self.name(*k).is_some(),
            Command::Let { .. } | Command::Text { .. } | Command::Kill(_) => true,
        }
    }

    // Whether all names among these arguments hold something.
    fn has_given(&self, args: &[ScriptArg]) -> bool
        ensures { result ≡ list_all (λ k. is_some (name_held self.now.names k)) (flat_map used_by_arg args.now) }
    {
        'each: for arg in args {
            if let ScriptArg::Name(k) | ScriptArg::Lent(k) = arg {
                if self.name(*k).is_none() {
                    return false;
                }
            }
        }
        true
    }

    /// What the arguments of a command stand for.
    pub fn args(&self, args: &[ScriptArg]) -> Args
        requires { length args.now ≤ 8 }
        ensures { result ≡ map (arg_of self.now.names) args.now }
    {
        let mut all = Args::new();
        'each: for arg in args {
            all.push(self.arg(arg));
        }
        all
    }

    // What an argument of a command stands for.
    fn arg(&self, arg: &ScriptArg) -> Arg
        ensures { result ≡ arg_of self.now.names arg.now }
    {
        match arg {
            ScriptArg::Num(number) => Arg::Num(*number),
            ScriptArg::Name(k) => names::given(self.name(*k)),
            ScriptArg::Lent(k) => names::lent(self.name(*k)),
            ScriptArg::Target(target) => Arg::Cap(*target),
        }
    }

    /// The next command of the script of client `t`. None exactly where that script has ended, or
    /// there is no such client.
    pub fn command<'a>(&self, load: &'a Load, t: u32) -> Option<&'a Command>
        ensures { option_copied result ≡ slice_get (commands_of (row load.now.clients t)) self.now.place }
    {
        if t == 0 {
            return None;
        }
        match load.rows().clients.get(t as usize - 1) {
            Some(client) => client.commands.get(self.place as usize),
            None => None,
        }
    }

    /// Gives it this much fuel.
    pub fn set_fuel(&mut self, fuel: u32)
        ensures { self.new ≡ with_fuel fuel self.old }
    {
        self.fuel = fuel;
    }

    /// Its script has ended.
    pub fn finish(&mut self)
        ensures { self.new ≡ record self.old { done = true } }
    {
        self.done = true;
    }

    /// A name holds nothing any more.
    pub fn unbind(&mut self, k: u32)
        ensures { self.new ≡ without_name k self.old }
    {
        names::set(self.names.as_mut_slice(), k, None);
    }

    /// The names among the arguments that hold an object hold nothing any more: the call moves
    /// those objects.
    pub fn give_up(&mut self, args: &[ScriptArg])
        ensures { self.new ≡ record self.old { names = given_up_names args.now self.old.names } }
    {
        names::give_up(self.names.as_mut_slice(), args);
    }

    /// Its command is done: the command's names hold the results, and the next command comes.
    pub fn end_command(&mut self, names: &[u32], results: &[Value])
        requires { self.old.place + 1 < 2 ^ 32 }
        ensures { self.new
            ≡ record self.old { place = self.old.place + 1; names = bind names.now results.now self.old.names } }
    {
        names::bind(self.names.as_mut_slice(), names, results);
        self.place += 1;
    }
}
