//! Steps of a script on the objects that its names hold, and on those that it makes.
ghost use Rattle.std.specs.Prelude.{◌≡◌, ℕ, List, true, OnOk, OnErr};
ghost use Rattle.machine_defs.specs.declared.values.Owner.TheVariants as owner;
ghost use Rattle.machine_defs.specs.declared.entry.Entry.TheVariants as entry;
ghost use Rattle.rl_defs.specs.declared.load.Command.TheVariants as command;
ghost use Rattle.rl_defs.specs.declared.load.Command.{Command};
ghost use Rattle.machine_defs.specs.ObjectRows.{Gives};
ghost use Rattle.machine_defs.specs.Wants.{Commands, makes, wanted};
ghost use Rattle.machine_steps.specs.Kept.{MayStep, Went};
ghost use Rattle.machine_steps.specs.Calls.{IsNamed};

use crate::given::{name_given, next_command, struct_given, struct_row, values_given};
use crate::known::laws;
use crate::machine::Machine;
use machine_defs::entry::Entry;
use machine_defs::values::Owner;
use rl_defs::values::Value;
use std::alloc::{AllocError, Global};

impl Machine {
    /// Client `t` drops the object that this name of its script holds, and the name holds nothing
    /// any more. What hung in the object is freed. It takes no memory.
    pub fn drop_named(&mut self, t: u32, k: u32, o: u64)
        requires may { MayStep self.old t }
        requires wants { wanted self.old.load self.old.state t ≡ Commands (command.Drop k) }
        requires named { IsNamed self.old t k o }
        ensures { Went self.old self.new (entry.Drop t o) }
    {
        laws();
        self.heap.is_kept();
        self.threads
            .set_fuel(t, self.load.rows().fuel.saturating_sub(1));
        self.threads.unbind(t, k);
        self.threads.end_command(t, &[], &[]);
        self.log.put(Entry::Drop {
            thread: t,
            object: o,
        });
        self.heap.drop_object(o);
        self.heap.sweep(&mut self.log);
    }

    /// Client `t` makes the object that its next command gives, and the command's name holds it.
    /// After `AllocError` all is as before.
    pub fn make_named(&mut self, alloc: Global, t: u32) -> Result<(), AllocError>
        requires may { MayStep self.old t }
        requires wants { (next : Command)
            × (wanted self.old.load self.old.state t ≡ Commands next)
            × (makes next ≡ true) }
        ensures ok { OnOk result ((next : Command) (ty : ℕ) (values : List ℕ)
            → wanted self.old.load self.old.state t ≡ Commands next → Gives next ty values
            → Went self.old self.new (entry.New t (owner.Client t) self.old.state.next_object ty values)) }
        ensures err { OnErr result (self.new ≡ self.old) }
    {
        laws();
        self.heap.is_kept();
        let Some(command) = next_command(&self.load, &self.threads, t) else {
            unreachable!();
        };
        let ty = struct_given(command);
        let name = name_given(command);
        let Some(of) = struct_row(&self.load, ty) else {
            unreachable!();
        };
        let values = values_given(alloc, command)?;
        self.heap.reserve_one(alloc, of)?;
        let o = self.heap.make(ty, Owner::Client(t));
        self.heap.set(o, 0, values.as_slice());
        self.log.put(Entry::New {
            thread: t,
            owner: Owner::Client(t),
            object: o,
            ty,
            values,
        });
        self.threads
            .set_fuel(t, self.load.rows().fuel.saturating_sub(1));
        self.threads.end_command(t, &[name], &[Value::Obj(o)]);
        Ok(())
    }
}
