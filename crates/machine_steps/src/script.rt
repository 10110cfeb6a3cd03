//! Steps of a script that change nothing but its thread.
ghost use Rattle.std.specs.Prelude.{◌≡◌, ℕ, OnOk, OnErr};
ghost use Rattle.machine_defs.specs.declared.entry.Entry.TheVariants as entry;
ghost use Rattle.rl_defs.specs.declared.load.Command.TheVariants as command;
ghost use Rattle.machine_defs.specs.Objects.{shown};
ghost use Rattle.machine_defs.specs.Wants.{Skips, Finishes, Commands, wanted};
ghost use Rattle.machine_steps.specs.Kept.{MayStep, Went};
ghost use Rattle.machine_steps.specs.Calls.{IsNamed};

use crate::known::laws;
use crate::machine::Machine;
use crate::shown::shown;
use machine_defs::entry::Entry;
use std::alloc::{AllocError, Global};

impl Machine {
    /// The script of client `t` has ended.
    pub fn finish_script(&mut self, t: u32)
        requires may { MayStep self.old t }
        requires wants { wanted self.old.load self.old.state t ≡ Finishes }
        ensures { Went self.old self.new (entry.Done t) }
    {
        laws();
        self.log.put(Entry::Done { thread: t });
        self.threads.finish(t);
    }

    /// The next command of client `t`, with this number, can't be done.
    pub fn skip(&mut self, t: u32, number: u32)
        requires may { MayStep self.old t }
        requires wants { wanted self.old.load self.old.state t ≡ Skips number }
        ensures { Went self.old self.new (entry.Skip t number) }
    {
        laws();
        self.log.put(Entry::Skip {
            thread: t,
            command: number,
        });
        self.threads
            .set_fuel(t, self.load.rows().fuel.saturating_sub(1));
        self.threads.end_command(t, &[], &[]);
    }

    /// Client `t` lists the cells of the object that this name of its script holds. After
    /// `AllocError` all is as before.
    pub fn show(&mut self, alloc: Global, t: u32, k: u32, o: u64) -> Result<(), AllocError>
        requires may { MayStep self.old t }
        requires wants { wanted self.old.load self.old.state t ≡ Commands (command.Show k) }
        requires named { IsNamed self.old t k o }
        ensures ok { OnOk result (Went self.old self.new (entry.Show t o (shown self.old.state o))) }
        ensures err { OnErr result (self.new ≡ self.old) }
    {
        laws();
        self.heap.is_kept();
        let values = shown(alloc, &self.heap, o)?;
        self.log.put(Entry::Show {
            thread: t,
            object: o,
            values,
        });
        self.threads
            .set_fuel(t, self.load.rows().fuel.saturating_sub(1));
        self.threads.end_command(t, &[], &[]);
        Ok(())
    }
}
