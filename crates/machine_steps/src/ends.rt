//! Ends of instances.
ghost use Rattle.std.specs.Prelude.{◌≡◌, ℕ};
ghost use Rattle.machine_defs.specs.declared.entry.Entry.TheVariants as entry;
ghost use Rattle.machine_defs.specs.declared.frame.Action.TheVariants as action;
ghost use Rattle.rl_defs.specs.declared.load.Command.TheVariants as command;
ghost use Rattle.machine_defs.specs.State.{current};
ghost use Rattle.machine_defs.specs.Wants.{Commands, wanted};
ghost use Rattle.machine_steps.specs.Kept.{MayStep, Went};
ghost use Rattle.machine_steps.specs.Acting.{WouldAct};

use crate::known::laws;
use crate::machine::Machine;
use crate::standing::Standing;
use machine_defs::entry::Entry;
use machine_defs::values::Cause;
use rref_heap::Steps;
use std::sync::ledger::Ledger;
use unwinder::end_instance;

impl Machine {
    /// Instance `i`, of client `t`'s top frame, ends by its own code. What it owned is freed but
    /// for what is lent. It takes no memory.
    pub fn trap<L: Ledger>(
        &mut self,
        t: u32,
        i: u32,
        stand: &Standing,
        cause: Cause,
        steps: &mut Steps<L>,
    )
        requires may { MayStep self.old t }
        requires wants { WouldAct self.old t i (action.Trap cause) stand.now }
        ensures { Went self.old self.new (entry.Trap t i cause) }
    {
        laws();
        self.heap.is_kept();
        self.threads.set_fuel(t, stand.fuel);
        let entry = Entry::Trap {
            thread: t,
            instance: i,
            cause,
        };
        end_instance(
            &mut self.heap,
            &mut self.instances,
            &mut self.log,
            entry,
            i,
            steps,
        );
    }

    /// Client `t` ends instance `i`, which the target stands for. One that has ended stays as it
    /// is. It takes no memory.
    pub fn kill<L: Ledger>(&mut self, t: u32, target: u32, i: u32, steps: &mut Steps<L>)
        requires may { MayStep self.old t }
        requires wants { wanted self.old.load self.old.state t ≡ Commands (command.Kill target) }
        requires into { i ≡ current self.old.load self.old.state target }
        ensures { Went self.old self.new (entry.Kill t i) }
    {
        laws();
        self.heap.is_kept();
        self.threads
            .set_fuel(t, self.load.rows().fuel.saturating_sub(1));
        self.threads.end_command(t, &[], &[]);
        let entry = Entry::Kill {
            thread: t,
            instance: i,
        };
        end_instance(
            &mut self.heap,
            &mut self.instances,
            &mut self.log,
            entry,
            i,
            steps,
        );
    }
}
