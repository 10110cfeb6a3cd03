//! A shadow's load gets a fresh instance, and calls of the one that has ended are issued again in
//! it.
ghost use Rattle.std.specs.Prelude.{◌≡◌, ◌+◌, ℕ, length, OnOk, OnErr};
ghost use Rattle.machine_defs.specs.declared.entry.Entry.TheVariants as entry;
ghost use Rattle.machine_defs.specs.Calling.{restarts_left};
ghost use Rattle.machine_steps.specs.Kept.{MayStep, Went};
ghost use Rattle.machine_steps.specs.Calls.{MayReload, MayIssueAgain};

use crate::frames::frame_at_entry;
use crate::known::laws;
use crate::machine::Machine;
use machine_defs::entry::Entry;
use machine_defs::values::Owner;
use std::alloc::AllocError;

impl Machine {
    /// A fresh instance of shadow `x`'s load takes the place of the one that has ended, since
    /// client `t` needs it. The shadow has one restart less. After `AllocError` nothing has
    /// changed.
    pub fn reload(&mut self, t: u32, x: u32) -> Result<(), AllocError>
        requires may { MayStep self.old t }
        requires needs { MayReload self.old t x }
        ensures ok { OnOk result ((left : ℕ) → restarts_left self.old.load self.old.state x ≡ left + 1
            → Went self.old self.new (entry.Reload t x (length self.old.state.instances + 1) left)) }
        ensures err { OnErr result (self.new ≡ self.old) }
    {
        laws();
        let number = self.instances.len() as u32 + 1;
        self.heap.reserve_owner(Owner::Instance(number))?;
        self.stacks.open()?;
        let left = self.shadows.left(&self.load, x) - 1;
        self.shadows.reload(&mut self.instances, &self.load, x)?;
        self.log.put(Entry::Reload {
            thread: t,
            shadow: x,
            instance: number,
            left,
        });
        Ok(())
    }

    /// The call of client `t`'s top frame, whose instance has ended, is issued again through its
    /// shadow in instance `i`, with the same arguments and loans, and at no charge. It takes no
    /// memory.
    pub fn again(&mut self, t: u32, c: u32, x: u32, i: u32)
        requires may { MayStep self.old t }
        requires again { MayIssueAgain self.old t c x i }
        ensures { Went self.old self.new (entry.Again t c x i) }
    {
        laws();
        let dead = self.stacks.pop(t);
        let frame = frame_at_entry(&self.load, c, x, i, dead.method, &dead.args);
        self.stacks.push(t, frame);
        self.log.put(Entry::Again {
            thread: t,
            call: c,
            shadow: x,
            instance: i,
        });
    }
}
