//! Objects that frames of domain code make and give up.
ghost use Rattle.std.specs.Prelude.{◌≡◌, [], OnOk, OnErr};
ghost use Rattle.machine_defs.specs.declared.values.Owner.TheVariants as owner;
ghost use Rattle.machine_defs.specs.declared.entry.Entry.TheVariants as entry;
ghost use Rattle.machine_defs.specs.declared.frame.Action.TheVariants as action;
ghost use Rattle.machine_steps.specs.Kept.{MayStep, Went};
ghost use Rattle.machine_steps.specs.Acting.{WouldAct};

use crate::act::go_on;
use crate::given::struct_row;
use crate::known::laws;
use crate::machine::Machine;
use crate::standing::Standing;
use machine_defs::entry::Entry;
use machine_defs::frame::Answer;
use machine_defs::values::Owner;
use rl_defs::list::List;
use std::alloc::{AllocError, Global};

impl Machine {
    /// A frame of instance `i` makes an object. After `AllocError` all is as before.
    pub fn make_object(
        &mut self,
        alloc: Global,
        t: u32,
        i: u32,
        stand: &mut Standing,
        ty: u32,
    ) -> Result<(), AllocError>
        requires may { MayStep self.old t }
        requires wants { WouldAct self.old t i (action.New ty) stand.old }
        ensures ok { OnOk result (Went self.old self.new
            (entry.New t (owner.Instance i) self.old.state.next_object ty [])) }
        ensures err { OnErr result (self.new ≡ self.old) }
    {
        laws();
        self.heap.is_kept();
        let Some(of) = struct_row(&self.load, ty) else {
            unreachable!();
        };
        self.heap.reserve_one(alloc, of)?;
        let o = self.heap.made() as u64 + 1;
        self.log.put(Entry::New {
            thread: t,
            owner: Owner::Instance(i),
            object: o,
            ty,
            values: List::new(alloc),
        });
        go_on(
            &self.load,
            &self.instances,
            &mut self.stacks,
            &mut self.threads,
            t,
            i,
            stand,
            &Answer::Made(o),
        );
        self.heap.make(ty, Owner::Instance(i));
        Ok(())
    }

    /// A frame of instance `i` gives an object up. What hangs in it is freed. It takes no memory.
    pub fn drop_object(&mut self, t: u32, i: u32, stand: &mut Standing, o: u64)
        requires may { MayStep self.old t }
        requires wants { WouldAct self.old t i (action.Drop o) stand.old }
        ensures { Went self.old self.new (entry.Drop t o) }
    {
        laws();
        self.heap.is_kept();
        self.log.put(Entry::Drop {
            thread: t,
            object: o,
        });
        go_on(
            &self.load,
            &self.instances,
            &mut self.stacks,
            &mut self.threads,
            t,
            i,
            stand,
            &Answer::Went,
        );
        self.heap.drop_object(o);
        self.heap.sweep(&mut self.log);
    }
}
