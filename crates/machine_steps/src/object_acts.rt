//! Actions of domain code on words, slots, cells, blocks and what hangs.
ghost use Rattle.std.specs.Prelude.{◌≡◌, ℕ, List as Items, [], ◌∷◌, OnOk, OnErr, Some};
ghost use Rattle.machine_defs.specs.declared.entry.Entry.TheVariants as entry;
ghost use Rattle.machine_defs.specs.declared.frame.Action.TheVariants as action;
ghost use Rattle.machine_defs.specs.Objects.{hung_in};
ghost use Rattle.machine_defs.specs.ObjectRows.{IsSlot};
ghost use Rattle.machine_defs.specs.Seen.{in_slot};
ghost use Rattle.machine_steps.specs.Kept.{MayStep, Went};
ghost use Rattle.machine_steps.specs.Acting.{WouldAct, domain_in};
ghost use Rattle.machine_steps.specs.Slots.{slot_named};

use crate::act::{domain_of, go_on};
use crate::known::laws;
use crate::machine::Machine;
use crate::standing::Standing;
use instance_table::Instances;
use machine_defs::entry::Entry;
use machine_defs::frame::Answer;
use rl_defs::code::{DomainLine, Instr};
use rl_defs::list::List;
use rl_defs::load::Load;
use rl_defs::name::Name;
use std::alloc::{AllocError, Global};

// The slot that the instruction at a line names, in the domain of an instance.
fn slot_named(load: &Load, instances: &Instances, i: u32, line: u32) -> Option<Name>
    ensures { result ≡ slot_named (domain_in load.now instances.now i) line }
{
    let domain = domain_of(load, instances.load_of(i))?;
    match &domain.lines().get(line as usize)?.form {
        DomainLine::Code(Instr::Take(_, slot)) => Some(*slot),
        DomainLine::Code(Instr::Put(slot, _)) => Some(*slot),
        _ => None,
    }
}

impl Machine {
    /// A frame of instance `i` sets a word.
    pub fn put_word(&mut self, t: u32, i: u32, stand: &mut Standing, at: u32, value: u64)
        requires may { MayStep self.old t }
        requires wants { WouldAct self.old t i (action.Wput at value) stand.old }
        ensures { Went self.old self.new (entry.Wput t i at value) }
    {
        laws();
        self.log.put(Entry::Wput {
            thread: t,
            instance: i,
            place: at,
            value,
        });
        go_on(
            &self.load,
            &self.instances,
            &mut self.stacks,
            &mut self.threads,
            t,
            i,
            stand,
            &Answer::Went,
        );
        self.instances.set_word(i, at, value);
    }
    /// A frame of instance `i` writes an object's cells to a block.
    pub fn put_block(&mut self, t: u32, i: u32, stand: &mut Standing, b: u64, o: u64)
        requires may { MayStep self.old t }
        requires wants { WouldAct self.old t i (action.DevPut b o) stand.old }
        ensures { Went self.old self.new (entry.DevPut t b o) }
    {
        laws();
        self.heap.is_kept();
        self.log.put(Entry::DevPut {
            thread: t,
            block: b,
            object: o,
        });
        go_on(
            &self.load,
            &self.instances,
            &mut self.stacks,
            &mut self.threads,
            t,
            i,
            stand,
            &Answer::Went,
        );
        self.blocks.set(b, self.heap.cells(o));
    }
    /// A frame of instance `i` reads a block into an object's cells.
    pub fn get_block(&mut self, t: u32, i: u32, stand: &mut Standing, o: u64, b: u64)
        requires may { MayStep self.old t }
        requires wants { WouldAct self.old t i (action.DevGet o b) stand.old }
        ensures { Went self.old self.new (entry.DevGet t o b) }
    {
        laws();
        self.heap.is_kept();
        self.log.put(Entry::DevGet {
            thread: t,
            object: o,
            block: b,
        });
        go_on(
            &self.load,
            &self.instances,
            &mut self.stacks,
            &mut self.threads,
            t,
            i,
            stand,
            &Answer::Went,
        );
        self.heap.fill(o, self.blocks.block(b));
    }

    /// A frame of instance `i` sets a cell of an object. After `AllocError` all is as before.
    pub fn set_cell(
        &mut self,
        alloc: Global,
        t: u32,
        i: u32,
        stand: &mut Standing,
        o: u64,
        at: u32,
        value: u64,
    ) -> Result<(), AllocError>
        requires may { MayStep self.old t }
        requires wants { WouldAct self.old t i (action.Set o at (value ∷ [])) stand.old }
        ensures ok { OnOk result (Went self.old self.new (entry.Set t o at (value ∷ []))) }
        ensures err { OnErr result (self.new ≡ self.old) }
    {
        laws();
        self.heap.is_kept();
        let mut values = List::new(alloc);
        values.push(value)?;
        self.log.put(Entry::Set {
            thread: t,
            object: o,
            place: at,
            values,
        });
        go_on(
            &self.load,
            &self.instances,
            &mut self.stacks,
            &mut self.threads,
            t,
            i,
            stand,
            &Answer::Went,
        );
        self.heap.set(o, at, &[value]);
        Ok(())
    }
    /// A frame of instance `i` takes object `o` out of a slot.
    pub fn take_out(&mut self, t: u32, i: u32, stand: &mut Standing, slot: u32, o: u64)
        requires may { MayStep self.old t }
        requires wants { WouldAct self.old t i (action.Take slot) stand.old }
        requires full { in_slot self.old.state i slot ≡ Some o }
        ensures { (name : Items ℕ)
            × IsSlot self.old.load self.old.state i slot name
            × Went self.old self.new (entry.Take t i name o) }
    {
        laws();
        let Some(name) = slot_named(&self.load, &self.instances, i, stand.line) else {
            unreachable!();
        };
        self.log.put(Entry::Take {
            thread: t,
            instance: i,
            slot: name,
            object: o,
        });
        go_on(
            &self.load,
            &self.instances,
            &mut self.stacks,
            &mut self.threads,
            t,
            i,
            stand,
            &Answer::Made(o),
        );
        self.instances.set_slot(i, slot, None);
    }

    /// A frame of instance `i` puts object `o` into an empty slot.
    pub fn put_in(&mut self, t: u32, i: u32, stand: &mut Standing, slot: u32, o: u64)
        requires may { MayStep self.old t }
        requires wants { WouldAct self.old t i (action.Put slot o) stand.old }
        ensures { (name : Items ℕ)
            × IsSlot self.old.load self.old.state i slot name
            × Went self.old self.new (entry.Put t i name o) }
    {
        laws();
        let Some(name) = slot_named(&self.load, &self.instances, i, stand.line) else {
            unreachable!();
        };
        self.log.put(Entry::Put {
            thread: t,
            instance: i,
            slot: name,
            object: o,
        });
        go_on(
            &self.load,
            &self.instances,
            &mut self.stacks,
            &mut self.threads,
            t,
            i,
            stand,
            &Answer::Went,
        );
        self.instances.set_slot(i, slot, Some(o));
    }
    /// A frame of instance `i` moves object `v` into an empty cell of object `o`.
    pub fn hang(&mut self, t: u32, i: u32, stand: &mut Standing, o: u64, at: u32, v: u64)
        requires may { MayStep self.old t }
        requires wants { WouldAct self.old t i (action.Hang o at v) stand.old }
        ensures { Went self.old self.new (entry.Hang t o at v) }
    {
        laws();
        self.heap.is_kept();
        self.log.put(Entry::Hang {
            thread: t,
            object: o,
            place: at,
            hung: v,
        });
        go_on(
            &self.load,
            &self.instances,
            &mut self.stacks,
            &mut self.threads,
            t,
            i,
            stand,
            &Answer::Went,
        );
        self.heap.hang(o, at, v);
    }

    /// A frame of instance `i` moves object `v` out of a cell of object `o`.
    pub fn unhang(&mut self, t: u32, i: u32, stand: &mut Standing, o: u64, at: u32, v: u64)
        requires may { MayStep self.old t }
        requires wants { WouldAct self.old t i (action.Unhang o at) stand.old }
        requires full { hung_in self.old.state o at ≡ Some v }
        ensures { Went self.old self.new (entry.Unhang t o at v) }
    {
        laws();
        self.heap.is_kept();
        self.log.put(Entry::Unhang {
            thread: t,
            object: o,
            place: at,
            hung: v,
        });
        go_on(
            &self.load,
            &self.instances,
            &mut self.stacks,
            &mut self.threads,
            t,
            i,
            stand,
            &Answer::Made(v),
        );
        self.heap.unhang(o, at);
    }
}
