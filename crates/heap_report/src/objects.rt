//! What a history tells of each object: who received it last, what it hangs in, whether it is gone,
//! and how many objects hang in it.
ghost use Rattle.std.specs.Prelude.{◌≡◌, ℕ, ◌+◌, ◌*◌, ◌<◌, ◌≤◌, ◌^◌, [], length, OnOk};
ghost use Rattle.machine_defs.specs.History as history;
ghost use Rattle.heap_report.specs.KeptObjects.{record_at, unknown, is_made, counts, below, holder, owner_in, with_hung};
ghost use Rattle.heap_report.specs.KeptObjects.{AreCounted, ChangesTold, unchanged, received, hung, removed, placed};
ghost use Rattle.heap_report.specs.KeptObjects.{all_received, all_removed, after_entry};

use crate::entries::{dropped, passing_at};
use machine_defs::arrays::Objects;
use machine_defs::entry::Entry;
use machine_defs::values::Owner;
use std::alloc::{AllocError, Global};

/// What is told of an object so far.
#[derive(Clone, Copy, Debug)]
pub struct ObjectRecord {
    /// The last receiver.
    pub receiver: Owner,
    /// The object that it was last hung in, where it was not unhung since.
    pub parent: Option<u64>,
    /// It was dropped or freed.
    pub gone: bool,
    /// How many objects hang in it.
    pub below: u64,
}

/// What is told of an object that no entry names yet.
pub const UNKNOWN: ObjectRecord = ObjectRecord {
    receiver: Owner::Client(0),
    parent: None,
    gone: false,
    below: 0,
};

/// What is told of the objects, by their numbers, and how many were made.
#[derive(Debug, Drop)]
pub struct ObjectRecords {
    rows: Vec<ObjectRecord>,
    made: u64,
}

impl ObjectRecords {
    /// Nothing is told yet.
    pub fn new(alloc: Global) -> ObjectRecords
        ensures rows { result.rows.items ≡ [] }
        ensures made { result.made ≡ 0 }
    {
        ObjectRecords {
            rows: Vec::new(alloc),
            made: 0,
        }
    }

    // What is told of an object.
    fn at(&self, object: u64) -> ObjectRecord
        ensures { result ≡ record_at self.now.rows.items object }
    {
        match self.rows.get(object as usize) {
            Some(row) => *row,
            None => UNKNOWN,
        }
    }

    /// The owner of an object: the last receiver of its root.
    pub fn owner(&self, object: u64) -> Owner
        ensures { result ≡ owner_in self.now.rows.items object }
    {
        let row = self.at(object);
        match row.parent {
            Some(root) => self.at(root).receiver,
            None => row.receiver,
        }
    }

    /// How many these objects are, with those that hang in them.
    pub fn with_hung(&self, objects: &Objects) -> u64
        requires counted { AreCounted self.now }
        requires few { self.now.made < 2 ^ 30 }
        requires short { length objects.now ≤ 8 }
        ensures value { result ≡ length (with_hung self.now.rows.items self.now.made objects.now) }
        ensures within { result ≤ 8 * (self.now.made + 1) }
    {
        let mut count = 0;
        'each: for object in objects.as_slice() {
            count += 1 + self.at(*object).below;
        }
        count
    }

    // Keeps what is told of the object with this number.
    fn make_room(&mut self, object: u64) -> Result<(), AllocError>
        ensures same { (o : ℕ) → record_at self.new.rows.items o ≡ record_at self.old.rows.items o }
        ensures made { self.new.made ≡ self.old.made }
        ensures room { OnOk result (object < length self.new.rows.items) }
        ensures grows { length self.old.rows.items ≤ length self.new.rows.items }
    {
        let place = object as usize;
        if place < self.rows.len() {
            return Ok(());
        }
        match place.checked_add(1) {
            Some(count) => self.rows.resize(count, UNKNOWN),
            None => Err(AllocError),
        }
    }

    // The object was made.
    fn is_made(&self, object: u64) -> bool
        ensures { result ≡ is_made self.now.made object }
    {
        1 <= object && object <= self.made
    }

    // An object hangs in this one no longer. Objects that were not made aren't counted.
    fn take_below(&mut self, object: u64, parent: Option<u64>)
        requires { (o : ℕ) → counts self.old.made object o parent ≤ below self.old o }
        ensures told { ChangesTold self.old self.new unchanged }
        ensures below { (o : ℕ) → below self.new o + counts self.old.made object o parent ≡ below self.old o }
        ensures made { self.new.made ≡ self.old.made }
        ensures room { length self.new.rows.items ≡ length self.old.rows.items }
    {
        match parent {
            Some(parent) if self.is_made(object) => self.rows[parent as usize].below -= 1,
            _ => {}
        }
    }

    // An object hangs in this one. Objects that were not made aren't counted.
    fn add_below(&mut self, object: u64, parent: Option<u64>) -> Result<(), AllocError>
        requires { (o : ℕ) → below self.old o + 1 < 2 ^ 64 }
        ensures told { ChangesTold self.old self.new unchanged }
        ensures below { OnOk result ((o : ℕ)
            → below self.new o ≡ below self.old o + counts self.old.made object o parent) }
        ensures made { self.new.made ≡ self.old.made }
        ensures room { length self.old.rows.items ≤ length self.new.rows.items }
    {
        match parent {
            Some(parent) if self.is_made(object) => {
                self.make_room(parent)?;
                self.rows[parent as usize].below += 1;
                Ok(())
            }
            _ => Ok(()),
        }
    }

    // Notes what an object hangs in, and whether it is gone.
    fn change(&mut self, object: u64, parent: Option<u64>, gone: bool) -> Result<(), AllocError>
        requires counted { AreCounted self.old }
        requires few { self.old.made + 1 < 2 ^ 64 }
        ensures told { OnOk result (ChangesTold self.old self.new (placed object parent gone)) }
        ensures counted { OnOk result (AreCounted self.new) }
        ensures made { self.new.made ≡ self.old.made }
    {
        self.make_room(object)?;
        let before = self.at(object);
        self.take_below(object, holder(before.parent, before.gone));
        self.add_below(object, holder(parent, gone))?;
        let row = &mut self.rows[object as usize];
        row.parent = parent;
        row.gone = gone;
        Ok(())
    }

    /// An object is gone.
    pub fn remove(&mut self, object: u64) -> Result<(), AllocError>
        requires counted { AreCounted self.old }
        requires few { self.old.made + 1 < 2 ^ 64 }
        ensures told { OnOk result (ChangesTold self.old self.new (removed object)) }
        ensures counted { OnOk result (AreCounted self.new) }
        ensures made { self.new.made ≡ self.old.made }
    {
        self.change(object, self.at(object).parent, true)
    }

    // An object hangs in another, or in none.
    fn hang(&mut self, object: u64, parent: Option<u64>) -> Result<(), AllocError>
        requires counted { AreCounted self.old }
        requires few { self.old.made + 1 < 2 ^ 64 }
        ensures told { OnOk result (ChangesTold self.old self.new (hung object parent)) }
        ensures counted { OnOk result (AreCounted self.new) }
        ensures made { self.new.made ≡ self.old.made }
    {
        self.change(object, parent, self.at(object).gone)
    }

    // An object has another receiver.
    fn receive(&mut self, object: u64, owner: Owner) -> Result<(), AllocError>
        requires counted { AreCounted self.old }
        ensures told { OnOk result (ChangesTold self.old self.new (received object owner)) }
        ensures counted { OnOk result (AreCounted self.new) }
        ensures made { self.new.made ≡ self.old.made }
    {
        self.make_room(object)?;
        self.rows[object as usize].receiver = owner;
        Ok(())
    }

    // One object more was made.
    fn make(&mut self) -> Result<(), AllocError>
        requires counted { AreCounted self.old }
        requires few { self.old.made + 1 < 2 ^ 64 }
        ensures told { ChangesTold self.old self.new unchanged }
        ensures counted { OnOk result (AreCounted self.new) }
        ensures made { self.new.made ≡ self.old.made + 1 }
    {
        self.made += 1;
        let row = self.at(self.made);
        self.add_below(self.made, holder(row.parent, row.gone))?;
        Ok(())
    }

    // All these objects are received by an owner.
    fn receive_all(&mut self, objects: &Objects, owner: Owner) -> Result<(), AllocError>
        requires counted { AreCounted self.old }
        ensures told { OnOk result (ChangesTold self.old self.new (all_received objects.now owner)) }
        ensures counted { OnOk result (AreCounted self.new) }
        ensures made { self.new.made ≡ self.old.made }
    {
        'each: for object in objects.as_slice() {
            self.receive(*object, owner)?;
        }
        Ok(())
    }

    // All these objects are gone.
    fn remove_all(&mut self, objects: &Objects) -> Result<(), AllocError>
        requires counted { AreCounted self.old }
        requires few { self.old.made + 1 < 2 ^ 64 }
        ensures told { OnOk result (ChangesTold self.old self.new (all_removed objects.now)) }
        ensures counted { OnOk result (AreCounted self.new) }
        ensures made { self.new.made ≡ self.old.made }
    {
        'each: for object in objects.as_slice() {
            self.remove(*object)?;
        }
        Ok(())
    }

    /// Notes what an entry does to objects. `from` acts at it, `to` just after it.
    pub fn tell(&mut self, entry: &Entry, from: Owner, to: Owner) -> Result<(), AllocError>
        requires counted { AreCounted self.old }
        requires few { self.old.made + 1 < 2 ^ 64 }
        ensures told { OnOk result (ChangesTold self.old self.new (after_entry entry.now from to)) }
        ensures counted { OnOk result (AreCounted self.new) }
        ensures made { OnOk result (self.new.made ≡ history.is_new entry.now + self.old.made) }
    {
        match entry {
            Entry::Call { instance, .. } => {
                self.receive_all(&passing_at(entry), Owner::Instance(*instance))
            }
            Entry::Ret { .. } => self.receive_all(&passing_at(entry), to),
            Entry::Refuse { .. } | Entry::Drop { .. } => self.remove_all(&dropped(entry)),
            Entry::New { owner, object, .. } => {
                self.receive(*object, *owner)?;
                self.make()
            }
            Entry::Hang { object, hung, .. } => self.hang(*hung, Some(*object)),
            Entry::Unhang { hung, .. } => {
                self.receive(*hung, from)?;
                self.hang(*hung, None)
            }
            _ => Ok(()),
        }
    }
}

// What an object hangs in, as long as it isn't gone.
fn holder(parent: Option<u64>, gone: bool) -> Option<u64>
    ensures { result ≡ holder parent gone }
{
    if gone { None } else { parent }
}
