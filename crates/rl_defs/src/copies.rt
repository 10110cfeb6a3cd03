//! Equal copies of what takes memory.
ghost use Rattle.std.specs.Prelude.{◌≡◌, IfOk};

use crate::list::List;
use crate::name::Name;
use crate::tables::{Kind, MethodRow, StructRow, Tables, TraitRow};
use std::alloc::{AllocError, Global};

/// A type whose values can be copied, where there is memory for the copy.
pub trait Copies: Sized {
    /// A value equal to this one.
    fn copy(&self, alloc: Global) -> Result<Self, AllocError>
        ensures { IfOk result (λ x. x ≡ self.now) };
}

impl Copies for u32 {
    fn copy(&self, _alloc: Global) -> Result<u32, AllocError> {
        Ok(*self)
    }
}

impl Copies for u64 {
    fn copy(&self, _alloc: Global) -> Result<u64, AllocError> {
        Ok(*self)
    }
}

impl Copies for Kind {
    fn copy(&self, _alloc: Global) -> Result<Kind, AllocError> {
        Ok(*self)
    }
}

impl Copies for Name {
    fn copy(&self, _alloc: Global) -> Result<Name, AllocError> {
        Ok(*self)
    }
}

impl<T: Copies + Drop> Copies for List<T> {
    fn copy(&self, alloc: Global) -> Result<List<T>, AllocError> {
        let mut list = List::new(alloc);
        'items: for item in self.as_slice() {
            list.push(item.copy(alloc)?)?;
        }
        Ok(list)
    }
}

impl Copies for StructRow {
    fn copy(&self, alloc: Global) -> Result<StructRow, AllocError> {
        Ok(StructRow {
            name: self.name,
            flat: self.flat.copy(alloc)?,
        })
    }
}

impl Copies for MethodRow {
    fn copy(&self, alloc: Global) -> Result<MethodRow, AllocError> {
        Ok(MethodRow {
            name: self.name,
            idempotent: self.idempotent,
            params: self.params.copy(alloc)?,
            results: self.results.copy(alloc)?,
        })
    }
}

impl Copies for TraitRow {
    fn copy(&self, alloc: Global) -> Result<TraitRow, AllocError> {
        Ok(TraitRow {
            name: self.name,
            methods: self.methods.copy(alloc)?,
        })
    }
}

impl Copies for Tables {
    fn copy(&self, alloc: Global) -> Result<Tables, AllocError> {
        Ok(Tables {
            structs: self.structs.copy(alloc)?,
            traits: self.traits.copy(alloc)?,
        })
    }
}
