//! The names of a load's rows.
ghost use Rattle.std.specs.Prelude.{◌≡◌, ◌≤◌, length, IfOk};
ghost use Rattle.std.specs.Option.{option_copied};
ghost use Rattle.rl_defs.specs.Domains as rows;
ghost use Rattle.machine_defs.specs.Texts.{struct_name};
ghost use Rattle.history_text.specs.Spelled.{trait_of, AreTraits};
ghost use Rattle.history_text.specs.Reading.{methods_of};
ghost use Rattle.rl_defs.specs.Valid.{Valid};

use rl_defs::load::{Load, LoadRows};
use rl_defs::lookups::{trait_name, trait_named};
use rl_defs::tables::{MethodRow, TraitRow};
use std::alloc::{AllocError, Global};
use std::marker::Model;

/// A load with the trait of each load's domain found, so that no entry looks for it. Contracts see
/// the rows of the load.
#[derive(Drop)]
pub struct Spellings<'a> {
    rows: &'a LoadRows,
    // by the load's number; none has the number 0
    traits: Vec<Option<&'a TraitRow>>,
}

impl<'a> Model for Spellings<'a> {
    ghost use Rattle.rl_defs.specs.declared.load.LoadRows.{LoadRows as Rows};
    ghost use Rattle.rl_defs.specs.Valid.{Valid};
    ghost use Rattle.history_text.specs.Spelled.{AreTraits};

    ghost Value = { Rows };

    ghost view = { λ s. s.rows.now };

    ghost invariant = { λ s. Valid s.rows.now × AreTraits s.rows.now s.traits.items };
}

// The trait of a load's domain.
fn trait_of(rows: &LoadRows, load: u32) -> Option<&TraitRow>
    ensures { option_copied result ≡ trait_of rows.now load }
{
    trait_named(rows.tables.get(), trait_name(rows.lines_of_load(load)))
}

// The traits of the loads, by their numbers.
fn traits_of(alloc: Global, rows: &LoadRows) -> Result<Vec<Option<&TraitRow>>, AllocError>
    requires { length rows.now.loads ≤ 64 }
    ensures { IfOk result (λ traits. AreTraits rows.now traits.items) }
{
    let mut traits = Vec::new(alloc);
    'loads: for load in 0..rows.loads.len() as u32 + 1 {
        traits.push(trait_of(rows, load))?;
    }
    Ok(traits)
}

impl<'a> Spellings<'a> {
    /// The names of a load's rows.
    pub fn new(alloc: Global, load: &'a Load) -> Result<Spellings<'a>, AllocError>
        ensures { IfOk result (λ s. s ≡ load.now) }
    {
        let rows = load.rows();
        let traits = traits_of(alloc, rows)?;
        Ok(Spellings { rows, traits })
    }

    /// The rows.
    pub(crate) fn rows(&self) -> &'a LoadRows
        ensures value { result.now ≡ self.now }
        ensures valid { Valid self.now }
    {
        self.rows
    }

    /// The name of a target.
    pub(crate) fn target(&self, target: u32) -> &'a [u8]
        ensures value { result.now ≡ rows.target_name self.now target }
        ensures short { length result.now ≤ 24 }
    {
        let rows = self.rows;
        if let Some(load) = rows.load_row(target) {
            return load.name.bytes();
        }
        match rows.shadow_row(target) {
            Some(shadow) => shadow.name.bytes(),
            None => b"",
        }
    }

    // The trait of a target.
    fn trait_of(&self, target: u32) -> Option<&'a TraitRow>
        ensures { option_copied result ≡ trait_of self.now (rows.load_of_target self.now target) }
    {
        let load = self.rows.load_of_target(target);
        match self.traits.get(load as usize) {
            Some(found) => *found,
            None => trait_of(self.rows, load),
        }
    }

    /// The methods of a target.
    pub(crate) fn methods(&self, target: u32) -> &'a [MethodRow]
        ensures { result.now ≡ methods_of (trait_of self.now (rows.load_of_target self.now target)) }
    {
        match self.trait_of(target) {
            Some(found) => found.methods.as_slice(),
            None => &[],
        }
    }

    // A method of a target.
    fn method_row(&self, target: u32, method: u32) -> Option<&'a MethodRow>
        ensures { option_copied result ≡ rows.method_of self.now target method }
    {
        self.methods(target).get(method as usize)
    }

    /// The name of a method of a target.
    pub(crate) fn method(&self, target: u32, method: u32) -> &'a [u8]
        ensures value { result.now ≡ rows.method_name self.now target method }
        ensures short { length result.now ≤ 24 }
    {
        match self.method_row(target, method) {
            Some(row) => row.name.bytes(),
            None => b"",
        }
    }

    /// The name of a struct.
    pub(crate) fn structure(&self, ty: u32) -> &'a [u8]
        ensures value { result.now ≡ struct_name self.now ty }
        ensures short { length result.now ≤ 24 }
    {
        match self.rows.tables.get().structs.get(ty as usize) {
            Some(row) => row.name.bytes(),
            None => b"",
        }
    }
}
