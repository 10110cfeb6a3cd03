//! What the numbers of a load stand for.
ghost use Rattle.std.specs.Prelude.{◌≡◌, ◌+◌, ◌<◌, ◌≤◌, ◌^◌, length};
ghost use Rattle.std.specs.List.{position_or_len};
ghost use Rattle.std.specs.Option.{option_copied};
ghost use Rattle.rl_defs.specs.Domains as rows;
ghost use Rattle.rl_defs.specs.Domains.{begins_function, names_native};
ghost use Rattle.rl_defs.specs.Words.{same_bytes};

use crate::bundle::Numbered;
use crate::code::DomainLine;
use crate::load::{LoadRow, LoadRows, ShadowRow};
use crate::tables::{MethodRow, Tables, TraitRow};

impl LoadRows {
    /// The load with this number, from 1.
    pub fn load_row(&self, number: u32) -> Option<&LoadRow>
        ensures { option_copied result ≡ rows.load_row self.now number }
    {
        if number == 0 {
            return None;
        }
        self.loads.get(number as usize - 1)
    }

    /// The shadow with this target's number. They are numbered on after the last load.
    pub fn shadow_row(&self, target: u32) -> Option<&ShadowRow>
        ensures { option_copied result ≡ rows.shadow_row self.now target }
    {
        let place = (target as usize).saturating_sub(self.loads.len());
        if place == 0 {
            return None;
        }
        self.shadows.get(place - 1)
    }

    /// The load of a target: a load is its own, and a shadow has the one that it stands for.
    pub fn load_of_target(&self, target: u32) -> u32
        ensures { result ≡ rows.load_of_target self.now target }
    {
        if self.load_row(target).is_some() {
            return target;
        }
        match self.shadow_row(target) {
            Some(shadow) => shadow.load,
            None => 0,
        }
    }

    /// The name of a target.
    pub fn target_name(&self, target: u32) -> &[u8]
        ensures { result.now ≡ rows.target_name self.now target }
    {
        if let Some(load) = self.load_row(target) {
            return load.name.bytes();
        }
        match self.shadow_row(target) {
            Some(shadow) => shadow.name.bytes(),
            None => b"",
        }
    }

    /// The lines of the domain with this number, from 0.
    pub fn domain_lines(&self, domain: u32) -> &[Numbered<DomainLine>]
        ensures value { result.now ≡ rows.domain_of self.now domain }
        ensures short { length result.now < 2 ^ 31 }
    {
        match self.domains.get(domain as usize) {
            Some(checked) => checked.lines(),
            None => &[],
        }
    }

    /// The lines of a load's domain.
    pub fn lines_of_load(&self, load: u32) -> &[Numbered<DomainLine>]
        ensures value { result.now ≡ rows.lines_of_load self.now load }
        ensures short { length result.now < 2 ^ 31 }
    {
        match self.load_row(load) {
            Some(row) => self.domain_lines(row.domain),
            None => &[],
        }
    }

    /// The method of a target with this number, from 0.
    pub fn method_row(&self, target: u32, method: u32) -> Option<&MethodRow>
        ensures { option_copied result ≡ rows.method_of self.now target method }
    {
        let lines = self.lines_of_load(self.load_of_target(target));
        let row = trait_named(self.tables.get(), trait_name(lines))?;
        row.methods.get(method as usize)
    }

    /// The name of a method of a target.
    pub fn method_name(&self, target: u32, method: u32) -> &[u8]
        ensures { result.now ≡ rows.method_name self.now target method }
    {
        match self.method_row(target, method) {
            Some(row) => row.name.bytes(),
            None => b"",
        }
    }
}

/// The trait of a name.
pub fn trait_named<'a>(tables: &'a Tables, name: &[u8]) -> Option<&'a TraitRow>
    ensures { option_copied result ≡ rows.trait_named tables.now name.now }
{
    tables
        .traits
        .get(place_of_trait(tables.traits.as_slice(), name))
}

// The place of the first trait with this name, or the count of traits.
fn place_of_trait(traits: &[TraitRow], name: &[u8]) -> usize
    ensures { result ≡ position_or_len (λ row. same_bytes row.name name.now) traits.now }
{
    traits.iter().take_while(|row| !is_named(row, name)).count()
}

fn is_named(row: &TraitRow, name: &[u8]) -> bool
    ensures { result ≡ same_bytes row.now.name name.now }
{
    row.name.bytes() == name
}

/// The name of the trait that a domain has.
pub fn trait_name(lines: &[Numbered<DomainLine>]) -> &[u8]
    ensures { result.now ≡ rows.trait_name lines.now }
{
    'lines: for line in lines {
        if let DomainLine::Domain(_, has) = &line.form {
            return has.bytes();
        }
    }
    b""
}

/// The place of the first line of a function's body.
pub fn body_of_function(lines: &[Numbered<DomainLine>], name: &[u8]) -> usize
    requires { length lines.now < 2 ^ 31 }
    ensures value { result ≡ rows.body_of_function lines.now name.now }
    ensures within { result ≤ length lines.now + 1 }
{
    place_of_function(lines, name) + 1
}

// The place of the head of a function, or the count of lines.
fn place_of_function(lines: &[Numbered<DomainLine>], name: &[u8]) -> usize
    ensures value { result ≡ position_or_len (λ line. begins_function name.now line.form) lines.now }
    ensures within { result ≤ length lines.now }
{
    lines.iter().take_while(|line| !is_head(line, name)).count()
}

fn is_head(line: &Numbered<DomainLine>, name: &[u8]) -> bool
    ensures { result ≡ begins_function name.now line.now.form }
{
    begins_function(&line.form, name)
}

fn begins_function(form: &DomainLine, name: &[u8]) -> bool
    ensures { result ≡ begins_function name.now form.now }
{
    match form {
        DomainLine::Function(has) => has.bytes() == name,
        _ => false,
    }
}

/// Whether a domain has a native body.
pub fn is_native(lines: &[Numbered<DomainLine>]) -> bool
    ensures { result ≡ rows.is_native lines.now }
{
    lines.iter().any(|line| names_native(&line.form))
}

fn names_native(form: &DomainLine) -> bool
    ensures { result ≡ names_native form.now }
{
    matches!(form, DomainLine::Native(_))
}
