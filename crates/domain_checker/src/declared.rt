//! What the lines of a domain declare.
ghost use Rattle.std.specs.Prelude.{◌≡◌, ℕ, ◌+◌, ◌^◌, ◌<◌, ◌≤◌, List, [], ◌∷◌, ◌++◌, length, drop, None, nat_eq, is_some, unwrap_or, OnOk, IfOk, IfSome};
ghost use Rattle.std.specs.Cmp.Lexicographic.{pointwise};
ghost use Rattle.indexmap.specs.IndexMap.{get};
ghost use Rattle.rl_defs.specs.Domains.{trait_name, is_native, names_native};
ghost use Rattle.rl_defs.specs.CodeNames.{slots, imports, struct_number, trait_number, has_words, declares_words, find_label};
ghost use Rattle.domain_checker.specs.Numbering.{noted, body_from, AreDeclared};

use crate::names::{NameTable, note};
use crate::tables::NamedTables;
use indexmap::IndexMap;
use rl_defs::bundle::Numbered;
use rl_defs::code::DomainLine;
use rl_defs::list::List;
use rl_defs::name::Name;
use std::alloc::{AllocError, Global};

// So many bodies are looked for among the lines, and more in a table.
const FEW: usize = 4;

/// Names that a domain declares: the place of each among its kind, and the number of the struct or
/// trait at each place.
#[derive(Drop)]
pub struct Declarations {
    pub places: NameTable,
    pub types: List<u32>,
}

fn nothing(alloc: Global) -> Declarations
    ensures places { (q : List ℕ) → get (pointwise nat_eq) result.places q ≡ None }
    ensures types { result.types ≡ [] }
{
    Declarations {
        places: IndexMap::new(alloc),
        types: List::new(alloc),
    }
}

fn declare(declared: &mut Declarations, name: &Name, number: u32) -> Result<(), AllocError>
    requires { length declared.old.types < 2 ^ 32 }
    ensures places { let before = get (pointwise nat_eq) declared.old.places in
        let after = get (pointwise nat_eq) declared.new.places in
        OnOk result ((q : List ℕ) → after q ≡ noted before name.now (length declared.old.types) q) }
    ensures types { OnOk result (declared.new.types ≡ declared.old.types ++ number ∷ []) }
{
    let place = declared.types.len() as u32;
    note(&mut declared.places, name, place)?;
    declared.types.push(number)
}

/// The slots of a domain.
pub fn slots_of(
    alloc: Global,
    tables: &NamedTables,
    lines: &[Numbered<DomainLine>],
) -> Result<Declarations, AllocError>
    requires { length lines.now < 2 ^ 31 }
    ensures { let number_of = struct_number tables.now in
        IfOk result (λ d. AreDeclared (get (pointwise nat_eq) d.places) d.types number_of (slots lines.now)) }
{
    let mut declared = nothing(alloc);
    'lines: for line in lines {
        if let DomainLine::Slot(name, ty) = &line.form {
            declare(&mut declared, name, tables.struct_number(ty))?;
        }
    }
    Ok(declared)
}

/// The imports of a domain.
pub fn imports_of(
    alloc: Global,
    tables: &NamedTables,
    lines: &[Numbered<DomainLine>],
) -> Result<Declarations, AllocError>
    requires { length lines.now < 2 ^ 31 }
    ensures { let number_of = trait_number tables.now in
        IfOk result (λ d. AreDeclared (get (pointwise nat_eq) d.places) d.types number_of (imports lines.now)) }
{
    let mut declared = nothing(alloc);
    'lines: for line in lines {
        if let DomainLine::Import(name, has) = &line.form {
            declare(&mut declared, name, tables.trait_number(has))?;
        }
    }
    Ok(declared)
}

/// Where the body of the function of this name begins. It goes over the lines.
pub fn body_in(lines: &[Numbered<DomainLine>], name: &Name) -> Option<u32>
    requires { length lines.now < 2 ^ 31 }
    ensures { result ≡ body_from name.now lines.now 0 }
{
    'lines: for (place, line) in lines.iter().enumerate() {
        if let DomainLine::Function(other) = &line.form {
            if other == name {
                return Some(place as u32 + 1);
            }
        }
    }
    None
}

// Where the bodies of the functions begin, by their names. There is room for so many.
fn bodies_of(
    alloc: Global,
    lines: &[Numbered<DomainLine>],
    count: usize,
) -> Result<NameTable, AllocError>
    requires { length lines.now < 2 ^ 31 }
    ensures { IfOk result (λ t. (q : List ℕ) → get (pointwise nat_eq) t q ≡ body_from q lines.now 0) }
{
    let mut bodies = room_for(alloc, count)?;
    'lines: for (place, line) in lines.iter().enumerate() {
        if let DomainLine::Function(name) = &line.form {
            note(&mut bodies, name, place as u32 + 1)?;
        }
    }
    Ok(bodies)
}

/// The same where more than a few bodies are looked for: where there are few, no table is worth its
/// making.
pub fn bodies_of_many(
    alloc: Global,
    lines: &[Numbered<DomainLine>],
    count: usize,
) -> Result<Option<NameTable>, AllocError>
    requires { length lines.now < 2 ^ 31 }
    ensures { IfOk result (λ o. IfSome o (λ t. (q : List ℕ)
        → get (pointwise nat_eq) t q ≡ body_from q lines.now 0)) }
{
    if count <= FEW {
        return Ok(None);
    }
    let bodies = bodies_of(alloc, lines, count.min(lines.len()))?;
    Ok(Some(bodies))
}

// How many heads the function has whose body begins at a place.
fn count_heads(lines: &[Numbered<DomainLine>], first: usize) -> usize
    requires { first ≤ length lines.now }
    ensures { result ≤ length lines.now }
{
    let mut count = 0;
    'lines: for place in first..lines.len() {
        match &lines[place].form {
            DomainLine::Close => return count,
            DomainLine::Head(..) => count += 1,
            _ => {}
        }
    }
    count
}

// A table with room for so many names. It takes no memory where there are none.
fn room_for(alloc: Global, count: usize) -> Result<NameTable, AllocError>
    ensures { IfOk result (λ t. (q : List ℕ) → get (pointwise nat_eq) t q ≡ None) }
{
    IndexMap::with_capacity(alloc, count)
}

/// The places of the labels of the function whose body begins at a place.
pub fn labels_from(
    alloc: Global,
    lines: &[Numbered<DomainLine>],
    first: usize,
) -> Result<NameTable, AllocError>
    requires short { length lines.now < 2 ^ 31 }
    requires within { first ≤ length lines.now }
    ensures { IfOk result (λ t. (q : List ℕ)
        → get (pointwise nat_eq) t q ≡ find_label q (drop first lines.now) first) }
{
    let mut labels = room_for(alloc, count_heads(lines, first))?;
    'lines: for place in first..lines.len() {
        match &lines[place].form {
            DomainLine::Close => return Ok(labels),
            DomainLine::Head(name, _) => note(&mut labels, name, place as u32)?,
            _ => {}
        }
    }
    Ok(labels)
}

/// The number of the trait of a domain.
pub fn trait_of(tables: &NamedTables, lines: &[Numbered<DomainLine>]) -> u32
    ensures { result ≡ trait_number tables.now (trait_name lines.now) }
{
    'lines: for line in lines {
        if let DomainLine::Domain(_, has) = &line.form {
            return tables.trait_number(has);
        }
    }
    tables.number_of_none()
}

fn names_native(form: &DomainLine) -> bool
    ensures { result ≡ names_native form.now }
{
    matches!(form, DomainLine::Native(_))
}

/// Whether a domain has a native body.
pub fn is_native(lines: &[Numbered<DomainLine>]) -> bool
    ensures { result ≡ is_native lines.now }
{
    lines.iter().any(|line| names_native(&line.form))
}

fn declares_words(form: &DomainLine) -> bool
    ensures { result ≡ declares_words form.now }
{
    matches!(form, DomainLine::Words(_))
}

/// Whether a domain has a `words` line.
pub fn has_words(lines: &[Numbered<DomainLine>]) -> bool
    ensures { result ≡ has_words lines.now }
{
    lines.iter().any(|line| declares_words(&line.form))
}
