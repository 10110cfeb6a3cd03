//! Whether a view fits a domain.
ghost use Rattle.std.specs.Prelude.{◌≡◌, true};
ghost use Rattle.rl_defs.specs.CodeNames.{slots, imports};
ghost use Rattle.machine_defs.specs.CodeFits.{FitsSight};
ghost use Rattle.code_runs.specs.Seen.{sight_of, types_of};
ghost use Rattle.code_runs.specs.Suits.{cell_suits, cells_suit, objects_suit, slot_suits, slots_suit, binds_suit, suits};

use crate::rows::{cells_of, struct_number, trait_number};
use crate::view::{Cell, MemoryView};
use rl_defs::checked::CheckedDomain;
use rl_defs::code::DomainLine;
use rl_defs::tables::Kind;

fn cell_suits(view: &MemoryView, cell: Cell, kind: Kind) -> bool
    ensures { result ≡ cell_suits (types_of view.now) cell kind }
{
    match (cell, kind) {
        (Cell::Num(_), Kind::Num(_)) => true,
        (Cell::Empty, Kind::Own(_)) => true,
        (Cell::Holds(object), Kind::Own(of)) => view.is_of(object, of),
        _ => false,
    }
}

fn cells_suit(view: &MemoryView, cells: &[Cell], kinds: &[Kind]) -> bool
    ensures { result ≡ cells_suit (types_of view.now) cells.now kinds.now }
{
    if cells.len() != kinds.len() {
        return false;
    }
    'each: for place in 0..cells.len() {
        if !cell_suits(view, cells[place], kinds[place]) {
            return false;
        }
    }
    true
}

fn objects_suit(view: &MemoryView, domain: &CheckedDomain) -> bool
    ensures { result ≡ objects_suit (types_of view.now) domain.now.tables view.now.objects }
{
    let objects = view.objects.as_slice();
    'objects: for seen in objects {
        let kinds = cells_of(domain.tables(), seen.of);
        if !cells_suit(view, seen.cells.as_slice(), kinds) {
            return false;
        }
    }
    true
}

fn slot_suits(view: &MemoryView, of: u32, held: Option<u64>) -> bool
    ensures { result ≡ slot_suits (types_of view.now) of held }
{
    match held {
        Some(object) => view.is_of(object, of),
        None => true,
    }
}

fn slots_suit(view: &MemoryView, domain: &CheckedDomain) -> bool
    ensures { result ≡ slots_suit (types_of view.now) domain.now.tables view.now.slots (slots domain.now.lines) }
{
    let lines = domain.lines();
    let held = view.slots.as_slice();
    let mut place = 0usize;
    'lines: for line in lines {
        if let DomainLine::Slot(_, ty) = &line.form {
            if place >= held.len() {
                return false;
            }
            if !slot_suits(view, struct_number(domain, ty.bytes()), held[place]) {
                return false;
            }
            place += 1;
        }
    }
    place == held.len()
}

fn binds_suit(view: &MemoryView, domain: &CheckedDomain) -> bool
    ensures { result ≡ binds_suit (types_of view.now) domain.now.tables view.now.binds (imports domain.now.lines) }
{
    let lines = domain.lines();
    let bound = view.binds.as_slice();
    let mut place = 0usize;
    'lines: for line in lines {
        if let DomainLine::Import(_, has) = &line.form {
            if place >= bound.len() {
                return false;
            }
            if view.trait_of(bound[place]) != trait_number(domain, has.bytes()) {
                return false;
            }
            place += 1;
        }
    }
    place == bound.len()
}

fn all_suit(view: &MemoryView, domain: &CheckedDomain) -> bool
    ensures { result ≡ suits view.now domain.now }
{
    view.words.len() <= 4096
        && objects_suit(view, domain)
        && slots_suit(view, domain)
        && binds_suit(view, domain)
}

/// Whether a view fits a domain: it has at most 4,096 words, each object has the cells of its
/// struct, what hangs in a cell and what a slot holds is of its struct, and what is bound to an
/// import is of its trait.
pub fn view_fits(view: &MemoryView, domain: &CheckedDomain) -> bool
    ensures exact { result ≡ suits view.now domain.now }
    ensures fits { result ≡ true → FitsSight (types_of view.now) domain.now (sight_of view.now) }
{
    // Its contract says that the tables are small.
    let _ = domain.lines();
    all_suit(view, domain)
}
