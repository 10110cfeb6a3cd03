//! Rule 4: the name that is declared nowhere.

use crate::case::{Case, Part, Seek, Span, is_head};
use crate::given::{Among, given_in};
use crate::hint::Hint;
use crate::tokens::{Token, at, find, is, is_name, read};
use std::alloc::AllocError;

/// What a name is to be the name of.
#[derive(Clone, Copy, Debug, PartialEq, Eq)]
enum Wanted {
    Struct,
    Trait,
    Domain,
    Load,
    Target,
    Client,
    // An import of the domain of a `bind` line's load.
    Import,
    // A method of the trait of a function's domain.
    Method,
    // A name that an earlier line of the client binds.
    Script,
}

// A name that a line uses.
#[derive(Clone, Copy, Debug)]
struct Use {
    wanted: Wanted,
    place: usize,
    found: bool,
}

// How many names of a line are looked up.
const MOST_USES: usize = 24;

fn add(all: &mut Vec<Use>, wanted: Wanted, place: usize) -> Result<(), AllocError> {
    if all.len() < MOST_USES {
        all.push(Use {
            wanted,
            place,
            found: false,
        })?;
    }
    Ok(())
}

// The names in the types of a line, from a place on.
fn in_types(all: &mut Vec<Use>, row: &[Token<'_>], from: usize) -> Result<(), AllocError> {
    'places: for place in from..row.len() {
        let is_parameter = is(row, place.saturating_add(1), b":");
        if is_name(row, place) && !is_parameter {
            let wanted = if is(row, place.saturating_sub(1), b"dyn") {
                Wanted::Trait
            } else {
                Wanted::Struct
            };
            add(all, wanted, place)?;
        }
    }
    Ok(())
}

fn in_interface(all: &mut Vec<Use>, row: &[Token<'_>]) -> Result<(), AllocError> {
    if is(row, 0, b"fn") {
        return in_types(all, row, 3);
    }
    match find(row, 0, b":") {
        Some(colon) => in_types(all, row, colon),
        None => Ok(()),
    }
}

// The names in the heads of a line.
fn in_head(all: &mut Vec<Use>, row: &[Token<'_>]) -> Result<(), AllocError> {
    'places: for place in 2..row.len() {
        if is(row, place.saturating_sub(1), b"<") {
            add(all, Wanted::Struct, place)?;
        }
        if is(row, place.saturating_sub(1), b"dyn") {
            add(all, Wanted::Trait, place)?;
        }
    }
    Ok(())
}

fn in_domain(all: &mut Vec<Use>, row: &[Token<'_>]) -> Result<(), AllocError> {
    if is_head(row) {
        return in_head(all, row);
    }
    match at(row, 0) {
        b"domain" | b"import" => add(all, Wanted::Trait, 3),
        b"slot" | b"new" => add(all, Wanted::Struct, 3),
        b"fn" => add(all, Wanted::Method, 1),
        _ => Ok(()),
    }
}

// The clients that an `order` line lists.
fn in_order(all: &mut Vec<Use>, row: &[Token<'_>]) -> Result<(), AllocError> {
    'places: for place in 1..row.len() {
        if is_name(row, place) {
            add(all, Wanted::Client, place)?;
        }
    }
    Ok(())
}

fn in_plan(all: &mut Vec<Use>, row: &[Token<'_>]) -> Result<(), AllocError> {
    match at(row, 0) {
        b"load" => add(all, Wanted::Domain, 3),
        b"bind" => {
            add(all, Wanted::Load, 1)?;
            add(all, Wanted::Import, 3)?;
            add(all, Wanted::Target, 5)
        }
        b"shadow" => add(all, Wanted::Load, 3),
        b"device" | b"serial" => add(all, Wanted::Load, 1),
        b"order" => in_order(all, row),
        _ => Ok(()),
    }
}

// The names among the arguments of a call.
fn in_arguments(all: &mut Vec<Use>, row: &[Token<'_>]) -> Result<(), AllocError> {
    let close = find(row, 0, b")").unwrap_or(0);
    'places: for place in 5..close {
        if is_name(row, place) {
            let wanted = if is(row, place.saturating_sub(1), b"@") {
                Wanted::Target
            } else {
                Wanted::Script
            };
            add(all, wanted, place)?;
        }
    }
    Ok(())
}

fn in_client(all: &mut Vec<Use>, row: &[Token<'_>]) -> Result<(), AllocError> {
    match at(row, 0) {
        b"let" => add(all, Wanted::Struct, 4),
        b"text" => add(all, Wanted::Struct, 3),
        b"call" => {
            add(all, Wanted::Target, 1)?;
            in_arguments(all, row)
        }
        b"show" | b"drop" => add(all, Wanted::Script, 1),
        b"kill" => add(all, Wanted::Target, 1),
        _ => Ok(()),
    }
}

// The names that the refused line uses.
fn uses(case: &Case<'_>, part: Part) -> Result<Vec<Use>, AllocError> {
    let mut all = Vec::new(case.alloc);
    match part {
        Part::Interfaces => in_interface(&mut all, &case.row)?,
        Part::Domains => in_domain(&mut all, &case.row)?,
        Part::Plan => in_plan(&mut all, &case.row)?,
        Part::Clients => in_client(&mut all, &case.row)?,
    }
    Ok(all)
}

// Whether a line declares what a name is to be the name of.
fn declares(row: &[Token<'_>], among: Among, wanted: Wanted) -> bool {
    match among {
        Among::Types => {
            let is_trait = is(row, 0, b"trait") || is(row, 1, b"trait");
            wanted
                == (if is_trait {
                    Wanted::Trait
                } else {
                    Wanted::Struct
                })
        }
        Among::Domains => wanted == Wanted::Domain,
        Among::Targets => {
            wanted == Wanted::Target || (wanted == Wanted::Load && is(row, 0, b"load"))
        }
        Among::Clients => wanted == Wanted::Client,
        _ => false,
    }
}

// Notes the names of the refused line that a line declares.
fn note(uses: &mut [Use], own: &[Token<'_>], row: &[Token<'_>], among: Among, name: &[u8]) {
    'uses: for used in uses {
        if at(own, used.place) == name && declares(row, among, used.wanted) {
            used.found = true;
        }
    }
}

// Notes the names of the refused line that the lines of a part declare.
fn note_part(case: &Case<'_>, uses: &mut [Use], part: Part) -> Result<(), AllocError> {
    let span = case.span(part);
    let mut row = Vec::new(case.alloc);
    'lines: for number in span.from..span.to {
        read(&mut row, case.line(number))?;
        if let Some(given) = given_in(part, &row) {
            note(uses, &case.row, &row, given.among, at(&row, given.place));
        }
    }
    Ok(())
}

// The lines of the client before the refused one.
fn script(case: &Case<'_>) -> Result<Span, AllocError> {
    let before = case.before(Part::Clients);
    let from = case.last(before, Seek::AnyClient)?.unwrap_or(before.from);
    Ok(Span {
        from,
        to: before.to,
    })
}

// Whether an import of a load is declared. It is taken to be so where the load's domain isn't
// known.
fn has_import(case: &Case<'_>, load: &[u8], import: &[u8]) -> Result<bool, AllocError> {
    let Some(line) = case.first(case.span(Part::Plan), Seek::Load(load))? else {
        return Ok(true);
    };
    let row = case.row_at(line)?;
    let domain = Seek::Domain(at(&row, 3));
    let Some(opener) = case.first(case.span(Part::Domains), domain)? else {
        return Ok(true);
    };
    let block = case.block(Part::Domains, opener, Seek::AnyDomain)?;
    Ok(case.first(block, Seek::Import(import))?.is_some())
}

// Whether the trait of the domain round the refused line has a method. It is taken to be so where
// the trait isn't known.
fn has_method(case: &Case<'_>, name: &[u8]) -> Result<bool, AllocError> {
    let Some(opener) = case.last(case.before(Part::Domains), Seek::AnyDomain)? else {
        return Ok(true);
    };
    let row = case.row_at(opener)?;
    let interfaces = case.span(Part::Interfaces);
    let Some(line) = case.first(interfaces, Seek::Trait(at(&row, 3)))? else {
        return Ok(true);
    };
    let block = case.block(Part::Interfaces, line, Seek::Close)?;
    Ok(case.first(block, Seek::Method(name))?.is_some())
}

// Whether a name is declared that isn't looked up among all lines of a part.
fn is_known(case: &Case<'_>, used: &Use) -> Result<bool, AllocError> {
    let name = at(&case.row, used.place);
    match used.wanted {
        Wanted::Import => has_import(case, at(&case.row, 1), name),
        Wanted::Method => has_method(case, name),
        Wanted::Script => Ok(case.first(script(case)?, Seek::Binds(name))?.is_some()),
        _ => Ok(used.found),
    }
}

fn wanted_text(wanted: Wanted) -> &'static [u8] {
    match wanted {
        Wanted::Struct => b"the name of a struct",
        Wanted::Trait => b"the name of a trait",
        Wanted::Domain => b"the name of a domain",
        Wanted::Load => b"the name of a load",
        Wanted::Target => b"the name of a load or a shadow",
        Wanted::Client => b"the name of a client",
        Wanted::Import => b"an import of the load's domain",
        Wanted::Method => b"a method of the domain's trait",
        Wanted::Script => b"a name that an earlier line of this client binds",
    }
}

// What no line declares.
fn missing_text(wanted: Wanted) -> &'static [u8] {
    match wanted {
        Wanted::Struct => b"`, and no struct is called so",
        Wanted::Trait => b"`, and no trait is called so",
        Wanted::Domain => b"`, and no domain is called so",
        Wanted::Load => b"`, and no load is called so",
        Wanted::Target => b"`, and no load or shadow is called so",
        Wanted::Client => b"`, and no client is called so",
        Wanted::Import => b"`, and no import of the load's domain is called so",
        Wanted::Method => b"`, and no method of the domain's trait is called so",
        Wanted::Script => b"`, and no earlier line of this client binds it",
    }
}

// Says which name is declared nowhere.
fn tell_missing(
    hint: &mut Hint,
    name: &[u8],
    missing: &[u8],
    wanted: &[u8],
) -> Result<(), AllocError> {
    hint.found(&[b"`", name, missing])?;
    hint.expected(&[wanted])
}

/// Rule 4: which name is declared nowhere.
pub fn tell(case: &Case<'_>, hint: &mut Hint) -> Result<(), AllocError> {
    let Some((part, _)) = case.part_of(case.number)? else {
        return Ok(());
    };
    let mut uses = uses(case, part)?;
    note_part(case, &mut uses, Part::Interfaces)?;
    note_part(case, &mut uses, Part::Domains)?;
    note_part(case, &mut uses, Part::Plan)?;
    note_part(case, &mut uses, Part::Clients)?;
    'uses: for used in uses.as_slice() {
        if !is_known(case, used)? {
            hint.mark_at(&case.row, used.place);
            return tell_missing(
                hint,
                at(&case.row, used.place),
                missing_text(used.wanted),
                wanted_text(used.wanted),
            );
        }
    }
    Ok(())
}
