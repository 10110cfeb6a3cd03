//! Rules 40 to 46: the plan, and limits.

use crate::case::{Case, Part, Seek, Span};
use crate::hint::{Hint, digits};
use crate::tokens::{at, is, read};
use std::alloc::AllocError;

/// The line that opens the domain of a load, by the load's name.
pub fn domain_of(case: &Case<'_>, load: &[u8]) -> Result<Option<usize>, AllocError> {
    let Some(line) = case.first(case.span(Part::Plan), Seek::Load(load))? else {
        return Ok(None);
    };
    let row = case.row_at(line)?;
    case.first(case.span(Part::Domains), Seek::Domain(at(&row, 3)))
}

/// The line of the load of a target, by the target's name.
pub fn load_of(case: &Case<'_>, target: &[u8]) -> Result<Option<usize>, AllocError> {
    let plan = case.span(Part::Plan);
    let Some(line) = case.first(plan, Seek::Target(target))? else {
        return Ok(None);
    };
    let row = case.row_at(line)?;
    if is(&row, 0, b"load") {
        return Ok(Some(line));
    }
    case.first(plan, Seek::Load(at(&row, 3)))
}

/// The trait of a target, by the target's name.
pub fn trait_of<'a>(case: &Case<'a>, target: &[u8]) -> Result<Option<&'a [u8]>, AllocError> {
    let Some(load) = load_of(case, target)? else {
        return Ok(None);
    };
    let row = case.row_at(load)?;
    let domain = Seek::Domain(at(&row, 3));
    match case.first(case.span(Part::Domains), domain)? {
        Some(line) => {
            let row = case.row_at(line)?;
            Ok(Some(at(&row, 3)))
        }
        None => Ok(None),
    }
}

// How many imports are looked up.
const MOST_IMPORTS: usize = 64;

// The first line of a domain with an import that a load doesn't bind.
fn unbound(case: &Case<'_>, block: Span, load: &[u8]) -> Result<Option<usize>, AllocError> {
    let mut row = Vec::new(case.alloc);
    let mut looked = 0usize;
    'lines: for number in block.from..block.to {
        read(&mut row, case.line(number))?;
        if is(&row, 0, b"import") && !is(&row, 1, b":") && looked < MOST_IMPORTS {
            looked += 1;
            let bind = Seek::Bind(load, at(&row, 1));
            if case.first(case.span(Part::Plan), bind)?.is_none() {
                return Ok(Some(number));
            }
        }
    }
    Ok(None)
}

// Rule 40: which import of a load isn't bound.
fn tell_unbound(case: &Case<'_>, hint: &mut Hint) -> Result<(), AllocError> {
    let load = at(&case.row, 1);
    hint.mark_at(&case.row, 1);
    let Some(opener) = domain_of(case, load)? else {
        return Ok(());
    };
    let block = case.block(Part::Domains, opener, Seek::AnyDomain)?;
    let Some(number) = unbound(case, block, load)? else {
        return Ok(());
    };
    let row = case.row_at(number)?;
    let import = at(&row, 1);
    hint.see(number);
    hint.found(&[b"`", load, b".", import, b"`, which no `bind` line binds"])?;
    hint.expected(&[b"a line `bind ", load, b".", import, b" = TARGET`"])
}

// The line of the import that a `bind` line binds.
fn import_bound(case: &Case<'_>) -> Result<Option<usize>, AllocError> {
    let Some(opener) = domain_of(case, at(&case.row, 1))? else {
        return Ok(None);
    };
    let block = case.block(Part::Domains, opener, Seek::AnyDomain)?;
    case.first(block, Seek::Import(at(&case.row, 3)))
}

// Rule 41: which traits differ.
fn tell_trait(case: &Case<'_>, hint: &mut Hint) -> Result<(), AllocError> {
    let target = at(&case.row, 5);
    hint.mark_at(&case.row, 5);
    let Some(number) = import_bound(case)? else {
        return Ok(());
    };
    let Some(of) = trait_of(case, target)? else {
        return Ok(());
    };
    let row = case.row_at(number)?;
    let line = digits(case.alloc, number)?;
    hint.see(number);
    hint.found(&[b"`", target, b"`, whose trait is `", of, b"`"])?;
    hint.expected(&[
        b"a target of the trait `",
        at(&row, 3),
        b"`, as line ",
        line.as_slice(),
        b" says",
    ])
}

// Rule 42: which line loads the target.
fn tell_order(case: &Case<'_>, hint: &mut Hint) -> Result<(), AllocError> {
    let target = at(&case.row, 5);
    hint.mark_at(&case.row, 5);
    let Some(loaded) = load_of(case, target)? else {
        return Ok(());
    };
    let Some(own) = load_of(case, at(&case.row, 1))? else {
        return Ok(());
    };
    let line = digits(case.alloc, loaded)?;
    let own = digits(case.alloc, own)?;
    hint.see(loaded);
    hint.found(&[
        b"`",
        target,
        b"`, which is loaded by line ",
        line.as_slice(),
    ])?;
    hint.expected(&[b"a target that is loaded before line ", own.as_slice()])
}

// Rule 43: why a load has no shadow.
fn tell_shadow(case: &Case<'_>, hint: &mut Hint) -> Result<(), AllocError> {
    let load = at(&case.row, 3);
    hint.mark_at(&case.row, 3);
    if let Some(first) = case.first(case.before(Part::Plan), Seek::ShadowOf(load))? {
        let line = digits(case.alloc, first)?;
        hint.see(first);
        hint.found(&[
            b"`",
            load,
            b"`, which has its shadow by line ",
            line.as_slice(),
        ])?;
        return hint.expected(&[b"one shadow for a load"]);
    }
    let Some(opener) = domain_of(case, load)? else {
        return Ok(());
    };
    let block = case.block(Part::Domains, opener, Seek::AnyDomain)?;
    if let Some(native) = case.first(block, Seek::Native)? {
        let line = digits(case.alloc, native)?;
        hint.see(native);
        hint.found(&[
            b"`",
            load,
            b"`, whose domain has a native body by line ",
            line.as_slice(),
        ])?;
        return hint.expected(&[b"a load of domain code"]);
    }
    Ok(())
}

// Rule 45: which line is the first of its kind.
fn tell_device(case: &Case<'_>, hint: &mut Hint) -> Result<(), AllocError> {
    hint.mark_at(&case.row, 0);
    if let Some(first) = case.first(case.before(Part::Plan), Seek::Device)? {
        let line = digits(case.alloc, first)?;
        hint.see(first);
        hint.found(&[
            b"a second `device` line; line ",
            line.as_slice(),
            b" is the first",
        ])?;
    }
    hint.expected(&[b"one `device` line"])
}

// Says which number goes over a limit.
fn tell_number(
    case: &Case<'_>,
    hint: &mut Hint,
    place: usize,
    limit: &[u8],
) -> Result<(), AllocError> {
    hint.mark_at(&case.row, place);
    hint.found(&[at(&case.row, place)])?;
    hint.expected(&[limit])
}

// Says of what there is one too many.
fn tell_count(case: &Case<'_>, hint: &mut Hint, limit: &[u8]) -> Result<(), AllocError> {
    hint.mark_at(&case.row, 0);
    hint.found(&[b"one too many"])?;
    hint.expected(&[limit])
}

// Rule 46: which limit a line goes over.
fn tell_limit(case: &Case<'_>, hint: &mut Hint) -> Result<(), AllocError> {
    match at(&case.row, 0) {
        b"words" => tell_number(case, hint, 1, b"at most 4096 words"),
        b"fuel" => tell_number(case, hint, 1, b"fuel from 1 to 1000000"),
        b"device" => tell_number(case, hint, 2, b"from 1 to 4096 blocks"),
        b"load" => tell_count(case, hint, b"at most 64 loads"),
        b"slot" => tell_count(case, hint, b"at most 64 slots in a domain"),
        b"client" => tell_count(case, hint, b"at most 16 clients"),
        b"let" | b"text" | b"call" | b"show" | b"drop" | b"kill" => {
            tell_count(case, hint, b"at most 1000 commands in a client")
        }
        _ => Ok(()),
    }
}

/// Rules 40 to 46: why the line doesn't fit the plan.
pub fn tell(case: &Case<'_>, hint: &mut Hint, rule: u8) -> Result<(), AllocError> {
    match rule {
        40 => tell_unbound(case, hint),
        41 => tell_trait(case, hint),
        42 => tell_order(case, hint),
        43 => tell_shadow(case, hint),
        44 => tell_number(case, hint, 5, b"at most 16 restarts"),
        45 => tell_device(case, hint),
        _ => tell_limit(case, hint),
    }
}
