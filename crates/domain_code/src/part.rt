//! The lines of a domain part, in order.
ghost use Rattle.std.specs.Prelude.{◌≡◌, ℕ, ◌+◌, ◌<◌, ◌^◌, List, [], ◌∷◌, ◌++◌, map, length, ◌≤◌, OnOk};
ghost use Rattle.std.specs.List.{prefix_len};
ghost use Rattle.rl_defs.specs.Refusals.{Answers};
ghost use Rattle.rl_defs.specs.DomainParts.{FailsDomains, AreDomains, next_block, begins_domain, ends};
ghost use Rattle.rl_text.specs.Places.{text_of, IsWithin, AreNumbered, first_number};
ghost use Rattle.domain_code.specs.declared.part.Block.TheVariants as Block;
ghost use Rattle.rl_text.specs.PartSteps.{GivesBlock};
ghost use Rattle.domain_code.specs.Parts.{block_of, stands_inside, goes_on, Joins, TakesLine};

use crate::read::read_form;
use rl_defs::LoadFault;
use rl_defs::bundle::Numbered;
use rl_defs::code::{DomainLine, DomainText, Instr};
use rl_defs::list::List;
use rl_text::lexeme::Lexeme;
use rl_text::line::{Line, first_number};
use std::alloc::{AllocError, Global};

// Where some lines lead.
#[derive(Clone, Copy)]
enum Block {
    Outside,
    // Among the lines that a domain declares things with, with what it has declared.
    Declares {
        words: bool,
        slots: bool,
        native: bool,
    },
    BehindFunction,
    InFunction,
    // Directly behind an instruction from which control doesn't go on to the next line.
    BehindEnd,
}

// Whether control doesn't go on from an instruction to the next line.
fn ends(instr: &Instr) -> bool
    ensures { result ≡ ends instr.now }
{
    match instr {
        Instr::Jmp(_) => true,
        Instr::Ret(_) => true,
        Instr::Trap => true,
        _ => false,
    }
}

// Whether a line begins a domain.
fn begins_domain(form: &DomainLine) -> bool
    ensures { result ≡ begins_domain form.now }
{
    match form {
        DomainLine::Domain(_, _) => true,
        _ => false,
    }
}

// Where a line leads among the lines that a domain declares things with.
fn behind_declaration(words: bool, slots: bool, native: bool, form: &DomainLine) -> Option<Block>
    ensures { GivesBlock block_of result (next_block (block_of (Block.Declares words slots native)) form.now) }
{
    match form {
        DomainLine::Words(_) => {
            if words || native {
                return None;
            }
            Some(Block::Declares {
                words: true,
                slots,
                native,
            })
        }
        DomainLine::Slot(_, _) => {
            if native {
                return None;
            }
            Some(Block::Declares {
                words,
                slots: true,
                native,
            })
        }
        DomainLine::Import(_, _) => Some(Block::Declares {
            words,
            slots,
            native,
        }),
        DomainLine::Native(_) => {
            if words || slots || native {
                return None;
            }
            Some(Block::Declares {
                words,
                slots,
                native: true,
            })
        }
        DomainLine::Function(_) => {
            if native {
                return None;
            }
            Some(Block::InFunction)
        }
        DomainLine::Close => Some(Block::Outside),
        _ => None,
    }
}

// Where a line of a function leads.
fn behind_code(form: &DomainLine) -> Option<Block>
    ensures { GivesBlock block_of result (next_block (block_of Block.InFunction) form.now) }
{
    match form {
        DomainLine::Head(_, _) => Some(Block::InFunction),
        DomainLine::Code(instr) => {
            if ends(instr) {
                return Some(Block::BehindEnd);
            }
            Some(Block::InFunction)
        }
        DomainLine::Close => Some(Block::BehindFunction),
        _ => None,
    }
}

// Where a line leads, where it may stand there.
fn after(block: Block, form: &DomainLine) -> Option<Block>
    ensures { GivesBlock block_of result (next_block (block_of block) form.now) }
{
    match block {
        Block::Outside => match form {
            DomainLine::Domain(_, _) => Some(Block::Declares {
                words: false,
                slots: false,
                native: false,
            }),
            _ => None,
        },
        Block::Declares {
            words,
            slots,
            native,
        } => behind_declaration(words, slots, native, form),
        Block::BehindFunction => match form {
            DomainLine::Function(_) => Some(Block::InFunction),
            DomainLine::Close => Some(Block::Outside),
            _ => None,
        },
        Block::InFunction => behind_code(form),
        Block::BehindEnd => match form {
            DomainLine::Head(_, _) => Some(Block::InFunction),
            DomainLine::Close => Some(Block::BehindFunction),
            _ => None,
        },
    }
}

// Whether a line with these bytes and those behind it surely belongs to the domain of the line
// before it: it isn't indented, and doesn't begin as one that begins a domain.
fn stands_inside(rest: &[u8]) -> bool
    ensures { result ≡ stands_inside rest.now }
{
    match rest {
        [first, ..] => *first > b' ' && !(*first == b'd' && rest.starts_with(b"domain")),
        [] => false,
    }
}

// Whether a line surely belongs to the domain of the line before it.
fn goes_on(bytes: &[u8], line: &Line) -> bool
    ensures { result ≡ goes_on bytes.now line.now }
{
    let start = (line.start as usize).min(bytes.len());
    let (_, rest) = bytes.split_at(start);
    stands_inside(rest)
}

// The lines behind the one of this number.
fn behind(lines: &[Line], number: u32) -> &[Line]
    ensures { length result.now ≤ length lines.now }
{
    let place = number.saturating_sub(first_number(lines)) as usize + 1;
    let (_, behind) = lines.split_at(place.min(lines.len()));
    behind
}

// How many lines surely belong to the domain of the line before them, so that room for them is made
// at once.
fn room(bytes: &[u8], behind: &[Line]) -> usize
    ensures { result ≡ prefix_len (goes_on bytes.now) behind.now }
{
    behind
        .iter()
        .take_while(|line| goes_on(bytes, *line))
        .count()
}

// What is said where there is no room for a line, which is gone.
#[cold]
#[inline(never)]
fn no_room(_line: Numbered<DomainLine>) -> AllocError {
    AllocError
}

// Puts a line last. Room is made first, and giving the line up stands apart, so that it is moved
// once and as a whole.
#[inline(always)]
fn put_last(
    lines: &mut Vec<Numbered<DomainLine>>,
    line: Numbered<DomainLine>,
) -> Result<(), AllocError>
    ensures { OnOk result (lines.new.items ≡ lines.old.items ++ line ∷ []) }
{
    match lines.reserve(1) {
        Ok(()) => {
            lines.push_reserved(line);
            Ok(())
        }
        Err(_) => Err(no_room(line)),
    }
}

// Begins a domain with its first line, with room for so many lines behind it.
fn begin(
    alloc: Global,
    domains: &mut Vec<DomainText>,
    line: Numbered<DomainLine>,
    room: usize,
) -> Result<(), AllocError>
    ensures { OnOk result (domains.new.items ≡ domains.old.items ++ record { lines = line ∷ [] } ∷ []) }
{
    let mut all = Vec::with_capacity(alloc, room.saturating_add(1))?;
    put_last(&mut all, line)?;
    let lines = List::from_vec(all);
    domains.push(DomainText { lines })?;
    Ok(())
}

// Puts one of these lines behind the lines so far. One that begins a domain begins a new one, and
// each other one belongs to the last.
fn put(
    alloc: Global,
    domains: &mut Vec<DomainText>,
    line: Numbered<DomainLine>,
    bytes: &[u8],
    lines: &[Line],
) -> Result<(), AllocError>
    ensures { OnOk result (Joins domains.old.items line domains.new.items) }
{
    if begins_domain(&line.form) {
        let room = room(bytes, behind(lines, line.line));
        return begin(alloc, domains, line, room);
    }
    match domains.pop() {
        Some(last) => {
            let mut all = last.lines.into_vec();
            put_last(&mut all, line)?;
            let lines = List::from_vec(all);
            domains.push_reserved(DomainText { lines });
            Ok(())
        }
        None => Ok(()),
    }
}

// Puts one of these lines, that may stand behind the lines so far, behind them, and gives where it
// leads. The buffer is for its lexemes.
fn take_line(
    alloc: Global,
    buffer: &mut Vec<Lexeme>,
    domains: &mut Vec<DomainText>,
    block: Block,
    bytes: &[u8],
    line: &Line,
    lines: &[Line],
) -> Result<Block, LoadFault>
    requires { IsWithin bytes.now line.now }
    ensures { TakesLine line.now.number (text_of bytes.now line.now) block domains.old.items domains.new.items result }
{
    let Some(form) = read_form(alloc, buffer, bytes, line)? else {
        return Ok(block);
    };
    let Some(next) = after(block, &form) else {
        return Err(LoadFault::refused(line.number, 2));
    };
    let numbered = Numbered {
        line: line.number,
        form,
    };
    put(alloc, domains, numbered, bytes, lines)?;
    Ok(next)
}

/// The domains of a domain part, each with its lines and their numbers, by the lines behind the
/// part's header. It is refused at the first line at which rule 1 or 2 fails, by the lower of them:
/// where a line is no form, where it may not stand behind the lines before it, and behind the last
/// line where a block is open there.
pub fn read_domains(
    alloc: Global,
    bytes: &[u8],
    lines: &[Line],
) -> Result<List<DomainText>, LoadFault>
    requires numbered { AreNumbered bytes.now (first_number lines.now) lines.now }
    requires room { first_number lines.now + length lines.now < 2 ^ 32 }
    ensures { let first = first_number lines.now in let texts = map (text_of bytes.now) lines.now in
        Answers (FailsDomains first texts) (λ domains. AreDomains first texts domains) result }
{
    let mut buffer = Vec::new(alloc);
    let mut domains = Vec::new(alloc);
    let mut block = Block::Outside;
    let mut number = first_number(lines);
    'lines: for line in lines {
        block = take_line(alloc, &mut buffer, &mut domains, block, bytes, line, lines)?;
        number += 1;
    }
    match block {
        Block::Outside => Ok(List::from_vec(domains)),
        _ => Err(LoadFault::refused(number, 2)),
    }
}
