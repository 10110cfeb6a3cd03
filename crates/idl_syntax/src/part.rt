//! The lines of an interface part, in order.
ghost use Rattle.std.specs.Prelude.{◌≡◌, ◌↔◌, ℕ, ◌+◌, ◌<◌, ◌^◌, IsTrue, List, map, length};
ghost use Rattle.rl_defs.specs.Refusals.{Answers};
ghost use Rattle.rl_defs.specs.Parts.{StandFor};
ghost use Rattle.rl_defs.specs.IdlParts.{interface_part, FailsIdl};
ghost use Rattle.rl_text.specs.Places.{text_of, AreNumbered, first_number};

use crate::form::whole_form;
use rl_defs::LoadFault;
use rl_defs::idl::{Idl, IdlLine};
use rl_text::cursor::{Cursor, Stop};
use rl_text::line::Line;
use rl_text::part::{PartLine, read_lines};
use std::alloc::Global;

// Which block is open.
#[derive(Clone, Copy, Debug)]
pub(crate) enum Block {
    Outside,
    InStruct,
    InTrait,
    BeforeMethod,
}

/// The interface part.
pub(crate) struct IdlPart;

impl PartLine for IdlPart {
    ghost use Rattle.rl_defs.specs.IdlParts.{IdlBlock, interface_part};
    ghost use Rattle.idl_syntax.specs.Lines.{line_at};
    ghost use Rattle.idl_syntax.specs.Parts.{block_of};

    type Form = IdlLine;

    type Block = Block;

    ghost Open = { IdlBlock };

    ghost grammar = { interface_part };

    ghost block_of = { block_of };

    ghost line_at = { line_at };

    fn outside() -> Block {
        Block::Outside
    }

    fn is_outside(block: Block) -> bool {
        match block {
            Block::Outside => true,
            Block::InStruct | Block::InTrait | Block::BeforeMethod => false,
        }
    }

    fn after(block: Block, form: &IdlLine) -> Option<Block> {
        match block {
            Block::Outside => match form {
                IdlLine::Struct(_) => Some(Block::InStruct),
                IdlLine::Trait(_) => Some(Block::InTrait),
                _ => None,
            },
            Block::InStruct => match form {
                IdlLine::Field(_, _) => Some(Block::InStruct),
                IdlLine::Close => Some(Block::Outside),
                _ => None,
            },
            Block::InTrait => match form {
                IdlLine::Idempotent => Some(Block::BeforeMethod),
                IdlLine::Method { .. } => Some(Block::InTrait),
                IdlLine::Close => Some(Block::Outside),
                _ => None,
            },
            Block::BeforeMethod => match form {
                IdlLine::Method { .. } => Some(Block::InTrait),
                _ => None,
            },
        }
    }

    fn read(alloc: Global, left: &mut Cursor<'_>) -> Result<IdlLine, Stop> {
        whole_form(alloc, left)
    }
}

/// The forms of an interface part, by the lines behind its header. It is refused at the first line
/// at which rule 1 or 2 fails, by the lower of them: where a line is no form, where it may not
/// stand behind the lines before it, and behind the last line where a block is open there.
pub fn read_idl(alloc: Global, bytes: &[u8], lines: &[Line]) -> Result<Idl, LoadFault>
    requires numbered { AreNumbered bytes.now (first_number lines.now) lines.now }
    requires room { first_number lines.now + length lines.now < 2 ^ 32 }
    ensures { let first = first_number lines.now in let texts = map (text_of bytes.now) lines.now in
        Answers (FailsIdl first texts) (λ idl. StandFor interface_part first texts idl.lines) result }
{
    let lines = read_lines::<IdlPart>(alloc, bytes, lines)?;
    Ok(Idl { lines })
}
