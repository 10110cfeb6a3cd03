//! Reading the clients.
ghost use Rattle.std.specs.Prelude.{◌≡◌, ◌↔◌, ℕ, ◌+◌, ◌<◌, ◌^◌, IsTrue, List, map, length};
ghost use Rattle.rl_defs.specs.Refusals.{Answers};
ghost use Rattle.rl_defs.specs.Parts.{StandFor};
ghost use Rattle.rl_defs.specs.BundleParts.{client_part, FailsClients};
ghost use Rattle.rl_text.specs.Places.{text_of, AreNumbered, first_number};

use crate::clients::form::whole_form;
use rl_defs::LoadFault;
use rl_defs::bundle::{ClientLine, Clients};
use rl_text::cursor::{Cursor, Stop};
use rl_text::line::Line;
use rl_text::part::{PartLine, read_lines};
use std::alloc::Global;

// Whether a client is open.
#[derive(Clone, Copy)]
pub(crate) enum Block {
    Outside,
    InClient,
}

struct ClientPart;

impl PartLine for ClientPart {
    ghost use Rattle.rl_defs.specs.BundleParts.{ClientBlock, client_part};
    ghost use Rattle.bundle_syntax.specs.ClientLines.{line_at};
    ghost use Rattle.bundle_syntax.specs.Blocks.{client_block};

    type Form = ClientLine;

    type Block = Block;

    ghost Open = { ClientBlock };

    ghost grammar = { client_part };

    ghost block_of = { client_block };

    ghost line_at = { line_at };

    fn outside() -> Block {
        Block::Outside
    }

    fn is_outside(block: Block) -> bool {
        match block {
            Block::Outside => true,
            Block::InClient => false,
        }
    }

    fn after(block: Block, form: &ClientLine) -> Option<Block> {
        match block {
            Block::Outside => match form {
                ClientLine::Client(_) => Some(Block::InClient),
                _ => None,
            },
            Block::InClient => match form {
                ClientLine::Client(_) => None,
                ClientLine::Close => Some(Block::Outside),
                _ => Some(Block::InClient),
            },
        }
    }

    fn read(alloc: Global, left: &mut Cursor<'_>) -> Result<ClientLine, Stop> {
        whole_form(alloc, left)
    }
}

/// The lines of the clients, with their numbers, by the lines behind the part's header. They are
/// refused at the first line at which rule 1 or 2 fails, by the lower of them: where a line is no
/// form, where it may not stand behind the lines before it, and behind the last line where a client
/// is open there.
pub fn read_clients(alloc: Global, bytes: &[u8], lines: &[Line]) -> Result<Clients, LoadFault>
    requires numbered { AreNumbered bytes.now (first_number lines.now) lines.now }
    requires room { first_number lines.now + length lines.now < 2 ^ 32 }
    ensures { let first = first_number lines.now in let texts = map (text_of bytes.now) lines.now in
        Answers (FailsClients first texts) (λ clients. StandFor client_part first texts clients.lines) result }
{
    let lines = read_lines::<ClientPart>(alloc, bytes, lines)?;
    Ok(Clients { lines })
}
