//! Reading the plan.
ghost use Rattle.std.specs.Prelude.{◌≡◌, ◌↔◌, ℕ, ◌+◌, ◌<◌, ◌^◌, IsTrue, List, map, length};
ghost use Rattle.rl_defs.specs.Refusals.{Answers};
ghost use Rattle.rl_defs.specs.Parts.{StandFor};
ghost use Rattle.rl_defs.specs.BundleParts.{plan_part, FailsPlan};
ghost use Rattle.rl_text.specs.Places.{text_of, AreNumbered, first_number};

use crate::plan::form::whole_form;
use rl_defs::LoadFault;
use rl_defs::bundle::{Plan, PlanLine};
use rl_text::cursor::{Cursor, Stop};
use rl_text::line::Line;
use rl_text::part::{PartLine, read_lines};
use std::alloc::Global;

// Lines of the plan stand in any order.
#[derive(Clone, Copy)]
pub(crate) enum Block {
    Anywhere,
}

struct PlanPart;

impl PartLine for PlanPart {
    ghost use Rattle.rl_defs.specs.BundleParts.{PlanBlock, plan_part};
    ghost use Rattle.bundle_syntax.specs.PlanLines.{line_at};
    ghost use Rattle.bundle_syntax.specs.Blocks.{plan_block};

    type Form = PlanLine;

    type Block = Block;

    ghost Open = { PlanBlock };

    ghost grammar = { plan_part };

    ghost block_of = { plan_block };

    ghost line_at = { line_at };

    fn outside() -> Block {
        Block::Anywhere
    }

    fn is_outside(block: Block) -> bool {
        match block {
            Block::Anywhere => true,
        }
    }

    fn after(block: Block, _form: &PlanLine) -> Option<Block> {
        Some(block)
    }

    fn read(alloc: Global, left: &mut Cursor<'_>) -> Result<PlanLine, Stop> {
        whole_form(alloc, left)
    }
}

/// The lines of a plan, with their numbers, by the lines behind the part's header. It is refused at
/// the first line that is no form, by rule 1.
pub fn read_plan(alloc: Global, bytes: &[u8], lines: &[Line]) -> Result<Plan, LoadFault>
    requires numbered { AreNumbered bytes.now (first_number lines.now) lines.now }
    requires room { first_number lines.now + length lines.now < 2 ^ 32 }
    ensures { let first = first_number lines.now in let texts = map (text_of bytes.now) lines.now in
        Answers (FailsPlan first texts) (λ plan. StandFor plan_part first texts plan.lines) result }
{
    let lines = read_lines::<PlanPart>(alloc, bytes, lines)?;
    Ok(Plan { lines })
}
