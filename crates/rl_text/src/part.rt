//! The lines of a part, in order, whatever its forms are.
ghost use Rattle.std.specs.Prelude.{◌≡◌, ◌↔◌, ℕ, ◌+◌, ◌<◌, ◌^◌, IsTrue, List, Option, map, length};
ghost use Rattle.rl_defs.specs.Refusals.{Answers};
ghost use Rattle.rl_defs.specs.Tokens.{Token};
ghost use Rattle.rl_defs.specs.Parts.{Grammar, StandFor, FailsPart};
ghost use Rattle.rl_text.specs.Places.{text_of, IsWithin, AreNumbered, first_number};
ghost use Rattle.rl_text.specs.Whole.{GivesWhole};
ghost use Rattle.rl_text.specs.Forms.{Reads};
ghost use Rattle.rl_text.specs.PartSteps.{GivesBlock, TakesLine};
ghost use Rattle.rl_text.specs.Forms.{IsReading};

use crate::cursor::{Cursor, Stop};
use crate::lexeme::{Lexeme, lexemes};
use crate::line::{Line, first_number};
use rl_defs::LoadFault;
use rl_defs::bundle::Numbered;
use rl_defs::list::List;
use std::alloc::Global;

/// The lines of a part of a bundle: how one is read, and where it may stand.
pub trait PartLine {
    /// A line's form.
    type Form: Drop;

    /// Which block is open behind some lines.
    type Block: Copy;

    // The blocks of the part's grammar.
    ghost Open: { Type 0 };

    // Which texts are such lines, and where each line may stand.
    ghost grammar: { Grammar Self.Form Open };

    // The block that the code's one stands for.
    ghost block_of: { Self.Block → Open };

    // The line that tokens spell.
    ghost line_at: { List Token → Option Self.Form };

    /// No block is open.
    fn outside() -> Self::Block
        ensures { block_of result ≡ grammar.outside };

    /// Whether no block is open.
    fn is_outside(block: Self::Block) -> bool
        ensures { IsTrue result ↔ (block_of block ≡ grammar.outside) };

    /// The block that is open behind a line, where the line may stand there.
    fn after(block: Self::Block, form: &Self::Form) -> Option<Self::Block>
        ensures { GivesBlock block_of result (grammar.next (block_of block) form.now) };

    /// The form that all tokens of a line spell.
    fn read(alloc: Global, left: &mut Cursor<'_>) -> Result<Self::Form, Stop>
        ensures { GivesWhole result (line_at left.old) };
}

/// The form of a line, if it has tokens. The line is refused by rule 1 exactly where it is no form.
/// The buffer is for its lexemes.
pub fn read_form<F: PartLine>(
    alloc: Global,
    buffer: &mut Vec<Lexeme>,
    bytes: &[u8],
    line: &Line,
) -> Result<Option<F::Form>, LoadFault>
    requires within { IsWithin bytes.now line.now }
    requires reading { IsReading F.grammar.is_line (λ text ts. F.line_at ts) }
    ensures { Reads F.grammar.is_line line.now.number (text_of bytes.now line.now) result }
{
    lexemes(buffer, bytes, line)?;
    let all = buffer.as_slice();
    if all.is_empty() {
        return Ok(None);
    }
    let mut left = Cursor::new(line.text(bytes), all);
    match F::read(alloc, &mut left) {
        Ok(form) => Ok(Some(form)),
        Err(Stop::NoForm) => Err(LoadFault::refused(line.number, 1)),
        Err(Stop::Memory) => Err(LoadFault::Memory),
    }
}

// Puts a line that may stand behind the lines so far behind them, and gives the block that is open
// then. The buffer is for its lexemes.
fn take_line<F: PartLine>(
    alloc: Global,
    buffer: &mut Vec<Lexeme>,
    forms: &mut List<Numbered<F::Form>>,
    block: F::Block,
    bytes: &[u8],
    line: &Line,
) -> Result<F::Block, LoadFault>
    requires within { IsWithin bytes.now line.now }
    requires reading { IsReading F.grammar.is_line (λ text ts. F.line_at ts) }
    ensures { let text = text_of bytes.now line.now in
        TakesLine F.grammar F.block_of line.now.number text block forms.old forms.new result }
{
    let Some(form) = read_form::<F>(alloc, buffer, bytes, line)? else {
        return Ok(block);
    };
    let Some(next) = F::after(block, &form) else {
        return Err(LoadFault::refused(line.number, 2));
    };
    let numbered = Numbered {
        line: line.number,
        form,
    };
    forms.push(numbered)?;
    Ok(next)
}

/// The forms of a part, with the numbers of their lines, by the lines behind the part's header. It
/// is refused at the first line at which rule 1 or 2 fails, by the lower of them: where a line is
/// no form, where it may not stand behind the lines before it, and behind the last line where a
/// block is open there.
pub fn read_lines<F: PartLine>(
    alloc: Global,
    bytes: &[u8],
    lines: &[Line],
) -> Result<List<Numbered<F::Form>>, LoadFault>
    requires numbered { AreNumbered bytes.now (first_number lines.now) lines.now }
    requires room { first_number lines.now + length lines.now < 2 ^ 32 }
    requires reading { IsReading F.grammar.is_line (λ text ts. F.line_at ts) }
    ensures { let first = first_number lines.now in let texts = map (text_of bytes.now) lines.now in
        Answers (FailsPart F.grammar first texts) (λ all. StandFor F.grammar first texts all) result }
{
    let mut buffer = Vec::new(alloc);
    let mut forms = List::new(alloc);
    let mut block = F::outside();
    let mut number = first_number(lines);
    'lines: for line in lines {
        block = take_line::<F>(alloc, &mut buffer, &mut forms, block, bytes, line)?;
        number += 1;
    }
    if F::is_outside(block) {
        return Ok(forms);
    }
    Err(LoadFault::refused(number, 2))
}
