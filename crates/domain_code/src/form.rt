//! The line forms of the domain part.
ghost use Rattle.std.specs.Prelude.{◌≡◌, ℕ, List, codes};
ghost use Rattle.rl_text.specs.Reading.{Gives};
ghost use Rattle.domain_code.specs.Forms.{pair_at, domain_at, slot_at, import_at, words_at, native_of, native_at, function_at, label_at, trap_at, operands_at, by_word_at, behind_name_at, word_line_at, form_at, line_at};
ghost use Rattle.rl_text.specs.Whole.{GivesWhole};

use crate::instr;
use crate::list::OneHead;
use crate::verb::{Verb, verb_of};
use rl_defs::code::{DomainLine, Instr, Native};
use rl_defs::lexeme::{Key, Mark};
use rl_defs::name::Name;
use rl_text::cursor::{Cursor, Stop};
use rl_text::list::list_to_end;
use std::alloc::Global;

// Two names.
#[derive(Clone, Copy)]
pub(crate) struct TwoNames {
    name: Name,
    of: Name,
}

// `NAME: NAME`
#[tactic(auto, unfolding(crate::specs::Forms::pair_at))]
fn pair(left: &mut Cursor<'_>) -> Result<TwoNames, Stop>
    ensures { Gives (λ p. p) result left.new (pair_at left.old) }
{
    let name = left.name()?;
    left.mark(Mark::Colon)?;
    let of = left.name()?;
    Ok(TwoNames { name, of })
}

// `domain NAME: TRAIT {`, behind its word.
#[tactic(auto, unfolding(crate::specs::Forms::domain_at))]
fn domain(left: &mut Cursor<'_>) -> Result<DomainLine, Stop>
    ensures { Gives (λ l. l) result left.new (domain_at left.old) }
{
    let pair = pair(left)?;
    left.mark(Mark::OpenBrace)?;
    Ok(DomainLine::Domain(pair.name, pair.of))
}

// `slot NAME: STRUCT`, behind its word.
#[tactic(auto, unfolding(crate::specs::Forms::slot_at))]
fn slot(left: &mut Cursor<'_>) -> Result<DomainLine, Stop>
    ensures { Gives (λ l. l) result left.new (slot_at left.old) }
{
    let pair = pair(left)?;
    Ok(DomainLine::Slot(pair.name, pair.of))
}

// `import NAME: TRAIT`, behind its word.
#[tactic(auto, unfolding(crate::specs::Forms::import_at))]
fn import(left: &mut Cursor<'_>) -> Result<DomainLine, Stop>
    ensures { Gives (λ l. l) result left.new (import_at left.old) }
{
    let pair = pair(left)?;
    Ok(DomainLine::Import(pair.name, pair.of))
}

// `words N`, behind its word.
#[tactic(auto, unfolding(crate::specs::Forms::words_at))]
fn words(left: &mut Cursor<'_>) -> Result<DomainLine, Stop>
    ensures { Gives (λ l. l) result left.new (words_at left.old) }
{
    let count = left.number()?;
    Ok(DomainLine::Words(count))
}

// The native body of a word.
#[tactic(auto, unfolding(crate::specs::Forms::native_of))]
fn native_of(word: &[u8]) -> Option<Native>
    ensures { result ≡ native_of word.now }
{
    if word == b"fs".as_slice() {
        return Some(Native::Fs);
    }
    if word == b"rv6".as_slice() {
        return Some(Native::Rv6);
    }
    None
}

// `native fs` or `native rv6`, behind its word.
#[tactic(auto, unfolding(crate::specs::Forms::native_at))]
fn native(left: &mut Cursor<'_>) -> Result<DomainLine, Stop>
    ensures { Gives (λ l. l) result left.new (native_at left.old) }
{
    let name = left.name()?;
    match native_of(name.bytes()) {
        Some(body) => Ok(DomainLine::Native(body)),
        None => Err(Stop::NoForm),
    }
}

// `fn NAME {`, behind its word.
#[tactic(auto, unfolding(crate::specs::Forms::function_at))]
fn function(left: &mut Cursor<'_>) -> Result<DomainLine, Stop>
    ensures { Gives (λ l. l) result left.new (function_at left.old) }
{
    let name = left.name()?;
    left.mark(Mark::OpenBrace)?;
    Ok(DomainLine::Function(name))
}

// `LABEL: HEAD, ..`, behind its colon.
#[tactic(auto, unfolding(crate::specs::Forms::label_at))]
fn label(alloc: Global, name: Name, left: &mut Cursor<'_>) -> Result<DomainLine, Stop>
    ensures { Gives (λ l. l) result left.new (label_at name left.old) }
{
    let heads = list_to_end::<OneHead>(alloc, left)?;
    Ok(DomainLine::Head(name, heads))
}

// A line, behind the word that it begins with.
fn operands(alloc: Global, verb: Verb, left: &mut Cursor<'_>) -> Result<DomainLine, Stop>
    ensures { Gives (λ l. l) result left.new (operands_at verb left.old) }
{
    match verb {
        Verb::Domain => domain(left),
        Verb::Words => words(left),
        Verb::Slot => slot(left),
        Verb::Import => import(left),
        Verb::Native => native(left),
        Verb::One(verb) => instr::one(verb, left),
        Verb::Two(verb) => instr::two(verb, left),
        Verb::Three(verb) => instr::three(verb, left),
        Verb::Named(verb) => instr::named(verb, left),
        Verb::Jmp => instr::jump(left),
        Verb::Put => instr::put(left),
        Verb::Hang => instr::hang(left),
        Verb::Unhang => instr::unhang(left),
        Verb::Call => instr::call(alloc, left),
        Verb::Ret => instr::ret(alloc, left),
        Verb::Trap => Ok(DomainLine::Code(Instr::Trap)),
    }
}

// A line that begins with this name, and has no colon behind it.
#[tactic(auto, unfolding(crate::specs::Forms::by_word_at))]
fn by_word(alloc: Global, name: Name, left: &mut Cursor<'_>) -> Result<DomainLine, Stop>
    ensures { Gives (λ l. l) result left.new (by_word_at name left.old) }
{
    match verb_of(name.bytes()) {
        Some(verb) => operands(alloc, verb, left),
        None => Err(Stop::NoForm),
    }
}

// A line that begins with this name.
#[tactic(auto, unfolding(crate::specs::Forms::behind_name_at))]
fn behind_name(alloc: Global, name: Name, left: &mut Cursor<'_>) -> Result<DomainLine, Stop>
    ensures { Gives (λ l. l) result left.new (behind_name_at name left.old) }
{
    if left.skip_mark(Mark::Colon) {
        return label(alloc, name, left);
    }
    by_word(alloc, name, left)
}

// A line that begins with a name.
#[tactic(auto, unfolding(crate::specs::Forms::word_line_at))]
fn word_line(alloc: Global, left: &mut Cursor<'_>) -> Result<DomainLine, Stop>
    ensures { Gives (λ l. l) result left.new (word_line_at left.old) }
{
    let name = left.name()?;
    behind_name(alloc, name, left)
}

// The form at the front.
#[tactic(auto, unfolding(crate::specs::Forms::form_at))]
fn form(alloc: Global, left: &mut Cursor<'_>) -> Result<DomainLine, Stop>
    ensures { Gives (λ l. l) result left.new (form_at left.old) }
{
    if left.skip_key(Key::Const) {
        return instr::constant(left);
    }
    if left.skip_key(Key::Fn) {
        return function(left);
    }
    if left.skip_mark(Mark::CloseBrace) {
        return Ok(DomainLine::Close);
    }
    word_line(alloc, left)
}

/// The form that all tokens of a line spell.
#[tactic(auto, unfolding(crate::specs::Forms::line_at))]
pub(crate) fn whole_form(alloc: Global, left: &mut Cursor<'_>) -> Result<DomainLine, Stop>
    ensures { GivesWhole result (line_at left.old) }
{
    let line = form(alloc, left)?;
    left.end()?;
    Ok(line)
}
