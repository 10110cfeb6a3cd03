//! The line forms of the plan.
ghost use Rattle.std.specs.Prelude.{◌≡◌, ℕ, List, codes};
ghost use Rattle.rl_text.specs.Reading.{Gives};
ghost use Rattle.rl_text.specs.Whole.{GivesWhole};
ghost use Rattle.bundle_syntax.specs.PlanVerbs.{verb_text, likely_verb, verb_of};
ghost use Rattle.bundle_syntax.specs.PlanLines.{load_at, bind_at, shadow_at, device_at, serial_at, fuel_at, order_at, operands_at, by_word_at, form_at, line_at};

use crate::list::OneName;
use rl_defs::bundle::PlanLine;
use rl_defs::lexeme::Mark;
use rl_defs::name::Name;
use rl_text::cursor::{Cursor, Stop};
use rl_text::list::list;
use std::alloc::Global;

/// A word that a line of the plan begins with.
#[derive(Clone, Copy)]
pub(crate) enum Verb {
    Load,
    Bind,
    Shadow,
    Device,
    Serial,
    Fuel,
    Order,
}

/// The bytes of a word.
pub(crate) fn verb_text(verb: Verb) -> &'static [u8]
    ensures { result.now ≡ verb_text verb }
{
    match verb {
        Verb::Load => b"load",
        Verb::Bind => b"bind",
        Verb::Shadow => b"shadow",
        Verb::Device => b"device",
        Verb::Serial => b"serial",
        Verb::Fuel => b"fuel",
        Verb::Order => b"order",
    }
}

// The one word that bytes can be. A look at two of them leaves one comparison.
fn likely_verb(word: &[u8]) -> Option<Verb>
    ensures { result ≡ likely_verb word.now }
{
    let [first, second, ..] = word else {
        return None;
    };
    match first {
        b'l' => Some(Verb::Load),
        b'b' => Some(Verb::Bind),
        b's' if *second == b'h' => Some(Verb::Shadow),
        b's' => Some(Verb::Serial),
        b'd' => Some(Verb::Device),
        b'f' => Some(Verb::Fuel),
        b'o' => Some(Verb::Order),
        _ => None,
    }
}

// The word of these bytes, if it is one that a line begins with.
#[tactic(auto, unfolding(crate::specs::PlanVerbs::verb_of))]
fn verb_of(word: &[u8]) -> Option<Verb>
    ensures { result ≡ verb_of word.now }
{
    let verb = likely_verb(word)?;
    if verb_text(verb) == word {
        Some(verb)
    } else {
        None
    }
}

// `load NAME = DOMAIN`, behind its word.
#[tactic(auto, unfolding(crate::specs::PlanLines::load_at))]
fn load(left: &mut Cursor<'_>) -> Result<PlanLine, Stop>
    ensures { Gives (λ l. l) result left.new (load_at left.old) }
{
    let name = left.name()?;
    left.mark(Mark::Equals)?;
    let domain = left.name()?;
    Ok(PlanLine::Load { name, domain })
}

// `bind LOAD.IMPORT = TARGET`, behind its word.
#[tactic(auto, unfolding(crate::specs::PlanLines::bind_at))]
fn bind(left: &mut Cursor<'_>) -> Result<PlanLine, Stop>
    ensures { Gives (λ l. l) result left.new (bind_at left.old) }
{
    let load = left.name()?;
    left.mark(Mark::Dot)?;
    let import = left.name()?;
    left.mark(Mark::Equals)?;
    let target = left.name()?;
    Ok(PlanLine::Bind {
        load,
        import,
        target,
    })
}

// `shadow NAME = LOAD restarts N`, behind its word.
#[tactic(auto, unfolding(crate::specs::PlanLines::shadow_at))]
fn shadow(left: &mut Cursor<'_>) -> Result<PlanLine, Stop>
    ensures { Gives (λ l. l) result left.new (shadow_at left.old) }
{
    let name = left.name()?;
    left.mark(Mark::Equals)?;
    let load = left.name()?;
    left.word(b"restarts")?;
    let restarts = left.number()?;
    Ok(PlanLine::Shadow {
        name,
        load,
        restarts,
    })
}

// `device LOAD N`, behind its word.
#[tactic(auto, unfolding(crate::specs::PlanLines::device_at))]
fn device(left: &mut Cursor<'_>) -> Result<PlanLine, Stop>
    ensures { Gives (λ l. l) result left.new (device_at left.old) }
{
    let load = left.name()?;
    let blocks = left.number()?;
    Ok(PlanLine::Device { load, blocks })
}

// `serial LOAD`, behind its word.
#[tactic(auto, unfolding(crate::specs::PlanLines::serial_at))]
fn serial(left: &mut Cursor<'_>) -> Result<PlanLine, Stop>
    ensures { Gives (λ l. l) result left.new (serial_at left.old) }
{
    let load = left.name()?;
    Ok(PlanLine::Serial(load))
}

// `fuel N`, behind its word.
#[tactic(auto, unfolding(crate::specs::PlanLines::fuel_at))]
fn fuel(left: &mut Cursor<'_>) -> Result<PlanLine, Stop>
    ensures { Gives (λ l. l) result left.new (fuel_at left.old) }
{
    let count = left.number()?;
    Ok(PlanLine::Fuel(count))
}

// `order CLIENT, CLIENT, ..`, behind its word.
#[tactic(auto, unfolding(crate::specs::PlanLines::order_at))]
fn order(alloc: Global, left: &mut Cursor<'_>) -> Result<PlanLine, Stop>
    ensures { Gives (λ l. l) result left.new (order_at left.old) }
{
    let clients = list::<OneName>(alloc, left)?;
    Ok(PlanLine::Order(clients))
}

// A line, behind the word that it begins with.
fn operands(alloc: Global, verb: Verb, left: &mut Cursor<'_>) -> Result<PlanLine, Stop>
    ensures { Gives (λ l. l) result left.new (operands_at verb left.old) }
{
    match verb {
        Verb::Load => load(left),
        Verb::Bind => bind(left),
        Verb::Shadow => shadow(left),
        Verb::Device => device(left),
        Verb::Serial => serial(left),
        Verb::Fuel => fuel(left),
        Verb::Order => order(alloc, left),
    }
}

// A line that begins with this name.
#[tactic(auto, unfolding(crate::specs::PlanLines::by_word_at))]
fn by_word(alloc: Global, name: Name, left: &mut Cursor<'_>) -> Result<PlanLine, Stop>
    ensures { Gives (λ l. l) result left.new (by_word_at name left.old) }
{
    match verb_of(name.bytes()) {
        Some(verb) => operands(alloc, verb, left),
        None => Err(Stop::NoForm),
    }
}

// The form at the front.
#[tactic(auto, unfolding(crate::specs::PlanLines::form_at))]
fn form(alloc: Global, left: &mut Cursor<'_>) -> Result<PlanLine, Stop>
    ensures { Gives (λ l. l) result left.new (form_at left.old) }
{
    let name = left.name()?;
    by_word(alloc, name, left)
}

/// The form that all tokens of a line spell.
#[tactic(auto, unfolding(crate::specs::PlanLines::line_at))]
pub(crate) fn whole_form(alloc: Global, left: &mut Cursor<'_>) -> Result<PlanLine, Stop>
    ensures { GivesWhole result (line_at left.old) }
{
    let line = form(alloc, left)?;
    left.end()?;
    Ok(line)
}
