//! The line forms of the clients.
ghost use Rattle.std.specs.Prelude.{◌≡◌, ℕ, List, [], Some, map, codes};
ghost use Rattle.rl_text.specs.Reading.{Gives};
ghost use Rattle.rl_text.specs.Many.{all_at};
ghost use Rattle.rl_text.specs.Lexemes.{token_of};
ghost use Rattle.rl_text.specs.Whole.{GivesWhole};
ghost use Rattle.bundle_syntax.specs.ClientVerbs.{verb_text, likely_verb, verb_of};
ghost use Rattle.bundle_syntax.specs.ClientLines.{client_at, let_at, text_line_at, show_at, drop_at, kill_at, operands_at, by_word_at, word_line_at, form_at, other_line_at, several_args_at, args_at, names_at, callee_at, behind_callee_at, call_line_at, line_at};

use crate::clients::arg::OneArg;
use crate::list::{OneName, OneNumber};
use rl_defs::bundle::{ClientLine, ScriptArgText};
use rl_defs::lexeme::Mark;
use rl_defs::list::List;
use rl_defs::name::Name;
use rl_text::cursor::{Cursor, Stop};
use rl_text::list::{list, list_to_end};
use std::alloc::Global;

/// A word that a line of the clients begins with, but for `call`.
#[derive(Clone, Copy)]
pub(crate) enum Verb {
    Client,
    Let,
    Text,
    Show,
    Drop,
    Kill,
}

/// The bytes of a word.
pub(crate) fn verb_text(verb: Verb) -> &'static [u8]
    ensures { result.now ≡ verb_text verb }
{
    match verb {
        Verb::Client => b"client",
        Verb::Let => b"let",
        Verb::Text => b"text",
        Verb::Show => b"show",
        Verb::Drop => b"drop",
        Verb::Kill => b"kill",
    }
}

// The one word that bytes can be. A look at the first of them leaves one comparison.
fn likely_verb(word: &[u8]) -> Option<Verb>
    ensures { result ≡ likely_verb word.now }
{
    let [first, ..] = word else {
        return None;
    };
    match first {
        b'l' => Some(Verb::Let),
        b't' => Some(Verb::Text),
        b'c' => Some(Verb::Client),
        b's' => Some(Verb::Show),
        b'd' => Some(Verb::Drop),
        b'k' => Some(Verb::Kill),
        _ => None,
    }
}

// The word of these bytes, if it is one that a line begins with.
#[tactic(auto, unfolding(crate::specs::ClientVerbs::verb_of))]
fn verb_of(word: &[u8]) -> Option<Verb>
    ensures { result ≡ verb_of word.now }
{
    let verb = likely_verb(word)?;
    if verb_text(verb) == word {
        Some(verb)
    } else {
        None
    }
}

// `client NAME {`, behind its word.
#[tactic(auto, unfolding(crate::specs::ClientLines::client_at))]
fn client(left: &mut Cursor<'_>) -> Result<ClientLine, Stop>
    ensures { Gives (λ l. l) result left.new (client_at left.old) }
{
    let name = left.name()?;
    left.mark(Mark::OpenBrace)?;
    Ok(ClientLine::Client(name))
}

// `let NAME = new STRUCT N, ..`, behind its word.
#[tactic(auto, unfolding(crate::specs::ClientLines::let_at))]
fn new_object(alloc: Global, left: &mut Cursor<'_>) -> Result<ClientLine, Stop>
    ensures { Gives (λ l. l) result left.new (let_at left.old) }
{
    let name = left.name()?;
    left.mark(Mark::Equals)?;
    left.word(b"new")?;
    let ty = left.name()?;
    let values = list_to_end::<OneNumber>(alloc, left)?;
    Ok(ClientLine::Let { name, ty, values })
}

// The list of these bytes.
fn copied(alloc: Global, bytes: &[u8]) -> Result<List<u8>, Stop>
    ensures { Gives (λ l. l) result [] (Some (bytes.now, [])) }
{
    let all = bytes.to_vec(alloc)?;
    Ok(List::from_vec(all))
}

// `text NAME = STRUCT TEXT`, behind its word.
#[tactic(auto, unfolding(crate::specs::ClientLines::text_line_at))]
fn text(alloc: Global, left: &mut Cursor<'_>) -> Result<ClientLine, Stop>
    ensures { Gives (λ l. l) result left.new (text_line_at left.old) }
{
    let name = left.name()?;
    left.mark(Mark::Equals)?;
    let ty = left.name()?;
    let bytes = left.text()?;
    let bytes = copied(alloc, bytes)?;
    Ok(ClientLine::Text { name, ty, bytes })
}

// `show NAME`, behind its word.
#[tactic(auto, unfolding(crate::specs::ClientLines::show_at))]
fn show(left: &mut Cursor<'_>) -> Result<ClientLine, Stop>
    ensures { Gives (λ l. l) result left.new (show_at left.old) }
{
    let name = left.name()?;
    Ok(ClientLine::Show(name))
}

// `drop NAME`, behind its word.
#[tactic(auto, unfolding(crate::specs::ClientLines::drop_at))]
fn drop_object(left: &mut Cursor<'_>) -> Result<ClientLine, Stop>
    ensures { Gives (λ l. l) result left.new (drop_at left.old) }
{
    let name = left.name()?;
    Ok(ClientLine::Drop(name))
}

// `kill TARGET`, behind its word.
#[tactic(auto, unfolding(crate::specs::ClientLines::kill_at))]
fn kill(left: &mut Cursor<'_>) -> Result<ClientLine, Stop>
    ensures { Gives (λ l. l) result left.new (kill_at left.old) }
{
    let target = left.name()?;
    Ok(ClientLine::Kill(target))
}

// A line, behind the word that it begins with.
fn operands(alloc: Global, verb: Verb, left: &mut Cursor<'_>) -> Result<ClientLine, Stop>
    ensures { Gives (λ l. l) result left.new (operands_at verb left.old) }
{
    match verb {
        Verb::Client => client(left),
        Verb::Let => new_object(alloc, left),
        Verb::Text => text(alloc, left),
        Verb::Show => show(left),
        Verb::Drop => drop_object(left),
        Verb::Kill => kill(left),
    }
}

// A line that begins with this name, and is no call.
#[tactic(auto, unfolding(crate::specs::ClientLines::by_word_at))]
fn by_word(alloc: Global, name: Name, left: &mut Cursor<'_>) -> Result<ClientLine, Stop>
    ensures { Gives (λ l. l) result left.new (by_word_at name left.old) }
{
    match verb_of(name.bytes()) {
        Some(verb) => operands(alloc, verb, left),
        None => Err(Stop::NoForm),
    }
}

// A line that begins with a name, and is no call.
#[tactic(auto, unfolding(crate::specs::ClientLines::word_line_at))]
fn word_line(alloc: Global, left: &mut Cursor<'_>) -> Result<ClientLine, Stop>
    ensures { Gives (λ l. l) result left.new (word_line_at left.old) }
{
    let name = left.name()?;
    by_word(alloc, name, left)
}

// The form at the front, if it is no call.
#[tactic(auto, unfolding(crate::specs::ClientLines::form_at))]
fn form(alloc: Global, left: &mut Cursor<'_>) -> Result<ClientLine, Stop>
    ensures { Gives (λ l. l) result left.new (form_at left.old) }
{
    if left.skip_mark(Mark::CloseBrace) {
        return Ok(ClientLine::Close);
    }
    word_line(alloc, left)
}

// The form that all tokens of a line spell, if it is no call.
fn other_line(alloc: Global, left: &mut Cursor<'_>) -> Result<ClientLine, Stop>
    ensures { GivesWhole result (other_line_at left.old) }
{
    let line = form(alloc, left)?;
    left.end()?;
    Ok(line)
}

// One argument or more, and the `)`.
fn several_args(alloc: Global, left: &mut Cursor<'_>) -> Result<List<ScriptArgText>, Stop>
    ensures { Gives (λ l. l) result left.new (several_args_at left.old) }
{
    let args = list::<OneArg>(alloc, left)?;
    left.mark(Mark::CloseParen)?;
    Ok(args)
}

// The arguments of a call, behind the `(`, and the `)`.
#[tactic(auto, unfolding(crate::specs::ClientLines::args_at))]
fn args_of(alloc: Global, left: &mut Cursor<'_>) -> Result<List<ScriptArgText>, Stop>
    ensures { Gives (λ l. l) result left.new (args_at left.old) }
{
    if left.skip_mark(Mark::CloseParen) {
        return Ok(List::new(alloc));
    }
    several_args(alloc, left)
}

// The names that a call binds, with their `->`, or none.
#[tactic(auto, unfolding(crate::specs::ClientLines::names_at))]
fn names_of(alloc: Global, left: &mut Cursor<'_>) -> Result<List<Name>, Stop>
    ensures { Gives (λ l. l) result left.new (names_at left.old) }
{
    if left.skip_mark(Mark::Arrow) {
        return list::<OneName>(alloc, left);
    }
    Ok(List::new(alloc))
}

// What a call calls.
#[derive(Clone, Copy)]
pub(crate) struct Called {
    target: Name,
    method: Name,
}

// `call TARGET.METHOD(`
#[tactic(auto, unfolding(crate::specs::ClientLines::callee_at))]
fn callee(left: &mut Cursor<'_>) -> Result<Called, Stop>
    ensures { Gives (λ c. c) result left.new (callee_at left.old) }
{
    left.word(b"call")?;
    let target = left.name()?;
    left.mark(Mark::Dot)?;
    let method = left.name()?;
    left.mark(Mark::OpenParen)?;
    Ok(Called { target, method })
}

// A line that is a call, behind its `(`.
#[tactic(auto, unfolding(crate::specs::ClientLines::behind_callee_at))]
fn behind_callee(alloc: Global, callee: Called, left: &mut Cursor<'_>) -> Result<ClientLine, Stop>
    ensures { GivesWhole result (behind_callee_at callee left.old) }
{
    let args = args_of(alloc, left)?;
    let names = names_of(alloc, left)?;
    left.end()?;
    Ok(ClientLine::Call {
        target: callee.target,
        method: callee.method,
        args,
        names,
    })
}

// `call TARGET.METHOD(SARG, ..) -> NAME, ..`
#[tactic(auto, unfolding(crate::specs::ClientLines::call_line_at))]
fn call_line(alloc: Global, left: &mut Cursor<'_>) -> Result<ClientLine, Stop>
    ensures { GivesWhole result (call_line_at left.old) }
{
    let callee = callee(left)?;
    behind_callee(alloc, callee, left)
}

/// The form that all tokens of a line spell.
#[tactic(auto, unfolding(crate::specs::ClientLines::line_at))]
pub(crate) fn whole_form(alloc: Global, left: &mut Cursor<'_>) -> Result<ClientLine, Stop>
    ensures { GivesWhole result (line_at left.old) }
{
    if left.begins_word(b"call") {
        return call_line(alloc, left);
    }
    other_line(alloc, left)
}
