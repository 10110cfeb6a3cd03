//! The entry that a line is.
ghost use Rattle.std.specs.Prelude.{◌≡◌, ◌≢◌, List, ℕ, [], ◌∷◌, ◌++◌, IfOk, MatchOption};
ghost use Rattle.machine_defs.specs.declared.entry.Entry.{Entry as AnEntry};
ghost use Rattle.machine_defs.specs.Texts as text;
ghost use Rattle.machine_defs.specs.EntryTexts.{HasWords};
ghost use Rattle.history_text.specs.Held.{IsLoggable};
ghost use Rattle.history_text.specs.Acts as acts;
ghost use Rattle.history_text.specs.Reading.{words_of};

use crate::acts::read_act;
use crate::fields::{read_client, read_object};
use crate::spellings::Spellings;
use crate::verb::read_verb;
use crate::words::Words;
use machine_defs::entry::Entry;
use std::alloc::{AllocError, Global};

/// The entry that a line is, its line feed too. None exactly where the line is the text of no entry
/// that the type `Entry` holds and whose targets, methods and structs are rows of the load.
pub fn read_entry(
    alloc: Global,
    spellings: &Spellings,
    line: &[u8],
) -> Result<Option<Entry>, AllocError>
    requires { HasWords spellings.now }
    ensures { IfOk result (λ read. MatchOption read ((e : AnEntry) → IsLoggable spellings.now e
        → line.now ≢ text.entry_text spellings.now e)
        (λ e. (line.now ≡ text.entry_text spellings.now e) × IsLoggable spellings.now e)) }
{
    let Some(text) = before_line_feed(line) else {
        return Ok(None);
    };
    let _ = spellings.rows();
    let read = read_words(alloc, spellings, Words::new(text))?;
    Ok(read)
}

// What stands before the line feed at the end.
fn before_line_feed(line: &[u8]) -> Option<&[u8]>
    ensures { MatchOption result ((text : List ℕ) → line.now ≢ text ++ 10 ∷ [])
        (λ text. line.now ≡ text.now ++ 10 ∷ []) }
{
    match line {
        [text @ .., b'\n'] => Some(text),
        _ => None,
    }
}

// The entry that words say.
fn read_words(
    alloc: Global,
    spellings: &Spellings,
    mut words: Words<'_>,
) -> Result<Option<Entry>, AllocError>
    ensures { IfOk result (λ read. read ≡ acts.entry_in spellings.now words.entry) }
{
    let subject = words.next();
    if b"free".as_slice() == subject {
        return Ok(read_free(words));
    }
    let Some(thread) = read_client(subject) else {
        return Ok(None);
    };
    match read_verb(words.next()) {
        Some(verb) => read_act(alloc, spellings, verb, thread, words),
        None => Ok(None),
    }
}

// The object that is freed.
fn read_free(mut words: Words<'_>) -> Option<Entry>
    ensures { result ≡ acts.free_in words.entry }
{
    let object = read_object(words.next())?;
    if words.is_empty() {
        Some(Entry::Free(object))
    } else {
        None
    }
}
