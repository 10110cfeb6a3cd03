//! The fields of an entry by their words.
ghost use Rattle.std.specs.Prelude.{◌≡◌};
ghost use Rattle.std.specs.Option.{option_copied};
ghost use Rattle.rl_defs.specs.Words.{same_bytes};
ghost use Rattle.machine_defs.specs.Texts.{code_text, cause_text};
ghost use Rattle.history_text.specs.Reading as reading;

use crate::heads::{cause_word, code_word};
use crate::names::read_target;
use crate::numbers::{read_32, read_64};
use crate::spellings::Spellings;
use crate::words::cut;
use machine_defs::values::{Cause, Owner, RpcCode};

// What follows this byte.
fn behind(word: &[u8], byte: u8) -> Option<&[u8]>
    ensures { option_copied result ≡ reading.behind byte word.now }
{
    match word {
        [first, rest @ ..] if *first == byte => Some(rest),
        _ => None,
    }
}

/// The number of an object.
#[tactic(auto, unfolding(crate::specs::Reading::object_in))]
pub(crate) fn read_object(word: &[u8]) -> Option<u64>
    ensures { result ≡ reading.object_in word.now }
{
    match behind(word, b'o') {
        Some(digits) => read_64(digits),
        None => None,
    }
}

/// The number of an instance.
#[tactic(auto, unfolding(crate::specs::Reading::instance_in))]
pub(crate) fn read_instance(word: &[u8]) -> Option<u32>
    ensures { result ≡ reading.instance_in word.now }
{
    match behind(word, b'i') {
        Some(digits) => read_32(digits),
        None => None,
    }
}

/// The number of a client.
#[tactic(auto, unfolding(crate::specs::Reading::client_in))]
pub(crate) fn read_client(word: &[u8]) -> Option<u32>
    ensures { result ≡ reading.client_in word.now }
{
    match behind(word, b'c') {
        Some(digits) => read_32(digits),
        None => None,
    }
}

/// An owner.
#[tactic(auto, unfolding(crate::specs::Reading::owner_in))]
pub(crate) fn read_owner(word: &[u8]) -> Option<Owner>
    ensures { result ≡ reading.owner_in word.now }
{
    match word {
        [b'c', digits @ ..] => Some(Owner::Client(read_32(digits)?)),
        [b'i', digits @ ..] => Some(Owner::Instance(read_32(digits)?)),
        _ => None,
    }
}

/// A target and the instance that a call enters, with a `/` between them.
#[tactic(auto, using(crate::proofs::WordLaws::not_entered), unfolding(crate::specs::Reading::entered_in))]
pub(crate) fn read_entered(spellings: &Spellings, word: &[u8]) -> Option<(u32, u32)>
    ensures { result ≡ reading.entered_in spellings.now word.now }
{
    match cut(word, b'/') {
        Some((target, instance)) => {
            let target = read_target(spellings, target)?;
            let instance = read_instance(instance)?;
            Some((target, instance))
        }
        None => None,
    }
}

fn is_code(code: RpcCode, word: &[u8]) -> bool
    ensures { result ≡ same_bytes (code_text code) word.now }
{
    code_word(code) == word
}

/// The error of a call that a word says.
#[tactic(auto, unfolding(crate::specs::Reading::code_in))]
pub(crate) fn read_code(word: &[u8]) -> Option<RpcCode>
    ensures { result ≡ reading.code_in word.now }
{
    CODES.iter().copied().find(|code| is_code(*code, word))
}

fn is_cause(cause: Cause, word: &[u8]) -> bool
    ensures { result ≡ same_bytes (cause_text cause) word.now }
{
    cause_word(cause) == word
}

/// The cause of a trap that a word says.
#[tactic(auto, unfolding(crate::specs::Reading::cause_in))]
pub(crate) fn read_cause(word: &[u8]) -> Option<Cause>
    ensures { result ≡ reading.cause_in word.now }
{
    CAUSES.iter().copied().find(|cause| is_cause(*cause, word))
}

const CODES: [RpcCode; 4] = [
    RpcCode::Gone,
    RpcCode::Unwound,
    RpcCode::Deep,
    RpcCode::Order,
];

const CAUSES: [Cause; 10] = [
    Cause::Divide,
    Cause::Bounds,
    Cause::Range,
    Cause::Empty,
    Cause::Full,
    Cause::Device,
    Cause::HeapFull,
    Cause::Fuel,
    Cause::Asked,
    Cause::Io,
];
