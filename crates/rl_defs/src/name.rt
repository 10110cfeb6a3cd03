//! Words that may name something.
ghost use Rattle.std.specs.Prelude.{◌≡◌, List, ℕ, ◌≤◌, ◌<◌, ◌==◌, length, IfSome, IfOk, IsSome, ◌↔◌, take, IsTrue, ◌&&◌, not};
ghost use Rattle.std.specs.List.{list_all, list_any};
ghost use Rattle.std.specs.Cmp.Lexicographic.{pointwise};
ghost use Rattle.rl_defs.specs.Words.{is_word, starts_word, is_word_byte, same_bytes, is_reserved, is_name};

use std::hash::{Hash, Hasher};
use std::marker::Model;

/// The most bytes that a word may have.
pub const LONGEST_WORD: usize = 24;

/// The words that name nothing, since a line form uses them.
pub const RESERVED: [&[u8]; 19] = [
    b"pub",
    b"struct",
    b"trait",
    b"fn",
    b"self",
    b"RRef",
    b"RpcResult",
    b"dyn",
    b"mut",
    b"const",
    b"Box",
    b"Vec",
    b"String",
    b"bool",
    b"u8",
    b"u16",
    b"u32",
    b"u64",
    b"num",
];

/// A word that isn't reserved: a letter or `_`, then letters, digits and `_`, 1 to 24 bytes in all.
#[derive(Clone, Copy, Debug)]
pub struct Name {
    bytes: [u8; 24],
    len: usize,
}

impl Model for Name {
    ghost use Rattle.std.specs.Prelude.{List, ℕ, take, length};
    ghost use Rattle.rl_defs.specs.Padded.{Padded, padded, KeepsName};

    ghost Value = { List ℕ };

    ghost use Rattle.rl_defs.specs.NameBack.{inside-back};

    ghost view = { λ n. take n.len n.bytes };

    ghost invariant = { λ n. KeepsName n.bytes n.len };

    ghost inverse = { λ xs. record { bytes = padded xs; len = length xs } };

    ghost inverse_ok = { λ a h. inside-back a h.padded };
}

impl Name {
    /// The name that these bytes are, where they are one.
    pub fn read(bytes: &[u8]) -> Option<Name>
        ensures exact { IsSome result ↔ IsTrue (is_name bytes.now) }
        ensures value { IfSome result (λ n. n ≡ bytes.now) }
    {
        if is_reserved(bytes) {
            return None;
        }
        Name::unreserved(bytes)
    }

    /// The name that bytes are which are no reserved word, where they are one.
    pub fn unreserved(bytes: &[u8]) -> Option<Name>
        requires { IsTrue (not (is_reserved bytes.now)) }
        ensures exact { IsSome result ↔ IsTrue (is_name bytes.now) }
        ensures value { IfSome result (λ n. n ≡ bytes.now) }
    {
        if !starts_word(bytes) || !are_word_bytes(bytes) {
            return None;
        }
        Name::of_run(bytes)
    }

    /// The name that letters, digits and `_` are which begin with no digit and are no reserved
    /// word, where they are short enough. They aren't gone over again.
    pub fn of_run(run: &[u8]) -> Option<Name>
        requires begins { IsTrue (starts_word run.now) }
        requires inside { IsTrue (list_all is_word_byte run.now) }
        requires free { IsTrue (not (is_reserved run.now)) }
        ensures exact { IsSome result ↔ IsTrue (is_name run.now) }
        ensures value { IfSome result (λ n. n ≡ run.now) }
    {
        if run.len() > LONGEST_WORD {
            return None;
        }
        let mut all = [0; 24];
        all[..run.len()].copy_from_slice(run);
        Some(Name {
            bytes: all,
            len: run.len(),
        })
    }

    /// The bytes of the name.
    pub fn bytes(&self) -> &[u8]
        ensures value { result.now ≡ self.now }
        ensures name { IsTrue (is_name self.now) }
    {
        &self.bytes[..self.len]
    }
}

/// Whether the bytes are a word: a letter or `_`, then letters, digits and `_`, 1 to 24 bytes in
/// all.
pub fn is_word(bytes: &[u8]) -> bool
    ensures { result ≡ is_word bytes.now }
{
    starts_word(bytes) && bytes.len() <= LONGEST_WORD && are_word_bytes(bytes)
}

/// Whether the word is one of those that name nothing.
pub fn is_reserved(bytes: &[u8]) -> bool
    ensures { result ≡ is_reserved bytes.now }
{
    is_one_of(bytes, &RESERVED)
}

impl PartialEq for Name {
    ghost use Rattle.std.specs.Prelude.{◌==◌};
    ghost use Rattle.std.specs.Cmp.Lexicographic.{pointwise};
    ghost use Rattle.std.proofs.Common.{rules};

    ghost eq = { λ x y. pointwise ◌==◌ x y };

    ghost laws = { Prim.search rules };

    fn eq(&self, other: &Self) -> bool {
        self.bytes() == other.bytes()
    }
}

impl Eq for Name {
    ghost use Rattle.std.proofs.Common.{rules};

    ghost laws = { Prim.search rules };
}

impl Hash for Name {
    ghost use Rattle.std.proofs.Common.{rules};
    ghost use Rattle.std.specs.Hash as fed;
    ghost use Rattle.std.specs.Cmp.Rules.{comparing, hashing};

    ghost hash_input = { λ n. fed.slice fed.u8 n };

    ghost respects_eq = { Prim.search (hashing, rules) };

    fn hash<H: Hasher>(&self, state: &mut H) {
        self.bytes().hash(state);
    }
}

// A letter, a digit or `_`.
fn is_word_byte(byte: u8) -> bool
    ensures { result ≡ is_word_byte byte }
{
    byte == b'_' || byte.is_ascii_alphanumeric()
}

// Whether the first byte is there and is no digit.
fn starts_word(bytes: &[u8]) -> bool
    ensures { result ≡ starts_word bytes.now }
{
    match bytes {
        [] => false,
        [first, ..] => !first.is_ascii_digit(),
    }
}

fn are_word_bytes(bytes: &[u8]) -> bool
    ensures { result ≡ list_all is_word_byte bytes.now }
{
    bytes.iter().all(|byte| is_word_byte(*byte))
}

fn is_one_of(bytes: &[u8], words: &[&[u8]]) -> bool
    ensures { result ≡ list_any (λ word. same_bytes word.now bytes.now) words.now }
{
    words.iter().any(|word| same_bytes(word, bytes))
}

fn same_bytes(left: &[u8], right: &[u8]) -> bool
    ensures { result ≡ same_bytes left.now right.now }
{
    left == right
}
