//! The token at the front of bytes.
ghost use Rattle.std.specs.Prelude.{◌≡◌, ℕ, ◌+◌, ◌-◌, ◌<◌, ◌≤◌, ◌∷◌, List, length, take, drop, Option, None, Some, IfSome, IsTrue, option_map};
ghost use Rattle.std.specs.List.{prefix_len, list_all};
ghost use Rattle.rl_defs.specs.Tokens as bytes;
ghost use Rattle.rl_defs.specs.Words as words;
ghost use Rattle.rl_text.specs.Scan.{blanks, is_end, number_at, key_of, likely_width, likely_key, word_of, run_of, sign_of, quoted, mark_at, run_at, token_at};
ghost use Rattle.rl_text.specs.Lexemes.{token_of, GivesToken, Scans};
ghost use Rattle.rl_text.specs.Steps.{Steps};
ghost use Rattle.rl_text.specs.Places.{text_of};

use crate::lexeme::Lexeme;
use crate::number::number_of;
use rl_defs::lexeme::{Key, Mark};
use rl_defs::name::Name;

/// The bytes of a reserved word.
pub fn key_text(key: Key) -> &'static [u8]
    ensures { result.now ≡ bytes.key_text key }
{
    match key {
        Key::Pub => b"pub",
        Key::Struct => b"struct",
        Key::Trait => b"trait",
        Key::Fn => b"fn",
        Key::SelfWord => b"self",
        Key::RRef => b"RRef",
        Key::RpcResult => b"RpcResult",
        Key::Dyn => b"dyn",
        Key::Mut => b"mut",
        Key::Const => b"const",
        Key::Box => b"Box",
        Key::Vec => b"Vec",
        Key::String => b"String",
        Key::Bool => b"bool",
        Key::U8 => b"u8",
        Key::U16 => b"u16",
        Key::U32 => b"u32",
        Key::U64 => b"u64",
        Key::Num => b"num",
    }
}

/// The bytes of a mark.
pub fn mark_text(mark: Mark) -> &'static [u8]
    ensures { result.now ≡ bytes.mark_text mark }
{
    match mark {
        Mark::OpenBrace => b"{",
        Mark::CloseBrace => b"}",
        Mark::OpenParen => b"(",
        Mark::CloseParen => b")",
        Mark::OpenBracket => b"[",
        Mark::CloseBracket => b"]",
        Mark::Less => b"<",
        Mark::Greater => b">",
        Mark::Colon => b":",
        Mark::Semicolon => b";",
        Mark::Comma => b",",
        Mark::Equals => b"=",
        Mark::Dot => b".",
        Mark::Ampersand => b"&",
        Mark::Star => b"*",
        Mark::At => b"@",
        Mark::Hash => b"#",
        Mark::Arrow => b"->",
    }
}

fn is_blank(byte: u8) -> bool
    ensures { result ≡ bytes.is_blank byte }
{
    byte == b' ' || byte == b'\t'
}

fn is_word_byte(byte: u8) -> bool
    ensures { result ≡ words.is_word_byte byte }
{
    byte.is_ascii_alphabetic() || byte == b'_' || byte.is_ascii_digit()
}

fn is_text_byte(byte: u8) -> bool
    ensures { result ≡ bytes.is_text_byte byte }
{
    byte >= 0x20 && byte <= 0x7e && byte != b'"'
}

fn is_line_byte(byte: u8) -> bool
    ensures { result ≡ bytes.is_line_byte byte }
{
    (byte >= 0x20 && byte <= 0x7e) || byte == b'\t'
}

// How many bytes that may stand in a line come first.
fn line_len(line: &[u8]) -> usize
    ensures { result ≡ prefix_len bytes.is_line_byte line.now }
{
    line.iter().take_while(|byte| is_line_byte(**byte)).count()
}

pub(crate) fn are_line_bytes(line: &[u8]) -> bool
    ensures { result ≡ list_all bytes.is_line_byte line.now }
{
    line_len(line) == line.len()
}

pub(crate) fn blanks(rest: &[u8]) -> usize
    ensures count { result ≡ blanks rest.now }
    ensures within { result ≤ length rest.now }
{
    rest.iter().take_while(|byte| is_blank(**byte)).count()
}

pub(crate) fn is_end(rest: &[u8]) -> bool
    ensures { result ≡ is_end rest.now }
{
    rest.is_empty() || rest.starts_with(b"//")
}

fn word_len(rest: &[u8]) -> usize
    ensures length { result ≡ prefix_len words.is_word_byte rest.now }
    ensures within { result ≤ length rest.now }
{
    rest.iter().take_while(|byte| is_word_byte(**byte)).count()
}

fn text_len(rest: &[u8]) -> usize
    ensures length { result ≡ prefix_len bytes.is_text_byte rest.now }
    ensures within { result ≤ length rest.now }
{
    rest.iter().take_while(|byte| is_text_byte(**byte)).count()
}

// The one word of a number type that a run can be, by what stands behind its `u`.
fn likely_width(behind: &[u8]) -> Option<Key>
    ensures { result ≡ likely_width behind.now }
{
    let [second, ..] = behind else {
        return None;
    };
    match second {
        b'8' => Some(Key::U8),
        b'1' => Some(Key::U16),
        b'3' => Some(Key::U32),
        b'6' => Some(Key::U64),
        _ => None,
    }
}

// The one reserved word that a run can be. One look at its front and its length leaves one
// comparison, where a table leaves 19.
fn likely_key(run: &[u8]) -> Option<Key>
    ensures { result ≡ likely_key run.now }
{
    let [first, behind @ ..] = run else {
        return None;
    };
    match first {
        b'p' => Some(Key::Pub),
        b's' if behind.len() == 3 => Some(Key::SelfWord),
        b's' => Some(Key::Struct),
        b't' => Some(Key::Trait),
        b'f' => Some(Key::Fn),
        b'R' if behind.len() == 3 => Some(Key::RRef),
        b'R' => Some(Key::RpcResult),
        b'd' => Some(Key::Dyn),
        b'm' => Some(Key::Mut),
        b'c' => Some(Key::Const),
        b'B' => Some(Key::Box),
        b'V' => Some(Key::Vec),
        b'S' => Some(Key::String),
        b'b' => Some(Key::Bool),
        b'u' => likely_width(behind),
        b'n' => Some(Key::Num),
        _ => None,
    }
}

// The reserved word of these bytes.
fn key_of(run: &[u8]) -> Option<Key>
    ensures { result ≡ key_of run.now }
{
    let key = likely_key(run)?;
    if key_text(key) == run {
        Some(key)
    } else {
        None
    }
}

// The number that a run stands for.
#[tactic(auto, unfolding(crate::specs::Scan::number_at))]
fn number_at(run: &[u8]) -> Option<u64>
    ensures { result ≡ number_at run.now }
{
    if run.starts_with(b"0x") {
        let (_, digits) = run.split_at(2);
        return number_of(digits, 16);
    }
    number_of(run, 10)
}

// The word of a run that begins with no digit.
#[tactic(auto, unfolding(crate::specs::Scan::word_of))]
fn word_of(run: &[u8]) -> Option<Lexeme>
    requires begins { IsTrue (words.starts_word run.now) }
    requires inside { IsTrue (list_all words.is_word_byte run.now) }
    ensures { GivesToken result (word_of run.now) }
{
    if let Some(key) = key_of(run) {
        return Some(Lexeme::Key(key));
    }
    let name = Name::of_run(run)?;
    Some(Lexeme::Word(name))
}

// What a run of letters, digits and `_` is.
fn run_of(run: &[u8]) -> Option<Lexeme>
    requires inside { IsTrue (list_all words.is_word_byte run.now) }
    ensures { GivesToken result (run_of run.now) }
{
    let [first, ..] = run else {
        return None;
    };
    if first.is_ascii_digit() {
        let number = number_at(run)?;
        return Some(Lexeme::Number(number));
    }
    word_of(run)
}

// The mark of one byte.
fn sign_of(first: u8) -> Option<Mark>
    ensures { result ≡ sign_of first }
{
    match first {
        b'{' => Some(Mark::OpenBrace),
        b'}' => Some(Mark::CloseBrace),
        b'(' => Some(Mark::OpenParen),
        b')' => Some(Mark::CloseParen),
        b'[' => Some(Mark::OpenBracket),
        b']' => Some(Mark::CloseBracket),
        b'<' => Some(Mark::Less),
        b'>' => Some(Mark::Greater),
        b':' => Some(Mark::Colon),
        b';' => Some(Mark::Semicolon),
        b',' => Some(Mark::Comma),
        b'=' => Some(Mark::Equals),
        b'.' => Some(Mark::Dot),
        b'&' => Some(Mark::Ampersand),
        b'*' => Some(Mark::Star),
        b'@' => Some(Mark::At),
        b'#' => Some(Mark::Hash),
        _ => None,
    }
}

// How many bytes a text has whose first quote stands before these bytes.
fn quoted(rest: &[u8]) -> Option<usize>
    ensures value { result ≡ quoted rest.now }
    ensures within { IfSome result (λ n. n < length rest.now) }
{
    let count = text_len(rest);
    let (_, after) = rest.split_at(count);
    if after.starts_with(b"\"") {
        Some(count)
    } else {
        None
    }
}

/// A lexeme at the front of bytes, and how many of them it takes.
#[derive(Clone, Copy, Debug)]
pub(crate) struct Front {
    lexeme: Lexeme,
    count: usize,
}

// A mark at the front.
fn mark_at(rest: &[u8], first: u8) -> Option<Front>
    ensures { (line : List ℕ) → Scans line result (mark_at rest.now first) }
{
    if rest.starts_with(b"->") {
        return Some(Front {
            lexeme: Lexeme::Mark(Mark::Arrow),
            count: 2,
        });
    }
    let mark = sign_of(first)?;
    Some(Front {
        lexeme: Lexeme::Mark(mark),
        count: 1,
    })
}

// The run at the front.
fn run_at(rest: &[u8]) -> Option<Front>
    ensures { (line : List ℕ) → Scans line result (run_at rest.now) }
{
    let count = word_len(rest);
    let (run, _) = rest.split_at(count);
    let lexeme = run_of(run)?;
    Some(Front { lexeme, count })
}

// The token of a line at a place.
fn front_at(line: &[u8], at: usize) -> Option<Front>
    requires inside { at ≤ length line.now }
    requires short { length line.now ≤ 2048 }
    ensures value { Scans line.now result (token_at (drop at line.now)) }
    ensures within { IfSome result (λ f. (0 < f.count) × (at + f.count ≤ length line.now)) }
{
    let (_, rest) = line.split_at(at);
    let [first, behind @ ..] = rest else {
        return None;
    };
    if is_word_byte(*first) {
        return run_at(rest);
    }
    if *first != b'"' {
        return mark_at(rest, *first);
    }
    let count = quoted(behind)?;
    Some(Front {
        lexeme: Lexeme::Text {
            start: (at + 1) as u32,
            end: (at + 1 + count) as u32,
        },
        count: count + 2,
    })
}

/// A lexeme of a line, and the places of its first byte and behind its last.
#[derive(Clone, Copy, Debug)]
pub struct Scanned {
    pub lexeme: Lexeme,
    pub start: usize,
    pub stop: usize,
}

/// What stands at a place of a line.
#[derive(Clone, Copy, Debug)]
pub enum Next {
    /// Nothing, but blanks and maybe a comment.
    End,
    /// Bytes that are no token.
    Stray,
    Found(Scanned),
}

/// What stands at a place of a line, behind blanks.
pub fn next_token(line: &[u8], at: usize) -> Next
    requires inside { at ≤ length line.now }
    requires short { length line.now ≤ 2048 }
    ensures { Steps line.now at result }
{
    let (_, rest) = line.split_at(at);
    let start = at + blanks(rest);
    let (_, body) = line.split_at(start);
    if is_end(body) {
        return Next::End;
    }
    let Some(front) = front_at(line, start) else {
        return Next::Stray;
    };
    Next::Found(Scanned {
        lexeme: front.lexeme,
        start,
        stop: start + front.count,
    })
}
