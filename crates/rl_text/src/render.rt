//! The canonical spelling of a line's tokens.
ghost use Rattle.std.specs.Prelude.{◌≡◌, ℕ, ◌+◌, ◌*◌, ◌<◌, List, [], ◌∷◌, ◌++◌, OnOk, IsTrue, OnErr, replicate, map};
ghost use Rattle.std.specs.Fmt.{decimal};
ghost use Rattle.rl_text.specs.Canonical.{token_text, opens, closes, is_word_token, is_parenthesis, has_gap, gap, render_behind, render, render_line};
ghost use Rattle.rl_defs.specs.Tokens as t;
ghost use Rattle.rl_text.specs.Pieces.{piece_token};
ghost use Rattle.rl_defs.specs.Words.{is_name};

use crate::scan::{key_text, mark_text};
use rl_defs::lexeme::{Key, Mark};
use rl_defs::name::Name;
use std::alloc::{AllocError, Global};
use std::marker::Model;

// A token that is to be written.
#[derive(Clone, Copy, Debug)]
pub(crate) enum Piece<'a> {
    Word(Name),
    Key(Key),
    Number(u64),
    // The bytes between the quotes.
    Text(&'a [u8]),
    Mark(Mark),
}

/// The tokens of a line that is to be written. Contracts see the list of them.
#[derive(Drop)]
pub struct Spelling<'a> {
    pieces: Vec<Piece<'a>>,
}

impl<'a> Model for Spelling<'a> {
    ghost use Rattle.std.specs.Prelude.{List, map};
    ghost use Rattle.rl_defs.specs.Tokens.{Token};

    ghost Value = { List Token };

    ghost use Rattle.rl_text.specs.Pieces.{piece_token};

    ghost view = { λ s. map piece_token s.pieces.items };
}

impl<'a> Spelling<'a> {
    /// No tokens yet.
    pub fn new(alloc: Global) -> Spelling<'a>
        ensures { result ≡ [] }
    {
        Spelling {
            pieces: Vec::new(alloc),
        }
    }

    /// Takes all tokens away.
    pub fn clear(&mut self)
        ensures { self.new ≡ [] }
    {
        self.pieces.clear();
    }

    /// Puts a word that isn't reserved last.
    pub fn name(&mut self, name: Name) -> Result<(), AllocError>
        ensures { OnOk result (self.new ≡ self.old ++ t.Name name ∷ []) }
    {
        push(&mut self.pieces, Piece::Word(name))
    }

    /// Puts a word that isn't reserved last, by its bytes.
    pub fn word(&mut self, word: &[u8]) -> Result<(), AllocError>
        requires { IsTrue (is_name word.now) }
        ensures { OnOk result (self.new ≡ self.old ++ t.Name word.now ∷ []) }
    {
        match Name::read(word) {
            Some(name) => self.name(name),
            None => unreachable!(),
        }
    }

    /// Puts a reserved word last.
    pub fn key(&mut self, key: Key) -> Result<(), AllocError>
        ensures { OnOk result (self.new ≡ self.old ++ t.Reserved key ∷ []) }
    {
        push(&mut self.pieces, Piece::Key(key))
    }

    /// Puts a number last.
    pub fn number(&mut self, n: u64) -> Result<(), AllocError>
        ensures { OnOk result (self.new ≡ self.old ++ t.Number n ∷ []) }
    {
        push(&mut self.pieces, Piece::Number(n))
    }

    /// Puts a text last: the bytes between its quotes.
    pub fn text(&mut self, inner: &'a [u8]) -> Result<(), AllocError>
        ensures { OnOk result (self.new ≡ self.old ++ t.Text inner.now ∷ []) }
    {
        push(&mut self.pieces, Piece::Text(inner))
    }

    /// Puts a mark last.
    pub fn mark(&mut self, mark: Mark) -> Result<(), AllocError>
        ensures { OnOk result (self.new ≡ self.old ++ t.Sign mark ∷ []) }
    {
        push(&mut self.pieces, Piece::Mark(mark))
    }

    /// Puts the bytes of the tokens behind those of `out`. After `AllocError` some of them may
    /// stand there.
    pub fn write(&self, alloc: Global, out: &mut Vec<u8>) -> Result<(), AllocError>
        ensures { OnOk result (out.new.items ≡ out.old.items ++ render self.now) }
    {
        put_tokens(alloc, out, &self.pieces)
    }

    /// Puts a whole line behind the bytes of `out`: four blanks for each open block, the tokens and
    /// a line feed. After `AllocError` some of it may stand there.
    #[tactic(auto, unfolding(crate::specs::Canonical::render_line))]
    pub fn write_line(&self, alloc: Global, depth: u32, out: &mut Vec<u8>) -> Result<(), AllocError>
        ensures { OnOk result (out.new.items ≡ out.old.items ++ render_line depth self.now) }
    {
        put_blanks(out, u64::from(depth) * 4)?;
        self.write(alloc, out)?;
        put(out, b"\n")
    }
}

fn push<T: Drop>(all: &mut Vec<T>, item: T) -> Result<(), AllocError>
    ensures { OnOk result (all.new.items ≡ all.old.items ++ item ∷ []) }
{
    all.push(item)?;
    Ok(())
}

fn put(out: &mut Vec<u8>, bytes: &[u8]) -> Result<(), AllocError>
    ensures { OnOk result (out.new.items ≡ out.old.items ++ bytes.now) }
{
    out.extend_from_slice(bytes)
}

fn put_blanks(out: &mut Vec<u8>, count: u64) -> Result<(), AllocError>
    ensures { OnOk result (out.new.items ≡ out.old.items ++ replicate count 32) }
{
    'blanks: for _ in 0..count {
        put(out, b" ")?;
    }
    Ok(())
}

fn put_number(alloc: Global, out: &mut Vec<u8>, number: u64) -> Result<(), AllocError>
    ensures { OnOk result (out.new.items ≡ out.old.items ++ decimal number) }
{
    let text = number.to_string(alloc)?;
    put(out, text.as_bytes())
}

// Puts the bytes of a token last.
fn put_token(alloc: Global, out: &mut Vec<u8>, piece: &Piece<'_>) -> Result<(), AllocError>
    ensures { OnOk result (out.new.items ≡ out.old.items ++ token_text (piece_token piece.now)) }
{
    match piece {
        Piece::Word(name) => put(out, name.bytes()),
        Piece::Key(key) => put(out, key_text(*key)),
        Piece::Number(n) => put_number(alloc, out, *n),
        Piece::Mark(mark) => put(out, mark_text(*mark)),
        Piece::Text(inner) => {
            put(out, b"\"")?;
            put(out, inner)?;
            put(out, b"\"")
        }
    }
}

fn opens(piece: &Piece<'_>) -> bool
    ensures { result ≡ opens (piece_token piece.now) }
{
    match piece {
        Piece::Mark(mark) => match mark {
            Mark::OpenParen
            | Mark::OpenBracket
            | Mark::Less
            | Mark::Ampersand
            | Mark::Star
            | Mark::At
            | Mark::Dot
            | Mark::Hash => true,
            _ => false,
        },
        _ => false,
    }
}

fn closes(piece: &Piece<'_>) -> bool
    ensures { result ≡ closes (piece_token piece.now) }
{
    match piece {
        Piece::Mark(mark) => match mark {
            Mark::CloseParen
            | Mark::CloseBracket
            | Mark::Less
            | Mark::Greater
            | Mark::Colon
            | Mark::Semicolon
            | Mark::Comma
            | Mark::Dot => true,
            _ => false,
        },
        _ => false,
    }
}

fn is_word(piece: &Piece<'_>) -> bool
    ensures { result ≡ is_word_token (piece_token piece.now) }
{
    match piece {
        Piece::Word(_) | Piece::Key(_) => true,
        _ => false,
    }
}

fn is_parenthesis(piece: &Piece<'_>) -> bool
    ensures { result ≡ is_parenthesis (piece_token piece.now) }
{
    match piece {
        Piece::Mark(Mark::OpenParen) => true,
        _ => false,
    }
}

// Whether a blank stands between two tokens.
#[tactic(auto, unfolding(crate::specs::Canonical::has_gap))]
fn has_gap(last: &Piece<'_>, next: &Piece<'_>) -> bool
    ensures { result ≡ has_gap (piece_token last.now) (piece_token next.now) }
{
    !opens(last) && !closes(next) && !(is_word(last) && is_parenthesis(next))
}

// Puts a token last, behind another one.
fn put_behind(
    alloc: Global,
    out: &mut Vec<u8>,
    last: &Piece<'_>,
    next: &Piece<'_>,
) -> Result<(), AllocError>
    ensures { let before = piece_token last.now in let behind = piece_token next.now in
        OnOk result (out.new.items ≡ out.old.items ++ (gap before behind ++ token_text behind)) }
{
    if has_gap(last, next) {
        put(out, b" ")?;
    }
    put_token(alloc, out, next)
}

#[tactic(auto, unfolding(crate::specs::Canonical::render))]
fn put_tokens(alloc: Global, out: &mut Vec<u8>, pieces: &[Piece<'_>]) -> Result<(), AllocError>
    ensures { OnOk result (out.new.items ≡ out.old.items ++ render (map piece_token pieces.now)) }
{
    match pieces {
        [] => Ok(()),
        [first, rest @ ..] => {
            put_token(alloc, out, first)?;
            put_rest(alloc, out, first, rest)
        }
    }
}

// Puts tokens last, behind another one.
fn put_rest<'p, 'a>(
    alloc: Global,
    out: &mut Vec<u8>,
    first: &'p Piece<'a>,
    rest: &'p [Piece<'a>],
) -> Result<(), AllocError>
    ensures { let before = piece_token first.now in
        OnOk result (out.new.items ≡ out.old.items ++ render_behind before (map piece_token rest.now)) }
{
    let mut last = first;
    'tokens: for next in rest {
        put_behind(alloc, out, last, next)?;
        last = next;
    }
    Ok(())
}
