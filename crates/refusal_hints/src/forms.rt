//! Rule 1 where a line has tokens: the form that its first word asks for, and the first token that
//! doesn't fit it.

use crate::case::{Case, Part, is_head};
use crate::hint::Hint;
use crate::spelling;
use crate::tokens::{Token, at, is};
use crate::walk::{Form, Miss, Tail, Walk};
use std::alloc::AllocError;

fn plain(shown: &'static [u8], pattern: &'static [u8]) -> Option<Form> {
    Some(Form {
        shown,
        pattern,
        tail: Tail::Nothing,
    })
}

fn with(shown: &'static [u8], pattern: &'static [u8], tail: Tail) -> Option<Form> {
    Some(Form {
        shown,
        pattern,
        tail,
    })
}

fn interface_form(row: &[Token<'_>], place: usize) -> Option<Form> {
    match at(row, place) {
        b"struct" => plain(b"struct NAME {", b"n{"),
        b"trait" => plain(b"trait NAME {", b"n{"),
        b"fn" if place == 0 => with(
            b"fn NAME(&self, NAME: TYPE, ..) -> RESULT;",
            b"",
            Tail::Method,
        ),
        b"#" if place == 0 => plain(b"#[idempotent]", b"[i]"),
        b"}" if place == 0 => plain(b"}", b""),
        _ => None,
    }
}

fn code_form(word: &[u8]) -> Option<Form> {
    match word {
        b"const" => plain(b"const A, NUMBER", b"r,d"),
        b"copy" => plain(b"copy A, B", b"r,r"),
        b"add" => plain(b"add A, B, C", b"r,r,r"),
        b"sub" => plain(b"sub A, B, C", b"r,r,r"),
        b"mul" => plain(b"mul A, B, C", b"r,r,r"),
        b"div" => plain(b"div A, B, C", b"r,r,r"),
        b"rem" => plain(b"rem A, B, C", b"r,r,r"),
        b"and" => plain(b"and A, B, C", b"r,r,r"),
        b"or" => plain(b"or A, B, C", b"r,r,r"),
        b"xor" => plain(b"xor A, B, C", b"r,r,r"),
        b"lt" => plain(b"lt A, B, C", b"r,r,r"),
        b"eq" => plain(b"eq A, B, C", b"r,r,r"),
        b"jmp" => plain(b"jmp LABEL", b"n"),
        b"jz" => plain(b"jz A, LABEL", b"r,n"),
        b"move" => plain(b"move A, B", b"r,r"),
        b"get" => plain(b"get A, O, I", b"r,r,r"),
        b"wget" => plain(b"wget A, I", b"r,r"),
        b"has" => plain(b"has A, SLOT", b"r,n"),
        b"cap" => plain(b"cap A, IMPORT", b"r,n"),
        b"devsize" => plain(b"devsize A", b"r"),
        _ => action_form(word),
    }
}

fn action_form(word: &[u8]) -> Option<Form> {
    match word {
        b"new" => plain(b"new A, STRUCT", b"r,n"),
        b"drop" => plain(b"drop A", b"r"),
        b"set" => plain(b"set O, I, V", b"r,r,r"),
        b"wput" => plain(b"wput I, V", b"r,r"),
        b"take" => plain(b"take A, SLOT", b"r,n"),
        b"put" => plain(b"put SLOT, A", b"n,r"),
        b"devget" => plain(b"devget O, N", b"r,r"),
        b"devput" => plain(b"devput N, O", b"r,r"),
        b"hang" => plain(b"hang O, PLACE, V", b"r,p,r"),
        b"unhang" => plain(b"unhang A, O, PLACE", b"r,r,p"),
        b"call" => with(
            b"call C.METHOD(ARG, ..) -> A, .. else E, LABEL",
            b"",
            Tail::CodeCall,
        ),
        b"ret" => with(b"ret A, ..", b"", Tail::Registers),
        b"trap" => plain(b"trap", b""),
        _ => None,
    }
}

fn domain_form(row: &[Token<'_>]) -> Option<Form> {
    if is_head(row) {
        return with(b"LABEL: rN num, rN RRef<STRUCT>, ..", b":", Tail::Heads);
    }
    match at(row, 0) {
        b"domain" => plain(b"domain NAME: TRAIT {", b"n:n{"),
        b"words" => plain(b"words NUMBER", b"d"),
        b"slot" => plain(b"slot NAME: STRUCT", b"n:n"),
        b"import" => plain(b"import NAME: TRAIT", b"n:n"),
        b"native" => with(b"native fs, or native rv6", b"", Tail::Native),
        b"fn" => plain(b"fn NAME {", b"n{"),
        b"}" => plain(b"}", b""),
        word => code_form(word),
    }
}

fn plan_form(word: &[u8]) -> Option<Form> {
    match word {
        b"load" => plain(b"load NAME = DOMAIN", b"n=n"),
        b"bind" => plain(b"bind LOAD.IMPORT = TARGET", b"n.n=n"),
        b"shadow" => plain(b"shadow NAME = LOAD restarts NUMBER", b"n=nsd"),
        b"device" => plain(b"device LOAD NUMBER", b"nd"),
        b"serial" => plain(b"serial LOAD", b"n"),
        b"fuel" => plain(b"fuel NUMBER", b"d"),
        b"order" => with(b"order CLIENT, ..", b"", Tail::Names),
        _ => None,
    }
}

fn client_form(word: &[u8]) -> Option<Form> {
    match word {
        b"client" => plain(b"client NAME {", b"n{"),
        b"let" => with(b"let NAME = new STRUCT NUMBER, ..", b"n=wn", Tail::Numbers),
        b"text" => plain(b"text NAME = STRUCT \"TEXT\"", b"n=nt"),
        b"call" => with(
            b"call TARGET.METHOD(ARG, ..) -> NAME, ..",
            b"",
            Tail::ScriptCall,
        ),
        b"show" => plain(b"show NAME", b"n"),
        b"drop" => plain(b"drop NAME", b"n"),
        b"kill" => plain(b"kill TARGET", b"n"),
        b"}" => plain(b"}", b""),
        _ => None,
    }
}

// What a line of a part may begin with.
fn beginnings(part: Part) -> &'static [u8] {
    match part {
        Part::Interfaces =>
            b"`struct`, `trait`, `pub`, `NAME:` of a field, `fn`, `#[idempotent]`, `}`, or a header",
        Part::Domains =>
            b"`domain`, `words`, `slot`, `import`, `native`, `fn`, `LABEL:`, an instruction, `}`, or a header",
        Part::Plan => b"`load`, `bind`, `shadow`, `device`, `serial`, `fuel`, `order`, or a header",
        Part::Clients =>
            b"`client`, `let`, `text`, `call`, `show`, `drop`, `kill`, `}`, or a header",
    }
}

// The token at a place, or the end of the line.
fn tell_found(hint: &mut Hint, row: &[Token<'_>], place: usize) -> Result<(), AllocError> {
    hint.mark_at(row, place);
    match row.get(place) {
        Some(token) => hint.found(&[b"`", token.text, b"`"]),
        None => hint.found(&[b"the end of the line"]),
    }
}

// Says which token doesn't fit the form.
fn tell_miss(
    hint: &mut Hint,
    row: &[Token<'_>],
    from: usize,
    form: &Form,
) -> Result<(), AllocError> {
    let mut walk = Walk::new(row, from);
    if let Err(Miss { place, wanted }) = walk.whole(form) {
        tell_found(hint, row, place)?;
        hint.expected(&[wanted])?;
    }
    hint.form(form.shown)
}

// Says which token of a line of the interface part doesn't fit.
fn tell_interface(hint: &mut Hint, row: &[Token<'_>]) -> Result<(), AllocError> {
    let first = if is(row, 0, b"pub") { 1usize } else { 0 };
    if let Some(form) = interface_form(row, first) {
        return tell_miss(hint, row, first.saturating_add(1), &form);
    }
    let field = Form {
        shown: b"NAME: TYPE,",
        pattern: b"n:",
        tail: Tail::Type,
    };
    if is(row, first.saturating_add(1), b":") {
        return tell_miss(hint, row, first, &field);
    }
    tell_found(hint, row, first)?;
    if first == 1 {
        return hint.expected(&[b"`struct`, `trait`, or `NAME:` of a field behind `pub`"]);
    }
    hint.expected(&[beginnings(Part::Interfaces)])
}

// Says that a line in brackets is no header.
fn tell_header(hint: &mut Hint, row: &[Token<'_>]) -> Result<bool, AllocError> {
    if row.len() != 3 || !is(row, 0, b"[") || !is(row, 2, b"]") {
        return Ok(false);
    }
    hint.mark_at(row, 1);
    hint.found(&[b"`[", at(row, 1), b"]`"])?;
    hint.expected(&[b"`[idl]`, `[domains]`, `[plan]` or `[clients]`"])?;
    Ok(true)
}

// Says which token of a line doesn't fit, by the part in which the line stands.
fn tell_form(hint: &mut Hint, row: &[Token<'_>], part: Part) -> Result<(), AllocError> {
    if tell_header(hint, row)? {
        return Ok(());
    }
    let form = match part {
        Part::Interfaces => return tell_interface(hint, row),
        Part::Domains => domain_form(row),
        Part::Plan => plan_form(at(row, 0)),
        Part::Clients => client_form(at(row, 0)),
    };
    match form {
        Some(form) => tell_miss(hint, row, 1, &form),
        None => {
            tell_found(hint, row, 0)?;
            hint.expected(&[beginnings(part)])
        }
    }
}

/// Rule 1: why a line is no line of its part.
pub fn tell(case: &Case<'_>, hint: &mut Hint) -> Result<(), AllocError> {
    if spelling::tell(case.alloc, hint, case.line(case.number))? {
        return Ok(());
    }
    match case.part_of(case.number)? {
        Some((part, _)) => tell_form(hint, &case.row, part),
        None => Ok(()),
    }
}
