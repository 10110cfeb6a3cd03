//! A walk over the tokens of a line by the form that it is to have, up to the first token that
//! doesn't fit.

use crate::tokens::{Sort, Token, at, is, is_name, number_at, register};

/// The first token that doesn't fit, by its place, and what is wanted there.
#[derive(Clone, Copy, Debug)]
pub struct Miss {
    pub place: usize,
    pub wanted: &'static [u8],
}

/// What a pattern asks for behind its fixed tokens.
#[derive(Clone, Copy, Debug, PartialEq, Eq)]
pub enum Tail {
    Nothing,
    /// `fs` or `rv6`
    Native,
    Names,
    Numbers,
    Registers,
    Heads,
    Type,
    Method,
    CodeCall,
    ScriptCall,
}

/// A form of a line: how it is written in documents, its tokens behind its first word, and what
/// stands behind them. In a pattern `n` is a name, `r` a register, `d` a number, `p` a number in
/// decimal digits, `t` a text, `i` the word `idempotent`, `w` the word `new`, `s` the word
/// `restarts`; every other byte is a mark.
#[derive(Clone, Copy, Debug)]
pub struct Form {
    pub shown: &'static [u8],
    pub pattern: &'static [u8],
    pub tail: Tail,
}

/// The tokens of a line, of which some are passed.
#[derive(Clone, Copy)]
pub struct Walk<'t, 'a> {
    row: &'t [Token<'a>],
    place: usize,
}

const NAME: &[u8] = b"a name";

const RESERVED: &[u8] = b"a name, which is no reserved word";

const REGISTER: &[u8] = b"a register, `r0` to `r31`";

const TYPE: &[u8] = b"a type";

const DEEP: &[u8] = b"at most 8 types round one another";

const COUNT: &[u8] = b"a number from 1 to 65535";

impl<'t, 'a> Walk<'t, 'a> {
    /// The tokens of a line from a place on.
    pub fn new(row: &'t [Token<'a>], place: usize) -> Walk<'t, 'a> {
        Walk { row, place }
    }

    fn miss(&self, wanted: &'static [u8]) -> Miss {
        Miss {
            place: self.place,
            wanted,
        }
    }

    fn pass(&mut self) {
        self.place = self.place.saturating_add(1);
    }

    /// Passes a token with these bytes, if it comes next.
    pub fn skip(&mut self, text: &[u8]) -> bool {
        if is(self.row, self.place, text) {
            self.pass();
            return true;
        }
        false
    }

    /// Passes a token with these bytes.
    pub fn token(&mut self, text: &[u8], wanted: &'static [u8]) -> Result<(), Miss> {
        if self.skip(text) {
            return Ok(());
        }
        Err(self.miss(wanted))
    }

    /// Passes a name.
    pub fn name(&mut self) -> Result<(), Miss> {
        if is_name(self.row, self.place) {
            self.pass();
            return Ok(());
        }
        match self.row.get(self.place) {
            Some(token) if token.sort == Sort::Key => Err(self.miss(RESERVED)),
            _ => Err(self.miss(NAME)),
        }
    }

    /// Passes a register.
    pub fn register(&mut self) -> Result<(), Miss> {
        match register(at(self.row, self.place)) {
            Some(_) => {
                self.pass();
                Ok(())
            }
            None => Err(self.miss(REGISTER)),
        }
    }

    /// Passes a number.
    pub fn number(&mut self, wanted: &'static [u8]) -> Result<(), Miss> {
        match number_at(self.row, self.place) {
            Some(_) => {
                self.pass();
                Ok(())
            }
            None => Err(self.miss(wanted)),
        }
    }

    // Passes a number in decimal digits.
    fn decimal(&mut self) -> Result<(), Miss> {
        let text = at(self.row, self.place);
        if text.iter().all(|byte| byte.is_ascii_digit()) {
            return self.number(b"a place, which is a number in decimal digits");
        }
        Err(self.miss(b"a place, which is a number in decimal digits"))
    }

    fn text(&mut self) -> Result<(), Miss> {
        match self.row.get(self.place) {
            Some(token) if token.sort == Sort::Text => {
                self.pass();
                Ok(())
            }
            _ => Err(self.miss(b"a text in quotes")),
        }
    }

    /// Passes nothing, where nothing is left.
    pub fn end(&self) -> Result<(), Miss> {
        if self.place >= self.row.len() {
            return Ok(());
        }
        Err(self.miss(b"the end of the line"))
    }

    // Passes a mark of one byte.
    fn mark(&mut self, mark: u8) -> Result<(), Miss> {
        match mark {
            b'{' => self.token(b"{", b"`{`"),
            b'(' => self.token(b"(", b"`(`"),
            b')' => self.token(b")", b"`)`"),
            b'[' => self.token(b"[", b"`[`"),
            b']' => self.token(b"]", b"`]`"),
            b'<' => self.token(b"<", b"`<`"),
            b'>' => self.token(b">", b"`>`"),
            b':' => self.token(b":", b"`:`"),
            b';' => self.token(b";", b"`;`"),
            b',' => self.token(b",", b"`,`"),
            b'=' => self.token(b"=", b"`=`"),
            b'&' => self.token(b"&", b"`&`"),
            _ => self.token(b".", b"`.`"),
        }
    }

    // Passes what a letter of a pattern stands for.
    fn one(&mut self, letter: u8) -> Result<(), Miss> {
        match letter {
            b'n' => self.name(),
            b'r' => self.register(),
            b'd' => self.number(b"a number"),
            b'p' => self.decimal(),
            b't' => self.text(),
            b'i' => self.token(b"idempotent", b"`idempotent`"),
            b'w' => self.token(b"new", b"`new`"),
            b's' => self.token(b"restarts", b"`restarts`"),
            b'S' => self.token(b"self", b"`self`"),
            _ => self.mark(letter),
        }
    }

    /// Passes what a pattern stands for.
    pub fn pattern(&mut self, pattern: &[u8]) -> Result<(), Miss> {
        'letters: for letter in pattern {
            self.one(*letter)?;
        }
        Ok(())
    }

    // Passes one part of a list.
    fn item(&mut self, tail: Tail) -> Result<(), Miss> {
        match tail {
            Tail::Names => self.name(),
            Tail::Numbers => self.number(b"a number"),
            Tail::Heads => self.head(),
            Tail::CodeCall => self.code_argument(),
            Tail::ScriptCall => self.script_argument(),
            Tail::Method => {
                self.name()?;
                self.mark(b':')?;
                self.whole_type()
            }
            Tail::Type => self.whole_type(),
            _ => self.register(),
        }
    }

    // Passes parts with commas between them.
    fn list(&mut self, tail: Tail) -> Result<(), Miss> {
        self.item(tail)?;
        'items: for _ in 0..self.row.len() {
            if !self.skip(b",") {
                return Ok(());
            }
            self.item(tail)?;
        }
        Ok(())
    }

    // Passes parts up to the end of the line.
    fn list_to_end(&mut self, tail: Tail) -> Result<(), Miss> {
        if self.place >= self.row.len() {
            return Ok(());
        }
        self.list(tail)?;
        self.list_end()
    }

    // Passes nothing, where nothing is left behind the last part of a list.
    fn list_end(&self) -> Result<(), Miss> {
        if self.place >= self.row.len() {
            return Ok(());
        }
        Err(self.miss(b"`,` or the end of the line"))
    }

    // Passes what a head says of a register.
    fn head(&mut self) -> Result<(), Miss> {
        self.register()?;
        if self.skip(b"num") {
            return Ok(());
        }
        if self.skip(b"&") {
            if self.skip(b"dyn") {
                return self.name();
            }
            self.token(b"RRef", b"`RRef` or `dyn`")?;
            return self.pattern(b"<n>");
        }
        self.token(
            b"RRef",
            b"`num`, `RRef<STRUCT>`, `&RRef<STRUCT>` or `&dyn TRAIT`",
        )?;
        self.pattern(b"<n>")
    }

    fn code_argument(&mut self) -> Result<(), Miss> {
        let _ = self.skip(b"&");
        self.register()
    }

    fn script_argument(&mut self) -> Result<(), Miss> {
        if self.skip(b"&") || self.skip(b"@") {
            return self.name();
        }
        if number_at(self.row, self.place).is_some() {
            self.pass();
            return Ok(());
        }
        match self.name() {
            Ok(()) => Ok(()),
            Err(_) => Err(self.miss(b"a number, `NAME`, `&NAME` or `@TARGET`")),
        }
    }

    // Passes the arguments of a call, behind the `(`, and the `)`.
    fn arguments(&mut self, tail: Tail) -> Result<(), Miss> {
        if self.skip(b")") {
            return Ok(());
        }
        self.list(tail)?;
        self.token(b")", b"`,` or `)`")
    }

    fn code_call(&mut self) -> Result<(), Miss> {
        self.pattern(b"r.n(")?;
        self.arguments(Tail::CodeCall)?;
        if self.skip(b"->") {
            self.list(Tail::Registers)?;
            self.token(
                b"else",
                b"`,` or `else E, LABEL`: where the call fails, E holds why, and control goes to LABEL",
            )?;
        } else {
            self.token(
                b"else",
                b"`else E, LABEL`: where the call fails, E holds why, and control goes to LABEL",
            )?;
        }
        self.pattern(b"r,n")
    }

    fn script_call(&mut self) -> Result<(), Miss> {
        self.pattern(b"n.n(")?;
        self.arguments(Tail::ScriptCall)?;
        if self.skip(b"->") {
            self.list(Tail::Names)?;
            return self.list_end();
        }
        Ok(())
    }

    // Passes one wrap of a type and answers what closes it: nothing for a reference, and None where
    // no wrap comes next.
    fn wrap(&mut self) -> Result<Option<u8>, Miss> {
        if self.skip(b"[") {
            return Ok(Some(b']'));
        }
        if self.skip(b"Box") || self.skip(b"Vec") {
            self.mark(b'<')?;
            return Ok(Some(b'>'));
        }
        if self.skip(b"*") {
            if self.skip(b"const") || self.skip(b"mut") {
                return Ok(Some(0));
            }
            return Err(self.miss(b"`const` or `mut`"));
        }
        if is(self.row, self.place, b"&") && !self.lends() {
            self.pass();
            let _ = self.skip(b"mut");
            return Ok(Some(0));
        }
        Ok(None)
    }

    // Whether a loan of an object, or an interface, comes next.
    fn lends(&self) -> bool {
        let next = self.place.saturating_add(1);
        is(self.row, next, b"RRef") || is(self.row, next, b"dyn")
    }

    // Passes a type that holds no other.
    fn base(&mut self) -> Result<(), Miss> {
        if self.skip(b"&") {
            if self.skip(b"dyn") {
                return self.name();
            }
            self.token(b"RRef", b"`RRef`")?;
            return self.pattern(b"<n>");
        }
        if self.skip(b"RRef") {
            return self.pattern(b"<n>");
        }
        if self.skip(b"fn") {
            return self.pattern(b"()");
        }
        let plain = self.skip(b"bool")
            || self.skip(b"u8")
            || self.skip(b"u16")
            || self.skip(b"u32");
        if plain || self.skip(b"u64") || self.skip(b"String") {
            return Ok(());
        }
        match self.name() {
            Ok(()) => Ok(()),
            Err(_) => Err(self.miss(TYPE)),
        }
    }

    // Passes what closes a wrap.
    fn close(&mut self, closing: u8) -> Result<(), Miss> {
        match closing {
            b']' => {
                self.token(b";", b"`;` and how many there are")?;
                match number_at(self.row, self.place) {
                    Some(count) if count >= 1 && count <= 65_535 => self.pass(),
                    _ => return Err(self.miss(COUNT)),
                }
                self.mark(b']')
            }
            b'>' => self.mark(b'>'),
            _ => Ok(()),
        }
    }

    // Passes the wraps of a type, and answers how many they are.
    fn wraps(&mut self, closing: &mut [u8; 8]) -> Result<usize, Miss> {
        'wraps: for count in 0..8usize {
            match self.wrap()? {
                Some(byte) => closing[count] = byte,
                None => return Ok(count),
            }
        }
        let here = *self;
        match self.wrap()? {
            Some(_) => Err(here.miss(DEEP)),
            None => Ok(8),
        }
    }

    // Passes a type.
    fn whole_type(&mut self) -> Result<(), Miss> {
        let mut closing = [0u8; 8];
        let count = self.wraps(&mut closing)?;
        self.base()?;
        'wraps: for place in (0..count.min(8)).rev() {
            self.close(closing[place])?;
        }
        Ok(())
    }

    // Passes nothing, a type, or two types or more in parentheses.
    fn out(&mut self) -> Result<(), Miss> {
        if !self.skip(b"(") {
            return self.whole_type();
        }
        if self.skip(b")") {
            return Ok(());
        }
        self.whole_type()?;
        if is(self.row, self.place, b")") {
            return Err(self.miss(b"`,` and another type: one type stands without parentheses"));
        }
        self.mark(b',')?;
        self.list(Tail::Type)?;
        self.token(b")", b"`,` or `)`")
    }

    fn outcome(&mut self) -> Result<(), Miss> {
        if !self.skip(b"RpcResult") {
            return self.out();
        }
        self.mark(b'<')?;
        self.out()?;
        self.mark(b'>')
    }

    fn method(&mut self) -> Result<(), Miss> {
        self.pattern(b"n(&S")?;
        if self.skip(b",") {
            self.list(Tail::Method)?;
        }
        self.token(b")", b"`,` or `)`")?;
        if self.skip(b"->") {
            self.outcome()?;
        }
        self.token(b";", b"`;`")
    }

    // Passes what a form has behind its pattern.
    fn tail(&mut self, tail: Tail) -> Result<(), Miss> {
        match tail {
            Tail::Nothing => Ok(()),
            Tail::Native => {
                if self.skip(b"fs") {
                    return Ok(());
                }
                self.token(b"rv6", b"`fs` or `rv6`")
            }
            Tail::Names => self.list(tail),
            Tail::Numbers | Tail::Registers | Tail::Heads => self.list_to_end(tail),
            Tail::Type => {
                self.whole_type()?;
                let _ = self.skip(b",");
                Ok(())
            }
            Tail::Method => self.method(),
            Tail::CodeCall => self.code_call(),
            Tail::ScriptCall => self.script_call(),
        }
    }

    /// Passes all of a form.
    pub fn whole(&mut self, form: &Form) -> Result<(), Miss> {
        self.pattern(form.pattern)?;
        self.tail(form.tail)?;
        self.end()
    }
}
