//! Reserved words and marks.

/// A word that names nothing, since a line form uses it.
#[derive(Clone, Copy, Debug, PartialEq, Eq)]
pub enum Key {
    Pub,
    Struct,
    Trait,
    Fn,
    SelfWord,
    RRef,
    RpcResult,
    Dyn,
    Mut,
    Const,
    Box,
    Vec,
    String,
    Bool,
    U8,
    U16,
    U32,
    U64,
    Num,
}

/// A mark of a line.
#[derive(Clone, Copy, Debug, PartialEq, Eq)]
pub enum Mark {
    /// `{`
    OpenBrace,
    /// `}`
    CloseBrace,
    /// `(`
    OpenParen,
    /// `)`
    CloseParen,
    /// `[`
    OpenBracket,
    /// `]`
    CloseBracket,
    /// `<`
    Less,
    /// `>`
    Greater,
    /// `:`
    Colon,
    /// `;`
    Semicolon,
    /// `,`
    Comma,
    /// `=`
    Equals,
    /// `.`
    Dot,
    /// `&`
    Ampersand,
    /// `*`
    Star,
    /// `@`
    At,
    /// `#`
    Hash,
    /// `->`
    Arrow,
}
