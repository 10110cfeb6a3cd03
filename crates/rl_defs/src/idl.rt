//! The lines of the interface part.

use crate::bundle::Numbered;
use crate::list::List;
use crate::name::Name;
use crate::tables::Width;

/// What a type is wrapped in.
#[derive(Clone, Copy, Debug, PartialEq, Eq)]
pub enum Wrap {
    /// `[TYPE; N]`, N from 1 to 65,535.
    Array(u16),
    /// `Box<TYPE>`
    Box,
    /// `Vec<TYPE>`
    Vec,
    /// `&TYPE`
    Ref,
    /// `&mut TYPE`
    RefMut,
    /// `*const TYPE`
    PointerConst,
    /// `*mut TYPE`
    PointerMut,
}

/// The innermost part of a type.
#[derive(Clone, Copy, Debug)]
pub enum Base {
    /// `bool`, `u8`, `u16`, `u32` or `u64`
    Num(Width),
    /// A struct by its name.
    Struct(Name),
    /// `RRef<STRUCT>`
    RRef(Name),
    /// `&RRef<STRUCT>`
    LentRRef(Name),
    /// `&dyn TRAIT`
    Dyn(Name),
    /// `String`
    String,
    /// `fn()`
    Function,
}

/// A type as it is written: its wraps, the outermost first, round its base.
#[derive(Debug, Drop)]
pub struct TypeText {
    pub wraps: List<Wrap>,
    pub base: Base,
}

/// A parameter of a method.
#[derive(Debug, Drop)]
pub struct Param {
    pub name: Name,
    pub ty: TypeText,
}

/// What stands behind the parameters of a method. `()` is no type, one type stands alone, more
/// stand in parentheses.
#[derive(Debug, Drop)]
pub enum ResultText {
    /// Nothing.
    Missing,
    /// `-> OUT`
    Plain(List<TypeText>),
    /// `-> RpcResult<OUT>`
    Rpc(List<TypeText>),
}

/// A line of the interface part.
#[derive(Debug, Drop)]
pub enum IdlLine {
    /// `struct NAME {`
    Struct(Name),
    /// `NAME: TYPE,`
    Field(Name, TypeText),
    /// `trait NAME {`
    Trait(Name),
    /// `#[idempotent]`
    Idempotent,
    /// `fn NAME(&self, NAME: TYPE, ..) -> RESULT;`
    Method {
        name: Name,
        params: List<Param>,
        result: ResultText,
    },
    /// `}`
    Close,
}

/// The lines of the interface part, in order.
#[derive(Debug, Drop)]
pub struct Idl {
    pub lines: List<Numbered<IdlLine>>,
}
