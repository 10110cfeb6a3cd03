//! The lines of the domain part: domain code.
ghost use Rattle.std.specs.Prelude.{◌<◌};

use crate::bundle::Numbered;
use crate::list::List;
use crate::name::Name;

/// A register, `r0` to `r31`.
#[derive(Clone, Copy, Debug)]
pub struct Register {
    pub number: u8,
    ghost below: { number < 32 },
}

/// What the checker knows of a register before a line.
#[derive(Clone, Copy, Debug, PartialEq, Eq)]
pub enum RegKind {
    Empty,
    Num,
    /// An own object of the struct with this number.
    Own(u32),
    /// A lent object of the struct with this number.
    Lent(u32),
    /// A reference to the trait with this number.
    Cap(u32),
}

/// The operation of an instruction that makes a number of two numbers.
#[derive(Clone, Copy, Debug, PartialEq, Eq)]
pub enum MathOp {
    /// The sum modulo 2^64.
    Add,
    /// The difference modulo 2^64.
    Sub,
    /// The product modulo 2^64.
    Mul,
    /// The whole quotient.
    Div,
    /// The rest of a division.
    Rem,
    And,
    Or,
    Xor,
    /// 1 where the first number is below the second, else 0.
    Lt,
    /// 1 where both are equal, else 0.
    Eq,
}

/// An argument of a call instruction.
#[derive(Clone, Copy, Debug)]
pub enum CallArg {
    /// `rN`: a number, a cap, or an own object that is moved.
    Passed(Register),
    /// `&rN`: an own or lent object that is lent.
    Lent(Register),
}

/// An instruction. Registers stand in the order of the text; the one that is written comes first.
#[derive(Debug, Drop)]
pub enum Instr {
    /// `const A, NUMBER`
    Const(Register, u64),
    /// `copy A, B`
    Copy(Register, Register),
    /// `add A, B, C`, and `sub`, `mul`, `div`, `rem`, `and`, `or`, `xor`, `lt`, `eq`
    Math(MathOp, Register, Register, Register),
    /// `jmp LABEL`
    Jmp(Name),
    /// `jz A, LABEL`
    Jz(Register, Name),
    /// `move A, B`
    Move(Register, Register),
    /// `get A, O, I`
    Get(Register, Register, Register),
    /// `wget A, I`
    Wget(Register, Register),
    /// `has A, SLOT`
    Has(Register, Name),
    /// `cap A, IMPORT`
    Cap(Register, Name),
    /// `devsize A`
    DevSize(Register),
    /// `new A, STRUCT`
    New(Register, Name),
    /// `drop A`
    Drop(Register),
    /// `set O, I, V`
    Set(Register, Register, Register),
    /// `wput I, V`
    Wput(Register, Register),
    /// `take A, SLOT`
    Take(Register, Name),
    /// `put SLOT, A`
    Put(Name, Register),
    /// `devget O, N`
    DevGet(Register, Register),
    /// `devput N, O`
    DevPut(Register, Register),
    /// `hang O, PLACE, V`
    Hang(Register, u64, Register),
    /// `unhang A, O, PLACE`
    Unhang(Register, Register, u64),
    /// `call C.METHOD(ARG, ..) -> A, .. else E, LABEL`
    Call {
        target: Register,
        method: Name,
        args: List<CallArg>,
        results: List<Register>,
        code: Register,
        label: Name,
    },
    /// `ret A, ..`
    Ret(List<Register>),
    /// `trap`
    Trap,
}

/// What a head says that a register holds.
#[derive(Clone, Copy, Debug)]
pub enum HeadKind {
    /// `num`
    Num,
    /// `RRef<STRUCT>`
    Own(Name),
    /// `&RRef<STRUCT>`
    Lent(Name),
    /// `&dyn TRAIT`
    Cap(Name),
}

/// A register of a head, with what it holds.
#[derive(Clone, Copy, Debug)]
pub struct HeadItem {
    pub register: Register,
    pub kind: HeadKind,
}

/// A body of a domain that isn't domain code.
#[derive(Clone, Copy, Debug, PartialEq, Eq)]
pub enum Native {
    /// `fs`: the file system.
    Fs,
    /// `rv6`: the calls after xv6.
    Rv6,
}

/// A line of the domain part.
#[derive(Debug, Drop)]
pub enum DomainLine {
    /// `domain NAME: TRAIT {`
    Domain(Name, Name),
    /// `words N`
    Words(u64),
    /// `slot NAME: STRUCT`
    Slot(Name, Name),
    /// `import NAME: TRAIT`
    Import(Name, Name),
    /// `native fs` or `native rv6`
    Native(Native),
    /// `fn NAME {`
    Function(Name),
    /// `LABEL: HEAD, ..`
    Head(Name, List<HeadItem>),
    /// An instruction.
    Code(Instr),
    /// `}`
    Close,
}

/// The lines of one domain, in order.
#[derive(Debug, Drop)]
pub struct DomainText {
    pub lines: List<Numbered<DomainLine>>,
}
