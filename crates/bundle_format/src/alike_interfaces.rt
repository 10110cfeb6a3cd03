//! Whether two lines of the interface part are one.
use crate::alike::Alike;
use rl_defs::idl::{Base, IdlLine, Param, ResultText, TypeText, Wrap};

impl Alike for Wrap {
    fn alike(&self, other: &Wrap) -> bool {
        match (self, other) {
            (Wrap::Array(a), Wrap::Array(b)) => a == b,
            (Wrap::Box, Wrap::Box) => true,
            (Wrap::Vec, Wrap::Vec) => true,
            (Wrap::Ref, Wrap::Ref) => true,
            (Wrap::RefMut, Wrap::RefMut) => true,
            (Wrap::PointerConst, Wrap::PointerConst) => true,
            (Wrap::PointerMut, Wrap::PointerMut) => true,
            _ => false,
        }
    }
}

impl Alike for Base {
    fn alike(&self, other: &Base) -> bool {
        match (self, other) {
            (Base::Num(a), Base::Num(b)) => a.alike(b),
            (Base::Struct(a), Base::Struct(b)) => a.alike(b),
            (Base::RRef(a), Base::RRef(b)) => a.alike(b),
            (Base::LentRRef(a), Base::LentRRef(b)) => a.alike(b),
            (Base::Dyn(a), Base::Dyn(b)) => a.alike(b),
            (Base::String, Base::String) => true,
            (Base::Function, Base::Function) => true,
            _ => false,
        }
    }
}

impl Alike for TypeText {
    fn alike(&self, other: &TypeText) -> bool {
        self.wraps.alike(&other.wraps) && self.base.alike(&other.base)
    }
}

impl Alike for Param {
    fn alike(&self, other: &Param) -> bool {
        self.name.alike(&other.name) && self.ty.alike(&other.ty)
    }
}

impl Alike for ResultText {
    fn alike(&self, other: &ResultText) -> bool {
        match (self, other) {
            (ResultText::Missing, ResultText::Missing) => true,
            (ResultText::Plain(a), ResultText::Plain(b)) => a.alike(b),
            (ResultText::Rpc(a), ResultText::Rpc(b)) => a.alike(b),
            _ => false,
        }
    }
}

impl Alike for IdlLine {
    fn alike(&self, other: &IdlLine) -> bool {
        match (self, other) {
            (IdlLine::Struct(a), IdlLine::Struct(b)) => a.alike(b),
            (IdlLine::Field(a, s), IdlLine::Field(b, t)) => a.alike(b) && s.alike(t),
            (IdlLine::Trait(a), IdlLine::Trait(b)) => a.alike(b),
            (IdlLine::Idempotent, IdlLine::Idempotent) => true,
            (
                IdlLine::Method {
                    name: a,
                    params: p,
                    result: s,
                },
                IdlLine::Method {
                    name: b,
                    params: q,
                    result: t,
                },
            ) => a.alike(b) && p.alike(q) && s.alike(t),
            (IdlLine::Close, IdlLine::Close) => true,
            _ => false,
        }
    }
}
