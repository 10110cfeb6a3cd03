//! Whether two lines of the domain part are one.
use crate::alike::Alike;
use rl_defs::code::{CallArg, DomainLine, DomainText, HeadItem, HeadKind, Instr, MathOp, Native};

impl Alike for MathOp {
    fn alike(&self, other: &MathOp) -> bool {
        self == other
    }
}

impl Alike for Native {
    fn alike(&self, other: &Native) -> bool {
        self == other
    }
}

impl Alike for CallArg {
    fn alike(&self, other: &CallArg) -> bool {
        match (self, other) {
            (CallArg::Passed(a), CallArg::Passed(b)) => a.alike(b),
            (CallArg::Lent(a), CallArg::Lent(b)) => a.alike(b),
            _ => false,
        }
    }
}

impl Alike for HeadKind {
    fn alike(&self, other: &HeadKind) -> bool {
        match (self, other) {
            (HeadKind::Num, HeadKind::Num) => true,
            (HeadKind::Own(a), HeadKind::Own(b)) => a.alike(b),
            (HeadKind::Lent(a), HeadKind::Lent(b)) => a.alike(b),
            (HeadKind::Cap(a), HeadKind::Cap(b)) => a.alike(b),
            _ => false,
        }
    }
}

impl Alike for HeadItem {
    fn alike(&self, other: &HeadItem) -> bool {
        self.register.alike(&other.register) && self.kind.alike(&other.kind)
    }
}

impl Alike for Instr {
    fn alike(&self, other: &Instr) -> bool {
        match (self, other) {
            (Instr::Const(a, n), Instr::Const(b, m)) => a.alike(b) && n.alike(m),
            (Instr::Copy(a, c), Instr::Copy(b, d)) => a.alike(b) && c.alike(d),
            (Instr::Math(o, a, c, e), Instr::Math(p, b, d, f)) => {
                o.alike(p) && a.alike(b) && c.alike(d) && e.alike(f)
            }
            (Instr::Jmp(a), Instr::Jmp(b)) => a.alike(b),
            (Instr::Jz(a, c), Instr::Jz(b, d)) => a.alike(b) && c.alike(d),
            (Instr::Move(a, c), Instr::Move(b, d)) => a.alike(b) && c.alike(d),
            (Instr::Get(a, c, e), Instr::Get(b, d, f)) => a.alike(b) && c.alike(d) && e.alike(f),
            (Instr::Wget(a, c), Instr::Wget(b, d)) => a.alike(b) && c.alike(d),
            (Instr::Has(a, c), Instr::Has(b, d)) => a.alike(b) && c.alike(d),
            (Instr::Cap(a, c), Instr::Cap(b, d)) => a.alike(b) && c.alike(d),
            (Instr::DevSize(a), Instr::DevSize(b)) => a.alike(b),
            (Instr::New(a, c), Instr::New(b, d)) => a.alike(b) && c.alike(d),
            (Instr::Drop(a), Instr::Drop(b)) => a.alike(b),
            (Instr::Set(a, c, e), Instr::Set(b, d, f)) => a.alike(b) && c.alike(d) && e.alike(f),
            (Instr::Wput(a, c), Instr::Wput(b, d)) => a.alike(b) && c.alike(d),
            (Instr::Take(a, c), Instr::Take(b, d)) => a.alike(b) && c.alike(d),
            (Instr::Put(a, c), Instr::Put(b, d)) => a.alike(b) && c.alike(d),
            (Instr::DevGet(a, c), Instr::DevGet(b, d)) => a.alike(b) && c.alike(d),
            (Instr::DevPut(a, c), Instr::DevPut(b, d)) => a.alike(b) && c.alike(d),
            (Instr::Hang(a, n, e), Instr::Hang(b, m, f)) => a.alike(b) && n.alike(m) && e.alike(f),
            (Instr::Unhang(a, c, n), Instr::Unhang(b, d, m)) => a.alike(b)
                && c.alike(d)
                && n.alike(m),
            (
                Instr::Call {
                    target: a,
                    method: c,
                    args: e,
                    results: g,
                    code: i,
                    label: k,
                },
                Instr::Call {
                    target: b,
                    method: d,
                    args: f,
                    results: h,
                    code: j,
                    label: l,
                },
            ) => {
                a.alike(b) && c.alike(d) && e.alike(f) && g.alike(h) && i.alike(j) && k.alike(l)
            }
            (Instr::Ret(a), Instr::Ret(b)) => a.alike(b),
            (Instr::Trap, Instr::Trap) => true,
            _ => false,
        }
    }
}

impl Alike for DomainLine {
    fn alike(&self, other: &DomainLine) -> bool {
        match (self, other) {
            (DomainLine::Domain(a, c), DomainLine::Domain(b, d)) => a.alike(b) && c.alike(d),
            (DomainLine::Words(a), DomainLine::Words(b)) => a.alike(b),
            (DomainLine::Slot(a, c), DomainLine::Slot(b, d)) => a.alike(b) && c.alike(d),
            (DomainLine::Import(a, c), DomainLine::Import(b, d)) => a.alike(b) && c.alike(d),
            (DomainLine::Native(a), DomainLine::Native(b)) => a.alike(b),
            (DomainLine::Function(a), DomainLine::Function(b)) => a.alike(b),
            (DomainLine::Head(a, c), DomainLine::Head(b, d)) => a.alike(b) && c.alike(d),
            (DomainLine::Code(a), DomainLine::Code(b)) => a.alike(b),
            (DomainLine::Close, DomainLine::Close) => true,
            _ => false,
        }
    }
}

impl Alike for DomainText {
    fn alike(&self, other: &DomainText) -> bool {
        self.lines.alike(&other.lines)
    }
}
