//! Whether two lines of the plan or of the clients, or two bundles, are one.
use crate::alike::Alike;
use rl_defs::bundle::{Bundle, ClientLine, Clients, Numbered, Plan, PlanLine, ScriptArgText};
use rl_defs::idl::Idl;

impl<F: Alike + Drop> Alike for Numbered<F> {
    fn alike(&self, other: &Numbered<F>) -> bool {
        self.line == other.line && self.form.alike(&other.form)
    }
}

impl Alike for PlanLine {
    fn alike(&self, other: &PlanLine) -> bool {
        match (self, other) {
            (PlanLine::Load { name: a, domain: c }, PlanLine::Load { name: b, domain: d }) => {
                a.alike(b) && c.alike(d)
            }
            (
                PlanLine::Bind {
                    load: a,
                    import: c,
                    target: e,
                },
                PlanLine::Bind {
                    load: b,
                    import: d,
                    target: f,
                },
            ) => a.alike(b) && c.alike(d) && e.alike(f),
            (
                PlanLine::Shadow {
                    name: a,
                    load: c,
                    restarts: n,
                },
                PlanLine::Shadow {
                    name: b,
                    load: d,
                    restarts: m,
                },
            ) => a.alike(b) && c.alike(d) && n.alike(m),
            (PlanLine::Device { load: a, blocks: n }, PlanLine::Device { load: b, blocks: m }) =>
                a.alike(b) && n.alike(m),
            (PlanLine::Serial(a), PlanLine::Serial(b)) => a.alike(b),
            (PlanLine::Fuel(a), PlanLine::Fuel(b)) => a.alike(b),
            (PlanLine::Order(a), PlanLine::Order(b)) => a.alike(b),
            _ => false,
        }
    }
}

impl Alike for ScriptArgText {
    fn alike(&self, other: &ScriptArgText) -> bool {
        match (self, other) {
            (ScriptArgText::Num(a), ScriptArgText::Num(b)) => a.alike(b),
            (ScriptArgText::Name(a), ScriptArgText::Name(b)) => a.alike(b),
            (ScriptArgText::Lent(a), ScriptArgText::Lent(b)) => a.alike(b),
            (ScriptArgText::Target(a), ScriptArgText::Target(b)) => a.alike(b),
            _ => false,
        }
    }
}

impl Alike for ClientLine {
    fn alike(&self, other: &ClientLine) -> bool {
        match (self, other) {
            (ClientLine::Client(a), ClientLine::Client(b)) => a.alike(b),
            (
                ClientLine::Let {
                    name: a,
                    ty: c,
                    values: e,
                },
                ClientLine::Let {
                    name: b,
                    ty: d,
                    values: f,
                },
            ) => a.alike(b) && c.alike(d) && e.alike(f),
            (
                ClientLine::Text {
                    name: a,
                    ty: c,
                    bytes: e,
                },
                ClientLine::Text {
                    name: b,
                    ty: d,
                    bytes: f,
                },
            ) => a.alike(b) && c.alike(d) && e.alike(f),
            (
                ClientLine::Call {
                    target: a,
                    method: c,
                    args: e,
                    names: g,
                },
                ClientLine::Call {
                    target: b,
                    method: d,
                    args: f,
                    names: h,
                },
            ) => a.alike(b) && c.alike(d) && e.alike(f) && g.alike(h),
            (ClientLine::Show(a), ClientLine::Show(b)) => a.alike(b),
            (ClientLine::Drop(a), ClientLine::Drop(b)) => a.alike(b),
            (ClientLine::Kill(a), ClientLine::Kill(b)) => a.alike(b),
            (ClientLine::Close, ClientLine::Close) => true,
            _ => false,
        }
    }
}

impl Alike for Idl {
    fn alike(&self, other: &Idl) -> bool {
        self.lines.alike(&other.lines)
    }
}

impl Alike for Plan {
    fn alike(&self, other: &Plan) -> bool {
        self.lines.alike(&other.lines)
    }
}

impl Alike for Clients {
    fn alike(&self, other: &Clients) -> bool {
        self.lines.alike(&other.lines)
    }
}

impl Alike for Bundle {
    fn alike(&self, other: &Bundle) -> bool {
        self.idl.alike(&other.idl)
            && self.domains.alike(&other.domains)
            && self.plan.alike(&other.plan)
            && self.clients.alike(&other.clients)
    }
}
