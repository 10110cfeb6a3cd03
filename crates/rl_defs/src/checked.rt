//! Domains that keep the rules of domain code, with what their names stand for.
ghost use Rattle.std.specs.Prelude.{◌≡◌, ℕ, ◌<◌, length, slice_get, Some};
ghost use Rattle.rl_defs.specs.declared.code.DomainLine.TheVariants as line;
ghost use Rattle.rl_defs.specs.declared.code.Instr.{Instr as AnInstr};
ghost use Rattle.rl_defs.specs.CodeRules.{KeepsRules};
ghost use Rattle.rl_defs.specs.LineRows.{Names, LeadsHere, LeadsToLabel};
ghost use Rattle.rl_defs.specs.CodeNames.{entry_at};
ghost use Rattle.rl_defs.specs.Checked.{IsChecked};

use crate::bundle::Numbered;
use crate::code::{DomainLine, DomainText, Register};
use crate::tables::{SharedTables, Tables};
use std::marker::Model;

/// Where control goes on: at a line that is no head, where some registers are emptied by the heads
/// before it. They stand from one place up to another one in a list that the lines of a domain
/// share.
#[derive(Clone, Copy, Debug)]
pub struct Way {
    pub line: u32,
    pub from: u32,
    pub to: u32,
}

/// What is kept beside a line: found once, so that no step of a run looks a name up.
#[derive(Clone, Copy, Debug)]
pub struct LineRow {
    /// The struct, slot, import or method that the line names, by its number. A `ret` names the
    /// method of its function.
    pub number: u32,
    /// The trait of the interface that the line calls, or of the domain that returns, or the struct
    /// of the object whose cell is set.
    pub of: u32,
    /// The place of the head of the label that the line names.
    pub label: u32,
    /// Where control goes on that comes to this line from the line before it.
    pub here: Way,
    /// Where control goes on that goes to the label.
    pub jump: Way,
}

/// A domain that keeps the rules. Contracts see its lines, and the tables that its names are looked
/// up in.
#[derive(Debug, Drop)]
pub struct CheckedDomain {
    text: DomainText,
    tables: SharedTables,
    rows: Vec<LineRow>,
    emptied: Vec<Register>,
    entries: Vec<u32>,
}

impl Model for CheckedDomain {
    ghost use Rattle.rl_defs.specs.DomainValue.{Domain};

    ghost Value = { Domain };

    ghost use Rattle.rl_defs.specs.Checked.{IsChecked as Keeps};

    ghost view = { λ d. record { lines = d.text.lines; tables = d.tables } };

    ghost invariant = { λ d. Keeps (record { lines = d.text.lines; tables = d.tables })
        d.rows.items d.emptied.items d.entries.items };
}

impl CheckedDomain {
    /// The domain of a text that keeps the rules with these tables. Beside it are kept a row for
    /// each line; the registers that heads empty, of which the rows name parts; and the place of
    /// the first line of the function for each method of its trait.
    pub fn new(
        text: DomainText,
        tables: SharedTables,
        rows: Vec<LineRow>,
        emptied: Vec<Register>,
        entries: Vec<u32>,
    ) -> CheckedDomain
        requires { IsChecked (record { lines = text.lines; tables = tables }) rows.items emptied.items entries.items }
        ensures { result ≡ record { lines = text.lines; tables = tables } }
    {
        CheckedDomain {
            text,
            tables,
            rows,
            emptied,
            entries,
        }
    }

    /// The lines.
    pub fn lines(&self) -> &[Numbered<DomainLine>]
        ensures value { result.now ≡ self.now.lines }
        ensures keeps { KeepsRules self.now }
    {
        self.text.lines.as_slice()
    }

    /// The tables that its names are looked up in.
    pub fn tables(&self) -> &Tables
        ensures { result.now ≡ self.now.tables }
    {
        self.tables.get()
    }

    /// What an instruction names.
    pub fn row(&self, place: usize) -> LineRow
        requires { place < length self.now.lines }
        ensures { (k : ℕ) (i : AnInstr)
            → slice_get self.now.lines place ≡ Some (record { line = k; form = line.Code i })
            → Names self.now place i result.number result.of result.label }
    {
        self.rows[place]
    }

    /// Where control stands that comes to a line from the line before it, and the registers that
    /// are emptied on the way.
    pub fn here(&self, place: usize) -> (u32, &[Register])
        requires { place < length self.now.lines }
        ensures { LeadsHere self.now place result.0 result.1.now }
    {
        let way = self.rows[place].here;
        (way.line, &self.emptied[way.from as usize..way.to as usize])
    }

    /// Where control stands that goes to the label of an instruction, and the registers that are
    /// emptied on the way.
    pub fn jump(&self, place: usize) -> (u32, &[Register])
        requires { place < length self.now.lines }
        ensures { (k : ℕ) (i : AnInstr)
            → slice_get self.now.lines place ≡ Some (record { line = k; form = line.Code i })
            → LeadsToLabel self.now place i result.0 result.1.now }
    {
        let way = self.rows[place].jump;
        (way.line, &self.emptied[way.from as usize..way.to as usize])
    }

    /// The place of the first line of the function for a method of the domain's trait, by the
    /// method's number.
    pub fn entry(&self, method: usize) -> u32
        ensures { (place : ℕ) → entry_at self.now method ≡ Some place → result ≡ place }
    {
        match self.entries.get(method) {
            Some(place) => *place,
            None => 0,
        }
    }
}
