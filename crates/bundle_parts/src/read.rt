//! Reading a bundle.
ghost use Rattle.std.specs.Prelude.{◌≡◌, ℕ, ◌≤◌, List, map, length, IfOk};
ghost use Rattle.rl_defs.specs.Lines.{lines_of};
ghost use Rattle.rl_defs.specs.Refusals.{Answers};
ghost use Rattle.rl_defs.specs.BundleParts.{FailsForms, IsBundle};
ghost use Rattle.rl_defs.specs.BundleOrder.{IsOrdered};
ghost use Rattle.rl_text.specs.Places.{text_of, AreNumbered};
ghost use Rattle.bundle_parts.specs.Cuts.{IsReached};
ghost use Rattle.bundle_parts.specs.Parts.{ReadsIdl, ReadsDomains, ReadsPlan, ReadsClients};

use crate::cut::{At, first_header, part};
use crate::header::Header;
use bundle_syntax::{read_clients, read_plan};
use domain_code::read_domains;
use idl_syntax::read_idl;
use rl_defs::LoadFault;
use rl_defs::bundle::{Bundle, Clients, Plan};
use rl_defs::code::DomainText;
use rl_defs::idl::Idl;
use rl_defs::list::List;
use rl_text::lexeme::Lexeme;
use rl_text::line::Line;
use std::alloc::Global;

// The interface part, if its header stands next.
fn take_interfaces(
    alloc: Global,
    buffer: &mut Vec<Lexeme>,
    bytes: &[u8],
    lines: &[Line],
    at: &mut At,
) -> Result<Idl, LoadFault>
    requires numbered { AreNumbered bytes.now 1 lines.now }
    requires few { length lines.now ≤ 1048576 }
    requires reached { IsReached (map (text_of bytes.now) lines.now) 0 at.old }
    ensures { ReadsIdl (map (text_of bytes.now) lines.now) at.old at.new result }
{
    let inside = part(buffer, bytes, lines, at, Header::Interfaces)?;
    read_idl(alloc, bytes, inside)
}

// The domains, if their header stands next.
fn take_domains(
    alloc: Global,
    buffer: &mut Vec<Lexeme>,
    bytes: &[u8],
    lines: &[Line],
    at: &mut At,
) -> Result<List<DomainText>, LoadFault>
    requires numbered { AreNumbered bytes.now 1 lines.now }
    requires few { length lines.now ≤ 1048576 }
    requires reached { IsReached (map (text_of bytes.now) lines.now) 1 at.old }
    ensures { ReadsDomains (map (text_of bytes.now) lines.now) at.old at.new result }
{
    let inside = part(buffer, bytes, lines, at, Header::Domains)?;
    read_domains(alloc, bytes, inside)
}

// The plan, if its header stands next.
fn take_plan(
    alloc: Global,
    buffer: &mut Vec<Lexeme>,
    bytes: &[u8],
    lines: &[Line],
    at: &mut At,
) -> Result<Plan, LoadFault>
    requires numbered { AreNumbered bytes.now 1 lines.now }
    requires few { length lines.now ≤ 1048576 }
    requires reached { IsReached (map (text_of bytes.now) lines.now) 2 at.old }
    ensures { ReadsPlan (map (text_of bytes.now) lines.now) at.old at.new result }
{
    let inside = part(buffer, bytes, lines, at, Header::Plan)?;
    read_plan(alloc, bytes, inside)
}

// The clients, if their header stands next.
fn take_clients(
    alloc: Global,
    buffer: &mut Vec<Lexeme>,
    bytes: &[u8],
    lines: &[Line],
    at: &mut At,
) -> Result<Clients, LoadFault>
    requires numbered { AreNumbered bytes.now 1 lines.now }
    requires few { length lines.now ≤ 1048576 }
    requires reached { IsReached (map (text_of bytes.now) lines.now) 3 at.old }
    ensures { ReadsClients (map (text_of bytes.now) lines.now) at.old at.new result }
{
    let inside = part(buffer, bytes, lines, at, Header::Clients)?;
    read_clients(alloc, bytes, inside)
}

/// The bundle that a text is, by its lines. A part that is missing has no lines. It is refused at
/// the first line at which rule 1 or 2 fails, by the lower of them: in a part as the part's reader
/// says; before the first header where a line has tokens, or can have none; and at a header that
/// stands behind itself or behind one that it should stand before.
pub fn read_bundle(alloc: Global, bytes: &[u8], lines: &[Line]) -> Result<Bundle, LoadFault>
    requires texts { map (text_of bytes.now) lines.now ≡ lines_of bytes.now }
    requires numbered { AreNumbered bytes.now 1 lines.now }
    requires few { length lines.now ≤ 1048576 }
    ensures reads { Answers (FailsForms (lines_of bytes.now)) (IsBundle (lines_of bytes.now)) result }
    ensures ordered { IfOk result (λ b. IsOrdered b) }
{
    let mut buffer = Vec::new(alloc);
    let mut at = first_header(&mut buffer, bytes, lines)?;
    let idl = take_interfaces(alloc, &mut buffer, bytes, lines, &mut at)?;
    let domains = take_domains(alloc, &mut buffer, bytes, lines, &mut at)?;
    let plan = take_plan(alloc, &mut buffer, bytes, lines, &mut at)?;
    let clients = take_clients(alloc, &mut buffer, bytes, lines, &mut at)?;
    match at.header {
        Some(_) => Err(LoadFault::refused(lines[at.place].number, 2)),
        None => Ok(Bundle {
            idl,
            domains,
            plan,
            clients,
        }),
    }
}
