//! The clients, one after the other.
ghost use Rattle.std.specs.Prelude.{◌≡◌};
ghost use Rattle.rl_defs.specs.BundleNames.{commands_at, ends_client};
ghost use Rattle.script_checker.specs.Verdicts.{verdict_of, rows_of, Says};

use crate::scope::Scope;
use crate::script::check_script;
use rl_defs::LoadFault;
use rl_defs::bundle::{ClientLine, Numbered};
use rl_defs::list::List;
use rl_defs::load::ClientRow;
use std::alloc::Global;

fn ends_client(form: &ClientLine) -> bool
    ensures { result ≡ ends_client form.now }
{
    matches!(form, ClientLine::Close)
}

// The lines up to the end of a client.
fn commands_at(lines: &[Numbered<ClientLine>]) -> &[Numbered<ClientLine>]
    ensures { result.now ≡ commands_at lines.now }
{
    'each: for place in 0..lines.len() {
        if ends_client(&lines[place].form) {
            return &lines[..place];
        }
    }
    lines
}

/// The rows of the clients, each with the commands of its script, or the first refusal.
pub fn rows_of(alloc: Global, scope: &Scope) -> Result<List<ClientRow>, LoadFault>
    ensures { Says (verdict_of scope.now.tables scope.now.bundle scope.now.bundle.clients.lines)
        (λ rows. rows ≡ rows_of scope.now.tables scope.now.bundle scope.now.bundle.clients.lines) result }
{
    let lines = scope.lines();
    let mut rows = List::new(alloc);
    'each: for place in 0..lines.len() {
        if let ClientLine::Client(name) = &lines[place].form {
            let commands = check_script(alloc, scope, commands_at(&lines[place + 1..]))?;
            let row = ClientRow {
                name: *name,
                commands,
            };
            rows.push(row)?;
        }
    }
    Ok(rows)
}
