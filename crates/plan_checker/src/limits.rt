//! Rule 46 in the domains and in the clients.
ghost use Rattle.std.specs.Prelude.{◌≡◌, ℕ, ◌+◌, ◌^◌, ◌<◌, ◌≤◌, length};
ghost use Rattle.rl_defs.specs.Refusals.{Answers};
ghost use Rattle.rl_defs.specs.BundleNames.{slot_given, client_given};
ghost use Rattle.plan_checker.specs.LineScan.{LinesRise, FailsIn};
ghost use Rattle.plan_checker.specs.Limits.{is_over_in_domain, is_full, is_over_in_clients, commands_behind, AreFew, FailsDomainLine, FailsDomains, FailsClientLine, DomainsRise};

use rl_defs::LoadFault;
use rl_defs::bundle::{ClientLine, Numbered};
use rl_defs::checked::CheckedDomain;
use rl_defs::code::DomainLine;

/// The most words of a domain.
pub const MOST_WORDS: u64 = 4_096;
/// The most slots of a domain.
pub const MOST_SLOTS: usize = 64;
/// The most clients of a bundle.
pub const MOST_CLIENTS: usize = 16;
/// The most commands of a client.
pub const MOST_COMMANDS: usize = 1_000;

// Whether a line of a domain is too much, behind so many slots.
fn is_over_in_domain(slots: usize, form: &DomainLine) -> bool
    ensures { result ≡ is_over_in_domain slots form.now }
{
    match form {
        DomainLine::Words(words) => *words > MOST_WORDS,
        DomainLine::Slot(_, _) => slots >= MOST_SLOTS,
        _ => false,
    }
}

fn slots_behind(slots: usize, form: &DomainLine) -> usize
    requires { slots < 2 ^ 31 }
    ensures count { result ≡ slots + length (slot_given form.now) }
    ensures few { result ≤ slots + 1 }
{
    match form {
        DomainLine::Slot(_, _) => slots + 1,
        _ => slots,
    }
}

fn check_domain(lines: &[Numbered<DomainLine>]) -> Result<(), LoadFault>
    requires rises { LinesRise lines.now }
    requires few { length lines.now < 2 ^ 31 }
    ensures { Answers (FailsIn lines.now (FailsDomainLine lines.now)) (λ _. Unit {0}) result }
{
    let mut slots = 0;
    'lines: for line in lines {
        if is_over_in_domain(slots, &line.form) {
            return Err(LoadFault::refused(line.line, 46));
        }
        slots = slots_behind(slots, &line.form);
    }
    Ok(())
}

/// Checks that no domain has more words or slots than it may have.
pub fn check_domains(domains: &[CheckedDomain]) -> Result<(), LoadFault>
    requires { DomainsRise domains.now }
    ensures { Answers (FailsDomains domains.now) (λ _. Unit {0}) result }
{
    'domains: for domain in domains {
        check_domain(domain.lines())?;
    }
    Ok(())
}

fn is_full(commands: Option<usize>) -> bool
    ensures { result ≡ is_full commands }
{
    match commands {
        Some(count) => count >= MOST_COMMANDS,
        None => false,
    }
}

// Whether a line of the clients is too much, behind so many clients, and so many commands of its
// client.
fn is_over_in_clients(clients: usize, commands: Option<usize>, form: &ClientLine) -> bool
    ensures { result ≡ is_over_in_clients clients commands form.now }
{
    match form {
        ClientLine::Client(_) => clients >= MOST_CLIENTS || is_full(commands),
        ClientLine::Close => false,
        _ => is_full(commands),
    }
}

// How many commands of a client stand before the next line, None outside of a client.
fn commands_behind(commands: Option<usize>, form: &ClientLine) -> Option<usize>
    requires { AreFew commands }
    ensures { result ≡ commands_behind commands form.now }
{
    match form {
        ClientLine::Close => None,
        ClientLine::Client(_) => match commands {
            Some(count) => Some(count + 1),
            None => Some(0),
        },
        _ => match commands {
            Some(count) => Some(count + 1),
            None => None,
        },
    }
}

fn clients_behind(clients: usize, form: &ClientLine) -> usize
    requires { clients < 2 ^ 31 }
    ensures count { result ≡ clients + length (client_given form.now) }
    ensures few { result ≤ clients + 1 }
{
    match form {
        ClientLine::Client(_) => clients + 1,
        _ => clients,
    }
}

/// Checks that there are no more clients, and no more commands of a client, than there may be.
pub fn check_clients(lines: &[Numbered<ClientLine>]) -> Result<(), LoadFault>
    requires rises { LinesRise lines.now }
    requires few { length lines.now < 2 ^ 31 }
    ensures { Answers (FailsIn lines.now (FailsClientLine lines.now)) (λ _. Unit {0}) result }
{
    let mut clients = 0;
    let mut commands = None;
    'lines: for line in lines {
        if is_over_in_clients(clients, commands, &line.form) {
            return Err(LoadFault::refused(line.line, 46));
        }
        clients = clients_behind(clients, &line.form);
        commands = commands_behind(commands, &line.form);
    }
    Ok(())
}
