//! Reads a bundle and what a run of it printed, and prints the history and the replies once more,
//! from the entries that its lines are. A line that is no entry is printed first, behind `no entry:
//! `.
#![tactic(auto)]

ghost use Rattle.std.specs.Prelude.{◌<◌, ◌≤◌, length};
ghost use Rattle.machine_defs.specs.EntryTexts.{HasWords};

use domain_loader::load::load;
use history_text::{Spellings, read_entry, write_log, write_replies};
use machine_defs::log::Log;
use rl_defs::LoadFault;
use rl_defs::load::Load;
use rl_io::{StdSink, StdSource, read_whole, write_whole};
use std::alloc::{AllocError, Global};
use std::process::ExitCode;
use text_laws::accepted_loads_have_words;

/// No bundle is longer.
const LONGEST: usize = 1_048_576;

fn main(rt: HostRuntime) -> ExitCode {
    let mut source = StdSource::new(rt.stdin());
    let Ok(bytes) = read_whole(rt.alloc(), &mut source, LONGEST) else {
        return ExitCode::from(3);
    };
    let text = match told_again(rt.alloc(), &bytes) {
        Ok(text) => text,
        Err(LoadFault::Refused(_)) => return ExitCode::from(1),
        Err(LoadFault::Memory) => return ExitCode::from(5),
    };
    match write_whole(&mut StdSink::new(rt.stdout()), &text) {
        Ok(()) => ExitCode::SUCCESS,
        Err(_) => ExitCode::from(4),
    }
}

/// How many bytes a text has up to its first line `history`, that line too.
fn bundle_len(text: &[u8]) -> usize
    ensures { result ≤ length text.now }
{
    let mut at = 0;
    'lines: while at < text.len() {
        let line = first_line(&text[at..]);
        at += line.len();
        if line == b"history\n".as_slice() {
            return at;
        }
    }
    text.len()
}

/// The first line of a text, with its line feed.
fn first_line(text: &[u8]) -> &[u8]
    requires { 0 < length text.now }
    ensures some { 0 < length result.now }
    ensures within { length result.now ≤ length text.now }
{
    let len = text.iter().take_while(|byte| **byte != b'\n').count();
    if len < text.len() {
        return &text[..len + 1];
    }
    text
}

/// The history and the replies once more.
fn told_again(alloc: Global, text: &[u8]) -> Result<Vec<u8>, LoadFault>
    requires { length text.now ≤ LONGEST }
{
    let len = bundle_len(text);
    let bundle = &text[..len.saturating_sub(8)];
    let load = match load(alloc, bundle) {
        Ok(load) => load,
        Err(fault) => return Err(fault),
    };
    accepted_loads_have_words();
    let text = told(alloc, &load, &text[len..])?;
    Ok(text)
}

/// The lines that are no entries, and the history and the replies that the others tell.
fn told(alloc: Global, load: &Load, lines: &[u8]) -> Result<Vec<u8>, AllocError>
    requires { HasWords load.now }
{
    let spellings = Spellings::new(alloc, load)?;
    let mut out = Vec::new(alloc);
    let mut log = Log::new(alloc);
    read_lines(alloc, &spellings, &mut out, &mut log, lines)?;
    out.extend_from_slice(b"history\n")?;
    write_log(&spellings, &mut out, &log)?;
    out.extend_from_slice(b"replies\n")?;
    write_replies(alloc, &spellings, &mut out, &log)?;
    Ok(out)
}

/// Puts the entries that lines are into the log, and the other lines into the text.
fn read_lines(
    alloc: Global,
    spellings: &Spellings,
    out: &mut Vec<u8>,
    log: &mut Log,
    lines: &[u8],
) -> Result<(), AllocError>
    requires { HasWords spellings.now }
{
    let mut at = 0;
    'lines: while at < lines.len() {
        let line = first_line(&lines[at..]);
        at += line.len();
        read_line(alloc, spellings, out, log, line)?;
    }
    Ok(())
}

/// Puts the entry that a line is into the log, and a line that is none into the text, behind `no
/// entry: `.
fn read_line(
    alloc: Global,
    spellings: &Spellings,
    out: &mut Vec<u8>,
    log: &mut Log,
    line: &[u8],
) -> Result<(), AllocError>
    requires { HasWords spellings.now }
{
    match read_entry(alloc, spellings, line)? {
        Some(entry) => {
            log.reserve(1)?;
            log.put(entry);
            Ok(())
        }
        None => {
            out.extend_from_slice(b"no entry: ")?;
            out.extend_from_slice(line)
        }
    }
}
