//! The program: it serves the words of its command line from standard input to standard output, and
//! tells on standard error why a bundle is refused, and what was in the way of any other call that
//! wasn't done.
#![tactic(auto)]

mod ends;

use crate::ends::told;
use heads_command::{heads_of, redleaf_heads};
use redleaf_app::{LONGEST_BUNDLE, Status, redleaf_calm, refusal_in};
use refusal_notes::keeping::{KeepingSink, KeepingSource};
use refusal_notes::note::note;
use rl_io::{StdSink, StdSource};
use std::io::Write;
use std::process::ExitCode;
use std::{env, io};

// No refusal is longer.
const LONGEST_REFUSAL: usize = 64;

fn main(rt: HostRuntime) -> ExitCode {
    let status = match words_of(&rt) {
        Ok(words) => match heads_of(&words) {
            Some(n) => redleaf_heads(&rt, rt.alloc(), n, &mut StdSink::new(rt.stdout())),
            None => serve(&rt, &words),
        },
        Err(status) => status,
    };
    if let Some(line) = told(status) {
        let _ = rt.stderr().write_all(line.as_bytes());
    }
    ExitCode::from(status.exit_status())
}

/// The words after the program's name. Words that aren't UTF-8 are wrong words.
fn words_of(rt: &HostRuntime) -> Result<Vec<String>, Status> {
    let args = match env::args(rt) {
        Ok(args) => args,
        Err(fault) if fault.kind() == io::ErrorKind::OutOfMemory => return Err(Status::Memory),
        Err(_) => return Err(Status::Usage),
    };
    args.skip(1)
        .collect::<Vec<String>>(rt.alloc())
        .map_err(|_| Status::Memory)
}

/// Serves the words of a command that waits for nobody.
fn serve(rt: &HostRuntime, words: &[String]) -> Status {
    let mut source = KeepingSource::new(rt.alloc(), StdSource::new(rt.stdin()), LONGEST_BUNDLE);
    let mut sink = KeepingSink::new(rt.alloc(), StdSink::new(rt.stdout()), LONGEST_REFUSAL);
    let status = redleaf_calm(rt.alloc(), words, &mut source, &mut sink);
    if status == Status::Refused {
        explain(rt, source.kept(), sink.kept());
    }
    status
}

/// Tells on standard error what was refused, by the bundle and by what was printed. Where that
/// can't be told, nothing is.
fn explain(rt: &HostRuntime, bundle: Option<&[u8]>, printed: Option<&[u8]>) {
    let Some(printed) = printed else {
        return;
    };
    let Some(at) = refusal_in(printed) else {
        return;
    };
    let bundle = match bundle {
        Some(bytes) if bytes.len() <= LONGEST_BUNDLE => Some(bytes),
        _ => None,
    };
    if let Ok(text) = note(rt.alloc(), at, bundle) {
        let _ = rt.stderr().write_all(&text);
    }
}
