//! The program: it formats the bundle on standard input to standard output.
#![tactic(auto)]

use bundle_format::{Status, format_calm};
use rl_io::{StdSink, StdSource};
use std::io::Write;
use std::process::ExitCode;
use std::{env, io};

const HELP: &[u8] = b"redleaf_fmt < OLD > NEW

Reads a bundle from standard input, and writes it to standard output in its
canonical spelling: blanks, indentation, `pub`, commas and decimal numbers.
Each line stays at its place and keeps its comment. A line without code keeps
its comment in its column, and loses blanks at its end.

What is written is accepted exactly where the bundle is, with the same load,
and otherwise refused at the same line by the same rule.

Exit status: 0 written; 1 rule 1 or 2 refuses the bundle, as printed; 2 there
are other words; 3 a read failed; 4 a write failed; 5 out of memory; 7 more
than 1,048,576 bytes came; 8 a line or the bundle would be too long.
";

fn main(rt: HostRuntime) -> ExitCode {
    let args = match env::args(&rt) {
        Ok(args) => args,
        Err(fault) if fault.kind() == io::ErrorKind::OutOfMemory => return ended(
            &rt,
            Status::Memory,
        ),
        Err(_) => return ended(&rt, Status::Usage),
    };
    let Ok(words) = args.skip(1).collect::<Vec<String>>(rt.alloc()) else {
        return ended(&rt, Status::Memory);
    };
    if asks_for_help(&words) {
        return help(&rt);
    }
    let mut source = StdSource::new(rt.stdin());
    let mut sink = StdSink::new(rt.stdout());
    let status = format_calm(rt.alloc(), &words, &mut source, &mut sink);
    ended(&rt, status)
}

// Whether the one word is `--help`.
fn asks_for_help(words: &[String]) -> bool {
    match words {
        [only] => only.as_str() == "--help",
        _ => false,
    }
}

fn help(rt: &HostRuntime) -> ExitCode {
    match rt.stdout().write_all(HELP) {
        Ok(()) => ExitCode::SUCCESS,
        Err(_) => ended(rt, Status::WriteFault),
    }
}

// What is told on standard error of a way to end.
fn told(status: Status) -> Option<&'static [u8]> {
    match status {
        Status::Done | Status::Refused => None,
        Status::Usage => Some(
            b"redleaf_fmt: no words are wanted but --help; the bundle comes from standard input\n",
        ),
        Status::ReadFault => Some(b"redleaf_fmt: standard input could not be read\n"),
        Status::WriteFault => Some(b"redleaf_fmt: standard output could not be written\n"),
        Status::Memory => Some(b"redleaf_fmt: out of memory\n"),
        Status::TooLong => Some(b"redleaf_fmt: a bundle has at most 1048576 bytes\n"),
        Status::TooWide => Some(
            b"redleaf_fmt: as it would be written, a line has more than 2048 bytes or the bundle more than 1048576\n",
        ),
    }
}

// The exit status of a way to end, and a line on standard error where something is to be told of
// it.
fn ended(rt: &HostRuntime, status: Status) -> ExitCode {
    if let Some(text) = told(status) {
        let _ = rt.stderr().write_all(text);
    }
    ExitCode::from(status.exit_status())
}
