//! `gd_drive`: serves a drive over HTTP on this machine.
#![tactic(auto)]

mod listening;
mod status;

use gd_words::{Asked, read_words};
use listening::listen;
use status::Status;
use std::io::ErrorKind;
use std::process::ExitCode;
use std::{env, io};

/// What is said of a word that is no text.
const NO_TEXT: &str = "error: a word is not UTF-8\n\nFor more information, try '--help'.\n";

/// The words after the program's name.
fn words(rt: &HostRuntime) -> io::Result<Vec<String>> {
    let mut words = Vec::new(rt.alloc());
    for word in env::args(rt)?.skip(1) {
        words.push(word)?;
    }
    Ok(words)
}

/// What the words ask for, or how the program ends where they cannot be read.
fn asked(rt: &HostRuntime) -> Result<Asked, Status> {
    let words = match words(rt) {
        Ok(words) => words,
        Err(error) => return Err(refuse(rt, &error)),
    };
    match read_words(rt.alloc(), words.as_slice()) {
        Ok(asked) => Ok(asked),
        Err(_) => Err(Status::Memory),
    }
}

/// Words that cannot be had: memory was wanting, or one of them is no text.
fn refuse(rt: &HostRuntime, error: &io::Error) -> Status {
    if error.kind() == ErrorKind::OutOfMemory {
        return Status::Memory;
    }
    let _ = rt.eprint(NO_TEXT);
    Status::Usage
}

/// Says on standard error what kept the program from going on, unless it was said already.
fn explain(rt: &HostRuntime, status: Status) {
    let line = match status {
        Status::AcceptFault => "error: no more connections can be accepted\n",
        Status::Memory => "error: memory ran out\n",
        Status::Done | Status::Usage | Status::PortFault => return,
    };
    let _ = rt.eprint(line);
}

fn main(rt: HostRuntime) -> ExitCode {
    let status = match asked(&rt) {
        Ok(Asked::Serve(serving)) => listen(&rt, rt.alloc(), serving),
        Ok(Asked::Told(text)) => {
            let _ = rt.print(text.as_str());
            Status::Done
        }
        Ok(Asked::Refused(text)) => {
            let _ = rt.eprint(text.as_str());
            Status::Usage
        }
        Err(status) => status,
    };
    explain(&rt, status);
    ExitCode::from(status.number())
}
