//! The program `distal`. In: words and the standard input. Out: the answer on the standard output, and the exit status that
//! belongs to the top call's answer.
#![tactic(auto)]

ghost use Rattle.std.specs.Prelude.{◌≡◌};
ghost use Rattle.distal.specs.Exit.{exit_code};

use dt_io::{StdSink, StdSource};
use dt_run::{Status, distal};
use std::env;
use std::io::{Error, ErrorKind};
use std::process::ExitCode;

fn main(rt: HostRuntime) -> ExitCode {
    let status = match words(&rt) {
        Ok(words) => {
            let mut input = StdSource::new(rt.stdin());
            let mut out = StdSink::new(rt.stdout());
            distal(rt.alloc(), words.as_slice(), &mut input, &mut out)
        }
        Err(status) => status,
    };
    ExitCode::from(code(status))
}

/// The words after the program's name. Words that can't be read as text are BadWords.
fn words(rt: &HostRuntime) -> Result<Vec<String>, Status> {
    let all = match env::args(rt) {
        Ok(all) => all,
        Err(error) => return Err(words_end(&error)),
    };
    let mut words = Vec::new(rt.alloc());
    for word in all.skip(1) {
        if words.push(word).is_err() {
            return Err(Status::NoMemory);
        }
    }
    Ok(words)
}

fn words_end(error: &Error) -> Status {
    if error.kind() == ErrorKind::OutOfMemory {
        Status::NoMemory
    } else {
        Status::BadWords
    }
}

/// The exit status.
fn code(status: Status) -> u8
    ensures { result ≡ exit_code status }
{
    match status {
        Status::Done => 0,
        Status::BadWords => 1,
        Status::Refused => 2,
        Status::ReadFault => 3,
        Status::WriteFault => 4,
        Status::NoMemory => 9,
    }
}
