//! The program: reads its words, and executes the lines that they and the input give on the machine (pfctl(8)).
//! It stands on pf_engine, which does a step for each line, on pf_words (its words), pf_runs (what a run over lines is),
//! pf_source (files, input and output) and pf_gen (the generated run). The contract of `program::run` says what is
//! written; `main` makes the real files, input and output, and hands on the status.
#![tactic(auto)]

ghost use Rattle.std.specs.Prelude.{◌≡◌};
ghost use Rattle.std.specs.IoError.{error_kind};
ghost use Rattle.pfctl.specs.Program.{unread_words};

mod generating;
mod laws;
mod opening;
mod program;
mod session;
#[cfg(test)]
mod tests;

use pf_source::{RealFiles, RealSink, RealSource};
use program::{Status, run};
use std::process::ExitCode;
use std::{env, io};

// The words behind the program's name, or the status where they can't be had: a word that is no text is none of
// the program's.
fn words_of(rt: &HostRuntime) -> Result<Vec<String>, Status> {
    let given = env::args(rt).map_err(status_of)?;
    let mut words = Vec::new(rt.alloc());
    for word in given.skip(1) {
        if words.push(word).is_err() {
            return Err(Status::NoMemory);
        }
    }
    Ok(words)
}

// The status where the words can't be had.
fn status_of(error: io::Error) -> Status
    ensures { result ≡ unread_words (error_kind error) }
{
    match error.kind() {
        io::ErrorKind::OutOfMemory => Status::NoMemory,
        _ => Status::Words,
    }
}

fn main(rt: HostRuntime) -> ExitCode {
    let words = match words_of(&rt) {
        Ok(words) => words,
        Err(status) => return ExitCode::from(status.exit_status()),
    };
    let mut files = RealFiles::new(&rt);
    let mut input = RealSource::new(rt.reader());
    let mut out = RealSink::new(io::writer(&rt));
    let status = run(
        rt.alloc(),
        words.as_slice(),
        &mut files,
        &mut input,
        &mut out,
    );
    ExitCode::from(status.exit_status())
}
