//! The program `jpath`: it runs a JSONPath query on the JSON on standard input, and prints what the query selects, or what is left
//! when that is deleted. `words` reads the command line, `run` does the work, `document` has what is asked, `output` prints what is
//! selected, `deletion` what is left, and `fault` has how a run ends.
#![tactic(auto)]

mod deletion;
mod document;
mod fault;
mod output;
mod run;
#[cfg(test)]
mod tests;
mod words;

use crate::fault::Fault;
use crate::run::run;
use std::env::{Env, FillError};
use std::io::ErrorKind;
use std::process::ExitCode;
use std::{env, io};

/// The command line behind the program's name. That name is never read, so it may be no text.
#[derive(Drop)]
struct Behind<'a>(&'a HostRuntime);

impl Env for Behind<'_> {
    fn arg(&self, i: usize, buf: &mut [u8]) -> Result<usize, FillError> {
        match i.checked_add(1) {
            Some(place) => self.0.arg(place, buf),
            None => Err(FillError::NotPresent),
        }
    }

    fn var(&self, name: &str, buf: &mut [u8]) -> Result<usize, FillError> {
        self.0.var(name, buf)
    }

    fn var_at(&self, i: usize, buf: &mut [u8]) -> Result<usize, FillError> {
        self.0.var_at(i, buf)
    }
}

/// Runs with the words of the command line and the standard streams.
fn run_with(rt: &HostRuntime) -> Result<(), Fault> {
    let words = words_of(rt)?;
    run(
        rt.alloc(),
        words.as_slice(),
        &mut rt.reader(),
        &mut io::writer(rt),
    )
}

/// The words behind the program's name. Words that are no text are no command and query.
fn words_of(rt: &HostRuntime) -> Result<Vec<String>, Fault> {
    let all = match env::args(&(Behind(rt), rt.alloc())) {
        Ok(all) => all,
        Err(e) => return Err(if e.kind() == ErrorKind::OutOfMemory {
            Fault::Memory
        } else {
            Fault::Usage
        }),
    };
    let mut words = Vec::new(rt.alloc());
    for word in all {
        words.push(word)?;
    }
    Ok(words)
}

fn main(rt: HostRuntime) -> ExitCode {
    match run_with(&rt) {
        Ok(()) => ExitCode::from(0),
        Err(fault) => {
            let _ = eprintln!(rt; "{fault}");
            ExitCode::from(fault.status())
        }
    }
}
