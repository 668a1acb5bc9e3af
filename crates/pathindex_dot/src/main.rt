//! The program `pathindex_dot`: it writes the picture of a graph or of an index for Graphviz.
#![tactic(auto)]

use any_index::full_engine;
use pathindex_run::{HostShelf, HostSink, break_reason};
use picture_run::{Status, run};
use px_base::Memory;
use std::env::Env;
use std::io::ErrorKind;
use std::process::ExitCode;
use std::rt::Files;
use std::{env, io};

/// The words after the program's name.
fn given_words(rt: &(impl Env + AllocGlobal)) -> io::Result<Vec<String>> {
    let words = env::args(rt)?.skip(1).collect(rt.alloc())?;
    Ok(words)
}

/// Tells on standard error why a run that began broke off, if it did. Where that can't be written, the status says it.
fn tell(rt: &impl Eprint, status: u8) {
    if let Some(reason) = break_reason(status) {
        let _ = eprintln!(rt; "pathindex_dot: {reason}");
    }
}

/// Writes the picture that the words ask for, over the real files and standard output. `Memory` comes only where there is none for
/// the list of the indexes, and then the run isn't begun.
fn run_words(rt: &(impl Files + Print + AllocGlobal), words: &[String]) -> Result<u8, Memory> {
    let mut engine = full_engine(rt.alloc())?;
    let mut shelf = HostShelf::new(rt);
    let mut sink = HostSink::new(rt);
    let status = run(rt.alloc(), words, &mut engine, &mut shelf, &mut sink);
    Ok(status)
}

fn main(rt: HostRuntime) -> ExitCode {
    let status = match given_words(&rt) {
        Ok(words) => match run_words(&rt, &words) {
            Ok(status) => {
                tell(&rt, status);
                status
            }
            Err(_) => Status::NoMemory as u8,
        },
        Err(error) if error.kind() == ErrorKind::OutOfMemory => Status::NoMemory as u8,
        Err(_) => Status::Usage as u8,
    };
    ExitCode::from(status)
}
