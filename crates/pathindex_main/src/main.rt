//! The program `pathindex`: it carries out a script over a graph, as its words ask for.
#![tactic(auto)]

ghost use Rattle.std.specs.Prelude.{◌≡◌, [], ◌∷◌};
ghost use Rattle.pathindex_core.specs.Engines.{IsSound, by_meaning};
ghost use Rattle.pathindex_core.specs.EngineTerms.{IsUnopened, engine_kinds};

use ak_maintain::AkIndex;
use fb_index::FbIndex;
use fbk_index::FbkIndex;
use index_api::{Kind, PathIndex};
use one_maintain::OneKept;
use pathindex_core::Engine;
use pathindex_run::{HostShelf, HostSink, Status, break_reason, run};
use px_base::Memory;
use std::env::Env;
use std::io::ErrorKind;
use std::process::ExitCode;
use std::rt::Files;
use std::{env, io};

/// The words after the program's name.
fn words(rt: &(impl Env + AllocGlobal)) -> io::Result<Vec<String>> {
    let words = env::args(rt)?.skip(1).collect(rt.alloc())?;
    Ok(words)
}

/// Tells on standard error why a run that began broke off, if it did. Where that can't be written, the status says it.
fn tell(rt: &impl Eprint, status: u8) {
    if let Some(reason) = break_reason(status) {
        let _ = eprintln!(rt; "pathindex: {reason}");
    }
}

/// Carries out what the words ask for, over the real files and standard output, on an engine with an index of each
/// kind. Answers the exit status.
fn run_over<B: PathIndex>(
    rt: &(impl Files + Print + AllocGlobal),
    words: &[String],
    engine: &mut Engine<B>,
) -> u8
    requires kinds { engine_kinds B.meaning engine.old ≡ Kind.A ∷ Kind.One ∷ Kind.Fb ∷ Kind.B ∷ [] }
    requires closed { IsUnopened engine.old }
    requires sound { IsSound (by_meaning B.meaning engine.old) }
{
    let mut shelf = HostShelf::new(rt);
    let mut sink = HostSink::new(rt);
    run(rt.alloc(), words, engine, &mut shelf, &mut sink)
}

/// Carries out what the words ask for, on an engine of four boxes that it makes. `Memory` comes only where there is
/// none for a box, and then the run isn't begun.
fn run_words(rt: &(impl Files + Print + AllocGlobal), words: &[String]) -> Result<u8, Memory> {
    let alloc = rt.alloc();
    let mut boxes: Vec<Box<dyn PathIndex>> = Vec::new(alloc);
    boxes.push(Box::new(alloc, AkIndex::new(alloc)?)?)?;
    boxes.push(Box::new(alloc, OneKept::new(alloc)?)?)?;
    boxes.push(Box::new(alloc, FbIndex::new(alloc)?)?)?;
    boxes.push(Box::new(alloc, FbkIndex::new(alloc)?)?)?;
    let mut engine = Engine::new(boxes);
    let status = run_over(rt, words, &mut engine);
    Ok(status)
}

fn main(rt: HostRuntime) -> ExitCode {
    let status = match words(&rt) {
        Ok(words) => match run_words(&rt, &words) {
            Ok(status) => {
                tell(&rt, status);
                status
            }
            Err(_) => Status::NoMemory as u8,
        },
        Err(error) if error.kind() == ErrorKind::OutOfMemory => Status::NoMemory as u8,
        Err(_) => Status::Usage as u8,
    };
    ExitCode::from(status)
}
