//! The program `example_count`: it counts the triples of the N-Triples text on standard input. At a line
//! that is none, it says the line's number, from 1 on, and ends with status 1. A line ends at LF, at CR LF or
//! at another CR.
#![tactic(auto)]

use std::alloc::Global;
use std::io;
use std::io::{BufRead, BufReader, ErrorKind};
use std::process::ExitCode;
use triples_read::{LineError, SpareTexts, read_line_with};

#[cfg(test)]
mod tests;

/// What a text holds.
#[derive(Debug, Drop, PartialEq)]
enum Count {
    /// So many triples.
    Triples(u64),
    /// A line that is no triple, no comment and isn't blank, by its number from 1 on.
    BadLine(u64),
}

/// How far a text was read.
#[derive(Drop)]
struct Tally {
    /// The lines that were taken.
    lines: u64,
    /// The triples that they spell.
    triples: u64,
}

/// Takes one more line. False where it is bad.
fn take_line(spare: &mut SpareTexts, line: &[u8], tally: &mut Tally) -> io::Result<bool> {
    tally.lines = tally.lines.saturating_add(1);
    match read_line_with(spare, line) {
        Ok(Some(triple)) => {
            spare.give_back(triple);
            tally.triples = tally.triples.saturating_add(1);
            Ok(true)
        }
        Ok(None) => Ok(true),
        Err(LineError::Syntax) => Ok(false),
        Err(LineError::Memory) => Err(io::Error::from(ErrorKind::OutOfMemory)),
    }
}

/// The bytes without the LF or CR LF at their end.
fn without_end(bytes: &[u8]) -> &[u8] {
    match bytes {
        [line @ .., b'\r', b'\n'] => line,
        [line @ .., b'\n'] => line,
        _ => bytes,
    }
}

/// Takes the lines that stand before one LF, with a CR between each two. False where one is bad.
fn take_lines(spare: &mut SpareTexts, lines: &[u8], tally: &mut Tally) -> io::Result<bool> {
    for line in lines.split(|b| *b == b'\r') {
        if !take_line(spare, line, tally)? {
            return Ok(false);
        }
    }
    Ok(true)
}

fn count_all<R: BufRead>(alloc: Global, text: &mut R) -> io::Result<Count> {
    let mut bytes = Vec::new(alloc);
    let mut spare = SpareTexts::new(alloc);
    let mut tally = Tally {
        lines: 0,
        triples: 0,
    };
    for _ in 0..u64::MAX {
        bytes.clear();
        if text.read_until(b'\n', &mut bytes)? == 0 {
            break;
        }
        if !take_lines(&mut spare, without_end(&bytes), &mut tally)? {
            return Ok(Count::BadLine(tally.lines));
        }
    }
    Ok(Count::Triples(tally.triples))
}

fn main(rt: HostRuntime) -> io::Result<ExitCode> {
    let mut text = BufReader::new(rt.alloc(), rt.reader())?;
    match count_all(rt.alloc(), &mut text)? {
        Count::Triples(count) => {
            println!(rt; "{count}")?;
            Ok(ExitCode::SUCCESS)
        }
        Count::BadLine(number) => {
            println!(rt; "line {number} is no triple")?;
            Ok(ExitCode::FAILURE)
        }
    }
}
