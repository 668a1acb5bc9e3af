// Triples are read in batches.
ghost use Rattle.std.specs.Prelude.{◌≡◌, ◌++◌, ◌∷◌, [], IfOk, IfErr, OnOk};
ghost use Rattle.graph_load.specs.Hashed.{hashed};
ghost use Rattle.graph_load.specs.LoadSteps.{CanRead, AddsLine, ReadsOn};

use crate::files::LoadError;
use crate::hashed::HashedTriple;
use px_base::{LineFault, LineReader, Memory, Shelf};
use triples_read::{LineError, SpareTexts, Triple, read_line_with};

/// How many triples are read before they are loaded: so few that all their texts fit among the spare ones.
const BATCH: usize = 16;

/// A triple that was read and isn't loaded yet, and the number of its line.
#[derive(Drop)]
pub(crate) struct Waiting {
    pub(crate) triple: HashedTriple,
    pub(crate) line: u32,
}

/// What follows the lines that were read.
#[derive(Clone, Copy)]
pub(crate) enum Next {
    /// There may be more of them.
    Lines,
    End,
    /// The line of that number is neither a triple, nor blank, nor a comment.
    Syntax(u32),
    /// The line of that number passes a limit on lines.
    Limit(u32),
}

fn put(waiting: &mut Vec<Waiting>, triple: Triple, line: u32) -> Result<(), Memory>
    ensures { OnOk result (waiting.new.items ≡ waiting.old.items ++ record { triple = hashed triple; line = line } ∷ []) }
{
    let triple = HashedTriple::new(triple);
    waiting.push(Waiting { triple, line })?;
    Ok(())
}

// Reads the triple of a line, if it has one.
fn take(
    spare: &mut SpareTexts,
    waiting: &mut Vec<Waiting>,
    text: &[u8],
    line: u32,
) -> Result<Next, LoadError>
    ensures puts { IfOk result (AddsLine text.now line waiting.old.items waiting.new.items) }
    ensures memory { IfErr result (λ e. e ≡ LoadError.Memory) }
{
    match read_line_with(spare, text) {
        Ok(Some(triple)) => {
            put(waiting, triple, line)?;
            Ok(Next::Lines)
        }
        Ok(None) => Ok(Next::Lines),
        Err(LineError::Syntax) => Ok(Next::Syntax(line)),
        Err(LineError::Memory) => Err(LoadError::Memory),
    }
}

// Reads a line.
fn read_next<H: Shelf>(
    reader: &mut LineReader,
    spare: &mut SpareTexts,
    waiting: &mut Vec<Waiting>,
    shelf: &mut H,
) -> Result<Next, LoadError>
    requires can { CanRead reader.old (H.is_open shelf.old) }
    ensures { ReadsOn H.left H.is_open H.files H.faults reader.old reader.new waiting.old.items waiting.new.items shelf.old shelf.new result }
{
    match reader.next(shelf) {
        Ok(true) => take(spare, waiting, reader.line(), reader.number()),
        Ok(false) => Ok(Next::End),
        Err(LineFault::Limit) => Ok(Next::Limit(reader.number())),
        Err(LineFault::Fault) => Err(LoadError::Fault),
        Err(LineFault::Memory) => Err(LoadError::Memory),
    }
}

/// Reads lines until there is a whole batch of triples, or no line is left to be read.
pub(crate) fn read_batch<H: Shelf>(
    reader: &mut LineReader,
    spare: &mut SpareTexts,
    waiting: &mut Vec<Waiting>,
    shelf: &mut H,
) -> Result<Next, LoadError>
    requires can { CanRead reader.old (H.is_open shelf.old) }
    ensures { ReadsOn H.left H.is_open H.files H.faults reader.old reader.new waiting.old.items waiting.new.items shelf.old shelf.new result }
{
    'lines: loop {
        match read_next(reader, spare, waiting, shelf) {
            Ok(Next::Lines) if waiting.len() < BATCH => (),
            result => return result,
        }
    }
}

/// Gives the texts of a batch back.
pub(crate) fn give_back(spare: &mut SpareTexts, waiting: &mut Vec<Waiting>)
    ensures { waiting.new.items ≡ [] }
{
    while let Some(w) = waiting.pop() {
        spare.give_back(w.triple.into_triple());
    }
}
