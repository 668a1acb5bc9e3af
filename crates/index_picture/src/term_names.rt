// The names of nodes, from the terms of a graph file.
ghost use Rattle.std.specs.Prelude.{◌≡◌, ◌≢◌, IfOk, OnOk, IsErrOf, IsTrue, Err};
ghost use Rattle.px_base.specs.Causes.{MayHaveRisen};
ghost use Rattle.graph_load.specs.LoadSteps.{CanRead, LacksFile};
ghost use Rattle.index_picture.specs.NamedTerms.{AreTermNames};

use crate::names::NodeNames;
use px_base::{GRAPH_BYTES, LINE_BYTES, LineFault, LineReader, Memory, Shelf};
use std::alloc::Global;
use thiserror::Error;
use triple_names::Names;
use triples_read::{LineError, SpareTexts, Term, Triple, read_line_with};

/// Why there are no names.
#[derive(Clone, Copy, Debug, PartialEq, Eq, Error)]
pub enum NamesError {
    /// There is no file of that name.
    #[error("there is no such file")]
    Missing,
    /// A call on the shelf failed.
    #[error("the file could not be read")]
    Fault,
    /// An allocation failed.
    #[error("out of memory")]
    Memory,
}

impl From<Memory> for NamesError {
    ghost use Rattle.index_picture.specs.declared.term_names.NamesError.TheVariants.{Memory as NoMemory};

    ghost from_gives = { λ _ e. e ≡ NoMemory };

    fn from(_: Memory) -> Self {
        NamesError::Memory
    }
}

// Names the node of a term, if it has one and no name yet.
#[tactic(auto, using(crate::proofs::NameLaws::named_more))]
fn name_term(alloc: Global, list: &mut NodeNames, names: &Names, term: &Term) -> Result<(), Memory>
    requires { AreTermNames names.now.names.terms list.old }
    ensures { OnOk result (AreTermNames names.now.names.terms list.new) }
{
    let Some(n) = names.term(term) else {
        return Ok(());
    };
    if (n as usize) < list.len() && list.get(n).is_empty() {
        list.put(alloc, n, term)?;
    }
    Ok(())
}

// Names the nodes of a triple's terms.
fn name_triple(
    alloc: Global,
    list: &mut NodeNames,
    names: &Names,
    triple: &Triple,
) -> Result<(), Memory>
    requires { AreTermNames names.now.names.terms list.old }
    ensures { OnOk result (AreTermNames names.now.names.terms list.new) }
{
    name_term(alloc, list, names, &triple.subject)?;
    name_term(alloc, list, names, &triple.object)?;
    Ok(())
}

// Names the nodes of the terms of a line, if it is that of a triple.
fn name_line(
    alloc: Global,
    list: &mut NodeNames,
    names: &Names,
    spare: &mut SpareTexts,
    line: &[u8],
) -> Result<(), Memory>
    requires { AreTermNames names.now.names.terms list.old }
    ensures { OnOk result (AreTermNames names.now.names.terms list.new) }
{
    match read_line_with(spare, line) {
        Ok(Some(triple)) => {
            name_triple(alloc, list, names, &triple)?;
            spare.give_back(triple);
            Ok(())
        }
        Ok(None) => Ok(()),
        Err(LineError::Syntax) => Ok(()),
        Err(LineError::Memory) => Err(Memory),
    }
}

// Names the nodes of the terms of the lines that are left.
fn name_lines<H: Shelf>(
    alloc: Global,
    list: &mut NodeNames,
    names: &Names,
    reader: &mut LineReader,
    spare: &mut SpareTexts,
    shelf: &mut H,
) -> Result<(), NamesError>
    requires named { AreTermNames names.now.names.terms list.old }
    requires can { CanRead reader.old (H.is_open shelf.old) }
    ensures named { OnOk result (AreTermNames names.now.names.terms list.new) }
    ensures found { result ≢ Err NamesError.Missing }
    ensures files { H.files shelf.new ≡ H.files shelf.old }
    ensures fault { IsErrOf result NamesError.Fault → MayHaveRisen (H.faults shelf.old) (H.faults shelf.new) }
    ensures no_fault { result ≢ Err NamesError.Fault → H.faults shelf.new ≡ H.faults shelf.old }
{
    'lines: loop {
        match reader.next(shelf) {
            Ok(true) => name_line(alloc, list, names, spare, reader.line())?,
            Ok(false) => return Ok(()),
            Err(LineFault::Memory) => return Err(NamesError::Memory),
            Err(LineFault::Limit) => return Ok(()),
            Err(LineFault::Fault) => return Err(NamesError::Fault),
        }
    }
}

// Names the nodes of the terms of the file that is open.
#[tactic(auto, using(crate::proofs::NameLaws::none_named))]
fn name_file<H: Shelf>(
    alloc: Global,
    names: &Names,
    numbers: u32,
    shelf: &mut H,
) -> Result<NodeNames, NamesError>
    requires open { IsTrue (H.is_open shelf.old) }
    ensures named { IfOk result (AreTermNames names.now.names.terms) }
    ensures found { result ≢ Err NamesError.Missing }
    ensures files { H.files shelf.new ≡ H.files shelf.old }
    ensures fault { IsErrOf result NamesError.Fault → MayHaveRisen (H.faults shelf.old) (H.faults shelf.new) }
    ensures no_fault { result ≢ Err NamesError.Fault → H.faults shelf.new ≡ H.faults shelf.old }
{
    let mut list = NodeNames::new(alloc, numbers)?;
    let mut reader = LineReader::new(alloc, LINE_BYTES, GRAPH_BYTES)?;
    let mut spare = SpareTexts::new(alloc);
    match name_lines(alloc, &mut list, names, &mut reader, &mut spare, shelf) {
        Ok(()) => Ok(list),
        Err(error) => Err(error),
    }
}

/// The names of the nodes below a number that are terms, as the lines of an N-Triples file have them: those of the terms that have
/// numbers. Lines that are no triples are passed over, and so is what lies behind a line that passes a limit. Expected O(b) for a
/// file of b bytes; it takes the memory of `NodeNames`, and the longest line.
pub fn name_terms<H: Shelf>(
    alloc: Global,
    shelf: &mut H,
    file: &str,
    names: &Names,
    numbers: u32,
) -> Result<NodeNames, NamesError>
    ensures named { IfOk result (AreTermNames names.now.names.terms) }
    ensures missing { IsErrOf result NamesError.Missing → LacksFile (H.files shelf.old) file.now }
    ensures files { H.files shelf.new ≡ H.files shelf.old }
    ensures fault { IsErrOf result NamesError.Fault → MayHaveRisen (H.faults shelf.old) (H.faults shelf.new) }
    ensures no_fault { result ≢ Err NamesError.Fault → H.faults shelf.new ≡ H.faults shelf.old }
{
    match shelf.open(file) {
        Ok(true) => name_file(alloc, names, numbers, shelf),
        Ok(false) => Err(NamesError::Missing),
        Err(_) => Err(NamesError::Fault),
    }
}
