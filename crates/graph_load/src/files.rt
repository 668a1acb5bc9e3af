// A graph file, in batches of triples.
ghost use Rattle.std.specs.Prelude.{◌≡◌, ◌≢◌, ℕ, List, [], IfOk, OnOk, IfErr, IsErrOf, IsTrue, Err};
ghost use Rattle.px_base.specs.Causes.{MayHaveRisen};
ghost use Rattle.label_graph.specs.ReservedGraphs.{none_reserved};
ghost use Rattle.graph_load.specs.TripleGraphs.{nothing_loaded};
ghost use Rattle.graph_load.specs.Loads.{Outcome, Loads, loaded, at_start};
ghost use Rattle.graph_load.specs.Loaders.{Holds, IsSoundLoader, load_state};
ghost use Rattle.graph_load.specs.LoadSteps.{LoadsObservable, NamesObservable, LoadsWholeFile, RepresentsFile, StaysAsFile, LacksFile, TellsOutcome, LoadsAhead, LoadsTables, LoadsWhole, LoadsRest, CanRead};
ghost use Rattle.graph_load.specs.declared.files.LoadError.TheVariants.{Memory as NoMemory};

use crate::batch::{Next, Waiting, give_back, read_batch};
use crate::batch_loader::BatchLoader;
use label_graph::Graph;
use px_base::{GRAPH_BYTES, LINE_BYTES, Limits, LineReader, Memory, Shelf};
use std::alloc::Global;
use thiserror::Error;
use triple_names::Names;
use triples_read::SpareTexts;

/// Why no graph was loaded.
#[derive(Clone, Copy, Debug, PartialEq, Eq, Error)]
pub enum LoadError {
    /// The line of this number, from 1 on, is neither a triple, nor blank, nor a comment.
    #[error("line {0} is no triple")]
    Syntax(u32),
    /// The line of this number passes a limit: it has more bytes than a line or a text may have, or
    /// its triple needs a node, an edge or a label more than there may be.
    #[error("line {0} passes a limit")]
    Limit(u32),
    /// There is no file of that name.
    #[error("there is no such file")]
    Missing,
    /// A call on the shelf failed.
    #[error("the file could not be read")]
    Fault,
    /// An allocation failed.
    #[error("out of memory")]
    Memory,
}

impl From<Memory> for LoadError {
    ghost from_gives = { λ _ e. e ≡ NoMemory };

    fn from(_: Memory) -> Self {
        LoadError::Memory
    }
}

// Loads what is left of the open file, where nothing is loaded yet.
fn load_batches<H: Shelf>(
    alloc: Global,
    limits: &Limits,
    reader: &mut LineReader,
    spare: &mut SpareTexts,
    waiting: &mut Vec<Waiting>,
    loader: &mut BatchLoader,
    shelf: &mut H,
) -> Result<(), LoadError>
    requires none { waiting.old.items ≡ [] }
    requires nothing { Holds loader.old [] }
    requires sound { IsSoundLoader loader.old }
    requires can { CanRead reader.old (H.is_open shelf.old) }
    ensures loaded { OnOk result (LoadsTables limits.now reader.old (H.left shelf.old) loader.old loader.new) }
    ensures sound { OnOk result (IsSoundLoader loader.new) }
    ensures refused { IfErr result (TellsOutcome (LoadsRest limits.now reader.old (H.left shelf.old) loader.old)) }
    ensures found { result ≢ Err LoadError.Missing }
    ensures files { H.files shelf.new ≡ H.files shelf.old }
    ensures fault { IsErrOf result LoadError.Fault → MayHaveRisen (H.faults shelf.old) (H.faults shelf.new) }
    ensures no_fault { result ≢ Err LoadError.Fault → H.faults shelf.new ≡ H.faults shelf.old }
{
    'batches: loop {
        let next = match read_batch(reader, spare, waiting, shelf) {
            Ok(next) => next,
            Err(error) => return Err(error),
        };
        if let Err(error) = loader.add_all(alloc, limits, waiting.as_slice()) {
            return Err(error);
        }
        give_back(spare, waiting);
        match next {
            Next::Lines => (),
            Next::End => return Ok(()),
            Next::Syntax(line) => return Err(LoadError::Syntax(line)),
            Next::Limit(line) => return Err(LoadError::Limit(line)),
        }
    }
}

// Loads the file that is open, where nothing is loaded yet.
fn load_into<H: Shelf>(
    alloc: Global,
    limits: &Limits,
    loader: &mut BatchLoader,
    shelf: &mut H,
) -> Result<(), LoadError>
    requires opened { IsTrue (H.is_open shelf.old) }
    requires nothing { Holds loader.old [] }
    requires sound { IsSoundLoader loader.old }
    requires empty { load_state loader.old [] ≡ nothing_loaded }
    ensures loaded { OnOk result (LoadsWhole limits.now (H.left shelf.old) loader.new) }
    ensures sound { OnOk result (IsSoundLoader loader.new) }
    ensures refused { IfErr result (TellsOutcome (LoadsAhead limits.now (H.left shelf.old) at_start)) }
    ensures found { result ≢ Err LoadError.Missing }
    ensures files { H.files shelf.new ≡ H.files shelf.old }
    ensures fault { IsErrOf result LoadError.Fault → MayHaveRisen (H.faults shelf.old) (H.faults shelf.new) }
    ensures no_fault { result ≢ Err LoadError.Fault → H.faults shelf.new ≡ H.faults shelf.old }
{
    let mut reader = LineReader::new(alloc, LINE_BYTES, GRAPH_BYTES)?;
    let mut spare = SpareTexts::new(alloc);
    let mut waiting = Vec::new(alloc);
    match load_batches(
        alloc,
        limits,
        &mut reader,
        &mut spare,
        &mut waiting,
        loader,
        shelf,
    ) {
        Ok(()) => Ok(()),
        Err(error) => Err(error),
    }
}

// Loads the file that is open.
fn load_lines<H: Shelf>(
    alloc: Global,
    limits: &Limits,
    shelf: &mut H,
) -> Result<BatchLoader, LoadError>
    requires { IsTrue (H.is_open shelf.old) }
    ensures loaded { IfOk result (LoadsWhole limits.now (H.left shelf.old)) }
    ensures sound { IfOk result IsSoundLoader }
    ensures refused { IfErr result (TellsOutcome (LoadsAhead limits.now (H.left shelf.old) at_start)) }
    ensures found { result ≢ Err LoadError.Missing }
    ensures files { H.files shelf.new ≡ H.files shelf.old }
    ensures fault { IsErrOf result LoadError.Fault → MayHaveRisen (H.faults shelf.old) (H.faults shelf.new) }
    ensures no_fault { result ≢ Err LoadError.Fault → H.faults shelf.new ≡ H.faults shelf.old }
{
    let mut loader = BatchLoader::new(alloc)?;
    match load_into(alloc, limits, &mut loader, shelf) {
        Ok(()) => Ok(loader),
        Err(error) => Err(error),
    }
}

// Loads the file of that name.
fn load_file<H: Shelf>(
    alloc: Global,
    shelf: &mut H,
    name: &str,
    limits: &Limits,
) -> Result<BatchLoader, LoadError>
    ensures loaded { IfOk result (LoadsWholeFile limits.now (H.files shelf.old) name.now) }
    ensures sound { IfOk result IsSoundLoader }
    ensures refused { IfErr result (TellsOutcome (LoadsObservable limits.now (H.files shelf.old) name.now)) }
    ensures missing { IsErrOf result LoadError.Missing → LacksFile (H.files shelf.old) name.now }
    ensures files { H.files shelf.new ≡ H.files shelf.old }
    ensures fault { IsErrOf result LoadError.Fault → MayHaveRisen (H.faults shelf.old) (H.faults shelf.new) }
    ensures no_fault { result ≢ Err LoadError.Fault → H.faults shelf.new ≡ H.faults shelf.old }
{
    match shelf.open(name) {
        Ok(true) => load_lines(alloc, limits, shelf),
        Ok(false) => Err(LoadError::Missing),
        Err(_) => Err(LoadError::Fault),
    }
}

/// The graph of the triples of an N-Triples file (RDF 1.1 N-Triples). Each distinct subject or object is a
/// node labelled `iri`, `blank` or `literal`, and each distinct triple is a node labelled by its predicate in
/// the canonical spelling, between its subject and its object. Numbers are allocated in the order of first need: of
/// a triple its subject, the triple, its object.
///
/// The first line that is refused ends the load: `Limit` and `Syntax` have its number. `Missing` comes where
/// there is no file of that name, and `Fault` where a call on the shelf failed. Expected O(b) for a file of b
/// bytes. Beside the graph it takes, while it loads, the bytes of the distinct terms and predicates with 36 to
/// 40 more for each term, an entry of a hash table for each distinct triple, and the longest line.
pub fn load<H: Shelf>(
    alloc: Global,
    shelf: &mut H,
    name: &str,
    limits: &Limits,
) -> Result<Graph, LoadError>
    // A graph comes only where the text of the file loads to it.
    ensures loaded { IfOk result (λ g. LoadsObservable limits.now (H.files shelf.old) name.now (loaded g.graph)) }
    // It has nothing reserved.
    ensures reserved { IfOk result (λ g. g.reserved ≡ none_reserved) }
    // The number of a line comes only where the text of the file is refused there, for that reason.
    ensures refused { IfErr result (TellsOutcome (LoadsObservable limits.now (H.files shelf.old) name.now)) }
    // A text loads to one outcome at most.
    ensures once { (text : List ℕ) (a b : Outcome) → Loads limits.now text a → Loads limits.now text b → a ≡ b }
    ensures missing { IsErrOf result LoadError.Missing → LacksFile (H.files shelf.old) name.now }
    ensures files { H.files shelf.new ≡ H.files shelf.old }
    ensures fault { IsErrOf result LoadError.Fault → MayHaveRisen (H.faults shelf.old) (H.faults shelf.new) }
    ensures no_fault { result ≢ Err LoadError.Fault → H.faults shelf.new ≡ H.faults shelf.old }
{
    match load_file(alloc, shelf, name, limits) {
        Ok(loader) => Ok(loader.into_graph()),
        Err(error) => Err(error),
    }
}

/// As `load`, with the numbers of the terms and of the triples: the graph with them represents the triples of the text. The
/// tables are those of the load. They keep the bytes of the distinct terms and predicates with 36 to 40 more for each term,
/// and an entry of a hash table for each distinct triple.
pub fn load_named<H: Shelf>(
    alloc: Global,
    shelf: &mut H,
    name: &str,
    limits: &Limits,
) -> Result<(Graph, Names), LoadError>
    // A graph comes only where the text of the file loads to it.
    ensures loaded { IfOk result (λ r. LoadsObservable limits.now (H.files shelf.old) name.now (loaded r.0.graph)) }
    // It has nothing reserved.
    ensures reserved { IfOk result (λ r. r.0.reserved ≡ none_reserved) }
    // The numbers are those that the load gave the terms and triples.
    ensures named { IfOk result (λ r. NamesObservable limits.now (H.files shelf.old) name.now r.0.graph r.1.names) }
    // With the numbers it represents the triples of the text.
    ensures represented { IfOk result (λ r. RepresentsFile (H.files shelf.old) name.now r.0.graph r.1.names) }
    // Accepted inserts and deletes leave the graph that the triples then present would load to, up to the numbers of nodes.
    ensures edits { IfOk result (λ r. StaysAsFile (H.files shelf.old) name.now r.0.graph r.1.names) }
    // The number of a line comes only where the text of the file is refused there, for that reason.
    ensures refused { IfErr result (TellsOutcome (LoadsObservable limits.now (H.files shelf.old) name.now)) }
    // A text loads to one outcome at most.
    ensures once { (text : List ℕ) (a b : Outcome) → Loads limits.now text a → Loads limits.now text b → a ≡ b }
    ensures missing { IsErrOf result LoadError.Missing → LacksFile (H.files shelf.old) name.now }
    ensures files { H.files shelf.new ≡ H.files shelf.old }
    ensures fault { IsErrOf result LoadError.Fault → MayHaveRisen (H.faults shelf.old) (H.faults shelf.new) }
    ensures no_fault { result ≢ Err LoadError.Fault → H.faults shelf.new ≡ H.faults shelf.old }
{
    match load_file(alloc, shelf, name, limits) {
        Ok(loader) => Ok(loader.into_parts(alloc)),
        Err(error) => Err(error),
    }
}
