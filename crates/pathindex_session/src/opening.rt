// Opening a session.
ghost use Rattle.std.specs.Prelude.{◌≡◌, ◌≤◌, Some, IfOk, IfErr};
ghost use Rattle.graph_spec.specs.ProgramLimits.{program_limits};
ghost use Rattle.pathindex_core.specs.Engines.{IsSound, by_meaning};
ghost use Rattle.pathindex_core.specs.EngineTerms.{IsUnopened, engine_kinds};
ghost use Rattle.any_index.specs.AnyMeanings.{meaning_of};
ghost use Rattle.pathindex_session.specs.Sessions.{IsOpenAndSound};
ghost use Rattle.pathindex_session.specs.Openings.{kinds_kept, OpensGraph, OpensText, TellsLine};

use crate::errors::OpenError;
use ak_maintain::AkIndex;
use any_index::AnyIndex;
use fb_index::FbIndex;
use fbk_index::FbkIndex;
use graph_load::{LoadError, load_text};
use label_graph::Graph;
use one_maintain::OneKept;
use pathindex_core::Engine;
use px_base::{Limits, Memory};
use std::alloc::Global;
use triple_names::Names;

/// Which indexes a session keeps, beside the A(k)-indexes.
#[derive(Clone, Copy, Debug, PartialEq, Eq, Drop)]
pub struct Indexes {
    /// The highest level of the families.
    pub k: u32,
    /// Whether the 1-index is kept.
    pub one: bool,
    /// Whether the forward and backward index is kept.
    pub fb: bool,
    /// Whether the bounded forward and backward indexes are kept, with the same highest level.
    pub bk: bool,
}

/// An engine with these indexes, which isn't open.
fn engine_with(alloc: Global, kept: Indexes) -> Result<Engine<AnyIndex>, Memory>
    ensures sound { IfOk result (λ engine. IsSound (by_meaning meaning_of engine)) }
    ensures kinds { IfOk result (λ engine. engine_kinds meaning_of engine ≡ kinds_kept kept) }
    ensures closed { IfOk result (λ engine. IsUnopened engine) }
{
    let mut indexes = Vec::new(alloc);
    indexes.push(AnyIndex::A(AkIndex::new(alloc)?))?;
    if kept.one {
        indexes.push(AnyIndex::One(OneKept::new(alloc)?))?;
    }
    if kept.fb {
        indexes.push(AnyIndex::Fb(FbIndex::new(alloc)?))?;
    }
    if kept.bk {
        indexes.push(AnyIndex::B(FbkIndex::new(alloc)?))?;
    }
    let engine = Engine::new(indexes);
    Ok(engine)
}

/// An engine that is open with that graph.
pub(crate) fn open_graph(
    alloc: Global,
    graph: Graph,
    kept: Indexes,
) -> Result<Engine<AnyIndex>, Memory>
    requires level { kept.k ≤ 8 }
    ensures ready { IfOk result IsOpenAndSound }
    ensures opened { IfOk result (OpensGraph graph.graph kept) }
{
    let mut engine = engine_with(alloc, kept)?;
    engine.open(graph, Limits::program(), kept.k)?;
    Ok(engine)
}

/// An engine that is open with the graph of the triples in a text, and the numbers of its terms and triples.
pub(crate) fn open_text(
    alloc: Global,
    text: &[u8],
    kept: Indexes,
) -> Result<(Engine<AnyIndex>, Names), OpenError>
    requires level { kept.k ≤ 8 }
    ensures ready { IfOk result (λ r. IsOpenAndSound r.0) }
    ensures opened { IfOk result (λ r. OpensText text.now kept r.0 r.1.names) }
    ensures refused { IfErr result (TellsLine text.now) }
{
    match load_text(alloc, text, &Limits::program()) {
        Ok((graph, names)) => match open_graph(alloc, graph, kept) {
            Ok(engine) => Ok((engine, names)),
            Err(Memory) => Err(OpenError::Memory),
        },
        Err(LoadError::Syntax(line)) => Err(OpenError::Syntax(line)),
        Err(LoadError::Limit(line)) => Err(OpenError::Limit(line)),
        Err(LoadError::Missing) => unreachable!(),
        Err(LoadError::Fault) => unreachable!(),
        Err(LoadError::Memory) => Err(OpenError::Memory),
    }
}
