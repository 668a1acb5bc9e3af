// Calls of an engine, and what they answer.
ghost use Rattle.std.specs.Prelude.{◌≡◌, ◌≢◌, ◌<◌, true, None};
ghost use Rattle.index_api.specs.declared.kinds.Via.TheVariants.{Data};
ghost use Rattle.pathindex_core.specs.Engines.{IsSound, by_meaning};
ghost use Rattle.pathindex_core.specs.EngineTerms.{IsUnopened, IsOpened};

use graph_update::{Applied, Change, Step};
use index_api::{PathIndex, Via};
use label_graph::Graph;
use pathindex_core::{AskError, Engine, UpdateError};
use px_base::{Limits, Steps, Text};
use std::alloc::Global;
use std::marker::Brand;
use std::sync::ledger::{Blank, Ledger};

/// Limits of two nodes.
pub(crate) const FEW: Limits = Limits {
    nodes: 2,
    edges: 2,
    labels: 2,
    expr_bytes: 9,
    expr_depth: 9,
};

/// Opens the engine with this graph, where there is one, under these limits.
pub(crate) fn opens<B: PathIndex>(
    engine: &mut Engine<B>,
    graph: Option<Graph>,
    limits: Limits,
) -> bool
    requires closed { IsUnopened engine.old }
    requires sound { IsSound (by_meaning B.meaning engine.old) }
    ensures open { result ≡ true → IsOpened engine.new }
    ensures sound { IsSound (by_meaning B.meaning engine.new) }
{
    match graph {
        Some(graph) => engine.open(graph, limits, 1).is_ok(),
        None => false,
    }
}

/// Adds a node with the label `a`; none where there is no memory for the label.
pub(crate) fn node<B: PathIndex>(
    engine: &mut Engine<B>,
    alloc: Global,
) -> Option<Result<Applied, UpdateError>>
    requires open { IsOpened engine.old }
    requires sound { IsSound (by_meaning B.meaning engine.old) }
    ensures open { IsOpened engine.new }
    ensures sound { IsSound (by_meaning B.meaning engine.new) }
{
    let label = Text::from_bytes(alloc, b"a").ok()?;
    let change = Change::one(alloc, Step::Node(label)).ok()?;
    Some(engine.update(alloc, change))
}

/// Whether one more node is added with that number.
pub(crate) fn adds_node<B: PathIndex>(engine: &mut Engine<B>, alloc: Global, number: u32) -> bool
    requires open { IsOpened engine.old }
    requires sound { IsSound (by_meaning B.meaning engine.old) }
    ensures open { IsOpened engine.new }
    ensures sound { IsSound (by_meaning B.meaning engine.new) }
{
    node(engine, alloc)
        == Some(Ok(Applied {
            first: number,
            added: 1,
        }))
}

/// Whether one more node isn't added, for this reason.
pub(crate) fn fails_to_add<B: PathIndex>(
    engine: &mut Engine<B>,
    alloc: Global,
    error: UpdateError,
) -> bool
    requires open { IsOpened engine.old }
    requires sound { IsSound (by_meaning B.meaning engine.old) }
    ensures open { IsOpened engine.new }
    ensures sound { IsSound (by_meaning B.meaning engine.new) }
{
    node(engine, alloc) == Some(Err(error))
}

/// The list through the index.
fn listed<B: PathIndex, L: Ledger>(
    engine: &mut Engine<B>,
    alloc: Global,
    via: Via,
    blank: Blank,
) -> Result<Text, AskError>
    requires index { via ≢ Data }
    requires open { IsOpened engine.old }
    requires sound { IsSound (by_meaning B.meaning engine.old) }
    requires name { blank.name ≡ L.name }
    requires parts { blank.parts ≡ L.parts }
    requires some { 0 < blank.parts }
    ensures open { IsOpened engine.new }
    ensures sound { IsSound (by_meaning B.meaning engine.new) }
{
    let mut steps = Steps::<L>::new(blank);
    engine.extents(alloc, via, &mut steps)
}

/// Whether that is the list through the index; none where there is no memory for it.
pub(crate) fn lists<B: PathIndex>(
    engine: &mut Engine<B>,
    alloc: Global,
    via: Via,
    list: Option<&str>,
) -> bool
    requires index { via ≢ Data }
    requires open { IsOpened engine.old }
    requires sound { IsSound (by_meaning B.meaning engine.old) }
    ensures open { IsOpened engine.new }
    ensures sound { IsSound (by_meaning B.meaning engine.new) }
{
    match listed::<B, Brand>(engine, alloc, via, Blank::new(1)) {
        Ok(text) => list == Some(text.as_str()),
        Err(error) => list.is_none() && error == AskError::Memory,
    }
}
