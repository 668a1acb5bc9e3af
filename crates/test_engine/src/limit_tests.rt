// An engine with all indexes that holds two nodes at most.
ghost use Rattle.std.specs.Prelude.{◌≡◌};
ghost use Rattle.pathindex_core.specs.Engines.{IsSound, by_meaning};
ghost use Rattle.pathindex_core.specs.EngineTerms.{IsUnopened, IsOpened};

use crate::calls::{FEW, adds_node, fails_to_add, lists, opens};
use any_index::full_engine;
use index_api::{PathIndex, Via};
use label_graph::Graph;
use pathindex_core::{Engine, UpdateError};
use px_base::Refusal;
use std::alloc::Global;
use std::test::Fail;

/// Whether there are two nodes together in each index.
fn lists_two<B: PathIndex>(engine: &mut Engine<B>, alloc: Global) -> bool
    requires open { IsOpened engine.old }
    requires sound { IsSound (by_meaning B.meaning engine.old) }
    ensures open { IsOpened engine.new }
    ensures sound { IsSound (by_meaning B.meaning engine.new) }
{
    lists(engine, alloc, Via::A(1), Some("blocks 1\na n0 n1\n"))
        && lists(engine, alloc, Via::One, Some("blocks 1\na n0 n1\n"))
        && lists(engine, alloc, Via::Fb, Some("blocks 1\na n0 n1\n"))
}

/// Whether there are two nodes, together in each index.
fn has_two<B: PathIndex>(engine: &mut Engine<B>, alloc: Global) -> bool
    requires open { IsOpened engine.old }
    requires sound { IsSound (by_meaning B.meaning engine.old) }
    ensures open { IsOpened engine.new }
    ensures sound { IsSound (by_meaning B.meaning engine.new) }
{
    engine.graph().created() == 2 && lists_two(engine, alloc)
}

/// Whether two nodes are added.
fn fills<B: PathIndex>(engine: &mut Engine<B>, alloc: Global) -> bool
    requires open { IsOpened engine.old }
    requires sound { IsSound (by_meaning B.meaning engine.old) }
    ensures open { IsOpened engine.new }
    ensures sound { IsSound (by_meaning B.meaning engine.new) }
{
    adds_node(engine, alloc, 0) && adds_node(engine, alloc, 1)
}

/// Whether a third node is refused, and leaves the graph and its indexes as they were.
fn overfills<B: PathIndex>(engine: &mut Engine<B>, alloc: Global) -> bool
    requires closed { IsUnopened engine.old }
    requires sound { IsSound (by_meaning B.meaning engine.old) }
{
    opens(engine, Graph::new(alloc).ok(), FEW)
        && fills(engine, alloc)
        && fails_to_add(engine, alloc, UpdateError::Refused(Refusal::Limit))
        && has_two(engine, alloc)
}

#[test]
fn a_third_node_is_refused(rt: HostRuntime) -> Result<(), Fail> {
    let mut engine = full_engine(rt.alloc())?;
    assert!(rt; overfills(&mut engine, rt.alloc()));
    Ok(())
}
