// The graph and the indexes that are kept, as an index file.
ghost use Rattle.std.specs.Prelude.{◌≡◌, ◌≢◌, ◌≤◌, ◌++◌, List, ℕ, IfOk, OnOk, string_bytes, if◌then◌else◌};
ghost use Rattle.index_api.specs.declared.kinds.Via.TheVariants.{Data};
ghost use Rattle.index_api.specs.IndexOrder.{all_indexes};
ghost use Rattle.index_api.specs.IndexKinds.{is_kept};
ghost use Rattle.index_file.specs.SavedIndexes as saved;
ghost use Rattle.index_file.specs.SavedIndexes.{IsViewOf, SavesIndex, SavesIndexes, SavesFile};
ghost use Rattle.index_file.specs.WholeFiles.{HasLabels, IsIndexFile};
ghost use Rattle.pathindex_core.specs.Calls.{KeepsAllButViews};
ghost use Rattle.pathindex_core.specs.Engines.{IsSound, by_meaning, kept_in};
ghost use Rattle.pathindex_core.specs.EngineTerms.{HasView, IsOpened, engine_graph};

use index_api::{PathIndex, Via};
use index_file::{head, view_text};
use pathindex_core::{AskError, Engine};
use px_base::{Memory, Steps, Text};
use std::alloc::Global;
use std::sync::ledger::Ledger;

/// 1 if the index is kept, and then its view is there afterwards; 0 if it isn't.
fn count_one<B: PathIndex, L: Ledger>(
    engine: &mut Engine<B>,
    via: Via,
    steps: &mut Steps<L>,
) -> Result<u32, Memory>
    requires open { IsOpened engine.old }
    requires sound { IsSound (by_meaning B.meaning engine.old) }
    requires index { via ≢ Data }
    ensures sound { IsSound (by_meaning B.meaning engine.new) }
    ensures asked { KeepsAllButViews (by_meaning B.meaning engine.old) (by_meaning B.meaning engine.new) }
    ensures count { IfOk result (λ count. count ≡ (if is_kept (kept_in (by_meaning B.meaning engine.old)) via then 1 else 0)) }
{
    match engine.ready(via, steps) {
        Ok(()) => Ok(1),
        Err(AskError::NoIndex) => Ok(0),
        Err(AskError::Memory) => Err(Memory),
    }
}

/// How many indexes with levels up to `k` are kept, from 0 to 2`k` + 4. The view of each is there afterwards. `Memory` leaves the graph,
/// what is kept, and each view that is computed. O(k) beside what computing a view takes (`Engine::ready`), which is all its memory.
pub fn count_kept<B: PathIndex, L: Ledger>(
    engine: &mut Engine<B>,
    k: u32,
    steps: &mut Steps<L>,
) -> Result<u32, Memory>
    requires level { k ≤ 8 }
    requires open { IsOpened engine.old }
    requires sound { IsSound (by_meaning B.meaning engine.old) }
    ensures sound { IsSound (by_meaning B.meaning engine.new) }
    ensures asked { KeepsAllButViews (by_meaning B.meaning engine.old) (by_meaning B.meaning engine.new) }
    ensures count { IfOk result (λ count. count ≡ saved.count_kept (kept_in (by_meaning B.meaning engine.old)) (all_indexes k)) }
{
    let mut count = 0;
    let mut n = 0;
    while let Some(via) = Via::nth(n, k) {
        count += count_one(engine, via, steps)?;
        n += 1;
    }
    Ok(count)
}

/// The view of an index, which is there.
fn view_there<B: PathIndex>(alloc: Global, engine: &Engine<B>, via: Via) -> Result<Text, Memory>
    requires open { IsOpened engine.now }
    requires sound { IsSound (by_meaning B.meaning engine.now) }
    requires index { via ≢ Data }
    requires there { HasView B.meaning engine.now via }
    ensures { IfOk result (λ t. IsViewOf (engine_graph engine.now) (kept_in (by_meaning B.meaning engine.now)) via t) }
{
    match engine.look(via) {
        Some(summary) => view_text(alloc, via, summary, engine.graph()),
        None => unreachable!(),
    }
}

/// The lines of the view of an index, or nothing if the index isn't kept. A view that isn't computed is computed first. `Memory` leaves
/// the graph, what is kept, and each view that is computed. O(n + t) for n node numbers and t bytes of text, beside what computing a
/// view takes; it takes the memory of the text.
pub fn view_lines<B: PathIndex, L: Ledger>(
    alloc: Global,
    engine: &mut Engine<B>,
    via: Via,
    steps: &mut Steps<L>,
) -> Result<Text, Memory>
    requires open { IsOpened engine.old }
    requires sound { IsSound (by_meaning B.meaning engine.old) }
    requires index { via ≢ Data }
    ensures sound { IsSound (by_meaning B.meaning engine.new) }
    ensures asked { KeepsAllButViews (by_meaning B.meaning engine.old) (by_meaning B.meaning engine.new) }
    ensures text { IfOk result (λ t. SavesIndex (engine_graph engine.old) (kept_in (by_meaning B.meaning engine.old)) via t) }
{
    match engine.ready(via, steps) {
        Ok(()) => view_there(alloc, engine, via),
        Err(AskError::NoIndex) => Ok(Text::from_string(String::new(alloc))),
        Err(AskError::Memory) => Err(Memory),
    }
}

/// Appends the view of each index with levels up to `k` that is kept.
fn push_views<B: PathIndex, L: Ledger>(
    alloc: Global,
    out: &mut String,
    engine: &mut Engine<B>,
    k: u32,
    steps: &mut Steps<L>,
) -> Result<(), Memory>
    requires level { k ≤ 8 }
    requires open { IsOpened engine.old }
    requires sound { IsSound (by_meaning B.meaning engine.old) }
    ensures sound { IsSound (by_meaning B.meaning engine.new) }
    ensures asked { KeepsAllButViews (by_meaning B.meaning engine.old) (by_meaning B.meaning engine.new) }
    ensures text { OnOk result ((lines : List ℕ)
        × SavesIndexes (engine_graph engine.old) (kept_in (by_meaning B.meaning engine.old)) (all_indexes k) lines
        × (string_bytes out.new ≡ string_bytes out.old ++ lines)) }
{
    let mut n = 0;
    while let Some(via) = Via::nth(n, k) {
        let lines = view_lines(alloc, engine, via, steps)?;
        out.push_str(lines.as_str())?;
        n += 1;
    }
    Ok(())
}

/// The index file of the engine's graph and of the indexes that it keeps, each by the relation that its lists go by. If the labels of the
/// graph are labels, as those of a loaded graph are, one file alone is spelled so: it holds these and nothing else, and each view fits.
/// A view that isn't computed is computed first. `Memory` leaves the graph, what is kept, and each view that is computed.
/// O(n + e log e + t) for n node numbers, e edges and t bytes of text, beside what computing a view takes; it takes the memory of the
/// text, and of one view.
pub fn file_text<B: PathIndex, L: Ledger>(
    alloc: Global,
    engine: &mut Engine<B>,
    steps: &mut Steps<L>,
) -> Result<Text, Memory>
    requires open { IsOpened engine.old }
    requires sound { IsSound (by_meaning B.meaning engine.old) }
    ensures sound { IsSound (by_meaning B.meaning engine.new) }
    ensures asked { KeepsAllButViews (by_meaning B.meaning engine.old) (by_meaning B.meaning engine.new) }
    ensures text { IfOk result (λ t. SavesFile (engine_graph engine.old) (kept_in (by_meaning B.meaning engine.old)) t) }
    ensures file { IfOk result (λ t. HasLabels (engine_graph engine.old)
        → IsIndexFile (engine_graph engine.old) (kept_in (by_meaning B.meaning engine.old)) t) }
{
    // Called for its contract: numbers fit 32 bits.
    let _known = engine.graph().created();
    let k = engine.level();
    let count = count_kept(engine, k, steps)?;
    let text = head(alloc, engine.graph(), k, count)?;
    let mut out = text.into_string();
    push_views(alloc, &mut out, engine, k, steps)?;
    Ok(Text::from_string(out))
}
