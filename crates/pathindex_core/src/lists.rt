// The lists of the indexes that are kept.
ghost use Rattle.std.specs.Prelude.{◌≡◌, ◌≤◌, ◌++◌, ◌↔◌, Err, false, List, ℕ, map, All, OnOk, IfOk, string_bytes};
ghost use Rattle.graph_spec.specs.Graphs.{IsGraph};
ghost use Rattle.index_api.specs.declared.kinds.Via.TheVariants.{Fb};
ghost use Rattle.index_api.specs.Meanings.{KeepsViews};
ghost use Rattle.index_api.specs.IndexKinds.{is_kept, kept_of};
ghost use Rattle.extent_report.specs.PrintedLists.{ListsIndex, ListsSizes, ShowsSize};
ghost use Rattle.pathindex_core.specs.Engines.{EachBecomes, IsKeptFor, opened_by, open_seen};
ghost use Rattle.pathindex_core.specs.Boxes.{IsFbComputed};
ghost use Rattle.pathindex_core.specs.Calls.{IsListed, IsMeasured};

use crate::errors::AskError;
use crate::state::Open;
use crate::views::{refresh_fb, refresh_for, summary_of};
use extent_report::{extents_text, sizes_head, sizes_line};
use index_api::{PathIndex, Via};
use px_base::{Memory, Steps, Text};
use std::alloc::Global;
use std::sync::ledger::Ledger;

/// The list of the blocks of an index whose view is computed, if it is kept.
fn text_of<B: PathIndex>(
    alloc: Global,
    boxes: &Vec<B>,
    state: &Open,
    via: Via,
) -> Result<Text, AskError>
    requires kept { All (IsKeptFor (opened_by state.now)) (map B.meaning boxes.now.items) }
    requires computed { via ≡ Fb → IsFbComputed (map B.meaning boxes.now.items) }
    ensures text { IfOk result (ListsIndex state.now.graph.graph (kept_of (map B.meaning boxes.now.items) state.now.k) via) }
    ensures no_index { (result ≡ Err AskError.NoIndex) ↔ (is_kept (kept_of (map B.meaning boxes.now.items) state.now.k) via ≡ false) }
{
    match summary_of(boxes, via) {
        Some(summary) => match extents_text(alloc, summary, state.graph.labels()) {
            Ok(text) => Ok(text),
            Err(Memory) => Err(AskError::Memory),
        },
        None => Err(AskError::NoIndex),
    }
}

/// The list of the blocks of an index, if it is kept.
pub(crate) fn list<B: PathIndex, L: Ledger>(
    alloc: Global,
    boxes: &mut Vec<B>,
    state: &Open,
    via: Via,
    steps: &mut Steps<L>,
) -> Result<Text, AskError>
    requires kept { All (IsKeptFor (opened_by state.now)) (map B.meaning boxes.old.items) }
    ensures kept { All (IsKeptFor (opened_by state.now)) (map B.meaning boxes.new.items) }
    ensures keeps { EachBecomes KeepsViews (map B.meaning boxes.old.items) (map B.meaning boxes.new.items) }
    ensures listed { IsListed (open_seen (map B.meaning boxes.old.items) state.now) (open_seen (map B.meaning boxes.new.items) state.now) via
        result steps.old steps.new }
{
    match refresh_for(boxes, via, &state.graph, steps) {
        Ok(()) => text_of(alloc, boxes, state, via),
        Err(Memory) => Err(AskError::Memory),
    }
}

/// Appends the line of the size of an index, if it is kept.
fn push_size<B: PathIndex>(
    alloc: Global,
    out: &mut String,
    boxes: &Vec<B>,
    state: &Open,
    via: Via,
) -> Result<(), Memory>
    requires kept { All (IsKeptFor (opened_by state.now)) (map B.meaning boxes.now.items) }
    requires computed { IsFbComputed (map B.meaning boxes.now.items) }
    requires graph { IsGraph state.now.graph.graph }
    ensures { OnOk result ((line : List ℕ)
        × ShowsSize state.now.graph.graph (kept_of (map B.meaning boxes.now.items) state.now.k) via line
        × (string_bytes out.new ≡ string_bytes out.old ++ line)) }
{
    match summary_of(boxes, via) {
        Some(summary) => {
            let line = sizes_line(alloc, via, summary)?;
            out.push_str(line.as_str())?;
            Ok(())
        }
        None => Ok(()),
    }
}

/// The sizes; the forward and backward index is computed if it is kept.
fn sizes_of<B: PathIndex>(alloc: Global, boxes: &Vec<B>, state: &Open) -> Result<Text, Memory>
    requires kept { All (IsKeptFor (opened_by state.now)) (map B.meaning boxes.now.items) }
    requires computed { IsFbComputed (map B.meaning boxes.now.items) }
    requires level { state.now.k ≤ 8 }
    ensures { IfOk result (ListsSizes state.now.graph.graph (kept_of (map B.meaning boxes.now.items) state.now.k)) }
{
    let head = sizes_head(alloc, state.graph.node_count(), state.graph.edge_count())?;
    let mut out = head.into_string();
    let mut n = 0;
    while let Some(via) = Via::nth(n, state.k) {
        push_size(alloc, &mut out, boxes, state, via)?;
        n += 1;
    }
    Ok(Text::from_string(out))
}

/// The size of the graph and of each index that is kept.
pub(crate) fn measure<B: PathIndex, L: Ledger>(
    alloc: Global,
    boxes: &mut Vec<B>,
    state: &Open,
    steps: &mut Steps<L>,
) -> Result<Text, Memory>
    requires kept { All (IsKeptFor (opened_by state.now)) (map B.meaning boxes.old.items) }
    requires level { state.now.k ≤ 8 }
    ensures kept { All (IsKeptFor (opened_by state.now)) (map B.meaning boxes.new.items) }
    ensures keeps { EachBecomes KeepsViews (map B.meaning boxes.old.items) (map B.meaning boxes.new.items) }
    ensures measured { IsMeasured (open_seen (map B.meaning boxes.old.items) state.now) (open_seen (map B.meaning boxes.new.items) state.now)
        result steps.old steps.new }
{
    refresh_fb(boxes, &state.graph, steps)?;
    let text = sizes_of(alloc, boxes, state)?;
    Ok(text)
}
