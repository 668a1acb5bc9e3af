// Calls on each of the boxes, and the search for one of a kind.
ghost use Rattle.std.specs.Prelude.{◌≡◌, ◌≢◌, ◌≤◌, not, true, false, length, map, All, OnOk, OnErr, IsSome, MatchOption};
ghost use Rattle.std.specs.List.{AllPairs, filter};
ghost use Rattle.graph_steps.specs.NewChanges.{IsNew};
ghost use Rattle.index_api.specs.Meanings.{IsReady, IsBuilt, IsPrepared, IsCommitted, unstaged};
ghost use Rattle.index_api.specs.IndexKinds.{is_kind, kinds_of, has_kind};
ghost use Rattle.pathindex_core.specs.Engines.{EachBecomes};
ghost use Rattle.pathindex_core.specs.Boxes.{StandsAt};

use graph_update::Change;
use index_api::{Kind, PathIndex};
use label_graph::{Graph, GraphView};
use px_base::Memory;

/// Whether the two kinds are the same.
fn is_kind(kind: Kind, other: Kind) -> bool
    ensures { result ≡ is_kind kind other }
{
    kind == other
}

/// The place of the box of a kind, and None exactly if there is none.
pub(crate) fn box_place<B: PathIndex>(boxes: &Vec<B>, kind: Kind) -> Option<usize>
    ensures { MatchOption result (has_kind (kinds_of (map B.meaning boxes.now.items)) kind ≡ false) (StandsAt (map B.meaning boxes.now.items) kind) }
{
    for i in 0..boxes.len() {
        if is_kind(kind, boxes[i].kind()) {
            return Some(i);
        }
    }
    None
}

/// Takes out the box at a place and drops it.
pub(crate) fn take_out<B: PathIndex>(boxes: &mut Vec<B>, kind: Kind, i: usize)
    requires stands { StandsAt (map B.meaning boxes.old.items) kind i }
    requires apart { AllPairs (λ a b. a.kind ≢ b.kind) (map B.meaning boxes.old.items) }
    ensures { map B.meaning boxes.new.items ≡ filter (λ m. not (is_kind kind m.kind)) (map B.meaning boxes.old.items) }
{
    boxes.remove(i);
}

/// Builds each box. Where one finds no memory, those before it are built.
pub(crate) fn build_all<B: PathIndex>(
    boxes: &mut Vec<B>,
    view: &GraphView<'_>,
    k: u32,
) -> Result<(), Memory>
    requires level { k ≤ 8 }
    ensures ok { OnOk result (EachBecomes (λ a b. IsBuilt a b view.now k) (map B.meaning boxes.old.items) (map B.meaning boxes.new.items)) }
    ensures kinds { kinds_of (map B.meaning boxes.new.items) ≡ kinds_of (map B.meaning boxes.old.items) }
{
    for i in 0..boxes.len() {
        boxes[i].build(view, k)?;
    }
    Ok(())
}

/// Drops what each box has staged.
pub(crate) fn cancel_all<B: PathIndex>(boxes: &mut Vec<B>)
    ensures { map B.meaning boxes.new.items ≡ map unstaged (map B.meaning boxes.old.items) }
{
    for i in 0..boxes.len() {
        boxes[i].cancel();
    }
}

/// Prepares each box for a change. Where one finds no memory, all are as before.
pub(crate) fn prepare_all<B: PathIndex>(
    boxes: &mut Vec<B>,
    graph: &Graph,
    change: &Change,
) -> Result<(), Memory>
    requires ready { All (λ m. IsReady m graph.now.graph) (map B.meaning boxes.old.items) }
    requires new { IsNew change.now graph.now.graph }
    ensures ok { OnOk result (EachBecomes (λ a b. IsPrepared a b change.now graph.now.graph)
        (map B.meaning boxes.old.items) (map B.meaning boxes.new.items)) }
    ensures err { OnErr result (map B.meaning boxes.new.items ≡ map B.meaning boxes.old.items) }
{
    for i in 0..boxes.len() {
        match boxes[i].prepare(graph, change) {
            Ok(()) => {}
            Err(Memory) => {
                cancel_all(boxes);
                return Err(Memory);
            }
        }
    }
    Ok(())
}

/// Puts in force what each box has staged.
pub(crate) fn commit_all<B: PathIndex>(boxes: &mut Vec<B>)
    requires staged { All (λ m. IsSome m.staged) (map B.meaning boxes.old.items) }
    ensures { EachBecomes IsCommitted (map B.meaning boxes.old.items) (map B.meaning boxes.new.items) }
{
    for i in 0..boxes.len() {
        boxes[i].commit();
    }
}
