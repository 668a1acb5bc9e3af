// The index.
ghost use Rattle.std.specs.Prelude.{◌≡◌, ◌≤◌, IfOk, OnOk, OnErr, IsSome, None, Ok, true, false};
ghost use Rattle.graph_steps.specs.NewChanges.{IsNew};
ghost use Rattle.index_api.specs.Meanings.{IsReady, IsBuilt, IsPrepared};
ghost use Rattle.fb_index.specs.FbMeanings.{fb_meaning, meaning_of};

use crate::building::summary_of_view;
use graph_update::Change;
use index_api::{Kind, PathIndex};
use label_graph::{Graph, GraphView};
use px_base::Memory;
use quotient::Summary;
use std::alloc::Global;

/// The forward and backward index of a graph. A change leaves no view of it, which takes no memory, and the time to
/// drop the view that there was; the next `refresh` computes the view of the graph as it is then. A build or a refresh
/// finds the key of each node first, and then in rounds of those next to nodes that moved. Expected O(r (n + m log d))
/// at most for r rounds, n node numbers, m edges and at most d neighbours of a node on a side; it takes O(n + m)
/// memory.
///
/// After a change the view is computed when it is asked for:
///
///     let mut index = FbIndex::new(alloc)?;
///     index.build(&graph.view(&mut steps), 0)?;
///     index.prepare(&graph, &change)?;
///     index.commit();
///     index.refresh(&graph.view(&mut steps))?;
pub struct FbIndex {
    alloc: Global,
    summary: Option<Summary>,
    is_staged: bool,
}

// Written out, so that the proof of an owner sees one call and not the drop of each table.
impl Drop for FbIndex {
    fn drop(self) {
        let FbIndex {
            alloc: _alloc,
            summary: _summary,
            is_staged: _is_staged,
        } = self;
    }
}

impl FbIndex {
    /// An index without a view. O(1); it takes no memory until it is built.
    pub fn new(alloc: Global) -> Result<FbIndex, Memory>
        ensures { IfOk result (λ index. fb_meaning index ≡ meaning_of None false) }
    {
        Ok(FbIndex {
            alloc,
            summary: None,
            is_staged: false,
        })
    }
}

impl PathIndex for FbIndex {
    ghost use Rattle.fb_index.specs.FbMeanings.{meaning_of as the_meaning_of};

    ghost meaning = { λ index. the_meaning_of index.summary index.is_staged };

    fn kind(&self) -> Kind {
        Kind::Fb
    }

    // The view is computed.
    fn build(&mut self, view: &GraphView<'_>, _k: u32) -> Result<(), Memory>
        requires level { _k ≤ 8 }
        ensures built { OnOk result (IsBuilt (fb_meaning self.old) (fb_meaning self.new) view.now _k) }
        ensures err { OnErr result (fb_meaning self.new ≡ fb_meaning self.old) }
        ensures computed { OnOk result (IsSome self.new.summary) }
    {
        let summary = summary_of_view(self.alloc, view)?;
        self.summary = Some(summary);
        self.is_staged = false;
        Ok(())
    }

    // A view is staged that isn't computed. It takes no memory.
    fn prepare(&mut self, _graph: &Graph, _change: &Change) -> Result<(), Memory>
        requires ready { IsReady (fb_meaning self.old) _graph.now.graph }
        requires new { IsNew _change.now _graph.now.graph }
        ensures staged { OnOk result (IsPrepared (fb_meaning self.old) (fb_meaning self.new) _change.now _graph.now.graph) }
        ensures err { OnErr result (fb_meaning self.new ≡ fb_meaning self.old) }
        ensures bare { (self.new.is_staged ≡ true) × (self.new.summary ≡ self.old.summary) }
        ensures fine { result ≡ Ok tt }
    {
        self.is_staged = true;
        Ok(())
    }

    fn commit(&mut self) {
        self.summary = None;
        self.is_staged = false;
    }

    fn cancel(&mut self) {
        self.is_staged = false;
    }

    fn refresh(&mut self, view: &GraphView<'_>) -> Result<(), Memory> {
        if self.summary.is_none() {
            let summary = summary_of_view(self.alloc, view)?;
            self.summary = Some(summary);
        }
        Ok(())
    }

    fn summary(&self, level: u32) -> Option<&Summary> {
        if level == 0 {
            return self.summary.as_ref();
        }
        None
    }
}
