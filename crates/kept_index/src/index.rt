// The index.
ghost use Rattle.std.specs.Prelude.{◌≡◌, ◌<◌, IfOk, OnOk, OnErr, None};
ghost use Rattle.graph_steps.specs.NewChanges.{IsNew};
ghost use Rattle.index_api.specs.Meanings.{IsReady, IsPrepared};

use crate::kept_views::KeptViews;
use graph_update::Change;
use index_api::{Kind, PathIndex};
use label_graph::{Graph, GraphView};
use px_base::{Memory, Steps};
use quotient::Summary;
use std::alloc::Global;
use std::marker::Brand;
use std::sync::ledger::{Blank, Ledger};

/// An index of a graph over what it keeps, which is nothing before its first build. Each kind is an alias, as `AkIndex`
/// and `OneKept`.
pub struct KeptIndex<K> {
    alloc: Global,
    kept: Option<K>,
}

// Written out, so that the proof of an owner sees one call and not the drop of each table.
impl<K: Drop> Drop for KeptIndex<K> {
    fn drop(self) {
        let KeptIndex {
            alloc: _alloc,
            kept: _kept,
        } = self;
    }
}

impl<K: KeptViews> KeptIndex<K> {
    /// An index without views. O(1); it takes no memory until it is built.
    pub fn new(alloc: Global) -> Result<KeptIndex<K>, Memory>
        ensures { IfOk result (λ index. K.meaning_of index.kept ≡ K.meaning_of None) }
    {
        Ok(KeptIndex { alloc, kept: None })
    }

    /// Stages what a change will make of the index, as `prepare` does, and counts steps. How many they are at most, and
    /// the time and the memory, each alias of the index says. Where memory runs out, it leaves the index as it was.
    pub fn prepare_counted<L: Ledger>(
        &mut self,
        graph: &Graph,
        change: &Change,
        steps: &mut Steps<L>,
    ) -> Result<(), Memory>
        requires ready { IsReady (K.meaning_of self.old.kept) graph.now.graph }
        requires new { IsNew change.now graph.now.graph }
        ensures staged { OnOk result (IsPrepared (K.meaning_of self.old.kept) (K.meaning_of self.new.kept) change.now graph.now.graph) }
        ensures err { OnErr result (K.meaning_of self.new.kept ≡ K.meaning_of self.old.kept) }
        ensures cost { K.IsWithinCost (K.meaning_of self.old.kept).views change.now graph.now.graph steps.old steps.new }
        ensures free { K.IsFree change.now (K.meaning_of self.old.kept).views steps.old steps.new }
    {
        let alloc = self.alloc;
        match &mut self.kept {
            Some(kept) => kept.prepare(alloc, graph, change, steps),
            None => unreachable!(),
        }
    }
}

// Stages what a change will make of the index, with a count of steps of its own.
fn counted_prepare<K: KeptViews, L: Ledger>(
    index: &mut KeptIndex<K>,
    graph: &Graph,
    change: &Change,
    blank: Blank,
) -> Result<(), Memory>
    requires name { blank.name ≡ L.name }
    requires parts { blank.parts ≡ L.parts }
    requires some { 0 < blank.parts }
    requires ready { IsReady (K.meaning_of index.old.kept) graph.now.graph }
    requires new { IsNew change.now graph.now.graph }
    ensures staged { OnOk result (IsPrepared (K.meaning_of index.old.kept) (K.meaning_of index.new.kept) change.now graph.now.graph) }
    ensures err { OnErr result (K.meaning_of index.new.kept ≡ K.meaning_of index.old.kept) }
{
    let mut steps = Steps::<L>::new(blank);
    index.prepare_counted(graph, change, &mut steps)
}

impl<K: KeptViews> PathIndex for KeptIndex<K> {
    ghost meaning = { λ index. K.meaning_of index.kept };

    fn kind(&self) -> Kind {
        K::kind()
    }

    fn build(&mut self, view: &GraphView<'_>, k: u32) -> Result<(), Memory> {
        let kept = K::build(self.alloc, view, k)?;
        self.kept = Some(kept);
        Ok(())
    }

    fn prepare(&mut self, graph: &Graph, change: &Change) -> Result<(), Memory> {
        counted_prepare::<K, Brand>(self, graph, change, Blank::new(1))
    }

    fn commit(&mut self) {
        let alloc = self.alloc;
        if let Some(kept) = &mut self.kept {
            kept.commit(alloc);
        }
    }

    fn cancel(&mut self) {
        let alloc = self.alloc;
        if let Some(kept) = &mut self.kept {
            kept.cancel(alloc);
        }
    }

    fn refresh(&mut self, _view: &GraphView<'_>) -> Result<(), Memory> {
        Ok(())
    }

    fn summary(&self, level: u32) -> Option<&Summary> {
        match &self.kept {
            Some(kept) => kept.summary(level),
            None => None,
        }
    }
}
