// The graph.
ghost use Rattle.std.specs.Prelude.{◌≡◌, ◌<◌, ◌≤◌, ◌+◌, ◌^◌, ◌↔◌, length, IsTrue, IfOk, OnOk, OnErr, IfSome, IfNone, Some, slice_get, true, false, List, ℕ, is_some};
ghost use Rattle.std.specs.FinSet as set;
ghost use Rattle.graph_spec.specs.Graphs.{IsGraph, empty_graph, is_live, label_of, has_edge, is_seen};
ghost use Rattle.graph_spec.specs.Changes.{with_edge, without_edge, without_node, is_used};
ghost use Rattle.graph_spec.specs.Members.{Lists};
ghost use Rattle.graph_spec.specs.Shapes.{shape_of};
ghost use Rattle.change_spec.specs.Steps.{labelled};
ghost use Rattle.label_graph.specs.ReservedGraphs.{none_reserved, with_reserved_label, with_reserved_pair, with_reserved_relabel, without_reserved_pair, without_reserved_relabel, has_pair, can_be_joined, FitsLabels, FirstFitsLabels, AddsReserved};
ghost use Rattle.label_graph.specs.GraphViews.{label_number, is_linked, numbered_shape, live_count, edge_count};

use crate::labels::Labels;
use crate::node::Nodes;
use crate::numbers::{show, take_number};
use crate::pairs::ReservedPairs;
use crate::view::GraphView;
use px_base::{Memory, NodeId, Steps, Text};
use std::alloc::Global;
use std::marker::Model;
use std::sync::ledger::Ledger;

/// A directed graph with a label on each node, and capacity reserved for what is to be done: a list of labels, for the
/// nodes to come in their order, a list of pairs, for edges, and a list of labels for nodes that there are. Nodes have the
/// numbers from 0 in the order in which they were added; at most 2^30 nodes, 2^30 edges and 2^30 labels that were ever
/// seen.
///
/// An addition is made in two calls, of which only the first can fail, and so is another label for a node:
///
///     let mut graph = Graph::new(alloc)?;
///     graph.reserve_node(alloc, &label)?;
///     let ana = graph.add_node();
///     graph.reserve_node(alloc, &label)?;
///     let bo = graph.add_node();
///     graph.reserve_edge(ana, bo)?;
///     graph.add_edge(ana, bo);
///     graph.reserve_label(alloc, &other)?;
///     graph.set_label(bo, &other);
pub struct Graph {
    labels: Labels,
    nodes: Nodes,
    node_count: u32,
    edge_count: u32,
    label_numbers: Vec<u32>,
    pairs: ReservedPairs,
    relabel_numbers: Vec<u32>,
}

impl Drop for Graph {
    // By hand, so that no crate above proves how the tables are dropped.
    fn drop(self) {
        let Graph {
            labels,
            nodes,
            node_count: _,
            edge_count: _,
            label_numbers,
            pairs,
            relabel_numbers,
        } = self;
        drop(labels);
        drop(nodes);
        drop(label_numbers);
        drop(pairs);
        drop(relabel_numbers);
    }
}

impl Model for Graph {
    ghost use Rattle.label_graph.specs.ReservedGraphs.{ReservedGraph, reserved_graph_code};

    ghost Value = { ReservedGraph };

    ghost coded = { reserved_graph_code };

    ghost use Rattle.label_graph.specs.ReservedGraphs.{graph_by, reserved_by};
    ghost use Rattle.label_graph.specs.Soundness.{IsSoundGraph};

    ghost view = { λ g. record {
      graph = graph_by g.labels g.nodes.shown g.nodes.nodes;
      reserved = reserved_by g.labels g.label_numbers.items g.pairs g.relabel_numbers.items;
    } };

    ghost invariant = { λ g.
        IsSoundGraph g.labels g.nodes.shown g.nodes.nodes g.edge_count g.node_count g.label_numbers.items g.pairs g.relabel_numbers.items };
}

// Reading.
impl Graph {
    /// The labels that were ever seen, those of gone nodes too. O(1), no memory.
    pub fn labels(&self) -> &Labels
        ensures seen { result.now.texts ≡ self.now.graph.seen }
        ensures graph { IsGraph self.now.graph }
    {
        &self.labels
    }

    /// Whether the number is that of a live node. O(1), no memory.
    pub fn is_live(&self, n: NodeId) -> bool
        ensures live { result ≡ is_live self.now.graph n }
        ensures number { result ≡ is_some (label_number self.now.graph n) }
        ensures graph { IsGraph self.now.graph }
    {
        self.nodes.label(n).is_some()
    }

    /// The number of a live node's label in `labels`. O(1), no memory.
    pub fn label(&self, n: NodeId) -> u32
        requires live { IsTrue (is_live self.now.graph n) }
        ensures text { slice_get self.now.graph.seen result ≡ label_of self.now.graph n }
        ensures number { label_number self.now.graph n ≡ Some result }
    {
        self.nodes.label(n).unwrap()
    }

    /// How many node numbers were allocated, those of gone nodes too: at most 2^30. O(1), no memory.
    pub fn created(&self) -> u32
        ensures count { result ≡ length self.now.graph.allocated }
        ensures few { result ≤ 2 ^ 30 }
        ensures graph { IsGraph self.now.graph }
    {
        self.nodes.shown() as u32
    }

    /// How many nodes are live: at most 2^30. O(1), no memory.
    pub fn node_count(&self) -> u32
        ensures count { result ≡ live_count self.now.graph }
        ensures few { result ≤ 2 ^ 30 }
    {
        self.node_count
    }

    /// How many edges there are: at most 2^30. O(1), no memory.
    pub fn edge_count(&self) -> u32
        ensures count { result ≡ edge_count self.now.graph }
        ensures few { result ≤ 2 ^ 30 }
        ensures graph { IsGraph self.now.graph }
    {
        self.edge_count
    }

    /// Whether an edge leads from `u` to `v`; numbers that aren't allocated have none. It is one step. O(min(c, p))
    /// for c children of `u` and p parents of `v`, no memory.
    pub fn has_edge<L: Ledger>(&self, u: NodeId, v: NodeId, steps: &mut Steps<L>) -> bool
        ensures edge { result ≡ has_edge self.now.graph u v }
        ensures cost { steps.new ≡ steps.old + 1 }
    {
        steps.tick();
        self.nodes.is_edge(u, v)
    }

    /// The nodes from which an edge leads to this one, each once, in no stated order; none where the number
    /// isn't that of a live node. It is one step, and one for each of them. O(1), no memory.
    pub fn parents<L: Ledger>(&self, n: NodeId, steps: &mut Steps<L>) -> &[NodeId]
        ensures parents { Lists (λ u. has_edge self.now.graph u n) result.now }
        ensures cost { steps.new ≡ steps.old + 1 + length result.now }
    {
        let parents = self.parent_list(n);
        steps.tick();
        steps.tick_by(parents.len());
        parents
    }

    /// The nodes to which an edge leads from this one, each once, in no stated order; none where the number
    /// isn't that of a live node. It is one step, and one for each of them. O(1), no memory.
    pub fn children<L: Ledger>(&self, n: NodeId, steps: &mut Steps<L>) -> &[NodeId]
        ensures children { Lists (has_edge self.now.graph n) result.now }
        ensures cost { steps.new ≡ steps.old + 1 + length result.now }
    {
        let children = self.child_list(n);
        steps.tick();
        steps.tick_by(children.len());
        children
    }

    /// Whether no edge begins or ends at a node; numbers that aren't allocated have none. It is one step. O(1), no
    /// memory.
    pub fn is_isolated<L: Ledger>(&self, n: NodeId, steps: &mut Steps<L>) -> bool
        ensures isolated { IsTrue result ↔ (is_used self.now.graph n ≡ false) }
        ensures cost { steps.new ≡ steps.old + 1 }
    {
        steps.tick();
        self.child_list(n).is_empty() && self.parent_list(n).is_empty()
    }

    /// Some child of a node, and `None` exactly where it has none. It is one step. O(1), no memory.
    pub fn any_child<L: Ledger>(&self, n: NodeId, steps: &mut Steps<L>) -> Option<NodeId>
        ensures child { IfSome result (λ v. has_edge self.now.graph n v ≡ true) }
        ensures none { IfNone result ((v : ℕ) → has_edge self.now.graph n v ≡ false) }
        ensures cost { steps.new ≡ steps.old + 1 }
    {
        steps.tick();
        self.child_list(n).last().copied()
    }

    /// Some parent of a node, and `None` exactly where it has none. It is one step. O(1), no memory.
    pub fn any_parent<L: Ledger>(&self, n: NodeId, steps: &mut Steps<L>) -> Option<NodeId>
        ensures parent { IfSome result (λ u. has_edge self.now.graph u n ≡ true) }
        ensures none { IfNone result ((u : ℕ) → has_edge self.now.graph u n ≡ false) }
        ensures cost { steps.new ≡ steps.old + 1 }
    {
        steps.tick();
        self.parent_list(n).last().copied()
    }

    /// The graph as queries and indexes read it. Reads of the view aren't counted, so it costs a step, one for
    /// each live node and one for each edge. The label numbers of the view are those of `labels`, and it shows
    /// the graph's shape. O(1), no memory.
    pub fn view<L: Ledger>(&self, steps: &mut Steps<L>) -> GraphView<'_>
        ensures view { result ≡ self.now.graph }
        ensures cost { steps.new ≡ steps.old + 1 + live_count self.now.graph + edge_count self.now.graph }
        ensures graph { IsGraph self.now.graph }
        ensures shape { numbered_shape self.now.graph ≡ shape_of self.now.graph }
        ensures labelled { (n l : ℕ) → label_number self.now.graph n ≡ Some l → l < length self.now.graph.seen }
    {
        steps.tick();
        steps.tick_by(self.node_count as usize);
        steps.tick_by(self.edge_count as usize);
        GraphView::new(self)
    }

    /// How many cells the lists of neighbours have.
    #[cfg(test)]
    pub(crate) fn cell_count(&self) -> usize {
        self.nodes.cell_count()
    }

    // The parents, with no step.
    pub(crate) fn parent_list(&self, n: NodeId) -> &[NodeId]
        ensures edges { Lists (λ u. has_edge self.now.graph u n) result.now }
        ensures links { Lists (λ u. is_linked self.now.graph u n) result.now }
    {
        self.nodes.parents(n)
    }

    // The children, with no step.
    pub(crate) fn child_list(&self, n: NodeId) -> &[NodeId]
        ensures edges { Lists (has_edge self.now.graph n) result.now }
        ensures links { Lists (is_linked self.now.graph n) result.now }
    {
        self.nodes.children(n)
    }
}

// Reserving capacity, and what it is for.
impl Graph {
    /// A graph with no nodes. O(1); it takes 16 KiB.
    pub fn new(alloc: Global) -> Result<Graph, Memory>
        ensures { IfOk result (λ g. g ≡ record { graph = empty_graph; reserved = none_reserved }) }
    {
        let labels = Labels::new(alloc)?;
        Ok(Graph {
            labels,
            nodes: Nodes::new(alloc),
            node_count: 0,
            edge_count: 0,
            label_numbers: Vec::new(alloc),
            pairs: ReservedPairs::new(alloc),
            relabel_numbers: Vec::new(alloc),
        })
    }

    /// Reserves capacity for a node with that label, behind what is reserved. Where memory runs out all is as before.
    /// Expected O(b) for a label of b bytes, amortized. A node takes 32 bytes, and a label that is new its text and its
    /// entry in the table.
    pub fn reserve_node(&mut self, alloc: Global, label: &Text) -> Result<(), Memory>
        ensures graph { self.new.graph ≡ self.old.graph }
        ensures ok { OnOk result (self.new.reserved ≡ with_reserved_label self.old.reserved label.now) }
        ensures err { OnErr result (self.new ≡ self.old) }
    {
        self.nodes.reserve_node(self.label_numbers.len())?;
        self.label_numbers.reserve(1)?;
        let number = self.labels.reserve(alloc, label)?;
        self.label_numbers.push_reserved(number);
        Ok(())
    }

    /// Reserves capacity for an edge, behind what is reserved. Each of its ends is a live node, or one for which a label
    /// is reserved. Where memory runs out all is as before. Amortized O(1), and O(r) where one of the r edges for which
    /// capacity is reserved begins at `u`, ends at `v`, or shares a mark with one that does. An edge takes none to 32
    /// bytes: a node's first child and its first parent lie in the node, and each other takes 4 to 16.
    pub fn reserve_edge(&mut self, u: NodeId, v: NodeId) -> Result<(), Memory>
        requires from { IsTrue (can_be_joined self.old u) }
        requires onto { IsTrue (can_be_joined self.old v) }
        ensures graph { self.new.graph ≡ self.old.graph }
        ensures ok { OnOk result (self.new.reserved ≡ with_reserved_pair self.old.reserved u v) }
        ensures err { OnErr result (self.new ≡ self.old) }
    {
        let from = self.pairs.starting(u);
        let onto = self.pairs.ending(v);
        self.nodes.reserve_edge(u, v, from, onto)?;
        self.pairs.push(u, v)?;
        Ok(())
    }

    /// Reserves capacity for giving that label to a node that there is, behind what is reserved. Where memory runs out all
    /// is as before. Expected O(b) for a label of b bytes, amortized. It takes 4 bytes, and a label that is new its text and
    /// its entry in the table.
    pub fn reserve_label(&mut self, alloc: Global, label: &Text) -> Result<(), Memory>
        ensures graph { self.new.graph ≡ self.old.graph }
        ensures ok { OnOk result (self.new.reserved ≡ with_reserved_relabel self.old.reserved label.now) }
        ensures err { OnErr result (self.new ≡ self.old) }
    {
        self.relabel_numbers.reserve(1)?;
        let number = self.labels.reserve(alloc, label)?;
        self.relabel_numbers.push_reserved(number);
        Ok(())
    }

    /// Adds a node with the first label that is reserved for one, and gives its number, the next one. A label that wasn't
    /// seen yet comes behind those seen. O(r) where r labels are reserved, no memory.
    pub fn add_node(&mut self) -> NodeId
        requires reserved { 0 < length self.old.reserved.labels }
        requires few { length self.old.graph.allocated < 2 ^ 30 }
        requires few_labels { FirstFitsLabels self.old }
        ensures number { result ≡ length self.old.graph.allocated }
        ensures added { AddsReserved self.old self.new }
    {
        let label = self.label_numbers.remove(0);
        let added = self.nodes.shown() as u32;
        let number = show(
            &mut self.labels,
            &mut self.label_numbers,
            &mut self.relabel_numbers,
            label,
        );
        self.nodes.push_node(number);
        self.node_count += 1;
        added
    }

    /// Gives a live node a label for which capacity is reserved. A label that wasn't seen yet comes behind those seen; the
    /// one that the node had stays among them. Expected O(b + r) for a label of b bytes, where r labels are reserved, no
    /// memory.
    pub fn set_label(&mut self, u: NodeId, label: &Text)
        requires reserved { IsTrue (is_seen self.old.reserved.relabels label.now) }
        requires live { IsTrue (is_live self.old.graph u) }
        requires few_labels { FitsLabels self.old.graph label.now }
        ensures graph { self.new.graph ≡ labelled self.old.graph u label.now }
        ensures reserved { self.new.reserved ≡ without_reserved_relabel self.old.reserved label.now }
    {
        let entry = self.labels.entry(label).unwrap();
        take_number(&mut self.relabel_numbers, entry);
        let number = show(
            &mut self.labels,
            &mut self.label_numbers,
            &mut self.relabel_numbers,
            entry,
        );
        self.nodes.write_label(u, Some(number));
    }

    /// Adds an edge between live nodes for which capacity is reserved, and which isn't there yet. O(r) where r edges are
    /// reserved, no memory.
    pub fn add_edge(&mut self, u: NodeId, v: NodeId)
        requires reserved { IsTrue (has_pair self.old.reserved.pairs u v) }
        requires from { IsTrue (is_live self.old.graph u) }
        requires onto { IsTrue (is_live self.old.graph v) }
        requires absent { has_edge self.old.graph u v ≡ false }
        requires few { set.len self.old.graph.edges < 2 ^ 30 }
        ensures graph { self.new.graph ≡ with_edge self.old.graph u v }
        ensures reserved { self.new.reserved ≡ without_reserved_pair self.old.reserved u v }
    {
        self.pairs.take(u, v);
        self.nodes.push_edge(u, v);
        self.edge_count += 1;
    }

    /// Leaves nothing reserved. The memory stays with the graph, for later additions. O(r) where r nodes, edges and labels
    /// are reserved, no memory.
    pub fn clear_reserved(&mut self)
        ensures { self.new ≡ record { graph = self.old.graph; reserved = none_reserved } }
    {
        self.labels.clear();
        self.label_numbers.clear();
        self.pairs.clear();
        self.relabel_numbers.clear();
    }
}

// The removals.
impl Graph {
    /// Takes away an edge that is there; what is reserved stays. The order of `u`'s children and of `v`'s parents may
    /// change. O(1) where each end is the first or the last in the list of the other, and else O(c + p) for c children
    /// of `u` and p parents of `v`; no memory.
    pub fn remove_edge(&mut self, u: NodeId, v: NodeId)
        requires present { has_edge self.old.graph u v ≡ true }
        ensures { self.new ≡ record { graph = without_edge self.old.graph u v; reserved = self.old.reserved } }
    {
        self.nodes.remove_edge(u, v);
        self.edge_count -= 1;
    }

    /// Takes away a live node at which no edge begins or ends; what is reserved stays. Its number is never allocated
    /// again, and its label stays among those seen; the cells of its lists go to later edges. O(1), no memory.
    pub fn remove_node(&mut self, u: NodeId)
        requires live { IsTrue (is_live self.old.graph u) }
        requires unused { is_used self.old.graph u ≡ false }
        ensures { self.new ≡ record { graph = without_node self.old.graph u; reserved = self.old.reserved } }
    {
        self.nodes.clear_label(u);
        self.node_count -= 1;
    }
}
