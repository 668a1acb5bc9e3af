// The nodes of a graph, and their lists of neighbours.
ghost use Rattle.std.specs.Prelude.{◌≡◌, ◌<◌, ◌≤◌, ◌+◌, ◌==◌, ◌++◌, ◌∷◌, [], ℕ, if◌then◌else◌, Some, None, IfOk, IfSome, OnOk, OnErr, length, slice_set, nat_eq, IsTrue, true};
ghost use Rattle.std.specs.List.{IsDistinct};
ghost use Rattle.graph_spec.specs.Members.{has};
ghost use Rattle.label_graph.specs.Nodes.{labels_of, number_at, children_of, parents_of, Mirrors, IsKept, SameNodes, HasReserved, KeepsReserved, UsesReserved, IsGoneBeside, LacksEdge};
ghost use Rattle.label_graph.specs.NodeRows.{list_of, with_list};

use crate::gone::GoneLists;
use bisim_spec::Side;
use cell_lists::{EMPTY, Segment, exchange, is_last, items, make_place, push, take_out};
use px_base::{Memory, NodeId};
use std::alloc::Global;
use std::marker::Model;

/// One node: its neighbours, and the number of its label in the table, or none where the node is gone. Whether it is
/// there stands beside its children, so that adding an edge touches one cache line at the node where it begins.
#[derive(Clone, Copy)]
pub(crate) struct Row {
    pub(crate) children: Segment,
    pub(crate) label: Option<u32>,
    pub(crate) parents: Segment,
}

impl Row {
    // The list on that side.
    #[inline(always)]
    fn list(&self, side: Side) -> Segment
        ensures { result ≡ list_of side self.now }
    {
        match side {
            Side::Parents => self.parents,
            Side::Children => self.children,
        }
    }

    #[inline(always)]
    fn set_list(&mut self, side: Side, list: Segment)
        ensures { self.new ≡ with_list side self.old list }
    {
        match side {
            Side::Parents => self.parents = list,
            Side::Children => self.children = list,
        }
    }
}

/// A row for a node to come.
const SPARE: Row = Row {
    children: EMPTY,
    label: None,
    parents: EMPTY,
};

/// The nodes, each with its label and with its neighbours, each once. Lists of neighbours lie in one array, so that no
/// node takes an allocation of its own. A node takes 32 bytes. A list that never had two numbers takes no more; any
/// other takes 4 to 16 bytes for each of the most neighbours that it ever had, and keeps them when it shrinks. Once its
/// node is gone, its cells go to a list of the same kind, children or parents, that needs as much. What is noted of such
/// cells takes 256 bytes in all. So the cells depend on how much was in use at once, not on how many nodes there ever were.
/// Behind the rows that are shown lie those of nodes to come, with the capacity that is reserved for their edges.
pub(crate) struct Nodes {
    rows: Vec<Row>,
    shown: usize,
    cells: Vec<u32>,
    gone: GoneLists,
}

impl Drop for Nodes {
    // By hand, so that no function above proves how the tables are dropped.
    fn drop(self) {
        let Nodes {
            rows,
            shown: _,
            cells,
            gone: _,
        } = self;
        drop(rows);
        drop(cells);
    }
}

impl Model for Nodes {
    ghost use Rattle.label_graph.specs.Nodes.{NodeTable, node_table_code};
    ghost use Rattle.label_graph.specs.NodeRows.{nodes_in, AreRows};

    ghost Value = { NodeTable };

    ghost coded = { node_table_code };

    ghost view = { λ n. record { nodes = nodes_in n.cells.items n.rows.items; shown = n.shown } };

    ghost invariant = { λ n. AreRows n.cells.items n.rows.items n.shown };
}

// Reading.
impl Nodes {
    /// How many are shown, gone ones too.
    pub(crate) fn shown(&self) -> usize
        ensures { result ≡ self.now.shown }
    {
        self.shown
    }

    /// How many cells there are.
    #[cfg(test)]
    pub(crate) fn cell_count(&self) -> usize {
        self.cells.len()
    }

    /// The number of a node's label, and none where the node is gone or its number isn't allocated.
    pub(crate) fn label(&self, n: NodeId) -> Option<u32>
        ensures { result ≡ number_at (labels_of self.now.shown self.now.nodes) n }
    {
        let row = self.rows.get(n as usize)?;
        row.label
    }

    /// The children of a node, and none for a number that isn't allocated.
    pub(crate) fn children(&self, n: NodeId) -> &[NodeId]
        ensures { result.now ≡ children_of self.now.nodes n }
    {
        match self.rows.get(n as usize) {
            Some(row) => items(&self.cells, &row.children),
            None => &[],
        }
    }

    /// The parents of a node, and none for a number that isn't allocated.
    pub(crate) fn parents(&self, n: NodeId) -> &[NodeId]
        ensures { result.now ≡ parents_of self.now.nodes n }
    {
        match self.rows.get(n as usize) {
            Some(row) => items(&self.cells, &row.parents),
            None => &[],
        }
    }

    /// Whether an edge leads from one node to the other. It reads the last entries of the two lists that tell, where a
    /// new edge is put, and then the shorter list.
    pub(crate) fn is_edge(&self, u: NodeId, v: NodeId) -> bool
        requires { Mirrors self.now.nodes }
        ensures { result ≡ has (children_of self.now.nodes u) v }
    {
        let below = self.children(u);
        let above = self.parents(v);
        if is_last(below, v) || is_last(above, u) {
            return true;
        }
        if below.len() <= above.len() {
            below.contains(&v)
        } else {
            above.contains(&u)
        }
    }
}

// Writing.
impl Nodes {
    /// No nodes.
    pub(crate) fn new(alloc: Global) -> Nodes
        ensures { result ≡ record { nodes = []; shown = 0 } }
    {
        Nodes {
            rows: Vec::new(alloc),
            shown: 0,
            cells: Vec::new(alloc),
            gone: GoneLists::new(),
        }
    }

    /// Reserves a row for a node to come, where there are rows for that many.
    pub(crate) fn reserve_node(&mut self, ahead: usize) -> Result<(), Memory>
        requires { self.old.shown + ahead ≤ length self.old.nodes }
        ensures same { SameNodes self.old.shown self.old.nodes self.new.nodes }
        ensures shown { self.new.shown ≡ self.old.shown }
        ensures ok { OnOk result (self.old.shown + ahead < length self.new.nodes) }
        ensures err { OnErr result (self.new ≡ self.old) }
    {
        if self.rows.len() > self.shown + ahead {
            return Ok(());
        }
        self.rows.push(SPARE)?;
        Ok(())
    }

    /// Makes the first node to come one that is shown.
    pub(crate) fn push_node(&mut self, label: u32)
        requires reserved { self.old.shown < length self.old.nodes }
        ensures shown { self.new.shown ≡ self.old.shown + 1 }
        ensures labels { labels_of self.new.shown self.new.nodes ≡ labels_of self.old.shown self.old.nodes ++ Some label ∷ [] }
        ensures children { (w : ℕ) → children_of self.new.nodes w ≡ children_of self.old.nodes w }
        ensures parents { (w : ℕ) → parents_of self.new.nodes w ≡ parents_of self.old.nodes w }
        ensures reserved { KeepsReserved self.old.nodes self.new.nodes }
    {
        self.rows[self.shown].label = Some(label);
        self.shown += 1;
    }

    /// Reserves capacity for an edge beside that for so many from `u` and so many to `v`.
    pub(crate) fn reserve_edge(
        &mut self,
        u: NodeId,
        v: NodeId,
        from: usize,
        onto: usize,
    ) -> Result<(), Memory>
        requires from { u < length self.old.nodes }
        requires onto { v < length self.old.nodes }
        requires kept { IsKept self.old.shown self.old.nodes u × IsKept self.old.shown self.old.nodes v }
        requires reserved { HasReserved self.old.nodes u v from onto }
        ensures same { SameNodes self.old.shown self.old.nodes self.new.nodes }
        ensures shown { self.new.shown ≡ self.old.shown }
        ensures reserved { OnOk result (HasReserved self.new.nodes u v (from + 1) (onto + 1)) }
    {
        self.reuse(u, Side::Children, from);
        self.reuse(v, Side::Parents, onto);
        self.reserve_behind(u, v, from, onto)?;
        Ok(())
    }

    // Reserves capacity for an edge behind all cells, where there is none.
    fn reserve_behind(
        &mut self,
        u: NodeId,
        v: NodeId,
        from: usize,
        onto: usize,
    ) -> Result<(), Memory>
        requires from { u < length self.old.nodes }
        requires onto { v < length self.old.nodes }
        requires reserved { HasReserved self.old.nodes u v from onto }
        ensures same { SameNodes self.old.shown self.old.nodes self.new.nodes }
        ensures shown { self.new.shown ≡ self.old.shown }
        ensures reserved { OnOk result (HasReserved self.new.nodes u v (from + 1) (onto + 1)) }
    {
        make_place(&mut self.cells, &mut self.rows[u as usize].children, from)?;
        make_place(&mut self.cells, &mut self.rows[v as usize].parents, onto)?;
        Ok(())
    }

    /// Writes an edge into both lists.
    pub(crate) fn push_edge(&mut self, u: NodeId, v: NodeId)
        requires from { u < length self.old.nodes }
        requires onto { v < length self.old.nodes }
        requires reserved { HasReserved self.old.nodes u v 1 1 }
        ensures children { (w : ℕ) → children_of self.new.nodes w ≡ children_of self.old.nodes w ++ (if w == u then v ∷ [] else []) }
        ensures parents { (w : ℕ) → parents_of self.new.nodes w ≡ parents_of self.old.nodes w ++ (if w == v then u ∷ [] else []) }
        ensures labels { labels_of self.new.shown self.new.nodes ≡ labels_of self.old.shown self.old.nodes }
        ensures shown { self.new.shown ≡ self.old.shown }
        ensures reserved { UsesReserved self.old.nodes self.new.nodes u v }
    {
        push(&mut self.cells, &mut self.rows[u as usize].children, v);
        push(&mut self.cells, &mut self.rows[v as usize].parents, u);
    }

    /// Takes an edge out of both lists. It scans each of them once, but for the last and the first places.
    pub(crate) fn remove_edge(&mut self, u: NodeId, v: NodeId)
        requires from { u < length self.old.nodes }
        requires onto { v < length self.old.nodes }
        requires children_once { IsDistinct nat_eq (children_of self.old.nodes u) }
        requires parents_once { IsDistinct nat_eq (parents_of self.old.nodes v) }
        ensures lacking { LacksEdge self.old.shown self.old.nodes self.new.nodes u v }
        ensures shown { self.new.shown ≡ self.old.shown }
        ensures reserved { KeepsReserved self.old.nodes self.new.nodes }
    {
        take_out(&mut self.cells, &mut self.rows[u as usize].children, v);
        take_out(&mut self.cells, &mut self.rows[v as usize].parents, u);
    }

    /// Takes the label of a node away, so that the node is gone. The cells of its lists are used again.
    pub(crate) fn clear_label(&mut self, n: NodeId)
        requires { n < self.old.shown }
        ensures labels { labels_of self.new.shown self.new.nodes ≡ slice_set (labels_of self.old.shown self.old.nodes) n None }
        ensures shown { self.new.shown ≡ self.old.shown }
        ensures reserved { KeepsReserved self.old.nodes self.new.nodes }
        ensures children { (w : ℕ) → children_of self.new.nodes w ≡ children_of self.old.nodes w }
        ensures parents { (w : ℕ) → parents_of self.new.nodes w ≡ parents_of self.old.nodes w }
    {
        self.write_label(n, None);
        self.offer(n, Side::Children);
        self.offer(n, Side::Parents);
    }

    /// Writes the number of a node's label, or none, which leaves the node gone and the cells of its lists with it.
    pub(crate) fn write_label(&mut self, n: NodeId, label: Option<u32>)
        requires { n < self.old.shown }
        ensures labels { labels_of self.new.shown self.new.nodes ≡ slice_set (labels_of self.old.shown self.old.nodes) n label }
        ensures shown { self.new.shown ≡ self.old.shown }
        ensures reserved { KeepsReserved self.old.nodes self.new.nodes }
        ensures children { (w : ℕ) → children_of self.new.nodes w ≡ children_of self.old.nodes w }
        ensures parents { (w : ℕ) → parents_of self.new.nodes w ≡ parents_of self.old.nodes w }
    {
        self.rows[n as usize].label = label;
    }
}

// Cells of gone nodes, and their use.
impl Nodes {
    // Puts the cells of a gone node's list in front of the others.
    fn offer(&mut self, n: NodeId, side: Side)
        ensures { self.new ≡ self.old }
    {
        let Some(row) = self.rows.get(n as usize) else {
            return;
        };
        let list = row.list(side);
        self.gone.offer(&mut self.cells, &list, side, n);
    }

    // The node g itself, if it is gone and another than u.
    fn gone_beside(&self, u: NodeId, g: NodeId) -> Option<NodeId>
        ensures { IfSome result (IsGoneBeside self.now.shown self.now.nodes u) }
    {
        let row = self.rows.get(g as usize)?;
        if row.label.is_some() || g == u || g as usize >= self.shown {
            return None;
        }
        Some(g)
    }

    // Moves a list of a node, where no more than that many numbers fit beside its own, to the cells of a gone node's.
    fn reuse(&mut self, u: NodeId, side: Side, taken: usize)
        requires { u < length self.old.nodes }
        ensures same { SameNodes self.old.shown self.old.nodes self.new.nodes }
        ensures shown { self.new.shown ≡ self.old.shown }
    {
        let mut list = self.rows[u as usize].list(side);
        let Some(g) = self.gone_beside(u, self.gone.first_for(&list, side, taken)) else {
            return;
        };
        let mut vacant = self.rows[g as usize].list(side);
        self.gone.withdraw(&self.cells, &vacant, side);
        exchange(&mut self.cells, &mut list, &mut vacant);
        self.rows[u as usize].set_list(side, list);
        self.rows[g as usize].set_list(side, vacant);
        self.offer(g, side);
    }
}
