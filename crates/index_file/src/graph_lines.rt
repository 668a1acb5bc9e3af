// The lines of a graph, one part after another.
ghost use Rattle.std.specs.Prelude.{◌≡◌, ◌<◌, ◌≤◌, ◌++◌, ◌↔◌, Ok, true, false, length, OnOk, string_bytes, IsTrue, [], ℕ};
ghost use Rattle.std.specs.List.Sorted.{IsStrictlyIncreasing};
ghost use Rattle.graph_spec.specs.Graphs.{Graph as TheGraph, has_edge};
ghost use Rattle.graph_spec.specs.Members.{has};
ghost use Rattle.index_file.specs.WrittenFiles.{head_text};
ghost use Rattle.index_file.specs.GraphParts.{lines_left, steps_left, title_text, Gave};
ghost use Rattle.index_file.specs.declared.graph_lines.Stage.TheVariants.{Title, Nodes, Edges};

use crate::graph_text::push_node;
use crate::output::{push_count, push_decimal, push_edge};
use key_table::sort_dedup;
use label_graph::Graph;
use px_base::{Memory, Steps};
use std::alloc::Global;
use std::marker::Brand;
use std::sync::ledger::{Blank, Ledger};

// How many bytes of lines a part has at least, if it isn't the last.
const PART_BYTES: usize = 65536;

// What comes next.
#[derive(Clone, Copy)]
enum Stage {
    Title,
    // The lines of the numbers, and then how many edges there are.
    Nodes,
    // The edges, and then how many views follow.
    Edges,
    Over,
}

/// The lines of `head`, one part after another, so that they are never in memory together.
///
/// All parts, in order:
///
///     let mut lines = GraphLines::new(alloc, 2, 0);
///     let mut part = String::new(alloc);
///     while lines.next(graph, &mut part)? {
///         take(part.as_str());
///         part.clear();
///     }
///     take(part.as_str());
#[derive(Drop)]
pub struct GraphLines {
    k: u32,
    views: u32,
    stage: Stage,
    // The number whose line or whose edges come next.
    number: u32,
    // The node whose edges are given, the nodes to which they lead, rising, and how many of these were given.
    from: u32,
    children: Vec<u32>,
    given: usize,
}

// Appends the first lines.
fn push_title(out: &mut String, created: u32, k: u32) -> Result<(), Memory>
    ensures { OnOk result (string_bytes out.new ≡ string_bytes out.old ++ title_text created k) }
{
    out.push_str("pathindex 1\ngiven ")?;
    push_decimal(out, created)?;
    push_count(out, " k ", k)?;
    Ok(())
}

// Fills a list with the children of a node, rising: with none where the node is gone.
fn fill_children<L: Ledger>(
    list: &mut Vec<u32>,
    graph: &Graph,
    n: u32,
    steps: &mut Steps<L>,
) -> Result<(), Memory>
    ensures rising { OnOk result (IsStrictlyIncreasing list.new.items) }
    ensures members { OnOk result ((v : ℕ) → has list.new.items v ≡ has_edge graph.now.graph n v) }
{
    list.clear();
    list.extend_from_slice(graph.children(n, steps))?;
    sort_dedup(list);
    Ok(())
}

impl GraphLines {
    /// All lines are left, with levels up to `k`, and of so many views. O(1), no memory.
    pub fn new(alloc: Global, k: u32, views: u32) -> GraphLines
        ensures { (graph : TheGraph) → lines_left graph result ≡ head_text graph k views }
    {
        GraphLines {
            k,
            views,
            stage: Stage::Title,
            number: 0,
            from: 0,
            children: Vec::new(alloc),
            given: 0,
        }
    }

    // Gives the first lines.
    fn give_title(&mut self, graph: &Graph, out: &mut String) -> Result<(), Memory>
        requires { self.old.stage ≡ Title }
        ensures given { OnOk result (Gave (string_bytes out.old) (string_bytes out.new)
            (lines_left graph.now.graph self.old) (lines_left graph.now.graph self.new)) }
        ensures fewer { OnOk result (steps_left graph.now.graph self.new < steps_left graph.now.graph self.old) }
    {
        push_title(out, graph.created(), self.k)?;
        self.stage = Stage::Nodes;
        self.number = 0;
        Ok(())
    }

    // Gives the line of the next number, or behind the last how many edges there are.
    fn give_node(&mut self, graph: &Graph, out: &mut String) -> Result<(), Memory>
        requires { self.old.stage ≡ Nodes }
        ensures given { OnOk result (Gave (string_bytes out.old) (string_bytes out.new)
            (lines_left graph.now.graph self.old) (lines_left graph.now.graph self.new)) }
        ensures fewer { OnOk result (steps_left graph.now.graph self.new < steps_left graph.now.graph self.old) }
    {
        if self.number < graph.created() {
            push_node(out, graph, self.number)?;
            self.number += 1;
        } else {
            push_count(out, "edges ", graph.edge_count())?;
            self.stage = Stage::Edges;
            self.number = 0;
            self.given = self.children.len();
        }
        Ok(())
    }

    // Takes up the edges of the next number.
    fn turn<L: Ledger>(&mut self, graph: &Graph, steps: &mut Steps<L>) -> Result<(), Memory>
        requires stage { self.old.stage ≡ Edges }
        requires given { length self.old.children.items ≤ self.old.given }
        requires within { self.old.number < length graph.now.graph.allocated }
        ensures same { OnOk result (lines_left graph.now.graph self.new ≡ lines_left graph.now.graph self.old) }
        ensures fewer { OnOk result (steps_left graph.now.graph self.new < steps_left graph.now.graph self.old) }
    {
        // Called for its contract: numbers fit 32 bits.
        let _known = graph.created();
        fill_children(&mut self.children, graph, self.number, steps)?;
        self.from = self.number;
        self.given = 0;
        self.number += 1;
        Ok(())
    }

    // Gives the next edge of the node, and else the line behind the last edge, if no number is left.
    fn give_edge<L: Ledger>(
        &mut self,
        graph: &Graph,
        out: &mut String,
        steps: &mut Steps<L>,
    ) -> Result<(), Memory>
        requires { self.old.stage ≡ Edges }
        ensures given { OnOk result (Gave (string_bytes out.old) (string_bytes out.new)
            (lines_left graph.now.graph self.old) (lines_left graph.now.graph self.new)) }
        ensures fewer { OnOk result (steps_left graph.now.graph self.new < steps_left graph.now.graph self.old) }
    {
        if self.given < self.children.len() {
            push_edge(out, self.from, self.children[self.given])?;
            self.given += 1;
        } else if self.number < graph.created() {
            self.turn(graph, steps)?;
        } else {
            push_count(out, "views ", self.views)?;
            self.stage = Stage::Over;
        }
        Ok(())
    }

    // Gives the next line, or takes up the edges of the next number. False where no line was left.
    fn step<L: Ledger>(
        &mut self,
        graph: &Graph,
        out: &mut String,
        steps: &mut Steps<L>,
    ) -> Result<bool, Memory>
        ensures given { OnOk result (Gave (string_bytes out.old) (string_bytes out.new)
            (lines_left graph.now.graph self.old) (lines_left graph.now.graph self.new)) }
        ensures fewer { result ≡ Ok true → steps_left graph.now.graph self.new < steps_left graph.now.graph self.old }
        ensures over { result ≡ Ok false → lines_left graph.now.graph self.new ≡ [] }
    {
        match self.stage {
            Stage::Title => self.give_title(graph, out)?,
            Stage::Nodes => self.give_node(graph, out)?,
            Stage::Edges => self.give_edge(graph, out, steps)?,
            Stage::Over => return Ok(false),
        }
        Ok(true)
    }

    // Gives lines until there are so many bytes. False where no line is left.
    fn fill<L: Ledger>(
        &mut self,
        graph: &Graph,
        out: &mut String,
        end: usize,
        steps: &mut Steps<L>,
    ) -> Result<bool, Memory>
        ensures given { OnOk result (Gave (string_bytes out.old) (string_bytes out.new)
            (lines_left graph.now.graph self.old) (lines_left graph.now.graph self.new)) }
        ensures full { result ≡ Ok true → end ≤ length (string_bytes out.new) }
        ensures over { result ≡ Ok false → lines_left graph.now.graph self.new ≡ [] }
    {
        while out.len() < end {
            if !self.step(graph, out, steps)? {
                return Ok(false);
            }
        }
        Ok(true)
    }

    fn give_part<L: Ledger>(
        &mut self,
        graph: &Graph,
        out: &mut String,
        blank: Blank,
    ) -> Result<bool, Memory>
        requires name { blank.name ≡ L.name }
        requires parts { blank.parts ≡ L.parts }
        requires some { 0 < blank.parts }
        ensures given { OnOk result (Gave (string_bytes out.old) (string_bytes out.new)
            (lines_left graph.now.graph self.old) (lines_left graph.now.graph self.new)) }
        ensures fewer { result ≡ Ok true → length (lines_left graph.now.graph self.new) < length (lines_left graph.now.graph self.old) }
        ensures over { result ≡ Ok false → lines_left graph.now.graph self.new ≡ [] }
    {
        let mut steps = Steps::<L>::new(blank);
        let end = out.len() + PART_BYTES;
        let more = self.fill(graph, out, end, &mut steps)?;
        Ok(more)
    }

    /// Appends the next part: whole lines of 64 KiB or a little more, up to one line, and fewer where no more are left, which is false.
    /// `Memory` may leave part of these lines appended. O(n + e log d + t) for all parts of a graph of n numbers and e edges, of which
    /// at most d begin at one node, and t bytes of text; it takes the memory of the part, and 4 bytes for each child of a node.
    pub fn next(&mut self, graph: &Graph, out: &mut String) -> Result<bool, Memory>
        ensures given { OnOk result (Gave (string_bytes out.old) (string_bytes out.new)
            (lines_left graph.now.graph self.old) (lines_left graph.now.graph self.new)) }
        ensures fewer { result ≡ Ok true → length (lines_left graph.now.graph self.new) < length (lines_left graph.now.graph self.old) }
        ensures over { result ≡ Ok false → lines_left graph.now.graph self.new ≡ [] }
    {
        self.give_part::<Brand>(graph, out, Blank::new(1))
    }
}
