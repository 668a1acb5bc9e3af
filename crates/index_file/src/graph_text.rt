// The lines of a graph, as one text.
ghost use Rattle.std.specs.Prelude.{◌≡◌, ◌++◌, OnOk, IfOk, string_bytes, IsTrue};
ghost use Rattle.graph_spec.specs.Graphs.{is_live, label_of};
ghost use Rattle.index_file.specs.WrittenFiles.{node_line, head_text};
ghost use Rattle.index_file.specs.GraphParts.{lines_left};

use crate::graph_lines::GraphLines;
use crate::output::end_line;
use label_graph::Graph;
use px_base::{Memory, Text};
use std::alloc::Global;

// Appends the line of a node that is there.
fn push_live(out: &mut String, graph: &Graph, n: u32) -> Result<(), Memory>
    requires { IsTrue (is_live graph.now.graph n) }
    ensures { OnOk result (string_bytes out.new ≡ string_bytes out.old ++ node_line (label_of graph.now.graph n)) }
{
    let label = graph.labels().text(graph.label(n));
    out.push_str("live ")?;
    out.push_str(label.as_str())?;
    end_line(out)?;
    Ok(())
}

/// Appends the line of a number that was given.
pub(crate) fn push_node(out: &mut String, graph: &Graph, n: u32) -> Result<(), Memory>
    ensures { OnOk result (string_bytes out.new ≡ string_bytes out.old ++ node_line (label_of graph.now.graph n)) }
{
    if graph.is_live(n) {
        return push_live(out, graph, n);
    }
    out.push_str("gone")?;
    end_line(out)?;
    Ok(())
}

// Appends all lines that are left.
fn push_all(lines: &mut GraphLines, graph: &Graph, out: &mut String) -> Result<(), Memory>
    ensures { OnOk result (string_bytes out.new ≡ string_bytes out.old ++ lines_left graph.now.graph lines.old) }
{
    while lines.next(graph, out)? {}
    Ok(())
}

/// The lines of the graph, with levels up to `k`, and of how many views follow: each number that was given with its label, or that
/// its node is gone, and the edges. O(n + e log e + t) for n numbers, e edges and t bytes of text; it takes the memory of the text.
/// `GraphLines` gives them part by part.
pub fn head(alloc: Global, graph: &Graph, k: u32, views: u32) -> Result<Text, Memory>
    ensures { IfOk result (λ t. t ≡ head_text graph.now.graph k views) }
{
    let mut lines = GraphLines::new(alloc, k, views);
    let mut out = String::new(alloc);
    push_all(&mut lines, graph, &mut out)?;
    Ok(Text::from_string(out))
}
