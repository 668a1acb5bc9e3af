// The lines of a view.
ghost use Rattle.std.specs.Prelude.{◌≡◌, ◌≢◌, ◌<◌, ◌≤◌, ◌+◌, ◌^◌, ◌++◌, ℕ, OnOk, IfOk, Some, None};
ghost use Rattle.std.specs.Prelude.{string_bytes, length, slice_set as set};
ghost use Rattle.graph_spec.specs.Members.{at};
ghost use Rattle.graph_spec.specs.Shapes.{Shape, shape_of};
ghost use Rattle.bisim_spec.specs.Partitions.{IsPartition};
ghost use Rattle.bisim_spec.specs.Tests.{together};
ghost use Rattle.index_api.specs.Spelling.{via_word};
ghost use Rattle.index_api.specs.declared.kinds.Via.TheVariants.{Data};
ghost use Rattle.index_file.specs.WrittenFiles as written;
ghost use Rattle.index_file.specs.WrittenFiles.{rank_line, rank_lines, rank_text};
ghost use Rattle.index_file.specs.BlockRanks.{AreRanks};

use crate::output::{end_line, push_decimal};
use index_api::Via;
use label_graph::{Digraph, Graph};
use px_base::{Memory, Text};
use quotient::Summary;
use std::alloc::Global;

// The ranks of the blocks that were met, by their numbers, and how many these are.
#[derive(Drop)]
struct Ranks {
    of: Vec<Option<u32>>,
    count: u32,
}

impl Ranks {
    // The rank of a block, which gets the next one where it has none.
    fn rank(&mut self, b: u32) -> u32
        requires within { b < length self.old.of.items }
        requires few { self.old.count < 2 ^ 30 }
        ensures length { length self.new.of.items ≡ length self.old.of.items }
        ensures few { self.new.count ≤ self.old.count + 1 }
        ensures again { (k : ℕ) → at self.old.of.items b ≡ Some k
            → (result ≡ k) × (self.new.of.items ≡ self.old.of.items) × (self.new.count ≡ self.old.count) }
        ensures fresh { at self.old.of.items b ≡ None
            → (result ≡ self.old.count) × (self.new.of.items ≡ set self.old.of.items b (Some result)) × (self.new.count ≡ self.old.count + 1) }
    {
        match self.of[b as usize] {
            Some(rank) => rank,
            None => {
                let rank = self.count;
                self.of[b as usize] = Some(rank);
                self.count = rank + 1;
                rank
            }
        }
    }
}

// The rank of the node's block, where it has one.
fn rank_at(ranks: &mut Ranks, summary: &Summary, n: u32) -> Option<u32>
    requires within { length summary.now.blocks.labels ≤ length ranks.old.of.items }
    requires few { ranks.old.count < 2 ^ 30 }
    ensures length { length ranks.new.of.items ≡ length ranks.old.of.items }
    ensures few { ranks.new.count ≤ ranks.old.count + 1 }
    ensures text { (s : Shape) → IsPartition s summary.now.blocks.block_of
        → AreRanks s summary.now.blocks.block_of n ranks.old.of.items ranks.old.count
        → rank_text result ≡ rank_line s (together summary.now.blocks.block_of) n }
    ensures ranks { (s : Shape) → IsPartition s summary.now.blocks.block_of
        → AreRanks s summary.now.blocks.block_of n ranks.old.of.items ranks.old.count
        → AreRanks s summary.now.blocks.block_of (n + 1) ranks.new.of.items ranks.new.count }
{
    match summary.block_of(n) {
        Some(b) => {
            let rank = ranks.rank(b);
            Some(rank)
        }
        None => None,
    }
}

// Appends the line of a rank.
fn push_rank(out: &mut String, rank: Option<u32>) -> Result<(), Memory>
    ensures { OnOk result (string_bytes out.new ≡ string_bytes out.old ++ rank_text rank) }
{
    match rank {
        Some(rank) => {
            push_decimal(out, rank)?;
            end_line(out)?;
            Ok(())
        }
        None => Ok(()),
    }
}

// Appends the ranks of the nodes' blocks.
fn push_ranks(
    alloc: Global,
    out: &mut String,
    summary: &Summary,
    graph: &Graph,
) -> Result<(), Memory>
    requires live { IsPartition (shape_of graph.now.graph) summary.now.blocks.block_of }
    ensures { OnOk result (string_bytes out.new ≡ string_bytes out.old ++ rank_lines (shape_of graph.now.graph) (together summary.now.blocks.block_of)) }
{
    let mut ranks = Ranks {
        of: vec![in alloc; None; summary.size() as usize]?,
        count: 0,
    };
    for n in 0..graph.created() {
        let rank = rank_at(&mut ranks, summary, n);
        push_rank(out, rank)?;
    }
    Ok(())
}

// Appends the name of an index.
fn push_via(out: &mut String, via: Via) -> Result<(), Memory>
    ensures { OnOk result (string_bytes out.new ≡ string_bytes out.old ++ via_word via) }
{
    match via {
        Via::Data => out.push_str("data")?,
        Via::A(level) => {
            out.push_str("a")?;
            push_decimal(out, level)?;
        }
        Via::One => out.push_str("one")?,
        Via::Fb => out.push_str("fb")?,
        Via::B(level) => {
            out.push_str("b")?;
            push_decimal(out, level)?;
        }
    }
    Ok(())
}

/// How the index is named in a file. O(1); it takes the memory of the text.
pub fn via_text(alloc: Global, via: Via) -> Result<Text, Memory>
    ensures text { IfOk result (λ t. t ≡ via_word via) }
{
    let mut out = String::new(alloc);
    push_via(&mut out, via)?;
    Ok(Text::from_string(out))
}

/// The lines of the view of an index: its name, and then for each live node, rising, the rank of its block. Blocks are ranked from 0 by
/// their least members. O(n + t) for n numbers and t bytes of text; it takes 8 bytes for each block number, and the memory of the text.
pub fn view_text(alloc: Global, via: Via, summary: &Summary, graph: &Graph) -> Result<Text, Memory>
    requires index { via ≢ Data }
    requires live { IsPartition (shape_of graph.now.graph) summary.now.blocks.block_of }
    ensures text { IfOk result (λ t. t ≡ written.view_text (shape_of graph.now.graph) (together summary.now.blocks.block_of) via) }
{
    let mut out = String::new(alloc);
    out.push_str("view ")?;
    push_via(&mut out, via)?;
    end_line(&mut out)?;
    push_ranks(alloc, &mut out, summary, graph)?;
    Ok(Text::from_string(out))
}
