// The size of a graph and of an index, as it is printed.
ghost use Rattle.std.specs.Prelude.{◌≡◌, ◌≢◌, ◌++◌, ◌∷◌, [], OnOk, IfOk, string_bytes};
ghost use Rattle.index_api.specs.Spelling.{via_word};
ghost use Rattle.index_api.specs.declared.kinds.Via.TheVariants.{Data};
ghost use Rattle.block_partition.specs.LabelledPartitions.{block_count};
ghost use Rattle.quotient.specs.Quotients.{pair_count};
ghost use Rattle.extent_report.specs.ListedBlocks.{head_line, size_line};
ghost use Rattle.extent_report.specs.Summaries.{CountsBlocks};

use crate::output::{end_line, push_number};
use index_api::Via;
use px_base::{Memory, Text};
use quotient::Summary;
use std::alloc::Global;

/// The line of the size of a graph, `nodes N edges E` and LF. O(1); it takes the memory of the text.
pub fn sizes_head(alloc: Global, nodes: u32, edges: u32) -> Result<Text, Memory>
    ensures { IfOk result (λ t. t ≡ head_line nodes edges) }
{
    let mut out = String::new(alloc);
    push_number(&mut out, "nodes ", u64::from(nodes))?;
    push_number(&mut out, " edges ", u64::from(edges))?;
    end_line(&mut out)?;
    Ok(Text::from_string(out))
}

// Appends through what a query is asked.
fn push_via(out: &mut String, via: Via) -> Result<(), Memory>
    requires { via ≢ Data }
    ensures { OnOk result (string_bytes out.new ≡ string_bytes out.old ++ via_word via) }
{
    match via {
        Via::Data => unreachable!(),
        Via::A(level) => push_number(out, "a", u64::from(level))?,
        Via::One => out.push_str("one")?,
        Via::Fb => out.push_str("fb")?,
        Via::B(level) => push_number(out, "b", u64::from(level))?,
    }
    Ok(())
}

// The line of an index with that many blocks, of which that many pairs have support.
fn size_text(alloc: Global, via: Via, blocks: u32, edges: u64) -> Result<Text, Memory>
    requires { via ≢ Data }
    ensures { IfOk result (λ t. t ≡ size_line via blocks edges) }
{
    let mut out = String::new(alloc);
    push_via(&mut out, via)?;
    push_number(&mut out, " blocks ", u64::from(blocks))?;
    push_number(&mut out, " edges ", edges)?;
    end_line(&mut out)?;
    Ok(Text::from_string(out))
}

/// The line of the size of an index, as `a0 blocks B edges S` and LF: through what it is asked, how
/// many blocks it has, and how many pairs of blocks have support. O(1); it takes the memory of the text.
pub fn sizes_line(alloc: Global, via: Via, summary: &Summary) -> Result<Text, Memory>
    requires index { via ≢ Data }
    ensures text { IfOk result (λ t. t ≡ size_line via (block_count summary.now.blocks) (pair_count summary.now.supports)) }
    ensures listed { IfOk result (CountsBlocks via summary.now) }
{
    let count = summary.blocks();
    let line = size_text(alloc, via, count, summary.pairs())?;
    Ok(line)
}
