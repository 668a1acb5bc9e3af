// The members of each block in rising order.
ghost use Rattle.std.specs.Prelude.{◌≡◌, ◌+◌, Some, IsSome, is_some, IfOk, IfSome, length};
ghost use Rattle.graph_spec.specs.Members.{at};
ghost use Rattle.bisim_spec.specs.Tests.{together};
ghost use Rattle.extent_report.specs.MemberChains.{AreChained, IsLeastFrom, is_first_member};

use label_graph::Digraph;
use px_base::{Memory, NodeId};
use quotient::Summary;
use std::alloc::Global;
use std::marker::Model;

/// The members of each block of a partition in rising order, by links: the least one of each block, and
/// after each node the next one of its block.
#[derive(Drop)]
pub(crate) struct Chains<'a> {
    summary: &'a Summary,
    first: Vec<Option<u32>>,
    next: Vec<Option<u32>>,
}

impl<'a> Model for Chains<'a> {
    ghost use Rattle.block_partition.specs.LabelledPartitions.{Partition};
    ghost use Rattle.extent_report.specs.MemberChains.{AreChainsOf};

    ghost Value = { Partition };

    ghost view = { λ c. c.summary.now.blocks };

    ghost invariant = { λ c. AreChainsOf c.summary.now.blocks c.first.items c.next.items };
}

impl<'a> Chains<'a> {
    /// The members of the blocks. They are linked from the last node to the first, with no sort.
    pub(crate) fn of(alloc: Global, summary: &'a Summary) -> Result<Chains<'a>, Memory>
        ensures { IfOk result (λ c. c ≡ summary.now.blocks) }
    {
        let mut first = vec![in alloc; None; summary.size() as usize]?;
        let mut next = vec![in alloc; None; summary.numbers() as usize]?;
        let mut n = summary.numbers();
        while n > 0 {
            n -= 1;
            link(&mut first, &mut next, summary, n);
        }
        Ok(Chains {
            summary,
            first,
            next,
        })
    }

    /// The block of which the node is the least member.
    pub(crate) fn block_begun_by(&self, n: NodeId) -> Option<u32>
        ensures is_first_member { is_some result ≡ is_first_member self.now n }
        ensures block { IfSome result (λ b. at self.now.block_of n ≡ Some b) }
        ensures live { IfSome result (λ b. IsSome (at self.now.labels b)) }
    {
        let b = self.summary.block_of(n)?;
        if self.first[b as usize] == Some(n) {
            Some(b)
        } else {
            None
        }
    }

    /// The next node of the node's block.
    pub(crate) fn after(&self, n: NodeId) -> Option<u32>
        requires { IsSome (at self.now.block_of n) }
        ensures { IsLeastFrom (together self.now.block_of n) (n + 1) result }
    {
        self.next[n as usize]
    }

    /// The label of a block.
    pub(crate) fn label(&self, b: u32) -> u32
        requires { IsSome (at self.now.labels b) }
        ensures { at self.now.labels b ≡ Some result }
    {
        self.summary.label(b)
    }

    /// The length of the list of blocks. Numbers past its end have no block.
    pub(crate) fn numbers(&self) -> u32
        ensures { result ≡ length self.now.block_of }
    {
        self.summary.numbers()
    }
}

// Links a node before the greater ones of its block.
fn link(first: &mut [Option<u32>], next: &mut [Option<u32>], summary: &Summary, n: NodeId)
    requires chained { AreChained summary.now.blocks.block_of first.old next.old (n + 1) }
    requires all { length first.old ≡ length summary.now.blocks.labels }
    ensures { AreChained summary.now.blocks.block_of first.new next.new n }
{
    if let Some(b) = summary.block_of(n) {
        next[n as usize] = first[b as usize];
        first[b as usize] = Some(n);
    }
}
