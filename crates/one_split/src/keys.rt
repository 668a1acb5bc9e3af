// The keys of nodes: their own blocks, and the blocks of their parents.
ghost use Rattle.std.specs.Prelude.{◌≡◌, ◌+◌, ◌≤◌, ◌<◌, [], ℕ, IfOk, Some, IsSome, IsTrue, length, sum_by};
ghost use Rattle.graph_spec.specs.Members.{has, at};
ghost use Rattle.graph_spec.specs.Shapes.{shape_of, IsShape};
ghost use Rattle.graph_update.specs.PendingChanges.{graph_after};
ghost use Rattle.quotient_draft.specs.Drafts.{shown_blocks};
ghost use Rattle.quotient_draft.specs.Basis.{IsOver};
ghost use Rattle.quotient_moves.specs.NeighbourCosts.{parents_cost};
ghost use Rattle.one_split.specs.Numbered.{HaveNumbers, leads_after, InternsParentKey};

use bisim_levels::write_key;
use graph_update::After;
use key_table::KeyTable;
use px_base::{Memory, NodeId, Steps};
use quotient::Summary;
use quotient_draft::Draft;
use quotient_moves::read_parents;
use std::alloc::Global;
use std::marker::Model;
use std::sync::ledger::Ledger;

// A key, and the parents of its node. A contract sees nothing in them.
#[derive(Drop)]
struct KeyBuffers {
    key: Vec<u32>,
    parents: Vec<NodeId>,
}

impl Model for KeyBuffers {
    ghost use Rattle.std.specs.Prelude.{⊤};

    ghost Value = { ⊤ };

    ghost view = { λ _. tt };
}

impl KeyBuffers {
    // Empty buffers. They take no memory until they are used.
    fn new(alloc: Global) -> KeyBuffers {
        KeyBuffers {
            key: Vec::new(alloc),
            parents: Vec::new(alloc),
        }
    }
}

/// The block of a node that has one.
pub(crate) fn own_block(base: &Summary, draft: &Draft, n: NodeId) -> u32
    requires over { IsOver base.now.blocks.block_of base.now.blocks.labels draft.now }
    requires some { IsSome (at (shown_blocks base.now draft.now) n) }
    ensures { at (shown_blocks base.now draft.now) n ≡ Some result }
{
    draft.block_of(base, n).unwrap()
}

// The number of a node's key. Its parents are read once.
fn number_of<L: Ledger>(
    base: &Summary,
    draft: &Draft,
    after: &After<'_>,
    n: NodeId,
    keys: &mut KeyTable,
    buffers: &mut KeyBuffers,
    steps: &mut Steps<L>,
) -> Result<u32, Memory>
    requires over { IsOver base.now.blocks.block_of base.now.blocks.labels draft.now }
    requires shape { IsShape (shape_of (graph_after after.now)) }
    requires block { IsSome (at (shown_blocks base.now draft.now) n) }
    ensures ok { IfOk result (λ k. InternsParentKey (shown_blocks base.now draft.now) after.now n keys.old keys.new k) }
    ensures cost { steps.new ≤ steps.old + parents_cost after.now n }
{
    read_parents(&mut buffers.parents, after, n, steps)?;
    let own = own_block(base, draft, n);
    write_key(
        &mut buffers.key,
        &buffers.parents,
        own,
        |p| draft.block_of(base, p),
    )?;
    keys.intern(&buffers.key)
}

/// The numbers of the keys of these nodes, in an empty table.
pub(crate) fn number_nodes<L: Ledger>(
    alloc: Global,
    base: &Summary,
    draft: &Draft,
    after: &After<'_>,
    nodes: &[NodeId],
    keys: &mut KeyTable,
    steps: &mut Steps<L>,
) -> Result<Vec<u32>, Memory>
    requires over { IsOver base.now.blocks.block_of base.now.blocks.labels draft.now }
    requires none { keys.old ≡ [] }
    requires shape { IsShape (shape_of (graph_after after.now)) }
    requires blocks { (n : ℕ) → IsTrue (has nodes.now n) → IsSome (at (shown_blocks base.now draft.now) n) }
    ensures count { IfOk result (λ numbers. length numbers.items ≡ length nodes.now) }
    ensures numbered { IfOk result (λ numbers. HaveNumbers (shown_blocks base.now draft.now) (leads_after after.now) keys.new nodes.now numbers.items) }
    ensures cost { steps.new ≤ steps.old + sum_by (parents_cost after.now) nodes.now }
{
    let mut numbers = Vec::with_capacity(alloc, nodes.len())?;
    let mut buffers = KeyBuffers::new(alloc);
    for n in nodes {
        let k = number_of(base, draft, after, *n, keys, &mut buffers, steps)?;
        numbers.push(k)?;
    }
    Ok(numbers)
}
