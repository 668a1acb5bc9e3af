// The candidates of a query through an index.
ghost use Rattle.std.specs.Prelude.{◌≡◌, ◌<◌, ◌||◌, ℕ, length, Some, IsSome, IsTrue, IfOk, count_by};
ghost use Rattle.std.specs.List.Sorted.{IsStrictlyIncreasing};
ghost use Rattle.graph_spec.specs.Members.{has, at};
ghost use Rattle.block_partition.specs.LabelledPartitions.{is_member};
ghost use Rattle.bisim_spec.specs.IndexGraphs.{shape_of_view};
ghost use Rattle.quotient.specs.Quotients.{view_of};
ghost use Rattle.branch_query.specs.Queries.{query_of, searched_form, AreQueryAnswers};
ghost use Rattle.index_eval.specs.Extents.{is_in_blocks};
ghost use Rattle.index_eval.specs.Candidates.{AreOfAnsweringBlocks, AreCandidatesOfEach, HaveAnswersOfEach, AreAnswersOfEach, IsCandidateCount};

use branch_query::Query;
use label_graph::Labels;
use px_base::{Bits, Memory};
use quotient::Summary;
use std::alloc::Global;

/// The blocks that answer the query over the index graph, or its relaxed form.
fn answering_blocks(
    alloc: Global,
    summary: &Summary,
    labels: &Labels,
    q: &Query<'_>,
    unrelaxed: bool,
) -> Result<Bits, Memory>
    requires labelled { (b l : ℕ) → at summary.now.blocks.labels b ≡ Some l → l < length labels.now.texts }
    ensures { IfOk result (λ b. AreQueryAnswers (shape_of_view labels.now.texts (view_of summary.now)) (searched_form unrelaxed (query_of q.now)) b.members) }
{
    // Called for its contract: as a graph the summary is the index graph.
    let _known = summary.blocks();
    if unrelaxed {
        q.answers(alloc, summary, labels)
    } else {
        q.relaxed_answers(alloc, summary, labels)
    }
}

/// Adds the members of a block.
fn add_extent(set: &mut Bits, summary: &Summary, b: u32)
    requires block { IsSome (at summary.now.blocks.labels b) }
    requires size { set.old.size ≡ length summary.now.blocks.block_of }
    requires rising { IsStrictlyIncreasing set.old.members }
    ensures size { set.new.size ≡ set.old.size }
    ensures rising { IsStrictlyIncreasing set.new.members }
    ensures members { (n : ℕ) → has set.new.members n ≡ (is_member summary.now.blocks b n || has set.old.members n) }
{
    for n in summary.extent(b) {
        set.insert(n);
    }
}

/// The members of the blocks.
fn extents(alloc: Global, summary: &Summary, blocks: &Bits) -> Result<Bits, Memory>
    requires live { (b : ℕ) → IsTrue (has blocks.now.members b) → IsSome (at summary.now.blocks.labels b) }
    ensures size { IfOk result (λ set. set.size ≡ length summary.now.blocks.block_of) }
    ensures rising { IfOk result (λ set. IsStrictlyIncreasing set.members) }
    ensures members { IfOk result (λ set. (n : ℕ) → has set.members n ≡ is_in_blocks blocks.now.members (at summary.now.blocks.block_of n)) }
{
    // Called for its contract: the blocks are below the size.
    let _known = blocks.size();
    let mut set = Bits::new(alloc, summary.numbers())?;
    let mut from = 0;
    while let Some(b) = blocks.next_from(from) {
        add_extent(&mut set, summary, b);
        from = b + 1;
    }
    Ok(set)
}

/// How many members the blocks have in all.
fn count_members(summary: &Summary, blocks: &Bits) -> u32
    requires live { (b : ℕ) → IsTrue (has blocks.now.members b) → IsSome (at summary.now.blocks.labels b) }
    ensures { result ≡ count_by (is_in_blocks blocks.now.members) summary.now.blocks.block_of }
{
    // Called for their contracts: the blocks are below the size, and there are at most 2^31 members.
    let _known = (blocks.size(), summary.numbers());
    let mut count = 0;
    let mut from = 0;
    while let Some(b) = blocks.next_from(from) {
        count += summary.member_count(b);
        from = b + 1;
    }
    count
}

/// The nodes of the blocks that answer the query over the index graph: the query itself where `unrelaxed` is true, else its
/// relaxed form. They are a set of numbers below `summary.numbers()`. Where `is_exact` says that the index is exact for the
/// query, and `unrelaxed` is true, they are the answers of the graph. Where `unrelaxed` is false, all answers of the graph are
/// among them, whatever the index.
///
/// It sees no graph. `Memory` comes only where memory runs out. O(m (b + p) + n) for m tokens, b numbers of blocks and
/// p pairs of blocks with support, and n node numbers, beside the look-ups of the labels; it takes a byte for each node
/// number, and what `Query::answers` takes over the index graph.
pub fn candidates(
    alloc: Global,
    summary: &Summary,
    labels: &Labels,
    q: &Query<'_>,
    unrelaxed: bool,
) -> Result<Bits, Memory>
    requires labelled { (b l : ℕ) → at summary.now.blocks.labels b ≡ Some l → l < length labels.now.texts }
    ensures size { IfOk result (λ set. set.size ≡ length summary.now.blocks.block_of) }
    ensures members { IfOk result (λ set. AreOfAnsweringBlocks labels.now.texts (view_of summary.now) (query_of q.now) unrelaxed set.members) }
    ensures candidates { IfOk result (λ set. AreCandidatesOfEach labels.now.texts (view_of summary.now) (query_of q.now) unrelaxed set.members) }
    ensures kept { IfOk result (λ set. HaveAnswersOfEach labels.now.texts (view_of summary.now) (query_of q.now) unrelaxed set.members) }
    ensures exact { IfOk result (λ set. AreAnswersOfEach labels.now.texts (view_of summary.now) (query_of q.now) unrelaxed set.members) }
{
    let blocks = answering_blocks(alloc, summary, labels, q, unrelaxed)?;
    extents(alloc, summary, &blocks)
}

/// How many nodes `candidates` gives where `unrelaxed` is false, without the set of them: how many are in the blocks that
/// answer the relaxed form over the index graph. All answers of the graph are among these nodes, whatever the index.
///
/// It sees no graph. `Memory` comes only where memory runs out. O(m (b + p)) for m tokens, b numbers of blocks and
/// p pairs of blocks with support, beside the look-ups of the labels; it takes what `Query::answers` takes over the index
/// graph.
pub fn candidate_count(
    alloc: Global,
    summary: &Summary,
    labels: &Labels,
    q: &Query<'_>,
) -> Result<u32, Memory>
    requires labelled { (b l : ℕ) → at summary.now.blocks.labels b ≡ Some l → l < length labels.now.texts }
    ensures { IfOk result (λ count. IsCandidateCount labels.now.texts (view_of summary.now) (query_of q.now) count) }
{
    let blocks = answering_blocks(alloc, summary, labels, q, false)?;
    Ok(count_members(summary, &blocks))
}
