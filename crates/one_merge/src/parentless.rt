// The blocks without other parents than themselves, by their labels.
ghost use Rattle.std.specs.Prelude.{◌≡◌, ◌≢◌, ◌++◌, [], ℕ, IsTrue, IsSome, IfOk, OnOk, true, nat_eq};
ghost use Rattle.std.specs.List.{list_all, position};
ghost use Rattle.graph_spec.specs.Members.{at, has};
ghost use Rattle.bisim_spec.specs.IndexGraphs.{support_at};
ghost use Rattle.quotient_draft.specs.Basis.{IsOver};
ghost use Rattle.quotient_draft.specs.Drafts.{settled_view, shown_labels, shown_support};
ghost use Rattle.quotient_draft.specs.PairEnds.{listed};
ghost use Rattle.one_merge.specs.ParentlessBlocks.{IsNoted, IsParentless, CoversBase, CoversShown, NotesParentless, NotesAllParentless};

use indexmap::IndexMap;
use label_graph::Digraph;
use px_base::Memory;
use quotient::Summary;
use quotient_draft::Draft;
use smallvec::SmallVec;
use std::alloc::Global;
use std::marker::Model;

/// For each label a list of blocks. Short lists take no memory of their own.
type Lists = IndexMap<u32, SmallVec<u32, 4>>;

/// The blocks to which no other block has support, by their labels. Blocks that were so once may be there too.
#[derive(Drop)]
pub struct ParentlessBlocks {
    lists: Lists,
    made: usize,
    further: usize,
}

impl Model for ParentlessBlocks {
    ghost use Rattle.one_merge.specs.ParentlessBlocks.{ParentlessLists};

    ghost Value = { ParentlessLists };

    ghost view = { λ r. r.lists.entries };
}

impl ParentlessBlocks {
    /// The parentless blocks of a base. Expected O(b) for b blocks, where no two can be merged: then a label has two of
    /// them at most, one of which is its own parent. It takes O(l) memory for l labels with such blocks.
    pub fn of(alloc: Global, base: &Summary) -> Result<ParentlessBlocks, Memory>
        ensures covers { IfOk result (CoversBase base.now) }
    {
        let mut parentless = ParentlessBlocks {
            lists: IndexMap::new(alloc),
            made: 0,
            further: 0,
        };
        parentless.note_base(base)?;
        parentless.made = parentless.further;
        parentless.further = 0;
        Ok(parentless)
    }

    /// Whether far more blocks were noted since these parentless blocks were made than there were then. O(1), no memory.
    pub fn are_many(&self) -> bool {
        self.further > self.made.saturating_add(64)
    }

    /// The blocks that are noted for a label. Expected O(1).
    pub(crate) fn noted(&self, label: u32) -> &[u32]
        ensures { result.now ≡ listed self.now label }
    {
        blocks_of(&self.lists, label)
    }

    /// Notes the parentless blocks that a draft brings, so that all parentless blocks of the base once it is settled
    /// are noted. Expected O(t + p + r) for t blocks that the draft touches, with p parents in the base and as drafted,
    /// and r blocks that are noted for a label of such a block. It takes 4 to 8 bytes for each that is noted.
    pub fn note_touched(&mut self, base: &Summary, draft: &Draft) -> Result<(), Memory>
        requires over { IsOver base.now.blocks.block_of base.now.blocks.labels draft.now }
        requires covers { CoversBase base.now self.old }
        ensures kept { CoversBase base.now self.new }
        ensures shown { OnOk result (CoversShown base.now draft.now self.new) }
    {
        self.note_parentless(base, draft, draft.drafted_blocks())?;
        self.note_parentless(base, draft, draft.drafted_ends())?;
        Ok(())
    }

    // Notes the parentless blocks of a base.
    fn note_base(&mut self, base: &Summary) -> Result<(), Memory>
        ensures covers { OnOk result (CoversBase base.now self.new) }
    {
        self.note_all(base, base.live())?;
        Ok(())
    }

    // Notes those of these blocks of a base to which no other has support.
    fn note_all(&mut self, base: &Summary, blocks: &[u32]) -> Result<(), Memory>
        ensures { OnOk result (NotesAllParentless (at base.now.blocks.labels) (support_at base.now.supports) self.new blocks.now) }
    {
        for i in 0..blocks.len() {
            self.note_one(base, blocks[i])?;
        }
        Ok(())
    }

    // Notes a block of a base, where no other has support to it.
    fn note_one(&mut self, base: &Summary, b: u32) -> Result<(), Memory>
        ensures kept { (l c : ℕ) → IsNoted self.old l c → IsNoted self.new l c }
        ensures noted { OnOk result (NotesParentless (at base.now.blocks.labels) (support_at base.now.supports) self.new b) }
    {
        if is_parentless(base, b) {
            return self.note(base.label(b), b);
        }
        Ok(())
    }

    // Notes the blocks among these that have members, and to which no other has support, as shown.
    fn note_parentless(
        &mut self,
        base: &Summary,
        draft: &Draft,
        blocks: &[u32],
    ) -> Result<(), Memory>
        requires over { IsOver base.now.blocks.block_of base.now.blocks.labels draft.now }
        ensures kept { (l c : ℕ) → IsNoted self.old l c → IsNoted self.new l c }
        ensures noted { OnOk result (NotesAllParentless (at (settled_view base.now draft.now).labels) (shown_support base.now draft.now) self.new blocks.now) }
    {
        for i in 0..blocks.len() {
            self.note_shown(base, draft, blocks[i])?;
        }
        Ok(())
    }

    // Notes a block, where it has members, and no other has support to it, as shown.
    fn note_shown(&mut self, base: &Summary, draft: &Draft, b: u32) -> Result<(), Memory>
        requires over { IsOver base.now.blocks.block_of base.now.blocks.labels draft.now }
        ensures kept { (l c : ℕ) → IsNoted self.old l c → IsNoted self.new l c }
        ensures noted { OnOk result (NotesParentless (at (settled_view base.now draft.now).labels) (shown_support base.now draft.now) self.new b) }
    {
        if !draft.is_block(base, b) {
            return Ok(());
        }
        if draft.member_count(base, b) == 0 {
            return Ok(());
        }
        if draft.has_other_parent(base, b) {
            return Ok(());
        }
        self.note(draft.label(base, b), b)?;
        Ok(())
    }

    /// Notes the merged block, where it has members, and no other has support to it, as shown. The block that went into it is
    /// dropped, unless it is one of the base.
    pub(crate) fn note_merged(
        &mut self,
        base: &Summary,
        draft: &Draft,
        merged: u32,
        gone: u32,
    ) -> Result<(), Memory>
        requires over { IsOver base.now.blocks.block_of base.now.blocks.labels draft.now }
        requires block { IsSome (at (shown_labels base.now draft.now) gone) }
        ensures base { CoversBase base.now self.old → CoversBase base.now self.new }
        ensures others { OnOk result ((l c : ℕ) → c ≢ gone → IsNoted self.old l c → IsNoted self.new l c) }
        ensures noted { OnOk result (NotesParentless (at (settled_view base.now draft.now).labels) (shown_support base.now draft.now) self.new merged) }
    {
        if !base.is_block(gone) {
            self.drop_noted(draft.label(base, gone), gone);
        }
        self.note_shown(base, draft, merged)?;
        Ok(())
    }

    // Drops a block from the list of a label.
    fn drop_noted(&mut self, label: u32, b: u32)
        ensures { (l c : ℕ) → c ≢ b → IsNoted self.old l c → IsNoted self.new l c }
    {
        if let Some(list) = self.lists.get_mut(&label) {
            if take_out(list, b) {
                self.further = self.further.saturating_sub(1);
            }
        }
    }

    // Notes a block for a label, once.
    fn note(&mut self, label: u32, b: u32) -> Result<(), Memory>
        ensures kept { (l c : ℕ) → IsNoted self.old l c → IsNoted self.new l c }
        ensures noted { OnOk result (IsNoted self.new label b) }
    {
        if is_listed(&self.lists, label, b) {
            return Ok(());
        }
        add(&mut self.lists, label, b)?;
        self.further = self.further.saturating_add(1);
        Ok(())
    }
}

// The blocks that are noted for a label.
fn blocks_of(lists: &Lists, label: u32) -> &[u32]
    ensures { result.now ≡ listed lists.now.entries label }
{
    match lists.get(&label) {
        Some(list) => list.as_slice(),
        None => &[],
    }
}

// Whether a block is noted for a label.
fn is_listed(lists: &Lists, label: u32, b: u32) -> bool
    ensures { result ≡ has (listed lists.now.entries label) b }
{
    blocks_of(lists, label).contains(&b)
}

// Notes a block for a label.
fn add(lists: &mut Lists, label: u32, b: u32) -> Result<(), Memory>
    ensures kept { (l c : ℕ) → IsNoted lists.old.entries l c → IsNoted lists.new.entries l c }
    ensures noted { OnOk result (IsNoted lists.new.entries label b) }
{
    match lists.get_mut(&label) {
        Some(list) => list.push(b)?,
        None => add_list(lists, label, b)?,
    }
    Ok(())
}

// Notes the first block for a label.
fn add_list(lists: &mut Lists, label: u32, b: u32) -> Result<(), Memory>
    requires { listed lists.old.entries label ≡ [] }
    ensures kept { (l c : ℕ) → IsNoted lists.old.entries l c → IsNoted lists.new.entries l c }
    ensures noted { OnOk result (IsNoted lists.new.entries label b) }
{
    let mut list = SmallVec::new(*lists.allocator());
    list.push(b)?;
    lists.insert(label, list)?;
    Ok(())
}

// Takes a block out of a list, and answers whether it was there.
fn take_out(list: &mut SmallVec<u32, 4>, b: u32) -> bool
    ensures { (c : ℕ) → c ≢ b → IsTrue (has list.old.items c) → IsTrue (has list.new.items c) }
{
    match place_of(list.as_slice(), b) {
        Some(place) => {
            list.swap_remove(place);
            true
        }
        None => false,
    }
}

// Where a block stands in a list, if it does.
fn place_of(list: &[u32], b: u32) -> Option<usize>
    ensures { result ≡ position (nat_eq b) list.now }
{
    list.iter().position(|x| b == *x)
}

// Whether the number is that of a block to which no other has support.
fn is_parentless(base: &Summary, b: u32) -> bool
    ensures block { IsTrue result → IsSome (at base.now.blocks.labels b) }
    ensures all { IsSome (at base.now.blocks.labels b) → IsParentless (support_at base.now.supports) b → IsTrue result }
{
    // Called for its contract: only blocks have support.
    let _known = base.blocks();
    if !base.is_node(b) {
        return false;
    }
    are_all(base.parents(b), b)
}

// Whether each of the blocks is this one.
fn are_all(blocks: &[u32], b: u32) -> bool
    ensures { result ≡ list_all (λ a. nat_eq a b) blocks.now }
{
    blocks.iter().all(|a| *a == b)
}
