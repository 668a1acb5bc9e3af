// The nodes of a file as they are read.
ghost use Rattle.std.specs.Prelude.{◌≡◌, ◌<◌, ◌≤◌, ◌++◌, ◌∷◌, ℕ, List, [], suc, if◌then◌else◌, Some, None, false, IfOk, OnOk, OnErr, IsErrOf, length, vec_len, vec_capacity};
ghost use Rattle.graph_spec.specs.Members.{at};
ghost use Rattle.path_query.specs.Labels.{SpellsLabel};
ghost use Rattle.label_graph.specs.GraphViews.{label_number};
ghost use Rattle.index_file.specs.SavedFiles.{seen_of, graph_of};
ghost use Rattle.index_file.specs.SavedGraphs.{ArePlaces};
ghost use Rattle.index_file.specs.Readings.{is_live_in, live_in};
ghost use Rattle.index_file.specs.ReadLabels.{IsOneTooMany, is_too_many};

use crate::due::Stop;
use crate::read_labels::ReadLabels;
use px_base::Memory;
use std::alloc::Global;
use std::marker::Model;

/// The allocated numbers, each with the label of its node, or with none where the node is gone.
#[derive(Drop)]
pub(crate) struct ReadNodes {
    labels: ReadLabels,
    numbers: Vec<Option<u32>>,
    live: usize,
}

impl Model for ReadNodes {
    ghost use Rattle.std.specs.Prelude.{List, Option, ℕ};
    ghost use Rattle.index_file.specs.ReadNodes.{texts_at, AreReadNodes};

    ghost Value = { List (Option (List ℕ)) };

    ghost view = { λ t. texts_at t.labels t.numbers.items };

    ghost invariant = { λ t. AreReadNodes t.labels t.numbers.items t.live };
}

// The number at that place, and none where there is none or past the end.
fn label_at(numbers: &[Option<u32>], n: u64) -> Option<u32>
    ensures { result ≡ at numbers.now n }
{
    if n < numbers.len() as u64 {
        numbers[n as usize]
    } else {
        None
    }
}

fn reserve_one(numbers: &mut Vec<Option<u32>>) -> Result<(), Memory>
    ensures same { numbers.new.items ≡ numbers.old.items }
    ensures reserved { OnOk result (vec_len numbers.new < vec_capacity numbers.new) }
{
    numbers.reserve(1)?;
    Ok(())
}

fn count_if(count: u32, yes: bool) -> u32
    requires { count < 4294967295 }
    ensures { result ≡ (if yes then suc count else count) }
{
    if yes { count + 1 } else { count }
}

impl ReadNodes {
    /// No numbers. O(1); it takes 16 KiB.
    pub(crate) fn new(alloc: Global) -> Result<ReadNodes, Memory>
        ensures { IfOk result (λ t. t ≡ []) }
    {
        let labels = ReadLabels::new(alloc)?;
        Ok(ReadNodes {
            labels,
            numbers: Vec::new(alloc),
            live: 0,
        })
    }

    /// How many numbers were allocated. O(1), no memory.
    pub(crate) fn len(&self) -> usize
        ensures { result ≡ length self.now }
    {
        self.numbers.len()
    }

    /// Whether the number is that of a live node. O(1), no memory.
    pub(crate) fn is_live(&self, n: u64) -> bool
        ensures { result ≡ is_live_in self.now n }
    {
        label_at(&self.numbers, n).is_some()
    }

    /// The number of the node's label, by first use, and `None` exactly if it isn't live. O(1), no memory.
    pub(crate) fn label(&self, n: u32) -> Option<u32>
        ensures { result ≡ label_number (graph_of self.now []) n }
    {
        label_at(&self.numbers, n as u64)
    }

    /// For each number how many nodes are live below it. O(n); it takes 4 bytes each.
    pub(crate) fn places(&self, alloc: Global) -> Result<Vec<u32>, Memory>
        requires few { length self.now ≤ 4294967295 }
        ensures { IfOk result (λ places. ArePlaces self.now places.items) }
    {
        let mut places = Vec::with_capacity(alloc, self.len())?;
        let mut live: u32 = 0;
        for n in 0..self.len() {
            places.push(live)?;
            live = count_if(live, self.is_live(n as u64));
        }
        Ok(places)
    }

    /// How many nodes are live. O(1), no memory.
    pub(crate) fn live(&self) -> usize
        ensures { result ≡ live_in self.now }
    {
        self.live
    }

    /// Puts a number behind the others whose node is gone. O(1) amortized; it takes 8 bytes.
    pub(crate) fn push_gone(&mut self) -> Result<(), Memory>
        ensures ok { OnOk result (self.new ≡ self.old ++ None ∷ []) }
        ensures err { OnErr result (self.new ≡ self.old) }
    {
        self.numbers.push(None)?;
        Ok(())
    }

    /// Puts a node behind the others, with the label that the word spells, where there may be `most` labels. `Limit`
    /// and `Syntax` come as of `ReadLabels::number`, and so are the costs.
    pub(crate) fn push_live(&mut self, alloc: Global, word: &[u8], most: u32) -> Result<(), Stop>
        ensures ok { OnOk result ((t : List ℕ) × SpellsLabel word.now t × (is_too_many most (seen_of self.old) t ≡ false)
            × (self.new ≡ self.old ++ Some t ∷ [])) }
        ensures over { IsErrOf result Stop.Limit → IsOneTooMany word.now most (seen_of self.old) }
        ensures wrong { IsErrOf result Stop.Syntax → (t : List ℕ) → SpellsLabel word.now t → ⊥ }
        ensures err { OnErr result (self.new ≡ self.old) }
    {
        reserve_one(&mut self.numbers)?;
        match self.labels.number(alloc, word, most) {
            Ok(label) => {
                self.numbers.push_reserved(Some(label));
                self.live += 1;
                Ok(())
            }
            Err(stop) => Err(stop),
        }
    }
}
