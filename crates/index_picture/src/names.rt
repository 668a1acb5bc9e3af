// The names of nodes.
ghost use Rattle.std.specs.Prelude.{◌≡◌, ◌≤◌, ◌<◌, ◌^◌, ◌++◌, ℕ, List, [], length, IfOk, OnOk, slice_index_or, slice_set};
ghost use Rattle.std.proofs.Math.ListN.{replicate};
ghost use Rattle.index_picture.specs.ShownNames.{term_name};

use crate::shortening::push_term;
use px_base::{Memory, NodeId};
use std::alloc::Global;
use std::marker::Model;
use triples_read::Term;

/// The names of nodes by their numbers: texts, of which an empty one is no name. It takes 24 bytes a number, and those of the names.
///
/// A name for node 4 of a graph:
///
///     let mut names = NodeNames::new(alloc, graph.created())?;
///     names.put(alloc, 4, &term)?;
#[derive(Drop)]
pub struct NodeNames {
    texts: Vec<Vec<u8>>,
}

impl Model for NodeNames {
    ghost use Rattle.std.specs.Prelude.{ℕ, List, map};

    ghost Value = { List (List ℕ) };

    ghost view = { λ n. map (λ t. t.items) n.texts.items };
}

impl NodeNames {
    /// No names, for numbers below that one. O(n) for n numbers.
    pub fn new(alloc: Global, numbers: u32) -> Result<NodeNames, Memory>
        ensures { IfOk result (λ n. n ≡ replicate numbers []) }
    {
        let mut texts = Vec::with_capacity(alloc, numbers as usize)?;
        for _ in 0..numbers {
            texts.push_reserved(Vec::new(alloc));
        }
        Ok(NodeNames { texts })
    }

    /// The name of a node, which is empty where it has none. O(1), no memory.
    pub fn get(&self, n: NodeId) -> &[u8]
        ensures { result.now ≡ slice_index_or self.now n [] }
    {
        match self.texts.get(n as usize) {
            Some(text) => text.as_slice(),
            None => &[],
        }
    }

    /// How many numbers may have a name. O(1), no memory.
    pub fn len(&self) -> usize
        ensures { result ≡ length self.now }
    {
        self.texts.len()
    }

    /// Names a node by a term: an IRI by the part behind its last `#` or `/`, a blank node by its label, a literal by its characters,
    /// each cut to 24 bytes. O(b) for a term of b bytes; it takes the memory of the name.
    pub fn put(&mut self, alloc: Global, n: NodeId, term: &Term) -> Result<(), Memory>
        requires { n < length self.old }
        ensures { OnOk result (self.new ≡ slice_set self.old n (term_name term.now)) }
    {
        let mut text = Vec::new(alloc);
        push_term(&mut text, term)?;
        self.texts[n as usize] = text;
        Ok(())
    }
}
