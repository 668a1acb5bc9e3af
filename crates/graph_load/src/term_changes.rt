// The labels of terms.
ghost use Rattle.std.specs.Prelude.{◌≡◌, ◌∷◌, [], IfOk, codes};
ghost use Rattle.change_spec.specs.Steps.{node};
ghost use Rattle.triple_names.specs.Items.{term_label};

use graph_update::{Change, Step};
use px_base::{Memory, Text};
use std::alloc::Global;
use std::marker::Model;
use triples_read::Term;

/// The changes that add the node of a term, one for each kind of term.
#[derive(Drop)]
pub(crate) struct TermChanges {
    iri: Change,
    blank: Change,
    literal: Change,
}

impl Model for TermChanges {
    ghost use Rattle.std.specs.Prelude.{⊤, codes};
    ghost use Rattle.graph_load.specs.TermNodes.{AddsNode};

    ghost Value = { ⊤ };

    ghost view = { λ _. tt };

    ghost invariant = { λ k. AddsNode k.iri (codes "iri") × AddsNode k.blank (codes "blank") × AddsNode k.literal (codes "literal") };
}

fn labelled(alloc: Global, label: &str) -> Result<Change, Memory>
    ensures { IfOk result (λ c. c ≡ node label.now ∷ []) }
{
    Change::one(
        alloc,
        Step::Node(Text::from_string(String::from_str(alloc, label)?)),
    )
}

impl TermChanges {
    /// The three labels are made once.
    pub(crate) fn new(alloc: Global) -> Result<TermChanges, Memory> {
        Ok(TermChanges {
            iri: labelled(alloc, "iri")?,
            blank: labelled(alloc, "blank")?,
            literal: labelled(alloc, "literal")?,
        })
    }

    /// The change that adds the node of the term.
    pub(crate) fn node(&self, term: &Term) -> &Change
        ensures { result.now ≡ node (term_label term.now) ∷ [] }
    {
        match term {
            Term::Iri(_) => &self.iri,
            Term::Blank(_) => &self.blank,
            Term::Literal { .. } => &self.literal,
        }
    }
}
