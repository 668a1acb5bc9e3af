// Nodes that come, at a level.
ghost use Rattle.std.specs.Prelude.{◌≡◌, ◌<◌, ◌∷◌, [], ◌^◌, ℕ, IsSome, Some, OnOk, IfOk, length};
ghost use Rattle.graph_spec.specs.Members.{at, has};
ghost use Rattle.graph_update.specs.PendingChanges.{graph_after};
ghost use Rattle.graph_effects.specs.Effects.{AreEffects};
ghost use Rattle.ak_family.specs.LevelDrafts.{blocks_shown, labels_shown, support_shown, key_shown, AreOver, AreSameBut, ShowsBlock};
ghost use Rattle.level_update.specs.LevelEffects.{KeyHasLabel, own_number, lone_nodes, AreLevelsBefore, IsDraftedBelow, IsLevelOnWay, IsNodeAdded};

use ak_family::{AkDraft, AkFamily};
use graph_effects::Effects;
use graph_update::After;
use px_base::{Memory, NodeId};

/// The number with which the key of a node begins at a level: its label at the lowest one, and above it its block one
/// level below.
pub(crate) fn first_number(family: &AkFamily, draft: &AkDraft, i: u32, n: NodeId, label: u32) -> u32
    requires over { AreOver family.now draft.now }
    requires level { i < length family.now }
    requires some { IsSome (own_number family.now draft.now label n i) }
    ensures { own_number family.now draft.now label n i ≡ Some result }
{
    if i == 0 {
        return label;
    }
    family.shown(draft, i - 1, n).unwrap()
}

/// The block of a level that has the number alone as its key. It is a further one where no block has the key.
pub(crate) fn lone_block(
    family: &AkFamily,
    draft: &mut AkDraft,
    i: u32,
    label: u32,
    number: u32,
) -> Result<u32, Memory>
    requires over { AreOver family.now draft.old }
    requires level { i < length family.now }
    requires labelled { KeyHasLabel (key_shown family.now draft.old i) (labels_shown family.now draft.old i) (number ∷ []) label }
    ensures block { IfOk result (λ b. ShowsBlock family.now i draft.old draft.new label (number ∷ []) b) }
    ensures label { IfOk result (λ b. at (labels_shown family.now draft.new i) b ≡ Some label) }
    ensures blocks { blocks_shown family.now draft.new i ≡ blocks_shown family.now draft.old i }
    ensures supports { (x y : ℕ) → support_shown family.now draft.new i x y ≡ support_shown family.now draft.old i x y }
    ensures others { AreSameBut i draft.old draft.new }
    ensures over { AreOver family.now draft.new }
{
    let key = [number];
    let b = family.keyed_block(draft, i, label, &key)?;
    Ok(b)
}

// A node comes into the block of a level whose key is the number alone.
fn add_node(
    family: &AkFamily,
    draft: &mut AkDraft,
    i: u32,
    n: NodeId,
    label: u32,
    number: u32,
) -> Result<(), Memory>
    requires over { AreOver family.now draft.old }
    requires level { i < length family.now }
    requires small { n < 2 ^ 31 }
    requires labelled { KeyHasLabel (key_shown family.now draft.old i) (labels_shown family.now draft.old i) (number ∷ []) label }
    ensures added { OnOk result (IsNodeAdded family.now i n label number draft.old draft.new) }
    ensures supports { OnOk result ((x y : ℕ) → support_shown family.now draft.new i x y ≡ support_shown family.now draft.old i x y) }
    ensures others { AreSameBut i draft.old draft.new }
{
    let b = lone_block(family, draft, i, label, number)?;
    family.put(draft, i, n, Some(b))?;
    Ok(())
}

/// Puts the nodes that come into blocks of a level, each into that whose key is its label, or its block one level below,
/// alone. None of the edges so far is at such a node, so supports stay.
pub(crate) fn add_nodes(
    family: &AkFamily,
    draft: &mut AkDraft,
    i: u32,
    after: &After<'_>,
    effects: &Effects,
) -> Result<(), Memory>
    requires before { AreLevelsBefore after.now.before (graph_after after.now) family.now }
    requires effects { AreEffects after.now.before (graph_after after.now) effects.now }
    requires below { IsDraftedBelow (lone_nodes effects.now) (graph_after after.now) family.now draft.old i }
    requires level { i < length family.now }
    requires start { IsLevelOnWay (graph_after after.now) after.now.before [] [] family.now draft.old i }
    ensures added { OnOk result (IsLevelOnWay (graph_after after.now) after.now.before effects.now.came [] family.now draft.new i) }
    ensures others { AreSameBut i draft.old draft.new }
{
    // Called for its contract: numbers are small.
    let _known = after.created();
    let came = effects.came();
    'joins: for n in came {
        let label = after.label(*n);
        let number = first_number(family, draft, i, *n, label);
        add_node(family, draft, i, *n, label, number)?;
    }
    Ok(())
}
