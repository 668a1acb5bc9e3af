// The engine with an index of each kind.
ghost use Rattle.std.specs.Prelude.{◌≡◌, [], ◌∷◌, IfOk};
ghost use Rattle.pathindex_core.specs.Engines.{IsSound, by_meaning};
ghost use Rattle.pathindex_core.specs.EngineTerms.{IsUnopened, engine_kinds};
ghost use Rattle.any_index.specs.AnyMeanings.{meaning_of};

use crate::any::AnyIndex;
use ak_maintain::AkIndex;
use fb_index::FbIndex;
use fbk_index::FbkIndex;
use index_api::Kind;
use one_maintain::OneKept;
use pathindex_core::Engine;
use px_base::Memory;
use std::alloc::Global;

/// An engine that keeps all indexes: the A(k)-indexes, the 1-index, the forward and backward index, and the bounded ones. It
/// isn't open. `Memory` comes only where there is none for the list of the four. O(1); it takes memory for that list.
///
///     let mut engine = full_engine(alloc)?;
///     engine.open(graph, Limits::program(), 2)?;
pub fn full_engine(alloc: Global) -> Result<Engine<AnyIndex>, Memory>
    ensures sound { IfOk result (λ engine. IsSound (by_meaning meaning_of engine)) }
    ensures kinds { IfOk result (λ engine. engine_kinds meaning_of engine ≡ Kind.A ∷ Kind.One ∷ Kind.Fb ∷ Kind.B ∷ []) }
    ensures closed { IfOk result (λ engine. IsUnopened engine) }
{
    let mut indexes = Vec::new(alloc);
    indexes.push(AnyIndex::A(AkIndex::new(alloc)?))?;
    indexes.push(AnyIndex::One(OneKept::new(alloc)?))?;
    indexes.push(AnyIndex::Fb(FbIndex::new(alloc)?))?;
    indexes.push(AnyIndex::B(FbkIndex::new(alloc)?))?;
    let engine = Engine::new(indexes);
    Ok(engine)
}
