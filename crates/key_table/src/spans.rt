// Where keys lie, and how they are found.
ghost use Rattle.std.specs.Prelude.{◌≡◌, ◌≢◌, ◌<◌, ◌≤◌, length, slice_get, Some, IfSome, IfNone, IsTrue, IsFalse};
ghost use Rattle.key_table.specs.Hashes.{hash_of};
ghost use Rattle.key_table.specs.Spans.{span_at, key_in, keys_of, IsKeyTable};
ghost use Rattle.key_table.specs.NumberedKeys.{IsAbsent};

use hash_index::HashIndex;

/// Where a key lies in the arena.
#[derive(Clone, Copy)]
pub(crate) struct KeyRange {
    pub(crate) from: u32,
    pub(crate) to: u32,
}

#[inline(always)]
pub(crate) fn read_span(index: &HashIndex<KeyRange>, n: u32) -> KeyRange
    requires { n < length index.now.items }
    ensures { result ≡ span_at index.now.items n }
{
    index.item(n)
}

// Whether this key lies there.
#[inline(always)]
fn is_key(arena: &[u32], span: KeyRange, key: &[u32]) -> bool
    requires order { span.from ≤ span.to }
    requires within { span.to ≤ length arena.now }
    ensures same { IsTrue result → key_in arena.now span ≡ key.now }
    ensures other { IsFalse result → key_in arena.now span ≢ key.now }
{
    &arena[span.from as usize..span.to as usize] == key
}

/// The number of the key.
pub(crate) fn search(
    arena: &[u32],
    index: &HashIndex<KeyRange>,
    key: &[u32],
    hash: u32,
) -> Option<u32>
    requires table { IsKeyTable arena.now index.now }
    requires hash { hash ≡ hash_of key.now }
    ensures found { IfSome result (λ i. slice_get (keys_of arena.now index.now.items) i ≡ Some key.now) }
    ensures absent { IfNone result (IsAbsent (keys_of arena.now index.now.items) key.now) }
{
    let mut at = index.newest(hash);
    'walk: while let Some(n) = at {
        if is_key(arena, read_span(index, n), key) {
            return Some(n);
        }
        at = index.older(n);
    }
    None
}
