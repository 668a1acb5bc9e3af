// Partitions that are compared.
ghost use Rattle.std.specs.Prelude.{◌≡◌, ◌<◌, ◌↔◌, ◌&&◌, ℕ, Some, length, IfOk, IsTrue};
ghost use Rattle.graph_spec.specs.Members.{at};
ghost use Rattle.index_check.specs.ComparedLists.{Determines, AreSame};
ghost use Rattle.round_refinement.specs.Numbering.{AreBelow};

use px_base::Memory;
use round_refinement::span_of;
use std::alloc::Global;

// The value of a number, and `None` past the end of the list.
fn value_at(values: &[Option<u32>], n: usize) -> Option<u32>
    ensures { result ≡ at values.now n }
{
    if n < values.len() { values[n] } else { None }
}

// Whether numbers with one value in the first list have one in the second, by the first number with each value.
fn determines_with(
    keys: &[Option<u32>],
    values: &[Option<u32>],
    first: &mut [Option<usize>],
) -> bool
    requires below { AreBelow keys.now (length first.old) }
    requires none { (b : ℕ) (f : ℕ) → at first.old b ≡ Some f → ⊥ }
    ensures { IsTrue result ↔ Determines keys.now values.now }
{
    for n in 0..keys.len() {
        if let Some(b) = keys[n] {
            match first[b as usize] {
                Some(f) => {
                    if value_at(values, f) != value_at(values, n) {
                        return false;
                    }
                }
                None => first[b as usize] = Some(n),
            }
        }
    }
    true
}

/// Whether numbers with one value in the first list have one in the second. O(n + v) for n numbers and values below v; it takes
/// 16 bytes for each value.
pub(crate) fn determines(
    alloc: Global,
    keys: &[Option<u32>],
    values: &[Option<u32>],
) -> Result<bool, Memory>
    ensures { IfOk result (λ yes. IsTrue yes ↔ Determines keys.now values.now) }
{
    let mut first = vec![in alloc; None; span_of(keys)]?;
    let yes = determines_with(keys, values, &mut first);
    Ok(yes)
}

/// Whether two partitions are the same.
pub(crate) fn are_same(alloc: Global, a: &[Option<u32>], b: &[Option<u32>]) -> Result<bool, Memory>
    ensures { IfOk result (λ yes. IsTrue yes ↔ AreSame a.now b.now) }
{
    let there = determines(alloc, a, b)?;
    let back = determines(alloc, b, a)?;
    Ok(there && back)
}

pub(crate) fn are_both(a: bool, b: bool) -> bool
    ensures { result ≡ (a && b) }
{
    a && b
}
