// A part of a list, for a caller's own memory.
ghost use Rattle.pathindex_calls.specs.Calls.{IsCopied};

/// Copies a list from the place `first` on, as much of it as fits, and says how much that is. O(m) for m that are
/// copied.
pub(crate) fn copy_part<T: Copy>(list: &[T], first: usize, out: &mut [T]) -> usize
    ensures { IsCopied list.now first out.old out.new result }
{
    let first = first.min(list.len());
    let rest = &list[first..];
    let count = rest.len().min(out.len());
    out[..count].copy_from_slice(&rest[..count]);
    count
}
