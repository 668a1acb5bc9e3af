// Emptying tables and lists.
ghost use Rattle.std.specs.Prelude.{◌≡◌, []};

use indexmap::IndexMap;
use std::hash::Hash;

// What has grown past so many entries gives its memory back when it is emptied. Clearing a table takes time for its largest size, so
// one large change would slow each later one.
const MOST_KEPT: usize = 72;

/// Drops all entries of a table. The memory of a small table is kept.
pub(crate) fn empty_table<K: Eq + Hash + Drop, V: Drop>(table: &mut IndexMap<K, V>)
    ensures { table.new.entries ≡ [] }
{
    if table.capacity() > MOST_KEPT {
        *table = IndexMap::new(*table.allocator());
    } else {
        table.clear();
    }
}

/// Drops all items of a list. The memory of a short list is kept.
pub(crate) fn empty_list<T: Drop>(list: &mut Vec<T>)
    ensures { list.new.items ≡ [] }
{
    if list.capacity() > MOST_KEPT {
        *list = Vec::new(*list.allocator());
    } else {
        list.clear();
    }
}
