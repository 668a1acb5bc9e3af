// A run over all indexes, in which one call on the shelf or the sink fails.
ghost use Rattle.std.specs.Prelude.{◌≡◌, None};
ghost use Rattle.pathindex_core.specs.Engines.{IsSound, by_meaning};
ghost use Rattle.pathindex_core.specs.EngineTerms.{IsUnopened};

use crate::script_file::{script_file, script_words};
use any_index::full_engine;
use index_api::PathIndex;
use pathindex_core::Engine;
use pathindex_run::run;
use px_base::{MemShelf, MemSink};
use std::alloc::Global;

/// Two chains, and a node above the second one: their lists before it is linked, then, and after.
const CHAINS: &str =
    "node a\nnode b\nnode c\nlink n0 n1\nlink n1 n2\nnode a\nnode b\nnode c\nlink n3 n4\nlink n4 n5\nnode x\nextents one\nlink n6 n3\n\
    extents one\nextents a2\nunlink n6 n3\nextents one\nextents a2\n";

const LISTS: &str =
    "added n0\nadded n1\nadded n2\nok\nok\nadded n3\nadded n4\nadded n5\nok\nok\nadded n6\nblocks 4\na n0 n3\nb n1 n4\nc n2 n5\nx n6\nok\n\
    blocks 7\na n0\nb n1\nc n2\na n3\nb n4\nc n5\nx n6\nblocks 6\na n0\nb n1\nc n2 n5\na n3\nb n4\nx n6\nok\nblocks 4\na n0 n3\nb n1 n4\n\
    c n2 n5\nx n6\nblocks 4\na n0 n3\nb n1 n4\nc n2 n5\nx n6\n";

/// A run of the chains, where shelf and sink move a byte at a time, and these calls on them fail, 0 for none.
#[derive(Drop)]
struct Failing {
    shelf: u32,
    sink: u32,
    status: u8,
}

/// A list of this number alone.
fn alone(alloc: Global, number: u32) -> Option<Vec<u32>> {
    let mut numbers = Vec::new(alloc);
    numbers.push(number).ok()?;
    Some(numbers)
}

/// A shelf with the chains as the file `s`.
fn shelf_of(alloc: Global, failing: u32) -> Option<MemShelf> {
    let files = script_file(alloc, CHAINS)?;
    Some(MemShelf::new(files, 1, alone(alloc, failing)?))
}

/// How many bytes were written, where they are the first of the lists.
fn prefix_of(written: &[u8]) -> Option<usize> {
    if LISTS.as_bytes().starts_with(written) {
        return Some(written.len());
    }
    None
}

/// How many bytes the run writes, where it ends with its status and they are the first of the lists.
fn prefix<B: PathIndex>(alloc: Global, engine: &mut Engine<B>, failing: &Failing) -> Option<usize>
    requires closed { IsUnopened engine.old }
    requires sound { IsSound (by_meaning B.meaning engine.old) }
{
    let words = script_words(alloc)?;
    let mut shelf = shelf_of(alloc, failing.shelf)?;
    let mut sink = MemSink::new(alloc, 1, alone(alloc, failing.sink)?, 1000).ok()?;
    let status = run(alloc, &words, engine, &mut shelf, &mut sink);
    if status != failing.status {
        return None;
    }
    prefix_of(sink.written())
}

/// The same, on an engine with all indexes.
fn written(alloc: Global, failing: &Failing) -> Option<usize> {
    match full_engine(alloc) {
        Ok(mut engine) => prefix(alloc, &mut engine, failing),
        Err(_) => None,
    }
}

/// A run in which these calls fail, and its status.
fn failing_at(shelf: u32, sink: u32, status: u8) -> Failing {
    Failing {
        shelf,
        sink,
        status,
    }
}

// One call opens the file, and one for each of its 175 bytes and one more read it. As many write the 281 bytes.
#[test]
fn each_failing_call_leaves_a_prefix(rt: HostRuntime) {
    for call in 1..=177 {
        assert!(rt;
            written(rt.alloc(), &failing_at(call, 0, 5)).is_some(),
            "{call}"
        );
    }
    for done in 0..281 {
        assert_eq!(rt;
            written(rt.alloc(), &failing_at(0, done + 1, 6)),
            Some(done as usize)
        );
    }
    assert_eq!(rt; written(rt.alloc(), &failing_at(178, 282, 0)), Some(281));
}
