// The calls of a session as numbers, from its opening to its end.
use pathindex_calls::Held;
use std::process::Abort;
use std::test::Fail;

/// Ana is n0 and knows Bo, n2. The triple is n1.
const TRIPLES: &[u8] = b"<x:ana> <x:knows> <x:bo> .\n";

const KNOWN: &[u8] = b"<x:knows>/iri";

/// Whether the answers that were found last are these two.
fn finds(held: &mut Held, first: u32, second: u32) -> bool {
    let mut nodes = [9u32; 3];
    let count = held.copy_nodes(0, &mut nodes);
    count == 2 && nodes[0] == first && nodes[1] == second
}

/// Asks a path through the 1-index, and why its second answer is one.
fn asks(rt: &impl Abort, held: &mut Held) {
    assert!(rt; held.call(11, 33, 0, KNOWN) == 0);
    assert!(rt; held.reported(0) == 1 && held.reported(1) == 2 && held.reported(2) == 2);
    assert!(rt; finds(held, 0, 2));
    assert!(rt; held.call(12, 16, 0, b"iri[\\<x:knows>]") == 0);
    assert!(rt; held.call(13, 2, 0, KNOWN) == 0 && held.reported(1) == 2);
    let mut walk = [0u32; 2];
    assert!(rt; held.copy_walk(1, &mut walk) == 1 && walk[0] == 2);
    assert!(rt; held.check(2, &[1, 2], KNOWN) == 0 && held.reported(1) == 1);
}

/// Makes each change, alone and in a group, so that Bo knows Ana in the end.
fn changes(rt: &impl Abort, held: &mut Held) {
    assert!(rt; held.call(9, 0, 0, b"<x:bo> <x:knows> <x:ana> .") == 0);
    assert!(rt; held.reported(1) == 1 && held.reported(2) == 3);
    assert!(rt; held.call(6, 0, 0, b"") == 0);
    assert!(rt; held.call(1, 0, 0, b"note") == 0);
    assert!(rt; held.call(2, 0, 4, b"") == 0);
    assert!(rt; held.reported(3) == 4);
    assert!(rt; held.call(7, 0, 0, b"") == 0);
    assert!(rt; held.reported(1) == 1 && held.reported(2) == 4);
    assert!(rt; held.call(3, 0, 4, b"") == 0);
    assert!(rt; held.call(5, 4, 0, b"memo") == 0);
    assert!(rt; held.call(4, 4, 0, b"") == 0);
    assert!(rt; held.reported(3) == 4 && held.reported(4) == 4 && held.reported(5) == 5);
}

/// What is refused, and by which code.
fn refuses(rt: &impl Abort, held: &mut Held) {
    assert!(rt; held.call(2, 0, 99, b"") == 1);
    assert!(rt; held.call(11, 3, 0, KNOWN) == 5);
    assert!(rt; held.call(12, 32, 0, b"iri[") == 6);
    assert!(rt; held.call(11, 99, 0, KNOWN) == 8);
    assert!(rt; held.call(18, 0, 0, b"") == 8);
    assert!(rt; held.call(8, 0, 0, b"") == 8);
}

/// The lists, and an index that is dropped.
fn lists(rt: &impl Abort, held: &mut Held) {
    assert!(rt; held.call(14, 0, 0, b"") == 0);
    let mut text = [0u8; 8];
    assert!(rt; held.copy_text(0, &mut text) == 8 && text == *b"blocks 2");
    assert!(rt; held.call(15, 0, 0, b"") == 0);
    assert!(rt;
        held.call(17, 0, 0, b"") == 0 && held.copy_text(0, &mut text) == 8 && text == *b"pathinde"
    );
    assert!(rt; held.call(16, 33, 0, b"") == 0);
    assert!(rt; held.call(11, 33, 0, KNOWN) == 5);
}

#[test]
fn a_session_is_called_by_numbers(rt: HostRuntime) -> Result<(), Fail> {
    let mut held = Held::new(&rt.alloc());
    assert!(rt; held.call(15, 0, 0, b"") == 8);
    assert!(rt; held.call(0, 2, 4, TRIPLES) == 0);
    changes(&rt, &mut held);
    asks(&rt, &mut held);
    refuses(&rt, &mut held);
    lists(&rt, &mut held);
    assert!(rt; held.call(0, 2, 0, b"\n<x:ana>") == 6 && held.reported(1) == 2);
    held.close();
    Ok(())
}
