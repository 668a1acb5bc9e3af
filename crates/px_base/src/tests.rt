// Each public call once, with ample memory, and each way in which reading and writing may fail.
ghost use Rattle.std.specs.Prelude.{◌+◌, ◌≡◌, ◌≤◌, ◌<◌, IsTrue, is_some, false};

use super::*;
use std::alloc::Global;
use std::marker::Brand;
use std::sync::ledger::{Blank, Ledger};
use std::test::Fail;

#[test]
fn texts_are_made_and_compared(rt: HostRuntime) -> Result<(), Fail> {
    let alloc = rt.alloc();
    let text = Text::from_bytes(alloc, "né".as_bytes())?;
    let copy = text.copy(alloc)?;
    let empty = Text::from_bytes(alloc, b"")?;
    let refused = Text::from_bytes(alloc, b"a\xFF").err();
    let seen = (copy.as_bytes(), empty.as_str(), refused);
    assert_eq!(rt;
        seen,
        (b"n\xC3\xA9".as_slice(), "", Some(TextError::NotUtf8))
    );
    assert!(rt; copy == text && empty < text);
    assert_eq!(rt;
        format!(in alloc; "{text:?}")?.as_str(),
        "Text { content: \"né\" }"
    );
    Ok(())
}

#[test]
fn refusals_have_words_and_limits_numbers(rt: HostRuntime) {
    let words = [
        Refusal::NoNode.word(),
        Refusal::NoEdge.word(),
        Refusal::Limit.word(),
        Refusal::NoIndex.word(),
    ];
    assert!(rt; words == ["no-node", "no-edge", "limit", "no-index"]);
    let limits = Limits::program();
    let graph = (limits.nodes, limits.edges, limits.labels);
    assert!(rt; graph == (2097152, 4194304, 1048576));
    assert!(rt; (limits.expr_bytes, limits.expr_depth) == (4096, 64));
}

#[test]
fn sets_of_numbers(rt: HostRuntime) -> Result<(), Fail> {
    let mut set = Bits::new(rt.alloc(), 6)?;
    set.insert(4);
    set.insert(1);
    set.insert(4);
    set.insert(5);
    set.remove(5);
    set.remove(0);
    let found = [
        set.next_from(0),
        set.next_from(2),
        set.next_from(4),
        set.next_from(5),
    ];
    assert_eq!(rt; found, [Some(1), Some(4), Some(4), None]);
    let seen = (
        set.size(),
        set.count(),
        set.contains(1),
        set.contains(5),
        set.contains(9),
    );
    assert_eq!(rt; seen, (6, 2, true, false, false));
    Ok(())
}

#[test]
fn the_last_number_is_at_hand(rt: HostRuntime) -> Result<(), Fail> {
    let mut recent = Recent::new(rt.alloc())?;
    assert!(rt; recent.get(1, 2) == 0);
    recent.put(1, 2, 7);
    recent.put(1, 2, 8);
    // a slot of its own
    recent.put(2, 1, 9);
    assert_eq!(rt; (recent.get(1, 2), recent.get(2, 1)), (8, 9));
    recent.put(u32::MAX, u32::MAX, u32::MAX);
    assert!(rt; recent.get(u32::MAX, u32::MAX) == u32::MAX);
    // for all pairs together there are fewer slots than this
    for n in 0..5000u32 {
        recent.put(n, n, n);
    }
    assert!(rt; recent.get(4999, 4999) == 4999);
    Ok(())
}

/// A shelf with one file, `t`.
fn one_file(alloc: Global, bytes: &[u8], piece: u32, failing: &[u32]) -> Result<MemShelf, Fail>
    requires { 1 ≤ piece }
{
    let mut files = Vec::new(alloc);
    files.push((Text::from_bytes(alloc, b"t")?, bytes.to_vec(alloc)?))?;
    Ok(MemShelf::new(files, piece, failing.to_vec(alloc)?))
}

/// Takes lines up to the end of the text or an error, at most nine, with a `|` behind each.
fn take_lines(
    reader: &mut LineReader,
    shelf: &mut MemShelf,
    lines: &mut Vec<u8>,
) -> Result<(), LineFault>
    requires ready { reader.old.failed ≡ false }
    requires open { IsTrue (is_some shelf.old.left) }
{
    for _ in 0..9u32 {
        if !reader.next(shelf)? {
            return Ok(());
        }
        lines.extend_from_slice(reader.line())?;
        lines.extend_from_slice(b"|")?;
    }
    Ok(())
}

#[test]
fn lines_are_taken_up_to_the_first_error(rt: HostRuntime) -> Result<(), Fail> {
    let alloc = rt.alloc();
    for (failing, line_limit, text_limit, want) in [
        (0, 3, 9, (b"ab||cde|".as_slice(), 3, Ok(()))),
        (3, 3, 9, (b"".as_slice(), 0, Err(LineFault::Fault))),
        (0, 2, 9, (b"ab||".as_slice(), 3, Err(LineFault::Limit))),
        (0, 3, 2, (b"".as_slice(), 1, Err(LineFault::Limit))),
        (0, 3, 7, (b"ab||cde|".as_slice(), 3, Ok(()))),
        (0, 3, 6, (b"ab||".as_slice(), 3, Err(LineFault::Limit))),
    ] {
        let mut shelf = one_file(alloc, b"ab\n\ncde", 2, &[failing])?;
        assert!(rt; shelf.open("t") == Ok(true));
        let mut reader = LineReader::new(alloc, line_limit, text_limit)?;
        let mut lines = Vec::new(alloc);
        let end = take_lines(&mut reader, &mut shelf, &mut lines);
        assert_eq!(rt;
            (lines.as_slice(), reader.number(), end),
            want,
            "at {failing}, {line_limit}, {text_limit}"
        );
    }
    Ok(())
}

#[test]
fn lines_end_at_feeds_and_returns(rt: HostRuntime) -> Result<(), Fail> {
    let alloc = rt.alloc();
    for (text, want) in [
        (b"ab\nc\n\nd".as_slice(), b"ab|c||d|".as_slice()),
        (b"ab\r\nc\r\n\r\nd".as_slice(), b"ab|c||d|".as_slice()),
        (b"ab\rc\r\rd".as_slice(), b"ab|c||d|".as_slice()),
        (b"a\r".as_slice(), b"a|".as_slice()),
        (b"a\r\n".as_slice(), b"a|".as_slice()),
        (b"\n\r".as_slice(), b"||".as_slice()),
        (b"\r\r\n\n".as_slice(), b"|||".as_slice()),
    ] {
        for piece in 1..4u32 {
            let mut shelf = one_file(alloc, text, piece, &[])?;
            assert!(rt; shelf.open("t") == Ok(true));
            let mut reader = LineReader::new(alloc, 2, 14)?;
            let mut lines = Vec::new(alloc);
            take_lines(&mut reader, &mut shelf, &mut lines)?;
            assert_eq!(rt; lines.as_slice(), want, "at {text:?} in pieces of {piece}");
        }
    }
    Ok(())
}

#[test]
fn limits_at_a_return_and_behind_it(rt: HostRuntime) -> Result<(), Fail> {
    let alloc = rt.alloc();
    for (failing, line_limit, text_limit, want) in [
        (0, 2, 5, (b"ab|c|".as_slice(), 2, Ok(()))),
        (0, 2, 4, (b"ab|".as_slice(), 2, Err(LineFault::Limit))),
        (0, 2, 3, (b"".as_slice(), 1, Err(LineFault::Limit))),
        (0, 2, 2, (b"".as_slice(), 1, Err(LineFault::Limit))),
        (0, 1, 5, (b"".as_slice(), 1, Err(LineFault::Limit))),
        (3, 2, 5, (b"".as_slice(), 0, Err(LineFault::Fault))),
        (3, 2, 2, (b"".as_slice(), 1, Err(LineFault::Limit))),
    ] {
        let mut shelf = one_file(alloc, b"ab\r\nc", 3, &[failing])?;
        assert!(rt; shelf.open("t") == Ok(true));
        let mut reader = LineReader::new(alloc, line_limit, text_limit)?;
        let mut lines = Vec::new(alloc);
        let end = take_lines(&mut reader, &mut shelf, &mut lines);
        assert_eq!(rt;
            (lines.as_slice(), reader.number(), end),
            want,
            "at {failing}, {line_limit}, {text_limit}"
        );
    }
    Ok(())
}

#[test]
fn a_line_lies_ahead(rt: HostRuntime) -> Result<(), Fail> {
    let alloc = rt.alloc();
    for (text, want) in [
        (b"a\nb\n".as_slice(), true),
        (b"a\nb\rc".as_slice(), true),
        (b"a\nb\r".as_slice(), false),
        (b"a\nb".as_slice(), false),
    ] {
        let mut shelf = one_file(alloc, text, 9, &[])?;
        assert!(rt; shelf.open("t") == Ok(true));
        let mut reader = LineReader::new(alloc, LINE_BYTES, SCRIPT_BYTES.min(GRAPH_BYTES))?;
        let before = reader.has_line_ahead();
        reader.next(&mut shelf)?;
        assert_eq!(rt;
            (before, reader.has_line_ahead()),
            (false, want),
            "at {text:?}"
        );
    }
    Ok(())
}

#[test]
fn the_first_of_two_files_counts(rt: HostRuntime) -> Result<(), Fail> {
    let alloc = rt.alloc();
    let mut files = Vec::new(alloc);
    for bytes in [b"one", b"two"] {
        files.push((Text::from_bytes(alloc, b"t")?, bytes.to_vec(alloc)?))?;
    }
    let mut shelf = MemShelf::new(files, 9, vec![in alloc; 2]?);
    let opened = (shelf.open("u"), shelf.open("t"));
    assert!(rt; shelf.open("t") == Ok(true));
    let mut buf = [0; 4];
    let count = shelf.read(&mut buf);
    assert_eq!(rt;
        (opened, count, &buf),
        ((Ok(false), Err(Failed)), Ok(3), b"one\0")
    );
    Ok(())
}

#[test]
fn all_is_written_in_pieces(rt: HostRuntime) -> Result<(), Fail> {
    let alloc = rt.alloc();
    for (failing, capacity, want) in [
        (0, 7, (b"abcdefg".as_slice(), Ok(()))),
        (0, 6, (b"abcdef".as_slice(), Err(Failed))),
        (2, 9, (b"abc".as_slice(), Err(Failed))),
    ] {
        let mut sink = MemSink::new(alloc, 3, vec![in alloc; failing]?, capacity)?;
        let end = put_all(&mut sink, b"abcdefg");
        assert_eq!(rt; (sink.written(), end), want, "at {failing}, {capacity}");
    }
    Ok(())
}

// A count takes no bytes, so no code can read it: the contract says what is counted, and the check of the tests proves it.
fn add_three<L: Ledger>(steps: &mut Steps<L>)
    ensures { steps.new ≡ steps.old + 3 }
{
    steps.tick();
    steps.tick_by(2);
}

fn three_steps<L: Ledger>(blank: Blank)
    requires name { blank.name ≡ L.name }
    requires parts { blank.parts ≡ L.parts }
    requires some { 0 < blank.parts }
{
    let mut steps = Steps::<L>::new(blank);
    add_three(&mut steps);
}

#[test]
fn steps_are_counted(_rt: HostRuntime) {
    three_steps::<Brand>(Blank::new(1));
}
