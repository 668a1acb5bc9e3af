// What lines spell.
use index_api::{Kind, Via};
use px_base::{Limits, Text};
use script_read::{Command, ScriptError, read};
use std::alloc::Global;
use std::test::Fail;

/// What a line gives, in short: its command's first letter with its numbers, or why there is none.
#[derive(Clone, Copy, Debug, PartialEq, Eq)]
enum Short {
    Quiet,
    Node,
    Pair(char, u32, u32),
    Drop(u32),
    Relabel(u32),
    Begin,
    End,
    Insert,
    Delete,
    Path(Via),
    Branch(Via),
    Why(u32),
    Check(u32, u32),
    Extents(Via),
    Sizes,
    Save,
    Forget(Kind),
    Bad,
    Limit,
    Memory,
}

fn shorten(read: Result<Option<Command>, ScriptError>) -> Short {
    match read {
        Ok(None) => Short::Quiet,
        Ok(Some(Command::Node(_))) => Short::Node,
        Ok(Some(Command::Link(from, to))) => Short::Pair('l', from, to),
        Ok(Some(Command::Unlink(from, to))) => Short::Pair('u', from, to),
        Ok(Some(Command::Drop(node))) => Short::Drop(node),
        Ok(Some(Command::Relabel(node, _))) => Short::Relabel(node),
        Ok(Some(Command::Begin)) => Short::Begin,
        Ok(Some(Command::End)) => Short::End,
        Ok(Some(Command::Insert(_))) => Short::Insert,
        Ok(Some(Command::Delete(_))) => Short::Delete,
        Ok(Some(Command::Path(via, _))) => Short::Path(via),
        Ok(Some(Command::Branch(via, _))) => Short::Branch(via),
        Ok(Some(Command::Why(node, _))) => Short::Why(node),
        Ok(Some(Command::Check(walk, _))) => match walk.nodes() {
            [first, .., last] => Short::Check(*first, *last),
            _ => Short::Memory,
        },
        Ok(Some(Command::Extents(via))) => Short::Extents(via),
        Ok(Some(Command::Sizes)) => Short::Sizes,
        Ok(Some(Command::Save)) => Short::Save,
        Ok(Some(Command::Forget(kind))) => Short::Forget(kind),
        Err(ScriptError::Bad) => Short::Bad,
        Err(ScriptError::Limit) => Short::Limit,
        Err(ScriptError::Memory) => Short::Memory,
    }
}

#[test]
fn lines_are_commands(rt: HostRuntime) -> Result<(), Fail> {
    let rows: [(&[u8], Short); 34] = [
        (b"", Short::Quiet),
        (b" \t# node a", Short::Quiet),
        (b" node\ta ", Short::Node),
        (b"node <http://e/p>", Short::Node),
        (b"link n0 n4294967295", Short::Pair('l', 0, 4294967295)),
        (b"unlink n10 n2", Short::Pair('u', 10, 2)),
        (b"drop n7", Short::Drop(7)),
        (b"relabel n3 x", Short::Relabel(3)),
        (
            b" relabel\tn4294967295  <http://e/p>\t",
            Short::Relabel(4294967295),
        ),
        (b" begin\t", Short::Begin),
        (b"end", Short::End),
        (b"insert <http://e/a> <http://e/p> _:b .", Short::Insert),
        (b" insert\t<><>\"x\"@en.# so", Short::Insert),
        (b"delete  _:b <http://e/p> \"x\" . ", Short::Delete),
        (b"path data a / b \t", Short::Path(Via::Data)),
        (b"path data (a|b)*//_ ", Short::Path(Via::Data)),
        (b"path one a", Short::Path(Via::One)),
        (b" path  a4294967295\ta/_ ", Short::Path(Via::A(4294967295))),
        (b"branch data b\\a", Short::Branch(Via::Data)),
        (
            b" branch fb a[/b and not ( //c )]\\x ",
            Short::Branch(Via::Fb),
        ),
        (b"branch a1 a[not(/b)]", Short::Branch(Via::A(1))),
        (b"why n0 a//b", Short::Why(0)),
        (b" why\tn4294967295 _* ", Short::Why(4294967295)),
        (
            b"check n0,n12,n4294967295  a / _",
            Short::Check(0, 4294967295),
        ),
        (b"extents one", Short::Extents(Via::One)),
        (b" extents\tfb ", Short::Extents(Via::Fb)),
        (b"extents a0", Short::Extents(Via::A(0))),
        (b"extents a4294967295", Short::Extents(Via::A(4294967295))),
        (b"extents b1", Short::Extents(Via::B(1))),
        (b"sizes", Short::Sizes),
        (b"\tsave ", Short::Save),
        (b"forget a", Short::Forget(Kind::A)),
        (b" forget fb\t", Short::Forget(Kind::Fb)),
        (b"forget b", Short::Forget(Kind::B)),
    ];
    for (line, short) in rows {
        let read = shorten(read(rt.alloc(), line, &Limits::program()));
        assert_eq!(rt; read, short, "{line:?}");
    }
    Ok(())
}

#[test]
fn near_misses_are_bad(rt: HostRuntime) -> Result<(), Fail> {
    let lines: [&[u8]; 57] = [
        b"node",
        b"node and",
        b"node a b",
        b"node <http://e/p> x",
        b"node <http://e/p",
        b"link n0 n01",
        b"link n0 n4294967296",
        b"link n0",
        b"drop 0",
        b"drop n0 n1",
        b"relabel n0",
        b"relabel a n0",
        b"relabel n01 a",
        b"relabel n0 and",
        b"relabel n0 a b",
        b"begin x",
        b"end n0",
        b"begins",
        b"END",
        b"insert",
        b"insert # <http://e/a> <http://e/p> <http://e/b> .",
        b"insert <http://e/a> <http://e/p> <http://e/b>",
        b"insert<http://e/a> <http://e/p> <http://e/b> .",
        b"insert <http://e/a> <http://e/p> \"\xff\" .",
        b"delete \"x\" <http://e/p> <http://e/b> .",
        b"delete n0",
        b"path data a b",
        b"path data a**",
        b"path two a",
        b"path a4294967296 a",
        b"path fb",
        b"path data a[/b]",
        b"branch data a[b]",
        b"branch data a|b",
        b"branch two a",
        b"branch fb",
        b"Node a",
        b"why n0",
        b"why n0,n1 a",
        b"why n4294967296 a",
        b"check a n0",
        b"check n0,,n1 a",
        b"check n0,n01 a",
        b"check n0, n1 a",
        b"check n0,n1 a[/b]",
        b"extents",
        b"extents data",
        b"extents a01",
        b"extents a4294967296",
        b"extents one fb",
        b"sizes x",
        b"save x",
        b"saves",
        b"sav",
        b"forget data",
        b"forget a0",
        b"forget one fb",
    ];
    for line in lines {
        let read = shorten(read(rt.alloc(), line, &Limits::program()));
        assert_eq!(rt; read, Short::Bad, "{line:?}");
    }
    Ok(())
}

#[test]
fn an_iri_has_one_spelling(rt: HostRuntime) -> Result<(), Fail> {
    let alloc = rt.alloc();
    match read(alloc, b"node <http://e/\\u0061>", &Limits::program()) {
        Ok(Some(Command::Node(label))) => assert_eq!(rt; label.as_str(), "<http://e/a>"),
        _ => return Err("a command".into()),
    }
    Ok(())
}

#[test]
fn limits_come_before_the_language(rt: HostRuntime) -> Result<(), Fail> {
    let few = Limits {
        nodes: 1,
        edges: 1,
        labels: 1,
        expr_bytes: 5,
        expr_depth: 1,
    };
    let rows: [(&[u8], Short); 16] = [
        (b" path data  a//bc \t", Short::Path(Via::Data)),
        (b"path data a//bcd", Short::Limit),
        (b"path data a b c d", Short::Limit),
        (b"path data a b c", Short::Bad),
        (b"path data ((a", Short::Limit),
        (b"path two ((a", Short::Bad),
        (b"path one ((a", Short::Limit),
        (b"branch fb  a[/b] ", Short::Branch(Via::Fb)),
        (b"branch fb a[/bc]", Short::Limit),
        (b"branch a3 [(", Short::Limit),
        (b"why n3 a//bcd", Short::Limit),
        (b"why n03 a//bcd", Short::Bad),
        (b"check n3,n4 ((a", Short::Limit),
        (b"check n3,n04 ((a", Short::Bad),
        (b"check n3,n4 a b c", Short::Bad),
        (b"node abcdefgh", Short::Node),
    ];
    for (line, short) in rows {
        assert_eq!(rt; shorten(read(rt.alloc(), line, &few)), short, "{line:?}");
    }
    Ok(())
}
