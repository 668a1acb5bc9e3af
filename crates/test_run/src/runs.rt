// Whole runs in memory, and the real files and output once each.
use ak_maintain::AkIndex;
use any_index::full_engine;
use pathindex_core::Engine;
use pathindex_run::{HostShelf, HostSink, run};
use px_base::{MemShelf, MemSink, Memory, Shelf, Sink, Text};
use std::alloc::Global;
use std::fs;
use std::test::Fail;

/// What a run is given: its words, the files `s` and `g` where they are there, the number of the one call on the
/// shelf and of the one on the sink that fails, 0 for none, and whether the engine has all indexes, or an `AkIndex` alone.
#[derive(Clone, Copy)]
pub(crate) struct Given<'a> {
    pub(crate) words: &'a [&'a str],
    pub(crate) script: Option<&'a str>,
    pub(crate) graph: Option<&'a str>,
    pub(crate) failing: (u32, u32),
    pub(crate) has_all: bool,
}

fn named(alloc: Global, words: &[&str]) -> Result<Vec<String>, Memory> {
    let mut named = Vec::new(alloc);
    for word in words {
        named.push(String::from_str(alloc, word)?)?;
    }
    Ok(named)
}

fn put_file(
    alloc: Global,
    files: &mut Vec<(Text, Vec<u8>)>,
    name: &[u8],
    content: Option<&str>,
) -> Result<(), Memory> {
    if let Some(content) = content {
        let name = Text::from_bytes(alloc, name).map_err(|_| Memory)?;
        files.push((name, content.as_bytes().to_vec(alloc)?))?;
    }
    Ok(())
}

fn number(alloc: Global, number: u32) -> Result<Vec<u32>, Memory> {
    let mut numbers = Vec::new(alloc);
    numbers.push(number)?;
    Ok(numbers)
}

fn shelf_of(alloc: Global, given: Given<'_>) -> Result<MemShelf, Memory> {
    let mut files = Vec::new(alloc);
    put_file(alloc, &mut files, b"s", given.script)?;
    put_file(alloc, &mut files, b"g", given.graph)?;
    Ok(MemShelf::new(files, 8, number(alloc, given.failing.0)?))
}

/// The status of the run over an engine with all indexes, or with an `AkIndex` alone.
fn run_over(
    alloc: Global,
    words: &[String],
    has_all: bool,
    shelf: &mut MemShelf,
    sink: &mut MemSink,
) -> Result<u8, Memory> {
    if has_all {
        let mut engine = full_engine(alloc)?;
        return Ok(run(alloc, words, &mut engine, shelf, sink));
    }
    let mut indexes = Vec::new(alloc);
    indexes.push(AkIndex::new(alloc)?)?;
    let mut engine = Engine::new(indexes);
    Ok(run(alloc, words, &mut engine, shelf, sink))
}

/// Whether the run ends with that status and has written that.
fn ends_over(
    alloc: Global,
    given: Given<'_>,
    sink: &mut MemSink,
    output: &str,
    status: u8,
) -> Result<bool, Memory> {
    let words = named(alloc, given.words)?;
    let mut shelf = shelf_of(alloc, given)?;
    let ended = run_over(alloc, &words, given.has_all, &mut shelf, sink)?;
    Ok(ended == status && sink.written() == output.as_bytes())
}

fn sink_of(alloc: Global, failing: u32) -> Result<MemSink, Memory> {
    MemSink::new(alloc, 3, number(alloc, failing)?, 1000)
}

/// Whether the run ends so.
pub(crate) fn ends(alloc: Global, given: Given<'_>, output: &str, status: u8) -> bool {
    match sink_of(alloc, given.failing.1) {
        Ok(mut sink) => match ends_over(alloc, given, &mut sink, output, status) {
            Ok(right) => right,
            Err(_) => false,
        },
        Err(_) => false,
    }
}

/// A script under the words `s` alone, without a graph file.
fn script(text: &str) -> Given<'_> {
    Given {
        words: &["s"],
        script: Some(text),
        graph: None,
        failing: (0, 0),
        has_all: false,
    }
}

/// Scripts, what they write, and the status.
const SCRIPTS: &[(&str, &str, u8)] = &[
    ("", "", 0),
    (
        "node a\nnode b\nlink n0 n1\npath data a/b\n",
        "added n0\nadded n1\nok\nanswers 1\nn1\n",
        0,
    ),
    ("node a\nlink n0 n7\n", "added n0\nrefused no-node\n", 1),
    ("node a\nnode and\nnode b\n", "added n0\nbad 2\n", 4),
    (
        "# a note\n\n node\ta\nlink n0 n0\nlink n0 n0\npath data a / a\npath data b",
        "added n0\nok\nok\nanswers 1\nn0\nanswers 0\n",
        0,
    ),
    ("path data a b\n", "bad 1\n", 4),
    (
        "node a\nnode b\nnode c\nlink n0 n1\nlink n1 n2\npath data a/b/c\npath data a//c\npath data (a|b)+\n",
        "added n0\nadded n1\nadded n2\nok\nok\nanswers 1\nn2\nanswers 1\nn2\nanswers 2\nn0 n1\n",
        0,
    ),
    (
        "node a\nnode b\nnode c\nlink n0 n1\nlink n1 n2\nwhy n2 a//c\nwhy n2 c|a/b/c\nwhy n0 b\nwhy n7 a\n",
        "added n0\nadded n1\nadded n2\nok\nok\nwalk 3\nn0 n1 n2\nwalk 1\nn2\nnone\nrefused no-node\n",
        1,
    ),
    (
        "node a\nnode a\nnode b\nlink n1 n2\nlink n0 n2\nwhy n2 a/b\ncheck n1,n2 a/b\ncheck n2,n1 b/a\ncheck n2 a*\n",
        "added n0\nadded n1\nadded n2\nok\nok\nwalk 2\nn0 n2\nyes\nno\nno\n",
        0,
    ),
    ("node b\npath data a*\n", "added n0\nanswers 0\n", 0),
    (
        "path data ((((((((((((((((((((((((((((((((((((((((((((((((((((((((((((((((a))))))))))))))))))))))))))))))))))))))))))))))))))))))))))))))))\n",
        "answers 0\n",
        0,
    ),
    (
        "path data (((((((((((((((((((((((((((((((((((((((((((((((((((((((((((((((((a)))))))))))))))))))))))))))))))))))))))))))))))))))))))))))))))))\n\
        path data a**\n",
        "refused limit\nbad 2\n",
        4,
    ),
    (
        "node a\rnode b\r\nlink n0 n1\nlink n0 n1\nunlink n0 n1\nunlink n0 n1\n",
        "added n0\nadded n1\nok\nok\nok\nrefused no-edge\n",
        1,
    ),
    (
        "node a\nnode b\nlink n0 n1\ndrop n1\nunlink n0 n1\ndrop n1\nnode c\n",
        "added n0\nadded n1\nok\nok\nrefused no-node\nrefused no-node\nadded n2\n",
        1,
    ),
    (
        "node a\ndrop n0\ndrop n0\nunlink n0 n0\nlink n0 n0\npath data a\n",
        "added n0\nok\nrefused no-node\nrefused no-node\nrefused no-node\nanswers 0\n",
        1,
    ),
    ("unlink n0\n", "bad 1\n", 4),
    ("# x\rnode a\r\r\nnod\r", "added n0\nbad 4\n", 4),
    // two chains, and a node above the second one: their lists before it is linked, then, and after
    (
        "node a\nnode b\nnode c\nlink n0 n1\nlink n1 n2\nnode a\nnode b\nnode c\nlink n3 n4\nlink n4 n5\nnode x\nextents a2\nlink n6 n3\n\
        extents a2\nunlink n6 n3\nextents a2\n",
        "added n0\nadded n1\nadded n2\nok\nok\nadded n3\nadded n4\nadded n5\nok\nok\nadded n6\nblocks 4\na n0 n3\nb n1 n4\nc n2 n5\nx n6\n\
        ok\nblocks 6\na n0\nb n1\nc n2 n5\na n3\nb n4\nx n6\nok\nblocks 4\na n0 n3\nb n1 n4\nc n2 n5\nx n6\n",
        0,
    ),
    // A node takes its edges along: the lists are those before it was linked.
    (
        "node a\nnode b\nnode c\nlink n0 n1\nlink n1 n2\nnode a\nnode b\nnode c\nlink n3 n4\nlink n4 n5\nnode x\nlink n6 n3\ndrop n6\nextents a2\n",
        "added n0\nadded n1\nadded n2\nok\nok\nadded n3\nadded n4\nadded n5\nok\nok\nadded n6\nok\nok\nblocks 3\na n0 n3\nb n1 n4\nc n2 n5\n",
        0,
    ),
    // A node gets another label, and then its old one again.
    (
        "node a\nnode b\nnode c\nlink n0 n1\nlink n1 n2\nnode a\nnode b\nnode c\nlink n3 n4\nlink n4 n5\nrelabel n3 x\nextents a1\n\
        relabel n3 a\nextents a2\n",
        "added n0\nadded n1\nadded n2\nok\nok\nadded n3\nadded n4\nadded n5\nok\nok\nok\nblocks 5\na n0\nb n1\nc n2 n5\nx n3\nb n4\n\
        ok\nblocks 3\na n0 n3\nb n1 n4\nc n2 n5\n",
        0,
    ),
    (
        "node a\nrelabel n0 a\nrelabel n1 a\nrelabel n0 b\npath data b\n",
        "added n0\nok\nrefused no-node\nok\nanswers 1\nn0\n",
        1,
    ),
    (
        "begin\nnode a\nrelabel n0 b\nend\nextents a0\n",
        "added n0\nok\nblocks 1\nb n0\n",
        0,
    ),
    // A group is one change, which may be refused.
    (
        "begin\nnode a\nnode b\n\n# a note\nlink n0 n1\nend\nextents a1\n",
        "added n0\nadded n1\nok\nblocks 2\na n0\nb n1\n",
        0,
    ),
    (
        "node a\nbegin\nnode b\nlink n0 n9\nend\nnode c\n",
        "added n0\nrefused no-node\nadded n1\n",
        1,
    ),
    ("begin\nend\n", "ok\n", 0),
    ("begin\nsizes\n", "bad 2\n", 4),
    ("begin\npath data a\nend\n", "bad 2\n", 4),
    ("begin\nnode a\n", "bad 1\n", 4),
    ("node a\nbegin\nbegin\n", "added n0\nbad 3\n", 4),
    ("node a\nend\n", "added n0\nbad 2\n", 4),
    // A triple comes and goes, with the term that is both its subject and its object.
    (
        "insert <http://e/a> <http://e/p> <http://e/a> .\ninsert <http://e/a> <http://e/p> <http://e/a> .\n\
        delete <http://e/a> <http://e/p> <http://e/a> .\ndelete <http://e/a> <http://e/p> <http://e/a> .\npath data _\n",
        "added n0\nadded n1\nok\nok\nok\nrefused no-node\nanswers 0\n",
        1,
    ),
    (
        "begin\ninsert <http://e/a> <http://e/p> <http://e/a> .\nend\n",
        "bad 2\n",
        4,
    ),
    // Sets of parents count, and not their number.
    (
        "node a\nnode a\nnode b\nnode b\nlink n0 n2\nlink n1 n2\nlink n0 n3\nextents a1\n",
        "added n0\nadded n1\nadded n2\nadded n3\nok\nok\nok\nblocks 2\na n0 n1\nb n2 n3\n",
        0,
    ),
    // Children don't count, and neither do nodes that are gone.
    (
        "node a\nnode b\nlink n0 n1\nnode a\nnode x\ndrop n3\nextents a2\nsizes\n",
        "added n0\nadded n1\nok\nadded n2\nadded n3\nok\nblocks 2\na n0 n2\nb n1\nnodes 3 edges 1\na0 blocks 2 edges 1\na1 blocks 2 edges 1\n\
        a2 blocks 2 edges 1\n",
        0,
    ),
    // Two chains that level 1 takes for one behind their first nodes: the candidates are looked up, or are the answers.
    (
        "node a\nnode b\nnode c\nlink n0 n1\nlink n1 n2\nnode x\nnode b\nnode c\nlink n3 n4\nlink n4 n5\npath a1 a/b/c\npath a2 a/b/c\npath a2 a//c\n",
        "added n0\nadded n1\nadded n2\nok\nok\nadded n3\nadded n4\nadded n5\nok\nok\nanswers 1 candidates 2 checked\nn2\n\
        answers 1 candidates 1 exact\nn2\nanswers 1 candidates 1 checked\nn2\n",
        0,
    ),
    // The first node has a child, which no level sees.
    (
        "node a\nnode b\nlink n0 n1\nnode a\nbranch a1 a[not(/b)]\nbranch data b\\a\nbranch fb a\nbranch data a|b\n",
        "added n0\nadded n1\nok\nadded n2\nanswers 1 candidates 2 checked\nn2\nanswers 1\nn0\nrefused no-index\nbad 8\n",
        4,
    ),
    (
        "path a3 a\npath one a\n",
        "refused no-index\nrefused no-index\n",
        1,
    ),
    // An index that is forgotten is kept no longer.
    (
        "forget a\nextents a0\nforget a\n",
        "ok\nrefused no-index\nrefused no-index\n",
        1,
    ),
    (
        "forget one\nnode a\nforget a\nnode b\nsizes\n",
        "refused no-index\nadded n0\nok\nadded n1\nnodes 2 edges 0\n",
        1,
    ),
];

#[test]
fn scripts_and_what_they_write(rt: HostRuntime) {
    for (text, output, status) in SCRIPTS {
        assert!(rt; ends(rt.alloc(), script(text), output, *status), "{text}");
    }
}

/// A script with a group: the first lines, one line so many times, and the end.
fn group(alloc: Global, first: &str, line: &str, count: u32) -> Result<String, Memory> {
    let mut text = String::from_str(alloc, first)?;
    for _ in 0..count {
        text.push_str(line)?;
    }
    text.push_str("end\n")?;
    Ok(text)
}

fn group_ends(alloc: Global, lines: (&str, &str, u32), output: &str, status: u8) -> bool {
    match group(alloc, lines.0, lines.1, lines.2) {
        Ok(text) => ends(alloc, script(text.as_str()), output, status),
        Err(_) => false,
    }
}

// A change has at most 1,024 steps.
#[test]
fn long_groups_are_refused(rt: HostRuntime) {
    assert!(rt;
        group_ends(
            rt.alloc(),
            ("begin\nnode a\n", "link n0 n0\n", 1023),
            "added n0\nok\n",
            0
        )
    );
    assert!(rt;
        group_ends(
            rt.alloc(),
            ("begin\n", "node a\n", 1025),
            "refused limit\n",
            1
        )
    );
}

const USAGE: &str =
    "usage: pathindex SCRIPT [--graph FILE] [--k N] [--without-one] [--without-fb] [--with-bk] | pathindex --make SEED | pathindex --check FILE\n";

/// Words, a script, what it writes, and the status.
const WORDS: &[(&[&str], &str, &str, u8)] = &[
    (&[], "node a\n", USAGE, 2),
    (&["--k", "9", "s"], "node a\n", USAGE, 2),
    (&["s", "--make", "1"], "node a\n", USAGE, 2),
    (&["--make", "x"], "node a\n", USAGE, 2),
    (&["--check", "g", "s"], "node a\n", USAGE, 2),
    (&["--make", "1", "--check", "g"], "node a\n", USAGE, 2),
    (&["s", "--check"], "node a\n", USAGE, 2),
    (&["s", "--k", "1"], "node a\n", "added n0\n", 0),
    (
        &["s", "--k", "3"],
        "node a\nnode a\nlink n0 n0\nlink n1 n1\nextents a3\n",
        "added n0\nadded n1\nok\nok\nblocks 1\na n0 n1\n",
        0,
    ),
    (
        &["s", "--k", "8"],
        "node a\nnode b\nnode a\nnode b\nlink n0 n1\nlink n1 n0\nlink n2 n3\nlink n3 n2\nextents a8\n",
        "added n0\nadded n1\nadded n2\nadded n3\nok\nok\nok\nok\nblocks 2\na n0 n2\nb n1 n3\n",
        0,
    ),
    (
        &["s", "--k", "0"],
        "extents a1\nextents one\nextents fb\nextents a0\nsizes\n",
        "refused no-index\nrefused no-index\nrefused no-index\nblocks 0\nnodes 0 edges 0\na0 blocks 0 edges 0\n",
        1,
    ),
];

#[test]
fn words_and_what_they_ask_for(rt: HostRuntime) {
    for (words, text, output, status) in WORDS {
        let given = Given {
            words,
            ..script(text)
        };
        assert!(rt;
            ends(rt.alloc(), given, output, *status),
            "{words:?} {text}"
        );
    }
    let missing = Given {
        script: None,
        ..script("")
    };
    assert!(rt; ends(rt.alloc(), missing, "", 5));
}

// The shelf moves 8 bytes at a time: the first line is whole when the third call fails.
#[test]
fn failing_calls_lose_no_line(rt: HostRuntime) {
    let read_fails = Given {
        failing: (3, 0),
        ..script("node a\nnode b\n")
    };
    assert!(rt; ends(rt.alloc(), read_fails, "added n0\n", 5));
    let write_fails = Given {
        failing: (0, 1),
        ..script("node a\nnode b\nlink n0 n1\npath data a/b\n")
    };
    assert!(rt; ends(rt.alloc(), write_fails, "", 6));
}

/// A graph file whose two spellings of one IRI are one node, and three that are broken.
const SPELLINGS: &str =
    "# two spellings\r\n<http://e/a> <http://e/p> <http://e/\\u0061> .\r\n<http://e/\\u0061> <http://e/p> <http://e/a>.";

const TWO: &str = "<http://e/a> <http://e/p> <http://e/b> .\r\n# a note\r";

const CUT: &str = "\n<http://e/a> <http://e/p> \"x\"";

const DOTLESS: &str = "<http://e/a> <http://e/p> \"x\"";

/// People who know one another.
const PEOPLE: &str =
    r#"<http://example.org/ana> <http://www.w3.org/1999/02/22-rdf-syntax-ns#type> <http://xmlns.com/foaf/0.1/Person> .
<http://example.org/ana> <http://xmlns.com/foaf/0.1/name> "Ana"@en .
<http://example.org/ana> <http://xmlns.com/foaf/0.1/knows> <http://example.org/bo> .
<http://example.org/bo> <http://www.w3.org/1999/02/22-rdf-syntax-ns#type> <http://xmlns.com/foaf/0.1/Person> .
<http://example.org/bo> <http://xmlns.com/foaf/0.1/name> "Bo" .
<http://example.org/bo> <http://xmlns.com/foaf/0.1/knows> <http://example.org/ana> .
<http://example.org/bo> <http://xmlns.com/foaf/0.1/knows> <http://example.org/cy> .
<http://example.org/cy> <http://www.w3.org/1999/02/22-rdf-syntax-ns#type> <http://xmlns.com/foaf/0.1/Person> .
<http://example.org/cy> <http://xmlns.com/foaf/0.1/name> "Cy"@EN-gb .
<http://example.org/cy> <http://xmlns.com/foaf/0.1/age> "31"^^<http://www.w3.org/2001/XMLSchema#integer> .
<http://example.org/cy> <http://xmlns.com/foaf/0.1/knows> _:b0 .
_:b0 <http://xmlns.com/foaf/0.1/name> "Di" .
"#;

/// Whether the script is there, the graph file where it is there, what is written, and the status.
const GRAPHS: &[(Option<&str>, Option<&str>, &str, u8)] = &[
    (None, Some(DOTLESS), "graph 1 syntax\n", 3),
    (None, Some(CUT), "graph 2 syntax\n", 3),
    (None, Some(TWO), "", 5),
    (Some("path data iri\n"), None, "", 5),
    (Some("path data iri\n"), Some(TWO), "answers 2\nn0 n2\n", 0),
    (
        Some("extents a0\nsizes\npath data <http://e/\\u0070>/iri\n"),
        Some(SPELLINGS),
        "blocks 2\niri n0\n<http://e/p> n1\nnodes 2 edges 2\na0 blocks 2 edges 2\na1 blocks 2 edges 2\na2 blocks 2 edges 2\nanswers 1\nn0\n",
        0,
    ),
    (
        Some(
            "path data <http://xmlns.com/foaf/0.1/knows>/iri/<http://xmlns.com/foaf/0.1/name>/literal\nsizes\n",
        ),
        Some(PEOPLE),
        "answers 3\nn4 n9 n15\nnodes 22 edges 24\na0 blocks 7 edges 10\na1 blocks 10 edges 11\na2 blocks 11 edges 11\n",
        0,
    ),
    // The blank node stays, since another triple needs it.
    (
        Some(
            "delete _:b0 <http://xmlns.com/foaf/0.1/name> \"Di\" .\npath data <http://xmlns.com/foaf/0.1/name>/literal\n\
            insert _:b0 <http://xmlns.com/foaf/0.1/name> \"Di\" .\npath data blank/<http://xmlns.com/foaf/0.1/name>/literal\n",
        ),
        Some(PEOPLE),
        "ok\nanswers 3\nn4 n9 n15\nadded n22\nadded n23\nok\nanswers 1\nn23\n",
        0,
    ),
];

/// Under the words that name both files.
fn with_graph<'a>(script: Option<&'a str>, graph: Option<&'a str>) -> Given<'a> {
    Given {
        words: &["s", "--graph", "g"],
        script,
        graph,
        failing: (0, 0),
        has_all: false,
    }
}

#[test]
fn graph_files_are_loaded(rt: HostRuntime) {
    for (script, graph, output, status) in GRAPHS {
        let given = with_graph(*script, *graph);
        assert!(rt;
            ends(rt.alloc(), given, output, *status),
            "{script:?} {graph:?}"
        );
    }
    let flag_first = Given {
        words: &["--graph", "g", "s"],
        ..with_graph(Some("path data iri\n"), Some(TWO))
    };
    assert!(rt; ends(rt.alloc(), flag_first, "answers 2\nn0 n2\n", 0));
    let unnamed = Given {
        words: &["s"],
        ..with_graph(Some("path data iri\n"), Some(TWO))
    };
    assert!(rt; ends(rt.alloc(), unnamed, "answers 0\n", 0));
}

// A name goes, and the blank node that had it stays, since somebody knows it.
#[test]
fn deletes_reach_the_one_index(rt: HostRuntime) {
    let nameless = Given {
        words: &["s", "--graph", "g", "--k", "0", "--without-fb"],
        has_all: true,
        ..with_graph(
            Some(
                "delete _:b0 <http://xmlns.com/foaf/0.1/name> \"Di\" .\nsizes\n\
                path one <http://xmlns.com/foaf/0.1/knows>/iri/<http://xmlns.com/foaf/0.1/name>/literal\n",
            ),
            Some(PEOPLE),
        )
    };
    let output =
        "ok\nnodes 20 edges 22\na0 blocks 7 edges 9\none blocks 9 edges 9\nanswers 3 candidates 3 exact\nn4 n9 n15\n";
    assert!(rt; ends(rt.alloc(), nameless, output, 0));
}

#[test]
fn an_index_file_is_printed(rt: HostRuntime) {
    let all = Given {
        has_all: true,
        ..script("node a\nnode b\nlink n0 n1\nnode a\nsave\n")
    };
    let output =
        "added n0\nadded n1\nok\nadded n2\npathindex 1\ngiven 3 k 2\nlive a\nlive b\nlive a\nedges 1\n0 1\nviews 5\n\
        view a0\n0\n1\n0\nview a1\n0\n1\n0\nview a2\n0\n1\n0\nview one\n0\n1\n0\nview fb\n0\n1\n2\n";
    assert!(rt; ends(rt.alloc(), all, output, 0));
    let none = Given {
        words: &["s", "--k", "8"],
        ..script("forget a\nnode a\nsave\ndrop n0\nsave\n")
    };
    let empty = "ok\nadded n0\npathindex 1\ngiven 1 k 8\nlive a\nedges 0\nviews 0\n\
        ok\npathindex 1\ngiven 1 k 8\ngone\nedges 0\nviews 0\n";
    assert!(rt; ends(rt.alloc(), none, empty, 0));
    let in_group = script("begin\nsave\nend\n");
    assert!(rt; ends(rt.alloc(), in_group, "bad 2\n", 4));
}

/// Whether the file of one node is written up to where that call of the sink fails.
fn is_cut_short(alloc: Global, failing: u32, output: &str) -> bool {
    let saves = Given {
        words: &["s", "--k", "0"],
        failing: (0, failing),
        ..script("node a\nsave\nnode b\n")
    };
    ends(alloc, saves, output, 6)
}

// The sink moves 3 bytes at a time. The fourth call begins the lines of the graph, and the twentieth the view.
#[test]
fn a_failing_write_cuts_an_index_file_short(rt: HostRuntime) {
    assert!(rt; is_cut_short(rt.alloc(), 4, "added n0\n"));
    assert!(rt; is_cut_short(rt.alloc(), 5, "added n0\npat"));
    let graph = "added n0\npathindex 1\ngiven 1 k 0\nlive a\nedges 0\nviews 1\n";
    assert!(rt; is_cut_short(rt.alloc(), 20, graph));
    let part = "added n0\npathindex 1\ngiven 1 k 0\nlive a\nedges 0\nviews 1\nvie";
    assert!(rt; is_cut_short(rt.alloc(), 21, part));
}

#[test]
fn real_files_are_read(rt: HostRuntime) -> Result<(), Fail> {
    fs::write(&rt, "script", "node a\n")?;
    let mut shelf = HostShelf::new(&rt);
    assert_eq!(rt; shelf.open("missing"), Ok(false));
    let mut buf = [0u8; 16];
    let count = read_first(&mut shelf, "script", &mut buf);
    assert_eq!(rt; count, Some(7));
    assert_eq!(rt; &buf[..7], b"node a\n".as_slice());
    Ok(())
}

/// How many bytes the first read of the file gives.
fn read_first<H: Shelf>(shelf: &mut H, name: &str, buf: &mut [u8; 16]) -> Option<usize> {
    match shelf.open(name) {
        Ok(true) => shelf.read(buf).ok(),
        _ => None,
    }
}

#[test]
fn standard_output_is_written(rt: HostRuntime) {
    let mut sink = HostSink::new(&rt);
    assert_eq!(rt; sink.write(b"x"), Ok(1));
}
