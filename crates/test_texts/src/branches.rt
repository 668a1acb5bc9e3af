// Texts of branching queries, good and bad, and the answers over a small graph.
ghost use Rattle.std.specs.Prelude.{◌≡◌, ◌<◌, ℕ, Some, length, IsTrue};
ghost use Rattle.label_graph.specs.GraphViews.{label_number};
ghost use Rattle.branch_text.specs.Parsed.{has_text};

use branch_text::{Branch, eval};
use graph_spec::Limits;
use label_graph::{Graph, GraphView};
use path_query::ExprError;
use px_base::{Bits, NodeId, Steps};
use std::alloc::{AllocError, Global};
use std::marker::Brand;
use std::process::Abort;
use std::sync::ledger::{Blank, Ledger};
use std::test::Fail;
use test_graphs::graph_from;

/// Texts, and what they are read as: the canonical text of a query, or the name of another answer.
const TEXTS: &[(&str, &str)] = &[
    (" a / b\t", "a/b"),
    ("_//_\\b\\\\<http://e/\\u0061>", "_//_\\b\\\\<http://e/a>"),
    ("a[ /b and//c ]", "a[/b and //c]"),
    ("a[/b or/c and(\\d)]", "a[/b or /c and (\\d)]"),
    ("a[not ( /b[/c] )]/d", "a[not(/b[/c])]/d"),
    ("a[/b][\\\\c/d]//e", "a[/b][\\\\c/d]//e"),
    ("a[((/b))]", "a[((/b))]"),
    ("android[/nota]", "android[/nota]"),
    ("a[not(not(/b))]", "a[not(not(/b))]"),
    ("a[/bor/c]", "a[/bor/c]"),
    ("a[/<http://e/b>and/c]", "a[/<http://e/b> and /c]"),
    ("a[/b and not ( //c )]\\x", "a[/b and not(//c)]\\x"),
    ("", "syntax"),
    ("a[]", "syntax"),
    ("a[b]", "syntax"),
    ("a[/b", "syntax"),
    ("a/b]", "syntax"),
    ("/a", "syntax"),
    ("a/", "syntax"),
    ("a / /b", "syntax"),
    ("a\\\\\\b", "syntax"),
    ("a[/b and]", "syntax"),
    ("a[/b and not /c]", "syntax"),
    ("a[/b or/c", "syntax"),
    ("a[(/b)/c]", "syntax"),
    ("a[/b](/c)", "syntax"),
    ("not", "syntax"),
    ("a/or", "syntax"),
    ("a*", "syntax"),
    ("a|b", "syntax"),
];

/// Whether this is how the query is written.
fn is_written(alloc: Global, query: &Branch, text: &str) -> bool
    requires { IsTrue (has_text query.now) }
{
    match query.write(alloc) {
        Ok(found) => found.as_str() == text,
        Err(_) => false,
    }
}

/// Whether the text is read as this.
fn is_read_as(alloc: Global, text: &str, answer: &str) -> bool {
    match Branch::parse(alloc, text.as_bytes(), &Limits::program()) {
        Ok(query) => is_written(alloc, &query, answer),
        Err(ExprError::Syntax) => answer == "syntax",
        Err(ExprError::Limit) => answer == "limit",
        Err(ExprError::Memory) => false,
    }
}

#[test]
fn texts_are_read(rt: HostRuntime) {
    for (text, answer) in TEXTS {
        assert!(rt; is_read_as(rt.alloc(), text, answer), "at {text}");
    }
}

/// Queries, and how many edges away from its answers each looks.
const DEPTHS: &[(&str, Option<u32>)] = &[
    ("a", Some(0)),
    ("b[/c]", Some(1)),
    ("a/b[/c]", Some(1)),
    ("a[/b]/c", Some(2)),
    ("a[/b[/c]]", Some(2)),
    ("a[not(/b/c)]", Some(2)),
    ("a[/b or (\\c/d/e and /f)]\\g", Some(4)),
    ("a[//b]", None),
    ("a\\\\b", None),
];

/// Whether the query looks so far.
fn looks_so_far(alloc: Global, text: &str, depth: Option<u32>) -> bool {
    match Branch::parse(alloc, text.as_bytes(), &Limits::program()) {
        Ok(query) => query.depth() == depth,
        Err(_) => false,
    }
}

#[test]
fn queries_have_depths(rt: HostRuntime) {
    for (text, depth) in DEPTHS {
        assert!(rt; looks_so_far(rt.alloc(), text, *depth), "at {text}");
    }
}

const FEW: Limits = Limits {
    nodes: 1,
    edges: 1,
    labels: 1,
    expr_bytes: 9,
    expr_depth: 2,
};

/// Texts, and whether they pass a limit of `FEW`.
const PAST: &[(&str, bool)] = &[
    ("abcdefghi", false),
    ("abcdefghij", true),
    ("a[(/b)]", false),
    ("a[((/b))]", true),
    ("a[/b[/c]]", false),
    ("[[[", true),
    ("<[[[>", false),
];

/// Whether the text passes one of the few limits.
fn passes_limit(alloc: Global, text: &str) -> bool {
    matches!(
        Branch::parse(alloc, text.as_bytes(), &FEW),
        Err(ExprError::Limit)
    )
}

#[test]
fn limits_come_first(rt: HostRuntime) {
    for (text, past) in PAST {
        assert!(rt; passes_limit(rt.alloc(), text) == *past, "at {text}");
    }
}

/// What stands before brackets, the opening of one, what stands within them, its end, and the end of the first one.
const NESTED: &[[&str; 5]] = &[
    ["a[/", "a[/", "a", "]", "]"],
    ["a[", "(", "/b", ")", "]"],
    ["a[", "not(", "/b", ")", "]"],
    ["a[/a and ", "not(", "/a", ")", "]"],
];

/// The text of the row, with so many brackets within the first one.
fn nested(alloc: Global, row: &[&str; 5], count: u32) -> Result<String, AllocError> {
    let mut text = String::from_str(alloc, row[0])?;
    for _ in 0..count {
        text.push_str(row[1])?;
    }
    text.push_str(row[2])?;
    for _ in 0..count {
        text.push_str(row[3])?;
    }
    text.push_str(row[4])?;
    Ok(text)
}

/// Whether the text of the row passes the program's limits, if it is read or passes them.
fn is_past_program(alloc: Global, row: &[&str; 5], count: u32) -> Option<bool> {
    let text = nested(alloc, row, count).ok()?;
    match Branch::parse(alloc, text.as_bytes(), &Limits::program()) {
        Ok(_) => Some(false),
        Err(ExprError::Limit) => Some(true),
        Err(_) => None,
    }
}

#[test]
fn brackets_nest_64_deep(rt: HostRuntime) {
    for row in NESTED {
        assert_eq!(rt;
            is_past_program(rt.alloc(), row, 63),
            Some(false),
            "{row:?}"
        );
        assert_eq!(rt; is_past_program(rt.alloc(), row, 64), Some(true), "{row:?}");
    }
}

/// The labels of six nodes, a byte each, and their edges.
const NODES: &[u8] = b"abccad";

const EDGES: &[(NodeId, NodeId)] = &[(0, 1), (1, 2), (0, 3), (3, 4), (4, 4)];

/// Queries, their answers over the small graph, and those of their relaxed forms.
const ANSWERS: &[(&str, &[NodeId], &[NodeId])] = &[
    ("a/c", &[3], &[3]),
    ("a//c", &[2, 3], &[2, 3]),
    ("c\\a", &[0], &[0]),
    ("c\\\\_", &[0, 1], &[0, 1]),
    ("a[/a]", &[4], &[4]),
    ("_[\\\\b]", &[2], &[2]),
    ("a//c[not(/a)]", &[2], &[2, 3]),
    ("_[not(/_ or \\_)]", &[5], &[0, 1, 2, 3, 4, 5]),
    ("c[/a and \\a]", &[3], &[3]),
    ("c[/b or \\b]", &[2], &[2]),
    ("_[(/b or /a) and not(/c)]/_", &[4], &[1, 3, 4]),
    ("a[/b//c]/c", &[3], &[3]),
    ("a[not(not(/b))]", &[0], &[0, 4]),
    ("a[/e]", &[], &[]),
    ("d//_", &[], &[]),
];

/// Whether these are the marked nodes.
fn are(marked: &Bits, nodes: &[NodeId]) -> bool {
    marked.count() as usize == nodes.len() && nodes.iter().all(|n| marked.contains(*n))
}

/// Whether these are the answers to the query.
fn answers_are(
    alloc: Global,
    graph: &Graph,
    view: &GraphView<'_>,
    query: &Branch,
    answers: &[NodeId],
) -> bool
    requires same { view.now ≡ graph.now.graph }
    requires labelled { (n l : ℕ) → label_number graph.now.graph n ≡ Some l → l < length graph.now.graph.seen }
{
    match eval(alloc, view, graph.labels(), query) {
        Ok(marked) => are(&marked, answers),
        Err(_) => false,
    }
}

/// Whether these are the answers to the relaxed query.
fn relaxed_answers_are(
    alloc: Global,
    graph: &Graph,
    view: &GraphView<'_>,
    query: &Branch,
    answers: &[NodeId],
) -> bool
    requires same { view.now ≡ graph.now.graph }
    requires labelled { (n l : ℕ) → label_number graph.now.graph n ≡ Some l → l < length graph.now.graph.seen }
{
    match query.relax(alloc) {
        Ok(relaxed) => answers_are(alloc, graph, view, &relaxed, answers),
        Err(_) => false,
    }
}

/// Whether these are the answers to the text, and to its relaxed form.
fn has_answers(
    alloc: Global,
    graph: &Graph,
    view: &GraphView<'_>,
    text: &str,
    answers: &[NodeId],
    relaxed: &[NodeId],
) -> bool
    requires same { view.now ≡ graph.now.graph }
    requires labelled { (n l : ℕ) → label_number graph.now.graph n ≡ Some l → l < length graph.now.graph.seen }
{
    match Branch::parse(alloc, text.as_bytes(), &Limits::program()) {
        Ok(query) => {
            answers_are(alloc, graph, view, &query, answers)
                && relaxed_answers_are(alloc, graph, view, &query, relaxed)
        }
        Err(_) => false,
    }
}

fn check_answers(rt: &impl Abort, alloc: Global, graph: &Graph, view: &GraphView<'_>)
    requires same { view.now ≡ graph.now.graph }
    requires labelled { (n l : ℕ) → label_number graph.now.graph n ≡ Some l → l < length graph.now.graph.seen }
{
    for (text, answers, relaxed) in ANSWERS {
        assert!(rt;
            has_answers(alloc, graph, view, text, answers, relaxed),
            "at {text}"
        );
    }
}

fn check_small_graph<L: Ledger>(rt: &impl Abort, alloc: Global, blank: Blank) -> Result<(), Fail>
    requires name { blank.name ≡ L.name }
    requires parts { blank.parts ≡ L.parts }
    requires some { 0 < blank.parts }
{
    let mut steps = Steps::<L>::new(blank);
    let graph = graph_from(alloc, NODES, EDGES, &mut steps)?;
    let view = graph.view(&mut steps);
    check_answers(rt, alloc, &graph, &view);
    Ok(())
}

#[test]
fn answers_end_the_lists_of_nodes(rt: HostRuntime) -> Result<(), Fail> {
    check_small_graph::<Brand>(&rt, rt.alloc(), Blank::new(1))
}
