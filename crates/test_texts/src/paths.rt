// Texts of path expressions, good and bad, and the answers over a small graph.
ghost use Rattle.std.specs.Prelude.{◌≡◌, ◌<◌, ℕ, Some, length};
ghost use Rattle.label_graph.specs.GraphViews.{label_number};

use graph_spec::Limits;
use label_graph::{Graph, GraphView};
use path_query::{
    Atom, Expr, ExprError, Item, PathExpr, Sep, Seq, Sign, eval, eval_within, read_label,
    skip_blanks, split_word, trim_end_blanks,
};
use px_base::{Bits, Memory, NodeId, Steps};
use std::alloc::Global;
use std::marker::Brand;
use std::process::Abort;
use std::sync::ledger::{Blank, Ledger};
use std::test::Fail;
use test_graphs::graph_from;

/// Texts, what they are read as, and the length of the longest word: the canonical text of an expression, or the name of
/// another answer.
const TEXTS: &[(&str, &str, Option<u32>)] = &[
    (
        "a // ( b | <http://e/\\u0061> )*",
        "a//(b|<http://e/a>)*",
        None,
    ),
    (" a / b\t", "a/b", Some(2)),
    ("a_-", "a_-", Some(1)),
    ("_", "_", Some(1)),
    ("a * ", "a*", None),
    ("(a*)*", "(a*)*", None),
    ("(a|b)*/c", "(a|b)*/c", None),
    ("a|b/c|_", "a|b/c|_", Some(2)),
    ("((a))", "((a))", Some(1)),
    ("android?/not-a+", "android?/not-a+", None),
    (" <a/b> //\t<> ", "<a/b>//<>", None),
    ("a", "a", Some(1)),
    ("a/_/c", "a/_/c", Some(3)),
    ("a/b?|c", "a/b?|c", Some(2)),
    ("(a|b/c)/(d/e)?", "(a|b/c)/(d/e)?", Some(4)),
    ("a//(b|<http://e/a>)*", "a//(b|<http://e/a>)*", None),
    ("a//b", "a//b", None),
    ("(a/b)+", "(a/b)+", None),
    ("a?|b?", "a?|b?", Some(1)),
    ("", "syntax", None),
    ("  ", "syntax", None),
    ("a**", "syntax", None),
    ("/a", "syntax", None),
    ("a/", "syntax", None),
    ("a / /b", "syntax", None),
    ("a///b", "syntax", None),
    ("a b", "syntax", None),
    ("_a", "syntax", None),
    ("_ _", "syntax", None),
    ("()", "syntax", None),
    ("(a", "syntax", None),
    ("a)", "syntax", None),
    ("|a", "syntax", None),
    ("a|", "syntax", None),
    ("and", "syntax", None),
    ("a/or", "syntax", None),
    ("1a", "syntax", None),
    ("a.b", "syntax", None),
    ("a<b>", "syntax", None),
    ("<a", "syntax", None),
];

/// Whether this is how the expression is written, and its longest word has this length.
fn is_written(alloc: Global, expr: &PathExpr, text: &str, len: Option<u32>) -> bool {
    match expr.write(alloc) {
        Ok(found) => found.as_str() == text && expr.longest() == len,
        Err(_) => false,
    }
}

/// Whether the text is read as this.
fn is_read_as(alloc: Global, text: &str, answer: &str, len: Option<u32>) -> bool {
    match PathExpr::parse(alloc, text.as_bytes(), &Limits::program()) {
        Ok(expr) => is_written(alloc, &expr, answer, len),
        Err(ExprError::Syntax) => answer == "syntax",
        Err(ExprError::Limit) => answer == "limit",
        Err(ExprError::Memory) => false,
    }
}

#[test]
fn texts_are_read(rt: HostRuntime) {
    for (text, answer, len) in TEXTS {
        assert!(rt; is_read_as(rt.alloc(), text, answer, *len), "at {text}");
    }
}

/// Whether the item is this label without a sign.
fn is_label(item: &Item, label: &str) -> bool {
    match &item.atom {
        Atom::Label(text) => text.as_str() == label && item.sign.is_none(),
        _ => false,
    }
}

/// Whether the sequence is `a/b//c`.
fn has_items(seq: &Seq) -> bool {
    if seq.len() != 2 {
        return false;
    }
    is_label(seq.first(), "a")
        && seq.sep(0) == Sep::Child
        && is_label(seq.item(0), "b")
        && seq.sep(1) == Sep::Below
        && is_label(seq.item(1), "c")
}

/// Whether the item is any label with a star.
fn is_starred(item: &Item) -> bool {
    matches!(&item.atom, Atom::Any) && item.sign == Some(Sign::Star)
}

/// Whether the expression is `a/b//c|_*`.
fn has_parts(expr: &Expr) -> bool {
    if expr.len() != 2 {
        return false;
    }
    has_items(expr.seq(0)) && expr.seq(1).len() == 0 && is_starred(expr.seq(1).first())
}

/// Whether the text is read as that expression.
fn is_read_in_parts(alloc: Global, text: &str) -> bool {
    match PathExpr::parse(alloc, text.as_bytes(), &Limits::program()) {
        Ok(expr) => has_parts(expr.tree()),
        Err(_) => false,
    }
}

#[test]
fn trees_have_parts(rt: HostRuntime) {
    assert!(rt; is_read_in_parts(rt.alloc(), " a / b // c | _ *"));
    assert!(rt; !is_read_in_parts(rt.alloc(), "a/b/c|_*"));
}

const FEW: Limits = Limits {
    nodes: 1,
    edges: 1,
    labels: 1,
    expr_bytes: 7,
    expr_depth: 1,
};

/// Texts, and whether they pass a limit of `FEW`.
const PAST: &[(&str, bool)] = &[
    ("abcdefg", false),
    ("abcdefgh", true),
    ("*******", false),
    ("********", true),
    ("(a)/(b)", false),
    ("((a))", true),
    ("))((", false),
    ("))((((", true),
    ("[([a", true),
    ("<((>", false),
];

/// Whether the text passes one of the few limits.
fn passes_limit(alloc: Global, text: &str) -> bool {
    matches!(
        PathExpr::parse(alloc, text.as_bytes(), &FEW),
        Err(ExprError::Limit)
    )
}

#[test]
fn limits_come_first(rt: HostRuntime) {
    for (text, past) in PAST {
        assert!(rt; passes_limit(rt.alloc(), text) == *past, "at {text}");
    }
}

/// Whether a chain of an `a` and so many more passes the program's limits, if it is read or passes them.
fn is_past_program(alloc: Global, more: u32) -> Option<bool> {
    let mut text = String::from_str(alloc, "a").ok()?;
    for _ in 0..more {
        text.push_str("/a").ok()?;
    }
    match PathExpr::parse(alloc, text.as_bytes(), &Limits::program()) {
        Ok(_) => Some(false),
        Err(ExprError::Limit) => Some(true),
        Err(_) => None,
    }
}

// They have 4,095 bytes and 4,097.
#[test]
fn texts_have_4096_bytes_at_most(rt: HostRuntime) {
    assert_eq!(rt; is_past_program(rt.alloc(), 2047), Some(false));
    assert_eq!(rt; is_past_program(rt.alloc(), 2048), Some(true));
}

/// Words, and the labels that they spell.
const LABELS: &[(&str, &str)] = &[
    ("a", "a"),
    ("B-2_c", "B-2_c"),
    ("nota", "nota"),
    ("<>", "<>"),
    ("<http://e/a>", "<http://e/a>"),
    ("<http://e/\\u0061>", "<http://e/a>"),
    ("<a\\u0020/>", "<a\\u0020/>"),
    ("<\u{e4}>", "<\u{e4}>"),
];

/// Whether the word spells the label.
fn spells(alloc: Global, word: &str, label: &str) -> bool {
    match read_label(alloc, word.as_bytes()) {
        Ok(Some(found)) => found.as_str() == label,
        _ => false,
    }
}

#[test]
fn words_are_labels(rt: HostRuntime) {
    for (word, label) in LABELS {
        assert!(rt; spells(rt.alloc(), word, label), "at {word}");
    }
}

/// Words that spell no label.
const OTHERS: &[&str] = &[
    "not",
    "and",
    "or",
    "",
    "-a",
    "2a",
    "a/b",
    "<",
    "<http://e/a",
    "<a b>",
    "a<b>",
    "<a>b",
    "<a><b>",
    "<\\u006>",
];

/// Whether the word spells no label.
fn spells_none(alloc: Global, word: &str) -> bool {
    matches!(read_label(alloc, word.as_bytes()), Ok(None))
}

#[test]
fn other_words_are_none(rt: HostRuntime) {
    for word in OTHERS {
        assert!(rt; spells_none(rt.alloc(), word), "at {word}");
    }
}

#[test]
fn words_are_split(rt: HostRuntime) {
    let (word, rest) = split_word(skip_blanks(b" \tnode a \n"));
    assert!(rt; word == b"node".as_slice() && rest == b" a \n".as_slice());
    assert!(rt; trim_end_blanks(b" a b \t") == b" a b".as_slice());
}

#[test]
fn blanks_alone_are_left_out(rt: HostRuntime) {
    assert!(rt; skip_blanks(b" \t").is_empty());
    assert!(rt; trim_end_blanks(b" \t").is_empty());
}

/// The labels of five nodes, a byte each, and their edges.
const NODES: &[u8] = b"ababc";

const EDGES: &[(NodeId, NodeId)] = &[(0, 1), (1, 4), (2, 4), (3, 3)];

/// Expressions, and their answers over the small graph.
const ANSWERS: &[(&str, &[NodeId])] = &[
    ("a/b/c", &[4]),
    ("a / c", &[4]),
    ("b/b/b", &[3]),
    ("c/b", &[]),
    ("a/d", &[]),
    ("_", &[0, 1, 2, 3, 4]),
    ("a//c", &[4]),
    ("b//b", &[3]),
    ("a//a", &[]),
    ("a*", &[0, 2]),
    ("d*", &[]),
    ("(a|b)+", &[0, 1, 2, 3]),
    ("(a|b)/c", &[4]),
    ("c|a/b", &[1, 4]),
    ("(a/b)?/c", &[4]),
    ("d|(d/a|b)?/b", &[1, 3]),
];

/// Expressions, nodes of the small graph, and the answers over these nodes and the edges between them alone.
const WITHIN: &[(&str, &[NodeId], &[NodeId])] = &[
    ("a/b/c", &[0, 1, 4], &[4]),
    ("a/b/c", &[1, 4], &[]),
    ("a/b/c", &[0, 4], &[]),
    ("c|a/b", &[0, 1, 2], &[1]),
    ("a//c", &[0, 2, 4], &[4]),
    ("b//b", &[3], &[3]),
    ("_", &[1, 3], &[1, 3]),
    ("a", &[], &[]),
];

/// Whether these are the marked nodes.
fn are(marked: &Bits, nodes: &[NodeId]) -> bool {
    marked.count() as usize == nodes.len() && nodes.iter().all(|n| marked.contains(*n))
}

/// Whether these are the answers to the text.
fn has_answers(
    alloc: Global,
    graph: &Graph,
    view: &GraphView<'_>,
    text: &str,
    answers: &[NodeId],
) -> bool
    requires same { view.now ≡ graph.now.graph }
    requires labelled { (n l : ℕ) → label_number graph.now.graph n ≡ Some l → l < length graph.now.graph.seen }
{
    let Ok(expr) = PathExpr::parse(alloc, text.as_bytes(), &Limits::program()) else {
        return false;
    };
    match eval(alloc, view, graph.labels(), &expr) {
        Ok(marked) => are(&marked, answers),
        Err(_) => false,
    }
}

/// The set of these numbers, those below the size.
fn set_of(alloc: Global, size: u32, nodes: &[NodeId]) -> Result<Bits, Memory> {
    let mut set = Bits::new(alloc, size)?;
    for n in nodes {
        if *n < set.size() {
            set.insert(*n);
        }
    }
    Ok(set)
}

/// Whether these are the answers to the text over some of the nodes.
fn has_answers_within(
    alloc: Global,
    graph: &Graph,
    view: &GraphView<'_>,
    text: &str,
    nodes: &[NodeId],
    answers: &[NodeId],
) -> bool
    requires same { view.now ≡ graph.now.graph }
    requires labelled { (n l : ℕ) → label_number graph.now.graph n ≡ Some l → l < length graph.now.graph.seen }
{
    let Ok(expr) = PathExpr::parse(alloc, text.as_bytes(), &Limits::program()) else {
        return false;
    };
    let Ok(set) = set_of(alloc, 5, nodes) else {
        return false;
    };
    match eval_within(alloc, view, graph.labels(), &expr, &set) {
        Ok(marked) => are(&marked, answers),
        Err(_) => false,
    }
}

fn check_answers(rt: &impl Abort, alloc: Global, graph: &Graph, view: &GraphView<'_>)
    requires same { view.now ≡ graph.now.graph }
    requires labelled { (n l : ℕ) → label_number graph.now.graph n ≡ Some l → l < length graph.now.graph.seen }
{
    for (text, answers) in ANSWERS {
        assert!(rt; has_answers(alloc, graph, view, text, answers), "at {text}");
    }
    for (text, nodes, answers) in WITHIN {
        assert!(rt;
            has_answers_within(alloc, graph, view, text, nodes, answers),
            "at {text} within {nodes:?}"
        );
    }
}

fn check_small_graph<L: Ledger>(rt: &impl Abort, alloc: Global, blank: Blank) -> Result<(), Fail>
    requires name { blank.name ≡ L.name }
    requires parts { blank.parts ≡ L.parts }
    requires some { 0 < blank.parts }
{
    let mut steps = Steps::<L>::new(blank);
    let graph = graph_from(alloc, NODES, EDGES, &mut steps)?;
    let view = graph.view(&mut steps);
    check_answers(rt, alloc, &graph, &view);
    Ok(())
}

#[test]
fn answers_end_the_walks(rt: HostRuntime) -> Result<(), Fail> {
    check_small_graph::<Brand>(&rt, rt.alloc(), Blank::new(1))
}
