// What a line of a script says.
ghost use Rattle.std.specs.Prelude.{◌≡◌, ◌≢◌, ◌↔◌, ◌<◌, ◌^◌, List, ℕ, IsTrue, IfSome, IfNone};
ghost use Rattle.graph_spec.specs.Words.{node_word};
ghost use Rattle.index_api.specs.declared.kinds.Via.{Via as AnyVia};
ghost use Rattle.index_api.specs.Spelling.{via_word};
ghost use Rattle.script_read.specs.Commands.{IsVia};
ghost use Rattle.script_read.specs.FirstWords.{first_word, behind_word, without_blanks, OpensNothing};
ghost use Rattle.script_read.specs.ScannedLines.{OpensOther, OpensReport, OpensGroup, OpensTriple, IsScanned};

use crate::commands::Command;
use crate::indexes::{one_index, one_kind, via_of};
use crate::nodes::{node_and_word, node_number, one_node, two_nodes};
use crate::words::{is_over, is_word, one_word, split_word, trim_blanks};
use index_api::Via;
use px_base::NodeId;

/// What a line says, before its label, triple or expression is read. Such a text is borrowed from the line.
#[derive(Drop)]
pub(crate) enum ScannedLine<'a> {
    Quiet,
    /// The text of a label.
    Node(&'a [u8]),
    /// A node, and the text of its label.
    Relabel(NodeId, &'a [u8]),
    /// The text of a triple that is inserted.
    Insert(&'a [u8]),
    /// The text of one that is deleted.
    Delete(&'a [u8]),
    /// Through what a path expression is asked, and its text.
    Path(Via, &'a [u8]),
    /// The same of a branching query.
    Branch(Via, &'a [u8]),
    /// The node that may answer a path expression, and its text.
    Why(NodeId, &'a [u8]),
    /// The word of the nodes that may show why a node answers a path expression, and its text.
    Check(&'a [u8], &'a [u8]),
    /// A command with no label, triple or expression.
    Whole(Command),
    Bad,
}

/// Through what a query is asked, and the text of its expression without the blanks at both ends.
fn query_parts(rest: &[u8]) -> Option<(Via, &[u8])>
    ensures via { IfSome result (λ p. (first_word rest.now ≡ via_word p.0) × IsVia p.0) }
    ensures text { IfSome result (λ p. p.1.now ≡ without_blanks (behind_word rest.now)) }
    ensures absent { IfNone result ((v : AnyVia) → IsVia v → first_word rest.now ≢ via_word v) }
{
    let (word, text) = split_word(rest);
    match via_of(word) {
        Some(via) => Some((via, trim_blanks(text))),
        None => None,
    }
}

/// Whether a line with this first word has no command.
fn opens_nothing(word: &[u8]) -> bool
    ensures { IsTrue result ↔ OpensNothing word.now }
{
    matches!(word, [] | [b'#', ..])
}

/// A node, and the text of an expression without the blanks at both ends.
fn why_parts(rest: &[u8]) -> Option<(NodeId, &[u8])>
    ensures node { IfSome result (λ p. first_word rest.now ≡ node_word p.0) }
    ensures number { IfSome result (λ p. p.0 < 2 ^ 32) }
    ensures text { IfSome result (λ p. p.1.now ≡ without_blanks (behind_word rest.now)) }
    ensures absent { IfNone result ((v : ℕ) → v < 2 ^ 32 → first_word rest.now ≢ node_word v) }
{
    let (word, text) = split_word(rest);
    match node_number(word) {
        Some(node) => Some((node, trim_blanks(text))),
        None => None,
    }
}

/// A word of nodes, and the text of an expression without the blanks at both ends.
fn check_parts(rest: &[u8]) -> (&[u8], &[u8])
    ensures word { result.0.now ≡ first_word rest.now }
    ensures text { result.1.now ≡ without_blanks (behind_word rest.now) }
{
    let (word, text) = split_word(rest);
    (word, trim_blanks(text))
}

/// What a line with these parts says, of which only those that insert and delete a triple are left.
fn scan_triple<'a>(word: &'a [u8], rest: &'a [u8]) -> ScannedLine<'a>
    requires { OpensTriple word.now }
    ensures { (line : List ℕ) → word.now ≡ first_word line → rest.now ≡ behind_word line → IsScanned line result }
{
    if is_word(word, "insert") {
        ScannedLine::Insert(rest)
    } else if is_word(word, "delete") {
        ScannedLine::Delete(rest)
    } else {
        ScannedLine::Bad
    }
}

/// What a line with these parts says, which is no change, asks nothing and forgets nothing.
fn scan_group<'a>(word: &'a [u8], rest: &'a [u8]) -> ScannedLine<'a>
    requires { OpensGroup word.now }
    ensures { (line : List ℕ) → word.now ≡ first_word line → rest.now ≡ behind_word line → IsScanned line result }
{
    if is_word(word, "begin") {
        if is_over(rest) {
            ScannedLine::Whole(Command::Begin)
        } else {
            ScannedLine::Bad
        }
    } else if is_word(word, "end") {
        if is_over(rest) {
            ScannedLine::Whole(Command::End)
        } else {
            ScannedLine::Bad
        }
    } else {
        scan_triple(word, rest)
    }
}

/// What a line with these parts says, which is no change and asks with no expression.
fn scan_report<'a>(word: &'a [u8], rest: &'a [u8]) -> ScannedLine<'a>
    requires { OpensReport word.now }
    ensures { (line : List ℕ) → word.now ≡ first_word line → rest.now ≡ behind_word line → IsScanned line result }
{
    if is_word(word, "extents") {
        match one_index(rest) {
            Some(via) => ScannedLine::Whole(Command::Extents(via)),
            None => ScannedLine::Bad,
        }
    } else if is_word(word, "sizes") {
        if is_over(rest) {
            ScannedLine::Whole(Command::Sizes)
        } else {
            ScannedLine::Bad
        }
    } else if is_word(word, "save") {
        if is_over(rest) {
            ScannedLine::Whole(Command::Save)
        } else {
            ScannedLine::Bad
        }
    } else if is_word(word, "forget") {
        match one_kind(rest) {
            Some(kind) => ScannedLine::Whole(Command::Forget(kind)),
            None => ScannedLine::Bad,
        }
    } else {
        scan_group(word, rest)
    }
}

/// What a line with these parts says, which is no change.
fn scan_query<'a>(word: &'a [u8], rest: &'a [u8]) -> ScannedLine<'a>
    requires { OpensOther word.now }
    ensures { (line : List ℕ) → word.now ≡ first_word line → rest.now ≡ behind_word line → IsScanned line result }
{
    if is_word(word, "path") {
        match query_parts(rest) {
            Some((via, text)) => ScannedLine::Path(via, text),
            None => ScannedLine::Bad,
        }
    } else if is_word(word, "branch") {
        match query_parts(rest) {
            Some((via, text)) => ScannedLine::Branch(via, text),
            None => ScannedLine::Bad,
        }
    } else if is_word(word, "why") {
        match why_parts(rest) {
            Some((node, text)) => ScannedLine::Why(node, text),
            None => ScannedLine::Bad,
        }
    } else if is_word(word, "check") {
        let (nodes, text) = check_parts(rest);
        ScannedLine::Check(nodes, text)
    } else {
        scan_report(word, rest)
    }
}

/// What the line says. It takes no memory.
pub(crate) fn scan(line: &[u8]) -> ScannedLine<'_>
    ensures { IsScanned line.now result }
{
    let (word, rest) = split_word(line);
    if opens_nothing(word) {
        ScannedLine::Quiet
    } else if is_word(word, "node") {
        match one_word(rest) {
            Some(label) => ScannedLine::Node(label),
            None => ScannedLine::Bad,
        }
    } else if is_word(word, "link") {
        match two_nodes(rest) {
            Some((from, to)) => ScannedLine::Whole(Command::Link(from, to)),
            None => ScannedLine::Bad,
        }
    } else if is_word(word, "unlink") {
        match two_nodes(rest) {
            Some((from, to)) => ScannedLine::Whole(Command::Unlink(from, to)),
            None => ScannedLine::Bad,
        }
    } else if is_word(word, "drop") {
        match one_node(rest) {
            Some(node) => ScannedLine::Whole(Command::Drop(node)),
            None => ScannedLine::Bad,
        }
    } else if is_word(word, "relabel") {
        match node_and_word(rest) {
            Some((node, label)) => ScannedLine::Relabel(node, label),
            None => ScannedLine::Bad,
        }
    } else {
        scan_query(word, rest)
    }
}
