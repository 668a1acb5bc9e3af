// Commands, and the lines that spell them.
ghost use Rattle.std.specs.Prelude.{◌≡◌, ◌≢◌, ◌↔◌, ℕ, List, Err, IfOk, IsErrOf, IsTrue};
ghost use Rattle.triples_read.specs.declared.term.Triple.{Triple as SpelledTriple};
ghost use Rattle.triples_read.specs.Lines.{SpellsTriple};
ghost use Rattle.path_spec.specs.Trees.{Expr};
ghost use Rattle.path_query.specs.Labels.{SpellsLabel};
ghost use Rattle.path_query.specs.Parsed.{SpellsPath, is_past};
ghost use Rattle.branch_spec.specs.Trees.{Branch as Query};
ghost use Rattle.branch_text.specs.Parsed.{SpellsBranch};
ghost use Rattle.script_read.specs.Commands.{Command as Spelled, IsQuiet, IsSpelled, SpellsNodes, LabelsOnce, PathsOnce, BranchesOnce, SpellsOnce};
ghost use Rattle.script_read.specs.ReadLines.{ReadsCommand};

use crate::nodes::node_list;
use crate::scan::{ScannedLine, scan};
use branch_text::Branch;
use index_api::{Kind, Via};
use path_query::{ExprError, PathExpr, read_label};
use px_base::{Limits, NodeId, Text};
use std::alloc::Global;
use thiserror::Error;
use triples_read::{LineError, Triple, read_line};
use walk_proof::Walk;

/// A command of a script.
///
/// The command of a line:
///
///     if let Some(Command::Link(from, to)) = read(alloc, b"link n3 n0", &Limits::program())? {
///         take(from, to);
///     }
#[derive(Drop)]
pub enum Command {
    /// `node LABEL`: one more node, with this label. An IRI is in its canonical spelling, brackets included.
    Node(Text),
    /// `link NODE NODE`: an edge from the first node to the second.
    Link(NodeId, NodeId),
    /// `unlink NODE NODE`: that edge is taken away.
    Unlink(NodeId, NodeId),
    /// `drop NODE`: the node is taken away, with its edges.
    Drop(NodeId),
    /// `relabel NODE LABEL`: the node gets this label, spelled as in `node LABEL`.
    Relabel(NodeId, Text),
    /// `begin`: the changes up to the next `end` are made as one.
    Begin,
    /// `end`: that change is made.
    End,
    /// `insert TRIPLE`: the triple comes into the graph, with the nodes and edges that it lacks there.
    Insert(Triple),
    /// `delete TRIPLE`: the node of the triple is taken away, and those of its subject and object that it leaves alone.
    Delete(Triple),
    /// `path VIA EXPR`: the nodes in which the walks end that the expression matches, asked through the graph itself
    /// or an index.
    Path(Via, PathExpr),
    /// `branch VIA EXPR`: the answers of the branching query, asked through the graph itself or an index.
    Branch(Via, Branch),
    /// `why NODE EXPR`: the least walk that ends in the node and that the expression matches.
    Why(NodeId, PathExpr),
    /// `check NODES EXPR`: whether the nodes, one or more, are a walk that the expression matches.
    Check(Walk, PathExpr),
    /// `extents INDEX`: the blocks of this index, which isn't the graph itself, each with its nodes.
    Extents(Via),
    /// `sizes`: how many nodes and edges the graph and each index have.
    Sizes,
    /// `save`: the graph and the indexes that are kept, as an index file.
    Save,
    /// `forget KIND`: the indexes of this kind are kept no longer.
    Forget(Kind),
}

/// Why a line gives no command.
#[derive(Clone, Copy, Debug, PartialEq, Eq, Error)]
pub enum ScriptError {
    /// The line spells none, and is neither blank nor a comment.
    #[error("the line is no command")]
    Bad,
    /// The line asks with an expression that passes a limit.
    #[error("the expression passes a limit")]
    Limit,
    /// Memory ran out.
    #[error("out of memory")]
    Memory,
}

/// The label that the word spells.
fn parse_label(alloc: Global, word: &[u8]) -> Result<Text, ScriptError>
    ensures ok { IfOk result (λ t. SpellsLabel word.now t) }
    ensures bad { IsErrOf result ScriptError.Bad → (t : List ℕ) → SpellsLabel word.now t → ⊥ }
    ensures no_limit { result ≢ Err ScriptError.Limit }
    ensures once { LabelsOnce word.now }
{
    match read_label(alloc, word) {
        Ok(Some(label)) => Ok(label),
        Ok(None) => Err(ScriptError::Bad),
        Err(_) => Err(ScriptError::Memory),
    }
}

/// The triple that the text spells, as a line of N-Triples does.
fn parse_triple(alloc: Global, text: &[u8]) -> Result<Triple, ScriptError>
    ensures ok { IfOk result (SpellsTriple text.now) }
    ensures bad { IsErrOf result ScriptError.Bad → (t : SpelledTriple) → SpellsTriple text.now t → ⊥ }
    ensures no_limit { result ≢ Err ScriptError.Limit }
{
    match read_line(alloc, text) {
        Ok(Some(triple)) => Ok(triple),
        Ok(None) => Err(ScriptError::Bad),
        Err(LineError::Syntax) => Err(ScriptError::Bad),
        Err(LineError::Memory) => Err(ScriptError::Memory),
    }
}

/// The path expression that the text spells.
fn parse_path(alloc: Global, text: &[u8], limits: &Limits) -> Result<PathExpr, ScriptError>
    ensures ok { IfOk result (SpellsPath text.now) }
    ensures limit { (result ≡ Err ScriptError.Limit) ↔ IsTrue (is_past limits.now text.now) }
    ensures bad { IsErrOf result ScriptError.Bad → (e : Expr) → SpellsPath text.now e → ⊥ }
    ensures once { PathsOnce text.now }
{
    match PathExpr::parse(alloc, text, limits) {
        Ok(expr) => Ok(expr),
        Err(ExprError::Limit) => Err(ScriptError::Limit),
        Err(ExprError::Syntax) => Err(ScriptError::Bad),
        Err(ExprError::Memory) => Err(ScriptError::Memory),
    }
}

/// The branching query that the text spells.
fn parse_branch(alloc: Global, text: &[u8], limits: &Limits) -> Result<Branch, ScriptError>
    ensures ok { IfOk result (SpellsBranch text.now) }
    ensures limit { (result ≡ Err ScriptError.Limit) ↔ IsTrue (is_past limits.now text.now) }
    ensures bad { IsErrOf result ScriptError.Bad → (q : Query) → SpellsBranch text.now q → ⊥ }
    ensures once { BranchesOnce text.now }
{
    match Branch::parse(alloc, text, limits) {
        Ok(query) => Ok(query),
        Err(ExprError::Limit) => Err(ScriptError::Limit),
        Err(ExprError::Syntax) => Err(ScriptError::Bad),
        Err(ExprError::Memory) => Err(ScriptError::Memory),
    }
}

/// The nodes that the word spells.
fn parse_nodes(alloc: Global, word: &[u8]) -> Result<Walk, ScriptError>
    ensures ok { IfOk result (SpellsNodes word.now) }
    ensures bad { IsErrOf result ScriptError.Bad → (nodes : List ℕ) → SpellsNodes word.now nodes → ⊥ }
    ensures no_limit { result ≢ Err ScriptError.Limit }
{
    match node_list(alloc, word) {
        Ok(Some(nodes)) => match Walk::of(alloc, &nodes) {
            Ok(walk) => Ok(walk),
            Err(_) => Err(ScriptError::Memory),
        },
        Ok(None) => Err(ScriptError::Bad),
        Err(_) => Err(ScriptError::Memory),
    }
}

/// The command that the line spells, which is one; None exactly for a blank or comment line. `Limit` comes exactly
/// if the line asks with an expression that passes a limit, whether or not that is in the language, behind a lawful
/// VIA, NODE or NODES; else `Bad` exactly if the line is neither a command nor blank nor a comment. `Memory` comes if
/// memory runs out. The line is without its end. O(m) for m bytes of the line; it takes O(m) memory at most.
#[tactic(auto, using(crate::proofs::CommandLaws::reading_laws))]
pub fn read(alloc: Global, line: &[u8], limits: &Limits) -> Result<Option<Command>, ScriptError>
    ensures reads { ReadsCommand limits.now line.now result }
    ensures once { SpellsOnce line.now }
    ensures quiet { IsQuiet line.now → (c : Spelled) → IsSpelled line.now c → ⊥ }
{
    match scan(line) {
        ScannedLine::Quiet => Ok(None),
        ScannedLine::Node(word) => Ok(Some(Command::Node(parse_label(alloc, word)?))),
        ScannedLine::Relabel(node, word) => {
            Ok(Some(Command::Relabel(node, parse_label(alloc, word)?)))
        }
        ScannedLine::Insert(text) => Ok(Some(Command::Insert(parse_triple(alloc, text)?))),
        ScannedLine::Delete(text) => Ok(Some(Command::Delete(parse_triple(alloc, text)?))),
        ScannedLine::Path(via, text) => Ok(Some(Command::Path(
            via,
            parse_path(alloc, text, limits)?,
        ))),
        ScannedLine::Branch(via, text) => {
            Ok(Some(Command::Branch(via, parse_branch(alloc, text, limits)?)))
        }
        ScannedLine::Why(node, text) => {
            Ok(Some(Command::Why(node, parse_path(alloc, text, limits)?)))
        }
        ScannedLine::Check(word, text) => {
            let parsed = parse_path(alloc, text, limits);
            // A fault of the nodes comes before one of the expression.
            let walk = parse_nodes(alloc, word)?;
            let expr = parsed?;
            Ok(Some(Command::Check(walk, expr)))
        }
        ScannedLine::Whole(command) => Ok(Some(command)),
        ScannedLine::Bad => Err(ScriptError::Bad),
    }
}
