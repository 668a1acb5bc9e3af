// The nodes whose label passes, and where an axis leads from them.
ghost use Rattle.std.specs.Prelude.{◌≡◌, ◌<◌, ℕ, Some, length, IsTrue, IsSome, IfOk, OnOk};
ghost use Rattle.graph_spec.specs.Members.{has};
ghost use Rattle.path_automaton.specs.Digraphs.{shape_through};
ghost use Rattle.branch_spec.specs.Trees as tree;
ghost use Rattle.branch_spec.specs.BranchAnswers.{Passes};
ghost use Rattle.branch_expr.specs.Images.{HasJust, Keeps, Loses};
ghost use Rattle.branch_expr.specs.QueryTrees.{test_of};
ghost use Rattle.branch_expr.specs.Sets.{IsSetOf, HasPassingParent, HasPassingSource};

use crate::axis::Axis;
use crate::leading::{along, passing_children, remove_passing_children};
use crate::mirror::Mirror;
use crate::sets::{intersect, keep_labelled, passing, subtract};
use crate::tree::Test;
use label_graph::{Digraph, Labels};
use px_base::{Bits, Memory, Text};
use std::alloc::Global;

/// The nodes with the label.
fn label_set<G: Digraph>(alloc: Global, g: &G, labels: &Labels, text: &Text) -> Result<Bits, Memory>
    requires labelled { (n l : ℕ) → G.label_at g.now n ≡ Some l → l < length labels.now.texts }
    ensures size { IfOk result (λ b. b.size ≡ G.span g.now) }
    ensures set { IfOk result (λ b. IsSetOf (G.label_at g.now) b.members (Passes (shape_through G.Digraph labels.now g.now) (tree.label text.now))) }
{
    match labels.find(text) {
        Some(label) => passing(alloc, g, Some(label)),
        None => Bits::new(alloc, g.size()),
    }
}

/// The nodes whose label passes.
pub(crate) fn test_set<G: Digraph>(
    alloc: Global,
    g: &G,
    labels: &Labels,
    test: &Test,
) -> Result<Bits, Memory>
    requires labelled { (n l : ℕ) → G.label_at g.now n ≡ Some l → l < length labels.now.texts }
    ensures size { IfOk result (λ b. b.size ≡ G.span g.now) }
    ensures set { IfOk result (λ b. IsSetOf (G.label_at g.now) b.members (Passes (shape_through G.Digraph labels.now g.now) (test_of test.now))) }
{
    match test {
        Test::Any => passing(alloc, g, None),
        Test::Label(text) => label_set(alloc, g, labels, text),
    }
}

/// Keeps the members with the label.
fn keep_label<G: Digraph>(
    alloc: Global,
    g: &G,
    labels: &Labels,
    text: &Text,
    set: &mut Bits,
) -> Result<(), Memory>
    requires labelled { (n l : ℕ) → G.label_at g.now n ≡ Some l → l < length labels.now.texts }
    requires nodes { (v : ℕ) → IsTrue (has set.old.members v) → IsSome (G.label_at g.now v) }
    ensures size { OnOk result (set.new.size ≡ set.old.size) }
    ensures keeps { OnOk result (Keeps set.old.members set.new.members (Passes (shape_through G.Digraph labels.now g.now) (tree.label text.now))) }
{
    match labels.find(text) {
        Some(label) => {
            keep_labelled(g, label, set);
            Ok(())
        }
        None => {
            let none = Bits::new(alloc, 0)?;
            intersect(set, &none);
            Ok(())
        }
    }
}

/// Keeps the members whose label passes.
pub(crate) fn keep_test<G: Digraph>(
    alloc: Global,
    g: &G,
    labels: &Labels,
    test: &Test,
    set: &mut Bits,
) -> Result<(), Memory>
    requires labelled { (n l : ℕ) → G.label_at g.now n ≡ Some l → l < length labels.now.texts }
    requires nodes { (v : ℕ) → IsTrue (has set.old.members v) → IsSome (G.label_at g.now v) }
    ensures size { OnOk result (set.new.size ≡ set.old.size) }
    ensures keeps { OnOk result (Keeps set.old.members set.new.members (Passes (shape_through G.Digraph labels.now g.now) (test_of test.now))) }
{
    match test {
        Test::Any => Ok(()),
        Test::Label(text) => keep_label(alloc, g, labels, text, set),
    }
}

/// The nodes to which an edge leads from a node with the label.
fn label_leading<G: Digraph>(
    alloc: Global,
    g: &G,
    labels: &Labels,
    text: &Text,
) -> Result<Bits, Memory>
    requires labelled { (n l : ℕ) → G.label_at g.now n ≡ Some l → l < length labels.now.texts }
    ensures size { IfOk result (λ b. b.size ≡ G.span g.now) }
    ensures image { IfOk result (λ b. HasJust b.members (HasPassingParent (shape_through G.Digraph labels.now g.now) (tree.label text.now))) }
{
    match labels.find(text) {
        Some(label) => passing_children(alloc, g, Some(label)),
        None => Bits::new(alloc, g.size()),
    }
}

/// The nodes to which an edge leads from a node whose label passes.
fn test_leading<G: Digraph>(
    alloc: Global,
    g: &G,
    labels: &Labels,
    test: &Test,
) -> Result<Bits, Memory>
    requires labelled { (n l : ℕ) → G.label_at g.now n ≡ Some l → l < length labels.now.texts }
    ensures size { IfOk result (λ b. b.size ≡ G.span g.now) }
    ensures image { IfOk result (λ b. HasJust b.members (HasPassingParent (shape_through G.Digraph labels.now g.now) (test_of test.now))) }
{
    match test {
        Test::Any => passing_children(alloc, g, None),
        Test::Label(text) => label_leading(alloc, g, labels, text),
    }
}

/// The nodes to which the axis leads from a node whose label passes.
fn far_leading<G: Digraph>(
    alloc: Global,
    g: &G,
    labels: &Labels,
    axis: Axis,
    test: &Test,
) -> Result<Bits, Memory>
    requires labelled { (n l : ℕ) → G.label_at g.now n ≡ Some l → l < length labels.now.texts }
    ensures size { IfOk result (λ b. b.size ≡ G.span g.now) }
    ensures image { IfOk result (λ b. HasJust b.members (HasPassingSource (shape_through G.Digraph labels.now g.now) axis (test_of test.now))) }
{
    let met = test_set(alloc, g, labels, test)?;
    along(alloc, g, axis, &met)
}

/// The same. Where the axis leads along one edge, each node is read once.
pub(crate) fn axis_leading<G: Digraph>(
    alloc: Global,
    g: &G,
    labels: &Labels,
    axis: Axis,
    test: &Test,
) -> Result<Bits, Memory>
    requires labelled { (n l : ℕ) → G.label_at g.now n ≡ Some l → l < length labels.now.texts }
    ensures size { IfOk result (λ b. b.size ≡ G.span g.now) }
    ensures image { IfOk result (λ b. HasJust b.members (HasPassingSource (shape_through G.Digraph labels.now g.now) axis (test_of test.now))) }
{
    match axis {
        Axis::Child => test_leading(alloc, g, labels, test),
        Axis::Parent => test_leading(alloc, &Mirror { graph: g }, labels, test),
        _ => far_leading(alloc, g, labels, axis, test),
    }
}

/// Takes out the members to which an edge leads from a node with the label.
fn deny_label<G: Digraph>(g: &G, labels: &Labels, text: &Text, set: &mut Bits)
    requires labelled { (n l : ℕ) → G.label_at g.now n ≡ Some l → l < length labels.now.texts }
    requires size { set.old.size ≡ G.span g.now }
    ensures size { set.new.size ≡ set.old.size }
    ensures spared { Loses set.old.members set.new.members (HasPassingParent (shape_through G.Digraph labels.now g.now) (tree.label text.now)) }
{
    if let Some(label) = labels.find(text) {
        remove_passing_children(g, Some(label), set);
    }
}

/// Takes out the members to which an edge leads from a node whose label passes.
fn deny_test<G: Digraph>(g: &G, labels: &Labels, test: &Test, set: &mut Bits)
    requires labelled { (n l : ℕ) → G.label_at g.now n ≡ Some l → l < length labels.now.texts }
    requires size { set.old.size ≡ G.span g.now }
    ensures size { set.new.size ≡ set.old.size }
    ensures spared { Loses set.old.members set.new.members (HasPassingParent (shape_through G.Digraph labels.now g.now) (test_of test.now)) }
{
    match test {
        Test::Any => remove_passing_children(g, None, set),
        Test::Label(text) => deny_label(g, labels, text, set),
    }
}

/// Takes out the members to which the axis leads from a node whose label passes.
fn deny_far<G: Digraph>(
    alloc: Global,
    g: &G,
    labels: &Labels,
    axis: Axis,
    test: &Test,
    set: &mut Bits,
) -> Result<(), Memory>
    requires labelled { (n l : ℕ) → G.label_at g.now n ≡ Some l → l < length labels.now.texts }
    ensures size { OnOk result (set.new.size ≡ set.old.size) }
    ensures spared { OnOk result (Loses set.old.members set.new.members (HasPassingSource (shape_through G.Digraph labels.now g.now) axis (test_of test.now))) }
{
    let led = far_leading(alloc, g, labels, axis, test)?;
    subtract(set, &led);
    Ok(())
}

/// The same. Where the axis leads along one edge, no set is made.
pub(crate) fn deny_axis<G: Digraph>(
    alloc: Global,
    g: &G,
    labels: &Labels,
    axis: Axis,
    test: &Test,
    set: &mut Bits,
) -> Result<(), Memory>
    requires labelled { (n l : ℕ) → G.label_at g.now n ≡ Some l → l < length labels.now.texts }
    requires size { set.old.size ≡ G.span g.now }
    ensures size { OnOk result (set.new.size ≡ set.old.size) }
    ensures spared { OnOk result (Loses set.old.members set.new.members (HasPassingSource (shape_through G.Digraph labels.now g.now) axis (test_of test.now))) }
{
    match axis {
        Axis::Child => {
            deny_test(g, labels, test, set);
            Ok(())
        }
        Axis::Parent => {
            deny_test(&Mirror { graph: g }, labels, test, set);
            Ok(())
        }
        _ => deny_far(alloc, g, labels, axis, test, set),
    }
}
