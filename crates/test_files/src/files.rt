// Index files as texts.
use index_api::Via;
use index_check::fits;
use index_file::{Saved, SavedError, read};
use label_graph::Digraph;
use px_base::{Limits, MemShelf, Memory, Text};
use std::alloc::Global;
use std::process::Abort;
use std::test::Fail;

const FEW: Limits = Limits {
    nodes: 3,
    edges: 1,
    labels: 1,
    expr_bytes: 0,
    expr_depth: 0,
};

/// Three nodes and an edge, with all views.
const WHOLE: &[u8] = b"pathindex 1
given 3 k 2
live a
live b
live a
edges 1
0 1
views 5
view a0
0
1
0
view a1
0
1
0
view a2
0
1
0
view one
0
1
0
view fb
0
1
2
";

/// The file of that name, where `g` is the one file. The calls with the numbers listed fail.
fn read_file(
    alloc: Global,
    name: &str,
    content: &[u8],
    limits: &Limits,
    failing: &[u32],
) -> Result<Result<Saved, SavedError>, Memory> {
    let mut files = Vec::new(alloc);
    let one = Text::from_bytes(alloc, b"g").map_err(|_| Memory)?;
    files.push((one, content.to_vec(alloc)?))?;
    let mut shelf = MemShelf::new(files, 8, failing.to_vec(alloc)?);
    Ok(read(alloc, &mut shelf, name, limits))
}

/// How many numbers and views a text holds, or the error.
fn size_of(
    alloc: Global,
    content: &[u8],
    limits: &Limits,
) -> Result<Result<(u32, u32), SavedError>, Memory> {
    let found = read_file(alloc, "g", content, limits, &[])?;
    Ok(found.map(|saved| (saved.size(), saved.views())))
}

#[test]
fn texts_hold_files(rt: HostRuntime) -> Result<(), Fail> {
    let all = Limits::program();
    let rows: [(&[u8], Limits, Result<(u32, u32), SavedError>); 24] = [
        (WHOLE, all, Ok((3, 5))),
        (b"", all, Err(SavedError::Syntax(1))),
        (
            b"pathindex 1\ngiven 1 k 2\ngone\nedges 0\nviews 2\nview one\nview fb\n",
            all,
            Ok((1, 2)),
        ),
        (
            b"pathindex 1\r\ngiven 1 k 0\r\nlive a\r\nedges 1\r\n0 0\r\nviews 1\r\nview a0\r\n0",
            all,
            Ok((1, 1)),
        ),
        (
            b"pathindex 1\ngiven 3 k 9\n",
            all,
            Err(SavedError::Syntax(2)),
        ),
        (
            b"pathindex 1\ngiven 4 k 9\n",
            FEW,
            Err(SavedError::Limit(2)),
        ),
        (
            b"pathindex 1\ngiven 99999999999999999999 k 2\n",
            all,
            Err(SavedError::Limit(2)),
        ),
        (
            b"pathindex 1\ngiven 03 k 2\n",
            all,
            Err(SavedError::Syntax(2)),
        ),
        (
            b"pathindex 1\ngiven 2 k 2\nlive a\nlive b\n",
            FEW,
            Err(SavedError::Limit(4)),
        ),
        (
            b"pathindex 1\ngiven 2 k 2\nlive a\nlive a\nedges 2\n",
            FEW,
            Err(SavedError::Limit(5)),
        ),
        (
            b"pathindex 1\ngiven 2 k 2\nlive <\\u0061>\ngone\nedges 1\n0 1\n",
            all,
            Err(SavedError::Syntax(6)),
        ),
        (
            b"pathindex 1\ngiven 2 k 2\nlive a\nlive a\nedges 2\n0 1\n0 0\n",
            all,
            Err(SavedError::Syntax(7)),
        ),
        (
            b"pathindex 1\ngiven 1 k 1\nlive a\nedges 0\nviews 1\nview a0\n0\n",
            all,
            Err(SavedError::Syntax(8)),
        ),
        (
            b"pathindex 1\ngiven 1 k 1\nlive a\nedges 0\nviews 2\nview one\n0\nview one\n",
            all,
            Err(SavedError::Syntax(8)),
        ),
        (
            b"pathindex 1\ngiven 1 k 1\nlive a\nedges 0\nviews 1\nview one\n1\n",
            all,
            Err(SavedError::Syntax(7)),
        ),
        (
            b"pathindex 1\ngiven 1 k 1\nlive a\nedges 0\nviews 99999999999\nview one\n0\n",
            all,
            Err(SavedError::Syntax(8)),
        ),
        (
            b"pathindex 1\ngiven 1 k 1\nlive a\nedges 18446744073709551616\n",
            all,
            Err(SavedError::Limit(4)),
        ),
        (
            b"pathindex 1\ngiven 1 k 1\nlive a\nedges 0\nviews 2\nview fb\n0\nview one\n",
            all,
            Err(SavedError::Syntax(8)),
        ),
        (
            b"pathindex 1\ngiven 1 k 1\nlive a\nedges 0\nviews 1\nview one\n00\n",
            all,
            Err(SavedError::Syntax(7)),
        ),
        (
            b"pathindex 1\ngiven 1 k 1\nlive a\nedges 0\nviews 1\nview a01\n",
            all,
            Err(SavedError::Syntax(6)),
        ),
        (
            b"pathindex 1\ngiven 1 k 1\ngone \n",
            all,
            Err(SavedError::Syntax(3)),
        ),
        (
            b"pathindex 1\ngiven 1 k 1\nlive and\n",
            all,
            Err(SavedError::Syntax(3)),
        ),
        (
            b"pathindex 1\ngiven 2 k 1\nlive a\nlive a\nedges 2\n0 1\n0 1\n",
            all,
            Err(SavedError::Syntax(7)),
        ),
        (
            b"pathindex 1\ngiven 1 k 0\nlive a\nedges 0\nviews 0\n\n",
            all,
            Err(SavedError::Syntax(6)),
        ),
    ];
    for (content, limits, size) in rows {
        assert!(rt;
            size_of(rt.alloc(), content, &limits)? == size,
            "{content:?}"
        );
    }
    Ok(())
}

fn error_of(alloc: Global, name: &str, failing: &[u32]) -> Result<Option<SavedError>, Memory> {
    let limits = Limits::program();
    Ok(read_file(alloc, name, WHOLE, &limits, failing)?.err())
}

#[test]
fn files_may_be_missing_or_fail(rt: HostRuntime) -> Result<(), Fail> {
    let missing = error_of(rt.alloc(), "f", &[])?;
    let unopened = error_of(rt.alloc(), "g", &[1])?;
    let unread = error_of(rt.alloc(), "g", &[3])?;
    assert!(rt; missing == Some(SavedError::Missing));
    assert!(rt; (unopened, unread) == (Some(SavedError::Fault), Some(SavedError::Fault)));
    Ok(())
}

/// The first view that doesn't fit, or `Data` where all fit; none where no file is held.
fn first_misfit(alloc: Global, content: &[u8]) -> Result<Option<Via>, Memory> {
    let limits = Limits::program();
    let Ok(saved) = read_file(alloc, "g", content, &limits, &[])? else {
        return Ok(None);
    };
    for j in 0..saved.views() {
        if !fits(alloc, &saved, j)? {
            return Ok(Some(saved.via(j)));
        }
    }
    Ok(Some(Via::Data))
}

#[test]
fn views_are_checked(rt: HostRuntime) -> Result<(), Fail> {
    let rows: [(&[u8], Option<Via>); 9] = [
        (WHOLE, Some(Via::Data)),
        // a ring of two nodes, each in a block of its own: stable both ways, and finer than it may be
        (
            b"pathindex 1\ngiven 2 k 0\nlive a\nlive a\nedges 2\n0 1\n1 0\nviews 1\nview fb\n0\n1\n",
            Some(Via::Fb),
        ),
        (
            b"pathindex 1\ngiven 4 k 0\nlive a\nlive a\nlive a\nlive a\nedges 3\n0 1\n1 2\n2 3\nviews 1\nview fb\n0\n1\n2\n3\n",
            Some(Via::Data),
        ),
        (
            b"pathindex 1\ngiven 3 k 0\nlive a\nlive b\nlive a\nedges 1\n0 1\nviews 1\nview fb\n0\n1\n0\n",
            Some(Via::Fb),
        ),
        (
            b"pathindex 1\ngiven 2 k 0\nlive a\nlive b\nedges 0\nviews 1\nview a0\n0\n0\n",
            Some(Via::A(0)),
        ),
        (
            b"pathindex 1\ngiven 2 k 0\nlive a\nlive a\nedges 0\nviews 1\nview one\n0\n1\n",
            Some(Via::One),
        ),
        (
            b"pathindex 1\ngiven 3 k 1\nlive a\nlive b\nlive a\nedges 1\n0 1\nviews 2\nview b0\n0\n1\n0\nview b1\n0\n1\n2\n",
            Some(Via::Data),
        ),
        (
            b"pathindex 1\ngiven 3 k 1\nlive a\nlive b\nlive a\nedges 1\n0 1\nviews 2\nview b0\n0\n1\n0\nview b1\n0\n1\n0\n",
            Some(Via::B(1)),
        ),
        (b"pathindex 2\n", None),
    ];
    for (content, misfit) in rows {
        assert!(rt; first_misfit(rt.alloc(), content)? == misfit, "{content:?}");
    }
    Ok(())
}
