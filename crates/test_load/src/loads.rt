// Whole loads of files in memory.
use graph_load::{LoadError, load};
use label_graph::Graph;
use px_base::{Limits, MemShelf, Memory, Text};
use std::alloc::Global;
use std::process::Abort;
use std::test::Fail;

const FEW_NODES: Limits = Limits {
    nodes: 2,
    edges: 9,
    labels: 9,
    expr_bytes: 0,
    expr_depth: 0,
};

const FOUR_NODES: Limits = Limits {
    nodes: 4,
    edges: 9,
    labels: 9,
    expr_bytes: 0,
    expr_depth: 0,
};

const FEW_EDGES: Limits = Limits {
    nodes: 9,
    edges: 1,
    labels: 9,
    expr_bytes: 0,
    expr_depth: 0,
};

const EIGHTEEN_EDGES: Limits = Limits {
    nodes: 99,
    edges: 18,
    labels: 9,
    expr_bytes: 0,
    expr_depth: 0,
};

const FEW_LABELS: Limits = Limits {
    nodes: 9,
    edges: 9,
    labels: 1,
    expr_bytes: 0,
    expr_depth: 0,
};

const PEOPLE: &[u8] = b"<http://example.org/ana> <http://xmlns.com/foaf/0.1/name> \"Ana\"@en .
<http://example.org/ana> <http://xmlns.com/foaf/0.1/knows> <http://example.org/bo> .
<http://example.org/bo> <http://xmlns.com/foaf/0.1/knows> _:b0 .
_:b0 <http://xmlns.com/foaf/0.1/name> \"ana\" .
<http://example.org/bo> <http://xmlns.com/foaf/0.1/knows> <http://example.org/ana> .
";

/// More triples than the 16 that are looked up together, one of them twice.
const MANY: &[u8] = b"<a> <p> \"01\" .
<a> <p> \"02\" .
<a> <p> \"03\" .
<a> <p> \"04\" .
<a> <p> \"05\" .
<a> <p> \"06\" .
<a> <p> \"07\" .
<a> <p> \"08\" .
<a> <p> \"09\" .
<a> <p> \"10\" .
<a> <p> \"11\" .
<a> <p> \"12\" .
<a> <p> \"13\" .
<a> <p> \"14\" .
<a> <p> \"15\" .
<a> <p> \"16\" .
<a> <p> \"17\" .
<a> <p> \"18\" .
<a> <p> \"01\" .
<b> <p> \"18\" .
";

/// The load of the file of that name, where `g` is the one file. The calls with the numbers listed fail.
fn load_file(
    alloc: Global,
    name: &str,
    content: &[u8],
    limits: &Limits,
    failing: &[u32],
) -> Result<Result<Graph, LoadError>, Memory> {
    let mut files = Vec::new(alloc);
    let one = Text::from_bytes(alloc, b"g").map_err(|_| Memory)?;
    files.push((one, content.to_vec(alloc)?))?;
    let mut shelf = MemShelf::new(files, 8, failing.to_vec(alloc)?);
    Ok(load(alloc, &mut shelf, name, limits))
}

/// How many nodes and edges a text loads to, or the error.
fn size_of(
    alloc: Global,
    content: &[u8],
    limits: &Limits,
) -> Result<Result<(u32, u32), LoadError>, Memory> {
    let loaded = load_file(alloc, "g", content, limits, &[])?;
    Ok(loaded.map(|graph| (graph.node_count(), graph.edge_count())))
}

#[test]
fn texts_load_to_graphs(rt: HostRuntime) -> Result<(), Fail> {
    let all = Limits::program();
    let rows: [(&[u8], Limits, Result<(u32, u32), LoadError>); 13] = [
        (b"# nothing\n\n", all, Ok((0, 0))),
        (b"<a> <p> <b> .\n", all, Ok((3, 2))),
        (b"<a> <p> <b> .\r<\\u0061><p><b>. # again", all, Ok((3, 2))),
        (b"<a> <p> \"a\" .\n<a> <p> <a> .\n", all, Ok((4, 4))),
        (PEOPLE, all, Ok((10, 10))),
        (
            b"<a> <p> <b> .\n\n<a> <p> .\n<a> .\n",
            all,
            Err(LoadError::Syntax(3)),
        ),
        (b"\n<a> <p> <b> .\n", FEW_NODES, Err(LoadError::Limit(2))),
        (
            b"<a> <p> <b> .\n<c> <p> <d> .\n<c> .\n",
            FOUR_NODES,
            Err(LoadError::Limit(2)),
        ),
        (b"<a> <p> <b> .\n<a> <p> <b> .\n", FOUR_NODES, Ok((3, 2))),
        (b"<a> <p> <b> .\n", FEW_EDGES, Err(LoadError::Limit(1))),
        (b"<a> <p> <b> .\n", FEW_LABELS, Err(LoadError::Limit(1))),
        (MANY, all, Ok((39, 38))),
        (MANY, EIGHTEEN_EDGES, Err(LoadError::Limit(10))),
    ];
    for (content, limits, size) in rows {
        assert!(rt;
            size_of(rt.alloc(), content, &limits)? == size,
            "{content:?}, at most {} nodes, {} edges, {} labels",
            limits.nodes,
            limits.edges,
            limits.labels
        );
    }
    Ok(())
}

/// The label of a node.
fn label_of(graph: &Graph, n: u32) -> &str {
    if !graph.is_live(n) {
        return "";
    }
    let label = graph.label(n);
    if label < graph.labels().len() {
        graph.labels().text(label).as_str()
    } else {
        ""
    }
}

#[test]
fn nodes_have_their_numbers_and_labels(rt: HostRuntime) -> Result<(), Fail> {
    let limits = Limits::program();
    let Ok(graph) = load_file(rt.alloc(), "g", PEOPLE, &limits, &[])? else {
        return Err("nothing was loaded".into());
    };
    let name = "<http://xmlns.com/foaf/0.1/name>";
    let knows = "<http://xmlns.com/foaf/0.1/knows>";
    let labels = [
        "iri", name, "literal", knows, "iri", knows, "blank", name, "literal", knows,
    ];
    for n in 0..labels.len() {
        assert!(rt; label_of(&graph, n as u32) == labels[n], "{n}");
    }
    Ok(())
}

fn error_of(alloc: Global, name: &str, failing: &[u32]) -> Result<Option<LoadError>, Memory> {
    let limits = Limits::program();
    Ok(load_file(alloc, name, PEOPLE, &limits, failing)?.err())
}

#[test]
fn files_may_be_missing_or_fail(rt: HostRuntime) -> Result<(), Fail> {
    let missing = error_of(rt.alloc(), "f", &[])?;
    let unopened = error_of(rt.alloc(), "g", &[1])?;
    let unread = error_of(rt.alloc(), "g", &[3])?;
    assert!(rt; missing == Some(LoadError::Missing));
    assert!(rt; (unopened, unread) == (Some(LoadError::Fault), Some(LoadError::Fault)));
    Ok(())
}
