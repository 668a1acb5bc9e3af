// Each public call once, with ample memory.
use super::*;
use graph_load::{TextShelf, load_text};
use px_base::Limits;
use std::alloc::Global;
use std::test::Fail;

/// The IRI of the predicate ends in `#`, and the literal has a quote.
const TEXT: &[u8] = b"<x:a/ana> <x:knows#> \"a\\\"b\" .\n";

/// What is written behind the head.
const BOXES: &[u8] = b"  \"n0\" [label=\"iri\\nana\" tooltip=\"iri\" fillcolor=\"#cfe2f3\"];
  \"n1\" [label=\"x:knows#\\nn1\" tooltip=\"<x:knows#>\" fillcolor=\"#fce5cd\"];
  \"n2\" [label=\"literal\\na\\\"b\" tooltip=\"literal\" fillcolor=\"#d9ead3\"];
  \"n0\" -> \"n1\";
  \"n1\" -> \"n2\";
}
";

fn picture_of(alloc: Global, text: &[u8]) -> Result<Vec<u8>, Fail> {
    let Ok((graph, names)) = load_text(alloc, text, &Limits::program()) else {
        return Err("nothing was loaded".into());
    };
    let mut shelf = TextShelf::new(text);
    let Ok(shown) = name_terms(alloc, &mut shelf, "", &names, graph.created()) else {
        return Err("nothing was named".into());
    };
    let summary = lone_blocks(alloc, &graph)?;
    Ok(dot_text(alloc, &graph, &summary, &shown, 20, 3)?)
}

#[test]
fn a_graph_is_drawn(rt: HostRuntime) -> Result<(), Fail> {
    let text = picture_of(rt.alloc(), TEXT)?;
    assert!(rt; text.as_slice().ends_with(BOXES));
    Ok(())
}
