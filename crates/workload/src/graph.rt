// The graph file of a seed.
ghost use Rattle.std.specs.Prelude.{◌≡◌, ◌++◌, IfOk, OnOk, string_bytes};
ghost use Rattle.workload.specs.MadeTexts.{graph_lines, lines_text, made_graph_text};

use crate::generator::Generator;
use crate::triples::draw_triple;
use crate::writing::push_triple;
use px_base::{Memory, Text};
use std::alloc::Global;

/// How many lines the graph file has.
pub(crate) const LINES: u32 = 20_000;

// Appends that many lines.
fn push_lines(out: &mut String, generator: &mut Generator, count: u32) -> Result<(), Memory>
    ensures { OnOk result (string_bytes out.new ≡ string_bytes out.old ++ lines_text (graph_lines count generator.old.state)) }
{
    for _ in 0..count {
        let triple = draw_triple(generator);
        push_triple(out, triple)?;
    }
    Ok(())
}

/// The graph file of the seed: 20,000 lines of N-Triples over 4,000 IRIs, 8 predicates and 500 values. An
/// object that is an IRI has a greater number than its subject. The same seed gives the same text everywhere.
/// O(1), since the number of lines is fixed; the text is all the memory that it takes.
pub fn made_graph(alloc: Global, seed: u64) -> Result<Text, Memory>
    ensures { IfOk result (λ t. t ≡ made_graph_text seed) }
{
    let mut out = String::new(alloc);
    push_lines(&mut out, &mut Generator { state: seed }, LINES)?;
    Ok(Text::from_string(out))
}
