// The script of a seed.
ghost use Rattle.std.specs.Prelude.{◌≡◌, ◌++◌, [], IfOk, OnOk, string_bytes};
ghost use Rattle.workload.specs.Generator.{state_after};
ghost use Rattle.workload.specs.MadeTexts.{last_lines, lines_text, made_script_text, step_lines, steps_text};

use crate::generator::Generator;
use crate::graph::LINES;
use crate::triples::skip_triples;
use crate::writing::{push_edge, push_number};
use px_base::{Memory, Text};
use std::alloc::Global;

/// How many nodes the script adds.
const STEPS: u32 = 500;

// Appends a step: a new node and two edges from it, one of which is taken away again.
fn push_step(
    out: &mut String,
    generator: &mut Generator,
    nodes: u64,
    new: u64,
) -> Result<(), Memory>
    ensures text { OnOk result (string_bytes out.new ≡ string_bytes out.old ++ lines_text (step_lines nodes new generator.old.state [])) }
    ensures state { OnOk result (generator.new.state ≡ state_after 3 generator.old.state) }
{
    let label = generator.draw(4);
    let first = generator.draw(nodes);
    let second = generator.draw(nodes);
    push_number(out, "node g", label, "\n")?;
    push_edge(out, "link", new, first)?;
    push_edge(out, "link", new, second)?;
    push_edge(out, "unlink", new, first)?;
    Ok(())
}

// Appends that many steps.
fn push_steps(
    out: &mut String,
    generator: &mut Generator,
    nodes: u32,
    count: u32,
) -> Result<(), Memory>
    ensures { OnOk result (string_bytes out.new ++ lines_text last_lines ≡ string_bytes out.old ++ steps_text nodes count generator.old.state) }
{
    for i in 0..count {
        push_step(
            out,
            generator,
            u64::from(nodes),
            u64::from(nodes) + u64::from(i),
        )?;
    }
    Ok(())
}

// Appends `sizes`, and three queries through the graph itself and through one index of each kind.
fn push_last(out: &mut String) -> Result<(), Memory>
    ensures { OnOk result (string_bytes out.new ≡ string_bytes out.old ++ lines_text last_lines) }
{
    out.push_str(
        "sizes
path data <http://e/p0>/iri/<http://e/p1>
path a2 <http://e/p0>/iri/<http://e/p1>
path one <http://e/p0>/iri/<http://e/p1>
path fb <http://e/p0>/iri/<http://e/p1>
path data g0//literal
path a2 g0//literal
path one g0//literal
path fb g0//literal
branch data iri[/<http://e/p0> and not(/<http://e/p1>)]
branch a2 iri[/<http://e/p0> and not(/<http://e/p1>)]
branch one iri[/<http://e/p0> and not(/<http://e/p1>)]
branch fb iri[/<http://e/p0> and not(/<http://e/p1>)]
",
    )?;
    Ok(())
}

/// The script of the seed, for a graph in which the next node gets the number `nodes`: 2,000 changes, `sizes`,
/// and 12 queries. Where `nodes` isn't 0, each edge begins at a node that the script adds and leads to one of
/// the first `nodes`. The same numbers give the same text everywhere. O(1), since the number of lines is fixed;
/// the text is all the memory that it takes.
pub fn made_script(alloc: Global, seed: u64, nodes: u32) -> Result<Text, Memory>
    ensures { IfOk result (λ t. t ≡ made_script_text seed nodes) }
{
    let mut generator = Generator { state: seed };
    skip_triples(&mut generator, LINES);
    let mut out = String::new(alloc);
    push_steps(&mut out, &mut generator, nodes, STEPS)?;
    push_last(&mut out)?;
    Ok(Text::from_string(out))
}
