// The triples of the graph file, as they are drawn.
ghost use Rattle.std.specs.Prelude.{◌≡◌, ◌<◌};
ghost use Rattle.workload.specs.MadeTexts.{after_line, after_lines, graph_line};
ghost use Rattle.workload.specs.GeneratorValues.{line_value, object_value, object_above, after_object};

use crate::generator::Generator;

/// How many nodes are subjects and objects.
const NODES: u64 = 4000;

/// The object of a triple.
#[derive(Clone, Copy)]
pub(crate) enum Object {
    /// An IRI, by the number in it.
    Node(u64),
    /// A literal, by the number in it.
    Value(u64),
}

/// A line of the graph file, by the numbers in it.
#[derive(Clone, Copy)]
pub(crate) struct Triple {
    pub(crate) subject: u64,
    pub(crate) predicate: u64,
    pub(crate) object: Object,
}

// An object above the subject, or a value where that is past the nodes.
fn draw_object(generator: &mut Generator, subject: u64) -> Object
    requires { subject < 4000 }
    ensures shown { object_value result ≡ object_above subject generator.old.state }
    ensures state { generator.new.state ≡ after_object subject generator.old.state }
{
    let number = 8 * subject + 1 + generator.draw(16);
    if number < NODES {
        Object::Node(number)
    } else {
        Object::Value(generator.draw(500))
    }
}

/// The next line of the graph file.
pub(crate) fn draw_triple(generator: &mut Generator) -> Triple
    ensures line { line_value result ≡ graph_line generator.old.state }
    ensures state { generator.new.state ≡ after_line generator.old.state }
{
    let subject = generator.draw(NODES);
    let predicate = generator.draw(8);
    let object = draw_object(generator, subject);
    Triple {
        subject,
        predicate,
        object,
    }
}

/// Passes over so many lines of the graph file.
pub(crate) fn skip_triples(generator: &mut Generator, count: u32)
    ensures { generator.new.state ≡ after_lines count generator.old.state }
{
    for _ in 0..count {
        draw_triple(generator);
    }
}
