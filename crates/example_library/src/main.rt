//! A caller of the library: it loads two triples, adds an edge, and asks a path through the 1-index.
#![tactic(auto)]

ghost use Rattle.std.specs.Prelude.{IfSome};
ghost use Rattle.example_library.specs.Questions.{AreAnswersOfTexts};

use graph_update::{Change, Step};
use index_api::Via;
use pathindex_session::{Indexes, Session};
use std::alloc::Global;
use std::io;
use std::process::ExitCode;

/// Ana is n0 and knows Bo, n2, who knows Cy, n4. The triples are n1 and n3.
const TRIPLES: &str = "<x:ana> <x:knows> <x:bo> .\n<x:bo> <x:knows> <x:cy> .\n";

/// Those who are known by somebody whom somebody knows.
const PATH: &str = "<x:knows>/iri/<x:knows>/iri";

/// Where the path leads in the graph of the triples, once it has an edge from n3 to n0, so that Bo knows Ana too: the
/// nodes that the session found. None where there is no answer.
fn link_and_ask(alloc: Global, triples: &str, path: &str) -> Option<Session>
    ensures { IfSome result (λ session. AreAnswersOfTexts triples.now path.now session.nodes) }
{
    let kept = Indexes {
        k: 2,
        one: true,
        fb: false,
        bk: false,
    };
    let mut session = Session::open(alloc, triples.as_bytes(), kept).ok()?;
    let change = Change::one(alloc, Step::Link(3, 0)).ok()?;
    session.update(alloc, change).ok()?;
    session.path(alloc, Via::One, path.as_bytes()).ok()?;
    Some(session)
}

fn main(rt: HostRuntime) -> io::Result<ExitCode> {
    let Some(session) = link_and_ask(rt.alloc(), TRIPLES, PATH) else {
        eprintln!(rt; "example_library: there is no answer")?;
        return Ok(ExitCode::FAILURE);
    };
    for node in session.nodes() {
        println!(rt; "n{node}")?;
    }
    Ok(ExitCode::SUCCESS)
}
