// A session of a small text, from its opening to its last question.
use graph_update::{Applied, Change, Step};
use index_api::{Kind, Via};
use pathindex_session::{Indexes, OpenError, QueryError, Session};
use px_base::{Memory, NodeId, Refusal};
use std::alloc::Global;
use std::process::Abort;
use std::test::Fail;
use triples_read::{Triple, read_line};

/// Ana is n0 and knows Bo, n2, who knows Cy, n4. The triples are n1 and n3.
const TRIPLES: &[u8] = b"<x:ana> <x:knows> <x:bo> .\n<x:bo> <x:knows> <x:cy> .\n";

const KNOWN: &[u8] = b"<x:knows>/iri";

const ALL: Indexes = Indexes {
    k: 2,
    one: true,
    fb: true,
    bk: true,
};

/// Asks a path through each index, and compares the answers.
fn asks(rt: &impl Abort, alloc: Global, session: &mut Session, wanted: &[NodeId]) {
    for via in [Via::Data, Via::A(1), Via::One, Via::Fb, Via::B(1)] {
        assert!(rt; session.path(alloc, via, KNOWN).is_ok());
        assert!(rt; session.nodes() == wanted);
    }
}

/// Links the last triple to Ana, so that Bo knows her too.
fn links(rt: &impl Abort, alloc: Global, session: &mut Session) -> Result<(), Memory> {
    let change = Change::one(alloc, Step::Link(3, 0)).map_err(|_| Memory)?;
    assert!(rt; session.update(alloc, change).is_ok());
    Ok(())
}

#[test]
fn changes_are_seen_through_each_index(rt: HostRuntime) -> Result<(), Fail> {
    let mut session = Session::open(rt.alloc(), TRIPLES, ALL).map_err(|_| Memory)?;
    asks(&rt, rt.alloc(), &mut session, &[2, 4]);
    links(&rt, rt.alloc(), &mut session)?;
    asks(&rt, rt.alloc(), &mut session, &[0, 2, 4]);
    Ok(())
}

/// The triple that Cy knows Ana.
fn cy_knows_ana(alloc: Global) -> Result<Triple, Memory> {
    match read_line(alloc, b"<x:cy> <x:knows> <x:ana> .") {
        Ok(Some(triple)) => Ok(triple),
        _ => Err(Memory),
    }
}

/// Inserts a triple and deletes it again, with what is answered in between.
fn edits(rt: &impl Abort, alloc: Global, session: &mut Session) -> Result<(), Memory> {
    let known = cy_knows_ana(alloc)?;
    assert!(rt; session.delete(alloc, &known).is_err());
    let applied = session.insert(alloc, known);
    assert!(rt; applied.ok() == Some(Applied { first: 5, added: 1 }));
    asks(rt, alloc, session, &[0, 2, 4]);
    let known = cy_knows_ana(alloc)?;
    assert!(rt; session.delete(alloc, &known).is_ok());
    asks(rt, alloc, session, &[2, 4]);
    Ok(())
}

#[test]
fn triples_are_inserted_and_deleted(rt: HostRuntime) -> Result<(), Fail> {
    let mut session = Session::open(rt.alloc(), TRIPLES, ALL).map_err(|_| Memory)?;
    edits(&rt, rt.alloc(), &mut session)?;
    Ok(())
}

/// What a session answers to questions that fail.
fn refuses(rt: &impl Abort, alloc: Global, session: &mut Session) {
    let missing = Err(QueryError::Refused(Refusal::NoIndex));
    assert!(rt; session.path(alloc, Via::A(3), KNOWN) == missing);
    assert!(rt; session.branch(alloc, Via::Data, b"iri[") == Err(QueryError::Syntax));
    assert!(rt; session.why(alloc, 9, KNOWN) == Err(QueryError::Refused(Refusal::NoNode)));
    assert!(rt; session.extents(alloc, Via::Data) == Err(QueryError::Refused(Refusal::NoIndex)));
    assert!(rt; session.forget(Kind::One).is_ok());
    assert!(rt; session.path(alloc, Via::One, KNOWN) == missing);
}

#[test]
fn failed_questions_are_named(rt: HostRuntime) -> Result<(), Fail> {
    let mut session = Session::open(rt.alloc(), TRIPLES, ALL).map_err(|_| Memory)?;
    refuses(&rt, rt.alloc(), &mut session);
    Ok(())
}

/// The walk that shows why Bo is known, and the list of the groups by label.
fn explains(rt: &impl Abort, alloc: Global, session: &mut Session) {
    assert!(rt; session.why(alloc, 2, KNOWN) == Ok(true));
    assert!(rt; session.walk() == [1, 2].as_slice());
    assert!(rt; session.check(alloc, 2, &[1, 2], KNOWN) == Ok(true));
    assert!(rt; session.check(alloc, 2, &[3, 2], KNOWN) == Ok(false));
    assert!(rt; session.why(alloc, 0, KNOWN) == Ok(false));
    assert!(rt; session.extents(alloc, Via::A(0)).is_ok());
    assert!(rt; session.text() == b"blocks 2\niri n0 n2 n4\n<x:knows> n1 n3\n".as_slice());
}

#[test]
fn answers_are_explained(rt: HostRuntime) -> Result<(), Fail> {
    let mut session = Session::open(rt.alloc(), TRIPLES, ALL).map_err(|_| Memory)?;
    explains(&rt, rt.alloc(), &mut session);
    Ok(())
}

/// The triples with the groups by label, as an index file.
const FILE: &[u8] =
    b"pathindex 1\ngiven 5 k 0\nlive iri\nlive <x:knows>\nlive iri\nlive <x:knows>\nlive iri\n\
edges 4\n0 1\n1 2\n2 3\n3 4\nviews 1\nview a0\n0\n1\n0\n1\n0\n";

const BY_LABEL: Indexes = Indexes {
    k: 0,
    one: false,
    fb: false,
    bk: false,
};

#[test]
fn the_graph_and_its_indexes_are_saved(rt: HostRuntime) -> Result<(), Fail> {
    let mut session = Session::open(rt.alloc(), TRIPLES, BY_LABEL).map_err(|_| Memory)?;
    assert!(rt; session.save(rt.alloc()).is_ok());
    assert!(rt; session.text() == FILE);
    Ok(())
}

/// Why the text isn't opened.
fn error_of(alloc: Global, text: &[u8]) -> Option<OpenError> {
    Session::open(alloc, text, ALL).err()
}

#[test]
fn a_refused_line_is_named(rt: HostRuntime) -> Result<(), Fail> {
    assert!(rt; error_of(rt.alloc(), b"\n<x:ana>\n") == Some(OpenError::Syntax(2)));
    assert!(rt; error_of(rt.alloc(), b"").is_none());
    Ok(())
}
