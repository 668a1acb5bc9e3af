// The numbers that a load gives, the changes that insert triples and delete them, and the numbers that are noted.
use graph_load::load_named;
use label_graph::Graph;
use px_base::{Limits, MemShelf, Memory, Text};
use std::alloc::Global;
use std::test::Fail;
use triple_names::{DeleteError, Names, Placed, delete_change, insert_change};
use triples_read::{Triple, read_line};

/// The first triple has the nodes 0, 1 and 2, and the second one 0 and 3.
const TWO: &[u8] = b"<a> <p> \"b\" .
<a> <q> <a> .
";

fn load_two(alloc: Global) -> Result<(Graph, Names), Fail> {
    load_text(alloc, TWO.to_vec(alloc)?)
}

fn load_text(alloc: Global, text: Vec<u8>) -> Result<(Graph, Names), Fail> {
    let mut files = Vec::new(alloc);
    let name = Text::from_bytes(alloc, b"g").map_err(|_| Memory)?;
    files.push((name, text))?;
    let mut shelf = MemShelf::new(files, 8, Vec::new(alloc));
    let Ok(loaded) = load_named(alloc, &mut shelf, "g", &Limits::program()) else {
        return Err("nothing was loaded".into());
    };
    Ok(loaded)
}

fn triple_of(alloc: Global, line: &[u8]) -> Result<Triple, Fail> {
    let Ok(Some(triple)) = read_line(alloc, line) else {
        return Err("the line spells no triple".into());
    };
    Ok(triple)
}

/// The numbers of the subject, the triple and the object.
type Numbers = (Option<u32>, Option<u32>, Option<u32>);

fn numbers_of(names: &Names, triple: &Triple) -> Numbers {
    (
        names.term(&triple.subject),
        names.triple(triple),
        names.term(&triple.object),
    )
}

#[test]
fn terms_and_triples_have_their_numbers(rt: HostRuntime) -> Result<(), Fail> {
    let (_, names) = load_two(rt.alloc())?;
    let rows: [(&[u8], Numbers); 4] = [
        (b"<a> <p> \"b\" .", (Some(0), Some(1), Some(2))),
        (
            b"<\\u0061><p>\"\\u0062\". # again",
            (Some(0), Some(1), Some(2)),
        ),
        (b"<a> <q> <a> .", (Some(0), Some(3), Some(0))),
        (b"<a> <p> \"b\"@en .", (Some(0), None, None)),
    ];
    for (line, numbers) in rows {
        let triple = triple_of(rt.alloc(), line)?;
        assert!(rt; numbers_of(&names, &triple) == numbers, "{line:?}");
    }
    Ok(())
}

/// How many steps insert the triple, and the numbers of its parts.
fn insert(
    alloc: Global,
    names: &Names,
    graph: &Graph,
    line: &[u8],
) -> Result<(usize, Placed), Fail> {
    let triple = triple_of(alloc, line)?;
    let (change, placed) = insert_change(alloc, names, graph, &triple)?;
    Ok((change.steps().len(), placed))
}

#[test]
fn inserts_add_what_is_missing(rt: HostRuntime) -> Result<(), Fail> {
    let (graph, names) = load_two(rt.alloc())?;
    let rows: [(&[u8], usize, (u32, u32, u32)); 3] = [
        (b"<a> <q> <a> .", 2, (0, 3, 0)),
        (b"<a> <p> <c> .", 4, (0, 4, 5)),
        (b"_:b <p> _:b .", 4, (4, 5, 4)),
    ];
    for (line, steps, (subject, triple, object)) in rows {
        let placed = Placed {
            subject,
            triple,
            object,
        };
        assert!(rt;
            insert(rt.alloc(), &names, &graph, line)? == (steps, placed),
            "{line:?}"
        );
    }
    Ok(())
}

/// How many steps delete the triple.
fn delete(
    alloc: Global,
    names: &Names,
    graph: &Graph,
    line: &[u8],
) -> Result<Result<usize, DeleteError>, Fail> {
    let triple = triple_of(alloc, line)?;
    Ok(delete_change(alloc, names, graph, &triple).map(|change| change.steps().len()))
}

#[test]
fn deletes_take_terms_that_no_other_triple_has(rt: HostRuntime) -> Result<(), Fail> {
    let (graph, names) = load_two(rt.alloc())?;
    let rows: [(&[u8], Result<usize, DeleteError>); 3] = [
        (b"<a> <p> \"b\" .", Ok(2)),
        (b"<a> <q> <a> .", Ok(1)),
        (b"<a> <q> \"b\" .", Err(DeleteError::NoNode)),
    ];
    for (line, steps) in rows {
        assert!(rt;
            delete(rt.alloc(), &names, &graph, line)? == steps,
            "{line:?}"
        );
    }
    Ok(())
}

/// The numbers of a triple's parts when it is staged, and once they are noted.
fn note(
    alloc: Global,
    names: &mut Names,
    line: &[u8],
    placed: Placed,
) -> Result<(Numbers, Numbers), Fail> {
    let staged = triple_of(alloc, line)?;
    names.stage(alloc, &staged)?;
    let before = numbers_of(names, &staged);
    names.note(staged, placed);
    Ok((before, numbers_of(names, &triple_of(alloc, line)?)))
}

#[test]
fn noted_numbers_take_the_place_of_others(rt: HostRuntime) -> Result<(), Fail> {
    let (_, mut names) = load_two(rt.alloc())?;
    let rows: [(&[u8], (u32, u32, u32), Numbers); 4] = [
        (b"<a> <p> <c> .", (0, 4, 5), (Some(0), None, None)),
        (b"<a> <p> <c> .", (0, 6, 5), (Some(0), Some(4), Some(5))),
        (b"_:b <p> _:b .", (7, 8, 7), (None, None, None)),
        (b"<a> <q> <a> .", (9, 3, 9), (Some(0), Some(3), Some(0))),
    ];
    for (line, (subject, triple, object), before) in rows {
        let placed = Placed {
            subject,
            triple,
            object,
        };
        let after = (Some(subject), Some(triple), Some(object));
        assert!(rt;
            note(rt.alloc(), &mut names, line, placed)? == (before, after),
            "{line:?}"
        );
    }
    let first = triple_of(rt.alloc(), b"<a> <p> \"b\" .")?;
    assert!(rt; numbers_of(&names, &first) == (Some(9), Some(1), Some(2)));
    Ok(())
}

#[test]
fn names_may_begin_empty(rt: HostRuntime) -> Result<(), Fail> {
    let mut names = Names::new(rt.alloc())?;
    let placed = Placed {
        subject: 0,
        triple: 1,
        object: 0,
    };
    let noted = note(rt.alloc(), &mut names, b"<a> <p> <a> .", placed)?;
    assert!(rt; noted == ((None, None, None), (Some(0), Some(1), Some(0))));
    Ok(())
}

/// A line whose object is a literal of 50,000 letters and this one.
fn long_line(alloc: Global, last: &[u8]) -> Result<Vec<u8>, Memory> {
    let mut line = b"<a> <p> \"".to_vec(alloc)?;
    for _ in 0..10_000 {
        line.extend_from_slice(b"bcdef")?;
    }
    line.extend_from_slice(last)?;
    line.extend_from_slice(b"\" .")?;
    Ok(line)
}

/// A literal with a language tag has the node 2, and a long one the node 4.
fn load_literals(alloc: Global) -> Result<(Graph, Names), Fail> {
    let mut text = b"<a> <p> \"b\"@en-GB .\n".to_vec(alloc)?;
    text.extend_from_slice(long_line(alloc, b"x")?.as_slice())?;
    load_text(alloc, text)
}

#[test]
fn tags_and_long_literals_are_found_in_other_spellings(rt: HostRuntime) -> Result<(), Fail> {
    let (graph, names) = load_literals(rt.alloc())?;
    let long = long_line(rt.alloc(), b"\\u0078")?;
    let other = long_line(rt.alloc(), b"y")?;
    let rows: [(&[u8], Numbers); 4] = [
        (b"<a> <p> \"\\u0062\"@EN-gb .", (Some(0), Some(1), Some(2))),
        (b"<a> <p> \"b\"@en .", (Some(0), None, None)),
        (long.as_slice(), (Some(0), Some(3), Some(4))),
        (other.as_slice(), (Some(0), None, None)),
    ];
    for (line, numbers) in rows {
        let triple = triple_of(rt.alloc(), line)?;
        assert!(rt; numbers_of(&names, &triple) == numbers, "{line:?}");
        let deleted = match numbers.1 {
            Some(_) => Ok(2),
            None => Err(DeleteError::NoNode),
        };
        assert!(rt;
            delete(rt.alloc(), &names, &graph, line)? == deleted,
            "{line:?}"
        );
    }
    Ok(())
}

#[test]
fn noted_literals_are_found_in_other_spellings(rt: HostRuntime) -> Result<(), Fail> {
    let mut names = Names::new(rt.alloc())?;
    let long = long_line(rt.alloc(), b"x")?;
    let lines: [(&[u8], u32); 2] = [(b"<a> <p> \"b\"@EN .", 1), (long.as_slice(), 3)];
    for (line, triple) in lines {
        let placed = Placed {
            subject: 0,
            triple,
            object: triple + 1,
        };
        note(rt.alloc(), &mut names, line, placed)?;
    }
    let tagged = triple_of(rt.alloc(), b"<a> <p> \"b\"@eN .")?;
    assert!(rt; numbers_of(&names, &tagged) == (Some(0), Some(1), Some(2)));
    let escaped = triple_of(rt.alloc(), long_line(rt.alloc(), b"\\u0078")?.as_slice())?;
    assert!(rt; numbers_of(&names, &escaped) == (Some(0), Some(3), Some(4)));
    Ok(())
}
