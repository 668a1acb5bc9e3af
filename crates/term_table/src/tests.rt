// Terms that come once and again.
use super::*;
use px_base::{Memory, Text};
use std::alloc::Global;
use std::test::Fail;
use triples_read::Term;

fn iri(alloc: Global, content: &str) -> Result<HashedTerm, Memory> {
    let content = String::from_str(alloc, content)?;
    Ok(HashedTerm::new(Term::Iri(Text::from_string(content))))
}

// Puts terms in if they aren't there, and answers the place of the last one.
fn fill(table: &mut TermTable, terms: &[HashedTerm]) -> Result<Option<u32>, Memory> {
    let mut last = None;
    for term in terms {
        last = match table.find_hashed(term) {
            Some(found) => Some(found.place),
            None => Some(table.insert(term, 7)?),
        };
    }
    Ok(last)
}

// Whether the term is found in each way, and a hint leads to it.
fn is_there(table: &TermTable, term: &HashedTerm) -> bool {
    let hint = table.pass_others(table.enter_chain(Hint::of(term)));
    table.find(term.term()).is_some()
        && table.find_hinted(term, Some(hint)).is_some()
        && hint.place().is_some()
        && table.number(hint).is_some()
        && table.first_byte(hint).is_some()
}

fn three(alloc: Global) -> Result<[HashedTerm; 3], Memory> {
    Ok([iri(alloc, "a")?, iri(alloc, "b")?, iri(alloc, "a")?])
}

// The place of the last of three terms, how many there are, and whether the second is there.
fn filled(alloc: Global) -> Result<(Option<u32>, u32, bool), Memory> {
    let mut table = TermTable::new(alloc)?;
    let terms = three(alloc)?;
    let last = fill(&mut table, &terms)?;
    Ok((last, table.len(), is_there(&table, &terms[1])))
}

#[test]
fn terms_are_numbered_as_they_come(rt: HostRuntime) -> Result<(), Fail> {
    let (last, count, there) = filled(rt.alloc())?;
    assert_eq!(rt; last, Some(0));
    assert_eq!(rt; count, 2);
    assert_eq!(rt; there, true);
    Ok(())
}
