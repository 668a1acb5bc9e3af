// Lines of the standard's grammar, good and bad, as tables; and each call once.
use px_base::Text;
use std::alloc::Global;
use std::process::Abort;
use std::test::Fail;
use triples_read::{
    LineError, SpareTexts, Term, Triple, is_triple, read_iri_prefix, read_line, read_line_with,
    write_term, write_triple,
};

// Lines, and what they are read as: the canonical spelling of a triple, or the name of another answer.
const LINES: [(&str, &str); 18] = [
    (
        "_:b.1<http://e/p>\"t\\u0009\\n\"@EN-gb.# c",
        "_:b.1 <http://e/p> \"t\t\\n\"@en-gb .",
    ),
    (
        "\t<http://e/\\u0061> <http://e/p> \"x\"^^<http://www.w3.org/2001/XMLSchema#string> .",
        "<http://e/a> <http://e/p> \"x\" .",
    ),
    ("", "none"),
    ("  # note", "none"),
    ("\t", "none"),
    ("#", "none"),
    ("<http://e/a> <http://e/p> \"\\uD800\" .", "syntax"),
    ("<http://e/a b> <http://e/p> \"x\" .", "syntax"),
    ("\"x\" <http://e/p> \"x\" .", "syntax"),
    (
        "<http://e/a> <http://e/p> _:b.",
        "<http://e/a> <http://e/p> _:b .",
    ),
    ("<http://e/a> <http://e/p> _:b..", "syntax"),
    ("_:a.<http://e/p> <http://e/b> .", "syntax"),
    (
        "<http://e/a> <http://e/p> \"x\"@en.",
        "<http://e/a> <http://e/p> \"x\"@en .",
    ),
    ("<http://e/a> <http://e/p> \"x\"@en- .", "syntax"),
    (
        "<http://e/a> <http://e/p> \"x\"^^ <http://e/t> .",
        "<http://e/a> <http://e/p> \"x\"^^<http://e/t> .",
    ),
    ("<http://e/a> <http://e/p> \"a\\qb\" .", "syntax"),
    ("<http://e/a> <http://e/p> \"\\U00110000\" .", "syntax"),
    ("<http://e/a> <http://e/p> \"\\u12", "syntax"),
];

fn is_spelled(alloc: Global, triple: &Triple, spelling: &str) -> bool {
    match write_triple(alloc, triple) {
        Ok(text) => text.as_str() == spelling,
        Err(_) => false,
    }
}

fn is_read_as(alloc: Global, line: &[u8], answer: &str) -> bool {
    match read_line(alloc, line) {
        Ok(Some(triple)) => is_spelled(alloc, &triple, answer),
        Ok(None) => answer == "none",
        Err(LineError::Syntax) => answer == "syntax",
        Err(LineError::Memory) => false,
    }
}

#[test]
fn worked_lines_are_read(rt: HostRuntime) {
    for (line, answer) in LINES {
        assert!(rt; is_read_as(rt.alloc(), line.as_bytes(), answer), "{line}");
    }
    assert!(rt; is_read_as(rt.alloc(), b"# \xFF", "syntax"));
}

// Whether an IRIREF with this IRI stands at the front, and takes that many bytes.
fn has_prefix(alloc: Global, text: &[u8], iri: &str, len: usize) -> bool {
    match read_iri_prefix(alloc, text) {
        Ok(Some((read, n))) => read.as_str() == iri && n == len,
        _ => false,
    }
}

fn has_no_prefix(alloc: Global, text: &[u8]) -> bool {
    matches!(read_iri_prefix(alloc, text), Ok(None))
}

#[test]
fn iri_prefixes_are_read(rt: HostRuntime) {
    let text = b"<http://e/\\u0061>/x";
    assert!(rt; has_prefix(rt.alloc(), text, "http://e/a", 17));
    assert!(rt; has_no_prefix(rt.alloc(), b"<http://e/a"));
}

fn is_triple_of(alloc: Global, line: &[u8], triple: &Triple) -> bool {
    match read_line(alloc, line) {
        Ok(Some(read)) => read == *triple,
        _ => false,
    }
}

// Whether a line is a triple, and the same one in spare texts as in new ones. Its texts are given back.
fn is_read_the_same(alloc: Global, spare: &mut SpareTexts, line: &[u8]) -> bool {
    let Ok(Some(triple)) = read_line_with(spare, line) else {
        return false;
    };
    let same = is_triple_of(alloc, line, &triple);
    spare.give_back(triple);
    same
}

const TRIPLES: [&str; 5] = [
    "<http://e/a> <http://e/p> \"a long string\" .",
    "_:b <http://e/p> \"x\"@EN .",
    "<http://e/a> <http://e/\\u0061> \"\\n\"^^<http://e/t> .",
    "<http://e/long> <http://e/p> _:c .",
    "_:b <http://e/p> \"x\"@EN .",
];

#[test]
fn lines_are_read_with_spare_texts(rt: HostRuntime) {
    let mut spare = SpareTexts::new(rt.alloc());
    for line in TRIPLES {
        assert!(rt;
            is_read_the_same(rt.alloc(), &mut spare, line.as_bytes()),
            "{line}"
        );
    }
}

fn is_iri_written(alloc: Global, iri: Text, spelling: &str) -> bool {
    match write_term(alloc, &Term::Iri(iri)) {
        Ok(text) => text.as_str() == spelling,
        Err(_) => false,
    }
}

#[test]
fn an_iri_is_written(rt: HostRuntime) -> Result<(), Fail> {
    let iri = Text::from_bytes(rt.alloc(), "http://e/\u{7f} {\u{e4}}".as_bytes())?;
    assert!(rt;
        is_iri_written(
            rt.alloc(),
            iri,
            "<http://e/\u{7f}\\u0020\\u007B\u{e4}\\u007D>"
        )
    );
    Ok(())
}

fn blank(label: Text) -> Term {
    Term::Blank(label)
}

// Whether a triple may have this subject.
fn is_subject(alloc: Global, subject: Term) -> bool {
    let Ok(Some(mut triple)) = read_line(alloc, b"_:a <http://e/p> <> .") else {
        return false;
    };
    triple.subject = subject;
    is_triple(&triple)
}

fn is_label(alloc: Global, label: &[u8]) -> Result<bool, Fail> {
    let label = Text::from_bytes(alloc, label)?;
    Ok(is_subject(alloc, blank(label)))
}

#[test]
fn a_triple_is_tested(rt: HostRuntime) -> Result<(), Fail> {
    assert!(rt; is_label(rt.alloc(), b"b.1")?);
    assert!(rt; !is_label(rt.alloc(), b"b.")?);
    Ok(())
}
