//! Lines of RDF 1.1 N-Triples: read exactly as the grammar spells them, and written in one canonical spelling.
#![tactic(auto)]

mod blanks;
mod characters;
mod escapes;
mod iri;
mod labels;
mod line;
mod literal;
mod quoted;
mod spare;
mod tags;
mod term;
mod triple_test;
mod writing;

pub use iri::read_iri_prefix;
pub use line::{LineError, read_line, read_line_with};
pub use spare::SpareTexts;
pub use term::{Term, Triple, is_xsd_string};
pub use triple_test::is_triple;
pub use writing::{write_term, write_triple};
