// Labels and terms, short.
ghost use Rattle.std.specs.Prelude.{◌≡◌, ◌<◌, ◌≤◌, ◌++◌, OnOk, length};
ghost use Rattle.index_picture.specs.ShownNames as shown;
ghost use Rattle.index_picture.specs.ShownNames.{ends_part, continues, is_bracketed};

use px_base::Memory;
use triples_read::Term;

/// How many bytes of a text are shown at most, and how many of a longer one before two dots.
const MOST_SHOWN: usize = 24;

const MOST_CUT: usize = 22;

fn ends_part(b: u8) -> bool
    ensures { result ≡ ends_part b }
{
    b == b'#' || b == b'/'
}

fn continues(b: u8) -> bool
    ensures { result ≡ continues b }
{
    128 <= b && b < 192
}

// The place behind the last `#` or `/`.
fn part_place(text: &[u8]) -> usize
    ensures place { result ≡ shown.part_place text.now (length text.now) }
    ensures within { result ≤ length text.now }
{
    let mut n = text.len();
    while n > 0 {
        if ends_part(text[n - 1]) {
            return n;
        }
        n -= 1;
    }
    n
}

/// The part behind the last `#` or `/`, and the whole text where nothing is behind it. O(b) for b bytes, no memory.
pub(crate) fn last_part(text: &[u8]) -> &[u8]
    ensures { result.now ≡ shown.last_part text.now }
{
    let place = part_place(text);
    if place < text.len() {
        return &text[place..];
    }
    text
}

// The greatest place up to `most` at which a character begins.
fn cut_place(text: &[u8], most: usize) -> usize
    requires { most < length text.now }
    ensures place { result ≡ shown.cut_place text.now most }
    ensures within { result ≤ most }
{
    let mut n = most;
    while n > 0 {
        if !continues(text[n]) {
            return n;
        }
        n -= 1;
    }
    n
}

/// Appends the text, or the front of a long one and two dots. O(1), amortized.
pub(crate) fn push_short(out: &mut Vec<u8>, text: &[u8]) -> Result<(), Memory>
    ensures { OnOk result (out.new.items ≡ out.old.items ++ shown.shortened text.now) }
{
    if text.len() <= MOST_SHOWN {
        out.extend_from_slice(text)?;
        return Ok(());
    }
    let place = cut_place(text, MOST_CUT);
    out.extend_from_slice(&text[..place])?;
    out.extend_from_slice(b"..")?;
    Ok(())
}

fn is_bracketed(text: &[u8]) -> bool
    ensures { result ≡ is_bracketed text.now }
{
    2 <= text.len() && (text[0] == b'<' && text[text.len() - 1] == b'>')
}

// The text without the brackets of an IRI.
fn bare(text: &[u8]) -> &[u8]
    ensures { result.now ≡ shown.bare text.now }
{
    if is_bracketed(text) {
        return &text[1..text.len() - 1];
    }
    text
}

/// Appends a label as it is shown.
pub(crate) fn push_label(out: &mut Vec<u8>, label: &[u8]) -> Result<(), Memory>
    ensures { OnOk result (out.new.items ≡ out.old.items ++ shown.short_label label.now) }
{
    push_short(out, last_part(bare(label)))
}

/// Appends a term as it is shown.
pub(crate) fn push_term(out: &mut Vec<u8>, term: &Term) -> Result<(), Memory>
    ensures { OnOk result (out.new.items ≡ out.old.items ++ shown.term_name term.now) }
{
    match term {
        Term::Iri(iri) => push_short(out, last_part(iri.as_bytes())),
        Term::Blank(label) => push_short(out, label.as_bytes()),
        Term::Literal { text, .. } => push_short(out, text.as_bytes()),
    }
}
