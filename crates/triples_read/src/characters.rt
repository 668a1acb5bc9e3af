// Classes of characters, by the standard's names.
ghost use Rattle.std.specs.Prelude.{◌≡◌};
ghost use Rattle.graph_spec.specs.Words.{is_letter as letter};
ghost use Rattle.triples_read.specs.Characters.{from_to as is_from_to, is_digit as digit, is_letter_or_digit as letter_or_digit, pn_chars_base, pn_chars_u, pn_chars, label_first, is_iri_char, is_string_char};

fn from_to(low: u32, high: u32, c: u32) -> bool
    ensures { result ≡ is_from_to low high c }
{
    low <= c && c <= high
}

/// Whether the character is one of A to Z and a to z.
pub(crate) fn is_letter(c: u32) -> bool
    ensures { result ≡ letter c }
{
    from_to(65, 90, c) || from_to(97, 122, c)
}

fn is_digit(c: u32) -> bool
    ensures { result ≡ digit c }
{
    from_to(48, 57, c)
}

/// Whether the character is one of A to Z, a to z and 0 to 9.
pub(crate) fn is_letter_or_digit(c: u32) -> bool
    ensures { result ≡ letter_or_digit c }
{
    is_letter(c) || is_digit(c)
}

// PN_CHARS_BASE
fn is_base(c: u32) -> bool
    ensures { result ≡ pn_chars_base c }
{
    is_letter(c)
        || from_to(0xC0, 0xD6, c)
        || from_to(0xD8, 0xF6, c)
        || from_to(0xF8, 0x2FF, c)
        || from_to(0x370, 0x37D, c)
        || from_to(0x37F, 0x1FFF, c)
        || from_to(0x200C, 0x200D, c)
        || from_to(0x2070, 0x218F, c)
        || from_to(0x2C00, 0x2FEF, c)
        || from_to(0x3001, 0xD7FF, c)
        || from_to(0xF900, 0xFDCF, c)
        || from_to(0xFDF0, 0xFFFD, c)
        || from_to(0x10000, 0xEFFFF, c)
}

// PN_CHARS_U
fn is_base_or_sign(c: u32) -> bool
    ensures { result ≡ pn_chars_u c }
{
    is_base(c) || c == 95 || c == 58
}

/// Whether a label may hold the character anywhere but at its start: PN_CHARS.
pub(crate) fn is_label_char(c: char) -> bool
    ensures { result ≡ pn_chars c }
{
    let c = c as u32;
    is_base_or_sign(c)
        || c == 45
        || is_digit(c)
        || c == 0xB7
        || from_to(0x300, 0x36F, c)
        || from_to(0x203F, 0x2040, c)
}

/// Whether a label may begin with the character.
pub(crate) fn is_label_first(c: char) -> bool
    ensures { result ≡ label_first c }
{
    let c = c as u32;
    is_base_or_sign(c) || is_digit(c)
}

// For each byte: a bar where it doesn't stand for itself in an IRIREF, otherwise the byte itself, or a dot for DEL and
// for the bytes from 128 on.
static IRI_MAP: [u8; 256] = *b"\
    ||||||||||||||||||||||||||||||||\
    |!|#$%&'()*+,-./0123456789:;|=|?\
    @ABCDEFGHIJKLMNOPQRSTUVWXYZ[|]|_\
    |abcdefghijklmnopqrstuvwxyz|||~.\
    ................................\
    ................................\
    ................................\
    ................................";

/// Whether the byte of a text stands for itself in an IRIREF, by one read.
#[inline(always)]
pub(crate) fn is_iri_byte(b: u8) -> bool
    ensures { result ≡ is_iri_char b }
{
    IRI_MAP[b as usize] != b'|'
}

/// Whether the character stands for itself in an IRIREF.
pub(crate) fn stands_in_iri(c: char) -> bool
    ensures { result ≡ is_iri_char c }
{
    c > ' ' && !matches!(c, '<' | '>' | '"' | '{' | '}' | '|' | '^' | '`' | '\\')
}

/// Whether the character stands for itself in a string.
pub(crate) fn stands_in_string(c: char) -> bool
    ensures { result ≡ is_string_char c }
{
    !matches!(c, '"' | '\\' | '\n' | '\r')
}
