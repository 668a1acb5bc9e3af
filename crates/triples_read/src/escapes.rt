// Escapes: characters by number or by letter, behind a backslash.
ghost use Rattle.std.specs.Prelude.{◌≡◌, ◌≤◌, Some, None, if◌then◌else◌};
ghost use Rattle.std.specs.Char.{digit_value};
ghost use Rattle.triples_read.specs.Characters.{is_hex};
ghost use Rattle.triples_read.specs.Terminals.{escape_of};
ghost use Rattle.triples_read.specs.ByteReaders.{hex_at, uchar_at, string_escape_at, scalar_of};
ghost use Rattle.triples_read.specs.ByteReaders.{with_len as with_len_of};

fn digit(b: u8) -> Option<u32>
    ensures { result ≡ (if is_hex b then Some (digit_value b) else None) }
{
    (b as char).to_digit(16)
}

// The number of the hexadecimal digits at the front.
fn hex(count: usize, bytes: &[u8]) -> Option<u32>
    requires { count ≤ 8 }
    ensures { result ≡ hex_at count 0 bytes.now }
{
    let mut n = 0;
    for i in 0..count {
        let Some(b) = bytes.get(i) else {
            return None;
        };
        let Some(d) = digit(*b) else {
            return None;
        };
        n = 16 * n + d;
    }
    Some(n)
}

fn scalar(code: Option<u32>) -> Option<char>
    ensures { result ≡ scalar_of code }
{
    char::from_u32(code?)
}

fn with_len(c: Option<char>, len: usize) -> Option<(char, usize)>
    ensures { result ≡ with_len_of len c }
{
    Some((c?, len))
}

/// The character of the UCHAR whose backslash was read, and its length with the backslash.
pub(crate) fn uchar(bytes: &[u8]) -> Option<(char, usize)>
    ensures { result ≡ uchar_at bytes.now }
{
    match bytes {
        [b'u', rest @ ..] => with_len(scalar(hex(4, rest)), 6),
        [b'U', rest @ ..] => with_len(scalar(hex(8, rest)), 10),
        _ => None,
    }
}

// The character of an ECHAR, by the byte behind its backslash.
fn echar(b: u8) -> Option<char>
    ensures { result ≡ escape_of b }
{
    match b {
        b't' => Some('\t'),
        b'b' => Some('\u{8}'),
        b'n' => Some('\n'),
        b'r' => Some('\r'),
        b'f' => Some('\u{c}'),
        b'"' => Some('"'),
        b'\'' => Some('\''),
        b'\\' => Some('\\'),
        _ => None,
    }
}

/// The character of the ECHAR or UCHAR whose backslash was read, and its length with the backslash.
pub(crate) fn string_escape(bytes: &[u8]) -> Option<(char, usize)>
    ensures { result ≡ string_escape_at bytes.now }
{
    let Some((first, _)) = bytes.split_first() else {
        return None;
    };
    match echar(*first) {
        Some(c) => Some((c, 2)),
        None => uchar(bytes),
    }
}
