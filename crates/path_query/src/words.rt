// Blanks, and the words between them.
ghost use Rattle.std.specs.Prelude.{◌≡◌, ◌≤◌, ◌-◌, length, take, drop};
ghost use Rattle.std.specs.List.{position_or_len, prefix_len, suffix_len};
ghost use Rattle.graph_spec.specs.Words.{is_blank};

fn is_blank(byte: u8) -> bool
    ensures { result ≡ is_blank byte }
{
    byte == b' ' || byte == b'\t'
}

/// How many blanks stand before the first other byte.
fn blanks_len(bytes: &[u8]) -> usize
    ensures count { result ≡ prefix_len is_blank bytes.now }
    ensures within { result ≤ length bytes.now }
{
    bytes.iter().take_while(|byte| is_blank(**byte)).count()
}

/// How many blanks stand behind the last other byte.
fn end_blanks_len(bytes: &[u8]) -> usize
    ensures count { result ≡ suffix_len is_blank bytes.now }
    ensures within { result ≤ length bytes.now }
{
    bytes
        .iter()
        .rev()
        .take_while(|byte| is_blank(**byte))
        .count()
}

/// How many bytes stand before the first blank.
fn word_len(bytes: &[u8]) -> usize
    ensures place { result ≡ position_or_len is_blank bytes.now }
    ensures within { result ≤ length bytes.now }
{
    bytes.iter().take_while(|byte| !is_blank(**byte)).count()
}

/// The bytes from the first that is no blank. O(n) for n leading blanks, no memory.
pub fn skip_blanks(bytes: &[u8]) -> &[u8]
    ensures { result.now ≡ drop (prefix_len is_blank bytes.now) bytes.now }
{
    &bytes[blanks_len(bytes)..]
}

/// The bytes up to the last that is no blank. O(n) for n blanks at the end, no memory.
pub fn trim_end_blanks(bytes: &[u8]) -> &[u8]
    ensures { result.now ≡ take (length bytes.now - suffix_len is_blank bytes.now) bytes.now }
{
    &bytes[..bytes.len() - end_blanks_len(bytes)]
}

/// The bytes before the first blank, and from it on. O(n) for n bytes before it, no memory.
pub fn split_word(bytes: &[u8]) -> (&[u8], &[u8])
    ensures word { result.0.now ≡ take (position_or_len is_blank bytes.now) bytes.now }
    ensures rest { result.1.now ≡ drop (position_or_len is_blank bytes.now) bytes.now }
{
    bytes.split_at(word_len(bytes))
}
