// A script as the file `s`, and the words that name it.

use px_base::Text;
use std::alloc::Global;

/// The script as the one file `s`.
pub(crate) fn script_file(alloc: Global, script: &str) -> Option<Vec<(Text, Vec<u8>)>> {
    let name = Text::from_bytes(alloc, b"s").ok()?;
    let bytes = script.as_bytes().to_vec(alloc).ok()?;
    let mut files = Vec::new(alloc);
    files.push((name, bytes)).ok()?;
    Some(files)
}

/// The words `s` alone.
pub(crate) fn script_words(alloc: Global) -> Option<Vec<String>> {
    let mut words = Vec::new(alloc);
    words.push(String::from_str(alloc, "s").ok()?).ok()?;
    Some(words)
}
