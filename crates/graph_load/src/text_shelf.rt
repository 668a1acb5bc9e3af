// One text in memory, as a file.
ghost use Rattle.std.specs.Prelude.{◌≡◌, [], ◌∷◌, Some, length, min, take, option_map, is_some, bytes_eq};
ghost use Rattle.graph_load.specs.TextFiles.{text_file};

use px_base::{Failed, Shelf};

/// The one file that there is, whose name is empty. It is observable, copies nothing, and no call fails.
///
///     let mut shelf = TextShelf::new(b"<x:ana> <x:knows> <x:bo> .\n");
///     let graph = load(alloc, &mut shelf, "", &Limits::program())?;
#[derive(Drop)]
pub struct TextShelf<'a> {
    text: &'a [u8],
    /// What is left to read, if the file is open.
    rest: Option<&'a [u8]>,
}

impl<'a> TextShelf<'a> {
    /// The file is open at first, and all of it is left. O(1), no memory.
    pub fn new(text: &'a [u8]) -> TextShelf<'a>
        ensures text { result.text.now ≡ text.now }
        ensures rest { option_map (λ t. t.now) result.rest ≡ Some text.now }
    {
        TextShelf {
            text,
            rest: Some(text),
        }
    }
}

/// Whether the name is empty.
fn is_unnamed(name: &str) -> bool
    ensures { result ≡ bytes_eq [] name.now }
{
    name.is_empty()
}

/// Copies the first bytes, as many as fit, and answers how many.
fn copy_prefix(bytes: &[u8], buf: &mut [u8]) -> usize
    ensures count { result ≡ min (length bytes.now) (length buf.old) }
    ensures len { length buf.new ≡ length buf.old }
    ensures prefix { take result buf.new ≡ take result bytes.now }
{
    let count = bytes.len().min(buf.len());
    buf[..count].copy_from_slice(&bytes[..count]);
    count
}

impl<'a> Shelf for TextShelf<'a> {
    ghost files = { λ s. Some (text_file s.text.now ∷ []) };

    ghost is_open = { λ s. is_some s.rest };

    ghost left = { λ s. option_map (λ t. t.now) s.rest };

    ghost faults = { λ _. 0 };

    fn open(&mut self, name: &str) -> Result<bool, Failed> {
        if is_unnamed(name) {
            self.rest = Some(self.text);
            Ok(true)
        } else {
            self.rest = None;
            Ok(false)
        }
    }

    fn read(&mut self, buf: &mut [u8]) -> Result<usize, Failed> {
        let Some(rest) = self.rest else {
            unreachable!()
        };
        let count = copy_prefix(rest, buf);
        self.rest = Some(&rest[count..]);
        Ok(count)
    }
}
