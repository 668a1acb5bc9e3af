// How deep brackets nest.
ghost use Rattle.std.specs.Prelude.{◌≡◌, ◌≤◌, ◌<◌, ◌+◌, ◌^◌, max, length};
ghost use Rattle.path_query.specs.Depths.{nesting, opens, closes};

/// How many brackets were opened and closed, and whether the place stands between `<` and `>`.
#[derive(Clone, Copy)]
pub struct Nesting {
    pub opened: usize,
    pub closed: usize,
    pub quoted: bool,
}

fn opens(byte: u8) -> bool
    ensures { result ≡ opens byte }
{
    byte == b'(' || byte == b'['
}

fn closes(byte: u8) -> bool
    ensures { result ≡ closes byte }
{
    byte == b')' || byte == b']'
}

impl Nesting {
    ghost use Rattle.path_query.specs.Depths.{next};

    /// One byte more.
    pub(crate) fn next(self, byte: u8) -> Nesting
        requires opened { self.opened < 2 ^ 63 }
        requires closed { self.closed < 2 ^ 63 }
        ensures next { result ≡ next self byte }
        ensures opened { result.opened ≤ self.opened + 1 }
        ensures closed { result.closed ≤ self.closed + 1 }
    {
        let mut n = self;
        if n.quoted {
            n.quoted = byte != b'>';
        } else if byte == b'<' {
            n.quoted = true;
        } else if opens(byte) {
            n.opened += 1;
        } else if closes(byte) {
            n.closed += 1;
        }
        n
    }
}
/// The most brackets that are open at one place of the text. Linear in the text.
pub(crate) fn depth_of(text: &[u8]) -> usize
    ensures { result ≡ nesting text.now }
{
    let mut nesting = Nesting {
        opened: 0,
        closed: 0,
        quoted: false,
    };
    let mut most = 0usize;
    for byte in text {
        most = most.max(nesting.opened.saturating_sub(nesting.closed));
        nesting = nesting.next(*byte);
    }
    most.max(nesting.opened.saturating_sub(nesting.closed))
}
