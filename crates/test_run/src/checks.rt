// Index files that are checked.
use crate::runs::{Given, ends};
use px_base::Memory;
use std::alloc::Global;

/// Three nodes and an edge, with all views but the last line.
const SHORT: &str = "pathindex 1
given 3 k 2
live a
live b
live a
edges 1
0 1
views 5
view a0
0
1
0
view a1
0
1
0
view a2
0
1
0
view one
0
1
0
view fb
0
1
";

/// The file `g` is checked, where it is there. The calls of these numbers on the shelf and on the sink fail, 0 for none.
fn check<'a>(content: Option<&'a str>, failing: (u32, u32)) -> Given<'a> {
    Given {
        words: &["--check", "g"],
        script: None,
        graph: content,
        failing,
        has_all: true,
    }
}

/// Files, what is written, and the status.
const FILES: &[(Option<&str>, &str, u8)] = &[
    (Some(SHORT), "index 28 syntax\n", 3),
    (Some(""), "index 1 syntax\n", 3),
    (
        Some("pathindex 1\ngiven 2097153 k 9\n"),
        "index 2 limit\n",
        3,
    ),
    (
        Some("pathindex 1\rgiven 0 k 8\r\nedges 0\nviews 0"),
        "fits\n",
        0,
    ),
    (None, "", 5),
];

#[test]
fn index_files_are_checked(rt: HostRuntime) {
    for (content, output, status) in FILES {
        assert!(rt;
            ends(rt.alloc(), check(*content, (0, 0)), output, *status),
            "{content:?}"
        );
    }
    let empty = Some("pathindex 1\ngiven 0 k 0\nedges 0\nviews 0\n");
    assert!(rt; ends(rt.alloc(), check(empty, (2, 0)), "", 5));
    assert!(rt; ends(rt.alloc(), check(empty, (0, 2)), "fit", 6));
}

/// The lines above with another last line, what is written, and the status.
const LAST: &[(&str, &str, u8)] = &[
    ("2", "fits\n", 0),
    ("2\n", "fits\n", 0),
    ("0\n", "view fb differs\n", 8),
    ("1\n", "view fb differs\n", 8),
    ("3\n", "index 28 syntax\n", 3),
    ("2\n\n", "index 29 syntax\n", 3),
];

#[test]
fn last_lines_decide(rt: HostRuntime) {
    for (line, output, status) in LAST {
        assert!(rt; ends_with(rt.alloc(), line, output, *status), "{line}");
    }
}

/// Whether a check of the lines with that one behind them ends so.
fn ends_with(alloc: Global, line: &str, output: &str, status: u8) -> bool {
    match whole(alloc, line) {
        Ok(text) => ends(alloc, check(Some(text.as_str()), (0, 0)), output, status),
        Err(_) => false,
    }
}

fn whole(alloc: Global, line: &str) -> Result<String, Memory> {
    let mut text = String::from_str(alloc, SHORT)?;
    text.push_str(line)?;
    Ok(text)
}
