// Each form once, with ample memory.
use super::*;
use px_base::Memory;
use std::alloc::Global;
use std::process::Abort;
use std::test::Fail;

/// What the words ask for; blanks part the words.
fn is_read_as(alloc: Global, line: &str, form: Form) -> Result<bool, Memory> {
    let mut words: Vec<String> = Vec::new(alloc);
    for word in line.split(' ') {
        words.push(String::from_str(alloc, word)?)?;
    }
    Ok(read_words(alloc, &words)? == form)
}

fn run<'a>(graph: Option<&'a str>, k: u32) -> Form<'a> {
    Form::Run(Settings {
        script: "s",
        graph,
        k,
        without_one: false,
        without_fb: false,
        with_bk: false,
    })
}

fn run_flagged<'a>(without_one: bool, without_fb: bool, with_bk: bool) -> Form<'a> {
    Form::Run(Settings {
        script: "s",
        graph: None,
        k: 2,
        without_one,
        without_fb,
        with_bk,
    })
}

#[test]
fn plain_words_name_a_script(rt: HostRuntime) -> Result<(), Fail> {
    let rows = [
        ("s", run(None, 2)),
        ("s --graph g", run(Some("g"), 2)),
        ("s --k 0", run(None, 0)),
        ("s --graph g --k 8", run(Some("g"), 8)),
        ("--graph g s", run(Some("g"), 2)),
        ("s --without-one", run_flagged(true, false, false)),
        (
            "s --without-one --without-fb",
            run_flagged(true, true, false),
        ),
        ("s --with-bk --k 2", run_flagged(false, false, true)),
        ("--make 7", Form::Make(7)),
        ("--check f", Form::Check("f")),
    ];
    for (line, form) in rows {
        assert!(rt; is_read_as(rt.alloc(), line, form)?, "at {line}");
    }
    Ok(())
}

#[test]
fn other_words_are_malformed(rt: HostRuntime) -> Result<(), Fail> {
    for line in [
        "--k 2",
        "s --k 9",
        "s t",
        "--make 1 s",
        "--make 99999999999999999999",
        "--check f s",
        "--make 1 --check f",
    ] {
        assert!(rt; is_read_as(rt.alloc(), line, Form::Neither)?, "at {line}");
    }
    Ok(())
}
