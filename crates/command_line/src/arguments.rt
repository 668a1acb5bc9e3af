// What stands on the command line, before it is judged.
ghost use Rattle.std.specs.Prelude.{◌≡◌, IfOk, map, option_map, string_bytes};
ghost use Rattle.clap.specs.Words.{first_of, found_of, rows_of};
ghost use Rattle.command_line.specs.SimpleCommands.{Matches};
ghost use Rattle.command_line.specs.Words.{arguments_in, command, is_set, read};
ghost use Rattle.command_line.specs.FormValues.{arguments_value};

use crate::rules::make_command;
use clap::ArgMatches;
use clap::error::ErrorKind;
use px_base::Memory;
use std::alloc::Global;

/// The text of each argument that is there, and which flags are.
#[derive(Drop)]
pub(crate) struct Arguments<'a> {
    pub(crate) script: Option<&'a str>,
    pub(crate) graph: Option<&'a str>,
    pub(crate) k: Option<&'a str>,
    pub(crate) make: Option<&'a str>,
    pub(crate) check: Option<&'a str>,
    pub(crate) without_one: bool,
    pub(crate) without_fb: bool,
    pub(crate) with_bk: bool,
}

// What clap makes of the words; none where it refuses them. Running out of memory is no refusal.
fn matches<'a>(alloc: Global, words: &'a [String]) -> Result<Option<ArgMatches<'a>>, Memory>
    ensures { IfOk result (Matches command (map string_bytes words.entry.now)) }
{
    match make_command(alloc)?.try_get_matches_from(words) {
        Ok(matches) => Ok(Some(matches)),
        Err(error) => match error.kind() {
            ErrorKind::OutOfMemory => Err(Memory),
            _ => Ok(None),
        },
    }
}

// The first text of the argument.
fn text_of<'a>(matches: &ArgMatches<'a>, id: &str) -> Option<&'a str>
    ensures { option_map (λ t. t.now) result ≡ first_of id.now (rows_of (found_of matches.now)) }
{
    matches.get_str(id)
}

// Whether the flag is there.
fn has_flag<'a>(matches: &ArgMatches<'a>, id: &str) -> bool
    ensures { result ≡ is_set (first_of id.now (rows_of (found_of matches.now))) }
{
    match text_of(matches, id) {
        Some(text) => text == "true",
        None => false,
    }
}

fn gather<'a>(matches: &ArgMatches<'a>) -> Arguments<'a>
    ensures { arguments_value result ≡ arguments_in (rows_of (found_of matches.now)) }
{
    Arguments {
        script: text_of(matches, "script"),
        graph: text_of(matches, "graph"),
        k: text_of(matches, "k"),
        make: text_of(matches, "make"),
        check: text_of(matches, "check"),
        without_one: has_flag(matches, "without-one"),
        without_fb: has_flag(matches, "without-fb"),
        with_bk: has_flag(matches, "with-bk"),
    }
}

/// The arguments that the words say; none where clap refuses them.
pub(crate) fn read_arguments<'a>(
    alloc: Global,
    words: &'a [String],
) -> Result<Option<Arguments<'a>>, Memory>
    ensures { IfOk result (λ g. option_map arguments_value g ≡ read (map string_bytes words.entry.now)) }
{
    match matches(alloc, words)? {
        Some(matches) => Ok(Some(gather(&matches))),
        None => Ok(None),
    }
}
