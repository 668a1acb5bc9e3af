// What stands on the command line, before it is judged.
ghost use Rattle.std.specs.Prelude.{◌≡◌, IfOk, map, option_map, string_bytes};
ghost use Rattle.clap.specs.Words.{first_of, found_of, rows_of};
ghost use Rattle.command_line.specs.SimpleCommands.{Matches};
ghost use Rattle.picture_run.specs.Words.{arguments_in, command, read};
ghost use Rattle.picture_run.specs.SettingsValues.{arguments_value};

use crate::rules::make_command;
use clap::ArgMatches;
use clap::error::ErrorKind;
use px_base::Memory;
use std::alloc::Global;

/// The text of each argument that is there.
#[derive(Drop)]
pub(crate) struct Arguments<'a> {
    pub(crate) graph: Option<&'a str>,
    pub(crate) graph_of: Option<&'a str>,
    pub(crate) blocks: Option<&'a str>,
    pub(crate) members: Option<&'a str>,
}

// What clap makes of the words; none where it refuses them. Running out of memory is no refusal.
fn matches<'a>(alloc: Global, words: &'a [String]) -> Result<Option<ArgMatches<'a>>, Memory>
    ensures { IfOk result (Matches command (map string_bytes words.entry.now)) }
{
    match make_command(alloc)?.try_get_matches_from(words) {
        Ok(matches) => Ok(Some(matches)),
        Err(error) => match error.kind() {
            ErrorKind::OutOfMemory => Err(Memory),
            _ => Ok(None),
        },
    }
}

// The first text of the argument.
fn text_of<'a>(matches: &ArgMatches<'a>, id: &str) -> Option<&'a str>
    ensures { option_map (λ t. t.now) result ≡ first_of id.now (rows_of (found_of matches.now)) }
{
    matches.get_str(id)
}

fn gather<'a>(matches: &ArgMatches<'a>) -> Arguments<'a>
    ensures { arguments_value result ≡ arguments_in (rows_of (found_of matches.now)) }
{
    Arguments {
        graph: text_of(matches, "graph"),
        graph_of: text_of(matches, "graph-of"),
        blocks: text_of(matches, "blocks"),
        members: text_of(matches, "members"),
    }
}

/// The arguments that the words say; none where clap refuses them.
pub(crate) fn read_arguments<'a>(
    alloc: Global,
    words: &'a [String],
) -> Result<Option<Arguments<'a>>, Memory>
    ensures { IfOk result (λ g. option_map arguments_value g ≡ read (map string_bytes words.entry.now)) }
{
    match matches(alloc, words)? {
        Some(matches) => Ok(Some(gather(&matches))),
        None => Ok(None),
    }
}
