// What clap is told of the command line.
ghost use Rattle.std.specs.Prelude.{◌≡◌, IfOk, codes, false};
ghost use Rattle.clap.specs.Words.{app_of, new_rule, rule_of, with_rule};
ghost use Rattle.command_line.specs.SimpleCommands.{option_rule};
ghost use Rattle.picture_run.specs.Words.{bare, command, graphs};

use clap::{Arg, Command};
use std::alloc::{AllocError, Global};

// An option with one text. Its name is its id, and with two hyphens its word.
fn text_option<'a>(alloc: Global, name: &'a str) -> Arg<'a>
    ensures rule { rule_of result ≡ option_rule name.entry.now }
    ensures local { result.global ≡ false }
{
    Arg::new(alloc, name).long(name)
}

// The graph file alone, which is no option.
fn file_command<'a>(alloc: Global) -> Result<Command<'a>, AllocError>
    ensures { IfOk result (λ c. app_of c ≡ with_rule bare (new_rule (codes "graph"))) }
{
    let graph = Arg::new(alloc, "graph");
    Command::new(alloc, "pathindex_dot")
        .no_binary_name(true)
        .arg(graph)
}

// The graph file, and the option that says what is drawn of it.
fn graph_command<'a>(alloc: Global) -> Result<Command<'a>, AllocError>
    ensures { IfOk result (λ c. app_of c ≡ graphs) }
{
    file_command(alloc)?.arg(text_option(alloc, "graph-of"))
}

// The whole command. Neither its file nor an option is required, and no rule ties them together.
pub(crate) fn make_command<'a>(alloc: Global) -> Result<Command<'a>, AllocError>
    ensures { IfOk result (λ c. app_of c ≡ command) }
{
    graph_command(alloc)?
        .arg(text_option(alloc, "blocks"))?
        .arg(text_option(alloc, "members"))
}
