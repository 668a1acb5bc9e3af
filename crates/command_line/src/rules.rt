// What clap is told of the command line.
ghost use Rattle.std.specs.Prelude.{◌≡◌, IfOk, codes, false};
ghost use Rattle.clap.specs.Words.{app_of, new_rule, rule_of, with_rule};
ghost use Rattle.command_line.specs.SimpleCommands.{option_rule};
ghost use Rattle.command_line.specs.Words.{bare, command, flag_rule, options, texts};

use clap::{Arg, ArgAction, Command};
use std::alloc::{AllocError, Global};

// An option with one text. Its name is its id, and with two hyphens its word.
fn text_option<'a>(alloc: Global, name: &'a str) -> Arg<'a>
    ensures rule { rule_of result ≡ option_rule name.entry.now }
    ensures local { result.global ≡ false }
{
    Arg::new(alloc, name).long(name)
}

// A flag, named in the same way.
fn flag<'a>(alloc: Global, name: &'a str) -> Arg<'a>
    ensures rule { rule_of result ≡ flag_rule name.entry.now }
    ensures local { result.global ≡ false }
{
    Arg::new(alloc, name).long(name).action(ArgAction::SetTrue)
}

// The script alone, which is no option.
fn script_command<'a>(alloc: Global) -> Result<Command<'a>, AllocError>
    ensures { IfOk result (λ c. app_of c ≡ with_rule bare (new_rule (codes "script"))) }
{
    let script = Arg::new(alloc, "script");
    Command::new(alloc, "pathindex")
        .no_binary_name(true)
        .arg(script)
}

// The script and the options with a text.
fn text_command<'a>(alloc: Global) -> Result<Command<'a>, AllocError>
    ensures { IfOk result (λ c. app_of c ≡ texts) }
{
    script_command(alloc)?
        .arg(text_option(alloc, "graph"))?
        .arg(text_option(alloc, "k"))
}

// The options that name a seed and a file to check too.
fn option_command<'a>(alloc: Global) -> Result<Command<'a>, AllocError>
    ensures { IfOk result (λ c. app_of c ≡ options) }
{
    text_command(alloc)?
        .arg(text_option(alloc, "make"))?
        .arg(text_option(alloc, "check"))
}

// The whole command. Neither its script nor an option is required, and no rule ties them together.
pub(crate) fn make_command<'a>(alloc: Global) -> Result<Command<'a>, AllocError>
    ensures { IfOk result (λ c. app_of c ≡ command) }
{
    option_command(alloc)?
        .arg(flag(alloc, "without-one"))?
        .arg(flag(alloc, "without-fb"))?
        .arg(flag(alloc, "with-bk"))
}
