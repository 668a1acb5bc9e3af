// What the command line asks for.
ghost use Rattle.std.specs.Prelude.{◌≡◌, IfOk, None, Some, false, map, option_map, string_bytes};
ghost use Rattle.std.specs.Char.{is_ascii_digit};
ghost use Rattle.std.specs.List.{list_all};
ghost use Rattle.command_line.specs.Forms.{neither, HasLevel};
ghost use Rattle.command_line.specs.Arguments.{form_beside, arguments_form, form_with, level_or_default as level_of_text, level_of as level_in};
ghost use Rattle.command_line.specs.Arguments.{has_others as others_in, is_numeral as numeral_in, seed_of as seed_in};
ghost use Rattle.command_line.specs.Words.{form_of as form_said, form_read, is_accepted};
ghost use Rattle.command_line.specs.FormValues.{form_value, arguments_value, IsReadAs};
ghost use Rattle.command_line.specs.Usage.{HasPlain, HasPlainTexts, Order, ScriptUsage, Usage, arguments_by, only_texts, words_in, words_of};

use crate::arguments::{Arguments, read_arguments};
use px_base::Memory;
use std::alloc::Global;

/// What a script is run with.
#[derive(Clone, Copy, Debug, PartialEq, Eq)]
pub struct Settings<'a> {
    /// The name of the script's file.
    pub script: &'a str,
    /// The name of the graph's file, if one is loaded before the script.
    pub graph: Option<&'a str>,
    /// The highest level of the A(k)-indexes and the bounded forward and backward indexes that are kept, from 0 to 8.
    pub k: u32,
    /// Whether no 1-index is kept.
    pub without_one: bool,
    /// Whether no forward and backward index is kept.
    pub without_fb: bool,
    /// Whether the bounded forward and backward indexes are kept.
    pub with_bk: bool,
}

/// What the words of the command line ask for.
///
/// The name of the script, where one is to be run:
///
///     if let Form::Run(settings) = read_words(alloc, words)? {
///         take(settings.script);
///     }
#[derive(Clone, Copy, Debug, PartialEq, Eq)]
pub enum Form<'a> {
    /// A script is run.
    Run(Settings<'a>),
    /// The texts that are made from this seed are run.
    Make(u64),
    /// The index file of this name is checked.
    Check(&'a str),
    /// The words are malformed.
    Neither,
}

// The level that the text names: one of the words `0` to `8`.
fn level_of(text: &str) -> Option<u32>
    ensures { result ≡ level_in text.now }
{
    match text.as_bytes() {
        [byte] if b'0' <= *byte && *byte <= b'8' => Some((*byte - b'0') as u32),
        _ => None,
    }
}

// The level of the option's text, and 2 where the option isn't there.
fn level_or_default(text: Option<&str>) -> Option<u32>
    ensures { result ≡ level_of_text (option_map (λ t. t.now) text.entry) }
{
    match text {
        Some(text) => level_of(text),
        None => Some(2),
    }
}

fn run_with<'a>(arguments: &Arguments<'a>) -> Form<'a>
    ensures { form_value result ≡ form_with None (arguments_value arguments.now) }
{
    let Some(script) = arguments.script else {
        return Form::Neither;
    };
    match level_or_default(arguments.k) {
        Some(k) => Form::Run(Settings {
            script,
            graph: arguments.graph,
            k,
            without_one: arguments.without_one,
            without_fb: arguments.without_fb,
            with_bk: arguments.with_bk,
        }),
        None => Form::Neither,
    }
}

fn are_digits(bytes: &[u8]) -> bool
    ensures { result ≡ list_all is_ascii_digit bytes.now }
{
    bytes.iter().all(u8::is_ascii_digit)
}

// Whether the text is a numeral of at most 20 digits, as each number of 64 bits has one.
fn is_numeral(text: &str) -> bool
    ensures { result ≡ numeral_in text.now }
{
    1 <= text.len() && text.len() <= 20 && are_digits(text.as_bytes())
}

// The seed that the text names: a number of 64 bits in decimal.
fn seed_of(text: &str) -> Option<u64>
    ensures { result ≡ seed_in text.now }
{
    if !is_numeral(text) {
        return None;
    }
    match text.parse::<u64>() {
        Ok(seed) => Some(seed),
        Err(_) => None,
    }
}

// Whether anything other than a seed and a file to check is given.
fn has_others(arguments: &Arguments) -> bool
    ensures { result ≡ others_in (arguments_value arguments.now) }
{
    arguments.script.is_some()
        || arguments.graph.is_some()
        || arguments.k.is_some()
        || arguments.without_one
        || arguments.without_fb
        || arguments.with_bk
}

fn make_with<'a>(arguments: &Arguments<'a>, text: &str) -> Form<'a>
    ensures { form_value result ≡ form_with (Some text.now) (arguments_value arguments.now) }
{
    if has_others(arguments) {
        return Form::Neither;
    }
    match seed_of(text) {
        Some(seed) => Form::Make(seed),
        None => Form::Neither,
    }
}

fn make_or_run<'a>(arguments: &Arguments<'a>) -> Form<'a>
    ensures { form_value result ≡ form_beside None (arguments_value arguments.now) }
{
    match arguments.make {
        Some(text) => make_with(arguments, text),
        None => run_with(arguments),
    }
}

fn check_with<'a>(arguments: &Arguments<'a>, file: &'a str) -> Form<'a>
    ensures { form_value result ≡ form_beside (Some file.now) (arguments_value arguments.now) }
{
    if arguments.make.is_some() || has_others(arguments) {
        return Form::Neither;
    }
    Form::Check(file)
}

fn form_of<'a>(arguments: &Arguments<'a>) -> Form<'a>
    ensures { form_value result ≡ arguments_form (arguments_value arguments.now) }
{
    match arguments.check {
        Some(file) => check_with(arguments, file),
        None => make_or_run(arguments),
    }
}

fn judge<'a>(arguments: Option<Arguments<'a>>) -> Form<'a>
    ensures { form_value result ≡ form_read (option_map arguments_value arguments.entry) }
{
    match arguments {
        Some(arguments) => form_of(&arguments),
        None => Form::Neither,
    }
}

/// What the words after the program's name ask for:
/// `SCRIPT [--graph FILE] [--k N] [--without-one] [--without-fb] [--with-bk]`, where N is one of the words `0` to `8`, and 2 where the option
/// isn't there; `--make SEED`, where SEED is 1 to 20 decimal digits of a number below 2^64; or `--check FILE`. The words are those that
/// `clap` reads for this command. Whatever it refuses is malformed, and so is a call for help. O(b) for words of b bytes; it takes memory
/// for `clap`'s table of the options and for what it reads into it.
pub fn read_words<'a>(alloc: Global, words: &'a [String]) -> Result<Form<'a>, Memory>
    ensures exact { IfOk result (λ f. form_value f ≡ form_said (map string_bytes words.entry.now)) }
    // The words of the usage line, with texts that aren't empty and don't begin with a hyphen, give those texts.
    ensures plain { (u : Usage) → map string_bytes words.entry.now ≡ words_of u → HasPlainTexts u → IsReadAs result (arguments_by u) }
    // So do those of a script without flags in another order.
    ensures reordered { (u : ScriptUsage) (o : Order) → map string_bytes words.entry.now ≡ words_in o u → HasPlain u → IsReadAs result (only_texts u) }
    ensures refused { is_accepted (map string_bytes words.entry.now) ≡ false → IfOk result (λ f. form_value f ≡ neither) }
    ensures level { IfOk result (λ f. HasLevel (form_value f)) }
{
    let arguments = read_arguments(alloc, words)?;
    Ok(judge(arguments))
}
