// What the words of the command line ask for.
ghost use Rattle.std.specs.Prelude.{◌≡◌, IfOk, IfSome, map, option_map, string_bytes};
ghost use Rattle.std.specs.Char.{is_ascii_digit};
ghost use Rattle.std.specs.List.{list_all};
ghost use Rattle.picture_run.specs.Settings.{AreWithin, family_named, index_named, level_named, number_named, number_within, arguments_settings};
ghost use Rattle.picture_run.specs.Settings.{is_numeral as numeral_named, number_or as number_or_own, settings_with as settings_in};
ghost use Rattle.picture_run.specs.Settings.{via_named, via_or_default as via_of_text};
ghost use Rattle.picture_run.specs.SettingsValues.{arguments_value, settings_value};
ghost use Rattle.picture_run.specs.Words.{settings_of as settings_said, settings_read};

use crate::arguments::{Arguments, read_arguments};
use index_api::Via;
use px_base::Memory;
use std::alloc::Global;

/// What is drawn.
#[derive(Clone, Copy)]
pub(crate) struct Settings<'a> {
    /// The name of the graph's file.
    pub(crate) file: &'a str,
    /// The graph itself, or the index.
    pub(crate) via: Via,
    /// How many blocks at most, from 1 to 200.
    pub(crate) blocks: u32,
    /// How many nodes of each are named at most, from 1 to 50.
    pub(crate) members: u32,
}

// The level that a digit names, from 0 to 8.
fn level_of(digit: u8) -> Option<u32>
    ensures { result ≡ level_named digit }
{
    if b'0' <= digit && digit <= b'8' {
        Some((digit - b'0') as u32)
    } else {
        None
    }
}

// The index of that level in a family, by the letter of the family.
fn index_of(letter: u8, level: Option<u32>) -> Option<Via>
    ensures { result ≡ index_named letter level }
{
    let Some(level) = level else {
        return None;
    };
    if letter == b'a' {
        Some(Via::A(level))
    } else if letter == b'b' {
        Some(Via::B(level))
    } else {
        None
    }
}

// What the text names: `a0` to `a8` or `b0` to `b8`.
fn family_via(text: &str) -> Option<Via>
    ensures { result ≡ family_named text.now }
{
    match text.as_bytes() {
        [letter, digit] => index_of(*letter, level_of(*digit)),
        _ => None,
    }
}

// What the text names: `data`, `a0` to `a8`, `one`, `fb`, or `b0` to `b8`.
fn via_of(text: &str) -> Option<Via>
    ensures { result ≡ via_named text.now }
{
    if text == "data" {
        Some(Via::Data)
    } else if text == "one" {
        Some(Via::One)
    } else if text == "fb" {
        Some(Via::Fb)
    } else {
        family_via(text)
    }
}

fn via_or_default(text: Option<&str>) -> Option<Via>
    ensures { result ≡ via_of_text (option_map (λ t. t.now) text.entry) }
{
    match text {
        Some(text) => via_of(text),
        None => Some(Via::A(1)),
    }
}

fn are_digits(bytes: &[u8]) -> bool
    ensures { result ≡ list_all is_ascii_digit bytes.now }
{
    bytes.iter().all(u8::is_ascii_digit)
}

// Whether the text is a numeral of at most 20 digits.
fn is_numeral(text: &str) -> bool
    ensures { result ≡ numeral_named text.now }
{
    1 <= text.len() && text.len() <= 20 && are_digits(text.as_bytes())
}

// The number, if it is one from 1 to `most`.
fn within(most: u32, n: u32) -> Option<u32>
    ensures { result ≡ number_within most n }
{
    if 1 <= n && n <= most { Some(n) } else { None }
}

// The number that the text names, from 1 to `most`.
fn number_of(most: u32, text: &str) -> Option<u32>
    ensures { result ≡ number_named most text.now }
{
    if !is_numeral(text) {
        return None;
    }
    match text.parse::<u32>() {
        Ok(n) => within(most, n),
        Err(_) => None,
    }
}

// That number, and `own` where no text is given.
fn number_or(most: u32, own: u32, text: Option<&str>) -> Option<u32>
    ensures { result ≡ number_or_own most own (option_map (λ t. t.now) text.entry) }
{
    match text {
        Some(text) => number_of(most, text),
        None => Some(own),
    }
}

// The settings, where each of them is there.
fn settings_with<'a>(
    file: &'a str,
    via: Option<Via>,
    blocks: Option<u32>,
    members: Option<u32>,
) -> Option<Settings<'a>>
    ensures { option_map settings_value result ≡ settings_in file.entry.now via blocks members }
{
    let Some(via) = via else {
        return None;
    };
    let Some(blocks) = blocks else {
        return None;
    };
    match members {
        Some(members) => Some(Settings {
            file,
            via,
            blocks,
            members,
        }),
        None => None,
    }
}

fn settings_of<'a>(arguments: &Arguments<'a>) -> Option<Settings<'a>>
    ensures { option_map settings_value result ≡ arguments_settings (arguments_value arguments.now) }
{
    match arguments.graph {
        Some(file) => settings_with(
            file,
            via_or_default(arguments.graph_of),
            number_or(200, 20, arguments.blocks),
            number_or(50, 3, arguments.members),
        ),
        None => None,
    }
}

fn judge<'a>(arguments: Option<Arguments<'a>>) -> Option<Settings<'a>>
    ensures { option_map settings_value result ≡ settings_read (option_map arguments_value arguments.entry) }
{
    match arguments {
        Some(arguments) => settings_of(&arguments),
        None => None,
    }
}

/// What the words after the program's name ask for; none where they are malformed. The words are those that `clap` reads for this
/// command. Whatever it refuses is malformed, and so is a call for help.
pub(crate) fn read_words<'a>(
    alloc: Global,
    words: &'a [String],
) -> Result<Option<Settings<'a>>, Memory>
    ensures exact { IfOk result (λ s. option_map settings_value s ≡ settings_said (map string_bytes words.entry.now)) }
    ensures within { IfOk result (λ s. IfSome s (λ t. AreWithin (settings_value t))) }
{
    let arguments = read_arguments(alloc, words)?;
    Ok(judge(arguments))
}
