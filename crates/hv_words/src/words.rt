//! Reading the words of a call.
ghost use Rattle.std.specs.Prelude.{◌≡◌, ◌∷◌, List, ℕ, None, Some, IfOk, true, [], codes, map, option_and_then, option_map, unwrap_or};
ghost use Rattle.std.specs.Str.{bytes_eq};
ghost use Rattle.std.specs.String.{string_bytes};
ghost use Rattle.clap.specs.Words.{app_of, first_of, first_value, found_of, is_simple_and_free, rows_of, App, Row};
ghost use Rattle.hv_words.specs.Commands.{command_named, command_of, encode, options, variant, config_in, folders_of, meaning_of, sources_meant, sources_of, values_of};
ghost use Rattle.hv_words.specs.Descriptions as described;

use crate::command::{Command, Sources};
use crate::description;
use crate::folders::split_folders;
use clap::error::ErrorKind;
use clap::{ArgMatches, Command as Description};
use hv_base::Memory;
use std::alloc::Global;

/// The values that the words of a command of this description give; `None` where it refuses them.
fn matches<'a>(
    description: Description<'a>,
    words: &'a [String],
) -> Result<Option<ArgMatches<'a>>, Memory>
    requires { is_simple_and_free (app_of description) ≡ true }
    ensures { IfOk result (λ found. option_map (λ m. rows_of (found_of m)) found
        ≡ values_of (app_of description.entry) (map string_bytes words.now)) }
{
    match description.try_get_matches_from(words) {
        Ok(matches) => Ok(Some(matches)),
        Err(error) => match error.kind() {
            ErrorKind::OutOfMemory => Err(Memory),
            _ => Ok(None),
        },
    }
}

/// A copy of the value of an option or a positional, if there is one.
fn value(alloc: Global, matches: &ArgMatches, id: &str) -> Result<Option<String>, Memory>
    ensures { IfOk result (λ copy. option_map string_bytes copy
        ≡ first_of id.now (rows_of (found_of matches.now))) }
{
    match matches.get_str(id) {
        Some(text) => Ok(Some(String::from_str(alloc, text)?)),
        None => Ok(None),
    }
}

/// A copy of the value of an option or a positional, empty where there is none.
fn value_or_empty(alloc: Global, matches: &ArgMatches, id: &str) -> Result<String, Memory>
    ensures { IfOk result (λ copy. string_bytes copy
        ≡ unwrap_or (first_of id.now (rows_of (found_of matches.now))) []) }
{
    match matches.get_str(id) {
        Some(text) => Ok(String::from_str(alloc, text)?),
        None => Ok(String::new(alloc)),
    }
}

/// The folders that the option gives; `None` where they are none that may be.
fn dirs(alloc: Global, matches: &ArgMatches) -> Result<Option<Vec<String>>, Memory>
    ensures { IfOk result (λ found. option_map (λ dirs. map string_bytes dirs.items) found
        ≡ folders_of (first_of (codes "dirs") (rows_of (found_of matches.now)))) }
{
    match matches.get_str("dirs") {
        Some(text) => split_folders(alloc, text),
        None => Ok(Some(Vec::new(alloc))),
    }
}

/// The sources that the values give; `None` where the folders are none that may be.
fn sources(alloc: Global, matches: &ArgMatches) -> Result<Option<Sources>, Memory>
    ensures { IfOk result (λ found. option_map sources_meant found
        ≡ sources_of (rows_of (found_of matches.now))) }
{
    let Some(dirs) = dirs(alloc, matches)? else {
        return Ok(None);
    };
    Ok(Some(Sources {
        model: value(alloc, matches, "model")?,
        dirs,
        file: value_or_empty(alloc, matches, "file")?,
    }))
}

/// The command `encode` that the words give.
fn encode(alloc: Global, words: &[String]) -> Result<Option<Command>, Memory>
    ensures { IfOk result (λ found. option_map meaning_of found
        ≡ option_map encode (option_and_then sources_of
        (values_of described.encode (map string_bytes words.now)))) }
{
    let Some(matches) = matches(description::encode(alloc)?, words)? else {
        return Ok(None);
    };
    match sources(alloc, &matches)? {
        Some(sources) => Ok(Some(Command::Encode(sources))),
        None => Ok(None),
    }
}

/// The command `variant` that the words give.
fn variant(alloc: Global, words: &[String]) -> Result<Option<Command>, Memory>
    ensures { IfOk result (λ found. option_map meaning_of found
        ≡ option_and_then (λ rows. option_map (λ s. variant s (config_in rows)) (sources_of rows))
        (values_of described.variant (map string_bytes words.now))) }
{
    let Some(matches) = matches(description::variant(alloc)?, words)? else {
        return Ok(None);
    };
    match sources(alloc, &matches)? {
        Some(sources) => Ok(Some(Command::Variant {
            sources,
            config: value_or_empty(alloc, &matches, "config")?,
        })),
        None => Ok(None),
    }
}

/// The command `options` that the words give.
fn options(alloc: Global, words: &[String]) -> Result<Option<Command>, Memory>
    ensures { IfOk result (λ found. option_map meaning_of found
        ≡ option_map (λ rows. options (first_of (codes "model") rows) (config_in rows))
        (values_of described.options (map string_bytes words.now))) }
{
    let Some(matches) = matches(description::options(alloc)?, words)? else {
        return Ok(None);
    };
    Ok(Some(Command::Options {
        model: value(alloc, &matches, "model")?,
        config: value_or_empty(alloc, &matches, "config")?,
    }))
}

/// The command of this name that the words give; `None` where they give none.
fn command(alloc: Global, name: &str, words: &[String]) -> Result<Option<Command>, Memory>
    ensures { IfOk result (λ found. option_map meaning_of found
        ≡ command_named name.now (map string_bytes words.now)) }
{
    match name {
        "encode" => encode(alloc, words),
        "variant" => variant(alloc, words),
        "options" => options(alloc, words),
        _ => Ok(None),
    }
}

/// The command that the words of a call give, those after the program's name; `None` where they
/// give none.
pub fn read_words(alloc: Global, words: &[String]) -> Result<Option<Command>, Memory>
    ensures { IfOk result (λ found. option_map meaning_of found
        ≡ command_of (map string_bytes words.now)) }
{
    match words.first() {
        Some(name) => command(alloc, name.as_str(), words),
        None => Ok(None),
    }
}
