ghost use Rattle.std.specs.Prelude.{◌≡◌, ℕ, IfOk, true, map, option_map, string_bytes};
ghost use Rattle.clap.specs.Words.{app_of, found_of, is_simple_and_free, rows_of};
ghost use Rattle.sd_words.specs.Finding.{Finds};
ghost use Rattle.sd_words.specs.Arguments.{text_of, is_true};
ghost use Rattle.sd_words.specs.Command.{TellsNumber};
ghost use Rattle.sd_words.specs.Parsed.{IsParseOf};

use crate::numbers::number;
use clap::error::ErrorKind;
use clap::{ArgMatches, Command};
use sd_list::NoMemory;

/// What clap finds in the words, of which the first is the command, or nothing where they do not parse.
pub fn parse<'a>(
    command: Command<'a>,
    words: &'a [String],
) -> Result<Option<ArgMatches<'a>>, NoMemory>
    requires { is_simple_and_free (app_of command) ≡ true }
    ensures { IfOk result (IsParseOf (app_of command.entry) (map string_bytes words.now)) }
{
    match command.try_get_matches_from(words) {
        Ok(matches) => Ok(Some(matches)),
        Err(error) if error.kind() == ErrorKind::OutOfMemory => Err(NoMemory),
        Err(_) => Ok(None),
    }
}

/// The text of an argument, where it has one.
pub fn text<'a>(matches: &ArgMatches<'a>, name: &str) -> Option<&'a str>
    ensures { option_map (λ text. text.now) result ≡ text_of name.now (rows_of (found_of matches.now)) }
{
    matches.get_str(name)
}

/// Whether a flag is there.
pub fn is_there(matches: &ArgMatches<'_>, name: &str) -> bool
    ensures { result ≡ is_true (text_of name.now (rows_of (found_of matches.now))) }
{
    match text(matches, name) {
        Some(value) => value == "true",
        None => false,
    }
}

/// The number that an option tells, or the other one where it is not given.
pub fn told(
    matches: &ArgMatches<'_>,
    name: &str,
    otherwise: u64,
    least: u64,
    most: u64,
) -> Option<u64>
    ensures { Finds (λ (number : ℕ). number) (TellsNumber otherwise least most (text_of name.now (rows_of (found_of matches.now)))) result }
{
    match text(matches, name) {
        Some(word) => number(word, least, most),
        None => Some(otherwise),
    }
}
