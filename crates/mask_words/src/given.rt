//! The words of a command line, each in its place.

ghost use Rattle.std.specs.Prelude.{◌≡◌, IfOk, true, List, map, drop, option_map, string_bytes};
ghost use Rattle.std.specs.List.{list_any};
ghost use Rattle.clap.specs.Words.{found_of, rows_of};
ghost use Rattle.mask_words.specs.Reading.{CommandItem, is_lone, command_line, command_line_of};
ghost use Rattle.mask_words.specs.Shown.{shown};
ghost use Rattle.mask_words.specs.Taken.{Holds, is_complete};

use crate::command::mask_command;
use crate::names;
use clap::ArgMatches;
use clap::error::ErrorKind;
use mask_bytes::OutOfMemory;
use std::alloc::Global;

/// The task's word and its argument, the text of each option that is given, and whether the flag is there.
#[derive(Drop)]
pub(crate) struct Given<'a> {
    pub task: &'a str,
    pub argument: &'a str,
    pub size: Option<&'a str>,
    pub workers: Option<&'a str>,
    pub block: Option<&'a str>,
    pub budget: Option<&'a str>,
    pub words: Option<&'a str>,
    pub wires: Option<&'a str>,
    pub tallies: bool,
}

// clap takes an empty word and a hyphen alone as values; a command line takes neither.
fn is_lone_word(word: &String) -> bool
    ensures { result ≡ is_lone (string_bytes word.now) }
{
    word.is_empty() || word.as_str() == "-"
}

fn has_lone(words: &[String]) -> bool
    ensures { result ≡ list_any is_lone (drop 1 (map string_bytes words.now)) }
{
    words.iter().skip(1).any(is_lone_word)
}

fn from_matches<'a>(matches: &ArgMatches<'a>) -> Option<Given<'a>>
    ensures { (items : List CommandItem) → Holds items (rows_of (found_of matches.now)) →
        is_complete items ≡ true → option_map shown result ≡ command_line_of items }
{
    Some(Given {
        task: matches.get_str(names::TASK)?,
        argument: matches.get_str(names::ARGUMENT)?,
        size: matches.get_str(names::SIZE),
        workers: matches.get_str(names::WORKERS),
        block: matches.get_str(names::BLOCK),
        budget: matches.get_str(names::BUDGET),
        words: matches.get_str(names::WORDS),
        wires: matches.get_str(names::WIRES),
        tallies: matches.get_flag(names::TALLIES),
    })
}

/// Reads the words of a command line, of which the first is the program's name: `None` exactly where they are refused.
pub(crate) fn read<'a>(alloc: Global, words: &'a [String]) -> Result<Option<Given<'a>>, OutOfMemory>
    ensures { IfOk result (λ r. option_map shown r ≡ command_line (drop 1 (map string_bytes words.entry.now))) }
{
    if has_lone(words) {
        return Ok(None);
    }
    let command = mask_command(alloc)?;
    match command.try_get_matches_from(words) {
        Ok(matches) => Ok(from_matches(&matches)),
        Err(error) => match error.kind() {
            ErrorKind::OutOfMemory => Err(OutOfMemory),
            _ => Ok(None),
        },
    }
}
