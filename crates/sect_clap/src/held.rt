// What `clap` finds in the words, held against what the desk's own reader finds in them.

use crate::command::{FIRST_WORD, OPTIONS, SECOND_WORD, desk_command};
use clap::ArgMatches;
use clap::error::ErrorKind;
use sect_base::Memory;
use sect_usage::{Words, next_positional, option_value, read_words};
use std::alloc::Global;

/// Reads the words by `clap` again, and holds what it finds against what the desk's own reader finds: the command, the words
/// that stand alone and the value of each option, or that help or the version is asked for. `Memory` where memory is wanted
/// and where the two differ. For words that the reader takes they don't differ; no clause says so, the tests show it.
pub fn read_again(alloc: Global, words: &[String]) -> Result<(), Memory> {
    let same = match desk_command(alloc)?.try_get_matches_from(words) {
        Ok(found) => is_same(&found, words),
        Err(error) => is_asked(error.kind(), read_words(words)),
    };
    if same { Ok(()) } else { Err(Memory) }
}

/// Whether this end without matches is what the words ask for.
fn is_asked(kind: ErrorKind, asked: Option<Words>) -> bool {
    match asked {
        Some(Words::Help(_)) => kind == ErrorKind::DisplayHelp,
        Some(Words::Version) => kind == ErrorKind::DisplayVersion,
        _ => false,
    }
}

/// Whether the command is the first word, and the same is found behind it.
fn is_same(found: &ArgMatches<'_>, words: &[String]) -> bool {
    let [command, behind @ ..] = words else {
        return false;
    };
    match found.subcommand() {
        Some((name, inner)) => {
            name == command.as_str() && same_options(inner, behind) && same_words(inner, behind)
        }
        None => false,
    }
}

/// Whether each option has the same value, or none.
fn same_options(found: &ArgMatches<'_>, words: &[String]) -> bool {
    for name in OPTIONS {
        if !same_text(found.get_str(name), option_value(name.as_bytes(), words)) {
            return false;
        }
    }
    true
}

/// Whether the same words stand alone.
fn same_words(found: &ArgMatches<'_>, words: &[String]) -> bool {
    match next_positional(words) {
        Some((word, behind)) => {
            same_text(found.get_str(FIRST_WORD), Some(word))
                && same_last(found.get_str(SECOND_WORD), behind)
        }
        None => found.get_str(FIRST_WORD).is_none() && found.get_str(SECOND_WORD).is_none(),
    }
}

/// Whether the last word that stands alone is this one, where there is one.
fn same_last(found: Option<&str>, words: &[String]) -> bool {
    match next_positional(words) {
        Some((word, behind)) => {
            same_text(found, Some(word)) && next_positional(behind).is_none()
        }
        None => found.is_none(),
    }
}

/// Whether both are none, or have the same bytes.
fn same_text(found: Option<&str>, read: Option<&[u8]>) -> bool {
    match (found, read) {
        (Some(found), Some(read)) => found.as_bytes() == read,
        (None, None) => true,
        _ => false,
    }
}
