// What the words behind a command hold, whichever the command is. It takes no memory.

ghost use Rattle.std.specs.Prelude.{◌≡◌, ◌&&◌, Some, map, option_map};
ghost use Rattle.std.specs.String.{string_bytes};
ghost use Rattle.sect_usage.specs.Items.{items_of, positionals, value_of};
ghost use Rattle.sect_usage.specs.Options.{allows, is_given, is_help, is_keeper as is_keeper_name, one_keeper, the_one, where_none};

use crate::items::{Item, next_item, next_positional, value};
use crate::program::Commands;
use sect_words::same_bytes;

/// Whether the option names a keeper.
pub fn is_keeper(name: &[u8]) -> bool
    ensures { result ≡ is_keeper_name name.now }
{
    same_bytes(name, b"db") || same_bytes(name, b"journal")
}

/// Whether the words are `--help` alone.
pub(crate) fn helps(words: &[String]) -> bool
    ensures { result ≡ is_help (map string_bytes words.now) }
{
    match words {
        [word] => same_bytes(word.as_bytes(), b"--help"),
        _ => false,
    }
}

/// Whether each word is an item, each option is one of the command that stands once, and not both keepers are named.
pub(crate) fn takes_words<V: Commands>(verb: V, words: &[String]) -> bool
    ensures { result ≡ (allows (V.program.takes verb) (items_of (map string_bytes words.now)) && one_keeper (items_of (map string_bytes words.now))) }
{
    allowed(verb, words) && one_keeper_named(words)
}

/// Whether each word is an item, and each option is one of the command that stands once.
fn allowed<V: Commands>(verb: V, words: &[String]) -> bool
    ensures { result ≡ allows (V.program.takes verb) (items_of (map string_bytes words.now)) }
{
    let mut rest = words;
    while let Some((item, behind)) = next_item(rest) {
        match item {
            Item::Bad => return false,
            Item::Positional(_) => {}
            Item::Setting(name, _) => {
                if !verb.takes(name) || given(name, behind) {
                    return false;
                }
            }
        }
        rest = behind;
    }
    true
}

/// Whether there is an option of this name.
fn given(name: &[u8], words: &[String]) -> bool
    ensures { result ≡ is_given (value_of name.now (items_of (map string_bytes words.now))) }
{
    match value(name, words) {
        Some(_) => true,
        None => false,
    }
}

/// Whether not both keepers are named.
fn one_keeper_named(words: &[String]) -> bool
    ensures { result ≡ one_keeper (items_of (map string_bytes words.now)) }
{
    !(given(b"db", words) && given(b"journal", words))
}

/// What is asked for, where no word stands alone.
pub fn alone<T: Copy>(asked: T, words: &[String]) -> Option<T>
    ensures { result ≡ where_none (Some asked) (positionals (items_of (map string_bytes words.now))) }
{
    match next_positional(words) {
        Some(_) => None,
        None => Some(asked),
    }
}

/// The only word that stands alone.
pub fn only(words: &[String]) -> Option<&[u8]>
    ensures { option_map (λ w. w.now) result ≡ the_one (positionals (items_of (map string_bytes words.now))) }
{
    let (word, behind) = next_positional(words)?;
    match next_positional(behind) {
        Some(_) => None,
        None => Some(word),
    }
}
