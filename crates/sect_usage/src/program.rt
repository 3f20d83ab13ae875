// What the words of a command line ask for, whichever the program is. It takes no memory.

ghost use Rattle.std.specs.Prelude.{◌≡◌, map};
ghost use Rattle.std.specs.String.{string_bytes};
ghost use Rattle.sect_usage.specs.Items.{items_of};
ghost use Rattle.sect_usage.specs.Programs.{Program, asked_by, lone_of, words_in};

use crate::options::{helps, takes_words};
use sect_words::same_bytes;

/// The commands of a program.
pub trait Commands: Copy {
    /// What the words ask for.
    type Asked: Copy;

    /// The grammar of the words.
    ghost program: { Program Self Self.Asked };

    /// The command of a word.
    fn named(word: &[u8]) -> Option<Self>
        ensures { result ≡ program.verb_of word.now };

    /// Whether the command has the option of this name.
    fn takes(self, name: &[u8]) -> bool
        ensures { result ≡ program.takes self name.now };

    /// What the command asks for by words that it allows.
    fn asked(self, words: &[String]) -> Option<Self::Asked>
        ensures { result ≡ program.asked_for self (items_of (map string_bytes words.now)) };

    /// The help on the command.
    fn help_on(self) -> Self::Asked
        ensures { result ≡ program.help_on self };

    /// The help on the whole program.
    fn help() -> Self::Asked
        ensures { result ≡ program.help };

    fn version() -> Self::Asked
        ensures { result ≡ program.version };
}

/// What the words ask of a program with these commands. None exactly where they aren't in its grammar.
pub fn read_program<V: Commands>(words: &[String]) -> Option<V::Asked>
    ensures { result ≡ words_in V.program (map string_bytes words.now) }
{
    match words {
        [] => None,
        [word, others @ ..] => match V::named(word.as_bytes()) {
            Some(verb) if helps(others) => Some(verb.help_on()),
            Some(verb) => asked_by(verb, others),
            None if others.is_empty() => read_lone::<V>(word.as_bytes()),
            None => None,
        },
    }
}

/// What a word in place of a command asks for.
fn read_lone<V: Commands>(word: &[u8]) -> Option<V::Asked>
    ensures { result ≡ lone_of V.program word.now }
{
    if same_bytes(word, b"--help") {
        Some(V::help())
    } else if same_bytes(word, b"--version") {
        Some(V::version())
    } else {
        None
    }
}

/// What a command with these words behind it asks for.
fn asked_by<V: Commands>(verb: V, words: &[String]) -> Option<V::Asked>
    ensures { result ≡ asked_by V.program verb (items_of (map string_bytes words.now)) }
{
    if takes_words(verb, words) {
        verb.asked(words)
    } else {
        None
    }
}
