// The commands and their options.

ghost use Rattle.std.specs.Prelude.{◌≡◌};
ghost use Rattle.sect_clerk_words.specs.Grammar.{is_of_log as is_of_log_name, takes as takes_name, verb_of};

use sect_usage::is_keeper;
use sect_words::same_bytes;

/// A command.
#[derive(Clone, Copy, PartialEq, Eq)]
pub enum Verb {
    Check,
    Demand,
    Explain,
    Log,
    Timetable,
    Try,
}

/// What a text of help is about.
#[derive(Clone, Copy, PartialEq, Eq)]
pub enum Topic {
    /// The whole program.
    Clerk,
    Command(Verb),
}

/// The command of a word.
#[tactic(auto, unfolding(crate::specs::Grammar::verb_of))]
pub(crate) fn read_verb(word: &[u8]) -> Option<Verb>
    ensures { result ≡ verb_of word.now }
{
    if same_bytes(word, b"check") {
        Some(Verb::Check)
    } else if same_bytes(word, b"demand") {
        Some(Verb::Demand)
    } else if same_bytes(word, b"explain") {
        Some(Verb::Explain)
    } else if same_bytes(word, b"log") {
        Some(Verb::Log)
    } else if same_bytes(word, b"timetable") {
        Some(Verb::Timetable)
    } else if same_bytes(word, b"try") {
        Some(Verb::Try)
    } else {
        None
    }
}

/// Whether the command has the option.
#[tactic(auto, unfolding(crate::specs::Grammar::takes))]
pub(crate) fn takes(verb: Verb, name: &[u8]) -> bool
    ensures { result ≡ takes_name verb name.now }
{
    match verb {
        Verb::Check => false,
        Verb::Demand => is_keeper(name),
        Verb::Explain => is_keeper(name),
        Verb::Log => is_keeper(name) || is_of_log(name),
        Verb::Timetable => is_keeper(name),
        Verb::Try => is_keeper(name),
    }
}

/// Whether the option says which entries a log tells.
fn is_of_log(name: &[u8]) -> bool
    ensures { result ≡ is_of_log_name name.now }
{
    same_bytes(name, b"student") || same_bytes(name, b"section") || same_bytes(name, b"from")
}
