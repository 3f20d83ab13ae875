// The commands and their options.

ghost use Rattle.std.specs.Prelude.{◌≡◌};
ghost use Rattle.sect_usage.specs.Grammar.{is_of_serve as is_serve_name, takes as takes_name, verb_of};

use crate::options::is_keeper;
use sect_words::same_bytes;

/// A command.
#[derive(Clone, Copy, Debug, PartialEq, Eq)]
pub enum Verb {
    Run,
    Serve,
    Make,
    Audit,
    Report,
    Import,
    Export,
    Plan,
    Survey,
}

/// What a text of help is about.
#[derive(Clone, Copy, Debug, PartialEq, Eq)]
pub enum Topic {
    /// The whole desk.
    Desk,
    Command(Verb),
}

/// The command of a word.
#[tactic(auto, unfolding(crate::specs::Grammar::verb_of))]
pub(crate) fn read_verb(word: &[u8]) -> Option<Verb>
    ensures { result ≡ verb_of word.now }
{
    if same_bytes(word, b"run") {
        Some(Verb::Run)
    } else if same_bytes(word, b"serve") {
        Some(Verb::Serve)
    } else if same_bytes(word, b"make") {
        Some(Verb::Make)
    } else if same_bytes(word, b"audit") {
        Some(Verb::Audit)
    } else if same_bytes(word, b"report") {
        Some(Verb::Report)
    } else if same_bytes(word, b"import") {
        Some(Verb::Import)
    } else if same_bytes(word, b"export") {
        Some(Verb::Export)
    } else if same_bytes(word, b"plan") {
        Some(Verb::Plan)
    } else if same_bytes(word, b"survey") {
        Some(Verb::Survey)
    } else {
        None
    }
}

/// Whether the command has the option.
#[tactic(auto, unfolding(crate::specs::Grammar::takes))]
pub(crate) fn takes(verb: Verb, name: &[u8]) -> bool
    ensures { result ≡ takes_name verb name.now }
{
    match verb {
        Verb::Make => false,
        Verb::Import => is_keeper(name) || same_bytes(name, b"first") || same_bytes(name, b"term"),
        Verb::Run => is_keeper(name),
        Verb::Serve => is_keeper(name) || is_of_serve(name),
        Verb::Audit => is_keeper(name),
        Verb::Report => is_keeper(name),
        Verb::Export => is_keeper(name),
        Verb::Plan => is_keeper(name) || same_bytes(name, b"budget"),
        Verb::Survey => is_keeper(name),
    }
}

/// Whether the option is one of `serve` alone.
fn is_of_serve(name: &[u8]) -> bool
    ensures { result ≡ is_serve_name name.now }
{
    same_bytes(name, b"port") || same_bytes(name, b"workers") || same_bytes(name, b"sessions")
}
