// What the words of the command line ask for. It takes no memory.

ghost use Rattle.std.specs.Prelude.{◌≡◌, Some, map, option_map};
ghost use Rattle.std.specs.String.{string_bytes};
ghost use Rattle.sect_usage.specs.Items.{items_of, positionals, value_of};
ghost use Rattle.sect_usage.specs.Options.{where_none};
ghost use Rattle.sect_usage.specs.Grammar.{
  asked_for,
  desk_words,
  import_of,
  make_of,
  plan_of,
  query_by,
  query_of,
  serve_of,
  table_of,
  term_of,
  words_of,
};

use crate::items::{next_positional, value};
use crate::number::{between, day, id, usual};
use crate::options::{alone, only};
use crate::program::{Commands, read_program};
use crate::verb::{Topic, Verb, read_verb, takes};
use sect_base::{Budget, Day, OfferingId, SectionId, StudentId};
use sect_command::{Query, Table};
use sect_words::{number_up_to, same_bytes};

/// What the words ask for.
#[derive(Clone, Copy, Debug, PartialEq, Eq)]
pub enum Words {
    Run,
    /// Connections over HTTP are served at the port, from 1 to 65,535, by so many workers, from 1 to 64. Each worker ends
    /// after so many sessions, from 1 to 1,000,000.
    Serve {
        port: u16,
        workers: u32,
        sessions: u32,
    },
    /// So many offerings, from 1 to 100, are made.
    Make(u32),
    Audit,
    Report(Query),
    /// The commands of a table are asked, the first of them by this number. The term begins on the day, where one is given.
    Import {
        table: Table,
        first: u64,
        term: Option<Day>,
    },
    Export(Table),
    /// The best whole schedule of a student, where each search visits at most so many decisions.
    Plan {
        student: StudentId,
        budget: Budget,
    },
    /// What stands in the way of all unmet requests.
    Survey,
    Help(Topic),
    Version,
}

/// What the words ask for. None exactly where they aren't in the grammar.
#[tactic(auto, unfolding(crate::specs::Grammar::words_of))]
pub fn read_words(words: &[String]) -> Option<Words>
    ensures { result ≡ words_of (map string_bytes words.now) }
{
    read_program::<Verb>(words)
}

impl Commands for Verb {
    type Asked = Words;

    ghost program = { desk_words };

    fn named(word: &[u8]) -> Option<Verb> {
        read_verb(word)
    }

    fn takes(self, name: &[u8]) -> bool {
        takes(self, name)
    }

    fn asked(self, words: &[String]) -> Option<Words> {
        asked_of(self, words)
    }

    fn help_on(self) -> Words {
        Words::Help(Topic::Command(self))
    }

    fn help() -> Words {
        Words::Help(Topic::Desk)
    }

    fn version() -> Words {
        Words::Version
    }
}

/// What a command asks for by words that it allows.
#[tactic(auto, unfolding(crate::specs::Grammar::asked_for))]
fn asked_of(verb: Verb, words: &[String]) -> Option<Words>
    ensures { result ≡ asked_for verb (items_of (map string_bytes words.now)) }
{
    match verb {
        Verb::Run => alone(Words::Run, words),
        Verb::Serve => read_serve(words),
        Verb::Make => read_make(words),
        Verb::Audit => alone(Words::Audit, words),
        Verb::Report => read_report(words),
        Verb::Import => read_import(words),
        Verb::Export => read_export(words),
        Verb::Plan => read_plan(words),
        Verb::Survey => alone(Words::Survey, words),
    }
}

/// What `serve` asks for: the port, and the workers and sessions where they are named.
fn read_serve(words: &[String]) -> Option<Words>
    ensures { result ≡ where_none (serve_of (items_of (map string_bytes words.now))) (positionals (items_of (map string_bytes words.now))) }
{
    let port = between(value(b"port", words)?, 1, 65_535)?;
    let workers = usual(value(b"workers", words), 4, 1, 64)?;
    let sessions = usual(value(b"sessions", words), 1_000_000, 1, 1_000_000)?;
    let asked = Words::Serve {
        port: port as u16,
        workers,
        sessions,
    };
    alone(asked, words)
}

/// What `make` asks for: so many offerings.
fn read_make(words: &[String]) -> Option<Words>
    ensures { result ≡ make_of (items_of (map string_bytes words.now)) }
{
    let offerings = between(only(words)?, 1, 100)?;
    Some(Words::Make(offerings))
}

/// What `report` asks for, with the words behind it.
fn read_report(words: &[String]) -> Option<Words>
    ensures { result ≡ option_map Words.Report (query_of (positionals (items_of (map string_bytes words.now)))) }
{
    let (kind, behind) = next_positional(words)?;
    let query = read_query(kind, behind)?;
    Some(Words::Report(query))
}

/// What a report of this kind asks for, with the words behind the kind.
#[tactic(auto, unfolding(crate::specs::Grammar::query_by))]
fn read_query(kind: &[u8], words: &[String]) -> Option<Query>
    ensures { result ≡ query_by kind.now (positionals (items_of (map string_bytes words.now))) }
{
    if same_bytes(kind, b"waiting") {
        alone(Query::Waiting, words)
    } else if same_bytes(kind, b"unmet") {
        alone(Query::Unmet, words)
    } else if same_bytes(kind, b"roll") {
        let id = id(only(words)?)?;
        Some(Query::Roll(SectionId(id)))
    } else if same_bytes(kind, b"open") {
        let id = id(only(words)?)?;
        Some(Query::Open(OfferingId(id)))
    } else if same_bytes(kind, b"schedule") {
        let id = id(only(words)?)?;
        Some(Query::Schedule(StudentId(id)))
    } else {
        None
    }
}

/// What `import` asks for: the table, the first number, and the term where it is named.
fn read_import(words: &[String]) -> Option<Words>
    ensures { result ≡ import_of (items_of (map string_bytes words.now)) }
{
    let table = read_table(only(words)?)?;
    let first = number_up_to(value(b"first", words)?, 18_446_744_073_709_551_615)?;
    let term = read_term(value(b"term", words))?;
    Some(Words::Import { table, first, term })
}

/// The day, where there is a text.
fn read_term(text: Option<&[u8]>) -> Option<Option<Day>>
    ensures { result ≡ term_of (option_map (λ t. t.now) text.entry) }
{
    match text {
        None => Some(None),
        Some(text) => {
            let term = day(text)?;
            Some(Some(term))
        }
    }
}

/// What `export` asks for: the table.
#[tactic(auto, unfolding(crate::specs::Grammar::asked_for))]
fn read_export(words: &[String]) -> Option<Words>
    ensures { result ≡ asked_for Verb.Export (items_of (map string_bytes words.now)) }
{
    let table = read_table(only(words)?)?;
    Some(Words::Export(table))
}

/// What `plan` asks for: the student, and the budget where it is named.
fn read_plan(words: &[String]) -> Option<Words>
    ensures { result ≡ plan_of (items_of (map string_bytes words.now)) }
{
    let student = id(only(words)?)?;
    let visits = usual(value(b"budget", words), 2_000, 1, 20_000)?;
    let budget = Budget::new(visits)?;
    Some(Words::Plan {
        student: StudentId(student),
        budget,
    })
}

/// A table.
#[tactic(auto, unfolding(crate::specs::Grammar::table_of))]
fn read_table(word: &[u8]) -> Option<Table>
    ensures { result ≡ table_of word.now }
{
    if same_bytes(word, b"offerings") {
        Some(Table::Offerings)
    } else if same_bytes(word, b"students") {
        Some(Table::Students)
    } else if same_bytes(word, b"requests") {
        Some(Table::Requests)
    } else if same_bytes(word, b"reservations") {
        Some(Table::Reservations)
    } else {
        None
    }
}
