// What the words of the command line ask for. It takes no memory.

ghost use Rattle.std.specs.Prelude.{◌≡◌, map, option_map};
ghost use Rattle.std.specs.String.{string_bytes};
ghost use Rattle.sect_usage.specs.Items.{items_of, positionals};
ghost use Rattle.sect_usage.specs.Options.{where_none};
ghost use Rattle.sect_clerk_words.specs.Grammar.{
  asked_for,
  clerk_words,
  explain_of,
  log_of,
  place_or_first as place_or_first_of,
  section_named as section_named_by,
  student_named as student_named_by,
  timetable_of,
};

use crate::verb::{Topic, Verb, read_verb, takes};
use sect_base::{SectionId, StudentId};
use sect_usage::{Commands, alone, id, only, option_value};

/// What the words ask for.
#[derive(Clone, Copy, PartialEq, Eq)]
pub enum Words {
    /// The lines of standard input that a run would refuse are named.
    Check,
    /// What is wanted of each course.
    Demand,
    /// Why the search at a place of the history was blocked.
    Explain(u32),
    /// The entries of the history from a place on, of these those that concern the student and the section, where they are named.
    Log {
        student: Option<StudentId>,
        section: Option<SectionId>,
        from: u32,
    },
    /// The week of a student.
    Timetable(StudentId),
    /// Each line of standard input is answered as it would be now.
    Try,
    Help(Topic),
    Version,
}

impl Commands for Verb {
    type Asked = Words;

    ghost program = { clerk_words };

    fn named(word: &[u8]) -> Option<Verb> {
        read_verb(word)
    }

    fn takes(self, name: &[u8]) -> bool {
        takes(self, name)
    }

    fn asked(self, words: &[String]) -> Option<Words> {
        asked_of(self, words)
    }

    fn help_on(self) -> Words {
        Words::Help(Topic::Command(self))
    }

    fn help() -> Words {
        Words::Help(Topic::Clerk)
    }

    fn version() -> Words {
        Words::Version
    }
}

/// What a command asks for by words that it allows.
#[tactic(auto, unfolding(crate::specs::Grammar::asked_for))]
fn asked_of(verb: Verb, words: &[String]) -> Option<Words>
    ensures { result ≡ asked_for verb (items_of (map string_bytes words.now)) }
{
    match verb {
        Verb::Check => alone(Words::Check, words),
        Verb::Demand => alone(Words::Demand, words),
        Verb::Explain => read_explain(words),
        Verb::Log => read_log(words),
        Verb::Timetable => read_timetable(words),
        Verb::Try => alone(Words::Try, words),
    }
}

/// What `explain` asks for: the place in the history.
fn read_explain(words: &[String]) -> Option<Words>
    ensures { result ≡ explain_of (items_of (map string_bytes words.now)) }
{
    let place = id(only(words)?)?;
    Some(Words::Explain(place))
}

/// What `log` asks for: the student, the section and the first place, where they are named.
fn read_log(words: &[String]) -> Option<Words>
    ensures { result ≡ where_none (log_of (items_of (map string_bytes words.now))) (positionals (items_of (map string_bytes words.now))) }
{
    let student = student_named(option_value(b"student", words))?;
    let section = section_named(option_value(b"section", words))?;
    let from = place_or_first(option_value(b"from", words))?;
    let asked = Words::Log {
        student,
        section,
        from,
    };
    alone(asked, words)
}

/// The student, where there is a word.
fn student_named(word: Option<&[u8]>) -> Option<Option<StudentId>>
    ensures { result ≡ student_named_by (option_map (λ w. w.now) word.entry) }
{
    match word {
        None => Some(None),
        Some(word) => {
            let student = id(word)?;
            Some(Some(StudentId(student)))
        }
    }
}

/// The section, where there is a word.
fn section_named(word: Option<&[u8]>) -> Option<Option<SectionId>>
    ensures { result ≡ section_named_by (option_map (λ w. w.now) word.entry) }
{
    match word {
        None => Some(None),
        Some(word) => {
            let section = id(word)?;
            Some(Some(SectionId(section)))
        }
    }
}

/// The place, and the first where there is no word.
fn place_or_first(word: Option<&[u8]>) -> Option<u32>
    ensures { result ≡ place_or_first_of (option_map (λ w. w.now) word.entry) }
{
    match word {
        None => Some(0),
        Some(word) => id(word),
    }
}

/// What `timetable` asks for: the student.
fn read_timetable(words: &[String]) -> Option<Words>
    ensures { result ≡ timetable_of (items_of (map string_bytes words.now)) }
{
    let student = id(only(words)?)?;
    Some(Words::Timetable(StudentId(student)))
}
