// The forms of words.

use sect_read::Verb;

/// What is expected where a word of a line stands.
#[derive(Clone, Copy, PartialEq, Eq)]
pub enum Form {
    /// `@` and a day.
    DayMark,
    Caller,
    /// A number of 64 bits.
    Number,
    /// The word of a command.
    Command,
    /// A number of 32 bits.
    Id,
    Ids,
    OptionalId,
    Limit,
    /// From 0 to 30.
    Credits,
    /// A number of 16 bits.
    MostCredits,
    Day,
    OptionalDay,
    Meeting,
    Meetings,
    Audience,
    Curriculum,
    /// A number from 1 to this one.
    UpTo(u32),
    /// The word `max`.
    Max,
    /// `course`, `config` or `section`.
    Level,
    /// The end of this command, or a word that may stand before it.
    End(Verb),
}

/// Why the words of a line don't go on.
#[derive(Clone, Copy, PartialEq, Eq)]
pub enum Halt {
    /// The next word hasn't this form, or is missing.
    Bad(Form),
    Memory,
}
