// The laws of rows. The functions do nothing: the contract of each is a law.

ghost use Rattle.sect_rows.specs.Laws.{EntryHasRow, HistoryHasRow, StepFits};

/// A command with a text gets a reply with a text, in each state of whose parts each has one: its ids are the command's or the
/// state's, its numbers have their sizes, a choice has one to six sections, and at most 36 brackets lie round a leaf of its tree,
/// in which no split is empty.
pub fn a_reply_has_a_text()
    ensures { StepFits }
{}

/// A request with a text, asked after a history of at most 2^20 such requests, gets an entry that has a row.
pub fn an_entry_has_a_row()
    ensures history { HistoryHasRow }
    ensures rows { EntryHasRow }
{}
