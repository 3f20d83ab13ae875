// Laws of the texts: each has at most one value, and what is printed is read again.

ghost use Rattle.sect_read.specs.Laws.{
  PrintedIsLine,
  OneRequest,
  OneReply,
  OneCommand,
  OneRow,
  OneEntry,
};

/// A request that is printed behind its day, its caller and its number is a line that asks it.
pub fn a_printed_request_is_a_line_that_asks_it()
    ensures { PrintedIsLine }
{}

/// A line asks at most one request.
pub fn a_line_asks_one_request()
    ensures { OneRequest }
{}

/// Two replies with one text are one.
pub fn a_text_is_of_one_reply()
    ensures { OneReply }
{}

/// Two commands that are printed alike are one.
pub fn a_printed_text_is_of_one_command()
    ensures { OneCommand }
{}

/// An entry has one row.
pub fn an_entry_has_one_row()
    ensures { OneRow }
{}

/// A row is of at most one entry.
pub fn a_row_is_of_one_entry()
    ensures { OneEntry }
{}
