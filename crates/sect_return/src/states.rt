// The laws of the states of histories. The functions do nothing: the contract of each is a law.

ghost use Rattle.sect_return.specs.Again.{StudentsReturn, TablesReturn};
ghost use Rattle.sect_return.specs.Checked.{StatesAreChecked};
ghost use Rattle.sect_return.specs.States.{LogsReadBack, StatesReadBack};

/// In the state of each history the row of a reservation has no fault in its offering but that its id is in use: each listed
/// section stands in a listed configuration, and an audience's course is the offering's; and a student has at most 50 groups
/// and 10 curricula.
pub fn a_state_is_checked()
    ensures { StatesAreChecked }
{}

/// After a history of at most 2^20 commands with texts, the text of each table of the state is read, to its end and without a
/// fault, as the commands of its rows; so after the history of a log that was never full and whose entries have rows.
pub fn a_state_reads_back()
    ensures states { StatesReadBack }
    ensures logs { LogsReadBack }
{}

/// The commands of the table of students of the state of each history, asked of the empty state on any day, are each amended,
/// and lead to a world with the same rows of students.
pub fn students_return()
    ensures { StudentsReturn }
{}

/// The commands of all tables of the state of each history, first those of offerings, then of students, of requests and of
/// reservations, asked of the empty state on any day, are each amended, and lead to a world with the same rows in each table;
/// which sections are cancelled is no part of a table.
pub fn tables_return()
    ensures { TablesReturn }
{}
