// Asks what the bytes of a table show.
ghost use Rattle.std.specs.Prelude.{◌≡◌, ◌≢◌, ◌≤◌, Bool, List, Option, Some, ℕ, false};
ghost use Rattle.sect_asking.specs.Asks.{Sitting};
ghost use Rattle.sect_command.specs.declared.view.Table.{Table};
ghost use Rattle.sect_command.specs.declared.command.Command.{Command};
ghost use Rattle.sect_command.specs.declared.reply.Reply.{Reply};
ghost use Rattle.sect_edge.specs.Causes.{Rose};
ghost use Rattle.sect_app.specs.Fitting.{FitGiven};
ghost use Rattle.sect_script.specs.declared.script.RunEnd.TheVariants as ends;
ghost use Rattle.sect_app.specs.Asking.{AnswersNumbered};
ghost use Rattle.sect_app.specs.Underway.{AsksShown, Shows, TakesEnd, TakesPiece, TellsFault, Through, going, open_without};

use crate::asking::ask_each;
use crate::each_command_of_a_table_has_a_text;
use sect_asking::Asker;
use sect_base::Memory;
use sect_csv::{CsvFault, Given, Import};
use sect_edge::{Clock, Keeper, Sink};
use sect_script::RunEnd;
use sect_wire::TextObject;
use std::alloc::Global;

/// Feeds a piece to an import, and asks the commands that it shows. The end is there where the run ends.
pub(crate) fn take_piece<O: TextObject, K: Keeper, C: Clock, T: Sink>(
    alloc: Global,
    import: &mut Import,
    piece: &[u8],
    asker: &mut Asker<O, K, C>,
    sink: &mut T,
    next: &mut Option<u64>,
) -> Option<RunEnd>
    ensures takes { (table : Table) (term : Option ℕ) (first : ℕ) (taken : Option (List ℕ)) (old : Sitting O.State Command Reply K) (read : List ℕ)
        → import.old ≡ going table term read
        → Through (AnswersNumbered O.stepped O.is_row K.rows K.faults) table term first taken (T.taken sink.old) old asker.old next.old read false
        → TakesPiece (AnswersNumbered O.stepped O.is_row K.rows K.faults) table term first taken
        (T.taken sink.new) old asker.new import.new next.new read piece.now result }
    ensures others { result ≢ Some ends.Done × (result ≢ Some ends.ReadFault) }
    ensures write_fault { result ≡ Some ends.WriteFault → Rose (T.faults sink.old) (T.faults sink.new) }
    ensures write_faults { T.faults sink.old ≤ T.faults sink.new }
{
    let mut given = Vec::new(alloc);
    let fed = import.feed(piece, &mut given);
    each_command_of_a_table_has_a_text();
    match bad_row(fed) {
        Ok(bad) => ask_shown(asker, sink, next, given, import.open_row(), bad),
        Err(Memory) => Some(RunEnd::Memory),
    }
}

/// Tells an import that its table is at the end, and asks the commands that are left.
pub(crate) fn take_end<O: TextObject, K: Keeper, C: Clock, T: Sink>(
    alloc: Global,
    import: &mut Import,
    asker: &mut Asker<O, K, C>,
    sink: &mut T,
    next: &mut Option<u64>,
) -> RunEnd
    ensures takes { (table : Table) (term : Option ℕ) (first : ℕ) (taken : Option (List ℕ)) (old : Sitting O.State Command Reply K) (read : List ℕ)
        → import.old ≡ going table term read
        → Through (AnswersNumbered O.stepped O.is_row K.rows K.faults) table term first taken (T.taken sink.old) old asker.old next.old read false
        → TakesEnd (AnswersNumbered O.stepped O.is_row K.rows K.faults) table term first taken (T.taken sink.new) old asker.new read result }
    ensures others { result ≢ ends.ReadFault }
    ensures write_fault { result ≡ ends.WriteFault → Rose (T.faults sink.old) (T.faults sink.new) }
    ensures write_faults { T.faults sink.old ≤ T.faults sink.new }
{
    let mut given = Vec::new(alloc);
    let told = import.end(&mut given);
    each_command_of_a_table_has_a_text();
    match bad_row(told) {
        Ok(bad) => match ask_shown(asker, sink, next, given, import.open_row(), bad) {
            Some(end) => end,
            None => RunEnd::Done,
        },
        Err(Memory) => RunEnd::Memory,
    }
}

/// Asks the commands that the bytes of a table show behind those that were asked, before a bad row ends the run.
fn ask_shown<O: TextObject, K: Keeper, C: Clock, T: Sink>(
    asker: &mut Asker<O, K, C>,
    sink: &mut T,
    next: &mut Option<u64>,
    given: Vec<Given>,
    open_row: Option<u64>,
    bad: Option<(u64, u32)>,
) -> Option<RunEnd>
    requires { FitGiven given.items }
    ensures asked { (table : Table) (term : Option ℕ) (first : ℕ) (taken : Option (List ℕ))
        (old : Sitting O.State Command Reply K) (read : List ℕ) (ended : Bool)
        → Shows (AnswersNumbered O.stepped O.is_row K.rows K.faults) table term first taken
        (T.taken sink.old) old asker.old next.old read ended given.items open_row bad
        → AsksShown (AnswersNumbered O.stepped O.is_row K.rows K.faults) table term first taken (T.taken sink.new) old asker.new next.new read ended result }
    ensures others { result ≢ Some ends.Done × (result ≢ Some ends.ReadFault) }
    ensures write_fault { result ≡ Some ends.WriteFault → Rose (T.faults sink.old) (T.faults sink.new) }
    ensures write_faults { T.faults sink.old ≤ T.faults sink.new }
{
    if let Some(end) = ask_each(asker, sink, given, next) {
        return Some(end);
    }
    if let Some(line) = open_without(*next, open_row) {
        return Some(RunEnd::BadLine { line, field: 0 });
    }
    match bad {
        Some((line, field)) => Some(RunEnd::BadLine { line, field }),
        None => None,
    }
}

/// The row of an open command where no number is left.
fn open_without(next: Option<u64>, open_row: Option<u64>) -> Option<u64>
    ensures { result ≡ open_without next open_row }
{
    match next {
        Some(_) => None,
        None => open_row,
    }
}

/// The bad row that an import answered, if any.
fn bad_row(fed: Result<(), CsvFault>) -> Result<Option<(u64, u32)>, Memory>
    ensures { TellsFault fed result }
{
    match fed {
        Ok(()) => Ok(None),
        Err(CsvFault::BadRow { row, field }) => Ok(Some((row, field))),
        Err(CsvFault::Memory) => Err(Memory),
    }
}
