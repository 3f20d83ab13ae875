// The run over a table: pieces are read and fed, and the commands that they show asked.
ghost use Rattle.std.specs.Prelude.{◌≡◌, ◌≤◌, ◌<◌, List, ℕ, ◌+◌, Option, Some, IfNone, IfSome, OnErr, IfOk, length, take};
ghost use Rattle.std.specs.Io.KnownBytes.{Consumes, IsAtEnd, Keeps};
ghost use Rattle.sect_asking.specs.Asks.{Sitting};
ghost use Rattle.sect_command.specs.declared.view.Table.{Table as Tables};
ghost use Rattle.sect_command.specs.declared.command.Command.{Command};
ghost use Rattle.sect_command.specs.declared.reply.Reply.{Reply};
ghost use Rattle.sect_edge.specs.Causes.{HasCause, Rose};
ghost use Rattle.sect_script.specs.declared.script.RunEnd.TheVariants as ends;
ghost use Rattle.sect_app.specs.Asking.{AnswersNumbered};
ghost use Rattle.sect_app.specs.Table.{RanTable, TABLE_LIMIT};
ghost use Rattle.sect_app.specs.Underway.{GoesOn, LooksPast, Underway};

use crate::shown::{take_end, take_piece};
use sect_asking::Asker;
use sect_base::Day;
use sect_command::Table;
use sect_csv::Import;
use sect_edge::{Clock, Failed, Keeper, Sink, Source};
use sect_script::RunEnd;
use sect_wire::TextObject;
use std::alloc::Global;

/// How many bytes a table may have.
const MOST_BYTES: u64 = 4_294_967_296;

/// How many bytes a read gives at most.
const PIECE: usize = 65_536;

/// Asks the commands of a table as registrar 0, each on the clock's day, by rising numbers from the first on, and writes the
/// lines of their answers, up to the first row that is bad. Meetings may say their weeks by two days of the term.
pub fn run_table<O: TextObject, K: Keeper, C: Clock, S: Source, T: Sink>(
    alloc: Global,
    table: Table,
    term: Option<Day>,
    first: u64,
    source: &mut S,
    sink: &mut T,
    asker: &mut Asker<O, K, C>,
) -> RunEnd
    ensures ran { RanTable (AnswersNumbered O.stepped O.is_row K.rows K.faults) table term first (S.left source.old)
        (S.left source.new) (T.taken sink.old) (T.taken sink.new)
        asker.old asker.new result }
    ensures end { result ≡ ends.Done → IsAtEnd (S.left source.new) }
    ensures read_fault { result ≡ ends.ReadFault → Rose (S.faults source.old) (S.faults source.new) }
    ensures write_fault { result ≡ ends.WriteFault → Rose (T.faults sink.old) (T.faults sink.new) }
{
    let Ok(mut import) = Import::new(alloc, table, term) else {
        return RunEnd::Memory;
    };
    let Ok(mut buffer) = vec![in alloc; 0; PIECE] else {
        return RunEnd::Memory;
    };
    let mut next = Some(first);
    let mut total = 0;
    'pieces: loop {
        match turn(
            alloc,
            &mut import,
            source,
            &mut buffer,
            &mut total,
            asker,
            sink,
            &mut next,
        ) {
            None => {}
            Some(end) => return end,
        }
    }
}

/// Reads a piece, and asks the commands that it shows. The end is there where the run ends.
fn turn<O: TextObject, K: Keeper, C: Clock, S: Source, T: Sink>(
    alloc: Global,
    import: &mut Import,
    source: &mut S,
    buffer: &mut Vec<u8>,
    total: &mut u64,
    asker: &mut Asker<O, K, C>,
    sink: &mut T,
    next: &mut Option<u64>,
) -> Option<RunEnd>
    requires bound { total.old ≤ TABLE_LIMIT }
    requires room { 0 < length buffer.old.items }
    ensures ran { (table : Tables) (term : Option ℕ) (first : ℕ) (left taken : Option (List ℕ)) (old : Sitting O.State Command Reply K)
        → Underway (AnswersNumbered O.stepped O.is_row K.rows K.faults) table term first left (S.left source.old) taken
        (T.taken sink.old) old asker.old import.old next.old total.old
        → GoesOn (Underway (AnswersNumbered O.stepped O.is_row K.rows K.faults) table term first left (S.left source.new) taken
        (T.taken sink.new) old asker.new import.new next.new total.new)
        (RanTable (AnswersNumbered O.stepped O.is_row K.rows K.faults) table term first left (S.left source.new) taken
        (T.taken sink.new) old asker.new) result }
    ensures bound { total.new ≤ TABLE_LIMIT }
    ensures more { IfNone result (total.old < total.new) }
    ensures room { 0 < length buffer.new.items }
    ensures end { result ≡ Some ends.Done → IsAtEnd (S.left source.new) }
    ensures read_fault { result ≡ Some ends.ReadFault → Rose (S.faults source.old) (S.faults source.new) }
    ensures write_fault { result ≡ Some ends.WriteFault → Rose (T.faults sink.old) (T.faults sink.new) }
    ensures read_faults { S.faults source.old ≤ S.faults source.new }
    ensures write_faults { T.faults sink.old ≤ T.faults sink.new }
{
    if *total == MOST_BYTES {
        return Some(end_of_bytes(alloc, import, source, buffer, asker, sink, next));
    }
    match read_piece(source, buffer, MOST_BYTES - *total) {
        Ok(0) => Some(take_end(alloc, import, asker, sink, next)),
        Ok(count) => {
            *total += count as u64;
            take_piece(alloc, import, &buffer[..count], asker, sink, next)
        }
        Err(Failed) => Some(RunEnd::ReadFault),
    }
}

/// Reads a piece of so many bytes at most, and none at the end. The buffer shrinks to as many.
fn read_piece<S: Source>(source: &mut S, buffer: &mut Vec<u8>, most: u64) -> Result<usize, Failed>
    requires some { 0 < most }
    requires room { 0 < length buffer.old.items }
    ensures bound { IfOk result (λ count. (count ≤ most) × (count ≤ length buffer.new.items)) }
    ensures bytes { IfOk result (λ count. Consumes (S.left source.old) (S.left source.new) (take count buffer.new.items)) }
    ensures end { IfOk result (λ count. count ≡ 0 → IsAtEnd (S.left source.new)) }
    ensures err { OnErr result (Keeps (S.left source.old) (S.left source.new)) }
    ensures room { 0 < length buffer.new.items }
    ensures cause { HasCause (S.faults source.old) (S.faults source.new) result }
{
    buffer.truncate(most as usize);
    source.read(buffer)
}

/// Looks for the end behind as many bytes as a table may have.
fn end_of_bytes<O: TextObject, K: Keeper, C: Clock, S: Source, T: Sink>(
    alloc: Global,
    import: &mut Import,
    source: &mut S,
    buffer: &mut Vec<u8>,
    asker: &mut Asker<O, K, C>,
    sink: &mut T,
    next: &mut Option<u64>,
) -> RunEnd
    requires room { 0 < length buffer.old.items }
    ensures ran { (table : Tables) (term : Option ℕ) (first : ℕ) (left taken : Option (List ℕ)) (old : Sitting O.State Command Reply K)
        → Underway (AnswersNumbered O.stepped O.is_row K.rows K.faults) table term first left (S.left source.old) taken
        (T.taken sink.old) old asker.old import.old next.old TABLE_LIMIT
        → RanTable (AnswersNumbered O.stepped O.is_row K.rows K.faults) table term first left (S.left source.new) taken
        (T.taken sink.new) old asker.new result }
    ensures end { result ≡ ends.Done → IsAtEnd (S.left source.new) }
    ensures read_fault { result ≡ ends.ReadFault → Rose (S.faults source.old) (S.faults source.new) }
    ensures write_fault { result ≡ ends.WriteFault → Rose (T.faults sink.old) (T.faults sink.new) }
    ensures room { 0 < length buffer.new.items }
    ensures read_faults { S.faults source.old ≤ S.faults source.new }
    ensures write_faults { T.faults sink.old ≤ T.faults sink.new }
{
    match has_more(source, buffer) {
        Ok(true) => match row_after(import.rows()) {
            Some(line) => RunEnd::BadLine { line, field: 0 },
            None => RunEnd::Memory,
        },
        Ok(false) => take_end(alloc, import, asker, sink, next),
        Err(Failed) => RunEnd::ReadFault,
    }
}

/// Whether another byte comes, which is taken.
fn has_more<S: Source>(source: &mut S, buffer: &mut Vec<u8>) -> Result<bool, Failed>
    requires room { 0 < length buffer.old.items }
    ensures looks { IfOk result (λ more. LooksPast more (S.left source.old) (S.left source.new)) }
    ensures err { OnErr result (Keeps (S.left source.old) (S.left source.new)) }
    ensures room { 0 < length buffer.new.items }
    ensures cause { HasCause (S.faults source.old) (S.faults source.new) result }
{
    let count = read_piece(source, buffer, 1)?;
    Ok(count > 0)
}

/// The row behind so many, where it has a number.
fn row_after(rows: u64) -> Option<u64>
    ensures { IfSome result (λ row. row ≡ rows + 1) }
{
    rows.checked_add(1)
}
