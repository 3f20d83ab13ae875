// Asks commands by rising numbers, gathers the lines of their answers and writes them.
ghost use Rattle.std.specs.Prelude.{◌≡◌, ◌≢◌, ◌≤◌, ◌+◌, ◌^◌, ℕ, Option, Some};
ghost use Rattle.sect_edge.specs.Causes.{Rose};
ghost use Rattle.sect_edge.specs.Clock.{GivesDay};
ghost use Rattle.sect_app.specs.Fitting.{FitGiven};
ghost use Rattle.sect_once.specs.Desks.{Answers as AnswersAsk};
ghost use Rattle.sect_script.specs.declared.script.RunEnd.TheVariants as ends;
ghost use Rattle.sect_wire.specs.Fits.{FitsCommand};
ghost use Rattle.sect_app.specs.Asking.{AnswersNumbered, AsksEach, AsksOne, WritesThen};
ghost use Rattle.sect_app.specs.Numbers.{id_of, number_at};

use sect_asking::{Asker, print_answer};
use sect_base::{Caller, Id};
use sect_command::{Command, Reply};
use sect_csv::Given;
use sect_edge::{Clock, Keeper, Sink};
use sect_once::Answer;
use sect_script::{RunEnd, Unwritten, gather, write_out};
use sect_wire::{LineAsk, TextObject};

/// Asks commands by the numbers from the next one on, and writes the lines of their answers. The end is there where one
/// has no number, the sink fails or memory is wanted.
pub(crate) fn ask_each<O: TextObject, K: Keeper, C: Clock, T: Sink>(
    asker: &mut Asker<O, K, C>,
    sink: &mut T,
    given: Vec<Given>,
    next: &mut Option<u64>,
) -> Option<RunEnd>
    requires { FitGiven given.items }
    ensures asked { (at : ℕ) → next.old ≡ number_at at → at ≤ 2 ^ 64
        → AsksEach (AnswersNumbered O.stepped O.is_row K.rows K.faults) T.taken at given.items asker.old asker.new sink.old sink.new next.new result }
    ensures others { result ≢ Some ends.Done × (result ≢ Some ends.ReadFault) }
    ensures write_fault { result ≡ Some ends.WriteFault → Rose (T.faults sink.old) (T.faults sink.new) }
    ensures write_faults { T.faults sink.old ≤ T.faults sink.new }
{
    let mut answer = Vec::new(*given.allocator());
    let mut gathered = Vec::new(*given.allocator());
    for it in given {
        let Some(number) = *next else {
            let bad = RunEnd::BadLine {
                line: it.row,
                field: 0,
            };
            return write_before(sink, &mut gathered, Some(bad));
        };
        if let Some(end) = ask_one(asker, sink, &mut answer, &mut gathered, it, number) {
            return Some(end);
        }
        *next = number_after(number);
    }
    write_before(sink, &mut gathered, None)
}

/// Writes what was gathered before the run goes on or ends so.
fn write_before<T: Sink>(
    sink: &mut T,
    gathered: &mut Vec<u8>,
    end: Option<RunEnd>,
) -> Option<RunEnd>
    requires { end ≢ Some ends.Done × (end ≢ Some ends.ReadFault) × (end ≢ Some ends.WriteFault) }
    ensures written { WritesThen (T.taken sink.old) (T.taken sink.new) gathered.old.items end result }
    ensures others { result ≢ Some ends.Done × (result ≢ Some ends.ReadFault) }
    ensures write_fault { result ≡ Some ends.WriteFault → Rose (T.faults sink.old) (T.faults sink.new) }
    ensures write_faults { T.faults sink.old ≤ T.faults sink.new }
{
    match write_out(sink, gathered) {
        Ok(()) => end,
        Err(Unwritten) => Some(RunEnd::WriteFault),
    }
}

/// Asks a command by its number, and puts the line of its answer behind those that were gathered. Where memory is wanted for
/// the line, they are written.
fn ask_one<O: TextObject, K: Keeper, C: Clock, T: Sink>(
    asker: &mut Asker<O, K, C>,
    sink: &mut T,
    answer: &mut Vec<u8>,
    gathered: &mut Vec<u8>,
    given: Given,
    number: u64,
) -> Option<RunEnd>
    requires { FitsCommand given.command }
    ensures asked { AsksOne (AnswersNumbered O.stepped O.is_row K.rows K.faults) T.taken
        (record { given = given; number = number }) asker.old asker.new sink.old sink.new gathered.old.items gathered.new.items
        result }
    ensures others { result ≢ Some ends.Done × (result ≢ Some ends.ReadFault) }
    ensures write_fault { result ≡ Some ends.WriteFault → Rose (T.faults sink.old) (T.faults sink.new) }
    ensures write_faults { T.faults sink.old ≤ T.faults sink.new }
{
    let Given { row: _, command } = given;
    let told = ask_numbered(asker, command, number);
    answer.clear();
    if print_answer(&told, answer).is_err() {
        return write_before(sink, gathered, Some(RunEnd::Memory));
    }
    match gather(sink, gathered, answer) {
        Ok(()) => None,
        Err(Unwritten) => Some(RunEnd::WriteFault),
    }
}

/// Asks a command by its number.
fn ask_numbered<O: TextObject, K: Keeper, C: Clock>(
    asker: &mut Asker<O, K, C>,
    command: Command,
    number: u64,
) -> Answer<Reply>
    requires { FitsCommand command }
    ensures { (day : ℕ) × GivesDay asker.old.days asker.new.days day
        × AnswersAsk O.stepped O.is_row K.rows K.faults (id_of number) day command asker.old.desk asker.new.desk result }
{
    let id = Id {
        caller: Caller::Registrar(0),
        number,
    };
    asker.ask(LineAsk {
        day: None,
        id,
        command,
    })
}

/// The number behind this one, where there is one.
fn number_after(number: u64) -> Option<u64>
    ensures { result ≡ number_at (number + 1) }
{
    number.checked_add(1)
}
