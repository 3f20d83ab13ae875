// The loop over the lines.
ghost use Rattle.std.specs.Prelude.{◌≡◌, ◌≤◌, ◌<◌, ◌+◌, List, ℕ, Option, Some, length, take, IfOk, OnOk, OnErr, IfNone, IsErrOf};
ghost use Rattle.std.specs.Io.KnownBytes.{IsAtEnd};
ghost use Rattle.sect_edge.specs.Causes.{Rose};
ghost use Rattle.sect_script.specs.declared.script.LineFault.TheVariants as faults;
ghost use Rattle.sect_script.specs.declared.script.RunEnd.TheVariants as ends;
ghost use Rattle.sect_script.specs.Run.{AnswersBehind, LINES_LIMIT, MayAnswer, Ran};
ghost use Rattle.sect_script.specs.Progress.{GoesOn, Progress, Turns};

use crate::write::{Unwritten, write_many, write_out};
use crate::{LineEnd, LineError, LineReader};
use sect_edge::{Sink, Source};
use std::alloc::Global;

const MAX_LINES: u64 = 16_777_216;

/// Why a line has no answer.
#[derive(Clone, Copy, PartialEq, Eq)]
pub enum LineFault {
    Bad,
    Memory,
}

/// How a run ended.
#[derive(Clone, Copy, PartialEq, Eq)]
pub enum RunEnd {
    Done,
    /// This line, counted from 1, can't be read; the field is 0 where none is named.
    BadLine { line: u64, field: u32 },
    ReadFault,
    WriteFault,
    Memory,
}

/// What answers lines.
pub trait Handler {
    /// The line has an answer.
    ghost known: { List ℕ → Type 0 };

    /// In one state the line is answered by these bytes, which leads to another state.
    ghost answers: { Self → List ℕ → List ℕ → Self → Type 0 };

    /// Puts the answer to a line behind what `into` holds. `Bad` comes only where the line has none. At a fault what `into` held
    /// stands in front, and what is behind it is left open. At `Memory` the line was answered or not.
    fn answer(&mut self, line: &[u8], into: &mut Vec<u8>) -> Result<(), LineFault>
        ensures answered { OnOk result (AnswersBehind answers self.old line.now into.old.items into.new.items self.new) }
        ensures front { OnErr result (take (length into.old.items) into.new.items ≡ into.old.items) }
        ensures bad { IsErrOf result faults.Bad → known line.now → ⊥ }
        ensures kept { IsErrOf result faults.Bad → self.new ≡ self.old }
        ensures memory { IsErrOf result faults.Memory → MayAnswer answers self.old line.now self.new };
}

/// Answers each line of the source into the sink, up to the first that is bad. Answers are gathered, and written before
/// the source is read, when they are many, and at the end.
pub fn run_lines<S: Source, K: Sink, H: Handler>(
    alloc: Global,
    source: &mut S,
    sink: &mut K,
    handler: &mut H,
) -> RunEnd
    ensures ran { Ran H.known H.answers (S.left source.old) (S.left source.new) (K.taken sink.old) (K.taken sink.new)
        handler.old handler.new result }
    ensures end { result ≡ ends.Done → IsAtEnd (S.left source.new) }
    ensures read_fault { result ≡ ends.ReadFault → Rose (S.faults source.old) (S.faults source.new) }
    ensures write_fault { result ≡ ends.WriteFault → Rose (K.faults sink.old) (K.faults sink.new) }
{
    let Ok(mut reader) = LineReader::new(alloc) else {
        return RunEnd::Memory;
    };
    let mut line = Vec::new(alloc);
    let mut gathered = Vec::new(alloc);
    let mut number = 1;
    loop {
        match turn(
            &mut reader,
            source,
            sink,
            handler,
            &mut line,
            &mut gathered,
            number,
        ) {
            None => number += 1,
            Some(end) => match write_out(sink, &mut gathered) {
                Ok(()) => return end,
                Err(Unwritten) => return RunEnd::WriteFault,
            },
        }
    }
}

/// Reads and answers one line. The end is there where the run ends, but for the writing of what was gathered.
fn turn<S: Source, K: Sink, H: Handler>(
    reader: &mut LineReader,
    source: &mut S,
    sink: &mut K,
    handler: &mut H,
    line: &mut Vec<u8>,
    gathered: &mut Vec<u8>,
    number: u64,
) -> Option<RunEnd>
    ensures ran { (left taken : Option (List ℕ)) (old : H)
        → Progress H.answers left (S.left source.old) taken (K.taken sink.old) old handler.old number reader.old gathered.old.items
        → GoesOn H.known H.answers left (S.left source.new) taken (K.taken sink.new) old handler.new number reader.new gathered.new.items result }
    ensures bound { IfNone result (number ≤ LINES_LIMIT) }
    ensures end { result ≡ Some ends.Done → IsAtEnd (S.left source.new) }
    ensures read_fault { result ≡ Some ends.ReadFault → Rose (S.faults source.old) (S.faults source.new) }
    ensures write_fault { result ≡ Some ends.WriteFault → Rose (K.faults sink.old) (K.faults sink.new) }
    ensures read_faults { S.faults source.old ≤ S.faults source.new }
    ensures write_faults { K.faults sink.old ≤ K.faults sink.new }
{
    match reader.read_line(source, sink, gathered, line) {
        Ok(LineEnd::LineFeed) => answer_line(sink, handler, line, gathered, number),
        Ok(LineEnd::EndOfInput) => {
            if line.is_empty() {
                return Some(RunEnd::Done);
            }
            match answer_line(sink, handler, line, gathered, number) {
                None => Some(RunEnd::Done),
                Some(status) => Some(status),
            }
        }
        Err(LineError::TooLong) => Some(RunEnd::BadLine {
            line: number,
            field: 0,
        }),
        Err(LineError::Failed) => Some(RunEnd::ReadFault),
        Err(LineError::Unwritten) => Some(RunEnd::WriteFault),
        Err(LineError::Memory) => Some(RunEnd::Memory),
    }
}

/// Answers one line, and writes what is gathered where it is many. The end is there where the run ends.
fn answer_line<K: Sink, H: Handler>(
    sink: &mut K,
    handler: &mut H,
    line: &[u8],
    gathered: &mut Vec<u8>,
    number: u64,
) -> Option<RunEnd>
    ensures answered { Turns H.known H.answers K.taken handler.old handler.new sink.old sink.new gathered.old.items gathered.new.items number line.now result }
    ensures write_fault { result ≡ Some ends.WriteFault → Rose (K.faults sink.old) (K.faults sink.new) }
    ensures write_faults { K.faults sink.old ≤ K.faults sink.new }
{
    if number > MAX_LINES {
        return Some(RunEnd::BadLine {
            line: number,
            field: 0,
        });
    }
    let before = gathered.len();
    match handler.answer(line, gathered) {
        Ok(()) => match write_many(sink, gathered) {
            Ok(()) => None,
            Err(Unwritten) => Some(RunEnd::WriteFault),
        },
        Err(fault) => {
            gathered.truncate(before);
            Some(end_at(fault, number))
        }
    }
}

/// How a run ends at the line with this number, which has no answer.
fn end_at(fault: LineFault, number: u64) -> RunEnd
    ensures bad { fault ≡ faults.Bad → result ≡ ends.BadLine number 0 }
    ensures memory { fault ≡ faults.Memory → result ≡ ends.Memory }
{
    match fault {
        LineFault::Bad => RunEnd::BadLine {
            line: number,
            field: 0,
        },
        LineFault::Memory => RunEnd::Memory,
    }
}
