// Checks the lines of a source, and asks nothing.

ghost use Rattle.std.specs.Prelude.{◌≡◌, ◌+◌, ◌++◌, ◌≢◌, ℕ, OnOk};
ghost use Rattle.std.specs.Io.KnownBytes.{IsAtEnd};
ghost use Rattle.sect_edge.specs.Causes.{Rose};
ghost use Rattle.sect_script.specs.declared.status.Status.{Status};
ghost use Rattle.sect_clerk.specs.Checked.{
  AnyText,
  Checks,
  ChecksLine,
  NamesTheRefused,
  RunWould,
  check_status as status_after,
  first_after as refused_after,
  said_of,
};

use sect_asking::is_passed_over;
use sect_base::Memory;
use sect_check::print_complaint;
use sect_edge::{Sink, Source};
use sect_script::{Handler, LineFault, RunEnd, Status, run_lines, status_of};
use std::alloc::Global;

/// How many lines were checked, and the number of the first that is refused.
#[derive(Clone, Copy, PartialEq, Eq)]
pub struct Checker {
    pub lines: u64,
    pub first: Option<u64>,
}

impl Handler for Checker {
    ghost known = { AnyText };

    ghost answers = { ChecksLine };

    fn answer(&mut self, line: &[u8], into: &mut Vec<u8>) -> Result<(), LineFault> {
        let Some(number) = self.lines.checked_add(1) else {
            return Err(LineFault::Memory);
        };
        let mut said = Vec::new(*into.allocator());
        if say(number, line, &mut said).is_err() || into.extend_from_slice(&said).is_err() {
            return Err(LineFault::Memory);
        }
        self.lines = number;
        self.first = first_after(self.first, number, &said);
        Ok(())
    }
}

/// Appends what is said of the line with this number.
#[tactic(auto, unfolding(crate::specs::Checked::said_of))]
fn say(number: u64, line: &[u8], into: &mut Vec<u8>) -> Result<(), Memory>
    ensures { OnOk result (into.new.items ≡ into.old.items ++ said_of number line.now) }
{
    if is_passed_over(line) {
        return Ok(());
    }
    print_complaint(number, line, into)
}

/// Nothing is said of a line exactly where a run takes it.
pub fn what_is_said_is_of_refused_lines()
    ensures { NamesTheRefused }
{}

/// The first that was refused, after a line with this number of which this was said.
fn first_after(first: Option<u64>, number: u64, said: &[u8]) -> Option<u64>
    ensures { result ≡ refused_after first number said.now }
{
    match first {
        Some(first) => Some(first),
        None if said.is_empty() => None,
        None => Some(number),
    }
}

/// Names each line of the source that a run would refuse, with the word at which it is no request and the form that is
/// expected there. A line that is too long, or one too many, ends it. The status is that of a run which would read the lines.
pub fn check<S: Source, T: Sink>(alloc: Global, source: &mut S, sink: &mut T) -> Status
    ensures checks { Checks (S.left source.old) (S.left source.new) (T.taken sink.old) (T.taken sink.new) result }
    ensures run { RunWould result (S.left source.old) }
    ensures end { result ≡ Status.Done → IsAtEnd (S.left source.new) }
    ensures read_fault { result ≡ Status.ReadFault → Rose (S.faults source.old) (S.faults source.new) }
    ensures write_fault { result ≡ Status.WriteFault → Rose (T.faults sink.old) (T.faults sink.new) }
    ensures others { (result ≢ Status.BadWords) × (result ≢ Status.LinkFault) × (result ≢ Status.KeeperFault) }
    ensures no_entry { (row : ℕ) → result ≢ Status.BadEntry row }
{
    let mut checker = Checker {
        lines: 0,
        first: None,
    };
    let end = run_lines(alloc, source, sink, &mut checker);
    check_status(checker.first, end)
}

/// The status of a check.
fn check_status(first: Option<u64>, end: RunEnd) -> Status
    ensures { result ≡ status_after first end }
{
    match end {
        RunEnd::Done | RunEnd::BadLine { .. } => match first {
            Some(line) => Status::BadLine { line, field: 0 },
            None => status_of(end),
        },
        _ => status_of(end),
    }
}
