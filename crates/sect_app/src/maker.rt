// Asks the generated commands of a machine of its own, and tells what became of the requests.
ghost use Rattle.std.specs.Prelude.{◌≡◌, ◌≢◌, ◌+◌, ◌<◌, ◌≤◌, ◌++◌, ℕ, IfOk, OnOk, count_by, decimal};
ghost use Rattle.sect_edge.specs.Causes.{Rose};
ghost use Rattle.sect_machine.specs.Standing.{state_in};
ghost use Rattle.sect_script.specs.declared.status.Status.{Status};
ghost use Rattle.sect_app.specs.Generated.{made_of};
ghost use Rattle.sect_app.specs.Made.{
  Makes,
  Prints,
  counted,
  lines_of,
  result_is_blocked,
  result_is_met,
  result_is_spent,
  summary_line,
  tallied,
  tally_from,
  tally_of,
};
ghost use Rattle.sect_app.specs.Stages.{stage_command, stage_count, tally_in};

use crate::generate::{batch, offering, requests, student};
use sect_base::{Caller, Day, Memory};
use sect_command::{Command, Line, LineResult, Reply};
use sect_edge::{Clock, Failed, Sink};
use sect_machine::Machine;
use sect_once::Object;
use sect_script::{Status, write_all};
use sect_words::print_number;
use std::alloc::Global;

/// A machine, and how many lines of its batches were met, blocked and spent.
#[derive(Drop)]
pub(crate) struct Maker {
    machine: Machine,
    met: usize,
    blocked: usize,
    spent: usize,
}

/// The kinds of the generated commands, in their order.
#[derive(Clone, Copy, PartialEq, Eq)]
pub(crate) enum Stage {
    Offerings,
    Students,
    Requests,
    Batches,
}

/// Asks the commands for so many offerings, from 1 to 100, on the clock's day, and writes the summary.
pub fn make<T: Sink, C: Clock>(alloc: Global, offerings: u32, sink: &mut T, clock: &mut C) -> Status
    requires first { 1 ≤ offerings }
    requires bound { offerings ≤ 100 }
    ensures makes { Makes offerings (C.days clock.old) (T.taken sink.old) (T.taken sink.new) result }
    ensures write_fault { result ≡ Status.WriteFault → Rose (T.faults sink.old) (T.faults sink.new) }
    ensures others { result ≢ Status.BadWords × (result ≢ Status.LinkFault) × (result ≢ Status.ReadFault) × (result ≢ Status.KeeperFault) }
    ensures no_entry { (row : ℕ) → result ≢ Status.BadEntry row }
{
    let day = clock.today();
    tell(alloc, offerings, day, sink)
}

/// The machine of which the commands for so many offerings, from 1 to 100, were asked on the day.
pub fn made_machine(alloc: Global, offerings: u32, day: Day) -> Result<Machine, Memory>
    requires first { 1 ≤ offerings }
    requires bound { offerings ≤ 100 }
    ensures { IfOk result (λ machine. state_in machine ≡ (tally_of offerings day).state) }
{
    let Maker {
        machine,
        met: _,
        blocked: _,
        spent: _,
    } = made(alloc, offerings, day)?;
    Ok(machine)
}

/// Asks the commands on the day, and writes the summary.
fn tell<T: Sink>(alloc: Global, offerings: u32, day: Day, sink: &mut T) -> Status
    requires first { 1 ≤ offerings }
    requires bound { offerings ≤ 100 }
    ensures prints { Prints (summary_line offerings (tally_of offerings day)) (T.taken sink.old) (T.taken sink.new) result }
    ensures write_fault { result ≡ Status.WriteFault → Rose (T.faults sink.old) (T.faults sink.new) }
    ensures others { result ≢ Status.BadWords × (result ≢ Status.LinkFault) × (result ≢ Status.ReadFault) × (result ≢ Status.KeeperFault) }
    ensures no_entry { (row : ℕ) → result ≢ Status.BadEntry row }
{
    match made(alloc, offerings, day) {
        Ok(maker) => write_summary(alloc, offerings, &maker, sink),
        Err(Memory) => Status::Memory,
    }
}

/// Writes the summary of what became of the requests.
fn write_summary<T: Sink>(alloc: Global, offerings: u32, maker: &Maker, sink: &mut T) -> Status
    requires bound { offerings ≤ 100 }
    ensures prints { Prints (summary_line offerings (tally_in maker.now)) (T.taken sink.old) (T.taken sink.new) result }
    ensures write_fault { result ≡ Status.WriteFault → Rose (T.faults sink.old) (T.faults sink.new) }
    ensures others { result ≢ Status.BadWords × (result ≢ Status.LinkFault) × (result ≢ Status.ReadFault) × (result ≢ Status.KeeperFault) }
    ensures no_entry { (row : ℕ) → result ≢ Status.BadEntry row }
{
    let mut line = Vec::new(alloc);
    if print_summary(offerings, maker, &mut line).is_err() {
        return Status::Memory;
    }
    match write_all(sink, &line) {
        Ok(()) => Status::Done,
        Err(Failed) => Status::WriteFault,
    }
}

/// Asks all the commands of an empty machine.
fn made(alloc: Global, offerings: u32, day: Day) -> Result<Maker, Memory>
    requires first { 1 ≤ offerings }
    requires bound { offerings ≤ 100 }
    ensures { IfOk result (λ maker. tally_in maker ≡ tally_of offerings day) }
{
    let mut maker = Maker {
        machine: Machine::empty(alloc),
        met: 0,
        blocked: 0,
        spent: 0,
    };
    ask_all(alloc, &mut maker, day, Stage::Offerings, offerings)?;
    ask_all(alloc, &mut maker, day, Stage::Students, offerings)?;
    ask_all(alloc, &mut maker, day, Stage::Requests, offerings)?;
    ask_all(alloc, &mut maker, day, Stage::Batches, offerings)?;
    Ok(maker)
}

/// Asks all commands of a kind.
fn ask_all(
    alloc: Global,
    maker: &mut Maker,
    day: Day,
    stage: Stage,
    offerings: u32,
) -> Result<(), Memory>
    requires first { 1 ≤ offerings }
    requires bound { offerings ≤ 100 }
    ensures { OnOk result (tally_in maker.new ≡ tally_from day (tally_in maker.old) (made_of (stage_command stage offerings) (stage_count stage offerings))) }
{
    for place in 0..count_of(stage, offerings) {
        let command = command_at(alloc, stage, offerings, place)?;
        ask(maker, day, command)?;
    }
    Ok(())
}

/// How many commands of the kind there are.
fn count_of(stage: Stage, offerings: u32) -> u32
    requires bound { offerings ≤ 100 }
    ensures { result ≡ stage_count stage offerings }
{
    match stage {
        Stage::Offerings => offerings,
        Stage::Students => 20 * offerings,
        Stage::Requests => 20 * offerings,
        Stage::Batches => (20 * offerings + 99) / 100,
    }
}

/// The command of the kind at the place.
fn command_at(alloc: Global, stage: Stage, offerings: u32, place: u32) -> Result<Command, Memory>
    requires first { 1 ≤ offerings }
    requires bound { offerings ≤ 100 }
    requires within { place < stage_count stage offerings }
    ensures { IfOk result (λ command. command ≡ stage_command stage offerings place) }
{
    match stage {
        Stage::Offerings => offering(alloc, place + 1),
        Stage::Students => Ok(student(alloc, place + 1)),
        Stage::Requests => requests(alloc, offerings, place + 1),
        Stage::Batches => batch(alloc, offerings, place),
    }
}

/// Asks the command as registrar 1 on the day, and counts the lines of the reply.
fn ask(maker: &mut Maker, day: Day, command: Command) -> Result<(), Memory>
    ensures { OnOk result (tally_in maker.new ≡ tallied day (tally_in maker.old) command) }
{
    let mut command = command;
    let reply = maker.machine.step(day, Caller::Registrar(1), &mut command)?;
    count(maker, lines_of(&reply))
}

/// The lines of a batch's reply.
fn lines_of(reply: &Reply) -> &[Line]
    ensures { result.now ≡ lines_of reply.now }
{
    match reply {
        Reply::Batched(lines) => lines.as_slice(),
        _ => &[],
    }
}

/// Counts the lines. A count above the largest number is told as want of memory.
fn count(maker: &mut Maker, lines: &[Line]) -> Result<(), Memory>
    ensures { OnOk result (tally_in maker.new ≡ counted (tally_in maker.old) (state_in maker.old.machine) lines.now) }
{
    maker.met = plus(maker.met, met_among(lines))?;
    maker.blocked = plus(maker.blocked, blocked_among(lines))?;
    maker.spent = plus(maker.spent, spent_among(lines))?;
    Ok(())
}

/// The sum, or want of memory where it is above the largest number.
fn plus(count: usize, more: usize) -> Result<usize, Memory>
    ensures { IfOk result (λ sum. sum ≡ count + more) }
{
    match count.checked_add(more) {
        Some(sum) => Ok(sum),
        None => Err(Memory),
    }
}

/// How many of the lines were met.
fn met_among(lines: &[Line]) -> usize
    ensures { result ≡ count_by (λ line. result_is_met line.result) lines.now }
{
    lines.iter().filter(|line| is_met(&line.result)).count()
}

/// How many of the lines were blocked.
fn blocked_among(lines: &[Line]) -> usize
    ensures { result ≡ count_by (λ line. result_is_blocked line.result) lines.now }
{
    lines.iter().filter(|line| is_blocked(&line.result)).count()
}

/// How many of the lines had a search that was too long.
fn spent_among(lines: &[Line]) -> usize
    ensures { result ≡ count_by (λ line. result_is_spent line.result) lines.now }
{
    lines.iter().filter(|line| is_spent(&line.result)).count()
}

/// Whether the request was met.
fn is_met(of: &LineResult) -> bool
    ensures { result ≡ result_is_met of.now }
{
    matches!(of, LineResult::Met(_))
}

/// Whether it was blocked.
fn is_blocked(of: &LineResult) -> bool
    ensures { result ≡ result_is_blocked of.now }
{
    matches!(of, LineResult::Blocked(_, _))
}

/// Whether its search was too long.
fn is_spent(of: &LineResult) -> bool
    ensures { result ≡ result_is_spent of.now }
{
    matches!(of, LineResult::Spent)
}

/// Appends the summary. After `Memory` a part of it may stand at the end.
fn print_summary(offerings: u32, maker: &Maker, into: &mut Vec<u8>) -> Result<(), Memory>
    requires bound { offerings ≤ 100 }
    ensures { OnOk result (into.new.items ≡ into.old.items ++ summary_line offerings (tally_in maker.now)) }
{
    print_count(b"offerings ", offerings as usize, into)?;
    print_count(b" students ", (20 * offerings) as usize, into)?;
    print_count(b" met ", maker.met, into)?;
    print_count(b" blocked ", maker.blocked, into)?;
    print_count(b" spent ", maker.spent, into)?;
    into.extend_from_slice(b"\n")?;
    Ok(())
}

/// Appends a word and a count.
fn print_count(word: &[u8], count: usize, into: &mut Vec<u8>) -> Result<(), Memory>
    ensures { OnOk result (into.new.items ≡ into.old.items ++ (word.now ++ decimal count)) }
{
    into.extend_from_slice(word)?;
    print_number(count, into)
}
