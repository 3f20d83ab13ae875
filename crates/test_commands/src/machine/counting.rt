// How many searches a line takes.

ghost use Rattle.std.specs.Prelude.{◌≡◌, ◌<◌};

use crate::machine::acting::day_of;
use sect_base::{Caller, Day, Memory, Steps};
use sect_command::{Command, Reply};
use sect_machine::{Machine, ToldStep};
use sect_text::print_reply;
use sect_wire::{LineAsk, read_line};
use sect_words::{print_number, print_text};
use std::alloc::Global;
use std::marker::Brand;
use std::sync::ledger::{Blank, Ledger};

/// The reply of a step, and how many searches it took.
fn counted<L: Ledger>(
    machine: &mut Machine,
    day: Day,
    caller: Caller,
    command: Command,
    blank: Blank,
) -> Result<(Reply, u64), Memory>
    requires name { blank.name ≡ L.name }
    requires parts { blank.parts ≡ L.parts }
    requires some { 0 < blank.parts }
{
    let mut steps: Steps<L> = Steps::new(blank);
    let mut command = command;
    let ToldStep { reply, .. } = machine.step_counted(day, caller, &mut command, &mut steps)?;
    Ok((reply, steps.counted()))
}

/// Appends a reply, and how many searches its step took.
fn print_counted(reply: &Reply, searches: u64, into: &mut Vec<u8>) -> Result<(), Memory> {
    print_reply(reply, into)?;
    print_text(", searches ", into)?;
    print_number(searches, into)?;
    print_text("\n", into)
}

/// Acts a request, and appends its reply and how many searches it took.
fn count_ask(machine: &mut Machine, ask: LineAsk, into: &mut Vec<u8>) -> Result<(), Memory> {
    let Some(day) = day_of(&ask) else {
        return Ok(());
    };
    let LineAsk { id, command, .. } = ask;
    let (reply, searches) = counted::<Brand>(machine, day, id.caller, command, Blank::new(1))?;
    print_counted(&reply, searches, into)
}

/// Acts a line, and appends its reply and how many searches it took.
pub fn count(
    alloc: Global,
    machine: &mut Machine,
    line: &str,
    into: &mut Vec<u8>,
) -> Result<(), Memory> {
    match read_line(alloc, line.as_bytes()) {
        Ok(ask) => count_ask(machine, ask, into),
        Err(_) => print_text("no request\n", into),
    }
}
