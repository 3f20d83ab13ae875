// A line acts.

use sect_base::{Day, Memory, read_day};
use sect_command::Reply;
use sect_machine::Machine;
use sect_once::Object;
use sect_text::print_reply;
use sect_wire::{LineAsk, read_line};
use sect_words::print_text;
use std::alloc::Global;

/// The day of a line; 2025-09-01 where it names none.
pub fn day_of(ask: &LineAsk) -> Option<Day> {
    match ask.day {
        Some(day) => Some(day),
        None => read_day(b"2025-09-01").ok(),
    }
}

/// Acts a line, and appends its reply.
pub fn answer(
    alloc: Global,
    machine: &mut Machine,
    line: &str,
    into: &mut Vec<u8>,
) -> Result<(), Memory> {
    match reply_to(alloc, machine, line.as_bytes())? {
        Some(reply) => print_reply(&reply, into)?,
        None => print_text("no request", into)?,
    }
    print_text("\n", into)
}

/// Acts a line on its day, and gives its reply. None where it is no request.
fn reply_to(alloc: Global, machine: &mut Machine, line: &[u8]) -> Result<Option<Reply>, Memory> {
    match read_line(alloc, line) {
        Ok(ask) => acted(machine, ask),
        Err(_) => Ok(None),
    }
}

/// Acts a request on its day.
fn acted(machine: &mut Machine, ask: LineAsk) -> Result<Option<Reply>, Memory> {
    let Some(day) = day_of(&ask) else {
        return Ok(None);
    };
    let LineAsk { id, command, .. } = ask;
    let mut command = command;
    let reply = machine.step(day, id.caller, &mut command)?;
    Ok(Some(reply))
}
