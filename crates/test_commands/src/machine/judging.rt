// A tree is held against a line that the machine would block.

ghost use Rattle.std.specs.Prelude.{◌≡◌};
ghost use Rattle.sect_model.specs.Step.{step as step_of};
ghost use Rattle.sect_machine.specs.Standing.{state_in};

use crate::machine::acting::day_of;
use sect_base::{Block, Caller, Day, Duplicate, Memory};
use sect_command::{Command, Reply, read_block};
use sect_machine::Machine;
use sect_machine::laws::blocked_commands_are_taken;
use sect_once::Object;
use sect_wire::{LineAsk, read_line};
use std::alloc::Global;

/// Appends whether a tree refutes a line that the machine would block.
pub fn judge(
    alloc: Global,
    machine: &mut Machine,
    line: &str,
    tree: &str,
    into: &mut Vec<u8>,
) -> Result<(), Memory> {
    let text = judged(alloc, machine, line, tree)?;
    into.extend_from_slice(text)?;
    into.push(b'\n')?;
    Ok(())
}

/// The word for what a tree says of a line.
fn judged(
    alloc: Global,
    machine: &mut Machine,
    line: &str,
    tree: &str,
) -> Result<&'static [u8], Memory> {
    match read_line(alloc, line.as_bytes()) {
        Ok(ask) => judged_ask(alloc, machine, &ask, tree),
        Err(_) => Ok(b"no request"),
    }
}

/// The word for what a tree says of a request.
fn judged_ask(
    alloc: Global,
    machine: &mut Machine,
    ask: &LineAsk,
    tree: &str,
) -> Result<&'static [u8], Memory> {
    let Some(day) = day_of(ask) else {
        return Ok(b"no request");
    };
    match read_block(alloc, tree.as_bytes())? {
        Some(tree) => Ok(word_of(refutes(alloc, machine, day, ask, &tree)?)),
        None => Ok(b"no tree"),
    }
}

fn word_of(refuted: Option<bool>) -> &'static [u8] {
    match refuted {
        Some(true) => b"refuted",
        Some(false) => b"not refuted",
        None => b"not blocked",
    }
}

/// Whether a tree refutes a request that the machine would block. None where it wouldn't block it. The machine is as before.
fn refutes(
    alloc: Global,
    machine: &mut Machine,
    day: Day,
    ask: &LineAsk,
    tree: &Block,
) -> Result<Option<bool>, Memory>
    ensures { state_in machine.new ≡ state_in machine.old }
{
    let mut command = ask.command.copy(alloc)?;
    let reply = machine.step(day, ask.id.caller, &mut command)?;
    machine.undo();
    checked(machine, day, ask.id.caller, &ask.command, &reply, tree)
}

/// The same, of a command whose reply is known.
fn checked(
    machine: &mut Machine,
    day: Day,
    caller: Caller,
    command: &Command,
    reply: &Reply,
    tree: &Block,
) -> Result<Option<bool>, Memory>
    requires { (step_of (state_in machine.old) day caller command.now).reply ≡ reply.now }
    ensures { state_in machine.new ≡ state_in machine.old }
{
    machine.recall_kept();
    blocked_commands_are_taken();
    match reply {
        Reply::Blocked(_, _) => Ok(Some(machine.recheck(day, command, tree)?)),
        _ => Ok(None),
    }
}
