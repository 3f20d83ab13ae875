// Bodies are read.

ghost use Rattle.std.specs.Prelude.{◌≡◌, IfOk, option_map};
ghost use Rattle.serde_json.specs.View.{view};
ghost use Rattle.sect_wire.specs.Bodies.{Says, command_of, object_in};

use crate::field::required;
use crate::verbs::command;
use sect_base::Memory;
use sect_command::Command;
use sect_read::WireFault;
use sect_words::Fault;
use serde_json::Value;
use std::alloc::Global;

/// The object that a body is, `None` exactly where it is none.
fn object_in(alloc: Global, body: &[u8]) -> Result<Option<Value>, Memory>
    ensures { IfOk result (λ found. option_map view found ≡ object_in body.now) }
{
    match Value::from_slice(alloc, body) {
        Ok(value) => if value.is_object() {
            Ok(Some(value))
        } else {
            Ok(None)
        },
        Err(error) => if error.is_memory() {
            Err(Memory)
        } else {
            Ok(None)
        },
    }
}

/// The command that a body says. `BadBody` exactly where it says none: 0 where it is no JSON object, 1 where its verb is
/// missing or none of the six, 2 where a member is missing, unknown or not of its form. It takes memory.
#[tactic(auto, unfolding(crate::specs::Bodies::command_of))]
pub fn read_body(alloc: Global, body: &[u8]) -> Result<Command, WireFault>
    ensures { Says result (command_of body.now) }
{
    let object = match object_in(alloc, body) {
        Ok(Some(object)) => object,
        Ok(None) => return Err(WireFault::BadBody(0)),
        Err(_) => return Err(WireFault::Memory),
    };
    let verb = match required(alloc, &object, "verb") {
        Ok(verb) => verb,
        Err(Fault::Bad) => return Err(WireFault::BadBody(1)),
        Err(Fault::Memory) => return Err(WireFault::Memory),
    };
    match command(alloc, verb, &object) {
        Ok(command) => Ok(command),
        Err(Fault::Bad) => Err(WireFault::BadBody(2)),
        Err(Fault::Memory) => Err(WireFault::Memory),
    }
}
