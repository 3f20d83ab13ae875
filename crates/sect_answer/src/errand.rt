// What a request asks for.

ghost use Rattle.std.specs.Prelude.{◌≡◌, IfOk, IfSome, IfNone, Result, Ok, Err, Some, ℕ};
ghost use Rattle.sect_command.specs.declared.command.Command.{Command};
ghost use Rattle.sect_wire.specs.Bodies.{command_of};
ghost use Rattle.sect_talk.specs.Pages.{method_text};
ghost use Rattle.sect_read.specs.Fits.{FitsId};
ghost use Rattle.sect_answer.specs.declared.target.Target.TheVariants.{Ask, Look};
ghost use Rattle.sect_answer.specs.Errands.{FitsErrand, IsErrand, errand_for, path_of};

use crate::{Routes, Target};
use sect_base::{Id, Memory};
use sect_command::{Command, Query};
use sect_read::WireFault;
use sect_talk::Method;
use sect_wire::{a_read_command_has_a_text, read_body};
use sect_words::{Parts, same_bytes};
use std::alloc::Global;

/// What a request asks for.
#[derive(Drop)]
pub enum Errand {
    /// Its path is no target's.
    NoRoute,
    /// The target has this method, and the request another.
    OtherMethod(Method),
    /// Its body says no command.
    NoCommand,
    /// The command of the body is asked under this id.
    Asks(Id, Command),
    /// A report is asked for.
    Looks(Query),
}

/// The bytes of a target before its first question mark.
fn path_of(target: &[u8]) -> &[u8]
    ensures { result.now ≡ path_of target.now }
{
    let mut parts = Parts::new(target, b'?');
    match parts.next() {
        Some(path) => path,
        None => b"",
    }
}

/// The command that a body says, or none. It takes memory.
fn command_of(alloc: Global, body: &[u8]) -> Result<Option<Command>, Memory>
    ensures said { IfOk result (λ found. IfSome found (λ c. command_of body.now ≡ Ok c)) }
    ensures none { IfOk result (λ found. IfNone found ((n : ℕ) × (command_of body.now ≡ Err n))) }
{
    match read_body(alloc, body) {
        Ok(command) => Ok(Some(command)),
        Err(WireFault::Memory) => Err(Memory),
        Err(_) => Ok(None),
    }
}

/// What is asked for where the target is one of asks.
fn ask_errand(alloc: Global, id: Id, method: &[u8], body: &[u8]) -> Result<Errand, Memory>
    requires { FitsId id }
    ensures errand { IfOk result (λ e. e ≡ errand_for method.now (command_of body.now) (Some (Ask id))) }
    ensures fits { IfOk result FitsErrand }
{
    if !same_bytes(method, b"POST") {
        return Ok(Errand::OtherMethod(Method::Post));
    }
    a_read_command_has_a_text();
    match command_of(alloc, body)? {
        Some(command) => Ok(Errand::Asks(id, command)),
        None => Ok(Errand::NoCommand),
    }
}

/// What is asked for where the target is a report's.
fn look_errand(query: Query, method: &[u8]) -> Errand
    ensures errand { (said : Result Command ℕ) → result ≡ errand_for method.now said (Some (Look query)) }
    ensures fits { FitsErrand result }
{
    if same_bytes(method, b"GET") {
        Errand::Looks(query)
    } else {
        Errand::OtherMethod(Method::Get)
    }
}

/// What a request asks for, by its method, its target and its body. It takes the memory of the command.
pub fn read_errand(
    alloc: Global,
    routes: &Routes,
    method: &[u8],
    target: &[u8],
    body: &[u8],
) -> Result<Errand, Memory>
    ensures found { IfOk result (IsErrand method.now target.now body.now) }
    ensures only { (e : Errand) → IsErrand method.now target.now body.now e → IfOk result (λ found. found ≡ e) }
    ensures fits { IfOk result FitsErrand }
{
    match routes.target(path_of(target)) {
        None => Ok(Errand::NoRoute),
        Some(Target::Ask(id)) => ask_errand(alloc, id, method, body),
        Some(Target::Look(query)) => Ok(look_errand(query, method)),
    }
}
