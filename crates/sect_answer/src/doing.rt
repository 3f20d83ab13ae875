// What is asked for is done.

ghost use Rattle.std.specs.Prelude.{[], ◌≡◌, ◌≤◌, ℕ, List, Option, vec_capacity};
ghost use mathlib.Core.List.{IsPrefix};
ghost use Rattle.sect_answer.specs.Answering.{Does, DoesAsk, DoesLook, said_of, sitting};
ghost use Rattle.sect_answer.specs.Errands.{MayDo};
ghost use Rattle.sect_read.specs.Fits.{FitsDay};
ghost use Rattle.sect_turn.specs.Passes.{front, opening, share, IsIdle, IsPassOf};

use crate::errand::Errand;
use crate::said::{answered, no_command, no_route, other_method};
use http::StatusCode;
use sect_base::{Id, Memory};
use sect_command::{Command, Query, Reply, View};
use sect_edge::{Clock, Keeper};
use sect_office::Office;
use sect_once::{Desk, Object};
use sect_report::report;
use sect_talk::{Kind, Page};
use sect_turn::Pass;
use std::sync::Wait;

/// Asks the office a command on the clock's day.
fn ask<
    O: Object<Command = Command, Reply = Reply, Query = Query, View = View>,
    K: Keeper,
    C: Clock,
    R: Wait,
>(
    rt: &R,
    office: &Office<O, K>,
    pass: &mut Pass<Desk<O, K>>,
    clock: &mut C,
    id: Id,
    command: Command,
    into: &mut Vec<u8>,
) -> Result<Page, Memory>
    requires turn { IsPassOf (λ d. d.log) (λ d. d.base) office.now.turn pass.old }
    requires between_turns { IsIdle pass.old }
    requires askable { (day : ℕ) → FitsDay day → O.may_ask id day command }
    requires empty { into.old.items ≡ [] }
    requires room { 64 ≤ vec_capacity into.old }
    ensures turn { IsPassOf (λ d. d.log) (λ d. d.base) office.now.turn pass.new × IsIdle pass.new }
    ensures same { (share pass.new ≡ share pass.old) × (opening pass.new ≡ opening pass.old) }
    ensures does { DoesAsk O.start O.stepped O.is_row O.looked id command
        (sitting pass.old (C.days clock.old)) (said_of result into.new.items) (sitting pass.new (C.days clock.new)) }
{
    let day = clock.today();
    let answer = office.ask(rt, pass, id, day, command);
    answered(&answer, into)
}

/// Looks at the object of the office.
fn look<
    O: Object<Command = Command, Reply = Reply, Query = Query, View = View>,
    K: Keeper,
    R: Wait,
>(
    rt: &R,
    office: &Office<O, K>,
    pass: &mut Pass<Desk<O, K>>,
    query: &Query,
    into: &mut Vec<u8>,
) -> Result<Page, Memory>
    requires turn { IsPassOf (λ d. d.log) (λ d. d.base) office.now.turn pass.old }
    requires between_turns { IsIdle pass.old }
    requires empty { into.old.items ≡ [] }
    ensures turn { IsPassOf (λ d. d.log) (λ d. d.base) office.now.turn pass.new × IsIdle pass.new }
    ensures same { (share pass.new ≡ share pass.old) × (opening pass.new ≡ opening pass.old) }
    ensures does { (days : Option (List ℕ)) → DoesLook O.start O.stepped O.is_row O.looked query.now
        (sitting pass.old days) (said_of result into.new.items) (sitting pass.new days) }
{
    let view = office.look(rt, pass, query)?;
    report(query, &view, into)?;
    Ok(Page {
        status: StatusCode::OK,
        kind: Kind::Text,
        allow: None,
        closing: false,
    })
}

/// Does what a request asks for, and gives the page of the answer, with its text in the room. The clock is read once for
/// a command, and else not at all. `Memory` is where the answer is that memory was wanted: a command may have acted then.
pub fn act<
    O: Object<Command = Command, Reply = Reply, Query = Query, View = View>,
    K: Keeper,
    C: Clock,
    R: Wait,
>(
    rt: &R,
    office: &Office<O, K>,
    pass: &mut Pass<Desk<O, K>>,
    clock: &mut C,
    errand: Errand,
    into: &mut Vec<u8>,
) -> Result<Page, Memory>
    requires turn { IsPassOf (λ d. d.log) (λ d. d.base) office.now.turn pass.old }
    requires between_turns { IsIdle pass.old }
    requires askable { MayDo O.may_ask errand }
    requires empty { into.old.items ≡ [] }
    requires room { 64 ≤ vec_capacity into.old }
    ensures turn { IsPassOf (λ d. d.log) (λ d. d.base) office.now.turn pass.new × IsIdle pass.new }
    ensures same { (share pass.new ≡ share pass.old) × (opening pass.new ≡ opening pass.old) }
    ensures does { Does O.start O.stepped O.is_row O.looked errand
        (sitting pass.old (C.days clock.old)) (said_of result into.new.items) (sitting pass.new (C.days clock.new)) }
{
    match errand {
        Errand::NoRoute => Ok(no_route(into)),
        Errand::OtherMethod(method) => Ok(other_method(method, into)),
        Errand::NoCommand => Ok(no_command(into)),
        Errand::Asks(id, command) => ask(rt, office, pass, clock, id, command, into),
        Errand::Looks(query) => look(rt, office, pass, &query, into),
    }
}
