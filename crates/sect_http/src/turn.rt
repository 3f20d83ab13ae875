// One request of a connection.

ghost use Rattle.std.specs.Prelude.{◌≡◌, ◌==◌, ◌||◌, ◌<◌, ◌≤◌, ◌+◌, ◌^◌, ◌-◌, ℕ, List, Option, None, Some};
ghost use Rattle.sect_answer.specs.Answering.{sitting, Sitting};
ghost use Rattle.sect_wire.specs.Objects.{TakesTexts};
ghost use Rattle.sect_edge.specs.Causes.{HasCause, Rose};
ghost use Rattle.sect_http.specs.Answers.{Answers};
ghost use Rattle.sect_http.specs.Hearing.{IsHeard};
ghost use Rattle.sect_http.specs.Turns.{Responds, wish_closes};
ghost use Rattle.sect_talk.specs.Asked.{Asked, LAST_REQUEST};
ghost use Rattle.sect_talk.specs.Talk.{GoesOn, Progress};
ghost use Rattle.sect_talk.specs.declared.end.End.TheVariants.{ReadFault, WriteFault};
ghost use Rattle.sect_turn.specs.Passes.{opening, share, IsIdle, IsPassOf};

use crate::hear::hear;
use crate::heard::{Heard, Wish};
use crate::say::say_ready;
use crate::tell::tell;
use sect_answer::Routes;
use sect_command::{Command, Query, Reply, View};
use sect_edge::{Clock, Failed, Gate, Keeper, Sink, Source};
use sect_office::Office;
use sect_once::{Desk, Object};
use sect_talk::{End, Room};
use sect_turn::Pass;
use std::alloc::Global;
use std::sync::Wait;

/// Whether the connection closes because of what is wished, or of the number of the request.
fn closes(wish: &Wish, number: u32) -> bool
    ensures { result ≡ (wish_closes wish.now || number == LAST_REQUEST) }
{
    match wish {
        Wish::Refused(_) | Wish::Wanting => true,
        Wish::Asks(_, closing) => *closing || number == 1_000_000,
    }
}

/// Passes the gate before a step, which is counted.
pub(crate) fn pass_gate<G: Gate, R: Wait>(rt: &R, gate: &G, worker: u32, step: &mut u64)
    requires { step.old < 2 ^ 64 - 1 }
    ensures { step.new ≡ step.old + 1 }
{
    gate.pass(rt, worker, *step);
    *step += 1;
}

/// Answers what was heard, and gives whether the connection closes behind it.
fn respond<
    O: Object<Command = Command, Reply = Reply, Query = Query, View = View>,
    K: Keeper,
    T: Sink,
    C: Clock,
    R: Wait,
>(
    rt: &R,
    office: &Office<O, K>,
    pass: &mut Pass<Desk<O, K>>,
    sink: &mut T,
    clock: &mut C,
    text: &mut Vec<u8>,
    out: &mut Vec<u8>,
    heard: Heard,
    number: u32,
) -> Result<bool, Failed>
    requires turn { IsPassOf (λ d. d.log) (λ d. d.base) office.now.turn pass.old }
    requires between_turns { IsIdle pass.old }
    requires texts { TakesTexts O.may_ask }
    requires heard { (pending : List ℕ) × (asked : Asked) × IsHeard pending heard asked }
    ensures turn { IsPassOf (λ d. d.log) (λ d. d.base) office.now.turn pass.new × IsIdle pass.new }
    ensures same { (share pass.new ≡ share pass.old) × (opening pass.new ≡ opening pass.old) }
    ensures responds { (pending : List ℕ) (asked : Asked) → IsHeard pending heard asked
        → Responds (Answers O.start O.stepped O.is_row O.looked) number (T.taken sink.old) (T.taken sink.new)
        (sitting pass.old (C.days clock.old)) asked (sitting pass.new (C.days clock.new)) result }
    ensures cause { HasCause (T.faults sink.old) (T.faults sink.new) result }
{
    let Heard {
        wish,
        len: _,
        headless,
    } = heard;
    let closing = closes(&wish, number);
    let said = say_ready(rt, office, pass, clock, wish, text, out);
    tell(sink, said, closing, headless, text, out)
}

/// Answers the next request of a connection, the one with this number, from 1 to 1,000,000. `None` where the connection
/// goes on behind it. The gate is passed before the request is asked and behind its answer.
pub(crate) fn turn<
    O: Object<Command = Command, Reply = Reply, Query = Query, View = View>,
    K: Keeper,
    S: Source,
    T: Sink,
    C: Clock,
    G: Gate,
    R: Wait,
>(
    rt: &R,
    alloc: Global,
    office: &Office<O, K>,
    pass: &mut Pass<Desk<O, K>>,
    source: &mut S,
    sink: &mut T,
    clock: &mut C,
    gate: &G,
    worker: u32,
    step: &mut u64,
    routes: &Routes,
    room: &mut Room,
    text: &mut Vec<u8>,
    out: &mut Vec<u8>,
    number: u32,
) -> Option<End>
    requires turn { IsPassOf (λ d. d.log) (λ d. d.base) office.now.turn pass.old }
    requires between_turns { IsIdle pass.old }
    requires texts { TakesTexts O.may_ask }
    requires number { number ≤ LAST_REQUEST }
    requires step { step.old < 2 ^ 64 - 2 }
    ensures turn { IsPassOf (λ d. d.log) (λ d. d.base) office.now.turn pass.new × IsIdle pass.new }
    ensures same { (share pass.new ≡ share pass.old) × (opening pass.new ≡ opening pass.old) }
    ensures goes { (left taken : Option (List ℕ)) (first : ℕ) (old : Sitting)
        → Progress (Answers O.start O.stepped O.is_row O.looked) left (S.left source.old) taken (T.taken sink.old) first step.old
        old (sitting pass.old (C.days clock.old)) number room.old
        → GoesOn (Answers O.start O.stepped O.is_row O.looked) left (S.left source.new) taken (T.taken sink.new) first step.new
        old (sitting pass.new (C.days clock.new)) number room.new result }
    ensures more { result ≡ None → (number < LAST_REQUEST) × (step.new ≡ step.old + 2) }
    ensures later { (S.faults source.old ≤ S.faults source.new) × (T.faults sink.old ≤ T.faults sink.new) }
    ensures read_fault { result ≡ Some ReadFault → Rose (S.faults source.old) (S.faults source.new) }
    ensures write_fault { result ≡ Some WriteFault → Rose (T.faults sink.old) (T.faults sink.new) }
{
    let heard = match hear(alloc, routes, room, source) {
        Ok(heard) => heard,
        Err(end) => return Some(end),
    };
    let len = heard.len;
    pass_gate(rt, gate, worker, step);
    let responded = respond(rt, office, pass, sink, clock, text, out, heard, number);
    let closing = match responded {
        Ok(closing) => closing,
        Err(_) => return Some(End::WriteFault),
    };
    pass_gate(rt, gate, worker, step);
    room.consume(len);
    if closing { Some(End::Closed) } else { None }
}
