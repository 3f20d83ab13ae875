// The session of one connection.

ghost use Rattle.std.specs.Prelude.{◌≡◌, ◌≢◌, ◌≤◌, ◌+◌, ◌^◌, ℕ, List, Option};
ghost use mathlib.Core.List.{IsPrefix};
ghost use Rattle.sect_answer.specs.Answering.{Sitting, sitting};
ghost use Rattle.sect_wire.specs.Objects.{TakesTexts};
ghost use Rattle.sect_edge.specs.Causes.{Rose};
ghost use Rattle.sect_http.specs.Answers.{Answers, IsRefusedAtOnce};
ghost use Rattle.sect_office.specs.Calls.{AddsCalls};
ghost use Rattle.sect_talk.specs.Talk.{Talked};
ghost use Rattle.sect_turn.specs.Passes.{front, opening, own_calls, share, IsIdle, IsPassOf};

use crate::turn::{pass_gate, turn};
use sect_answer::Routes;
use sect_base::Memory;
use sect_command::{Command, Query, Reply, View};
use sect_edge::{Clock, Gate, Keeper, Sink, Source};
use sect_office::Office;
use sect_once::{Desk, Object};
use sect_talk::{End, Room, no_memory, write_all};
use sect_turn::Pass;
use std::alloc::Global;
use std::sync::Wait;

/// What a worker needs for its connections, one after another: room for the bytes of each, and the routes.
pub struct Bench {
    alloc: Global,
    routes: Routes,
    room: Room,
    text: Vec<u8>,
    out: Vec<u8>,
}

/// It is written out, so that a caller does not prove again how each part is dropped.
impl Drop for Bench {
    fn drop(self) {
        let Bench {
            alloc: _,
            routes: _,
            room: _,
            text: _,
            out: _,
        } = self;
    }
}

impl Bench {
    /// A bench. It takes memory for the room, the routes and two texts.
    pub fn new(alloc: Global) -> Result<Bench, Memory> {
        let mut text = Vec::new(alloc);
        text.reserve(256)?;
        let mut out = Vec::new(alloc);
        out.reserve(512)?;
        Ok(Bench {
            alloc,
            routes: Routes::new(alloc)?,
            room: Room::new(alloc)?,
            text,
            out,
        })
    }
}

/// Serves one connection on a bench: reads its requests, asks the office and writes the answers, until the connection
/// closes, its input ends, or source or sink fails.
pub fn talk<
    O: Object<Command = Command, Reply = Reply, Query = Query, View = View>,
    K: Keeper,
    S: Source,
    T: Sink,
    C: Clock,
    G: Gate,
    R: Wait,
>(
    rt: &R,
    office: &Office<O, K>,
    pass: &mut Pass<Desk<O, K>>,
    source: &mut S,
    sink: &mut T,
    clock: &mut C,
    gate: &G,
    worker: u32,
    step: &mut u64,
    bench: &mut Bench,
) -> End
    requires turn { IsPassOf (λ d. d.log) (λ d. d.base) office.now.turn pass.old }
    requires between_turns { IsIdle pass.old }
    requires texts { TakesTexts O.may_ask }
    requires step { step.old ≤ 2 ^ 63 }
    ensures turn { IsPassOf (λ d. d.log) (λ d. d.base) office.now.turn pass.new × IsIdle pass.new }
    ensures same { (share pass.new ≡ share pass.old) × (opening pass.new ≡ opening pass.old) }
    ensures talked { Talked (Answers O.start O.stepped O.is_row O.looked) (S.left source.old) (S.left source.new)
        (T.taken sink.old) (T.taken sink.new) step.old step.new
        (sitting pass.old (C.days clock.old)) (sitting pass.new (C.days clock.new)) result }
    ensures later { (S.faults source.old ≤ S.faults source.new) × (T.faults sink.old ≤ T.faults sink.new) }
    ensures read_fault { result ≡ End.ReadFault → Rose (S.faults source.old) (S.faults source.new) }
    ensures write_fault { result ≡ End.WriteFault → Rose (T.faults sink.old) (T.faults sink.new) }
    ensures grown { IsPrefix (front pass.old) (front pass.new) }
    ensures calls { AddsCalls (front pass.old) (front pass.new) (own_calls pass.old) (own_calls pass.new) }
    ensures steps { (step.old ≤ step.new) × (step.new ≤ step.old + 2000000) }
{
    let Bench {
        alloc,
        routes,
        room,
        text,
        out,
    } = bench;
    room.clear();
    let mut number = 1;
    loop {
        let end = turn(
            rt, *alloc, office, pass, source, sink, clock, gate, worker, step, routes, room, text,
            out, number,
        );
        match end {
            Some(end) => return end,
            None => number += 1,
        }
    }
}

/// Serves one connection: reads its requests, asks the office and writes the answers, until the connection closes, its
/// input ends, or source or sink fails. Where memory is wanted for a bench, it tells that and reads nothing.
pub fn session<
    O: Object<Command = Command, Reply = Reply, Query = Query, View = View>,
    K: Keeper,
    S: Source,
    T: Sink,
    C: Clock,
    G: Gate,
    R: Wait,
>(
    rt: &R,
    alloc: Global,
    office: &Office<O, K>,
    pass: &mut Pass<Desk<O, K>>,
    source: &mut S,
    sink: &mut T,
    clock: &mut C,
    gate: &G,
    worker: u32,
    step: &mut u64,
) -> End
    requires turn { IsPassOf (λ d. d.log) (λ d. d.base) office.now.turn pass.old }
    requires between_turns { IsIdle pass.old }
    requires texts { TakesTexts O.may_ask }
    requires step { step.old ≤ 2 ^ 63 }
    ensures turn { IsPassOf (λ d. d.log) (λ d. d.base) office.now.turn pass.new × IsIdle pass.new }
    ensures same { (share pass.new ≡ share pass.old) × (opening pass.new ≡ opening pass.old) }
    ensures talked { Talked (Answers O.start O.stepped O.is_row O.looked) (S.left source.old) (S.left source.new)
        (T.taken sink.old) (T.taken sink.new) step.old step.new
        (sitting pass.old (C.days clock.old)) (sitting pass.new (C.days clock.new)) result }
    ensures later { (S.faults source.old ≤ S.faults source.new) × (T.faults sink.old ≤ T.faults sink.new) }
    ensures read_fault { result ≡ End.ReadFault → Rose (S.faults source.old) (S.faults source.new) }
    ensures write_fault { result ≡ End.WriteFault → Rose (T.faults sink.old) (T.faults sink.new) }
    ensures grown { IsPrefix (front pass.old) (front pass.new) }
    ensures calls { AddsCalls (front pass.old) (front pass.new) (own_calls pass.old) (own_calls pass.new) }
    ensures steps { (step.old ≤ step.new) × (step.new ≤ step.old + 2000000) }
{
    match Bench::new(alloc) {
        Ok(mut bench) => talk(
            rt, office, pass, source, sink, clock, gate, worker, step, &mut bench,
        ),
        Err(_) => refuse(rt, sink, gate, worker, step),
    }
}

/// Tells that memory was wanted before anything was read. The connection closes.
fn refuse<T: Sink, G: Gate, R: Wait>(
    rt: &R,
    sink: &mut T,
    gate: &G,
    worker: u32,
    step: &mut u64,
) -> End
    requires step { step.old ≤ 2 ^ 63 }
    ensures talked { (left : Option (List ℕ)) (old : Sitting) → Talked IsRefusedAtOnce left left
        (T.taken sink.old) (T.taken sink.new) step.old step.new old old result }
    ensures later { T.faults sink.old ≤ T.faults sink.new }
    ensures write_fault { result ≡ End.WriteFault → Rose (T.faults sink.old) (T.faults sink.new) }
    ensures others { result ≢ End.ReadFault }
{
    pass_gate(rt, gate, worker, step);
    match write_all(sink, no_memory(false)) {
        Ok(()) => {
            pass_gate(rt, gate, worker, step);
            End::Closed
        }
        Err(_) => End::WriteFault,
    }
}
