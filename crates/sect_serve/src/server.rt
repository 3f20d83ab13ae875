// A worker with its link.
ghost use Rattle.std.specs.Prelude.{◌≡◌, ◌≤◌, ◌*◌, ◌+◌, ◌^◌, ℕ, List, [], None};
ghost use mathlib.Core.List.{IsPrefix};
ghost use Rattle.sect_answer.specs.Answering.{sitting};
ghost use Rattle.sect_http.specs.Answers.{Answers};
ghost use Rattle.sect_office.specs.Calls.{AddsCalls};
ghost use Rattle.sect_turn.specs.Passes.{front, opening, own_calls, share, IsIdle, IsPassOf};
ghost use Rattle.sect_serve.specs.Working.{Attends, Underway, WorkerDid, Works};

use sect_command::{Query, View};
use sect_edge::{Clock, Gate, Keeper, Link, LinkFault};
use sect_http::{Bench, talk};
use sect_office::{Office, Work};
use sect_once::Desk;
use sect_turn::Pass;
use sect_wire::TextObject;
use std::alloc::Global;
use std::sync::Wait;

/// A worker: its link, its clock, the gate that it passes at its steps, its number, and how many connections it serves
/// at most.
#[derive(Drop)]
pub struct Server<'a, L, C, G> {
    pub alloc: Global,
    pub link: L,
    pub clock: C,
    pub gate: &'a G,
    pub worker: u32,
    pub sessions: u32,
}

/// How a worker ended.
#[derive(Clone, Copy, PartialEq, Eq)]
pub enum WorkerEnd {
    /// No connection was to come, or it has served as many as it may.
    Done,
    /// Its link failed, and counted it.
    Failed,
    /// Want of memory.
    Memory,
}

/// The link of a worker, and how the worker ended.
#[derive(Drop)]
pub struct Back<L> {
    pub link: L,
    pub end: WorkerEnd,
}

impl<
    'a,
    O: TextObject<Query = Query, View = View>,
    K: Keeper,
    L: Link + Send + Drop,
    C: Clock + Drop,
    G: Gate,
> Work<Desk<O, K>> for Server<'a, L, C, G> {
    type Given = Back<L>;

    ghost did = { λ w first seen calls given. WorkerDid (Answers O.start O.stepped O.is_row O.looked) L.In.left L.Out.taken L.In.faults L.Out.faults
        (L.connections w.link) (L.connections given.link) (L.faults w.link) (L.faults given.link) (C.days w.clock) w.sessions given.end first seen calls };

    fn run<R: Wait>(self, rt: &R, office: &Office<O, K>, pass: &mut Pass<Desk<O, K>>) -> Back<L> {
        let Server {
            alloc,
            mut link,
            mut clock,
            gate,
            worker,
            sessions,
        } = self;
        let Ok(mut bench) = Bench::new(alloc) else {
            return Back {
                link,
                end: WorkerEnd::Memory,
            };
        };
        let end = work(
            rt, office, pass, &mut link, &mut clock, gate, worker, sessions, &mut bench,
        );
        Back { link, end }
    }
}

/// Talks over at most so many connections, one after another, until none is to come or the link fails.
fn work<O: TextObject<Query = Query, View = View>, K: Keeper, L: Link, C: Clock, G: Gate, R: Wait>(
    rt: &R,
    office: &Office<O, K>,
    pass: &mut Pass<Desk<O, K>>,
    link: &mut L,
    clock: &mut C,
    gate: &G,
    worker: u32,
    sessions: u32,
    bench: &mut Bench,
) -> WorkerEnd
    requires turn { IsPassOf (λ d. d.log) (λ d. d.base) office.now.turn pass.old }
    requires between_turns { IsIdle pass.old }
    ensures turn { IsPassOf (λ d. d.log) (λ d. d.base) office.now.turn pass.new × IsIdle pass.new }
    ensures same { (share pass.new ≡ share pass.old) × (opening pass.new ≡ opening pass.old) }
    ensures grown { IsPrefix (front pass.old) (front pass.new) }
    ensures works { (next : ℕ) × Works (Answers O.start O.stepped O.is_row O.looked) L.In.left L.Out.taken L.In.faults L.Out.faults
        (L.connections link.old) (L.connections link.new) (L.faults link.old) (L.faults link.new)
        (sitting pass.old (C.days clock.old)) (sitting pass.new (C.days clock.new)) 0 next sessions result }
{
    let mut step = 0;
    for count in 0..sessions {
        let end = attend(
            rt, office, pass, link, clock, gate, worker, &mut step, bench,
        );
        if let Some(end) = end {
            return end;
        }
    }
    WorkerEnd::Done
}

/// Talks over the next connection and hands it back.
fn attend<
    O: TextObject<Query = Query, View = View>,
    K: Keeper,
    L: Link,
    C: Clock,
    G: Gate,
    R: Wait,
>(
    rt: &R,
    office: &Office<O, K>,
    pass: &mut Pass<Desk<O, K>>,
    link: &mut L,
    clock: &mut C,
    gate: &G,
    worker: u32,
    step: &mut u64,
    bench: &mut Bench,
) -> Option<WorkerEnd>
    requires turn { IsPassOf (λ d. d.log) (λ d. d.base) office.now.turn pass.old }
    requires between_turns { IsIdle pass.old }
    requires step { step.old ≤ 2 ^ 63 }
    ensures turn { IsPassOf (λ d. d.log) (λ d. d.base) office.now.turn pass.new × IsIdle pass.new }
    ensures same { (share pass.new ≡ share pass.old) × (opening pass.new ≡ opening pass.old) }
    ensures grown { IsPrefix (front pass.old) (front pass.new) }
    ensures attends { Attends (Answers O.start O.stepped O.is_row O.looked) L.In.left L.Out.taken L.In.faults L.Out.faults
        (L.connections link.old) (L.connections link.new) (L.faults link.old) (L.faults link.new)
        (sitting pass.old (C.days clock.old)) (sitting pass.new (C.days clock.new)) step.old step.new result }
    ensures steps { step.new ≤ step.old + 2000000 }
{
    match link.accept() {
        Ok(Some((mut source, mut sink))) => {
            talk(
                rt,
                office,
                pass,
                &mut source,
                &mut sink,
                clock,
                gate,
                worker,
                step,
                bench,
            );
            link.finish(source, sink);
            None
        }
        Ok(None) => Some(WorkerEnd::Done),
        Err(LinkFault::Failed) => Some(WorkerEnd::Failed),
        Err(LinkFault::Memory) => Some(WorkerEnd::Memory),
    }
}
