// Many links at one desk.
ghost use Rattle.std.specs.Prelude.{◌≡◌, ◌≤◌, ◌<◌, ℕ, List, [], All, IfErr, IfOk, IfSome, IsSome, length, map, take, vec_capacity, vec_len};
ghost use denote.Param.Send.{IsSend};
ghost use mathlib.Core.List.{IsPrefix};
ghost use Rattle.sect_command.specs.declared.command.Command.{Command};
ghost use Rattle.sect_command.specs.contracts.reply.Reply.{the_row as reply_row};
ghost use Rattle.sect_command.specs.declared.reply.Reply.{Reply};
ghost use Rattle.sect_http.specs.Answers.{Answers};
ghost use Rattle.sect_office.specs.Works.{AddsRuns};
ghost use Rattle.sect_once.specs.declared.entry.Entry.{Entry};
ghost use Rattle.sect_once.specs.declared.entry.Note.{Note};
ghost use Rattle.sect_once.specs.Desks.{IsSound, Standing};
ghost use Rattle.sect_turn.specs.Passes.{front, opening, own_calls, share, IsIdle, IsPassOf};
ghost use Rattle.sect_turn.specs.Rule.{whole_share};
ghost use Rattle.sect_serve.specs.Serving.{HaveServed, Serves};

use crate::collect::{collect, links_of, rooms, servers};
use crate::server::Server;
use sect_base::Memory;
use sect_command::{Query, Reply, View};
use sect_edge::{Clock, Gate, Keeper, Link};
use sect_office::{Office, Work, run_all};
use sect_once::{Desk, Object};
use sect_turn::Pass;
use sect_wire::TextObject;
use std::alloc::Global;
use std::sync::Wait;
use std::thread::Threads;

/// How serving ended.
#[derive(Clone, Copy, Debug, PartialEq, Eq)]
pub enum ServeEnd {
    /// Each worker was done.
    Done,
    /// A link failed, and counted it.
    LinkFault,
    /// Want of memory.
    Memory,
}

/// Serves each link by a worker of its own, with the clock at its place, in a thread of its own where one can be made.
/// Each worker serves at most `sessions` connections, one after another, and each connection asks the one desk. A fault
/// of a connection ends that connection alone, and a fault of a link its worker alone. The links come back in order, and
/// so does the desk's keeper, at want of memory too.
pub fn serve<
    O: TextObject<Query = Query, View = View> + Send,
    K: Keeper + Send,
    L: Link + Send + Drop,
    C: Clock + Send + Drop,
    G: Gate + Sync,
    R: Threads + Wait + Sync,
>(
    rt: &R,
    alloc: Global,
    desk: Desk<O, K>,
    links: Vec<L>,
    clocks: Vec<C>,
    sessions: u32,
    gate: &G,
) -> (ServeEnd, Option<K>, Vec<L>)
where
    O: Drop,
    L::In: Send,
    L::Out: Send,
    requires links { (0 < vec_len links) × (vec_len links ≤ 64) }
    requires clocks { vec_len links ≤ vec_len clocks }
    ensures serves { IfSome result.1 (λ back. Serves O.start O.stepped O.is_row K.rows K.faults (Answers O.start O.stepped O.is_row O.looked)
        L.In.left L.Out.taken L.In.faults L.Out.faults L.connections L.faults
        desk back links.items result.2.items (take (length links.items) (map C.days clocks.items)) sessions result.0) }
    ensures keeper { IsSome result.1 }
{
    desk.recall_sound();
    an_entry_has_one_row::<O>();
    let Ok((works, backs)) = rooms(alloc, links.len()) else {
        return (ServeEnd::Memory, Some(desk.close()), links);
    };
    match Office::open(alloc, desk) {
        Ok((office, pass)) => {
            let works = servers(alloc, links, clocks, sessions, gate, works);
            serve_at(rt, alloc, office, pass, works, backs, sessions)
        }
        Err((_, desk)) => (ServeEnd::Memory, Some(desk.close()), links),
    }
}

/// An entry of an object has one row at most.
fn an_entry_has_one_row<O: Object>()
    ensures { (e : Entry O.Command O.Reply) (a b : List ℕ) → O.is_row e a → O.is_row e b → a ≡ b }
{}

/// Lets the workers serve at an office, and closes it.
fn serve_at<
    'a,
    O: TextObject<Query = Query, View = View> + Send,
    K: Keeper + Send,
    L: Link + Send + Drop,
    C: Clock + Send + Drop,
    G: Gate + Sync,
    R: Threads + Wait + Sync,
>(
    rt: &R,
    alloc: Global,
    office: Office<O, K>,
    pass: Pass<Desk<O, K>>,
    works: Vec<Server<'a, L, C, G>>,
    backs: Vec<L>,
    sessions: u32,
) -> (ServeEnd, Option<K>, Vec<L>)
where
    O: Drop,
    L::In: Send,
    L::Out: Send,
    requires turn { IsPassOf (λ d. d.log) (λ d. d.base) office.turn pass × IsIdle pass }
    requires fresh { (own_calls pass ≡ []) × (share pass ≡ whole_share) }
    requires works { (0 < vec_len works) × (vec_len works ≤ 64) × All (λ s. s.sessions ≡ sessions) works.items }
    requires room { (backs.items ≡ []) × (vec_len works ≤ vec_capacity backs) }
    ensures serves { (opened : Standing O.State Command Reply K) → IsSound O.stepped O.is_row K.rows K.faults O.start opened
        → front pass ≡ opened.log → opening pass ≡ (length opened.log, opened.base)
        → IfSome result.1 (λ back. Serves O.start O.stepped O.is_row K.rows K.faults (Answers O.start O.stepped O.is_row O.looked)
        L.In.left L.Out.taken L.In.faults L.Out.faults L.connections L.faults
        opened back (map (λ s. s.link) works.entry.items) result.2.items (map (λ s. C.days s.clock) works.entry.items) sessions result.0) }
    ensures keeper { IsSome result.1 }
{
    an_entry_has_one_row::<O>();
    let (pass, end, backs) = work_all(rt, alloc, &office, pass, works, backs, sessions);
    match office.close(pass) {
        Ok(desk) => {
            desk.recall_sound();
            (end, Some(desk.close()), backs)
        }
        Err(_) => unreachable!(),
    }
}

/// Lets the workers serve at an office, and puts their links into `backs`, in order.
fn work_all<
    'a,
    O: TextObject<Query = Query, View = View> + Send,
    K: Keeper + Send,
    L: Link + Send + Drop,
    C: Clock + Send + Drop,
    G: Gate + Sync,
    R: Threads + Wait + Sync,
>(
    rt: &R,
    alloc: Global,
    office: &Office<O, K>,
    pass: Pass<Desk<O, K>>,
    works: Vec<Server<'a, L, C, G>>,
    backs: Vec<L>,
    sessions: u32,
) -> (Pass<Desk<O, K>>, ServeEnd, Vec<L>)
where
    L::In: Send,
    L::Out: Send,
    requires turn { IsPassOf (λ d. d.log) (λ d. d.base) office.now.turn pass × IsIdle pass }
    requires fresh { (own_calls pass ≡ []) × (share pass ≡ whole_share) }
    requires works { (0 < vec_len works) × (vec_len works ≤ 64) × All (λ s. s.sessions ≡ sessions) works.items }
    requires room { (backs.items ≡ []) × (vec_len works ≤ vec_capacity backs) }
    ensures turn { IsPassOf (λ d. d.log) (λ d. d.base) office.now.turn result.0 × IsIdle result.0 }
    ensures same { (share result.0 ≡ share pass) × (opening result.0 ≡ opening pass) }
    ensures grown { IsPrefix (front pass) (front result.0) }
    ensures served { (log : List (Note Command Reply)) → IsPrefix (front result.0) log
        → HaveServed (Answers O.start O.stepped O.is_row O.looked) L.In.left L.Out.taken L.In.faults L.Out.faults L.connections L.faults
        (map (λ s. s.link) works.entry.items) result.2.items (map (λ s. C.days s.clock) works.entry.items) sessions result.1
        (front pass) log (own_calls result.0) }
{
    let (pass, ran) = run_requests(rt, alloc, office, pass, works);
    match ran {
        Ok(given) => {
            let (end, backs) = collect(given, backs);
            (pass, end, backs)
        }
        Err((_, works)) => (pass, ServeEnd::Memory, links_of(works, backs)),
    }
}

/// A value of the type may be sent to another thread.
fn may_be_sent<T: Send>()
    ensures { IsSend T.row }
{}

/// A reply may be sent to another thread.
fn reply_may_be_sent()
    ensures { IsSend reply_row }
{
    may_be_sent::<Reply>();
}

/// Runs each work at the office of a desk that requests ask.
fn run_requests<
    O: TextObject<Query = Query, View = View> + Send,
    K: Keeper + Send,
    W: Work<Desk<O, K>> + Send + Drop,
    R: Threads + Wait + Sync,
>(
    rt: &R,
    alloc: Global,
    office: &Office<O, K>,
    pass: Pass<Desk<O, K>>,
    works: Vec<W>,
) -> (Pass<Desk<O, K>>, Result<Vec<W::Given>, (Memory, Vec<W>)>)
    requires turn { IsPassOf (λ d. d.log) (λ d. d.base) office.now.turn pass × IsIdle pass }
    requires share { vec_len works < share pass }
    ensures turn { IsPassOf (λ d. d.log) (λ d. d.base) office.now.turn result.0 × IsIdle result.0 }
    ensures same { (share result.0 ≡ share pass) × (opening result.0 ≡ opening pass) }
    ensures grown { IsPrefix (front pass) (front result.0) }
    ensures runs { IfOk result.1 (λ given. AddsRuns W.did (front pass) (front result.0) works.items given.items (own_calls pass) (own_calls result.0)) }
    ensures err { IfErr result.1 (λ back. (result.0 ≡ pass) × (back.1 ≡ works)) }
{
    reply_may_be_sent();
    run_desk(rt, alloc, office, pass, works)
}

/// Runs each work at the office of a desk. That the desk may be sent to a thread rests on its parts alone.
fn run_desk<
    O: Object + Send,
    K: Keeper + Send,
    W: Work<Desk<O, K>> + Send + Drop,
    R: Threads + Wait + Sync,
>(
    rt: &R,
    alloc: Global,
    office: &Office<O, K>,
    pass: Pass<Desk<O, K>>,
    works: Vec<W>,
) -> (Pass<Desk<O, K>>, Result<Vec<W::Given>, (Memory, Vec<W>)>)
where
    O::Command: Send,
    O::Reply: Send,
    requires turn { IsPassOf (λ d. d.log) (λ d. d.base) office.now.turn pass × IsIdle pass }
    requires share { vec_len works < share pass }
    ensures turn { IsPassOf (λ d. d.log) (λ d. d.base) office.now.turn result.0 × IsIdle result.0 }
    ensures same { (share result.0 ≡ share pass) × (opening result.0 ≡ opening pass) }
    ensures grown { IsPrefix (front pass) (front result.0) }
    ensures runs { IfOk result.1 (λ given. AddsRuns W.did (front pass) (front result.0) works.items given.items (own_calls pass) (own_calls result.0)) }
    ensures err { IfErr result.1 (λ back. (result.0 ≡ pass) × (back.1 ≡ works)) }
{
    run_all(rt, alloc, office, pass, works)
}
