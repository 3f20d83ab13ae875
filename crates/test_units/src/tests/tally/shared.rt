// Threads share it.
ghost use Rattle.std.specs.Prelude.{⊤, ◌≡◌, ◌<◌, ◌≤◌, ◌^◌, length, vec_len, IfOk};
ghost use mathlib.Core.List.{IsPrefix};
ghost use Rattle.sect_once.specs.Tallies.{caller_number};
ghost use Rattle.sect_turn.specs.Passes.{front, own_calls, share, opening, IsIdle, IsPassOf};

use super::day;
use sect_base::{Caller, Chronicle, Id, Memory};
use sect_edge::{Gate, Keeper, Link, MemKeeper, MemLink, MemSink, MemSource, OpenGate};
use sect_office::{Office, Work, run_all};
use sect_once::{Answer, Desk, Tally};
use sect_turn::Pass;
use std::alloc::{AllocError, Global};
use std::sync::Wait;
use std::sync::atomic::{AtomicU64, Ordering};
use std::test::Fail;
use std::thread::{self, Threads};

/// A worker with a link: at its connection it asks the numbers from 0 as commands of 1, each when the gate lets it.
#[derive(Drop)]
struct Teller<'a, G> {
    alloc: Global,
    gate: &'a G,
    link: MemLink,
    caller: u32,
    count: u64,
}

impl<'a, K: Keeper, G: Gate> Work<Desk<Tally, K>> for Teller<'a, G> {
    type Given = Vec<u32>;

    ghost did = { λ w before after calls places. ⊤ };

    fn run<R: Wait>(
        self,
        rt: &R,
        office: &Office<Tally, K>,
        pass: &mut Pass<Desk<Tally, K>>,
    ) -> Vec<u32> {
        let Teller {
            alloc,
            gate,
            mut link,
            caller,
            count,
        } = self;
        match link.accept() {
            Ok(Some((source, sink))) => {
                let places = tell(alloc, gate, rt, office, pass, caller, count);
                link.finish(source, sink);
                places
            }
            _ => Vec::new(alloc),
        }
    }
}

/// The places of so many asks of a caller.
fn tell<K: Keeper, G: Gate, R: Wait>(
    alloc: Global,
    gate: &G,
    rt: &R,
    office: &Office<Tally, K>,
    pass: &mut Pass<Desk<Tally, K>>,
    caller: u32,
    count: u64,
) -> Vec<u32>
    requires turn { IsPassOf (λ d. d.log) (λ d. d.base) office.now.turn pass.old }
    requires between_turns { IsIdle pass.old }
    ensures turn { IsPassOf (λ d. d.log) (λ d. d.base) office.now.turn pass.new × IsIdle pass.new }
    ensures same { (share pass.new ≡ share pass.old) × (opening pass.new ≡ opening pass.old) }
    ensures grown { IsPrefix (front pass.old) (front pass.new) }
{
    let mut places = Vec::new(alloc);
    for number in 0..count {
        if places.reserve(1).is_err() {
            break;
        }
        gate.pass(rt, caller, number);
        let id = Id {
            caller: Caller::Registrar(caller),
            number,
        };
        if let Some(place) = place_of(rt, office, pass, id) {
            places.push_reserved(place);
        }
    }
    places
}

/// The place of one ask that is done.
fn place_of<K: Keeper, R: Wait>(
    rt: &R,
    office: &Office<Tally, K>,
    pass: &mut Pass<Desk<Tally, K>>,
    id: Id,
) -> Option<u32>
    requires numbers { (caller_number id.caller < 2 ^ 32) × (id.number < 2 ^ 64) }
    requires turn { IsPassOf (λ d. d.log) (λ d. d.base) office.now.turn pass.old }
    requires between_turns { IsIdle pass.old }
    ensures turn { IsPassOf (λ d. d.log) (λ d. d.base) office.now.turn pass.new × IsIdle pass.new }
    ensures same { (share pass.new ≡ share pass.old) × (opening pass.new ≡ opening pass.old) }
    ensures grown { IsPrefix (front pass.old) (front pass.new) }
{
    match office.ask(rt, pass, id, day(0), 1) {
        Answer::Done { place, .. } => Some(place),
        _ => None,
    }
}

/// Both ends of a connection that sends nothing.
fn ends(alloc: Global) -> Result<(MemSource, MemSink), AllocError> {
    match MemSink::new(alloc, 1_000, 1_000, Vec::new(alloc)) {
        Ok(sink) => Ok((
            MemSource::new(Vec::new(alloc), 1_000, Vec::new(alloc)),
            sink,
        )),
        Err(_) => Err(AllocError),
    }
}

/// A link with one connection to come.
fn a_link(alloc: Global) -> Result<MemLink, AllocError> {
    let talks = vec![in alloc; ends(alloc)?]?;
    Ok(MemLink::new(talks, Vec::new(alloc)))
}

/// A teller at a gate, with a link.
fn a_teller<'a, G>(
    alloc: Global,
    gate: &'a G,
    caller: u32,
    count: u64,
) -> Result<Teller<'a, G>, AllocError> {
    Ok(Teller {
        link: a_link(alloc)?,
        alloc,
        gate,
        caller,
        count,
    })
}

/// As many tellers at one gate.
fn tellers<'a, G>(
    alloc: Global,
    gate: &'a G,
    callers: u32,
    count: u64,
) -> Result<Vec<Teller<'a, G>>, AllocError>
    ensures { IfOk result (λ works. vec_len works ≤ callers) }
{
    let mut works = Vec::new(alloc);
    for caller in 0..callers {
        works.push(a_teller(alloc, gate, caller, count)?)?;
    }
    Ok(works)
}

/// The places of two runs and the desk, where memory sufficed for all three.
fn all_of<W: Drop>(
    first: Result<Vec<Vec<u32>>, (Memory, Vec<W>)>,
    second: Result<Vec<Vec<u32>>, (Memory, Vec<W>)>,
    desk: Result<Desk<Tally, MemKeeper>, Memory>,
) -> Result<(Vec<Vec<u32>>, Vec<Vec<u32>>, Desk<Tally, MemKeeper>), AllocError> {
    match (first, second, desk) {
        (Ok(first), Ok(second), Ok(desk)) => Ok((first, second, desk)),
        _ => Err(AllocError),
    }
}

/// Runs tellers at an office, and then others, and gives the places of both times and the desk.
fn run_both<G: Gate + Sync, R: Threads + Wait + Sync>(
    rt: &R,
    alloc: Global,
    works: Vec<Teller<'_, G>>,
    others: Vec<Teller<'_, G>>,
) -> Result<(Vec<Vec<u32>>, Vec<Vec<u32>>, Desk<Tally, MemKeeper>), AllocError>
    requires { (vec_len works ≤ 64) × (vec_len others ≤ 64) }
{
    let keeper = MemKeeper::new(Vec::new(alloc), Vec::new(alloc));
    let Ok(desk) = Desk::<Tally, MemKeeper>::open(alloc, keeper) else {
        return Err(AllocError);
    };
    let Ok((office, pass)) = Office::open(alloc, desk) else {
        return Err(AllocError);
    };
    let (pass, first) = run_all(rt, alloc, &office, pass, works);
    let (pass, second) = run_all(rt, alloc, &office, pass, others);
    all_of(first, second, office.close(pass))
}

/// Runs as many tellers at an office, and then once more, and gives the places of both times and the desk.
fn run_twice<G: Gate + Sync, R: Threads + Wait + Sync>(
    rt: &R,
    alloc: Global,
    gate: &G,
    callers: u32,
    count: u64,
) -> Result<(Vec<Vec<u32>>, Vec<Vec<u32>>, Desk<Tally, MemKeeper>), AllocError>
    requires { callers ≤ 64 }
{
    let works = tellers(alloc, gate, callers, count)?;
    let others = tellers(alloc, gate, callers, count)?;
    run_both(rt, alloc, works, others)
}

/// Whether a number is among the places.
fn has_place(places: &[Vec<u32>], number: u32) -> bool {
    for each in places {
        if each.contains(&number) {
            return true;
        }
    }
    false
}

/// How many places there are.
fn count_of(places: &[Vec<u32>]) -> usize {
    let mut count = 0usize;
    for each in places {
        count = count.wrapping_add(each.len());
    }
    count
}

/// Whether the places are the numbers below the total, each once.
fn are_each_once(places: &[Vec<u32>], total: u32) -> bool {
    for number in 0..total {
        if !has_place(places, number) {
            return false;
        }
    }
    count_of(places) == total as usize
}

#[test]
fn many_threads_share_one_history(rt: HostRuntime) -> Result<(), Fail> {
    let (first, second, desk) = run_twice(&rt, rt.alloc(), &OpenGate, 64, 10)?;
    assert!(rt; are_each_once(&first, 640));
    assert!(rt; first == second);
    assert_eq!(rt; desk.len(), 640);
    Ok(())
}

/// A gate that holds each of two workers at its first step until the other one came.
#[derive(Drop)]
struct Both {
    came: AtomicU64,
    late: AtomicU64,
}

impl Both {
    /// A gate to which nobody came yet.
    fn new() -> Both {
        Both {
            came: AtomicU64::new(0),
            late: AtomicU64::new(0),
        }
    }

    /// Whether a worker was let pass before the other one came.
    fn was_late(&self) -> bool {
        self.late.load(Ordering::SeqCst) != 0
    }

    /// Comes, and waits a while until two came.
    fn meet(&self) {
        self.came.fetch_add(1, Ordering::SeqCst);
        for _ in 0..1_000_000u64 {
            if self.came.load(Ordering::SeqCst) >= 2 {
                return;
            }
            thread::yield_now();
        }
        self.late.fetch_add(1, Ordering::SeqCst);
    }
}

impl Gate for Both {
    fn pass<R: Wait>(&self, _rt: &R, _worker: u32, step: u64) {
        if step == 0 {
            self.meet();
        }
    }
}

#[test]
fn two_workers_run_at_once(rt: HostRuntime) -> Result<(), Fail> {
    let gate = Both::new();
    let (first, _, _) = run_twice(&rt, rt.alloc(), &gate, 2, 100)?;
    assert!(rt; are_each_once(&first, 200));
    assert!(rt; !gate.was_late());
    Ok(())
}
