// A desk in memory serves connections in memory.

ghost use Rattle.sect_turn.specs.Passes.{IsIdle, IsPassOf};

use crate::streams::{clock, sink_of, source_of};
use sect_base::Memory;
use sect_edge::{MemClock, MemKeeper, MemSink, MemSource, OpenGate};
use sect_http::{Bench, session, talk};
use sect_machine::Machine;
use sect_office::Office;
use sect_once::Desk;
use sect_talk::End;
use sect_turn::Pass;
use std::alloc::Global;
use std::sync::Wait;

/// What one connection sends, and how.
#[derive(Clone, Copy)]
pub struct Sent<'a> {
    pub bytes: &'a [u8],
    /// The most bytes that a read gives, and that a write takes.
    pub piece: usize,
    /// The read that fails, counted from 1; 0 for none.
    pub failing_read: u64,
    /// The write that fails.
    pub failing_write: u64,
}

/// What one connection is told, what of its bytes is left, and how it ends.
pub struct Told {
    pub sink: MemSink,
    source: MemSource,
    clock: MemClock,
    pub end: End,
}

/// It is written out, so that a caller does not prove again how each part is dropped.
impl Drop for Told {
    fn drop(self) {
        let Told {
            sink: _,
            source: _,
            clock: _,
            end: _,
        } = self;
    }
}

impl Told {
    /// A connection that begins on 2025-09-01.
    fn begin(alloc: Global, sent: &Sent<'_>) -> Result<Told, Memory> {
        let clock = clock(alloc)?;
        let source = source_of(alloc, sent.bytes, sent.piece, sent.failing_read)?;
        let sink = sink_of(alloc, 4_096, sent.piece, sent.failing_write)?;
        Ok(Told {
            sink,
            source,
            clock,
            end: End::Closed,
        })
    }
}

/// Serves a connection that begins, on this bench or one of its own, and tells how it ends.
fn serve<R: Wait>(
    rt: &R,
    alloc: Global,
    office: &Office<Machine, MemKeeper>,
    pass: &mut Pass<Desk<Machine, MemKeeper>>,
    bench: Option<&mut Bench>,
    told: &mut Told,
) -> End
    requires turn { IsPassOf (λ d. d.log) (λ d. d.base) office.now.turn pass.old }
    requires between_turns { IsIdle pass.old }
    ensures { IsPassOf (λ d. d.log) (λ d. d.base) office.now.turn pass.new × IsIdle pass.new }
{
    let mut step = 0;
    match bench {
        Some(bench) => talk(
            rt,
            office,
            pass,
            &mut told.source,
            &mut told.sink,
            &mut told.clock,
            &OpenGate,
            0,
            &mut step,
            bench,
        ),
        None => session(
            rt,
            alloc,
            office,
            pass,
            &mut told.source,
            &mut told.sink,
            &mut told.clock,
            &OpenGate,
            0,
            &mut step,
        ),
    }
}

/// Serves these connections one after another, and puts what each was told behind the others. None where memory is wanted.
fn serve_each<R: Wait>(
    rt: &R,
    alloc: Global,
    office: &Office<Machine, MemKeeper>,
    pass: &mut Pass<Desk<Machine, MemKeeper>>,
    bench: &mut Option<Bench>,
    connections: &[Sent<'_>],
    talks: &mut Vec<Told>,
) -> Option<()>
    requires turn { IsPassOf (λ d. d.log) (λ d. d.base) office.now.turn pass.old }
    requires between_turns { IsIdle pass.old }
{
    for sent in connections {
        let mut told = Told::begin(alloc, sent).ok()?;
        let end = serve(rt, alloc, office, pass, bench.as_mut(), &mut told);
        told.end = end;
        talks.push(told).ok()?;
    }
    Some(())
}

/// Serves these connections one after another on the desk of this keeper: all of them on the bench, where there is one, and
/// else each as a session. Puts what each was told behind the others. None where the rows don't open, or memory is wanted.
pub fn served<R: Wait>(
    rt: &R,
    alloc: Global,
    keeper: MemKeeper,
    bench: &mut Option<Bench>,
    connections: &[Sent<'_>],
    talks: &mut Vec<Told>,
) -> Option<()> {
    let desk = Desk::<Machine, MemKeeper>::open(alloc, keeper).ok()?;
    let (office, mut pass) = Office::open(alloc, desk).ok()?;
    serve_each(rt, alloc, &office, &mut pass, bench, connections, talks)
}
