// Runs of the desk over objects in memory.

ghost use Rattle.std.specs.Prelude.{◌≡◌, ◌<◌, ◌≤◌, IfOk, length};

use crate::stand::Stand;
use crate::streams::{clock, sink_of, source_of};
use sect_app::desk;
use sect_base::Memory;
use sect_edge::{Gate, Keeper, MemClock, MemLink, MemSink, MemSource, OpenGate};
use std::alloc::{AllocGlobal, Global};
use std::sync::Wait;
use std::thread::Threads;

/// The words of a command line, and how its input is read and its output written.
#[derive(Clone, Copy)]
pub struct Setting<'a> {
    pub words: &'a str,
    /// The most bytes that a read gives.
    pub piece: usize,
    /// The most bytes that a write takes.
    pub taken: usize,
    /// The read that fails, counted from 1; 0 for none.
    pub failing_read: u64,
    /// The write that fails.
    pub failing_write: u64,
    /// The most bytes that may be written.
    pub room: usize,
}

/// The most bytes that a read gives where nothing else is said.
pub const PIECE: usize = 8_192;

/// `run`, with a sink that takes a byte at a time, and with no call that fails.
pub const RUN: Setting<'static> = Setting {
    words: "run",
    piece: PIECE,
    taken: 1,
    failing_read: 0,
    failing_write: 0,
    room: 4_000,
};

/// Stands for the word without letters.
const NO_LETTERS: &str = "\"\"";

/// The words of a line.
fn words_of(alloc: Global, line: &str) -> Result<Vec<String>, Memory> {
    let mut words = Vec::new(alloc);
    for word in line.split_whitespace() {
        let word = if word == NO_LETTERS { "" } else { word };
        words.push(word.to_string(alloc)?)?;
    }
    Ok(words)
}

/// Two clocks that give 2025-09-01.
fn clocks(alloc: Global) -> Result<Vec<MemClock>, Memory>
    ensures { IfOk result (λ clocks. length clocks.items ≡ 2) }
{
    let mut clocks = Vec::new(alloc);
    clocks.push(clock(alloc)?)?;
    clocks.push(clock(alloc)?)?;
    Ok(clocks)
}

/// What stands around a command, beside its keeper and its links.
#[derive(Drop)]
pub struct Around {
    pub words: Vec<String>,
    pub source: MemSource,
    pub sink: MemSink,
    pub clocks: Vec<MemClock>,
}

/// What stands around a command in this setting that reads these bytes.
pub fn set_up(alloc: Global, setting: &Setting<'_>, input: &[u8]) -> Result<Around, Memory>
    ensures { IfOk result (λ around. length around.clocks.items ≡ 2) }
{
    let clocks = clocks(alloc)?;
    let words = words_of(alloc, setting.words)?;
    let source = source_of(alloc, input, setting.piece, setting.failing_read)?;
    let sink = sink_of(alloc, setting.room, setting.taken, setting.failing_write)?;
    Ok(Around {
        words,
        source,
        sink,
        clocks,
    })
}

/// The link alone.
pub fn link_alone(alloc: Global, link: MemLink) -> Result<Vec<MemLink>, Memory>
    ensures { IfOk result (λ links. length links.items ≡ 1) }
{
    let mut links = Vec::new(alloc);
    links.push(link)?;
    Ok(links)
}

/// Runs the desk over these bytes and the keeper of a stand, with a link to which no connection comes.
pub fn run_over<R: AllocGlobal + Threads + Wait + Sync, K: Keeper + Send + Drop>(
    rt: &R,
    setting: &Setting<'_>,
    input: &[u8],
    stand: &mut Stand<K>,
) -> Result<(), Memory> {
    let alloc = rt.alloc();
    let links = link_alone(alloc, MemLink::new(Vec::new(alloc), Vec::new(alloc)))?;
    let _ = run_on_links(rt, setting, input, stand, links, &OpenGate)?;
    Ok(())
}

/// The same over these links, one or two, which come back. Their workers pass the gate.
pub fn run_on_links<
    R: AllocGlobal + Threads + Wait + Sync,
    K: Keeper + Send + Drop,
    G: Gate + Sync,
>(
    rt: &R,
    setting: &Setting<'_>,
    input: &[u8],
    stand: &mut Stand<K>,
    links: Vec<MemLink>,
    gate: &G,
) -> Result<Vec<MemLink>, Memory>
    requires some { 0 < length links.items }
    requires most { length links.items ≤ 2 }
{
    let keeper = stand.keeper.take().ok_or(Memory)?;
    let Around {
        words,
        mut source,
        mut sink,
        clocks,
    } = set_up(rt.alloc(), setting, input)?;
    let (status, keeper, links) = desk(
        rt,
        &words,
        &mut source,
        &mut sink,
        links,
        keeper,
        clocks,
        gate,
    );
    *stand = Stand::left(keeper, status, sink);
    Ok(links)
}
