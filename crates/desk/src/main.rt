//! The program: it makes the real objects, calls the desk, prints the status and ends with its number.
#![tactic(auto)]

ghost use Rattle.std.specs.Prelude.{◌≡◌, ◌<◌, ◌≤◌, ℕ, Some, IfSome, length, map};
ghost use Rattle.std.specs.String.{string_bytes};
ghost use Rattle.sect_usage.specs.declared.words.Words.{Words};
ghost use Rattle.sect_usage.specs.Grammar.{words_of as asked_for};

mod sending;

use sect_app::{Paths, Status, WordFault, Words, desk, needs, read_words};
use sect_clap::read_again;
use sect_edge::{Keeper, OpenGate};
use sect_main::{End, finish, hold_standard_files, keeper_of, words_of};
use sect_real::{AnyKeeper, RealClock, StdSink, StdSource, ToldKeeper, ToldSource};
use sect_system::{TcpLink, links};
use sending::keeper_may_be_sent;
use std::alloc::AllocGlobal;
use std::io::IsTerminal;
use std::net::{Ipv4Addr, TcpListener};
use std::process::ExitCode;
use std::sync::Wait;
use std::thread::Threads;

/// Calls the desk, tells how that ended and ends with its number.
fn main(rt: HostRuntime) -> ExitCode {
    hold_standard_files(rt);
    let end = match start(rt, &rt) {
        Ok(status) => End::Told(status),
        Err(end) => end,
    };
    finish(rt, end, None)
}

/// Reads the words, and does what they ask for.
fn start<R: AllocGlobal + Threads + Wait + Sync>(
    rt: HostRuntime,
    threads: &R,
) -> Result<Status, End> {
    match words_of(rt) {
        Ok(words) => begin(rt, threads, &words),
        Err(status) => Err(End::Told(status)),
    }
}

/// Makes what the words need and calls the desk.
fn begin<R: AllocGlobal + Threads + Wait + Sync>(
    rt: HostRuntime,
    threads: &R,
    words: &[String],
) -> Result<Status, End> {
    let needs = match needs(rt.alloc(), words) {
        Ok(needs) => needs,
        Err(WordFault::BadWords) => return Err(End::Told(Status::BadWords)),
        Err(WordFault::Memory) => return Err(End::Told(Status::Memory)),
    };
    if read_again(rt.alloc(), words).is_err() {
        return Err(End::Told(Status::Memory));
    }
    match needs.port {
        Some(port) => serve_at(rt, threads, words, &needs.paths, port, needs.workers),
        None => over_links(rt, threads, words, &needs.paths, Vec::new(rt.alloc()), 1),
    }
}

/// Listens at a port of this machine alone, and calls the desk over so many links.
fn serve_at<R: AllocGlobal + Threads + Wait + Sync>(
    rt: HostRuntime,
    threads: &R,
    words: &[String],
    paths: &Paths,
    port: u16,
    workers: u32,
) -> Result<Status, End>
    requires bound { workers ≤ 64 }
    requires some { (at count sessions : ℕ) → asked_for (map string_bytes words.now) ≡ Some (Words.Serve at count sessions)
        → 0 < workers }
{
    let listener = match TcpListener::bind(&rt, (Ipv4Addr::LOCALHOST, port)) {
        Ok(listener) => listener,
        Err(_) => return Err(End::Told(Status::LinkFault)),
    };
    let clocks = if workers == 0 { 1 } else { workers };
    match links(rt, &listener, workers) {
        Ok(links) => over_links(rt, threads, words, paths, links, clocks),
        Err(_) => Err(End::Told(Status::Memory)),
    }
}

/// Opens the keeper that is named, and calls the desk over it and these links.
fn over_links<R: AllocGlobal + Threads + Wait + Sync>(
    rt: HostRuntime,
    threads: &R,
    words: &[String],
    paths: &Paths,
    links: Vec<TcpLink<'_>>,
    clocks: u32,
) -> Result<Status, End>
    requires clocks { (0 < clocks) × (length links.items ≤ clocks) }
    requires links { (length links.items ≤ 64)
        × ((port workers sessions : ℕ) → asked_for (map string_bytes words.now) ≡ Some (Words.Serve port workers sessions)
        → 0 < length links.items) }
{
    match keeper_of(rt, paths) {
        Ok(keeper) => Ok(run(rt, threads, words, keeper, links, clocks)),
        Err(end) => Err(end),
    }
}

/// As many clocks. None where memory is wanted.
fn clocks_of(rt: HostRuntime, count: u32) -> Option<Vec<RealClock>>
    ensures { IfSome result (λ clocks. length clocks.items ≡ count) }
{
    let mut clocks = Vec::new(rt.alloc());
    for made in 0..count {
        clocks.push(RealClock::new(rt)).ok()?;
    }
    Some(clocks)
}

/// Calls the desk over the process's own input and output, and closes the keeper. Where that fails, no row is lost.
fn run<R: AllocGlobal + Threads + Wait + Sync>(
    rt: HostRuntime,
    threads: &R,
    words: &[String],
    keeper: AnyKeeper,
    links: Vec<TcpLink<'_>>,
    clocks: u32,
) -> Status
    requires clocks { (0 < clocks) × (length links.items ≤ clocks) }
    requires links { (length links.items ≤ 64)
        × ((port workers sessions : ℕ) → asked_for (map string_bytes words.now) ≡ Some (Words.Serve port workers sessions)
        → 0 < length links.items) }
{
    keeper_may_be_sent();
    let Some(clocks) = clocks_of(rt, clocks) else {
        let _ = keeper.close();
        return Status::Memory;
    };
    let told = ToldKeeper::new(rt, keeper);
    let (status, keeper) = over_streams(rt, threads, words, told, links, clocks);
    if let Some(keeper) = keeper {
        let _ = keeper.into_keeper().close();
    }
    status
}

/// Calls the desk over the process's own input and output, and gives the keeper that comes back.
fn over_streams<R: AllocGlobal + Threads + Wait + Sync, K: Keeper + Send>(
    rt: HostRuntime,
    threads: &R,
    words: &[String],
    keeper: K,
    links: Vec<TcpLink<'_>>,
    clocks: Vec<RealClock>,
) -> (Status, Option<K>)
    requires clocks { (0 < length clocks.items) × (length links.items ≤ length clocks.items) }
    requires links { (length links.items ≤ 64)
        × ((port workers sessions : ℕ) → asked_for (map string_bytes words.now) ≡ Some (Words.Serve port workers sessions)
        → 0 < length links.items) }
{
    let mut source = ToldSource::new(rt, StdSource::new(rt.stdin()), is_import_told(rt, words));
    let mut sink = StdSink::new(rt.stdout());
    let (status, keeper, _links) = desk(
        threads,
        words,
        &mut source,
        &mut sink,
        links,
        keeper,
        clocks,
        &OpenGate,
    );
    source.end();
    (status, keeper)
}

/// Whether it is told how far an import is. Answers that a terminal shows tell it themselves.
fn is_import_told(rt: HostRuntime, words: &[String]) -> bool {
    match read_words(words) {
        Some(Words::Import { .. }) => !rt.stdout().is_terminal(),
        _ => false,
    }
}
