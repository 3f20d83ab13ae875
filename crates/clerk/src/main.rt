//! The program: it makes the real objects, calls the clerk, prints the status and ends with its number.
#![tactic(auto)]

use sect_clerk::clerk;
use sect_clerk_words::needs;
use sect_edge::Keeper;
use sect_main::{End, finish, hold_standard_files, keeper_of, words_of};
use sect_real::{AnyKeeper, RealClock, StdSink, StdSource};
use sect_script::Status;
use sect_usage::WordFault;
use std::alloc::AllocGlobal;
use std::process::ExitCode;
use std::thread::Threads;

/// What is told where the words aren't in the grammar.
const USAGE: &str = "usage: clerk check|demand|explain|log|timetable|try\n";

/// Calls the clerk, tells how that ended and ends with its number.
fn main(rt: HostRuntime) -> ExitCode {
    hold_standard_files(rt);
    let end = match start(rt, &rt) {
        Ok(status) => End::Told(status),
        Err(end) => end,
    };
    finish(rt, end, Some(USAGE))
}

/// Reads the words, and does what they ask for.
fn start<R: AllocGlobal + Threads + Sync>(rt: HostRuntime, threads: &R) -> Result<Status, End> {
    match words_of(rt) {
        Ok(words) => begin(rt, threads, &words),
        Err(status) => Err(End::Told(status)),
    }
}

/// Opens the keeper that the words name and calls the clerk.
fn begin<R: AllocGlobal + Threads + Sync>(
    rt: HostRuntime,
    threads: &R,
    words: &[String],
) -> Result<Status, End> {
    let paths = match needs(rt.alloc(), words) {
        Ok(paths) => paths,
        Err(WordFault::BadWords) => return Err(End::Told(Status::BadWords)),
        Err(WordFault::Memory) => return Err(End::Told(Status::Memory)),
    };
    match keeper_of(rt, &paths) {
        Ok(keeper) => Ok(run(rt, threads, words, keeper)),
        Err(end) => Err(end),
    }
}

/// Calls the clerk over the keeper, and closes it. Where that fails, no row is lost.
fn run<R: AllocGlobal + Threads + Sync>(
    rt: HostRuntime,
    threads: &R,
    words: &[String],
    keeper: AnyKeeper,
) -> Status {
    let (status, keeper) = over_streams(rt, threads, words, keeper);
    let _ = keeper.close();
    status
}

/// Calls the clerk over the process's own input and output, and gives the keeper back.
fn over_streams<R: AllocGlobal + Threads + Sync, K: Keeper>(
    rt: HostRuntime,
    threads: &R,
    words: &[String],
    keeper: K,
) -> (Status, K) {
    let mut source = StdSource::new(rt.stdin());
    let mut sink = StdSink::new(rt.stdout());
    clerk(
        threads,
        words,
        &mut source,
        &mut sink,
        keeper,
        RealClock::new(rt),
    )
}
