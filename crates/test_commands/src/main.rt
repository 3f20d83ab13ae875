//! What of the desk only objects in memory show: calls of keepers, sources, sinks, links and disks that fail, crashes of a disk,
//! trees that are held against a machine, how many searches a line takes, workers that meet, and a program that calls the library:
//! tests alone. What whole runs of the programs show stands in `tests/` at the top, where `tools/whole_runs.py` runs it. A line
//! `== PART` tells what the lines behind it are, up to the next one, and is printed.
//!
//! `== desk`: commands of which one call fails. A line `# NAME` begins a keeper without rows and a command without words, `| ROW`
//! puts a row behind the keeper's, `$ WORDS` begins a command over it; other lines are its input. A line `? read PIECE COUNT`
//! runs the command so many times, each time over that keeper and out of a source that gives PIECE bytes at most: in the first
//! run the first read fails, in the second the second, and so on. `? write` is the same of writes, each of one byte, `? append`
//! of appends, `? row` of the calls by which rows are counted or read, and `? accept` of a link to which two connections come.
//! `? byte` puts `x` in the place of a byte of the last row instead. For each run the output has the status, how many rows the
//! keeper has and what was written; and then the same of the command run again over the keeper that came back, with no read and
//! no write that fails. A bar stands for a line feed.
//!
//! `== machine`: a line `# NAME` begins a machine. Each line acts, and the output has the text of its reply. `% LINE` acts and
//! tells how many searches that took as well. `? TREE` tells whether the tree refutes the request before it.
//!
//! `== bodies`: each line is a body over HTTP, and the output has the command that it says or the number that tells why it says
//! none. A line `# NAME` is printed.
//!
//! `== disks`: journals on a disk in memory. A line `open BYTES FAIL` opens the journal with these bytes, on a disk whose calls
//! with the numbers FAIL fail; `-` is none. `append ROW ..` appends the rows as one group, by `append` where there is one; `-` is
//! a row without bytes. `rows` reads all in order. `crash FROM` ends with a crash after each call from number FROM on: the output
//! has how many calls there were and what the images then open to, the rows of each before a bar. Other lines are printed.
//!
//! `== connections`, `== answers`, `== workers` and `== calling` have no lines. The first tells what a connection is told that
//! asks twice and begins a third request, served again and again on one bench: cut after no byte, after the first, and so on, and
//! then where each read of one byte fails, and each write of one byte. The output has how many bytes each run was told and how it
//! ended, in one line where this is the same of several in turn, and `no front` where the bytes aren't those that the whole
//! connection is told first. The second tells the answers over HTTP that no whole run has. The third tells what comes of two
//! workers of which the link of the second one fails, and of two that meet at a gate, where the first one's request waits until
//! the second one's answer is written: the status, how many rows the keeper has, what each link's connection was told, and
//! whether one of those that meet was late. The fourth tells what a program is answered that calls the library.
#![tactic(auto)]

mod answers;
mod bodies;
mod calling;
mod cuts;
mod desk;
mod disks;
mod keepers;
mod lines;
mod machine;
mod meeting;
mod parts;
mod printing;
mod runs;
mod sent;
mod serve;
mod stand;
mod streams;
mod told;
mod workers;

use parts::{Part, Parts, part_of, told_at_first};
use printing::print_told;
use std::alloc::AllocGlobal;
use std::io;
use std::sync::Wait;
use std::thread::Threads;

fn main(rt: HostRuntime) -> io::Result<()> {
    let mut parts = Parts::new(rt.alloc());
    answer(rt, &rt, &mut parts)
}

/// Prints what is told for each line.
fn answer<R: AllocGlobal + Threads + Wait + Sync>(
    rt: HostRuntime,
    threads: &R,
    parts: &mut Parts,
) -> io::Result<()> {
    let mut part = Part::Desk;
    for line in rt.lines(rt.alloc()) {
        let line = line?;
        match part_of(line.as_str()) {
            Some(begun) => {
                println!(rt; "{line}")?;
                print_told(rt, told_at_first(threads, begun))?;
                part = begun;
            }
            None => print_told(rt, parts.told(threads, part, line.as_str()))?,
        }
    }
    Ok(())
}
