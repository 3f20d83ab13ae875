// A connection is served again and again, and comes to an end at another place each time.

use crate::keepers::{NONE_FAILS, keeper_of};
use crate::sent::THREE_ROWS;
use crate::serve::{Sent, Told, served};
use sect_base::Memory;
use sect_http::Bench;
use sect_talk::End;
use std::alloc::{AllocGlobal, Global};
use std::sync::Wait;

/// Two requests as curl sends them, and a part of a third.
const WHOLE: Sent<'static> = Sent {
    bytes: b"POST /students/11/asks/1 HTTP/1.1\r\nHost: localhost:8080\r\nUser-Agent: curl/8.5.0\r\nAccept: */*\r\n\
Content-Type: application/json\r\nContent-Length: 43\r\n\r\n{\"verb\":\"enrol\",\"student\":11,\"courses\":[1]}\
GET /waiting HTTP/1.1\r\nHost: localhost:8080\r\n\r\n\
POST /students/11/asks/1 HTTP/1.1\r\nHost: localhost:8080\r\nUser-Agent: curl/8.5.0\r\nAccept: */*\r\n\
Content-Type: application/json\r\nContent-Length: 43\r\n\r\n{\"verb\":\"e",
    piece: 1_000,
    failing_read: 0,
    failing_write: 0,
};

/// What ends a connection.
#[derive(Clone, Copy)]
enum Cut {
    /// No more bytes come.
    Bytes,
    /// The next read of a byte fails.
    Reads,
    /// The next write of a byte fails.
    Writes,
}

/// Tells what came of the connection, which comes to an end at each place.
pub fn told_of_cuts<R: AllocGlobal + Wait>(rt: &R) -> Result<Vec<u8>, Memory> {
    let mut into = String::new(rt.alloc());
    into.push_str("cut\n")?;
    put_runs(rt, Cut::Bytes, &mut into)?;
    into.push_str("read\n")?;
    put_runs(rt, Cut::Reads, &mut into)?;
    into.push_str("write\n")?;
    put_runs(rt, Cut::Writes, &mut into)?;
    Ok(into.into_bytes())
}

/// Serves the connection cut after no byte, after the first, and so on up to all of them, and puts what came of each run
/// behind the text.
fn put_runs<R: AllocGlobal + Wait>(rt: &R, cut: Cut, into: &mut String) -> Result<(), Memory> {
    let whole = told_whole(rt)?;
    let most = match cut {
        Cut::Bytes | Cut::Reads => WHOLE.bytes.len(),
        Cut::Writes => whole.len(),
    };
    let runs = runs_of(rt.alloc(), cut, most)?;
    let talks = served_on_a_bench(rt, runs.as_slice())?;
    put_alike(talks.as_slice(), whole.as_slice(), into)
}

/// Serves the connections one after another on one bench, on a desk with one place and two students.
fn served_on_a_bench<R: AllocGlobal + Wait>(
    rt: &R,
    connections: &[Sent<'_>],
) -> Result<Vec<Told>, Memory> {
    let alloc = rt.alloc();
    let keeper = keeper_of(alloc, THREE_ROWS, NONE_FAILS)?;
    let mut bench = Some(Bench::new(alloc)?);
    let mut talks = Vec::new(alloc);
    served(rt, alloc, keeper, &mut bench, connections, &mut talks).ok_or(Memory)?;
    Ok(talks)
}

/// What the whole connection is told.
fn told_whole<R: AllocGlobal + Wait>(rt: &R) -> Result<Vec<u8>, Memory> {
    let talks = served_on_a_bench(rt, &[WHOLE])?;
    match talks.first() {
        Some(told) => Ok(told.sink.bytes().to_vec(rt.alloc())?),
        None => Err(Memory),
    }
}

/// The connection cut after no byte, and so on up to so many.
fn runs_of(alloc: Global, cut: Cut, most: usize) -> Result<Vec<Sent<'static>>, Memory> {
    let mut runs = Vec::new(alloc);
    for came in 0..most.saturating_add(1) {
        runs.push(run_of(cut, came))?;
    }
    Ok(runs)
}

/// The connection cut after so many bytes.
fn run_of(cut: Cut, came: usize) -> Sent<'static> {
    let bytes = WHOLE.bytes;
    let next = (came as u64).saturating_add(1);
    match cut {
        Cut::Bytes => Sent {
            bytes: bytes.get(..came).unwrap_or(bytes),
            ..WHOLE
        },
        Cut::Reads => Sent {
            piece: 1,
            failing_read: next,
            ..WHOLE
        },
        Cut::Writes => Sent {
            piece: 1,
            failing_write: next,
            ..WHOLE
        },
    }
}

/// What came of a run.
#[derive(Clone, Copy)]
struct Found {
    /// How many bytes were told; none where these are no front of what the whole connection is told.
    front: Option<usize>,
    end: End,
}

/// What came of a run of the connection that is told this as a whole.
fn found_in(told: &Told, whole: &[u8]) -> Found {
    let bytes = told.sink.bytes();
    let front = if whole.starts_with(bytes) {
        Some(bytes.len())
    } else {
        None
    };
    let end = told.end;
    Found { front, end }
}

/// Whether the same came of two runs.
fn is_alike(one: Found, other: Found) -> bool {
    one.front == other.front && one.end == other.end
}

/// Puts what came of the runs behind the text, in one line where the same came of several in turn.
fn put_alike(talks: &[Told], whole: &[u8], into: &mut String) -> Result<(), Memory> {
    let mut first = 0;
    for (last, told) in talks.iter().enumerate() {
        let it = found_in(told, whole);
        let next = last.saturating_add(1);
        let is_next_alike = match talks.get(next) {
            Some(told) => is_alike(found_in(told, whole), it),
            None => false,
        };
        if !is_next_alike {
            put_found(first, last, it, into)?;
            first = next;
        }
    }
    Ok(())
}

/// Puts what came of the runs with these numbers.
fn put_found(first: usize, last: usize, it: Found, into: &mut String) -> Result<(), Memory> {
    write!(into, "{first}")?;
    if first != last {
        write!(into, " to {last}")?;
    }
    match it.front {
        Some(count) => write!(into, ": {count} bytes")?,
        None => into.push_str(": no front")?,
    }
    let end = it.end;
    write!(into, ", {end:?}\n")?;
    Ok(())
}
