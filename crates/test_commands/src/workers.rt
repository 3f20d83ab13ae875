// Connections that two workers serve, over links in memory: of which one fails, and at a gate where the workers meet.

ghost use Rattle.std.specs.Prelude.{◌≡◌, IfOk, length};

use crate::keepers::{NONE_FAILS, keeper_of};
use crate::meeting::Meeting;
use crate::runs::{RUN, Setting, run_on_links};
use crate::sent::{FIRST, SECOND, THREE_ROWS, link_of};
use crate::stand::Stand;
use crate::told::{put_end, put_talk};
use sect_base::Memory;
use sect_edge::{Gate, MemLink, OpenGate};
use std::alloc::{AllocGlobal, Global};
use std::sync::Wait;
use std::thread::Threads;

/// The links of the students 11 and 12. The second one's `accept` with this number, from 1, fails; 0 is none.
fn links(alloc: Global, failing_accept: u64) -> Result<Vec<MemLink>, Memory>
    ensures { IfOk result (λ links. length links.items ≡ 2) }
{
    let mut links = Vec::new(alloc);
    links.push(link_of(alloc, &[FIRST], 0)?)?;
    links.push(link_of(alloc, &[SECOND], failing_accept)?)?;
    Ok(links)
}

/// Tells what comes of two workers of which the second one's link fails, and of two that meet, each time on a desk with one
/// place and two students.
pub fn told_of_workers<R: AllocGlobal + Threads + Wait + Sync>(rt: &R) -> Result<Vec<u8>, Memory> {
    let mut stand: Stand = Stand::new(None);
    let mut into = String::new(rt.alloc());
    put_fault(rt, &mut stand, &mut into)?;
    put_meeting(rt, &mut stand, &mut into)?;
    Ok(into.into_bytes())
}

/// The second worker's link fails.
fn put_fault<R: AllocGlobal + Threads + Wait + Sync>(
    rt: &R,
    stand: &mut Stand,
    into: &mut String,
) -> Result<(), Memory> {
    into.push_str("a link that fails: ")?;
    put_served(rt, 1, &OpenGate, stand, into)?;
    into.push('\n')?;
    Ok(())
}

/// The workers meet at a gate, and it is told whether one of them was late.
fn put_meeting<R: AllocGlobal + Threads + Wait + Sync>(
    rt: &R,
    stand: &mut Stand,
    into: &mut String,
) -> Result<(), Memory> {
    let gate = Meeting::new();
    into.push_str("two that meet: ")?;
    put_served(rt, 0, &gate, stand, into)?;
    let late = if gate.was_late() { "yes" } else { "no" };
    write!(into, ", late {late}\n")?;
    Ok(())
}

/// Serves one connection of each link, where the workers pass this gate, and puts how that ends and what they are told behind
/// the text.
fn put_served<R: AllocGlobal + Threads + Wait + Sync, G: Gate + Sync>(
    rt: &R,
    failing_accept: u64,
    gate: &G,
    stand: &mut Stand,
    into: &mut String,
) -> Result<(), Memory> {
    let alloc = rt.alloc();
    *stand = Stand::new(Some(keeper_of(alloc, THREE_ROWS, NONE_FAILS)?));
    let links = links(alloc, failing_accept)?;
    let setting = Setting {
        words: "serve --port 8080 --sessions 1",
        ..RUN
    };
    let links = run_on_links(rt, &setting, &[], stand, links, gate)?;
    put_end(alloc, stand, into)?;
    put_both(&links, into)
}

/// Puts what the first connection of each link was told.
fn put_both(links: &[MemLink], into: &mut String) -> Result<(), Memory> {
    put_told(links, 0, into)?;
    into.push_str(", ")?;
    put_told(links, 1, into)
}

/// Puts what the first connection of a link was told.
fn put_told(links: &[MemLink], at: usize, into: &mut String) -> Result<(), Memory> {
    match links.get(at) {
        Some(link) => put_talk(link, 0, into),
        None => Ok(into.push_str("no link")?),
    }
}
