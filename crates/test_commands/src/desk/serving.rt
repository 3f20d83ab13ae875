// A link to which two connections come, one after the other.

use crate::runs::{Setting, link_alone, run_on_links};
use crate::sent::{FIRST, SECOND, link_of};
use crate::stand::Stand;
use crate::told::{put_end, put_talk};
use sect_base::Memory;
use sect_edge::{MemLink, OpenGate};
use std::alloc::AllocGlobal;
use std::sync::Wait;
use std::thread::Threads;

/// Puts what came of serving over the keeper of a stand, with what each connection was told, behind the text.
pub fn put_served<R: AllocGlobal + Threads + Wait + Sync>(
    rt: &R,
    setting: &Setting<'_>,
    failing_accept: u64,
    stand: &mut Stand,
    into: &mut String,
) -> Result<(), Memory> {
    let alloc = rt.alloc();
    let links = link_alone(alloc, link_of(alloc, &[FIRST, SECOND], failing_accept)?)?;
    let links = run_on_links(rt, setting, &[], stand, links, &OpenGate)?;
    put_end(alloc, stand, into)?;
    put_talks(&links, into)
}

/// Puts what the two connections of the first link were told, each with a space behind it.
fn put_talks(links: &[MemLink], into: &mut String) -> Result<(), Memory> {
    let link = links.first().ok_or(Memory)?;
    put_talk(link, 0, into)?;
    into.push_str(" ")?;
    put_talk(link, 1, into)?;
    into.push_str(" ")?;
    Ok(())
}
