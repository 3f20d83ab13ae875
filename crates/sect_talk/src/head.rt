// Waits for a head.
ghost use Rattle.std.specs.Prelude.{◌≡◌, ◌<◌, ℕ, List, length, Option, IfSome, IfNone, IfOk, OnErr};
ghost use Rattle.sect_edge.specs.Causes.{HasCause};
ghost use Rattle.sect_talk.specs.Coming.{Comes, IsWithinCome, Takes};
ghost use Rattle.sect_talk.specs.Rest.{IsOpenHead};

use crate::Room;
use httparse::spans::{HeaderSpan, RequestSpans};
use sect_edge::{Failed, Source};
use sect_head::{HeadRead, read_head};
use std::alloc::Global;

const LONGEST: usize = 16_384;

/// What came while a head was awaited.
#[derive(Clone, Copy, PartialEq, Eq)]
pub enum Came {
    /// A head of at most 64 fields.
    Whole(RequestSpans),
    /// A head of more fields. Its method alone can be looked at.
    Crowded(RequestSpans),
    /// Bytes in which no head is read.
    NoHead,
    /// The input ended before a head had ended.
    Ended,
    /// Memory was wanting.
    Memory,
}

/// Waits until the bytes that stand ready tell what their head is; where they do at first, nothing is read. A head has
/// at most 16,384 bytes, the empty lines before it included. `Memory` comes only where more than 64 fields do. At
/// `Failed` the source failed before a head had ended.
pub fn await_head<S: Source>(
    alloc: Global,
    room: &mut Room,
    source: &mut S,
    spans: &mut [HeaderSpan],
) -> Result<Came, Failed>
    requires { length spans.old ≡ 64 }
    ensures takes { Takes (S.left source.old) (S.left source.new) room.old room.new }
    ensures came { IfOk result (Comes room.new spans.new (S.left source.new)) }
    ensures within { IfOk result (IsWithinCome room.new spans.new) }
    ensures fault { OnErr result (IsOpenHead room.new) }
    ensures unread { (IsOpenHead room.old → ⊥) → source.new ≡ source.old }
    ensures cause { HasCause (S.faults source.old) (S.faults source.new) result }
{
    loop {
        if let Some(came) = look(alloc, room.bytes(), spans) {
            return Ok(came);
        }
        if room.fill(source)? == 0 {
            return Ok(Came::Ended);
        }
    }
}

/// What the bytes say of their head, where no more bytes are wanted for that.
fn look(alloc: Global, bytes: &[u8], spans: &mut [HeaderSpan]) -> Option<Came>
    requires { length spans.old ≡ 64 }
    ensures came { (left : Option (List ℕ)) → IfSome result (Comes bytes.now spans.new left) }
    ensures within { IfSome result (IsWithinCome bytes.now spans.new) }
    ensures open { IfNone result (IsOpenHead bytes.now) }
{
    let front = &bytes[..bytes.len().min(LONGEST)];
    match read_head(alloc, front, spans) {
        Ok(HeadRead::Whole(head)) => Some(Came::Whole(head)),
        Ok(HeadRead::Crowded(head)) => Some(Came::Crowded(head)),
        Ok(HeadRead::Unfinished) => {
            if bytes.len() < LONGEST {
                None
            } else {
                Some(Came::NoHead)
            }
        }
        Ok(HeadRead::Impossible) => Some(Came::NoHead),
        Err(_) => Some(Came::Memory),
    }
}
