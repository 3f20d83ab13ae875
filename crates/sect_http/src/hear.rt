// The next request of a connection is heard.

ghost use Rattle.std.specs.Prelude.{◌≡◌, ◌≢◌, ◌≤◌, ◌+◌, ℕ, Err, true, false, codes, drop, length, take, IfOk};
ghost use Rattle.std.specs.Str.{bytes_eq};
ghost use Rattle.httparse.specs.Grammar.{RequestHead};
ghost use Rattle.httparse.specs.Spans.{IsRequestAt, IsRequestWithin, IsWithin, span_bytes};
ghost use Rattle.sect_answer.specs.Errands.{FitsErrand, IsErrand};
ghost use Rattle.sect_edge.specs.Causes.{Rose};
ghost use Rattle.sect_head.specs.Closing.{closes_by};
ghost use Rattle.sect_head.specs.Framing.{framing_of};
ghost use Rattle.sect_head.specs.declared.told.Framing.TheVariants.{HasBody, Refuses};
ghost use Rattle.sect_http.specs.Hearing.{BeginsWith, Hears, IsHeard, IsMarked, IsReadAt, Wishes};
ghost use Rattle.sect_talk.specs.Asked.{Asked, Bytes, HEAD_LIMIT, Whole};
ghost use Rattle.sect_talk.specs.Coming.{IsCrowdedHead, Takes};
ghost use Rattle.sect_talk.specs.Rest.{IsBlank, IsCut, IsNoHead, IsOpenHead};
ghost use Rattle.sect_talk.specs.declared.end.End.TheVariants.{ReadFault, WriteFault};

use crate::heard::{Heard, Marks, Wish};
use httparse::spans::{EMPTY_HEADER_SPAN, HeaderSpan, RequestSpans};
use sect_answer::{Errand, Routes, read_errand};
use sect_base::Memory;
use sect_edge::Source;
use sect_head::{Framing, Refusal, blank_lines, closes_by, framing};
use sect_talk::{Came, End, Room, await_body, await_head};
use sect_words::same_bytes;
use std::alloc::Global;

/// Whether the input ended between requests, where no head had ended.
fn is_between(bytes: &[u8]) -> bool
    requires { IsOpenHead bytes.now }
    ensures between { result ≡ true → IsBlank bytes.now }
    ensures cut { result ≡ false → IsCut bytes.now }
{
    blank_lines(bytes)
}

/// The method is HEAD.
fn is_head(method: &[u8]) -> bool
    ensures { result ≡ bytes_eq method.now (codes "HEAD") }
{
    same_bytes(method, b"HEAD")
}

/// No head is read in these bytes.
fn no_head(bytes: &[u8]) -> Heard
    requires { IsNoHead bytes.now }
    ensures { IsHeard bytes.now result (Bytes bytes.now) }
{
    Heard {
        wish: Wish::Refused(Refusal::Head),
        len: bytes.len(),
        headless: false,
    }
}

/// Memory was wanted before the bytes told of their head.
fn wanting(bytes: &[u8]) -> Heard
    ensures { IsHeard bytes.now result (Bytes bytes.now) }
{
    Heard {
        wish: Wish::Wanting,
        len: bytes.len(),
        headless: false,
    }
}

/// A head of too many fields is refused.
fn crowded(bytes: &[u8], head: &RequestSpans) -> Heard
    requires crowded { (h : RequestHead) × IsCrowdedHead bytes.now head.now h }
    requires within { IsWithin (length bytes.now) head.now.method }
    ensures { (asked : Asked) × IsHeard bytes.now result asked }
{
    Heard {
        wish: Wish::Refused(Refusal::Head),
        len: head.len,
        headless: is_head(head.method.of(bytes)),
    }
}

/// What a whole request is for, with so many bytes of body.
fn errand_of(
    alloc: Global,
    routes: &Routes,
    bytes: &[u8],
    head: &RequestSpans,
    len: usize,
) -> Result<Errand, Memory>
    requires method { IsWithin (length bytes.now) head.now.method }
    requires path { IsWithin (length bytes.now) head.now.path }
    requires there { head.now.len + len ≤ length bytes.now }
    ensures errand { IfOk result (IsErrand (span_bytes bytes.now head.now.method) (span_bytes bytes.now head.now.path)
        (take len (drop head.now.len bytes.now))) }
    ensures fits { IfOk result FitsErrand }
{
    let body = &bytes[head.len..head.len + len];
    read_errand(
        alloc,
        routes,
        head.method.of(bytes),
        head.path.of(bytes),
        body,
    )
}

/// What a whole request wishes, with so many bytes of body.
fn wish_of(
    alloc: Global,
    routes: &Routes,
    bytes: &[u8],
    head: &RequestSpans,
    len: usize,
    closing: bool,
) -> Wish
    requires method { IsWithin (length bytes.now) head.now.method }
    requires path { IsWithin (length bytes.now) head.now.path }
    requires there { head.now.len + len ≤ length bytes.now }
    ensures { (h : RequestHead) → BeginsWith bytes.now head.now h → closing ≡ closes_by h → Wishes (Whole h (take len (drop head.now.len bytes.now))) result }
{
    match errand_of(alloc, routes, bytes, head, len) {
        Ok(errand) => Wish::Asks(errand, closing),
        Err(_) => Wish::Wanting,
    }
}

/// A whole head whose body, of so many bytes, is there.
fn with_body(
    alloc: Global,
    routes: &Routes,
    bytes: &[u8],
    head: &RequestSpans,
    len: usize,
    marks: Marks,
) -> Heard
    requires method { IsWithin (length bytes.now) head.now.method }
    requires path { IsWithin (length bytes.now) head.now.path }
    requires there { head.now.len + len ≤ length bytes.now }
    requires head { (h : RequestHead) × BeginsWith bytes.now head.now h × IsMarked h marks × (framing_of h ≡ HasBody len) }
    ensures { (asked : Asked) × IsHeard bytes.now result asked }
{
    let wish = wish_of(alloc, routes, bytes, head, len, marks.closing);
    Heard {
        wish,
        len: head.len + len,
        headless: marks.headless,
    }
}

/// What a head says of its body.
fn framed(bytes: &[u8], spans: &[HeaderSpan], head: &RequestSpans) -> Framing
    requires head { (h : RequestHead) × IsRequestAt bytes.now spans.now head.now h }
    requires within { IsRequestWithin bytes.now spans.now head.now }
    ensures framing { (h : RequestHead) → IsRequestAt bytes.now spans.now head.now h → result ≡ framing_of h }
    ensures bound { (n : ℕ) → result ≡ HasBody n → n ≤ 65536 }
{
    framing(bytes, spans, head)
}

/// What a head says of its answer.
fn marked(bytes: &[u8], spans: &[HeaderSpan], head: &RequestSpans) -> Marks
    requires { IsRequestWithin bytes.now spans.now head.now }
    ensures { (h : RequestHead) → IsRequestAt bytes.now spans.now head.now h → IsMarked h result }
{
    Marks {
        closing: closes_by(bytes, spans, head),
        headless: is_head(head.method.of(bytes)),
    }
}

/// A head that is refused before its body is read.
fn refused(bytes: &[u8], head: &RequestSpans, why: Refusal, marks: Marks) -> Heard
    requires { (h : RequestHead) × BeginsWith bytes.now head.now h × IsMarked h marks × (framing_of h ≡ Refuses why) }
    ensures { (asked : Asked) × IsHeard bytes.now result asked }
{
    Heard {
        wish: Wish::Refused(why),
        len: head.len,
        headless: marks.headless,
    }
}

/// A head of at most 64 fields that isn't refused.
fn awaits_body<S: Source>(
    alloc: Global,
    routes: &Routes,
    room: &mut Room,
    source: &mut S,
    head: &RequestSpans,
    len: usize,
    marks: Marks,
) -> Result<Heard, End>
    requires head { (h : RequestHead) × IsReadAt room.old head.now h × IsMarked h marks × (framing_of h ≡ HasBody len) }
    requires within { IsWithin (length room.old) head.now.method × IsWithin (length room.old) head.now.path }
    requires bound { len ≤ 65536 }
    requires short { head.now.len ≤ HEAD_LIMIT }
    ensures takes { Takes (S.left source.old) (S.left source.new) room.old room.new }
    ensures hears { Hears room.new (S.left source.new) result }
    ensures later { S.faults source.old ≤ S.faults source.new }
    ensures fault { result ≡ Err ReadFault → Rose (S.faults source.old) (S.faults source.new) }
    ensures others { result ≢ Err WriteFault }
{
    match await_body(room, source, head.len + len) {
        Ok(true) => Ok(with_body(alloc, routes, room.bytes(), head, len, marks)),
        Ok(false) => Err(End::Cut),
        Err(_) => Err(End::ReadFault),
    }
}

/// A head of at most 64 fields.
fn whole<S: Source>(
    alloc: Global,
    routes: &Routes,
    room: &mut Room,
    source: &mut S,
    spans: &[HeaderSpan],
    head: &RequestSpans,
) -> Result<Heard, End>
    requires head { (h : RequestHead) × IsRequestAt room.old spans.now head.now h }
    requires short { head.now.len ≤ HEAD_LIMIT }
    requires within { IsRequestWithin room.old spans.now head.now }
    ensures takes { Takes (S.left source.old) (S.left source.new) room.old room.new }
    ensures hears { Hears room.new (S.left source.new) result }
    ensures later { S.faults source.old ≤ S.faults source.new }
    ensures fault { result ≡ Err ReadFault → Rose (S.faults source.old) (S.faults source.new) }
    ensures others { result ≢ Err WriteFault }
{
    let bytes = room.bytes();
    let marks = marked(bytes, spans, head);
    match framed(bytes, spans, head) {
        Framing::Refuses(why) => Ok(refused(bytes, head, why, marks)),
        Framing::HasBody(len) => awaits_body(alloc, routes, room, source, head, len, marks),
    }
}

/// Hears the next request: waits until it is whole, or refused by what stands ready, or until the connection ends.
pub(crate) fn hear<S: Source>(
    alloc: Global,
    routes: &Routes,
    room: &mut Room,
    source: &mut S,
) -> Result<Heard, End>
    ensures takes { Takes (S.left source.old) (S.left source.new) room.old room.new }
    ensures hears { Hears room.new (S.left source.new) result }
    ensures later { S.faults source.old ≤ S.faults source.new }
    ensures fault { result ≡ Err ReadFault → Rose (S.faults source.old) (S.faults source.new) }
    ensures others { result ≢ Err WriteFault }
{
    let mut spans = [EMPTY_HEADER_SPAN; 64];
    match await_head(alloc, room, source, &mut spans) {
        Ok(Came::Whole(head)) => whole(alloc, routes, room, source, &spans, &head),
        Ok(Came::Crowded(head)) => Ok(crowded(room.bytes(), &head)),
        Ok(Came::NoHead) => Ok(no_head(room.bytes())),
        Ok(Came::Ended) => if is_between(room.bytes()) {
            Err(End::Closed)
        } else {
            Err(End::Cut)
        },
        Ok(Came::Memory) => Ok(wanting(room.bytes())),
        Err(_) => {
            is_between(room.bytes());
            Err(End::ReadFault)
        }
    }
}
