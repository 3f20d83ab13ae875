// Reading entry rows.

ghost use Rattle.std.specs.Prelude.{◌≡◌, ◌≤◌, ◌++◌, ◌∷◌, [], codes, length, take, IfOk, IfSome, IsTrue, Some};
ghost use Rattle.sect_command.specs.declared.command.Command.{Command};
ghost use Rattle.sect_command.specs.declared.reply.Reply.{Reply};
ghost use Rattle.sect_once.specs.declared.entry.Entry.{Entry};
ghost use Rattle.sect_once.specs.declared.entry.Request.{Request};
ghost use Rattle.sect_text.specs.ToldRows.{IsRequestText};
ghost use Rattle.sect_read.specs.Fits.{FitsCommand, FitsDay, FitsId};
ghost use Rattle.sect_read.specs.Laws.{IsRow};
ghost use Rattle.sect_words.specs.Parts.{pieces};
ghost use Rattle.sect_words.specs.Reading.{Reads, whole, Finds};
ghost use Rattle.sect_read.specs.ReadingLines.{id_at, request_at, request_of, row_at, row_of, agrees};

use crate::commands::read_command_words;
use crate::reply::read_reply_words;
use memchr::memchr;
use sect_base::{Id, Memory};
use sect_command::{Command, Reply};
use sect_once::{Entry, Request};
use sect_text::is_marked;
use sect_words::{Fault, Parts};
use std::alloc::Global;

/// A caller and a number.
#[tactic(auto, unfolding(crate::specs::ReadingLines::id_at))]
pub(crate) fn read_id(alloc: Global, words: &mut Parts) -> Result<Id, Fault>
    ensures { Reads result words.new (id_at words.old) }
{
    let caller = words.word(alloc)?;
    let number = words.long()?;
    Ok(Id { caller, number })
}

/// Whether both hold or neither does.
fn agree(a: bool, b: bool) -> bool
    ensures { result ≡ agrees a b }
{
    if a { b } else { !b }
}

/// The request of a row: its day, its id and its command, whose mark it has.
#[tactic(auto, unfolding(crate::specs::ReadingLines::request_at))]
fn read_request_words(alloc: Global, words: &mut Parts) -> Result<Request<Command>, Fault>
    ensures { Reads result words.new (request_at words.old) }
{
    let marked = words.takes(b"2");
    let day = words.word(alloc)?;
    let id = read_id(alloc, words)?;
    let command = read_command_words(alloc, false, words)?;
    if !agree(marked, is_marked(&command)) {
        return Err(Fault::Bad);
    }
    Ok(Request { id, day, command })
}

/// The entry of a row: its request and its reply.
#[tactic(auto, unfolding(crate::specs::ReadingLines::row_at))]
fn read_entry(alloc: Global, words: &mut Parts) -> Result<Entry<Command, Reply>, Fault>
    ensures { Reads result words.new (row_at words.old) }
{
    let Request { id, day, command } = read_request_words(alloc, words)?;
    words.key(b"=")?;
    let reply = read_reply_words(alloc, words)?;
    Ok(Entry {
        id,
        day,
        command,
        reply,
    })
}

/// Whether the bytes are `=` between spaces.
fn is_equals(bytes: &[u8]) -> bool
    ensures { IsTrue result → bytes.now ≡ 32 ∷ 61 ∷ 32 ∷ [] }
{
    bytes == b" = ".as_slice()
}

/// Whether `=` between spaces stands in front.
fn begins_equals(bytes: &[u8]) -> bool
    ensures { IsTrue result → (3 ≤ length bytes.now) × (take 3 bytes.now ≡ 32 ∷ 61 ∷ 32 ∷ []) }
{
    bytes.len() >= 3 && is_equals(&bytes[..3])
}

/// The bytes of a row before its first `=` and the space there, with the place behind `=` and the next space, where both are
/// there.
fn request_bytes(row: &[u8]) -> Option<(&[u8], usize)>
    ensures { IfSome result (λ r. (r.1 ≤ length row.now) × (take r.1 row.now ≡ r.0.now ++ 32 ∷ 61 ∷ 32 ∷ [])) }
{
    let at = memchr(b'=', row)?;
    if at == 0 {
        return None;
    }
    let (text, rest) = row.split_at(at - 1);
    if !begins_equals(rest) {
        return None;
    }
    Some((text, at + 2))
}

/// The request of a text.
fn find_request(alloc: Global, text: &[u8]) -> Result<Option<Request<Command>>, Memory>
    ensures { Finds result (request_of text.now) }
{
    let mut words = Parts::new(text, b' ');
    let read = read_request_words(alloc, &mut words);
    match read {
        Ok(request) => match words.end() {
            Ok(()) => Ok(Some(request)),
            Err(Fault::Bad) => Ok(None),
            Err(Fault::Memory) => Err(Memory),
        },
        Err(Fault::Bad) => Ok(None),
        Err(Fault::Memory) => Err(Memory),
    }
}

/// The request that stands before the first `=` of a row, and the place where the text of the reply begins. It takes memory.
pub fn read_request(alloc: Global, row: &[u8]) -> Result<Option<(Request<Command>, usize)>, Memory>
    ensures text { IfOk result (λ found. IfSome found (λ r. (r.1 ≤ length row.now) × IsRequestText r.0.id r.0.day r.0.command (take r.1 row.now))) }
    ensures fits { IfOk result (λ found. IfSome found (λ r. FitsId r.0.id × FitsDay r.0.day × FitsCommand r.0.command)) }
{
    let Some((text, at)) = request_bytes(row) else {
        return Ok(None);
    };
    match find_request(alloc, text)? {
        Some(request) => Ok(Some((request, at))),
        None => Ok(None),
    }
}

/// The entry of a row, where it has one.
fn find_entry(alloc: Global, row: &[u8]) -> Result<Option<Entry<Command, Reply>>, Memory>
    ensures { Finds result (row_of row.now) }
{
    let mut words = Parts::new(row, b' ');
    let read = read_entry(alloc, &mut words);
    match read {
        Ok(entry) => match words.end() {
            Ok(()) => Ok(Some(entry)),
            Err(Fault::Bad) => Ok(None),
            Err(Fault::Memory) => Err(Memory),
        },
        Err(Fault::Bad) => Ok(None),
        Err(Fault::Memory) => Err(Memory),
    }
}

/// The entry of which this is the row. None exactly where there is none. It takes memory.
pub fn read_row(alloc: Global, row: &[u8]) -> Result<Option<Entry<Command, Reply>>, Memory>
    ensures found { IfOk result (λ found. IfSome found (λ e. IsRow e row.now)) }
    ensures only { (e : Entry Command Reply) → IsRow e row.now → IfOk result (λ found. found ≡ Some e) }
{
    find_entry(alloc, row)
}
