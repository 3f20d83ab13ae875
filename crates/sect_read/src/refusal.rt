// Reading refusals and the faults of rows.

ghost use Rattle.std.specs.Prelude.{◌≡◌, ◌<◌, ℕ, List, IfOk, length, codes};
ghost use Rattle.sect_words.specs.Reading.{any_word, Reads, ReadsAs, word_at};
ghost use Rattle.sect_read.specs.ReadingReplies.{
  catalog_fault_named,
  request_fault_named,
  reserve_fault_named,
  offering_fault_at,
  asked_fault_at,
  reserved_fault_at,
  row_fault_at,
  row_refusal_at,
  refusal_named,
  refusal_at,
};

use sect_catalog::CatalogFault;
use sect_command::{Refusal, RowFault};
use sect_people::RequestFault;
use sect_reserve::ReserveFault;
use sect_words::{Fault, Parts, same_bytes};
use std::alloc::Global;

/// The next word, which is taken.
pub(crate) fn take_name<'a>(words: &mut Parts<'a>) -> Result<&'a [u8], Fault>
    ensures reads { ReadsAs (λ name. name.now) result words.new (word_at any_word words.old) }
    ensures shorter { IfOk result (λ _. length words.new < length words.old) }
{
    match words.next() {
        Some(name) => Ok(name),
        None => Err(Fault::Bad),
    }
}

/// The fault of an offering's row that has this name.
#[tactic(auto, unfolding(crate::specs::ReadingReplies::catalog_fault_named))]
fn read_catalog_fault(alloc: Global, name: &[u8], words: &mut Parts) -> Result<CatalogFault, Fault>
    ensures { Reads result words.new (catalog_fault_named name.now words.old) }
{
    if same_bytes(name, b"Known") {
        return Ok(CatalogFault::Known(words.word(alloc)?));
    }
    if same_bytes(name, b"NoCourse") {
        return Ok(CatalogFault::NoCourse);
    }
    if same_bytes(name, b"NoConfig") {
        return Ok(CatalogFault::NoConfig);
    }
    if same_bytes(name, b"NoSubpart") {
        return Ok(CatalogFault::NoSubpart(words.word(alloc)?));
    }
    if same_bytes(name, b"NoSection") {
        return Ok(CatalogFault::NoSection(words.word(alloc)?));
    }
    if same_bytes(name, b"BadParent") {
        return Ok(CatalogFault::BadParent(words.word(alloc)?));
    }
    if same_bytes(name, b"TooMany") {
        return Ok(CatalogFault::TooMany(words.word(alloc)?));
    }
    Err(Fault::Bad)
}

/// The fault of a student's requests that has this name.
#[tactic(auto, unfolding(crate::specs::ReadingReplies::request_fault_named))]
fn read_request_fault(alloc: Global, name: &[u8], words: &mut Parts) -> Result<RequestFault, Fault>
    ensures { Reads result words.new (request_fault_named name.now words.old) }
{
    if same_bytes(name, b"UnknownCourse") {
        return Ok(RequestFault::UnknownCourse(words.word(alloc)?));
    }
    if same_bytes(name, b"Twice") {
        return Ok(RequestFault::Twice(words.word(alloc)?));
    }
    if same_bytes(name, b"TooMany") {
        return Ok(RequestFault::TooMany(words.word(alloc)?));
    }
    Err(Fault::Bad)
}

/// The fault of a reservation's or a restriction's row that has this name.
#[tactic(auto, unfolding(crate::specs::ReadingReplies::reserve_fault_named))]
fn read_reserve_fault(alloc: Global, name: &[u8], words: &mut Parts) -> Result<ReserveFault, Fault>
    ensures { Reads result words.new (reserve_fault_named name.now words.old) }
{
    if same_bytes(name, b"Known") {
        return Ok(ReserveFault::Known(words.word(alloc)?));
    }
    if same_bytes(name, b"Foreign") {
        return Ok(ReserveFault::Foreign(words.word(alloc)?));
    }
    if same_bytes(name, b"NoGroup") {
        return Ok(ReserveFault::NoGroup);
    }
    if same_bytes(name, b"TooMany") {
        return Ok(ReserveFault::TooMany(words.word(alloc)?));
    }
    Err(Fault::Bad)
}

/// The fault of an offering's row, as the fault of a row.
#[tactic(auto, unfolding(crate::specs::ReadingReplies::offering_fault_at))]
fn read_offering_fault(alloc: Global, words: &mut Parts) -> Result<RowFault, Fault>
    ensures { Reads result words.new (offering_fault_at words.old) }
{
    let name = take_name(words)?;
    Ok(RowFault::Offering(read_catalog_fault(alloc, name, words)?))
}

/// The fault of a student's requests, as the fault of a row.
#[tactic(auto, unfolding(crate::specs::ReadingReplies::asked_fault_at))]
fn read_asked_fault(alloc: Global, words: &mut Parts) -> Result<RowFault, Fault>
    ensures { Reads result words.new (asked_fault_at words.old) }
{
    let name = take_name(words)?;
    Ok(RowFault::Request(read_request_fault(alloc, name, words)?))
}

/// The fault of a reservation's or a restriction's row, as the fault of a row.
#[tactic(auto, unfolding(crate::specs::ReadingReplies::reserved_fault_at))]
fn read_reserved_fault(alloc: Global, words: &mut Parts) -> Result<RowFault, Fault>
    ensures { Reads result words.new (reserved_fault_at words.old) }
{
    let name = take_name(words)?;
    Ok(RowFault::Reserve(read_reserve_fault(alloc, name, words)?))
}

/// The fault of a row, behind the word for its kind.
#[tactic(auto, unfolding(crate::specs::ReadingReplies::row_fault_at))]
fn read_row_fault(alloc: Global, words: &mut Parts) -> Result<RowFault, Fault>
    ensures { Reads result words.new (row_fault_at words.old) }
{
    if words.takes(b"offering") {
        return read_offering_fault(alloc, words);
    }
    if words.takes(b"request") {
        return read_asked_fault(alloc, words);
    }
    if words.takes(b"reserve") {
        return read_reserved_fault(alloc, words);
    }
    Err(Fault::Bad)
}

/// The refusal for the fault of a row.
#[tactic(auto, unfolding(crate::specs::ReadingReplies::row_refusal_at))]
fn read_row_refusal(alloc: Global, words: &mut Parts) -> Result<Refusal, Fault>
    ensures { Reads result words.new (row_refusal_at words.old) }
{
    Ok(Refusal::Row(read_row_fault(alloc, words)?))
}

/// The refusal that has this name.
#[tactic(auto, unfolding(crate::specs::ReadingReplies::refusal_named))]
fn read_named_refusal(alloc: Global, name: &[u8], words: &mut Parts) -> Result<Refusal, Fault>
    ensures { Reads result words.new (refusal_named name.now words.old) }
{
    if same_bytes(name, b"NotYours") {
        return Ok(Refusal::NotYours);
    }
    if same_bytes(name, b"Unknown") {
        return Ok(Refusal::Unknown(words.word(alloc)?));
    }
    if same_bytes(name, b"EmptyWant") {
        return Ok(Refusal::EmptyWant);
    }
    if same_bytes(name, b"TooMany") {
        return Ok(Refusal::TooMany(words.word(alloc)?));
    }
    if same_bytes(name, b"NotEnrolled") {
        return Ok(Refusal::NotEnrolled(words.word(alloc)?));
    }
    if same_bytes(name, b"WaitingAlready") {
        return Ok(Refusal::WaitingAlready(words.word(alloc)?));
    }
    if same_bytes(name, b"NotWaiting") {
        return Ok(Refusal::NotWaiting);
    }
    if same_bytes(name, b"LimitBelow") {
        return Ok(Refusal::LimitBelow(words.word(alloc)?));
    }
    if same_bytes(name, b"InUse") {
        return Ok(Refusal::InUse(words.word(alloc)?));
    }
    if same_bytes(name, b"Row") {
        return read_row_refusal(alloc, words);
    }
    Err(Fault::Bad)
}

/// Why a command was refused.
#[tactic(auto, unfolding(crate::specs::ReadingReplies::refusal_at))]
pub(crate) fn read_refusal(alloc: Global, words: &mut Parts) -> Result<Refusal, Fault>
    ensures { Reads result words.new (refusal_at words.old) }
{
    let name = take_name(words)?;
    read_named_refusal(alloc, name, words)
}
