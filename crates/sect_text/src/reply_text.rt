// Printing replies.

ghost use Rattle.std.specs.Prelude.{◌≡◌, ℕ, ◌++◌, ◌∷◌, [], OnOk, OnErr, length, take, codes, flat_map, decimal};
ghost use Rattle.sect_command.specs.TreeText.{tree_text};
ghost use Rattle.sect_words.specs.Parts.{behind, sentence};
ghost use Rattle.sect_words.specs.Words.{choice_text};
ghost use Rattle.sect_text.specs.Replies.{
  catalog_fault_words,
  request_fault_words,
  reserve_fault_words,
  row_fault_words,
  refusal_words,
  line_words,
  choice_words,
  reply_words,
  reply_text,
};

use crate::line_text::print_lines;
use crate::phrase::{
    Phrase, print_each, print_key, print_named, print_pair, print_three, print_word,
};
use sect_base::{Choice, Memory};
use sect_catalog::CatalogFault;
use sect_command::{Refusal, Reply, RowFault};
use sect_people::RequestFault;
use sect_reserve::ReserveFault;
use sect_words::print_bytes;

/// The fault of an offering's row.
fn print_catalog_fault(fault: &CatalogFault, into: &mut Vec<u8>) -> Result<(), Memory>
    ensures text { OnOk result (into.new.items ≡ into.old.items ++ behind 32 (catalog_fault_words fault.now)) }
    ensures front { take (length into.old.items) into.new.items ≡ into.old.items }
{
    match fault {
        CatalogFault::Known(id) => print_named(b"Known", id, into),
        CatalogFault::NoCourse => print_key(b"NoCourse", into),
        CatalogFault::NoConfig => print_key(b"NoConfig", into),
        CatalogFault::NoSubpart(id) => print_named(b"NoSubpart", id, into),
        CatalogFault::NoSection(id) => print_named(b"NoSection", id, into),
        CatalogFault::BadParent(id) => print_named(b"BadParent", id, into),
        CatalogFault::TooMany(count) => print_named(b"TooMany", count, into),
    }
}

/// The fault of a student's requests.
fn print_request_fault(fault: &RequestFault, into: &mut Vec<u8>) -> Result<(), Memory>
    ensures text { OnOk result (into.new.items ≡ into.old.items ++ behind 32 (request_fault_words fault.now)) }
    ensures front { take (length into.old.items) into.new.items ≡ into.old.items }
{
    match fault {
        RequestFault::UnknownCourse(id) => print_named(b"UnknownCourse", id, into),
        RequestFault::Twice(id) => print_named(b"Twice", id, into),
        RequestFault::TooMany(count) => print_named(b"TooMany", count, into),
    }
}

/// The fault of a reservation's or a restriction's row.
fn print_reserve_fault(fault: &ReserveFault, into: &mut Vec<u8>) -> Result<(), Memory>
    ensures text { OnOk result (into.new.items ≡ into.old.items ++ behind 32 (reserve_fault_words fault.now)) }
    ensures front { take (length into.old.items) into.new.items ≡ into.old.items }
{
    match fault {
        ReserveFault::Known(id) => print_named(b"Known", id, into),
        ReserveFault::Foreign(id) => print_named(b"Foreign", id, into),
        ReserveFault::NoGroup => print_key(b"NoGroup", into),
        ReserveFault::TooMany(count) => print_named(b"TooMany", count, into),
    }
}

/// The fault of a row, behind the word for its kind.
fn print_row_fault(fault: &RowFault, into: &mut Vec<u8>) -> Result<(), Memory>
    ensures text { OnOk result (into.new.items ≡ into.old.items ++ behind 32 (row_fault_words fault.now)) }
    ensures front { take (length into.old.items) into.new.items ≡ into.old.items }
{
    match fault {
        RowFault::Offering(fault) => {
            print_key(b"offering", into)?;
            print_catalog_fault(fault, into)
        }
        RowFault::Request(fault) => {
            print_key(b"request", into)?;
            print_request_fault(fault, into)
        }
        RowFault::Reserve(fault) => {
            print_key(b"reserve", into)?;
            print_reserve_fault(fault, into)
        }
    }
}

/// Why a command was refused.
fn print_refusal(refusal: &Refusal, into: &mut Vec<u8>) -> Result<(), Memory>
    ensures text { OnOk result (into.new.items ≡ into.old.items ++ behind 32 (refusal_words refusal.now)) }
    ensures front { take (length into.old.items) into.new.items ≡ into.old.items }
{
    match refusal {
        Refusal::NotYours => print_key(b"NotYours", into),
        Refusal::Unknown(id) => print_named(b"Unknown", id, into),
        Refusal::EmptyWant => print_key(b"EmptyWant", into),
        Refusal::TooMany(count) => print_named(b"TooMany", count, into),
        Refusal::NotEnrolled(course) => print_named(b"NotEnrolled", course, into),
        Refusal::WaitingAlready(ticket) => print_named(b"WaitingAlready", ticket, into),
        Refusal::NotWaiting => print_key(b"NotWaiting", into),
        Refusal::LimitBelow(count) => print_named(b"LimitBelow", count, into),
        Refusal::InUse(count) => print_named(b"InUse", count, into),
        Refusal::Row(fault) => {
            print_key(b"Row", into)?;
            print_row_fault(fault, into)
        }
    }
}

impl Phrase for Choice {
    ghost words = { choice_words };

    fn print_words(&self, into: &mut Vec<u8>) -> Result<(), Memory> {
        print_word(self, into)
    }
}

/// Appends the text of a reply. After `Memory` a part of it may stand at the end.
pub(crate) fn print_answer_words(reply: &Reply, into: &mut Vec<u8>) -> Result<(), Memory>
    ensures text { OnOk result (into.new.items ≡ into.old.items ++ reply_text reply.now) }
    ensures front { take (length into.old.items) into.new.items ≡ into.old.items }
{
    match reply {
        Reply::Amended => print_bytes(b"amended", into),
        Reply::Enrolled(choice) => print_pair(b"enrolled", choice, into),
        Reply::Dropped(course) => print_pair(b"dropped", course, into),
        Reply::Swapped(choices) => {
            print_bytes(b"swapped", into)?;
            print_each(choices.as_slice(), into)
        }
        Reply::Waiting(ticket) => print_pair(b"waiting", ticket, into),
        Reply::Placed(ticket, choice) => print_three(b"placed", ticket, choice, into),
        Reply::Batched(lines) => {
            print_bytes(b"batched", into)?;
            print_lines(lines.as_slice(), into)
        }
        Reply::Blocked(visits, tree) => print_three(b"blocked", visits, tree, into),
        Reply::Spent(budget) => print_pair(b"spent", budget, into),
        Reply::Refused(refusal) => {
            print_bytes(b"refused", into)?;
            print_refusal(refusal, into)
        }
    }
}

/// Appends the text of a reply. It takes memory.
/// After `Memory` the bytes are as before.
pub fn print_reply(reply: &Reply, into: &mut Vec<u8>) -> Result<(), Memory>
    ensures text { OnOk result (into.new.items ≡ into.old.items ++ reply_text reply.now) }
    ensures memory { OnErr result (into.new.items ≡ into.old.items) }
{
    let before = into.len();
    let printed = print_answer_words(reply, into);
    if printed.is_err() {
        into.truncate(before);
    }
    printed
}
