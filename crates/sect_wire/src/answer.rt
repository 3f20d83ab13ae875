// Answers are printed.

ghost use Rattle.std.specs.Prelude.{◌≡◌, ◌≤◌, ◌++◌, ◌+◌, ◌⊎◌, IfOk, OnOk, OnErr, IsOk, codes, decimal, length, take, vec_capacity};
ghost use Rattle.json.specs.Print.{quoted};
ghost use Rattle.sect_text.specs.Replies.{reply_text};
ghost use Rattle.sect_wire.specs.Answers.{IsDone, answer_body, answer_status};

use itoa::Buffer;
use sect_base::{Memory, append, append_all};
use sect_command::Reply;
use sect_once::Answer;
use sect_text::print_reply;

/// The status of an answer.
fn answer_status(answer: &Answer<Reply>) -> u16
    ensures { result ≡ answer_status answer.now }
{
    match answer {
        Answer::Done { .. } => 200,
        Answer::NumberReused(_) | Answer::LogFull => 409,
        Answer::KeeperFault => 503,
        Answer::Memory => 507,
    }
}

/// Appends the front of the object of a request that acted, up to the quote before its reply. After `Memory` the bytes are as
/// before.
fn print_place(place: u32, into: &mut Vec<u8>) -> Result<(), Memory>
    ensures text { OnOk result (into.new.items ≡ into.old.items ++ (codes "{\"place\":" ++ (decimal place ++ codes ",\"reply\":\""))) }
    ensures memory { OnErr result (into.new.items ≡ into.old.items) }
{
    let mut digits = Buffer::new();
    append_all(
        &[
            b"{\"place\":",
            digits.format(place).as_bytes(),
            b",\"reply\":\"",
        ],
        into,
    )
}

/// Appends the object of a request that acted. No byte of a reply's text needs an escape. After `Memory` a part of it may
/// stand at the end.
fn print_parts(place: u32, reply: &Reply, into: &mut Vec<u8>) -> Result<(), Memory>
    ensures text { OnOk result (into.new.items ≡ into.old.items
        ++ (codes "{\"place\":" ++ (decimal place ++ (codes ",\"reply\":" ++ (quoted (reply_text reply.now) ++ codes "}"))))) }
    ensures front { take (length into.old.items) into.new.items ≡ into.old.items }
{
    print_place(place, into)?;
    print_reply(reply, into)?;
    append(b"\"}", into)
}

/// Appends the object of a request that acted. After `Memory` the bytes are as before.
fn print_done(place: u32, reply: &Reply, into: &mut Vec<u8>) -> Result<(), Memory>
    ensures text { OnOk result (into.new.items ≡ into.old.items
        ++ (codes "{\"place\":" ++ (decimal place ++ (codes ",\"reply\":" ++ (quoted (reply_text reply.now) ++ codes "}"))))) }
    ensures memory { OnErr result (into.new.items ≡ into.old.items) }
{
    let before = into.len();
    let printed = print_parts(place, reply, into);
    if printed.is_err() {
        into.truncate(before);
    }
    printed
}

/// Appends that the number was reused, with the place. After `Memory` the bytes are as before; room for 64 is enough.
fn print_reused(place: u32, into: &mut Vec<u8>) -> Result<(), Memory>
    ensures text { OnOk result (into.new.items ≡ into.old.items ++ (codes "{\"error\":\"reused\",\"place\":" ++ (decimal place ++ codes "}"))) }
    ensures memory { OnErr result (into.new.items ≡ into.old.items) }
    ensures room { length into.old.items + 64 ≤ vec_capacity into.old → IsOk result }
{
    let mut digits = Buffer::new();
    append_all(
        &[
            b"{\"error\":\"reused\",\"place\":",
            digits.format(place).as_bytes(),
            b"}",
        ],
        into,
    )
}

/// Appends an answer, and gives its status. After `Memory` the bytes are as before; where there is room for 64, only
/// `Done` can want memory.
pub fn print_answer(answer: &Answer<Reply>, into: &mut Vec<u8>) -> Result<u16, Memory>
    ensures status { IfOk result (λ status. status ≡ answer_status answer.now) }
    ensures text { OnOk result (into.new.items ≡ into.old.items ++ answer_body answer.now) }
    ensures memory { OnErr result (into.new.items ≡ into.old.items) }
    ensures room { length into.old.items + 64 ≤ vec_capacity into.old → IsDone answer.now ⊎ IsOk result }
{
    match answer {
        Answer::Done { place, reply } => print_done(*place, reply, into)?,
        Answer::NumberReused(place) => print_reused(*place, into)?,
        Answer::LogFull => append(b"{\"error\":\"full\"}", into)?,
        Answer::KeeperFault => append(b"{\"error\":\"fault\"}", into)?,
        Answer::Memory => append(b"{\"error\":\"memory\"}", into)?,
    }
    Ok(answer_status(answer))
}
