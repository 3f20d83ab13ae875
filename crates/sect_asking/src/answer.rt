// Prints the line that answers a request.
ghost use Rattle.std.specs.Prelude.{◌≡◌, ◌≤◌, ◌++◌, OnOk, codes, decimal, drop, length, take};
ghost use Rattle.sect_asking.specs.AnswerLines.{answer_line};
ghost use Rattle.sect_command.specs.declared.reply.Reply.{Reply};
ghost use Rattle.sect_once.specs.declared.answer.Answer.TheVariants.{Done, NumberReused};

use sect_base::Memory;
use sect_command::Reply;
use sect_once::Answer;
use sect_wire::print_reply;
use sect_words::{print_bytes, print_number, put, put_long};

/// Appends the line that answers a request. After `Memory` a part of it may stand at the end.
pub fn print_answer(answer: &Answer<Reply>, into: &mut Vec<u8>) -> Result<(), Memory>
    ensures text { OnOk result (into.new.items ≡ into.old.items ++ answer_line answer.now) }
    ensures front { take (length into.old.items) into.new.items ≡ into.old.items }
{
    match answer {
        Answer::Done { place, reply } => print_done(*place, reply, into)?,
        Answer::NumberReused(place) => print_reused(*place, into)?,
        Answer::LogFull => into.extend_from_slice(b"full\n")?,
        Answer::KeeperFault => into.extend_from_slice(b"fault\n")?,
        Answer::Memory => into.extend_from_slice(b"memory\n")?,
    }
    Ok(())
}

/// Appends the place and the reply.
fn print_done(place: u32, reply: &Reply, into: &mut Vec<u8>) -> Result<(), Memory>
    ensures text { OnOk result (into.new.items ≡ into.old.items ++ answer_line (Done place reply.now)) }
    ensures front { take (length into.old.items) into.new.items ≡ into.old.items }
{
    print_place(place, into)?;
    print_reply(reply, into)?;
    into.push(b'\n')?;
    Ok(())
}

/// Appends the place and the text of the reply.
#[inline(always)]
pub(crate) fn print_told(place: u32, reply: &[u8], into: &mut Vec<u8>) -> Result<(), Memory>
    ensures text { OnOk result (into.new.items ≡ into.old.items ++ (decimal place ++ (codes " " ++ (reply.now ++ codes "\n")))) }
    ensures front { take (length into.old.items) into.new.items ≡ into.old.items }
{
    print_place(place, into)?;
    into.extend_from_slice(reply)?;
    into.push(b'\n')?;
    Ok(())
}

/// Puts the place and a space at the end of the bytes, and tells where they begin.
fn put_place(place: u32, bytes: &mut [u8; 24]) -> usize
    ensures start { result ≤ 24 }
    ensures written { drop result bytes.new ≡ decimal place ++ codes " " }
{
    let start = put(b' ', bytes, 24);
    put_long(u64::from(place), bytes, start)
}

/// Appends the place and a space, all in one piece.
#[inline(always)]
fn print_place(place: u32, into: &mut Vec<u8>) -> Result<(), Memory>
    ensures text { OnOk result (into.new.items ≡ into.old.items ++ (decimal place ++ codes " ")) }
    ensures front { take (length into.old.items) into.new.items ≡ into.old.items }
{
    let mut bytes = [0; 24];
    let start = put_place(place, &mut bytes);
    print_bytes(&bytes[start..], into)
}

/// Appends the place that has the number.
fn print_reused(place: u32, into: &mut Vec<u8>) -> Result<(), Memory>
    ensures text { OnOk result (into.new.items ≡ into.old.items ++ answer_line (NumberReused place)) }
    ensures front { take (length into.old.items) into.new.items ≡ into.old.items }
{
    into.extend_from_slice(b"reused ")?;
    print_number(place, into)?;
    into.extend_from_slice(b"\n")?;
    Ok(())
}
