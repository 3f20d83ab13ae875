// Printing entry rows in two parts: the request, and the reply behind it, of which is told where it stands.

ghost use Rattle.std.specs.Prelude.{◌≡◌, ℕ, ◌++◌, IfOk, OnOk, length, take};
ghost use Rattle.sect_once.specs.Told.{TellsFrom};
ghost use Rattle.sect_text.specs.Replies.{reply_text};
ghost use Rattle.sect_text.specs.Rows.{request_part};
ghost use Rattle.sect_base.specs.declared.limit.Id.{Id};
ghost use Rattle.sect_text.specs.ToldRows.{IsAskedText, IsReplyText};

use crate::command_text::print_verb;
use crate::reply_text::print_answer_words;
use crate::row_text::{is_marked, print_dated, print_equals, print_front};
use sect_base::{Day, Id, Memory};
use sect_command::{Command, Reply};
use sect_once::AskedText;
use sect_words::print_bytes;

/// Appends a request as it stands in a row, in front of the text of its reply: the mark, the day, the id, the command and `=`. It
/// takes memory. After `Memory` a part of it may stand at the end.
pub fn print_request(id: Id, day: Day, command: &Command, into: &mut Vec<u8>) -> Result<(), Memory>
    ensures text { OnOk result (into.new.items ≡ into.old.items ++ request_part id day command.now) }
    ensures front { take (length into.old.items) into.new.items ≡ into.old.items }
{
    print_front(is_marked(command), day, id, into)?;
    print_verb(command, into)?;
    print_equals(into)
}

/// Appends what `print_request` does, of the text that the request has.
pub fn copy_request(command: &Command, asked: AskedText, into: &mut Vec<u8>) -> Result<(), Memory>
    ensures text { OnOk result ((id : Id) (day : ℕ) → IsAskedText id day command.now asked.entry.day.now asked.entry.rest.now
        → into.new.items ≡ into.old.items ++ request_part id day command.now) }
    ensures front { take (length into.old.items) into.new.items ≡ into.old.items }
{
    print_dated(is_marked(command), asked.day, into)?;
    print_bytes(asked.rest, into)?;
    print_equals(into)?;
    Ok(())
}

/// Appends the text of a reply, which completes the row of a request, and gives the place of this text. It takes memory. After
/// `Memory` a part of it may stand at the end.
pub fn print_told_reply(reply: &Reply, into: &mut Vec<u8>) -> Result<usize, Memory>
    ensures text { OnOk result (into.new.items ≡ into.old.items ++ reply_text reply.now) }
    ensures told { IfOk result (λ at. TellsFrom IsReplyText at into.new.items reply.now) }
    ensures front { take (length into.old.items) into.new.items ≡ into.old.items }
{
    let at = into.len();
    print_answer_words(reply, into)?;
    Ok(at)
}
