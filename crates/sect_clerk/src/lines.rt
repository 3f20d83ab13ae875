// The lines of an entry.
ghost use Rattle.std.specs.Prelude.{◌≡◌, ◌++◌, OnOk, flat_map};
ghost use Rattle.sect_clerk.specs.Log.{entry_text, placed_comment, request_text};

use crate::comment::{print_placed_comment, print_reply_comment};
use sect_base::Memory;
use sect_command::{Command, Reply};
use sect_model::Placed;
use sect_once::Entry;
use sect_text::print_command;
use sect_words::{print_bytes, print_marked};

/// Appends the lines of the entry at a place, after which settling placed these. After `Memory` a part of them may stand at the
/// end.
pub fn print_entry(
    place: u32,
    entry: &Entry<Command, Reply>,
    placed: &[Placed],
    into: &mut Vec<u8>,
) -> Result<(), Memory>
    ensures { OnOk result (into.new.items ≡ into.old.items ++ entry_text (record { place = place; entry = entry.now; placed = placed.now })) }
{
    print_request(entry, into)?;
    print_reply_comment(place, &entry.reply, into)?;
    print_all_placed(placed, into)
}

/// Appends the request on its day.
fn print_request(entry: &Entry<Command, Reply>, into: &mut Vec<u8>) -> Result<(), Memory>
    ensures { OnOk result (into.new.items ≡ into.old.items ++ request_text entry.now) }
{
    print_marked(b'@', &entry.day, into)?;
    print_marked(b' ', &entry.id.caller, into)?;
    print_marked(b' ', &entry.id.number, into)?;
    print_bytes(b" ", into)?;
    print_command(&entry.command, into)?;
    print_bytes(b"\n", into)?;
    Ok(())
}

/// Appends a comment for each placement.
fn print_all_placed(placed: &[Placed], into: &mut Vec<u8>) -> Result<(), Memory>
    ensures { OnOk result (into.new.items ≡ into.old.items ++ flat_map placed_comment placed.now) }
{
    for one in placed {
        print_placed_comment(one, into)?;
    }
    Ok(())
}
