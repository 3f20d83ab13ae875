// Bodies over HTTP: an answer doesn't tell why one says no command.

use crate::lines::put_as_it_is;
use sect_base::Memory;
use sect_read::WireFault;
use sect_text::print_command;
use sect_wire::read_body;
use sect_words::{print_number, print_text};

/// Puts the command that a body says, or why it says none, behind the text.
fn put_body(bytes: &[u8], into: &mut Vec<u8>) -> Result<(), Memory> {
    match read_body(*into.allocator(), bytes) {
        Ok(command) => print_command(&command, into),
        Err(WireFault::BadBody(cause)) => {
            print_text("bad ", into)?;
            print_number(cause, into)
        }
        Err(WireFault::Memory) => Err(Memory),
        Err(_) => print_text("another fault", into),
    }
}

/// The same of the body in a line; a line with a name is put as it is.
pub fn put_line(line: &str, into: &mut Vec<u8>) -> Result<(), Memory> {
    if line.starts_with('#') {
        return put_as_it_is(line, into);
    }
    put_body(line.as_bytes(), into)?;
    into.push(b'\n')?;
    Ok(())
}
