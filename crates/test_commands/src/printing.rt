// Texts that are told.

use sect_base::Memory;
use std::io;

/// Prints a text.
pub fn print_told(rt: HostRuntime, told: Result<Vec<u8>, Memory>) -> io::Result<()> {
    match told.map(String::from_utf8) {
        Ok(Ok(text)) => print!(rt; "{text}"),
        Ok(Err(_)) => println!(rt; "no text"),
        Err(Memory) => println!(rt; "out of memory"),
    }
}
