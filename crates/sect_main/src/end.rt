// How a program ends.

use sect_script::{Status, number_of, print_status};
use std::io;
use std::io::Write;
use std::process::ExitCode;

/// How the program ended: with a status, or with a journal whose gate at this place has no byte or no whole row behind it.
#[derive(Drop)]
pub enum End {
    Told(Status),
    BadJournal(u64),
}

/// Prints the text of the end to standard error, and gives its number. `usage` is the line for words that aren't in the
/// grammar, where it isn't the desk's. The number tells the end also where its text can't be printed.
pub fn finish(rt: HostRuntime, end: End, usage: Option<&str>) -> ExitCode {
    match end {
        End::Told(status) => {
            let _ = print_end(rt, status, usage);
            ExitCode::from(number_of(status))
        }
        End::BadJournal(place) => {
            let _ = eprintln!(rt; "bad journal {place}");
            ExitCode::from(7)
        }
    }
}

/// Prints the text of the status.
fn print_end(rt: HostRuntime, status: Status, usage: Option<&str>) -> io::Result<()> {
    match (status, usage) {
        (Status::BadWords, Some(usage)) => rt.stderr().write_all(usage.as_bytes()),
        _ => {
            let mut text = Vec::new(rt.alloc());
            match print_status(status, &mut text) {
                Ok(()) => rt.stderr().write_all(&text),
                Err(_) => Ok(()),
            }
        }
    }
}
