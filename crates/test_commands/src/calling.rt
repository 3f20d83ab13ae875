// A program that calls the library: it opens a desk over a keeper in memory, asks it the lines of a small term, looks at who
// is in the section, and closes the desk.

use sect_asking::{asked_on, is_passed_over, print_answer, read_request};
use sect_base::{Day, Memory, SectionId};
use sect_command::Query;
use sect_edge::{MemClock, MemKeeper};
use sect_machine::Machine;
use sect_once::Desk;
use sect_report::report;
use std::alloc::Global;

/// One section with one place, and two students; the first asks for it again, as where the answer was lost.
const TERM: &str = "@2025-08-01 r1 1 offering 1 course 1 - 3 config 1 - subpart 1 section 7 1 - -
r1 2 student 11 max 18
r1 3 student 12 max 18
s11 1 enrol 11 1
s12 1 enrol 12 1
s11 1 enrol 11 1
";

type Registrar = Desk<Machine, MemKeeper>;

/// Appends the answer to a line, asked today where it names no day. A line that asks nothing has none.
fn ask(
    desk: &mut Registrar,
    clock: &mut MemClock,
    line: &str,
    into: &mut Vec<u8>,
) -> Result<(), Memory> {
    let line = line.as_bytes();
    if is_passed_over(line) {
        return Ok(());
    }
    match read_request(*into.allocator(), line) {
        Ok(ask) => {
            let day = asked_on(ask.day, clock);
            print_answer(&desk.ask(ask.id, day, ask.command), into)
        }
        Err(_) => Ok(()),
    }
}

/// Appends the roll of a section.
fn look(desk: &Registrar, section: SectionId, into: &mut Vec<u8>) -> Result<(), Memory> {
    let query = Query::Roll(section);
    report(&query, &desk.look(&query)?, into)
}

/// Appends what the desk answers to the lines, and then the roll of section 7.
fn ask_all(desk: &mut Registrar, clock: &mut MemClock, into: &mut Vec<u8>) -> Result<(), Memory> {
    for line in TERM.lines() {
        ask(desk, clock, line, into)?;
    }
    look(desk, SectionId(7), into)
}

/// What the desk answers to the lines, and the roll of section 7.
pub fn called(alloc: Global) -> Result<Vec<u8>, Memory> {
    let today = Day::new(20_332).ok_or(Memory)?;
    let mut clock = MemClock::new(today, Vec::new(alloc));
    let mut told = Vec::new(alloc);
    let keeper = MemKeeper::new(Vec::new(alloc), Vec::new(alloc));
    let Ok(mut desk) = Desk::open(alloc, keeper) else {
        return Err(Memory);
    };
    let asked = ask_all(&mut desk, &mut clock, &mut told);
    let _ = desk.close();
    asked?;
    Ok(told)
}
