// The log of a desk's history, from the first place on or a later one, of a student, a section or all.
ghost use Rattle.std.specs.Prelude.{◌≡◌, ◌++◌, ℕ, OnOk, true};
ghost use Rattle.std.specs.Option.{option_map_or};
ghost use Rattle.sect_history.specs.Step.{stepped};
ghost use Rattle.sect_clerk.specs.Log.{concerns, concerns_section, concerns_student, IsLog, is_told, log_text, logged_at, told_text};
ghost use Rattle.sect_machine.specs.Standing.{state_in};
ghost use Rattle.sect_once.specs.History.{history};

use crate::lines::print_entry;
use crate::naming::{names_section, names_student};
use sect_base::{Duplicate, Memory, SectionId, StudentId};
use sect_command::{Command, Reply};
use sect_edge::Keeper;
use sect_machine::Machine;
use sect_model::Placed;
use sect_once::{Desk, Entry, Object};
use sect_tell::Teller;
use std::alloc::Global;
use std::thread::Threads;

/// The entries of a history at the place `from` and behind it, of these those that concern the student and the section, where
/// they are named: each as its request on its day, with the reply and whom settling placed after it as comments.
#[derive(Clone, Copy, PartialEq, Eq)]
pub struct Log {
    pub student: Option<StudentId>,
    pub section: Option<SectionId>,
    pub from: u32,
}

impl Teller for Log {
    ghost tells = { λ log. IsLog log };

    fn text<R: Threads + Sync, K: Keeper>(
        &self,
        _rt: &R,
        alloc: Global,
        desk: &Desk<Machine, K>,
        into: &mut Vec<u8>,
    ) -> Result<(), Memory> {
        print_log(alloc, *self, desk, into)
    }
}

/// Appends the log of the desk's history, which acts again on a machine of its own. After `Memory` a part of it may stand at the
/// end.
fn print_log<K: Keeper>(
    alloc: Global,
    log: Log,
    desk: &Desk<Machine, K>,
    into: &mut Vec<u8>,
) -> Result<(), Memory>
    ensures { OnOk result (into.new.items ≡ into.old.items ++ log_text log (history desk.now.log)) }
{
    let mut machine = Machine::empty(alloc);
    for place in 0..desk.acted() {
        let entry = desk.entry(place)?;
        print_next(alloc, &mut machine, log, place, &entry, into)?;
    }
    Ok(())
}

/// Acts the entry's command, and appends the lines of the entry where it is told.
fn print_next(
    alloc: Global,
    machine: &mut Machine,
    log: Log,
    place: u32,
    entry: &Entry<Command, Reply>,
    into: &mut Vec<u8>,
) -> Result<(), Memory>
    ensures state { OnOk result (state_in machine.new ≡ (stepped (state_in machine.old) entry.now.day entry.now.id.caller entry.now.command).0) }
    ensures text { OnOk result (into.new.items ≡ into.old.items ++ told_text log (logged_at (state_in machine.old) place entry.now)) }
{
    let mut command = entry.command.copy(alloc)?;
    let step = machine.step_told(entry.day, entry.id.caller, &mut command)?;
    print_told(log, place, entry, step.placed.as_slice(), into)?;
    Ok(())
}

/// Appends the lines of the entry, where it is told.
fn print_told(
    log: Log,
    place: u32,
    entry: &Entry<Command, Reply>,
    placed: &[Placed],
    into: &mut Vec<u8>,
) -> Result<(), Memory>
    ensures { OnOk result (into.new.items ≡ into.old.items ++ told_text log (record { place = place; entry = entry.now; placed = placed.now })) }
{
    if is_told(log, place, entry, placed) {
        print_entry(place, entry, placed, into)
    } else {
        Ok(())
    }
}

/// Whether the entry is told: it stands where the log begins or behind, and concerns whom the log names.
fn is_told(log: Log, place: u32, entry: &Entry<Command, Reply>, placed: &[Placed]) -> bool
    ensures { result ≡ is_told log (record { place = place; entry = entry.now; placed = placed.now }) }
{
    log.from <= place && concerns(log, entry, placed)
}

/// Whether the entry concerns the student and the section, where they are named.
fn concerns(log: Log, entry: &Entry<Command, Reply>, placed: &[Placed]) -> bool
    ensures { (place : ℕ) → result ≡ concerns log (record { place = place; entry = entry.now; placed = placed.now }) }
{
    concerns_student(log.student, entry, placed) && concerns_section(log.section, entry, placed)
}

/// Whether the entry concerns the student, where one is named.
fn concerns_student(
    student: Option<StudentId>,
    entry: &Entry<Command, Reply>,
    placed: &[Placed],
) -> bool
    ensures { (place : ℕ) → result ≡ option_map_or (concerns_student (record { place = place; entry = entry.now; placed = placed.now })) student true }
{
    match student {
        Some(student) => names_student(student, entry, placed),
        None => true,
    }
}

/// Whether the entry concerns the section, where one is named.
fn concerns_section(
    section: Option<SectionId>,
    entry: &Entry<Command, Reply>,
    placed: &[Placed],
) -> bool
    ensures { (place : ℕ) → result ≡ option_map_or (concerns_section (record { place = place; entry = entry.now; placed = placed.now })) section true }
{
    match section {
        Some(section) => names_section(section, entry, placed),
        None => true,
    }
}
