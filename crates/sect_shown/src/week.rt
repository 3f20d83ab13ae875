// The week of a student, in order of time.

ghost use Rattle.std.specs.Prelude.{◌≡◌, ◌<◌, ◌≤◌, ◌++◌, OnOk, length, take};
ghost use Rattle.sect_base.specs.Pattern.{has_bit};
ghost use Rattle.sect_shown.specs.Week.{begins_at, begun_text, hour_text, on_weekday, slot_text, slots_text, timetable_text};

use crate::hour::Hour;
use crate::hours::hours_of;
use sect_base::{Choice, Meeting, Memory, StudentId};
use sect_catalog::OfferingRow;
use sect_report::{Word, print_line};
use sect_words::Spelled;
use std::alloc::Global;

/// The slots of a day, and of a week.
const DAY_SLOTS: u16 = 288;

const WEEK_SLOTS: u16 = 2016;

/// Appends the week of a student who holds these choices of the offerings: a line for each time, day by day in order of
/// time, with the weeks, the course and the section. After `Memory` a part of it may stand at the end.
pub fn print_week(
    alloc: Global,
    rows: &[OfferingRow],
    student: StudentId,
    held: &[Choice],
    into: &mut Vec<u8>,
) -> Result<(), Memory>
    ensures text { OnOk result (into.new.items ≡ into.old.items ++ timetable_text rows.now student held.now) }
    ensures front { take (length into.old.items) into.new.items ≡ into.old.items }
{
    let hours = hours_of(alloc, rows, held)?;
    let words = [Word::Name("student"), Word::Number(u64::from(student.0))];
    print_line(&words, into)?;
    print_slots(&hours, WEEK_SLOTS, into)
}

/// Appends the lines of the hours that begin at so many slots of the week, from its first on.
fn print_slots(hours: &[Hour], slots: u16, into: &mut Vec<u8>) -> Result<(), Memory>
    requires { slots ≤ 2016 }
    ensures text { OnOk result (into.new.items ≡ into.old.items ++ slots_text hours.now 0 slots) }
    ensures front { take (length into.old.items) into.new.items ≡ into.old.items }
{
    for slot in 0..slots {
        print_slot(hours, slot, into)?;
    }
    Ok(())
}

/// Appends the lines of the hours that begin at a slot of the week.
fn print_slot(hours: &[Hour], slot: u16, into: &mut Vec<u8>) -> Result<(), Memory>
    requires { slot < 2016 }
    ensures text { OnOk result (into.new.items ≡ into.old.items ++ slot_text hours.now slot) }
    ensures front { take (length into.old.items) into.new.items ≡ into.old.items }
{
    let day = (slot / DAY_SLOTS) as u8;
    let start = slot % DAY_SLOTS;
    for hour in hours {
        print_begun(hour, day, start, into)?;
    }
    Ok(())
}

/// Appends the line of the hour, where it begins then.
fn print_begun(hour: &Hour, day: u8, slot: u16, into: &mut Vec<u8>) -> Result<(), Memory>
    requires { day < 7 }
    ensures text { OnOk result (into.new.items ≡ into.old.items ++ begun_text day slot hour.now) }
    ensures front { take (length into.old.items) into.new.items ≡ into.old.items }
{
    if begins_at(hour, day, slot) {
        print_hour(hour, day, into)
    } else {
        Ok(())
    }
}

/// Whether the hour begins on the weekday at the slot.
fn begins_at(hour: &Hour, day: u8, slot: u16) -> bool
    requires { day < 7 }
    ensures { result ≡ begins_at day slot hour.now }
{
    is_on(hour.meeting.days(), day) && hour.meeting.start() == slot
}

/// Whether the weekday is one of these.
fn is_on(days: u8, day: u8) -> bool
    requires { day < 7 }
    ensures { result ≡ has_bit days day }
{
    (days >> day) & 1 == 1
}

/// Appends the line of an hour on one of its weekdays.
fn print_hour(hour: &Hour, day: u8, into: &mut Vec<u8>) -> Result<(), Memory>
    requires { day < 7 }
    ensures text { OnOk result (into.new.items ≡ into.old.items ++ hour_text day hour.now) }
    ensures front { take (length into.old.items) into.new.items ≡ into.old.items }
{
    on_weekday(&hour.meeting, day).print(into)?;
    into.push(b' ')?;
    let words = [
        Word::Name("course"),
        Word::Number(u64::from(hour.course.0)),
        Word::Name("section"),
        Word::Number(u64::from(hour.section.0)),
    ];
    print_line(&words, into)
}

/// The meeting on one of its weekdays alone.
fn on_weekday(meeting: &Meeting, day: u8) -> Meeting
    requires { day < 7 }
    ensures { result ≡ on_weekday day meeting.now }
{
    match Meeting::new(1 << day, meeting.start(), meeting.slots(), meeting.weeks()) {
        Some(meeting) => meeting,
        None => unreachable!(),
    }
}
