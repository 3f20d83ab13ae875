// What is shown of a history, from the views that answer queries.

ghost use Rattle.std.specs.Prelude.{◌≡◌, ◌++◌, OnOk, length, take};
ghost use Rattle.sect_once.specs.History.{history, state_after};
ghost use Rattle.sect_shown.specs.Shown.{asks_in, demand_text, entries_in, offerings_in, timetable_of, week_text};

use crate::courses::gather;
use crate::demand::print_courses;
use crate::rank::by_course;
use crate::week::print_week;
use sect_base::{Memory, StudentId};
use sect_catalog::OfferingRow;
use sect_command::{AsksView, Query, Table, View, WaitView};
use sect_edge::Keeper;
use sect_once::{Desk, Object};
use sect_report::print_unknown;
use std::alloc::Global;

/// Appends what is wanted of each course, by course: how many students ask for it, how many hold it, how many entries wait
/// for it, and its limit. It takes memory. After `Memory` a part of it may stand at the end.
pub fn print_demand<O: Object<Query = Query, View = View>, K: Keeper>(
    alloc: Global,
    desk: &Desk<O, K>,
    into: &mut Vec<u8>,
) -> Result<(), Memory>
    ensures text { OnOk result (into.new.items ≡ into.old.items ++ demand_text (O.looked (state_after O.stepped O.start (history desk.now.log)))) }
    ensures front { take (length into.old.items) into.new.items ≡ into.old.items }
{
    let offerings = desk.look(&Query::Rows(Table::Offerings))?;
    let courses = gather(alloc, desk, offerings_in(&offerings))?;
    let sorted = by_course(alloc, &courses)?;
    let requests = desk.look(&Query::Rows(Table::Requests))?;
    let waiting = desk.look(&Query::Waiting)?;
    print_courses(asks_in(&requests), entries_in(&waiting), &sorted, into)
}

/// Appends the week of a student: a line for each time of a section held, day by day in order of time, with the weeks, the
/// course and the section; or that the student is unknown. It takes memory. After `Memory` a part of it may stand at the end.
pub fn print_timetable<O: Object<Query = Query, View = View>, K: Keeper>(
    alloc: Global,
    desk: &Desk<O, K>,
    student: StudentId,
    into: &mut Vec<u8>,
) -> Result<(), Memory>
    ensures text { OnOk result (into.new.items ≡ into.old.items ++ timetable_of (O.looked (state_after O.stepped O.start (history desk.now.log))) student) }
    ensures front { take (length into.old.items) into.new.items ≡ into.old.items }
{
    let offerings = desk.look(&Query::Rows(Table::Offerings))?;
    let schedule = desk.look(&Query::Schedule(student))?;
    print_schedule(alloc, offerings_in(&offerings), &schedule, into)
}

/// Appends the week of a schedule, or that the student is unknown.
fn print_schedule(
    alloc: Global,
    rows: &[OfferingRow],
    view: &View,
    into: &mut Vec<u8>,
) -> Result<(), Memory>
    ensures text { OnOk result (into.new.items ≡ into.old.items ++ week_text rows.now view.now) }
    ensures front { take (length into.old.items) into.new.items ≡ into.old.items }
{
    match view {
        View::Schedule(schedule) => {
            print_week(
                alloc,
                rows,
                schedule.student,
                schedule.held.as_slice(),
                into,
            )
        }
        View::Unknown(id) => print_unknown("student", *id, into),
        _ => Ok(()),
    }
}

/// The offerings of a view.
fn offerings_in(view: &View) -> &[OfferingRow]
    ensures { result.now ≡ offerings_in view.now }
{
    match view {
        View::Offerings(rows) => rows.as_slice(),
        _ => &[],
    }
}

/// The requests of a view.
fn asks_in(view: &View) -> &[AsksView]
    ensures { result.now ≡ asks_in view.now }
{
    match view {
        View::Requests(rows) => rows.as_slice(),
        _ => &[],
    }
}

/// The waiting entries of a view.
fn entries_in(view: &View) -> &[WaitView]
    ensures { result.now ≡ entries_in view.now }
{
    match view {
        View::Waiting(entries) => entries.as_slice(),
        _ => &[],
    }
}
