// What is wanted of the courses of a history, and the week of a student.
ghost use Rattle.std.specs.Prelude.{◌≡◌, ◌++◌, OnOk};
ghost use Rattle.sect_history.specs.Step.{state_of};
ghost use Rattle.sect_model.specs.Look.{look};
ghost use Rattle.sect_once.specs.History.{history};
ghost use Rattle.sect_shown.specs.Shown.{demand_text, timetable_of};
ghost use Rattle.sect_clerk.specs.Shows.{IsDemand, IsTimetable};

use sect_base::{Memory, StudentId};
use sect_edge::Keeper;
use sect_machine::Machine;
use sect_once::Desk;
use sect_shown::{print_demand, print_timetable};
use sect_tell::Teller;
use std::alloc::Global;
use std::thread::Threads;

/// What is wanted of each course.
#[derive(Clone, Copy, PartialEq, Eq)]
pub struct Demand;

/// The week of a student.
#[derive(Clone, Copy, PartialEq, Eq)]
pub struct Timetable(pub StudentId);

impl Teller for Demand {
    ghost tells = { λ _. IsDemand };

    fn text<R: Threads + Sync, K: Keeper>(
        &self,
        _rt: &R,
        alloc: Global,
        desk: &Desk<Machine, K>,
        into: &mut Vec<u8>,
    ) -> Result<(), Memory> {
        print_demand_of(alloc, desk, into)
    }
}

impl Teller for Timetable {
    ghost tells = { λ t. IsTimetable t.0 };

    fn text<R: Threads + Sync, K: Keeper>(
        &self,
        _rt: &R,
        alloc: Global,
        desk: &Desk<Machine, K>,
        into: &mut Vec<u8>,
    ) -> Result<(), Memory> {
        print_timetable_of(alloc, self.0, desk, into)
    }
}

/// Appends what is wanted of each course. After `Memory` a part of it may stand at the end.
fn print_demand_of<K: Keeper>(
    alloc: Global,
    desk: &Desk<Machine, K>,
    into: &mut Vec<u8>,
) -> Result<(), Memory>
    ensures { OnOk result (into.new.items ≡ into.old.items ++ demand_text (look (state_of (history desk.now.log)))) }
{
    print_demand(alloc, desk, into)
}

/// Appends the week of a student. After `Memory` a part of it may stand at the end.
fn print_timetable_of<K: Keeper>(
    alloc: Global,
    student: StudentId,
    desk: &Desk<Machine, K>,
    into: &mut Vec<u8>,
) -> Result<(), Memory>
    ensures { OnOk result (into.new.items ≡ into.old.items ++ timetable_of (look (state_of (history desk.now.log))) student) }
{
    print_timetable(alloc, desk, student, into)
}
