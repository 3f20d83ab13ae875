// The best whole schedule of a student, of a history.
ghost use Rattle.std.specs.Prelude.{◌≡◌, ◌++◌, OnOk};
ghost use Rattle.sect_best.specs.Plan.{plan_of};
ghost use Rattle.sect_best.specs.Text.{student_plan_text};
ghost use Rattle.sect_history.specs.Step.{state_of, stepped};
ghost use Rattle.sect_model.specs.World.{empty_state};
ghost use Rattle.sect_once.specs.Desks.{IsSound};
ghost use Rattle.sect_once.specs.History.{history};
ghost use Rattle.sect_tell.specs.Views.{IsPlan};
ghost use Rattle.sect_wire.specs.Laws.{IsRow};

use crate::teller::Teller;
use sect_base::{Budget, Memory, StudentId};
use sect_best::print_plan;
use sect_edge::Keeper;
use sect_machine::Machine;
use sect_once::Desk;
use sect_report::print_unknown;
use std::alloc::Global;
use std::thread::Threads;

/// The best whole schedule of a student, where each search visits at most `budget` decisions.
#[derive(Clone, Copy, PartialEq, Eq)]
pub struct Plan {
    pub student: StudentId,
    pub budget: Budget,
}

impl Teller for Plan {
    ghost tells = { λ p. IsPlan p.student p.budget };

    fn text<R: Threads + Sync, K: Keeper>(
        &self,
        _rt: &R,
        _alloc: Global,
        desk: &Desk<Machine, K>,
        into: &mut Vec<u8>,
    ) -> Result<(), Memory> {
        print_plan_of(*self, desk, into)
    }
}

/// Appends the schedule, or that the student is unknown. After `Memory` the bytes are as before.
fn print_plan_of<K: Keeper>(
    asked: Plan,
    desk: &Desk<Machine, K>,
    into: &mut Vec<u8>,
) -> Result<(), Memory>
    requires sound { IsSound stepped IsRow K.rows K.faults empty_state desk.now }
    ensures { OnOk result (into.new.items ≡ into.old.items
        ++ student_plan_text asked.student (plan_of (state_of (history desk.now.log)).world asked.student asked.budget)) }
{
    match desk.object().plan_in(asked.student, asked.budget)? {
        Some(lines) => print_plan(lines.as_slice(), into),
        None => print_unknown("student", asked.student.0, into),
    }
}
