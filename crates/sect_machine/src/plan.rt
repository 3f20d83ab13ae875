// The best whole schedule of a student, in the machine's world.

ghost use Rattle.std.specs.Prelude.{◌≡◌, IfOk};
ghost use Rattle.std.specs.Option.{option_map};
ghost use Rattle.sect_best.specs.Plan.{plan_of};
ghost use Rattle.sect_machine.specs.Standing.{state_in};

use crate::machine::Machine;
use sect_base::{Budget, Memory, StudentId};
use sect_best::{PlanLine, best_in};

impl Machine {
    /// The best whole schedule of a student: a line for each course request, by position, where each search visits at most
    /// `budget` decisions. None exactly where the student is unknown. The machine is as before, after `Memory` too.
    pub fn plan(
        &mut self,
        student: StudentId,
        budget: Budget,
    ) -> Result<Option<Vec<PlanLine>>, Memory>
        ensures plan { IfOk result (λ plan. option_map (λ lines. lines.items) plan ≡ plan_of (state_in self.old).world student budget) }
        ensures machine { self.new ≡ self.old }
    {
        self.plan_in(student, budget)
    }

    /// The same of a machine that is only read.
    pub fn plan_in(
        &self,
        student: StudentId,
        budget: Budget,
    ) -> Result<Option<Vec<PlanLine>>, Memory>
        ensures { IfOk result (λ plan. option_map (λ lines. lines.items) plan ≡ plan_of (state_in self.now).world student budget) }
    {
        match self.world.people().row(student) {
            Some(_) => Ok(Some(best_in(self.alloc, &self.world, student, budget)?)),
            None => Ok(None),
        }
    }
}
