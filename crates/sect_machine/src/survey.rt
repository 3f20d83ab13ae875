// The survey of unmet requests, in the machine's world.

ghost use Rattle.std.specs.Prelude.{◌≡◌, IfOk};
ghost use Rattle.sect_survey.specs.Survey.{survey_of};
ghost use Rattle.sect_machine.specs.Standing.{state_in};

use crate::machine::Machine;
use sect_base::Memory;
use sect_survey::{Survey, survey};
use std::thread::Threads;

impl Machine {
    /// The survey of unmet requests: what a search says of each now, by student and position, and the sums over these
    /// lines. The answer is the same whatever threads searched.
    pub fn survey(&self, rt: &(impl Threads + Sync)) -> Result<Survey, Memory>
        ensures { IfOk result (λ found. found ≡ survey_of (state_in self.now).world) }
    {
        survey(rt, self.alloc, &self.world)
    }
}
