// The survey of unmet requests, of a history.
ghost use Rattle.std.specs.Prelude.{◌≡◌, ◌++◌, OnOk};
ghost use Rattle.sect_history.specs.Step.{state_of, stepped};
ghost use Rattle.sect_model.specs.World.{empty_state};
ghost use Rattle.sect_once.specs.Desks.{IsSound};
ghost use Rattle.sect_once.specs.History.{history};
ghost use Rattle.sect_survey.specs.Survey.{survey_of};
ghost use Rattle.sect_survey.specs.Text.{survey_text};
ghost use Rattle.sect_tell.specs.Views.{IsSurvey};
ghost use Rattle.sect_wire.specs.Laws.{IsRow};

use crate::teller::Teller;
use sect_base::Memory;
use sect_edge::Keeper;
use sect_machine::Machine;
use sect_once::Desk;
use sect_survey::print_survey;
use std::alloc::Global;
use std::thread::Threads;

/// The survey of unmet requests, whose searches run in threads.
#[derive(Clone, Copy, PartialEq, Eq)]
pub struct Survey;

impl Teller for Survey {
    ghost tells = { λ s. IsSurvey };

    fn text<R: Threads + Sync, K: Keeper>(
        &self,
        rt: &R,
        _alloc: Global,
        desk: &Desk<Machine, K>,
        into: &mut Vec<u8>,
    ) -> Result<(), Memory> {
        print_survey_of(rt, desk, into)
    }
}

/// Appends the survey. After `Memory` the bytes are as before.
fn print_survey_of<R: Threads + Sync, K: Keeper>(
    rt: &R,
    desk: &Desk<Machine, K>,
    into: &mut Vec<u8>,
) -> Result<(), Memory>
    requires sound { IsSound stepped IsRow K.rows K.faults empty_state desk.now }
    ensures { OnOk result (into.new.items ≡ into.old.items ++ survey_text (survey_of (state_of (history desk.now.log)).world)) }
{
    let survey = desk.object().survey(rt)?;
    print_survey(&survey, into)
}
