// Each change of the world, and each taken back, with the numbers and weeks that tell of it.

ghost use Rattle.std.specs.Prelude.{◌≡◌, ◌<◌, ◌≤◌, ◌+◌, ◌++◌, ◌∷◌, [], true, IfOk, IsOk, OnOk, OnErr, IsTrue};
ghost use Rattle.sect_model.specs.Fits.{Fits};
ghost use Rattle.sect_numbers.specs.Quiet.{is_quiet as enrols_nobody};
ghost use Rattle.sect_space.specs.Back.{back_of, is_of_quiet};
ghost use Rattle.sect_space.specs.Made.{Made, Unchanged, Taken};
ghost use Rattle.sect_space.specs.Room.{HasPlace, KeepsUses, free_for};
ghost use Rattle.sect_space.specs.Undo.{takes_none};
ghost use Rattle.sect_space.specs.Undoing.{MadeBy};

use crate::back::Back;
use crate::undo::Undo;
use crate::world::World;
use sect_base::{CourseId, Memory, OfferingId, StudentId};
use sect_model::{Change, Enrolment};

impl World {
    /// Makes a change that fits, and records it behind the others. Where memory runs out, nothing is changed, and nothing
    /// recorded.
    pub(crate) fn make(&mut self, change: Change, undo: &mut Undo) -> Result<(), Memory>
        requires { Fits self.old.world change }
        ensures ok { OnOk result (Made self.old self.new change (back_of self.old.world change)) }
        ensures recorded { OnOk result (undo.new.backs ≡ undo.old.backs ++ back_of self.old.world change ∷ []) }
        ensures err { OnErr result (Unchanged self.old self.new) }
        ensures err_recorded { OnErr result (undo.new.backs ≡ undo.old.backs) }
        ensures uses { KeepsUses self.old self.new }
        ensures spare { undo.old.spare ≤ undo.new.spare + 1 }
        ensures enough { IsTrue (takes_none change) → HasPlace self.old change → 0 < undo.old.spare → IsOk result }
    {
        match change {
            Change::Enrol(enrolment) => {
                undo.reserve(1)?;
                let student = enrolment.student;
                let offering = self.enrol(enrolment)?;
                undo.push(Back::Enrolled(student, offering));
            }
            Change::Leave(student, course) => {
                undo.reserve(1)?;
                let back = self.leave(student, course);
                undo.push(back);
            }
            quiet => {
                undo.reserve(1)?;
                let back = self.change_quietly(quiet)?;
                undo.push(back);
            }
        }
        Ok(())
    }

    /// Makes a change that enrols nobody, and by which nobody leaves.
    fn change_quietly(&mut self, change: Change) -> Result<Back, Memory>
        requires fits { Fits self.old.world change }
        requires quiet { enrols_nobody change ≡ true }
        ensures ok { IfOk result (λ back. Made self.old self.new change back) }
        ensures err { OnErr result (Unchanged self.old self.new) }
        ensures uses { KeepsUses self.old self.new }
        ensures enough { IsTrue (takes_none change) → HasPlace self.old change → IsOk result }
    {
        self.numbers.add_rows(&change)?;
        self.weeks.add_rows(&change)?;
        self.parts.change(change)
    }

    /// Enrols a student, counts it, and hands back the offering. Where memory runs out, nothing changes.
    fn enrol(&mut self, enrolment: Enrolment) -> Result<Option<OfferingId>, Memory>
        requires { Fits self.old.world (Change.Enrol enrolment) }
        ensures ok { IfOk result (λ offering. Made self.old self.new (Change.Enrol enrolment) (Back.Enrolled enrolment.student offering)) }
        ensures err { OnErr result (Unchanged self.old self.new) }
        ensures uses { KeepsUses self.old self.new }
        ensures enough { 0 < free_for self.old enrolment.student.0 → IsOk result }
    {
        let offering = self.parts.enrol(&enrolment)?;
        self.parts
            .count_in(&mut self.numbers, &mut self.weeks, &enrolment, offering);
        Ok(offering)
    }

    /// Takes a student's enrolment in a course away, and counts it no more.
    fn leave(&mut self, student: StudentId, course: CourseId) -> Back
        requires { Fits self.old.world (Change.Leave student course) }
        ensures made { Made self.old self.new (Change.Leave student course) result }
        ensures uses { KeepsUses self.old self.new }
    {
        let (place, enrolment, offering) = self.parts.leave(student, course);
        self.parts
            .count_out(&mut self.numbers, &mut self.weeks, &enrolment);
        Back::Left(place, enrolment, offering)
    }

    /// Takes the last change back. It takes no memory.
    pub(crate) fn take_back(&mut self, back: Back)
        requires { MadeBy self.old back }
        ensures taken { Taken self.old self.new back }
        ensures uses { KeepsUses self.old self.new }
    {
        match back {
            Back::Enrolled(student, offering) => self.remove_enrolment(student, offering),
            Back::Left(place, enrolment, offering) => {
                self.put_enrolment_back(place, enrolment, offering)
            }
            quiet => self.take_back_quietly(quiet),
        }
    }

    /// Takes a change back that enrolled nobody, and by which nobody left.
    fn take_back_quietly(&mut self, back: Back)
        requires made { MadeBy self.old back }
        requires quiet { is_of_quiet back ≡ true }
        ensures taken { Taken self.old self.new back }
        ensures uses { KeepsUses self.old self.new }
    {
        self.parts.take_back(back);
    }

    /// Takes an enrolment that was made last back, and counts it no more.
    fn remove_enrolment(&mut self, student: StudentId, offering: Option<OfferingId>)
        requires { MadeBy self.old (Back.Enrolled student offering) }
        ensures taken { Taken self.old self.new (Back.Enrolled student offering) }
        ensures uses { KeepsUses self.old self.new }
    {
        let enrolment = self.parts.remove_enrolment(student, offering);
        self.parts
            .count_out(&mut self.numbers, &mut self.weeks, &enrolment);
    }

    /// Puts an enrolment that was taken away last back at its place, and counts it again.
    fn put_enrolment_back(
        &mut self,
        place: usize,
        enrolment: Enrolment,
        offering: Option<OfferingId>,
    )
        requires { MadeBy self.old (Back.Left place enrolment offering) }
        ensures taken { Taken self.old self.new (Back.Left place enrolment offering) }
        ensures uses { KeepsUses self.old self.new }
    {
        self.parts.put_enrolment_back(place, enrolment, offering);
        let own = self.parts.course_offering(enrolment.choice.course);
        self.parts
            .count_in(&mut self.numbers, &mut self.weeks, &enrolment, own);
    }
}
