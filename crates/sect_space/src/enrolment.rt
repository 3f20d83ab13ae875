// Changes of the roster, and of the day.

ghost use Rattle.std.specs.Prelude.{◌≡◌, ◌<◌, ◌≤◌, IfOk, IsOk, OnErr};
ghost use Rattle.sect_model.specs.Fits.{Fits};
ghost use Rattle.sect_model.specs.Kept.{KeptWorld};
ghost use Rattle.sect_model.specs.World.{insert_enrolment};
ghost use Rattle.sect_space.specs.Made.{Made, Unchanged, Taken, Ready};
ghost use Rattle.sect_roster.specs.Rostered.{number_held, put_among};
ghost use Rattle.sect_space.specs.Parts.{roomed_of};
ghost use Rattle.sect_space.specs.Room.{free_for};

use crate::back::Back;
use crate::parts::Parts;
use sect_base::{CourseId, Day, Memory, OfferingId, StudentId};
use sect_model::{Change, Enrolment};

impl Parts {
    /// Enrols a student, and hands back the offering. Where memory runs out, nothing is changed; it takes none where there is
    /// room.
    pub fn enrol(&mut self, enrolment: &Enrolment) -> Result<Option<OfferingId>, Memory>
        ensures ok { IfOk result (λ offering. Made (roomed_of self.old) (roomed_of self.new) (Change.Enrol enrolment.now) (Back.Enrolled enrolment.now.student offering)) }
        ensures err { OnErr result (Unchanged (roomed_of self.old) (roomed_of self.new)) }
        ensures enough { 0 < free_for (roomed_of self.old) enrolment.now.student.0 → IsOk result }
    {
        let offering = self.course_offering(enrolment.choice.course);
        self.roster.push(*enrolment)?;
        Ok(offering)
    }

    /// Takes the last enrolment of the student off. There is one.
    pub fn remove_enrolment(
        &mut self,
        student: StudentId,
        offering: Option<OfferingId>,
    ) -> Enrolment
        requires { Ready (roomed_of self.old) (Back.Enrolled student offering) }
        ensures taken { Taken (roomed_of self.old) (roomed_of self.new) (Back.Enrolled student offering) }
        ensures last { (roomed_of self.old).world.roster ≡ insert_enrolment result (roomed_of self.new).world.roster }
    {
        let _ = offering;
        self.roster.remove_last_of(student)
    }

    /// The student leaves the course: the place among its own, the enrolment, and its offering. It takes no memory.
    pub fn leave(
        &mut self,
        student: StudentId,
        course: CourseId,
    ) -> (usize, Enrolment, Option<OfferingId>)
        requires kept { KeptWorld (roomed_of self.old).world }
        requires fits { Fits (roomed_of self.old).world (Change.Leave student course) }
        ensures made { Made (roomed_of self.old) (roomed_of self.new) (Change.Leave student course) (Back.Left result.0 result.1 result.2) }
        ensures within { result.0 ≤ number_held result.1.student.0 (roomed_of self.new).world.roster }
        ensures last { (roomed_of self.old).world.roster ≡ put_among result.0 result.1 (roomed_of self.new).world.roster }
    {
        let offering = self.course_offering(course);
        let (place, enrolment) = self.roster.remove(student, course);
        (place, enrolment, offering)
    }

    /// Puts an enrolment back where it stood. There is room.
    pub fn put_enrolment_back(
        &mut self,
        place: usize,
        enrolment: Enrolment,
        offering: Option<OfferingId>,
    )
        requires { Ready (roomed_of self.old) (Back.Left place enrolment offering) }
        ensures { Taken (roomed_of self.old) (roomed_of self.new) (Back.Left place enrolment offering) }
    {
        let _ = offering;
        self.roster.put_back(place, enrolment);
    }

    /// Another day. It takes no memory.
    pub fn put_day(&mut self, day: Day) -> Back
        ensures { Made (roomed_of self.old) (roomed_of self.new) (Change.Day day) result }
    {
        let old = self.day;
        self.day = day;
        Back::DayReplaced(old, day)
    }

    /// The old day again.
    pub fn restore_day(&mut self, old: Day, new: Day)
        ensures { Taken (roomed_of self.old) (roomed_of self.new) (Back.DayReplaced old new) }
    {
        let _ = new;
        self.day = old;
    }
}
