// Each change, and each taken back.

ghost use Rattle.std.specs.Prelude.{◌≡◌, ◌<◌, IfOk, IsOk, OnErr, IsTrue};
ghost use Rattle.sect_model.specs.Fits.{Fits};
ghost use Rattle.sect_model.specs.Kept.{KeptWorld};
ghost use Rattle.sect_space.specs.Made.{Made, Unchanged, Taken, Ready};
ghost use Rattle.sect_space.specs.Parts.{roomed_of};
ghost use Rattle.sect_space.specs.Room.{HasPlace};
ghost use Rattle.sect_space.specs.Undo.{takes_none};

use crate::back::Back;
use crate::parts::Parts;
use sect_base::Memory;
use sect_model::Change;

impl Parts {
    /// Makes a change that fits, and hands back what is kept of it. Where memory runs out, nothing is changed.
    pub fn change(&mut self, change: Change) -> Result<Back, Memory>
        requires kept { KeptWorld (roomed_of self.old).world }
        requires fits { Fits (roomed_of self.old).world change }
        ensures ok { IfOk result (λ back. Made (roomed_of self.old) (roomed_of self.new) change back) }
        ensures err { OnErr result (Unchanged (roomed_of self.old) (roomed_of self.new)) }
        ensures enough { IsTrue (takes_none change) → HasPlace (roomed_of self.old) change → IsOk result }
    {
        match change {
            Change::Offering(row) => self.put_offering(row),
            Change::Student(row) => self.put_student(row),
            Change::Requests(student, asks) => Ok(self.put_requests(student, asks)),
            Change::Reserve(row) => self.add_reservation(row),
            Change::Unreserve(id) => Ok(self.remove_reservation(id)),
            Change::Expiry(id, expiry) => Ok(self.put_expiry(id, expiry)),
            Change::Restrict(row) => self.add_restriction(row),
            Change::Unrestrict(id) => Ok(self.remove_restriction(id)),
            Change::Cap(cap, limit) => Ok(self.put_limit(cap, limit)),
            Change::Cancelled(id) => self.cancel(id),
            Change::Day(day) => Ok(self.put_day(day)),
            Change::Enrol(enrolment) => {
                let student = enrolment.student;
                let offering = self.enrol(&enrolment)?;
                Ok(Back::Enrolled(student, offering))
            }
            Change::Leave(student, course) => {
                let (place, enrolment, offering) = self.leave(student, course);
                Ok(Back::Left(place, enrolment, offering))
            }
        }
    }

    /// Takes a change back. It takes no memory.
    pub fn take_back(&mut self, back: Back)
        requires { Ready (roomed_of self.old) back }
        ensures { Taken (roomed_of self.old) (roomed_of self.new) back }
    {
        match back {
            Back::OfferingAdded(id) => self.remove_offering(id),
            Back::StudentAdded(id) => self.remove_student(id),
            Back::StudentReplaced(row) => self.restore_student(row),
            Back::RequestsReplaced(student, asks) => self.restore_requests(student, asks),
            Back::ReservationAdded(id, offering) => self.take_reservation(id, offering),
            Back::ReservationRemoved(place, row) => self.put_reservation_back(place, row),
            Back::ExpiryReplaced(id, offering, day) => self.restore_expiry(id, offering, day),
            Back::RestrictionAdded(id, offering) => self.take_restriction(id, offering),
            Back::RestrictionRemoved(place, row) => self.put_restriction_back(place, row),
            Back::LimitReplaced(cap, offering, limit) => self.restore_limit(cap, offering, limit),
            Back::SectionCancelled(id, offering) => self.uncancel(id, offering),
            Back::DayReplaced(old, new) => self.restore_day(old, new),
            Back::Enrolled(student, offering) => {
                let _ = self.remove_enrolment(student, offering);
            }
            Back::Left(place, enrolment, offering) => {
                self.put_enrolment_back(place, enrolment, offering)
            }
        }
    }
}
