// Enrolments counted in and out of the numbers, and of the weeks and credits of their students.

ghost use Rattle.std.specs.Prelude.{◌≡◌};
ghost use Rattle.sect_base.specs.declared.ids.ReservationId.{ReservationId as Reservation_id};
ghost use Rattle.sect_model.specs.World.{used_by, reservation_of};
ghost use Rattle.sect_model.specs.Counts.{permits_over};
ghost use Rattle.sect_numbers.specs.Numbers.{Told, has_uses};
ghost use Rattle.sect_weeks.specs.Busy.{ToldWeeks};
ghost use Rattle.sect_space.specs.Back.{offering_id};
ghost use Rattle.sect_space.specs.Counting.{OneBehind, OneAhead};
ghost use Rattle.sect_space.specs.Parts.{roomed_of};

use crate::parts::Parts;
use sect_base::{Choice, OfferingId, ReservationId};
use sect_model::Enrolment;
use sect_numbers::Numbers;
use sect_weeks::Weeks;

impl Parts {
    /// Counts an enrolment that was made, in this offering, with its credits, and takes its slots. It takes no memory.
    pub fn count_in(
        &self,
        numbers: &mut Numbers,
        weeks: &mut Weeks,
        enrolment: &Enrolment,
        offering: Option<OfferingId>,
    )
        requires behind { OneBehind numbers.old weeks.old (roomed_of self.now).world enrolment.now }
        requires its { offering ≡ offering_id (roomed_of self.now).world enrolment.now.choice.course }
        ensures told { Told numbers.new (roomed_of self.now).world }
        ensures weeks { ToldWeeks weeks.new (roomed_of self.now).world }
        ensures rows { (id : Reservation_id) → has_uses numbers.new id ≡ has_uses numbers.old id }
    {
        let over = self.is_over_limit(&enrolment.choice);
        numbers.enrolled(enrolment, offering, over);
        weeks.enrolled(&self.catalogue, enrolment);
    }

    /// Counts an enrolment no more that was taken away, and makes its student's week and credits again from the rest. It takes no
    /// memory.
    pub fn count_out(&self, numbers: &mut Numbers, weeks: &mut Weeks, enrolment: &Enrolment)
        requires { OneAhead numbers.old weeks.old (roomed_of self.now).world enrolment.now }
        ensures told { Told numbers.new (roomed_of self.now).world }
        ensures weeks { ToldWeeks weeks.new (roomed_of self.now).world }
        ensures rows { (id : Reservation_id) → has_uses numbers.new id ≡ has_uses numbers.old id }
    {
        let offering = self.course_offering(enrolment.choice.course);
        let over = self.is_over_limit(&enrolment.choice);
        numbers.left(enrolment, offering, over);
        let held = self.roster.of_student(enrolment.student);
        weeks.left(&self.catalogue, enrolment.student, held);
    }

    /// Whether the choice is made by a reservation that permits over limit.
    pub fn is_over_limit(&self, choice: &Choice) -> bool
        ensures { result ≡ permits_over (used_by (roomed_of self.now).world choice.now) }
    {
        match choice.reservation {
            Some(id) => self.permits_over(id),
            None => false,
        }
    }

    /// Whether this reservation permits over limit. One that is unknown doesn't.
    fn permits_over(&self, id: ReservationId) -> bool
        ensures { result ≡ permits_over (reservation_of (roomed_of self.now).world id) }
    {
        match self.reservations.get(id) {
            Some(row) => row.over,
            None => false,
        }
    }
}
