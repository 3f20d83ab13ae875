// The world: offerings, students, reservations, restrictions, enrolments, and a day.

ghost use Rattle.std.specs.Prelude.{◌≡◌, map, option_copied, IfOk, IsTrue};
ghost use Rattle.std.specs.Option.{is_some};
ghost use Rattle.sect_people.specs.Order.{sorted_by};
ghost use Rattle.sect_people.specs.Student.{find_student};
ghost use Rattle.sect_model.specs.World.{empty_world, held_by, reservation_of};
ghost use Rattle.sect_model.specs.Batch.{asks_of};
ghost use Rattle.sect_model.specs.Allowed.{reservations_of, restrictions_of, credits_held as credits_of_student};
ghost use Rattle.sect_model.specs.Refusals.{restriction_of};
ghost use Rattle.sect_model.specs.Kept.{KeptWorld};
ghost use Rattle.sect_weeks.specs.Busy.{IsWeekOf};

use crate::parts::Parts;
use sect_base::{Calendar, Day, Memory, OfferingId, ReservationId, RestrictionId, StudentId};
use sect_catalog::Catalogue;
use sect_model::Enrolment;
use sect_numbers::Numbers;
use sect_people::{Ask, People};
use sect_reserve::{Reservation, Restriction};
use sect_roster::{Reservations, Restrictions, Roster};
use sect_weeks::Weeks;
use std::alloc::Global;
use std::marker::Model;

/// What the desk knows of offerings, students and enrolments, on a day. No limit is passed in it, and no student holds what
/// may not be held together. Contracts see it as its lists, with the room that these have.
pub struct World {
    pub(crate) parts: Parts,
    pub(crate) numbers: Numbers,
    pub(crate) weeks: Weeks,
}

/// It is written out, so that a caller does not prove again how each part is dropped.
impl Drop for World {
    fn drop(self) {
        let World {
            parts: _,
            numbers: _,
            weeks: _,
        } = self;
    }
}

impl Model for World {
    ghost use Rattle.sect_space.specs.Roomed.{Roomed};
    ghost use Rattle.sect_space.specs.Parts.{numbered_of, Followed};

    ghost Value = { Roomed };

    ghost view = { λ w. numbered_of w.parts w.numbers };

    ghost invariant = { λ w. Followed w.parts w.numbers w.weeks };
}

/// The day from which days are counted.
fn first_day() -> Day
    ensures { result ≡ 0 }
{
    match Day::new(0) {
        Some(day) => day,
        None => unreachable!(),
    }
}

impl World {
    /// No rows, on day 0. It takes no memory.
    pub fn empty(alloc: Global) -> World
        ensures { result.world ≡ empty_world }
    {
        World {
            parts: Parts {
                catalogue: Catalogue::empty(alloc),
                people: People::empty(alloc),
                reservations: Reservations::empty(alloc),
                restrictions: Restrictions::empty(alloc),
                roster: Roster::empty(alloc),
                day: first_day(),
            },
            numbers: Numbers::empty(alloc),
            weeks: Weeks::empty(alloc),
        }
    }

    /// Does nothing: the contract tells what holds of every world.
    pub fn recall_kept(&self)
        ensures { KeptWorld self.now.world }
    {
        let _ = &self.parts.day;
    }

    /// The offerings. It takes no memory.
    pub fn catalogue(&self) -> &Catalogue
        ensures { result.now ≡ self.now.world.catalogue }
    {
        &self.parts.catalogue
    }

    /// The students. It takes no memory.
    pub fn people(&self) -> &People
        ensures { result.now ≡ self.now.world.students }
    {
        &self.parts.people
    }

    /// What a student asks for, in order of rank. Nothing where the student is unknown. It takes no memory.
    pub fn asks(&self, student: StudentId) -> &[Ask]
        ensures { result.now ≡ asks_of self.now.world student }
    {
        match self.parts.people.asks(student) {
            Some(asks) => asks,
            None => &[],
        }
    }

    /// The reservations of an offering, in the order of their coming. None where the offering is unknown. It takes no memory.
    pub fn reservations(&self, offering: OfferingId) -> &[Reservation]
        ensures { result.now ≡ reservations_of self.now.world offering }
    {
        self.parts.reservations.of_offering(offering)
    }

    /// The restrictions of an offering, in the order of their coming. None where the offering is unknown. It takes no memory.
    pub fn restrictions(&self, offering: OfferingId) -> &[Restriction]
        ensures { result.now ≡ restrictions_of self.now.world offering }
    {
        self.parts.restrictions.of_offering(offering)
    }

    /// The ids of all reservations, in rising order.
    pub fn reservation_ids(&self, alloc: Global) -> Result<Vec<ReservationId>, Memory>
        ensures { IfOk result (λ ids. ids.items ≡ map (λ r. r.id) (sorted_by (λ r. r.id.0) self.now.world.reservations)) }
    {
        self.parts.reservations.ids(alloc)
    }

    /// The reservation of an id. None exactly where no row has it. It takes no memory.
    pub fn reservation(&self, id: ReservationId) -> Option<&Reservation>
        ensures { option_copied result ≡ reservation_of self.now.world id }
    {
        self.parts.reservations.get(id)
    }

    /// The restriction of an id. None exactly where no row has it. It takes no memory.
    pub fn restriction(&self, id: RestrictionId) -> Option<&Restriction>
        ensures { option_copied result ≡ restriction_of self.now.world id }
    {
        self.parts.restrictions.get(id)
    }

    /// What a student holds, in the order in which it was enrolled. It takes no memory.
    pub fn enrolments(&self, student: StudentId) -> &[Enrolment]
        ensures { result.now ≡ held_by self.now.world student }
    {
        self.parts.roster.of_student(student)
    }

    /// The slots of the week in which the sections that a known student holds meet. It takes no memory.
    pub fn calendar(&self, student: StudentId) -> &Calendar
        requires { IsTrue (is_some (find_student self.now.world.students student)) }
        ensures { IsWeekOf result.now self.now.world student }
    {
        match self.weeks.get(student) {
            Some(calendar) => calendar,
            None => unreachable!(),
        }
    }

    /// The credits of the courses that the student holds, where an unknown one counts 0. It takes no memory.
    pub fn credits_held(&self, student: StudentId) -> usize
        ensures { result ≡ credits_of_student self.now.world student }
    {
        self.weeks.credits(student)
    }

    /// All enrolments, in rising order of student, and for one student in the order in which they were made.
    pub fn roster(&self, alloc: Global) -> Result<Vec<Enrolment>, Memory>
        ensures { IfOk result (λ roster. roster.items ≡ self.now.world.roster) }
    {
        self.parts.roster.list(alloc)
    }

    /// The day. It takes no memory.
    pub fn day(&self) -> Day
        ensures { result ≡ self.now.world.day }
    {
        self.parts.day
    }
}
