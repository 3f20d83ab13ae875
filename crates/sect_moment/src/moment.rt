// The world at a path, without a copy of it.

ghost use Rattle.std.specs.Prelude.{◌≡◌, ◌≤◌, length, Some, option_copied, flat_map, IsTrue};
ghost use Rattle.std.specs.List.{list_all};
ghost use Rattle.std.specs.Option.{option_map, option_map_or};
ghost use Rattle.sect_catalog.specs.Fault.{are_checked};
ghost use Rattle.sect_model.specs.Kept.{includes_fit};
ghost use Rattle.sect_model.specs.Rules.{least};
ghost use Rattle.sect_moment.specs.Overlapped.{overlapped};
ghost use Rattle.sect_model.specs.World.{reservation_of, offering_of, credits_of, held_by};
ghost use Rattle.sect_model.specs.Choice.{subparts_of};
ghost use Rattle.sect_model.specs.Counts.{count_of, used_of};
ghost use Rattle.sect_model.specs.Allowed.{
  holds_offering as has_offering,
  max_credits as most_credits,
  credits_held as credits_of_student,
};
ghost use Rattle.sect_model.specs.Stands.{MoveStands};
ghost use Rattle.sect_model.specs.Rules.{world_at};
ghost use Rattle.sect_moment.specs.Completed.{opened};
ghost use Rattle.sect_people.specs.Student.{find_student};
ghost use Rattle.std.specs.Option.{is_some};

use crate::held::{
    counts_given, counts_made, credits_made, credits_staying, given_by, holds_kept, holds_made,
    made_by,
};
use crate::lent::LentMove;
use crate::overlap::{is_clear, lesser_of};
use crate::place::subparts_in;
use sect_base::{
    Choice, ConfigId, CourseId, Day, Level, Meeting, ReservationId, SectionId, StudentId,
};
use sect_catalog::{Catalogue, CourseRow, OfferingRow, SubpartRow};
use sect_model::Enrolment;
use sect_people::Student;
use sect_reserve::Reservation;
use sect_space::World;
use std::marker::Model;

/// The student of an id that is known.
fn person_in(world: &World, student: StudentId) -> &Student
    requires { IsTrue (is_some (find_student world.now.world.students student)) }
    ensures { Some result.now ≡ find_student world.now.world.students student }
{
    match world.people().student(student) {
        Some(person) => person,
        None => unreachable!(),
    }
}

/// The world after the courses given up have left and the choices made so far were added, as the
/// student of a move meets it. Only the enrolments of this student are read.
#[derive(Drop)]
pub struct Moment<'a> {
    world: &'a World,
    student: StudentId,
    person: &'a Student,
    give: &'a [CourseId],
    done: &'a [Choice],
}

impl<'a> Model for Moment<'a> {
    ghost use Rattle.std.specs.Prelude.{◌≡◌, ◌≤◌, length, Some};
    ghost use Rattle.sect_people.specs.Student.{find_student};
    ghost use Rattle.sect_model.specs.Kept.{KeptWorld};
    ghost use Rattle.sect_moment.specs.Moment.{Moment as Value_of, moved};

    ghost Value = { Value_of };

    ghost view = { λ m. record { at = moved m.world.now.world m.student m.give.now m.done.now; student = m.student } };

    ghost invariant = { λ m. KeptWorld m.world.now.world × (Some m.person.now ≡ find_student m.world.now.world.students m.student) × (length m.done.now ≤ 20) };
}

impl<'a> Moment<'a> {
    /// The world of the move behind these choices.
    pub fn new(world: &'a World, mv: &LentMove<'a>, done: &'a [Choice]) -> Moment<'a>
        requires stands { MoveStands world.now.world mv.now }
        requires limit { length done.now ≤ 20 }
        ensures { result ≡ record { at = world_at world.now.world mv.now (opened done.now); student = mv.now.student } }
    {
        world.recall_kept();
        let student = mv.student();
        Moment {
            world,
            student,
            person: person_in(world, student),
            give: mv.give(),
            done,
        }
    }

    /// The student of the move.
    pub(crate) fn student(&self) -> StudentId
        ensures { result ≡ self.now.student }
    {
        self.student
    }

    /// The catalogue of the world.
    pub(crate) fn catalogue(&self) -> &Catalogue
        ensures { result.now ≡ self.now.at.catalogue }
    {
        self.world.catalogue()
    }

    /// The student of the move, with its row and its requests.
    pub(crate) fn person(&self) -> &'a Student
        ensures { Some result.now ≡ find_student self.now.at.students self.now.student }
    {
        self.person
    }

    /// The reservation with this id.
    pub(crate) fn reservation(&self, id: ReservationId) -> Option<&Reservation>
        ensures { option_copied result ≡ reservation_of self.now.at id }
    {
        self.world.reservation(id)
    }

    /// The day of the world.
    pub(crate) fn day(&self) -> Day
        ensures { result ≡ self.now.at.day }
    {
        self.world.day()
    }

    /// The number of enrolments at the level.
    #[inline(always)]
    pub(crate) fn count(&self, level: Level) -> u64
        ensures { result ≡ count_of self.now.at level }
    {
        let left = counts_given(self.world, level, self.give, self.student);
        let made = counts_made(self.world, level, self.done);
        u64::from(self.world.count(level)) - left as u64 + made as u64
    }

    /// The number of enrolments by the reservation.
    pub(crate) fn used(&self, id: ReservationId) -> u64
        ensures { result ≡ used_of self.now.at id }
    {
        let left = given_by(self.world, id, self.give, self.student);
        let made = made_by(id, self.done);
        u64::from(self.world.used(id)) - left as u64 + made as u64
    }

    /// Whether the student holds a course of the offering, which is that of this course. No course is looked up.
    pub(crate) fn holds_offering(&self, course: CourseId, offering: &OfferingRow) -> bool
        requires { offering_of self.now.at course ≡ Some offering.now }
        ensures { result ≡ has_offering self.now.at self.now.student offering.now.id }
    {
        let _ = course;
        let courses = offering.courses.as_slice();
        let held = self.world.enrolments(self.student);
        let kept = holds_kept(courses, self.give, held);
        kept || holds_made(courses, self.done)
    }

    /// The student's maximum of credits.
    pub(crate) fn max_credits(&self) -> u16
        ensures { result ≡ most_credits self.now.at self.now.student }
    {
        self.person.row().max_credits
    }

    /// The credits of the student's enrolments. Those held before are at most the maximum.
    pub(crate) fn credits_held(&self, most: u16) -> u32
        requires { most ≡ most_credits self.now.at self.now.student }
        ensures value { result ≡ credits_of_student self.now.at self.now.student }
        ensures bound { result ≤ 71000 }
    {
        let kept = credits_staying(self.world, self.give, self.student);
        prove!(kept <= u32::from(most));
        kept + credits_made(self.world, self.done)
    }

    /// The offering of a course, with its own row.
    pub(crate) fn course(&self, id: CourseId) -> Option<(&OfferingRow, &CourseRow)>
        ensures offering { option_map (λ found. found.0.now) result ≡ offering_of self.now.at id }
        ensures credits { option_map_or (λ found. found.1.now.credits) result 0 ≡ credits_of self.now.at id }
    {
        self.world.catalogue().course(id)
    }

    /// The subparts of a configuration of the offering, which is that of this course. No course is looked up.
    pub(crate) fn subparts<'b>(
        &self,
        offering: &'b OfferingRow,
        course: CourseId,
        config: ConfigId,
    ) -> &'b [SubpartRow]
        requires { offering_of self.now.at course ≡ Some offering.now }
        ensures { result.now ≡ subparts_of self.now.at course config }
    {
        let _ = &self.world;
        let _ = course;
        subparts_in(offering, config)
    }

    /// What the world keeps of its rows. It does nothing.
    pub(crate) fn recall_kept(&self)
        ensures checked { IsTrue (are_checked self.now.at.catalogue.rows) }
        ensures fit { IsTrue (list_all (λ r. includes_fit self.now.at r.offering r.includes) self.now.at.reservations) }
    {
        let _ = &self.world;
    }

    /// The least section of the student's other choices that the meetings overlap, where neither
    /// permits it. Where the student's calendar is clear, what is held isn't looked at.
    pub(crate) fn least_held(&self, permitted: bool, meetings: &[Meeting]) -> Option<u32>
        ensures { result ≡ least (flat_map (λ e. overlapped self.now.at permitted meetings.now e.choice) (held_by self.now.at self.now.student)) }
    {
        let kept = if is_clear(self.world.calendar(self.student), meetings) {
            None
        } else {
            let held = self.world.enrolments(self.student);
            self.least_kept(permitted, meetings, self.give, held)
        };
        lesser_of(kept, self.least_made(permitted, meetings, self.done))
    }
}
