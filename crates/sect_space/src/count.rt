// How many are enrolled at a level, and by a reservation.

ghost use Rattle.std.specs.Prelude.{◌≡◌};
ghost use Rattle.sect_model.specs.World.{is_of as course_is_of, used_by};
ghost use Rattle.sect_model.specs.Counts.{is_at as counts_at, count_of, counted_of, used_of, permits_over};
ghost use Rattle.sect_model.specs.Choice.{lists_section};

use crate::world::World;
use sect_base::{Choice, CourseId, Level, OfferingId, ReservationId, SectionId};
use sect_model::Enrolment;

impl World {
    /// The number of enrolments at the level. It takes no memory.
    #[inline(always)]
    pub fn count(&self, level: Level) -> u32
        ensures { result ≡ count_of self.now.world level }
    {
        self.numbers.count(level)
    }

    /// The number of enrolments at the level but for those by a reservation that permits over limit. It takes no memory.
    pub fn counted(&self, level: Level) -> u32
        ensures { result ≡ counted_of self.now.world level }
    {
        self.numbers.counted(level)
    }

    /// The number of enrolments by the reservation. It takes no memory.
    pub fn used(&self, id: ReservationId) -> u32
        ensures { result ≡ used_of self.now.world id }
    {
        self.numbers.used(id)
    }

    /// Whether the enrolment counts at the level. It takes no memory.
    pub fn is_at(&self, level: Level, enrolment: &Enrolment) -> bool
        ensures { result ≡ counts_at self.now.world level enrolment.now }
    {
        match level {
            Level::Course(id) => enrolment.choice.course == id,
            Level::Offering(id) => self.is_of(id, enrolment.choice.course),
            Level::Config(id) => enrolment.choice.config == id,
            Level::Section(id) => has_section(enrolment.choice.sections.as_slice(), id),
        }
    }

    /// Whether the course is one of this offering's. It takes no memory.
    pub fn is_of(&self, offering: OfferingId, course: CourseId) -> bool
        ensures { result ≡ course_is_of self.now.world offering course }
    {
        match self.catalogue().course(course) {
            Some((row, _)) => row.id == offering,
            None => false,
        }
    }

    /// Whether the choice is made by a reservation that permits over limit. It takes no memory.
    pub fn is_over_limit(&self, choice: &Choice) -> bool
        ensures { result ≡ permits_over (used_by self.now.world choice.now) }
    {
        self.parts.is_over_limit(choice)
    }
}

/// Whether the section is among these.
fn has_section(sections: &[SectionId], id: SectionId) -> bool
    ensures { result ≡ lists_section sections.now id }
{
    sections.iter().any(|section| *section == id)
}
