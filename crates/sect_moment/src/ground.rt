// The offering of a course, with what stands beside it.

ghost use Rattle.std.specs.Prelude.{◌≡◌};
ghost use Rattle.sect_model.specs.Allowed.{reservations_of, restrictions_of};
ghost use Rattle.sect_moment.specs.Ground.{IsGroundOf};

use sect_base::CourseId;
use sect_catalog::{CourseRow, OfferingRow};
use sect_reserve::{Reservation, Restriction};
use sect_space::World;

/// A course's own row and its offering, with the offering's reservations and its restrictions.
#[derive(Clone, Copy, Drop)]
pub struct Ground<'a> {
    pub course: &'a CourseRow,
    pub offering: &'a OfferingRow,
    pub reservations: &'a [Reservation],
    pub restrictions: &'a [Restriction],
}

/// The ground of the course decided on, if one was. The course is looked up once.
pub fn ground_of(world: &World, course: Option<CourseId>) -> Option<Ground<'_>>
    ensures { IsGroundOf world.now.world course result }
{
    world.recall_kept();
    let (offering, row) = world.catalogue().course(course?)?;
    Some(ground_in(world, offering, row))
}

/// The ground of the course of the offering.
fn ground_in<'a>(world: &'a World, offering: &'a OfferingRow, course: &'a CourseRow) -> Ground<'a>
    ensures course { result.course.now ≡ course.now }
    ensures offering { result.offering.now ≡ offering.now }
    ensures reservations { result.reservations.now ≡ reservations_of world.now.world offering.now.id }
    ensures restrictions { result.restrictions.now ≡ restrictions_of world.now.world offering.now.id }
{
    Ground {
        course,
        offering,
        reservations: world.reservations(offering.id),
        restrictions: world.restrictions(offering.id),
    }
}
