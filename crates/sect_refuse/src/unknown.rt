// The first id that nothing has.

ghost use Rattle.std.specs.Prelude.{◌≡◌, ◌∷◌, []};
ghost use Rattle.std.specs.Bool.{then_some};
ghost use Rattle.std.specs.Option.{is_none};
ghost use Rattle.sect_catalog.specs.Catalogue.{find_course, find_section};
ghost use Rattle.sect_model.specs.Refusals.{
  unknown_student as student_fault,
  unknown_students as students_fault,
  unknown_course as courses_fault,
  unknown_section as sections_fault,
  unknown_in_want as want_fault,
  unknown_in_wants as wants_fault,
  unknown_offering as offering_fault,
  unknown_reservation as reservation_fault,
  restriction_of,
  unknown_cap as cap_fault,
};

use sect_base::{
    Cap, ConfigId, CourseId, OfferingId, ReservationId, RestrictionId, SectionId, StudentId, Want,
};
use sect_command::Refusal;
use sect_space::World;

/// The student is unknown.
pub fn unknown_student(world: &World, id: StudentId) -> Option<Refusal>
    ensures { result ≡ student_fault world.now.world id }
{
    match world.people().row(id) {
        Some(_) => None,
        None => Some(Refusal::Unknown(id.0)),
    }
}

/// The first student that is unknown.
pub fn unknown_students(world: &World, ids: &[StudentId]) -> Option<Refusal>
    ensures { result ≡ students_fault world.now.world ids.now }
{
    for id in ids {
        if let Some(refusal) = unknown_student(world, *id) {
            return Some(refusal);
        }
    }
    None
}

/// The course is unknown.
pub fn unknown_course(world: &World, id: CourseId) -> Option<Refusal>
    ensures { result ≡ then_some (is_none (find_course world.now.world.catalogue.rows id)) (Refusal.Unknown id.0) }
{
    match world.catalogue().course(id) {
        Some(_) => None,
        None => Some(Refusal::Unknown(id.0)),
    }
}

/// The first course that is unknown.
pub fn unknown_courses(world: &World, ids: &[CourseId]) -> Option<Refusal>
    ensures { result ≡ courses_fault world.now.world ids.now }
{
    for id in ids {
        if let Some(refusal) = unknown_course(world, *id) {
            return Some(refusal);
        }
    }
    None
}

/// The section is unknown.
pub fn unknown_section(world: &World, id: SectionId) -> Option<Refusal>
    ensures { result ≡ then_some (is_none (find_section world.now.world.catalogue.rows id)) (Refusal.Unknown id.0) }
{
    match world.catalogue().section(id) {
        Some(_) => None,
        None => Some(Refusal::Unknown(id.0)),
    }
}

/// The first section that is unknown.
fn unknown_sections(world: &World, ids: &[SectionId]) -> Option<Refusal>
    ensures { result ≡ sections_fault world.now.world ids.now }
{
    for id in ids {
        if let Some(refusal) = unknown_section(world, *id) {
            return Some(refusal);
        }
    }
    None
}

/// A course, else a section of the want is unknown.
pub fn unknown_in_want(world: &World, want: &Want) -> Option<Refusal>
    ensures { result ≡ want_fault world.now.world want.now }
{
    unknown_courses(world, want.courses.as_slice()).or_else(|| unknown_sections(
        world,
        want.only.as_slice(),
    ))
}

/// The first want with something unknown.
pub fn unknown_in_wants(world: &World, wants: &[Want]) -> Option<Refusal>
    ensures { result ≡ wants_fault world.now.world wants.now }
{
    for want in wants {
        if let Some(refusal) = unknown_in_want(world, want) {
            return Some(refusal);
        }
    }
    None
}

/// The offering is unknown.
pub fn unknown_offering(world: &World, id: OfferingId) -> Option<Refusal>
    ensures { result ≡ offering_fault world.now.world id }
{
    match world.catalogue().offering(id) {
        Some(_) => None,
        None => Some(Refusal::Unknown(id.0)),
    }
}

/// The reservation is unknown.
pub fn unknown_reservation(world: &World, id: ReservationId) -> Option<Refusal>
    ensures { result ≡ reservation_fault world.now.world id }
{
    match world.reservation(id) {
        Some(_) => None,
        None => Some(Refusal::Unknown(id.0)),
    }
}

/// The restriction is unknown.
pub fn unknown_restriction(world: &World, id: RestrictionId) -> Option<Refusal>
    ensures { result ≡ then_some (is_none (restriction_of world.now.world id)) (Refusal.Unknown id.0) }
{
    match world.restriction(id) {
        Some(_) => None,
        None => Some(Refusal::Unknown(id.0)),
    }
}

/// The configuration is unknown.
fn unknown_config(world: &World, id: ConfigId) -> Option<Refusal>
    ensures { result ≡ cap_fault world.now.world (Cap.Config id) }
{
    match world.catalogue().config(id) {
        Some(_) => None,
        None => Some(Refusal::Unknown(id.0)),
    }
}

/// The course, configuration or section is unknown.
pub fn unknown_cap(world: &World, cap: Cap) -> Option<Refusal>
    ensures { result ≡ cap_fault world.now.world cap }
{
    match cap {
        Cap::Course(id) => unknown_course(world, id),
        Cap::Config(id) => unknown_config(world, id),
        Cap::Section(id) => unknown_section(world, id),
    }
}
