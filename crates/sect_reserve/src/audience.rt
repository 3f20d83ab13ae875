// Whom a reservation or a restriction is for.

ghost use Rattle.std.specs.Prelude.{◌≡◌};
ghost use Rattle.std.specs.List.{list_any};
ghost use Rattle.sect_reserve.specs.Audience.{
  applies as has_student,
  class_listed as has_class,
  major_listed as has_major,
  in_curriculum,
  is_among,
};

use crate::row::Audience;
use sect_base::{AreaId, ClassId, CourseId, Curriculum, GroupId, MajorId, StudentId};

/// Whether the audience has the student, who is in these groups and curricula and asks by the
/// course. A curriculum fits where the area is the same, its class is listed or none is, and one
/// of its majors is listed or none is. It takes no memory.
pub fn applies(
    a: &Audience,
    student: StudentId,
    groups: &[GroupId],
    curricula: &[Curriculum],
    course: CourseId,
) -> bool
    ensures { result ≡ has_student a.now student groups.now curricula.now course }
{
    match a {
        Audience::Students(ids) => ids.as_slice().contains(&student),
        Audience::Group(id) => groups.contains(id),
        Audience::Curriculum {
            area,
            classes,
            majors,
        } => any_fits(*area, classes.as_slice(), majors.as_slice(), curricula),
        Audience::Course(id) => *id == course,
    }
}

/// Whether one of a student's curricula is in the area, with one of the classes and of the majors.
fn any_fits(area: AreaId, classes: &[ClassId], majors: &[MajorId], has: &[Curriculum]) -> bool
    ensures { result ≡ list_any (in_curriculum area classes.now majors.now) has.now }
{
    has.iter()
        .any(|curriculum| fits(area, classes, majors, curriculum))
}

/// Whether a student's curriculum is in the area, with one of the classes and of the majors.
fn fits(area: AreaId, classes: &[ClassId], majors: &[MajorId], c: &Curriculum) -> bool
    ensures { result ≡ in_curriculum area classes.now majors.now c.now }
{
    c.area == area && class_listed(classes, c.class) && major_listed(majors, c.majors.as_slice())
}

/// Whether the class is among those listed. Where none is listed, each is.
fn class_listed(classes: &[ClassId], class: ClassId) -> bool
    ensures { result ≡ has_class classes.now class }
{
    classes.is_empty() || classes.contains(&class)
}

/// Whether one of the student's majors is among those listed. Where none is listed, each student passes.
fn major_listed(majors: &[MajorId], has: &[MajorId]) -> bool
    ensures { result ≡ has_major majors.now has.now }
{
    majors.is_empty() || any_major(majors, has)
}

/// Whether one of the majors is among those of the student.
fn any_major(majors: &[MajorId], has: &[MajorId]) -> bool
    ensures { result ≡ list_any (is_among has.now) majors.now }
{
    majors.iter().any(|major| has.contains(major))
}
