// The credits of enrolments.

ghost use Rattle.std.specs.Prelude.{◌≡◌, ◌*◌, ◌≤◌, length};
ghost use Rattle.sect_weeks.specs.Credits.{course_credits, all_credits};

use sect_base::CourseId;
use sect_catalog::Catalogue;
use sect_model::Enrolment;

/// The credits of these enrolments.
pub fn credits_in(catalogue: &Catalogue, held: &[Enrolment]) -> usize
    requires { length held.now ≤ 1000000000 }
    ensures value { result ≡ all_credits catalogue.now.rows held.now }
    ensures bound { result ≤ 255 * length held.now }
{
    let mut total = 0;
    for enrolment in held {
        total += usize::from(credits(catalogue, enrolment.choice.course));
    }
    total
}

/// The credits of a course, 0 where it is unknown.
pub fn credits(catalogue: &Catalogue, course: CourseId) -> u8
    ensures { result ≡ course_credits catalogue.now.rows course }
{
    match catalogue.course(course) {
        Some((_, row)) => row.credits,
        None => 0,
    }
}
