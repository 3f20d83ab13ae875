// The courses of a history with their places.

ghost use Rattle.std.specs.Prelude.{◌≡◌, ◌++◌, IfOk, OnOk};
ghost use Rattle.sect_command.specs.declared.view.Query.TheVariants as queries;
ghost use Rattle.sect_once.specs.History.{history, state_after};
ghost use Rattle.sect_shown.specs.Shown.{courses_in, courses_of};

use sect_base::{Memory, OfferingId};
use sect_catalog::OfferingRow;
use sect_command::{OpenCourse, Query, View};
use sect_edge::Keeper;
use sect_once::{Desk, Object};
use std::alloc::Global;

/// The courses of the offerings with their places, offering by offering.
#[tactic(auto, unfolding(crate::specs::Shown::courses_of))]
pub fn gather<O: Object<Query = Query, View = View>, K: Keeper>(
    alloc: Global,
    desk: &Desk<O, K>,
    rows: &[OfferingRow],
) -> Result<Vec<OpenCourse>, Memory>
    ensures { IfOk result (λ courses. courses.items ≡ courses_of (O.looked (state_after O.stepped O.start (history desk.now.log))) rows.now) }
{
    let mut courses = Vec::new(alloc);
    for row in rows {
        add_courses(desk, row.id, &mut courses)?;
    }
    Ok(courses)
}

/// Puts the courses of an offering behind the others.
fn add_courses<O: Object<Query = Query, View = View>, K: Keeper>(
    desk: &Desk<O, K>,
    offering: OfferingId,
    courses: &mut Vec<OpenCourse>,
) -> Result<(), Memory>
    ensures { OnOk result (courses.new.items ≡ courses.old.items
        ++ courses_in (O.looked (state_after O.stepped O.start (history desk.now.log)) (queries.Open offering))) }
{
    let view = desk.look(&Query::Open(offering))?;
    add_view(&view, courses)
}

/// Puts the courses of a view behind the others.
fn add_view(view: &View, courses: &mut Vec<OpenCourse>) -> Result<(), Memory>
    ensures { OnOk result (courses.new.items ≡ courses.old.items ++ courses_in view.now) }
{
    if let View::Open(open) = view {
        courses.extend_from_slice(open.courses.as_slice())?;
    }
    Ok(())
}
