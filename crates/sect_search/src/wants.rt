// What a course request asks of a search.

ghost use Rattle.std.specs.Prelude.{◌≡◌, IfOk};
ghost use Rattle.sect_model.specs.Batch.{want_of};

use sect_base::{Duplicate, Items, Memory, Want};
use sect_people::CourseAsk;
use std::alloc::Global;

/// The want of a course request at a position: one of its courses, in any section.
pub fn want_of(alloc: Global, ask: &CourseAsk, rank: u8) -> Result<Want, Memory>
    ensures { IfOk result (λ want. want ≡ want_of ask.now rank) }
{
    Ok(Want {
        courses: ask.courses.copy(alloc)?,
        only: Items::from_vec(Vec::new(alloc)),
        rank,
    })
}
