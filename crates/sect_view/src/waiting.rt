// Who waits.

ghost use Rattle.std.specs.Prelude.{◌≡◌, map, IfOk};
ghost use Rattle.sect_model.specs.Look.{wait_view as view_of_entry};

use sect_base::{Duplicate, Items, Memory};
use sect_command::{View, WaitView};
use sect_model::Waiting;
use std::alloc::Global;

/// The entries in the order in which they are given, without their classes.
pub fn waiting(alloc: Global, entries: &[Waiting]) -> Result<View, Memory>
    ensures { IfOk result (λ view. view ≡ View.Waiting (map view_of_entry entries.now)) }
{
    let mut views = Vec::new(alloc);
    for entry in entries {
        views.push(wait_view(alloc, entry)?)?;
    }
    Ok(View::Waiting(Items::from_vec(views)))
}

/// An entry of the wait-list, without its class.
fn wait_view(alloc: Global, entry: &Waiting) -> Result<WaitView, Memory>
    ensures { IfOk result (λ view. view ≡ view_of_entry entry.now) }
{
    Ok(WaitView {
        ticket: entry.ticket,
        student: entry.student,
        courses: entry.want.courses.copy(alloc)?,
        give: entry.give,
    })
}
