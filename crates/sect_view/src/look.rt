// The view that answers a query.

ghost use Rattle.std.specs.Prelude.{◌≡◌, ℕ, IfOk};
ghost use Rattle.sect_model.specs.Look.{look};

use crate::open::open;
use crate::roll::roll;
use crate::rows::rows;
use crate::schedule::schedule;
use crate::unmet::unmet;
use crate::waiting::waiting;
use sect_base::Memory;
use sect_command::{Query, View};
use sect_model::Waiting;
use sect_space::World;
use std::alloc::Global;

/// The view that answers the query in the world, with these entries waiting. It is `Unknown` exactly where a roll, the open
/// places or a schedule is asked of an id that nothing has. What the next ticket is counts for nothing. Nothing changes, and
/// the one error is want of memory.
pub fn view(
    alloc: Global,
    world: &World,
    entries: &[Waiting],
    query: &Query,
) -> Result<View, Memory>
    ensures { IfOk result (λ view. (next : ℕ) → view ≡ look (record { world = world.now.world; entries = entries.now; next = next }) query.now) }
{
    match query {
        Query::Roll(id) => roll(alloc, world, *id),
        Query::Open(id) => open(alloc, world, *id),
        Query::Schedule(id) => schedule(alloc, world, *id),
        Query::Waiting => waiting(alloc, entries),
        Query::Unmet => unmet(alloc, world),
        Query::Rows(table) => rows(alloc, world, *table),
    }
}
