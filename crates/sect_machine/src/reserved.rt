// Rows of reservations and restrictions, whose sections become places.

ghost use Rattle.std.specs.Prelude.{◌≡◌, IfOk, OnOk};
ghost use Rattle.sect_model.specs.Change.{add_reservation, add_restriction, reservation_from as reservation_of_row, restriction_from as restriction_of_row};
ghost use Rattle.sect_model.specs.Fits.{Fits};
ghost use Rattle.sect_space.specs.Undo.{Since, Undoable};

use crate::change::make;
use crate::place::places;
use sect_base::{Duplicate, Memory};
use sect_command::{ReserveRow, RestrictRow};
use sect_model::Change;
use sect_reserve::{Includes, Reservation, Restriction};
use sect_space::{Undo, World};
use std::alloc::Global;

/// Adds a reservation that fits. Where memory runs out, the world is as before.
pub fn reserve(
    alloc: Global,
    world: &mut World,
    row: &ReserveRow,
    undo: &mut Undo,
) -> Result<(), Memory>
    requires fits { Fits world.old.world (Change.Reserve (reservation_of_row world.old.world row.now)) }
    requires undoable { Undoable world.old undo.old.backs }
    ensures ok { OnOk result (world.new.world ≡ add_reservation world.old.world (reservation_of_row world.old.world row.now)) }
    ensures since { Since world.old.world undo.old.backs world.new.world undo.new.backs }
    ensures undoable { Undoable world.new undo.new.backs }
{
    let reservation = reservation_from(alloc, world, row)?;
    make(world, Change::Reserve(reservation), undo)
}

/// Adds a restriction that fits. Where memory runs out, the world is as before.
pub fn restrict(
    alloc: Global,
    world: &mut World,
    row: &RestrictRow,
    undo: &mut Undo,
) -> Result<(), Memory>
    requires fits { Fits world.old.world (Change.Restrict (restriction_of_row world.old.world row.now)) }
    requires undoable { Undoable world.old undo.old.backs }
    ensures ok { OnOk result (world.new.world ≡ add_restriction world.old.world (restriction_of_row world.old.world row.now)) }
    ensures since { Since world.old.world undo.old.backs world.new.world undo.new.backs }
    ensures undoable { Undoable world.new undo.new.backs }
{
    let restriction = restriction_from(alloc, world, row)?;
    make(world, Change::Restrict(restriction), undo)
}

/// The reservation of a row, with its sections as places.
fn reservation_from(alloc: Global, world: &World, row: &ReserveRow) -> Result<Reservation, Memory>
    requires { Fits world.now.world (Change.Reserve (reservation_of_row world.now.world row.now)) }
    ensures { IfOk result (λ r. r ≡ reservation_of_row world.now.world row.now) }
{
    Ok(Reservation {
        id: row.id,
        offering: row.offering,
        audience: row.audience.copy(alloc)?,
        limit: row.limit,
        first: row.first,
        expiry: row.expiry,
        includes: Includes {
            configs: row.configs.copy(alloc)?,
            sections: places(alloc, world, row.offering, row.sections.as_slice())?,
        },
        over: row.over,
        overlap: row.overlap,
        must: row.must,
    })
}

/// The restriction of a row, with its sections as places.
fn restriction_from(alloc: Global, world: &World, row: &RestrictRow) -> Result<Restriction, Memory>
    requires { Fits world.now.world (Change.Restrict (restriction_of_row world.now.world row.now)) }
    ensures { IfOk result (λ r. r ≡ restriction_of_row world.now.world row.now) }
{
    Ok(Restriction {
        id: row.id,
        offering: row.offering,
        audience: row.audience.copy(alloc)?,
        includes: Includes {
            configs: row.configs.copy(alloc)?,
            sections: places(alloc, world, row.offering, row.sections.as_slice())?,
        },
    })
}
