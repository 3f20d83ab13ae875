// The registrar's rows: offerings, students, requests, and what becomes of reservations and restrictions.

ghost use Rattle.std.specs.Prelude.{◌≡◌, OnOk};
ghost use Rattle.sect_model.specs.Change.{put_offering, put_student, put_asks, drop_reservation, put_expiry, drop_restriction};
ghost use Rattle.sect_model.specs.Fits.{Fits};
ghost use Rattle.sect_space.specs.Undo.{Since, Undoable};

use crate::change::make;
use sect_base::{Day, Items, Memory, ReservationId, RestrictionId, StudentId};
use sect_catalog::OfferingRow;
use sect_model::Change;
use sect_people::{Ask, StudentRow};
use sect_space::{Undo, World};
use std::alloc::Global;

/// A list that is taken over. An empty one is left. It takes no memory.
fn taken<T>(alloc: Global, items: &mut Items<T>) -> Items<T>
    ensures { result ≡ items.old }
{
    std::mem::replace(items, Items::from_vec(Vec::new(alloc)))
}

/// An offering's row that is taken over. One without courses is left. It takes no memory.
fn taken_offering(alloc: Global, row: &mut OfferingRow) -> OfferingRow
    ensures { result ≡ row.old }
{
    OfferingRow {
        id: row.id,
        courses: taken(alloc, &mut row.courses),
        configs: taken(alloc, &mut row.configs),
    }
}

/// A student's row that is taken over. One without groups is left. It takes no memory.
fn taken_student(alloc: Global, row: &mut StudentRow) -> StudentRow
    ensures { result ≡ row.old }
{
    StudentRow {
        id: row.id,
        max_credits: row.max_credits,
        groups: taken(alloc, &mut row.groups),
        curricula: taken(alloc, &mut row.curricula),
    }
}

/// Adds an offering that fits. The world takes its row over.
pub fn offering(
    alloc: Global,
    world: &mut World,
    row: &mut OfferingRow,
    undo: &mut Undo,
) -> Result<(), Memory>
    requires fits { Fits world.old.world (Change.Offering row.old) }
    requires undoable { Undoable world.old undo.old.backs }
    ensures ok { OnOk result (world.new.world ≡ put_offering world.old.world row.old) }
    ensures since { Since world.old.world undo.old.backs world.new.world undo.new.backs }
    ensures undoable { Undoable world.new undo.new.backs }
{
    make(world, Change::Offering(taken_offering(alloc, row)), undo)
}

/// Adds a student that fits, or puts the row in place of the student's old one. The world takes the row over.
pub fn student(
    alloc: Global,
    world: &mut World,
    row: &mut StudentRow,
    undo: &mut Undo,
) -> Result<(), Memory>
    requires fits { Fits world.old.world (Change.Student row.old) }
    requires undoable { Undoable world.old undo.old.backs }
    ensures ok { OnOk result (world.new.world ≡ put_student world.old.world row.old) }
    ensures since { Since world.old.world undo.old.backs world.new.world undo.new.backs }
    ensures undoable { Undoable world.new undo.new.backs }
{
    make(world, Change::Student(taken_student(alloc, row)), undo)
}

/// Puts requests that fit in place of the student's old ones. The world takes them over.
pub fn requests(
    alloc: Global,
    world: &mut World,
    student: StudentId,
    asks: &mut Items<Ask>,
    undo: &mut Undo,
) -> Result<(), Memory>
    requires fits { Fits world.old.world (Change.Requests student asks.old) }
    requires undoable { Undoable world.old undo.old.backs }
    ensures ok { OnOk result (world.new.world ≡ put_asks world.old.world student asks.old) }
    ensures since { Since world.old.world undo.old.backs world.new.world undo.new.backs }
    ensures undoable { Undoable world.new undo.new.backs }
{
    make(world, Change::Requests(student, taken(alloc, asks)), undo)
}

/// Takes an unused reservation out.
pub fn unreserve(world: &mut World, id: ReservationId, undo: &mut Undo) -> Result<(), Memory>
    requires fits { Fits world.old.world (Change.Unreserve id) }
    requires undoable { Undoable world.old undo.old.backs }
    ensures ok { OnOk result (world.new.world ≡ drop_reservation world.old.world id) }
    ensures since { Since world.old.world undo.old.backs world.new.world undo.new.backs }
    ensures undoable { Undoable world.new undo.new.backs }
{
    make(world, Change::Unreserve(id), undo)
}

/// Sets the last day of a reservation, or takes it off.
pub fn expire(
    world: &mut World,
    id: ReservationId,
    expiry: Option<Day>,
    undo: &mut Undo,
) -> Result<(), Memory>
    requires fits { Fits world.old.world (Change.Expiry id expiry) }
    requires undoable { Undoable world.old undo.old.backs }
    ensures ok { OnOk result (world.new.world ≡ put_expiry world.old.world id expiry) }
    ensures since { Since world.old.world undo.old.backs world.new.world undo.new.backs }
    ensures undoable { Undoable world.new undo.new.backs }
{
    make(world, Change::Expiry(id, expiry), undo)
}

/// Takes a restriction out.
pub fn unrestrict(world: &mut World, id: RestrictionId, undo: &mut Undo) -> Result<(), Memory>
    requires fits { Fits world.old.world (Change.Unrestrict id) }
    requires undoable { Undoable world.old undo.old.backs }
    ensures ok { OnOk result (world.new.world ≡ drop_restriction world.old.world id) }
    ensures since { Since world.old.world undo.old.backs world.new.world undo.new.backs }
    ensures undoable { Undoable world.new undo.new.backs }
{
    make(world, Change::Unrestrict(id), undo)
}
