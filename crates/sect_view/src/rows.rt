// The rows of the tables, by id.

ghost use Rattle.std.specs.Prelude.{◌≡◌, map, IfOk};
ghost use Rattle.sect_people.specs.Order.{sorted_by};
ghost use Rattle.sect_model.specs.Look.{rows_view, students_by_id};
ghost use Rattle.sect_view.specs.Found.{offering_rows, student_rows, request_rows, reservation_rows};

use sect_base::{Duplicate, Items, Memory, OfferingId, ReservationId, StudentId};
use sect_catalog::OfferingRow;
use sect_command::{AsksView, Table, View};
use sect_people::{Ask, StudentRow};
use sect_reserve::Reservation;
use sect_space::World;
use std::alloc::Global;

/// The rows of a table, by id.
pub fn rows(alloc: Global, world: &World, table: Table) -> Result<View, Memory>
    ensures { IfOk result (λ view. view ≡ rows_view world.now.world table) }
{
    match table {
        Table::Offerings => Ok(View::Offerings(offerings(alloc, world)?)),
        Table::Students => Ok(View::Students(students(alloc, world)?)),
        Table::Requests => Ok(View::Requests(requests(alloc, world)?)),
        Table::Reservations => Ok(View::Reservations(reservations(alloc, world)?)),
    }
}

/// The rows of all offerings, by id.
fn offerings(alloc: Global, world: &World) -> Result<Items<OfferingRow>, Memory>
    ensures { IfOk result (λ rows. rows ≡ sorted_by (λ o. o.id.0) world.now.world.catalogue.rows) }
{
    world.recall_kept();
    let ids = offering_ids(alloc, world.catalogue().rows())?;
    offerings_of(alloc, world, ids.as_slice())
}

/// The ids of the rows, in rising order.
fn offering_ids(alloc: Global, rows: &[OfferingRow]) -> Result<Vec<OfferingId>, Memory>
    ensures { IfOk result (λ ids. ids.items ≡ map (λ o. o.id) (sorted_by (λ o. o.id.0) rows.now)) }
{
    let mut ids = Vec::new(alloc);
    for row in rows {
        ids.push(row.id)?;
    }
    ids.sort_unstable();
    Ok(ids)
}

/// The offerings of these ids.
fn offerings_of(
    alloc: Global,
    world: &World,
    ids: &[OfferingId],
) -> Result<Items<OfferingRow>, Memory>
    ensures { IfOk result (λ rows. rows ≡ offering_rows world.now.world ids.now) }
{
    let mut rows = Vec::new(alloc);
    for id in ids {
        if let Some(row) = world.catalogue().offering(*id) {
            rows.push(row.copy(alloc)?)?;
        }
    }
    Ok(Items::from_vec(rows))
}

/// The rows of all students, by id.
fn students(alloc: Global, world: &World) -> Result<Items<StudentRow>, Memory>
    ensures { IfOk result (λ rows. rows ≡ map (λ s. s.row) (students_by_id world.now.world)) }
{
    world.recall_kept();
    students_of(alloc, world, world.people().ids())
}

/// The students of these ids.
fn students_of(alloc: Global, world: &World, ids: &[StudentId]) -> Result<Items<StudentRow>, Memory>
    ensures { IfOk result (λ rows. rows ≡ student_rows world.now.world ids.now) }
{
    let mut rows = Vec::new(alloc);
    for id in ids {
        if let Some(row) = world.people().row(*id) {
            rows.push(row.copy(alloc)?)?;
        }
    }
    Ok(Items::from_vec(rows))
}

/// The requests of all students, by id.
fn requests(alloc: Global, world: &World) -> Result<Items<AsksView>, Memory>
    ensures { IfOk result (λ rows. rows ≡ map (λ s. record { student = s.row.id; asks = s.asks }) (students_by_id world.now.world)) }
{
    world.recall_kept();
    requests_of(alloc, world, world.people().ids())
}

/// What the students of these ids ask for.
fn requests_of(alloc: Global, world: &World, ids: &[StudentId]) -> Result<Items<AsksView>, Memory>
    ensures { IfOk result (λ rows. rows ≡ request_rows world.now.world ids.now) }
{
    let mut rows = Vec::new(alloc);
    for id in ids {
        if let Some(asks) = world.people().asks(*id) {
            rows.push(asks_view(alloc, *id, asks)?)?;
        }
    }
    Ok(Items::from_vec(rows))
}

/// A student's requests, copied.
fn asks_view(alloc: Global, student: StudentId, asks: &[Ask]) -> Result<AsksView, Memory>
    ensures { IfOk result (λ row. row ≡ record { student = student; asks = asks.now }) }
{
    let mut copies = Vec::new(alloc);
    for ask in asks {
        copies.push(ask.copy(alloc)?)?;
    }
    Ok(AsksView {
        student,
        asks: Items::from_vec(copies),
    })
}

/// The rows of all reservations, by id.
fn reservations(alloc: Global, world: &World) -> Result<Items<Reservation>, Memory>
    ensures { IfOk result (λ rows. rows ≡ sorted_by (λ r. r.id.0) world.now.world.reservations) }
{
    world.recall_kept();
    let ids = world.reservation_ids(alloc)?;
    reservations_of(alloc, world, ids.as_slice())
}

/// The reservations of these ids.
fn reservations_of(
    alloc: Global,
    world: &World,
    ids: &[ReservationId],
) -> Result<Items<Reservation>, Memory>
    ensures { IfOk result (λ rows. rows ≡ reservation_rows world.now.world ids.now) }
{
    let mut rows = Vec::new(alloc);
    for id in ids {
        if let Some(row) = world.reservation(*id) {
            rows.push(row.copy(alloc)?)?;
        }
    }
    Ok(Items::from_vec(rows))
}
