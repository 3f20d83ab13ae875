// Which entries a day marks: those that want an offering of which a reservation begins or ends.

ghost use Rattle.std.specs.Prelude.{◌≡◌, OnOk, max, nat_lt};
ghost use Rattle.std.specs.List.{list_any};
ghost use Rattle.sect_model.specs.Freer.{flips as is_flipping, may_open};
ghost use Rattle.sect_model.specs.declared.change.Change.TheVariants.{Day as NextDay};
ghost use Rattle.sect_wait.specs.Marked.{MarksMore};
ghost use Rattle.sect_machine.specs.Opening.{flip_opens, flip_opens_of};

use sect_base::{Day, Memory};
use sect_catalog::OfferingRow;
use sect_reserve::{Reservation, active};
use sect_space::World;
use sect_wait::{Marks, Queue, mark};

/// Marks the entries that want an offering of which a reservation begins or ends on the way to the later of the two days.
/// Where memory runs out, some of them are marked.
pub fn mark_day(world: &World, queue: &Queue, day: Day, marks: &mut Marks) -> Result<(), Memory>
    ensures { OnOk result (MarksMore (λ e. may_open world.now.world e (NextDay (max world.now.world.day day))) queue.now.queue.entries marks.old marks.new) }
{
    world.recall_kept();
    if is_later(day, world.day()) {
        mark_offerings(world, queue, day, world.catalogue().rows(), marks)
    } else {
        Ok(())
    }
}

/// Whether the day is later than the other.
fn is_later(day: Day, than: Day) -> bool
    ensures { result ≡ nat_lt than day }
{
    than.get() < day.get()
}

/// Marks the entries that want one of the offerings of which a reservation begins or ends on the way to the day.
fn mark_offerings(
    world: &World,
    queue: &Queue,
    day: Day,
    rows: &[OfferingRow],
    marks: &mut Marks,
) -> Result<(), Memory>
    ensures { OnOk result (MarksMore (λ e. list_any (λ o. flip_opens_of world.now.world day o e) rows.now) queue.now.queue.entries marks.old marks.new) }
{
    for row in rows {
        mark_flips(world, queue, day, world.reservations(row.id), marks)?;
    }
    Ok(())
}

/// Marks the entries that want an offering of one of the reservations that begin or end on the way to the day.
fn mark_flips(
    world: &World,
    queue: &Queue,
    day: Day,
    rows: &[Reservation],
    marks: &mut Marks,
) -> Result<(), Memory>
    ensures { OnOk result (MarksMore (λ e. list_any (λ r. flip_opens world.now.world day r e) rows.now) queue.now.queue.entries marks.old marks.new) }
{
    for row in rows {
        mark_flip(world, queue, day, row, marks)?;
    }
    Ok(())
}

/// Marks the entries that want the reservation's offering, where it begins or ends on the way to the day.
fn mark_flip(
    world: &World,
    queue: &Queue,
    day: Day,
    row: &Reservation,
    marks: &mut Marks,
) -> Result<(), Memory>
    ensures { OnOk result (MarksMore (flip_opens world.now.world day row.now) queue.now.queue.entries marks.old marks.new) }
{
    world.recall_kept();
    if flips(world, day, row) {
        mark(queue, None, world.catalogue().offering(row.offering), marks)
    } else {
        Ok(())
    }
}

/// Whether the reservation is active on only one of the world's day and this day.
fn flips(world: &World, day: Day, row: &Reservation) -> bool
    ensures { result ≡ is_flipping world.now.world day row.now }
{
    if active(row, world.day()) {
        !active(row, day)
    } else {
        active(row, day)
    }
}
