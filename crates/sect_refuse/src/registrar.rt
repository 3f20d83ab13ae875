// Why the commands of registrars are refused.

ghost use Rattle.std.specs.Prelude.{◌≡◌, ℕ, ◌+◌, nat_le, true, false, length, Option};
ghost use Rattle.std.specs.Bool.{then_some};
ghost use Rattle.std.specs.Option.{option_and_then, option_or, is_some};
ghost use Rattle.sect_catalog.specs.Catalogue.{find_offering};
ghost use Rattle.sect_model.specs.World.{reservation_of};
ghost use Rattle.sect_model.specs.Refusals.{restriction_of, reserve_fault_of, too_many as many_of, waits_of as waits_among};
ghost use Rattle.sect_refuse.specs.Refused.{refused, refused_with};

use crate::limit::{credits_above, limit_below, many_students};
use crate::requests::{request_fault, waits_of};
use crate::row::{reserve_fault, row_refusal};
use crate::told::{in_use, too_many};
use crate::unknown::{
    unknown_cap, unknown_offering, unknown_reservation, unknown_restriction, unknown_section,
    unknown_student, unknown_students,
};
use crate::waiting::MOST_ENTRIES;
use sect_base::{Cap, Items, Level, Limit, ReservationId, RestrictionId, SectionId, StudentId};
use sect_catalog::OfferingRow;
use sect_command::{Command, Refusal, ReserveRow, RestrictRow, RowFault};
use sect_model::Waiting;
use sect_people::{Ask, StudentRow};
use sect_reserve::ReserveFault;
use sect_space::World;

/// The most groups of a student.
const MOST_GROUPS: usize = 50;

/// The most curricula of a student.
const MOST_CURRICULA: usize = 10;

/// The most reservations of an offering, and the most restrictions.
const MOST_ROWS: usize = 50;

/// The most students that a batch names.
const MOST_IN_BATCH: usize = 100;

/// The row has a fault.
pub fn offering(world: &World, row: &OfferingRow) -> Option<Refusal>
    ensures { result ≡ refused world.now.world (Command.Offering row.now) }
{
    let fault = world.catalogue().check(row).err()?;
    Some(Refusal::Row(RowFault::Offering(fault)))
}

/// A new student beyond the most, too many groups or curricula, or a maximum below the credits held.
pub fn student(world: &World, row: &StudentRow) -> Option<Refusal>
    ensures { result ≡ refused world.now.world (Command.Student row.now) }
{
    many_students(world, row)
        .or_else(|| too_many(MOST_GROUPS, row.groups.len()))
        .or_else(|| too_many(MOST_CURRICULA, row.curricula.len()))
        .or_else(|| credits_above(world, row))
}

/// The student is unknown, or the requests have a fault.
pub fn requests(world: &World, student: StudentId, asks: &Items<Ask>) -> Option<Refusal>
    ensures { result ≡ refused world.now.world (Command.Requests student asks.now) }
{
    unknown_student(world, student).or_else(|| request_fault(world, asks.as_slice()))
}

/// The offering is unknown or has the most reservations, or the row has a fault.
pub fn reserve(world: &World, row: &ReserveRow) -> Option<Refusal>
    ensures { result ≡ refused world.now.world (Command.Reserve row.now) }
{
    unknown_offering(world, row.offering)
        .or_else(|| one_more(world.reservations(row.offering).len()))
        .or_else(|| row_refusal(reservation_fault(world, row)))
}

/// A row more where there are so many.
fn one_more(rows: usize) -> Option<Refusal>
    ensures { result ≡ then_some (nat_le 50 rows) (Refusal.TooMany 51) }
{
    if rows >= MOST_ROWS {
        Some(Refusal::TooMany(51))
    } else {
        None
    }
}

/// The fault of a reservation's row, none where the offering is unknown.
fn reservation_fault(world: &World, row: &ReserveRow) -> Option<ReserveFault>
    ensures { result ≡ option_and_then (λ o. reserve_fault_of o row.now.id.0
        (is_some (reservation_of world.now.world row.now.id)) true row.now.audience row.now.configs row.now.sections)
        (find_offering world.now.world.catalogue.rows row.now.offering) }
{
    let offering = world.catalogue().offering(row.offering)?;
    reserve_fault(
        offering,
        row.id.0,
        world.reservation(row.id).is_some(),
        true,
        &row.audience,
        row.configs.as_slice(),
        row.sections.as_slice(),
    )
}

/// The reservation is unknown, or used.
pub fn unreserve(world: &World, id: ReservationId) -> Option<Refusal>
    ensures { result ≡ refused world.now.world (Command.Unreserve id) }
{
    unknown_reservation(world, id).or_else(|| in_use(world.used(id)))
}

/// The reservation is unknown.
pub fn expire(world: &World, id: ReservationId) -> Option<Refusal>
    ensures { (expiry : Option ℕ) → result ≡ refused world.now.world (Command.Expire id expiry) }
{
    unknown_reservation(world, id)
}

/// The offering is unknown or has the most restrictions, or the row has a fault.
pub fn restrict(world: &World, row: &RestrictRow) -> Option<Refusal>
    ensures { result ≡ refused world.now.world (Command.Restrict row.now) }
{
    unknown_offering(world, row.offering)
        .or_else(|| one_more(world.restrictions(row.offering).len()))
        .or_else(|| row_refusal(restriction_fault(world, row)))
}

/// The fault of a restriction's row, none where the offering is unknown.
fn restriction_fault(world: &World, row: &RestrictRow) -> Option<ReserveFault>
    ensures { result ≡ option_and_then (λ o. reserve_fault_of o row.now.id.0
        (is_some (restriction_of world.now.world row.now.id)) false row.now.audience row.now.configs row.now.sections)
        (find_offering world.now.world.catalogue.rows row.now.offering) }
{
    let offering = world.catalogue().offering(row.offering)?;
    reserve_fault(
        offering,
        row.id.0,
        world.restriction(row.id).is_some(),
        false,
        &row.audience,
        row.configs.as_slice(),
        row.sections.as_slice(),
    )
}

/// The restriction is unknown.
pub fn unrestrict(world: &World, id: RestrictionId) -> Option<Refusal>
    ensures { result ≡ refused world.now.world (Command.Unrestrict id) }
{
    unknown_restriction(world, id)
}

/// What has the limit is unknown, or the limit is below the counted enrolments.
pub fn set_limit(world: &World, cap: Cap, limit: Limit) -> Option<Refusal>
    ensures { result ≡ refused world.now.world (Command.SetLimit cap limit) }
{
    unknown_cap(world, cap).or_else(|| limit_below(world, cap, limit))
}

/// The section is unknown, or held.
pub fn cancel(world: &World, id: SectionId) -> Option<Refusal>
    ensures { result ≡ refused world.now.world (Command.Cancel id) }
{
    unknown_section(world, id).or_else(|| in_use(world.count(Level::Section(id))))
}

/// A student is unknown, or there are too many students, or entries with their wait-listed requests.
pub fn batch(world: &World, entries: &[Waiting], students: &[StudentId]) -> Option<Refusal>
    ensures { result ≡ refused_with world.now.world entries.now (Command.Batch students.now) }
{
    unknown_students(world, students).or_else(|| many_in_batch(world, entries, students))
}

/// More students than a batch may name, else entries with the wait-listed requests of the students.
fn many_in_batch(world: &World, entries: &[Waiting], students: &[StudentId]) -> Option<Refusal>
    ensures { result ≡ option_or (many_of 100 (length students.now)) (many_of 10000 (length entries.now + waits_among world.now.world students.now)) }
{
    if students.len() > MOST_IN_BATCH {
        return too_many(MOST_IN_BATCH, students.len());
    }
    too_many(MOST_ENTRIES, entries.len() + waits_of(world, students))
}
