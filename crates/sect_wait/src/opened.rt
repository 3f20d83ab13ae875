// What a student's leaving a course opened: levels that were closed before, and a reservation that was used up.

ghost use Rattle.std.specs.Prelude.{◌≡◌, ◌&&◌, not, true, false, [], List, OnOk};
ghost use Rattle.std.specs.List.{list_all};
ghost use Rattle.std.specs.Option.{option_map_or};
ghost use Rattle.sect_model.specs.Space.{has_place as has_place_at, has_unreserved as has_unreserved_at};
ghost use Rattle.sect_model.specs.World.{reservation_of};
ghost use Rattle.sect_model.specs.Freer.{has_room as has_room_in};
ghost use Rattle.sect_model.specs.declared.held.Waiting.{Waiting as Entry};
ghost use Rattle.sect_wait.specs.Marked.{MarksMore, wants_one as is_wanting};
ghost use Rattle.sect_wait.specs.Opened.{OthersBut, gives_and_wants, is_closed_again as is_closed};
ghost use Rattle.sect_wait.specs.Touched.{MarksOnly, SeeksOnly};

use crate::marks::Marks;
use crate::queue::Queue;
use sect_base::{CourseId, Level, Limit, Memory, ReservationId};
use sect_reserve::Reservation;
use sect_space::World;
use std::alloc::Global;

/// What opened where a student left: those who want one of the courses may have a move by it, as long as one of the levels
/// has a place again or unreserved space again, or one of the reservations has room again.
pub struct Opened {
    pub(crate) courses: Vec<CourseId>,
    pub(crate) full: Vec<Level>,
    pub(crate) reserved: Vec<Level>,
    pub(crate) used_up: Vec<ReservationId>,
}

/// It is written out, so that a caller does not prove again how each part is dropped.
impl Drop for Opened {
    fn drop(self) {
        let Opened {
            courses: _,
            full: _,
            reserved: _,
            used_up: _,
        } = self;
    }
}

impl Opened {
    /// Nothing opened. It takes no memory.
    pub fn none(alloc: Global) -> Opened
        ensures courses { result.courses.items ≡ [] }
        ensures full { result.full.items ≡ [] }
        ensures reserved { result.reserved.items ≡ [] }
        ensures used_up { result.used_up.items ≡ [] }
    {
        Opened {
            courses: Vec::new(alloc),
            full: Vec::new(alloc),
            reserved: Vec::new(alloc),
            used_up: Vec::new(alloc),
        }
    }

    /// Forgets what opened, and keeps the room of the lists. It takes no memory.
    pub fn clear(&mut self)
        ensures courses { self.new.courses.items ≡ [] }
        ensures full { self.new.full.items ≡ [] }
        ensures reserved { self.new.reserved.items ≡ [] }
        ensures used_up { self.new.used_up.items ≡ [] }
    {
        self.courses.clear();
        self.full.clear();
        self.reserved.clear();
        self.used_up.clear();
    }
}

/// Marks those who want one of the courses, so that all of them are tried. Where memory runs out, some of them are marked.
pub(crate) fn fall_back(opened: &mut Opened, marks: &mut Marks) -> Result<(), Memory>
    ensures more { OnOk result ((entries : List Entry) → MarksMore (is_wanting opened.old.courses.items) entries marks.old marks.new) }
    ensures only { OnOk result ((entries : List Entry) → SeeksOnly (λ e. false) entries marks.old opened.old.courses.items marks.new opened.new.courses.items) }
    ensures none { OnOk result (opened.new.courses.items ≡ []) }
{
    mark_wanted(opened.courses.as_slice(), marks)?;
    opened.courses.clear();
    Ok(())
}

/// Marks the courses for all who want them.
fn mark_wanted(courses: &[CourseId], marks: &mut Marks) -> Result<(), Memory>
    ensures more { OnOk result ((entries : List Entry) → MarksMore (is_wanting courses.now) entries marks.old marks.new) }
    ensures only { OnOk result ((entries : List Entry) → MarksOnly (is_wanting courses.now) entries marks.old marks.new) }
{
    for course in courses {
        marks.mark_course(*course)?;
    }
    Ok(())
}

/// Where all that opened is closed again, only those who give a course up are marked by what opened. Where memory runs out,
/// some of them are marked.
pub(crate) fn shut(
    world: &World,
    queue: &Queue,
    opened: &mut Opened,
    marks: &mut Marks,
) -> Result<(), Memory>
    ensures others { OnOk result (OthersBut world.now.world queue.now.queue.entries marks.old opened.old
        → OthersBut world.now.world queue.now.queue.entries marks.new opened.new) }
    ensures only { OnOk result (SeeksOnly (λ e. false) queue.now.queue.entries marks.old opened.old.courses.items
        marks.new opened.new.courses.items) }
{
    if opened.courses.is_empty() {
        return Ok(());
    }
    if !is_closed_again(world, opened) {
        return Ok(());
    }
    world.recall_kept();
    mark_givers_among(queue, opened.courses.as_slice(), marks)?;
    opened.courses.clear();
    Ok(())
}

/// Marks those of the entries that want one of the courses and give one up. Where none gives one up, no course is looked at.
fn mark_givers_among(queue: &Queue, courses: &[CourseId], marks: &mut Marks) -> Result<(), Memory>
    ensures more { OnOk result (MarksMore (gives_and_wants courses.now) queue.now.queue.entries marks.old marks.new) }
    ensures only { OnOk result (MarksOnly (gives_and_wants courses.now) queue.now.queue.entries marks.old marks.new) }
{
    if queue.gives_some() {
        mark_givers(courses, marks)
    } else {
        Ok(())
    }
}

/// Marks the courses for those who want them and give one up.
fn mark_givers(courses: &[CourseId], marks: &mut Marks) -> Result<(), Memory>
    ensures more { OnOk result ((entries : List Entry) → MarksMore (gives_and_wants courses.now) entries marks.old marks.new) }
    ensures only { OnOk result ((entries : List Entry) → MarksOnly (gives_and_wants courses.now) entries marks.old marks.new) }
{
    for course in courses {
        marks.mark_giver(*course)?;
    }
    Ok(())
}

/// Whether all that opened is closed again. It takes no memory.
pub(crate) fn is_closed_again(world: &World, opened: &Opened) -> bool
    ensures { result ≡ is_closed world.now.world opened.now }
{
    are_full(world, opened.full.as_slice())
        && are_reserved(world, opened.reserved.as_slice())
        && are_used_up(world, opened.used_up.as_slice())
}

/// Whether none of the levels has a place.
fn are_full(world: &World, levels: &[Level]) -> bool
    ensures { result ≡ list_all (λ level. not (has_place_at world.now.world level)) levels.now }
{
    levels.iter().all(|level| !has_place(world, *level))
}

/// Whether none of the levels has unreserved space.
fn are_reserved(world: &World, levels: &[Level]) -> bool
    ensures { result ≡ list_all (λ level. not (has_unreserved_at world.now.world level)) levels.now }
{
    levels.iter().all(|level| !has_unreserved(world, *level))
}

/// Whether each of the reservations is known and used up.
fn are_used_up(world: &World, ids: &[ReservationId]) -> bool
    ensures { result ≡ list_all (λ id. not (option_map_or (has_room_in world.now.world) (reservation_of world.now.world id) true)) ids.now }
{
    ids.iter().all(|id| is_used_up(world, *id))
}

/// Whether the reservation is known and used up.
fn is_used_up(world: &World, id: ReservationId) -> bool
    ensures { result ≡ not (option_map_or (has_room_in world.now.world) (reservation_of world.now.world id) true) }
{
    match world.reservation(id) {
        Some(row) => !has_room(world, row),
        None => false,
    }
}

/// Whether the level has no limit, or its count is below it. It takes no memory.
pub(crate) fn has_place(world: &World, level: Level) -> bool
    ensures { result ≡ has_place_at world.now.world level }
{
    match world.places(level) {
        Some(places) => u64::from(world.count(level)) < places,
        None => true,
    }
}

/// Whether the level has no limit, or unreserved space, which a full one hasn't. It takes no memory.
pub(crate) fn has_unreserved(world: &World, level: Level) -> bool
    ensures { result ≡ has_unreserved_at world.now.world level }
{
    if !has_place(world, level) {
        return false;
    }
    match world.unreserved(level) {
        Some(space) => 0 < space,
        None => true,
    }
}

/// Whether the reservation isn't used up. It takes no memory.
pub(crate) fn has_room(world: &World, row: &Reservation) -> bool
    ensures { result ≡ has_room_in world.now.world row.now }
{
    match row.limit {
        Limit::Places(places) => world.used(row.id) < places,
        Limit::Unlimited => true,
    }
}
