// Requests of which no course is held.

ghost use Rattle.std.specs.Prelude.{◌≡◌, ◌≤◌, ◌++◌, length, flat_map, IfOk, OnOk};
ghost use Rattle.std.specs.List.{list_any};
ghost use Rattle.std.specs.Option.{option_to_list};
ghost use Rattle.sect_model.specs.World.{holds as is_held};
ghost use Rattle.sect_model.specs.Batch.{asks_of};
ghost use Rattle.sect_model.specs.Look.{students_by_id, unmet_views, unmet_ask as view_of_ask};
ghost use Rattle.sect_view.specs.Unmet.{unmet_among};

use sect_base::{CourseId, Duplicate, Items, Memory, StudentId};
use sect_command::{UnmetView, View};
use sect_people::Ask;
use sect_space::World;
use std::alloc::Global;

/// The course requests of which no course is held, by student and position.
pub fn unmet(alloc: Global, world: &World) -> Result<View, Memory>
    ensures { IfOk result (λ view. view ≡ View.Unmet (flat_map (unmet_views world.now.world) (students_by_id world.now.world))) }
{
    world.recall_kept();
    Ok(View::Unmet(unmet_of(alloc, world, world.people().ids())?))
}

/// The unmet requests of these students.
fn unmet_of(
    alloc: Global,
    world: &World,
    students: &[StudentId],
) -> Result<Items<UnmetView>, Memory>
    ensures { IfOk result (λ views. views ≡ flat_map (λ s. unmet_among world.now.world s (asks_of world.now.world s)) students.now) }
{
    let mut views = Vec::new(alloc);
    for student in students {
        add_unmet(alloc, world, *student, &mut views)?;
    }
    Ok(Items::from_vec(views))
}

/// Puts the unmet requests of a student behind the others.
fn add_unmet(
    alloc: Global,
    world: &World,
    student: StudentId,
    views: &mut Vec<UnmetView>,
) -> Result<(), Memory>
    ensures { OnOk result (views.new.items ≡ views.old.items ++ unmet_among world.now.world student (asks_of world.now.world student)) }
{
    world.recall_kept();
    match world.people().asks(student) {
        Some(asks) => add_asks(alloc, world, student, asks, views),
        None => Ok(()),
    }
}

/// Puts those of the student's requests that are unmet behind the others.
fn add_asks(
    alloc: Global,
    world: &World,
    student: StudentId,
    asks: &[Ask],
    views: &mut Vec<UnmetView>,
) -> Result<(), Memory>
    requires { length asks.now ≤ 20 }
    ensures { OnOk result (views.new.items ≡ views.old.items ++ unmet_among world.now.world student asks.now) }
{
    let mut rank = 1u8;
    for ask in asks {
        add_ask(alloc, world, student, rank, ask, views)?;
        rank += 1;
    }
    Ok(())
}

/// Puts the request at a position behind the others, where it is unmet.
fn add_ask(
    alloc: Global,
    world: &World,
    student: StudentId,
    rank: u8,
    ask: &Ask,
    views: &mut Vec<UnmetView>,
) -> Result<(), Memory>
    ensures { OnOk result (views.new.items ≡ views.old.items ++ option_to_list (view_of_ask world.now.world student (rank, ask.now))) }
{
    if let Some(view) = unmet_ask(alloc, world, student, rank, ask)? {
        views.push(view)?;
    }
    Ok(())
}

/// The request at a position, where it is for courses and none of them is held.
fn unmet_ask(
    alloc: Global,
    world: &World,
    student: StudentId,
    rank: u8,
    ask: &Ask,
) -> Result<Option<UnmetView>, Memory>
    ensures { IfOk result (λ view. view ≡ view_of_ask world.now.world student (rank, ask.now)) }
{
    match ask {
        Ask::Free(_) => Ok(None),
        Ask::Course(ask) => {
            if holds_any(world, student, ask.courses.as_slice()) {
                Ok(None)
            } else {
                Ok(Some(UnmetView {
                    student,
                    rank,
                    courses: ask.courses.copy(alloc)?,
                }))
            }
        }
    }
}

/// Whether the student holds one of the courses.
fn holds_any(world: &World, student: StudentId, courses: &[CourseId]) -> bool
    ensures { result ≡ list_any (is_held world.now.world student) courses.now }
{
    courses.iter().any(|course| world.holds(student, *course))
}
