// What a choice's leaving may open is noted in the world before it.

ghost use Rattle.std.specs.Prelude.{◌≡◌, ◌++◌, not, map, filter, IfOk, OnOk};
ghost use Rattle.sect_model.specs.Space.{has_place as has_place_at, has_unreserved as has_unreserved_at};
ghost use Rattle.sect_base.specs.declared.limit.Level.TheVariants.{Section as section_level};
ghost use Rattle.sect_wait.specs.Opened.{Notes, courses_with, levels_at as levels_of_choice, used_up_by};

use crate::marking::offering_of;
use crate::opened::{Opened, has_place, has_room, has_unreserved};
use sect_base::{Choice, CourseId, Level, Memory, ReservationId, SectionId};
use sect_catalog::CourseRow;
use sect_space::World;
use std::alloc::Global;

/// What the leaving of who is enrolled by the choice may open: those of its levels that are full, or have no unreserved
/// space, and its reservation, where that is used up.
pub fn note(alloc: Global, world: &World, choice: &Choice) -> Result<Opened, Memory>
    ensures { IfOk result (λ opened. Notes world.now.world choice.now opened) }
{
    let levels = levels_at(alloc, world, choice)?;
    Ok(Opened {
        courses: courses(alloc, world, choice.course)?,
        full: full(alloc, world, levels.as_slice())?,
        reserved: reserved(alloc, world, levels.as_slice())?,
        used_up: used_up(alloc, world, choice)?,
    })
}

/// The levels at which an enrolment by the choice counts.
fn levels_at(alloc: Global, world: &World, choice: &Choice) -> Result<Vec<Level>, Memory>
    ensures { IfOk result (λ levels. levels.items ≡ levels_of_choice world.now.world choice.now) }
{
    let mut levels = Vec::new(alloc);
    levels.push(Level::Course(choice.course))?;
    levels.push(Level::Config(choice.config))?;
    push_sections(choice.sections.as_slice(), &mut levels)?;
    match offering_of(world, choice.course) {
        Some(row) => {
            levels.push(Level::Offering(row.id))?;
            Ok(levels)
        }
        None => Ok(levels),
    }
}

/// Puts the sections behind the levels.
fn push_sections(sections: &[SectionId], levels: &mut Vec<Level>) -> Result<(), Memory>
    ensures { OnOk result (levels.new.items ≡ levels.old.items ++ map section_level sections.now) }
{
    for section in sections {
        levels.push(Level::Section(*section))?;
    }
    Ok(())
}

/// The courses of the offering of a course.
fn courses(alloc: Global, world: &World, course: CourseId) -> Result<Vec<CourseId>, Memory>
    ensures { IfOk result (λ courses. courses.items ≡ courses_with world.now.world course) }
{
    match offering_of(world, course) {
        Some(row) => ids(alloc, row.courses.as_slice()),
        None => Ok(Vec::new(alloc)),
    }
}

/// The ids of the courses.
fn ids(alloc: Global, courses: &[CourseRow]) -> Result<Vec<CourseId>, Memory>
    ensures { IfOk result (λ ids. ids.items ≡ map (λ c. c.id) courses.now) }
{
    let mut ids = Vec::new(alloc);
    for course in courses {
        ids.push(course.id)?;
    }
    Ok(ids)
}

/// Those of the levels that have no place.
fn full(alloc: Global, world: &World, levels: &[Level]) -> Result<Vec<Level>, Memory>
    ensures { IfOk result (λ full. full.items ≡ filter (λ level. not (has_place_at world.now.world level)) levels.now) }
{
    let mut full = Vec::new(alloc);
    for level in levels {
        if !has_place(world, *level) {
            full.push(*level)?;
        }
    }
    Ok(full)
}

/// Those of the levels that have no unreserved space.
fn reserved(alloc: Global, world: &World, levels: &[Level]) -> Result<Vec<Level>, Memory>
    ensures { IfOk result (λ reserved. reserved.items ≡ filter (λ level. not (has_unreserved_at world.now.world level)) levels.now) }
{
    let mut reserved = Vec::new(alloc);
    for level in levels {
        if !has_unreserved(world, *level) {
            reserved.push(*level)?;
        }
    }
    Ok(reserved)
}

/// The reservation of the choice, where it is used up.
fn used_up(alloc: Global, world: &World, choice: &Choice) -> Result<Vec<ReservationId>, Memory>
    ensures { IfOk result (λ ids. ids.items ≡ used_up_by world.now.world choice.now) }
{
    let mut ids = Vec::new(alloc);
    let Some(id) = choice.reservation else {
        return Ok(ids);
    };
    match world.reservation(id) {
        Some(row) => {
            if !has_room(world, row) {
                ids.push(row.id)?;
            }
            Ok(ids)
        }
        None => Ok(ids),
    }
}
