// The places of an offering, and of what it is made of.

ghost use Rattle.std.specs.Prelude.{◌≡◌, ◌++◌, map, IfOk, OnOk};
ghost use Rattle.std.specs.Option.{option_map_or};
ghost use Rattle.sect_catalog.specs.Catalogue.{find_offering, sections_in};
ghost use Rattle.sect_model.specs.Look.{open_view, course_view as view_of_course, config_view as view_of_config, section_view as view_of_section};

use sect_base::{Items, Level, Memory, OfferingId};
use sect_catalog::{ConfigRow, CourseRow, SectionRow, SubpartRow};
use sect_command::{OpenConfig, OpenCourse, OpenSection, OpenView, View};
use sect_space::World;
use std::alloc::Global;

/// The places, enrolments and unreserved space of an offering.
pub fn open(alloc: Global, world: &World, id: OfferingId) -> Result<View, Memory>
    ensures { IfOk result (λ view. view ≡ option_map_or (open_view world.now.world) (find_offering world.now.world.catalogue.rows id) (View.Unknown id.0)) }
{
    match world.catalogue().offering(id) {
        Some(row) => Ok(View::Open(OpenView {
            offering: row.id,
            limit: world.places(Level::Offering(row.id)),
            held: world.count(Level::Offering(row.id)),
            free: world.unreserved(Level::Offering(row.id)),
            courses: courses(alloc, world, row.courses.as_slice())?,
            configs: configs(alloc, world, row.configs.as_slice())?,
        })),
        None => Ok(View::Unknown(id.0)),
    }
}

/// The views of the courses, in the order of the rows.
fn courses(alloc: Global, world: &World, rows: &[CourseRow]) -> Result<Items<OpenCourse>, Memory>
    ensures { IfOk result (λ views. views ≡ map (view_of_course world.now.world) rows.now) }
{
    let mut views = Vec::new(alloc);
    for row in rows {
        views.push(course_view(world, row))?;
    }
    Ok(Items::from_vec(views))
}

/// The places and enrolments of a course.
fn course_view(world: &World, row: &CourseRow) -> OpenCourse
    ensures { result ≡ view_of_course world.now.world row.now }
{
    OpenCourse {
        course: row.id,
        limit: row.limit,
        held: world.count(Level::Course(row.id)),
    }
}

/// The views of the configurations, in the order of the rows.
fn configs(alloc: Global, world: &World, rows: &[ConfigRow]) -> Result<Items<OpenConfig>, Memory>
    ensures { IfOk result (λ views. views ≡ map (view_of_config world.now.world) rows.now) }
{
    let mut views = Vec::new(alloc);
    for row in rows {
        views.push(config_view(alloc, world, row)?)?;
    }
    Ok(Items::from_vec(views))
}

/// The places, enrolments and unreserved space of a configuration, with its sections.
fn config_view(alloc: Global, world: &World, row: &ConfigRow) -> Result<OpenConfig, Memory>
    ensures { IfOk result (λ view. view ≡ view_of_config world.now.world row.now) }
{
    Ok(OpenConfig {
        config: row.id,
        limit: row.limit,
        held: world.count(Level::Config(row.id)),
        free: world.unreserved(Level::Config(row.id)),
        sections: sections(alloc, world, row.subparts.as_slice())?,
    })
}

/// The sections of the subparts, one subpart after another.
fn sections(
    alloc: Global,
    world: &World,
    subparts: &[SubpartRow],
) -> Result<Items<OpenSection>, Memory>
    ensures { IfOk result (λ views. views ≡ map (view_of_section world.now.world) (sections_in subparts.now)) }
{
    let mut views = Vec::new(alloc);
    for subpart in subparts {
        add_sections(world, subpart.sections.as_slice(), &mut views)?;
    }
    Ok(Items::from_vec(views))
}

/// Puts the views of the rows behind the others.
fn add_sections(
    world: &World,
    rows: &[SectionRow],
    views: &mut Vec<OpenSection>,
) -> Result<(), Memory>
    ensures { OnOk result (views.new.items ≡ views.old.items ++ map (view_of_section world.now.world) rows.now) }
{
    for row in rows {
        views.push(section_view(world, row))?;
    }
    Ok(())
}

/// The places, enrolments and unreserved space of a section, and whether it is cancelled.
fn section_view(world: &World, row: &SectionRow) -> OpenSection
    ensures { result ≡ view_of_section world.now.world row.now }
{
    OpenSection {
        section: row.id,
        limit: row.limit,
        held: world.count(Level::Section(row.id)),
        free: world.unreserved(Level::Section(row.id)),
        cancelled: world.catalogue().is_cancelled(row.id),
    }
}
