// Who is enrolled in a section.

ghost use Rattle.std.specs.Prelude.{◌≡◌, map, filter, IfOk};
ghost use Rattle.std.specs.Option.{option_map_or};
ghost use Rattle.sect_catalog.specs.Catalogue.{find_section};
ghost use Rattle.sect_model.specs.Counts.{is_at};
ghost use Rattle.sect_model.specs.Look.{roll_view, held_view as view_of_enrolment};

use sect_base::{Items, Level, Memory, SectionId};
use sect_command::{HeldView, RollView, View};
use sect_model::Enrolment;
use sect_space::World;
use std::alloc::Global;

/// The roll of a section.
pub fn roll(alloc: Global, world: &World, id: SectionId) -> Result<View, Memory>
    ensures { IfOk result (λ view. view ≡ option_map_or (roll_view world.now.world) (find_section world.now.world.catalogue.rows id) (View.Unknown id.0)) }
{
    match world.catalogue().section(id) {
        Some(row) => Ok(View::Roll(RollView {
            section: row.id,
            limit: row.limit,
            held: held_in(alloc, world, row.id)?,
        })),
        None => Ok(View::Unknown(id.0)),
    }
}

/// The enrolments in a section, by student.
fn held_in(alloc: Global, world: &World, section: SectionId) -> Result<Items<HeldView>, Memory>
    ensures { IfOk result (λ held. held ≡ map view_of_enrolment (filter (is_at world.now.world (Level.Section section)) world.now.world.roster)) }
{
    let mut held = Vec::new(alloc);
    let roster = world.roster(alloc)?;
    for enrolment in &roster {
        if world.is_at(Level::Section(section), enrolment) {
            held.push(held_view(enrolment))?;
        }
    }
    Ok(Items::from_vec(held))
}

/// The student, the course and the reservation of an enrolment.
fn held_view(enrolment: &Enrolment) -> HeldView
    ensures { result ≡ view_of_enrolment enrolment.now }
{
    HeldView {
        student: enrolment.student,
        course: enrolment.choice.course,
        reservation: enrolment.choice.reservation,
    }
}
