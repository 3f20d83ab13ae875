// The rows of options, on the ground of a course.

ghost use Rattle.std.specs.Prelude.{◌≡◌, map, Some, [], IsTrue, option_copied};
ghost use Rattle.std.specs.List.{All};
ghost use Rattle.std.specs.Option.{option_map_or};
ghost use Rattle.sect_people.specs.Order.{all_differ};
ghost use Rattle.sect_model.specs.Allowed.{reservations_of};
ghost use Rattle.sect_model.specs.World.{offering_of};
ghost use Rattle.sect_model.specs.Choice.{subparts_of};
ghost use Rattle.sect_model.specs.Path.{next_subpart};
ghost use Rattle.sect_moment.specs.Ground.{IsGroundOf};
ghost use Rattle.sect_moment.specs.Found.{IsConfig, IsReservation, IsSection};
ghost use Rattle.sect_rules.specs.Decided.{subparts_at};

use sect_base::{ConfigId, CourseId, SectionId};
use sect_catalog::{ConfigRow, SectionRow, SubpartRow};
use sect_moment::{Ground, subparts_in};
use sect_reserve::Reservation;
use sect_space::World;

/// The reservations of the course's offering, no two of one id.
pub fn reservations<'a>(
    world: &World,
    course: CourseId,
    ground: Option<Ground<'a>>,
) -> &'a [Reservation]
    requires { IsGroundOf world.now.world (Some course) ground }
    ensures value { result.now ≡ option_map_or (λ o. reservations_of world.now.world o.id) (offering_of world.now.world course) [] }
    ensures differ { IsTrue (all_differ (map (λ r. r.id.0) result.now)) }
    ensures found { All (IsReservation world.now.world) result.now }
{
    let _ = course;
    world.recall_kept();
    match ground {
        Some(ground) => ground.reservations,
        None => &[],
    }
}

/// The configurations of the course's offering, no two of one id.
pub fn configs<'a>(world: &World, course: CourseId, ground: Option<Ground<'a>>) -> &'a [ConfigRow]
    requires { IsGroundOf world.now.world (Some course) ground }
    ensures value { result.now ≡ option_map_or (λ o. o.configs) (offering_of world.now.world course) [] }
    ensures differ { IsTrue (all_differ (map (λ g. g.id.0) result.now)) }
    ensures found { All (IsConfig world.now.world (Some course)) result.now }
{
    let _ = course;
    world.recall_kept();
    match ground {
        Some(ground) => ground.offering.configs.as_slice(),
        None => &[],
    }
}

/// The subparts of a configuration of the course's offering.
fn subparts<'a>(
    world: &World,
    course: CourseId,
    ground: Option<Ground<'a>>,
    config: ConfigId,
) -> &'a [SubpartRow]
    requires { IsGroundOf world.now.world (Some course) ground }
    ensures { result.now ≡ subparts_of world.now.world course config }
{
    let _ = world;
    let _ = course;
    match ground {
        Some(ground) => subparts_in(ground.offering, config),
        None => &[],
    }
}

/// The subparts of the configuration decided on, if one was.
pub fn subparts_at<'a>(
    world: &World,
    course: Option<CourseId>,
    ground: Option<Ground<'a>>,
    config: Option<ConfigId>,
) -> &'a [SubpartRow]
    requires { IsGroundOf world.now.world course ground }
    ensures { result.now ≡ subparts_at world.now.world course config }
{
    match (course, config) {
        (Some(course), Some(config)) => subparts(world, course, ground, config),
        _ => &[],
    }
}

/// The subpart that comes after so many sections, among those of the configuration.
fn subpart_after<'a>(
    world: &World,
    course: CourseId,
    config: ConfigId,
    subparts: &'a [SubpartRow],
    sections: &[SectionId],
) -> Option<&'a SubpartRow>
    requires { subparts.now ≡ subparts_of world.now.world course config }
    ensures { option_copied result ≡ next_subpart world.now.world course config sections.now }
{
    let _ = world;
    let _ = course;
    let _ = config;
    subparts.get(sections.len())
}

/// The sections of the subpart that comes after those chosen, no two of one id.
pub fn next_sections<'a>(
    world: &World,
    course: CourseId,
    config: ConfigId,
    subparts: &'a [SubpartRow],
    sections: &[SectionId],
) -> &'a [SectionRow]
    requires { subparts.now ≡ subparts_of world.now.world course config }
    ensures value { result.now ≡ option_map_or (λ p. p.sections) (next_subpart world.now.world course config sections.now) [] }
    ensures differ { IsTrue (all_differ (map (λ s. s.id.0) result.now)) }
    ensures found { All (IsSection world.now.world) result.now }
{
    world.recall_kept();
    match subpart_after(world, course, config, subparts, sections) {
        Some(row) => row.sections.as_slice(),
        None => &[],
    }
}
