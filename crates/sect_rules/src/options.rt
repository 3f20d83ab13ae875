// The options of a path, by their places.

ghost use Rattle.std.specs.Prelude.{◌≡◌, map, slice_get, Contains, IfSome, IsTrue};
ghost use Rattle.sect_people.specs.Order.{all_differ, sorted_by};
ghost use Rattle.sect_model.specs.declared.pick.Pick.TheVariants.{Course as to_course, Config as to_config, Section as to_section};
ghost use Rattle.sect_model.specs.Path.{options_at, options_for, reservation_options};

use crate::nth::Ordered;
use crate::parted::{Parted, id_of};
use crate::path::PathOf;
use crate::rows::{configs, next_sections, reservations, subparts_at};
use sect_base::{ConfigId, CourseId, Move, ReservationId, Sections};
use sect_catalog::{ConfigRow, SectionRow};
use sect_model::Pick;
use sect_moment::{LentMove, LentWant, ground_of};
use sect_reserve::Reservation;
use sect_space::World;

/// The option at a place: the want's courses as given, or the offering's reservations, obligatory
/// ones first and each part by id, and behind them none, or its configurations by id, or the
/// sections of the next subpart by id. None exactly past the last. It takes no memory.
pub fn option<const N: usize>(world: &World, mv: &Move, path: &PathOf<N>, i: usize) -> Option<Pick>
    ensures value { result ≡ slice_get (options_at world.now.world mv.now path.now) i }
    ensures option { IfSome result (λ pick. Contains (options_at world.now.world mv.now path.now) pick) }
{
    option_in(world, mv, path, i)
}

/// The same.
fn option_in<const N: usize>(world: &World, mv: &Move, path: &PathOf<N>, i: usize) -> Option<Pick>
    ensures { result ≡ slice_get (options_at world.now.world mv.now path.now) i }
{
    let lent = LentMove::of(mv);
    let want = lent.want(path.done().len())?;
    option_for(
        world,
        &want,
        path.course(),
        path.reservation(),
        path.config(),
        path.sections(),
        i,
    )
}

/// The option at a place among those for the want, by the decisions made for it.
fn option_for(
    world: &World,
    want: &LentWant,
    course: Option<CourseId>,
    reservation: Option<Option<ReservationId>>,
    config: Option<ConfigId>,
    sections: Sections,
    i: usize,
) -> Option<Pick>
    ensures { result ≡ slice_get (options_for world.now.world want.now course reservation config sections) i }
{
    let ground = ground_of(world, course);
    let subparts = subparts_at(world, course, ground, config);
    match course {
        None => course_pick(want.courses(), i),
        Some(course) => match (reservation, config) {
            (None, _) => reservation_pick(reservations(world, course, ground), i),
            (Some(_), None) => config_pick(&Ordered::new(configs(world, course, ground)), i),
            (Some(_), Some(config)) => {
                let earlier = sections.as_slice();
                let rows = next_sections(world, course, config, subparts, earlier);
                section_pick(&Ordered::new(rows), i)
            }
        },
    }
}

/// The course at a place, as a decision.
fn course_pick(courses: &[CourseId], i: usize) -> Option<Pick>
    ensures { result ≡ slice_get (map to_course courses.now) i }
{
    let course = courses.get(i)?;
    Some(Pick::Course(*course))
}

/// The reservation at a place, or none, as a decision.
fn reservation_pick(rows: &[Reservation], i: usize) -> Option<Pick>
    requires { IsTrue (all_differ (map (λ r. r.id.0) rows.now)) }
    ensures { result ≡ slice_get (reservation_options rows.now) i }
{
    let rows = Parted::new(rows);
    let row = rows.get(i)?;
    Some(Pick::Reservation(id_of(row)))
}

/// The configuration that `i` others precede by id, as a decision.
fn config_pick(rows: &Ordered<ConfigRow>, i: usize) -> Option<Pick>
    ensures { result ≡ slice_get (map (λ g. to_config g.id) (sorted_by (λ g. g.id.0) rows.now)) i }
{
    let row = rows.get(i)?;
    Some(Pick::Config(row.id))
}

/// The section that `i` others precede by id, as a decision.
fn section_pick(rows: &Ordered<SectionRow>, i: usize) -> Option<Pick>
    ensures { result ≡ slice_get (map (λ s. to_section s.id) (sorted_by (λ s. s.id.0) rows.now)) i }
{
    let row = rows.get(i)?;
    Some(Pick::Section(row.id))
}
