// A reservation that was decided on, or that there is to be none: the configuration is decided next.

ghost use Rattle.std.specs.Prelude.{◌≡◌, map, slice_get, Option, Some, IfSome, option_copied};
ghost use Rattle.std.specs.List.{All};
ghost use Rattle.std.specs.Option.{option_map, option_and_then};
ghost use Rattle.sect_people.specs.Order.{sorted_by};
ghost use Rattle.sect_model.specs.Data.{CourseId as IdOfCourse};
ghost use Rattle.sect_model.specs.declared.pick.Pick.TheVariants.{Config as picks_config};
ghost use Rattle.sect_model.specs.World.{World as ValueOfWorld, reservation_of};
ghost use Rattle.sect_model.specs.Path.{options_at};
ghost use Rattle.sect_model.specs.Rules.{leaf_of};
ghost use Rattle.sect_moment.specs.Found.{IsChosen, IsConfig, id_of};
ghost use Rattle.sect_rules.specs.Wanted.{joined_path, met};

use crate::nth::Ordered;
use crate::on_course::OnCourse;
use crate::parted::id_of;
use sect_base::{ReservationId, Rule};
use sect_catalog::ConfigRow;
use sect_reserve::Reservation;
use std::marker::Model;

/// A reservation decided on for a course, or that there is to be none, of which contracts see both, with the configurations of
/// the offering.
#[derive(Drop)]
pub struct Joined<'a> {
    on: &'a OnCourse<'a>,
    row: Option<&'a Reservation>,
    rows: Ordered<'a, ConfigRow>,
}

impl<'a> Model for Joined<'a> {
    ghost use Rattle.std.specs.Prelude.{◌≡◌, Some};
    ghost use Rattle.std.specs.List.{All};
    ghost use Rattle.sect_moment.specs.Found.{IsChosen, IsConfig, id_of};
    ghost use Rattle.sect_rules.specs.Wanted.{Joined as Value_of, configs_on};

    ghost Value = { Value_of };

    ghost view = { λ s. record { on = s.on.now; id = id_of s.row } };

    ghost invariant = { λ s. IsChosen s.on.now.wanted.world s.row
        × (s.rows ≡ configs_on s.on.now.wanted.world s.on.now.course)
        × All (IsConfig s.on.now.wanted.world (Some s.on.now.course)) s.rows };
}

impl<'a> Joined<'a> {
    /// What is behind the choice of the reservation of this row, or of none.
    #[inline(always)]
    pub fn new(on: &'a OnCourse<'a>, row: Option<&'a Reservation>) -> Joined<'a>
        requires { IsChosen on.now.wanted.world row }
        ensures { result ≡ record { on = on.now; id = id_of row.entry } }
    {
        let rows = Ordered::new(on.configs());
        Joined { on, row, rows }
    }

    /// The course.
    #[inline(always)]
    pub fn on(&self) -> &'a OnCourse<'a>
        ensures { result.now ≡ self.now.on }
    {
        self.on
    }

    /// The id of the reservation, None where there is to be none.
    #[inline(always)]
    pub fn id(&self) -> Option<ReservationId>
        ensures { result ≡ self.now.id }
    {
        id_of(self.row)
    }

    /// The reservation, as the student meets it.
    #[inline(always)]
    pub fn row(&self) -> Option<&'a Reservation>
        ensures { option_copied result ≡ option_and_then (reservation_of (met self.now.on.wanted)) self.now.id }
    {
        self.row
    }

    /// The configuration that `i` others precede by id. None exactly past the last.
    #[inline(always)]
    pub fn config(&self, i: usize) -> Option<&'a ConfigRow>
        ensures value { option_map (λ row. picks_config row.now.id) result ≡ slice_get (options_at self.now.on.wanted.world self.now.on.wanted.mv (joined_path self.now)) i }
        ensures row { IfSome result (λ row. IsConfig self.now.on.wanted.world (Some self.now.on.course) row.now) }
    {
        self.on.wanted().recall_want();
        config_at(&self.rows, i)
    }

    /// The first rule that the choice of the configuration breaks, with its number. It takes no memory.
    pub fn broken(&self, row: &ConfigRow) -> Option<(Rule, u32)>
        requires { IsConfig self.now.on.wanted.world (Some self.now.on.course) row.now }
        ensures { result ≡ leaf_of self.now.on.wanted.world self.now.on.wanted.mv (joined_path self.now) (picks_config row.now.id) }
    {
        let wanted = self.on.wanted();
        wanted.recall_want();
        match self.on.ground() {
            Some(ground) => {
                wanted
                    .moment()
                    .config_rule(ground, self.on.course(), self.row, row)
            }
            None => None,
        }
    }
}

/// The configuration that `i` others precede by id. None exactly past the last.
#[inline(always)]
fn config_at<'a>(rows: &Ordered<'a, ConfigRow>, i: usize) -> Option<&'a ConfigRow>
    ensures value { option_map (λ row. picks_config row.now.id) result ≡ slice_get (map (λ g. picks_config g.id) (sorted_by (λ g. g.id.0) rows.now)) i }
    ensures row { (w : ValueOfWorld) (course : Option IdOfCourse) → All (IsConfig w course) rows.now → IfSome result (λ row. IsConfig w course row.now) }
{
    let row = rows.get(i)?;
    Some(row)
}
