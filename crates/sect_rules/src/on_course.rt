// A course that was decided on: its reservation, or that there is to be none, is decided next.

ghost use Rattle.std.specs.Prelude.{◌≡◌, map, slice_get, Some, IfSome, IsTrue, option_copied};
ghost use Rattle.std.specs.List.{All};
ghost use Rattle.std.specs.Option.{option_map};
ghost use Rattle.sect_people.specs.Order.{all_differ};
ghost use Rattle.sect_model.specs.declared.pick.Pick.TheVariants.{Reservation as picks_reservation};
ghost use Rattle.sect_model.specs.Path.{options_at};
ghost use Rattle.sect_model.specs.Rules.{leaf_of};
ghost use Rattle.sect_moment.specs.Ground.{IsGroundOf};
ghost use Rattle.sect_moment.specs.Found.{IsChosen, IsConfig, id_of};
ghost use Rattle.sect_rules.specs.Wanted.{course_path, configs_on, met};

use crate::parted::Parted;
use crate::rows::{configs, reservations};
use crate::wanted::Wanted;
use sect_base::{CourseId, Rule};
use sect_catalog::ConfigRow;
use sect_moment::{Ground, ground_of};
use sect_reserve::Reservation;
use std::marker::Model;

/// A course decided on for a want, of which contracts see both, with its offering and the reservations of that.
#[derive(Drop)]
pub struct OnCourse<'a> {
    wanted: &'a Wanted<'a>,
    course: CourseId,
    ground: Option<Ground<'a>>,
    rows: Parted<'a>,
}

impl<'a> Model for OnCourse<'a> {
    ghost use Rattle.std.specs.Prelude.{◌≡◌, Some};
    ghost use Rattle.std.specs.List.{All};
    ghost use Rattle.sect_moment.specs.Found.{IsReservation};
    ghost use Rattle.sect_moment.specs.Ground.{IsGroundOf};
    ghost use Rattle.sect_rules.specs.Wanted.{OnCourse as Value_of, reservations_on};

    ghost Value = { Value_of };

    ghost view = { λ s. record { wanted = s.wanted.now; course = s.course } };

    ghost invariant = { λ s. IsGroundOf s.wanted.now.world (Some s.course) s.ground × (s.rows ≡ reservations_on s.wanted.now.world s.course)
        × All (IsReservation s.wanted.now.world) s.rows };
}

impl<'a> OnCourse<'a> {
    /// What is behind the choice of the course.
    #[inline(always)]
    pub fn new(wanted: &'a Wanted<'a>, course: CourseId) -> OnCourse<'a>
        ensures { result ≡ record { wanted = wanted.now; course = course } }
    {
        let world = wanted.world();
        let ground = ground_of(world, Some(course));
        let rows = Parted::new(reservations(world, course, ground));
        OnCourse {
            wanted,
            course,
            ground,
            rows,
        }
    }

    /// The want.
    #[inline(always)]
    pub fn wanted(&self) -> &'a Wanted<'a>
        ensures { result.now ≡ self.now.wanted }
    {
        self.wanted
    }

    /// The course.
    #[inline(always)]
    pub fn course(&self) -> CourseId
        ensures { result ≡ self.now.course }
    {
        self.course
    }

    /// The offering of the course, with what stands beside it, as the student meets it.
    #[inline(always)]
    pub(crate) fn ground(&self) -> Option<&Ground<'a>>
        ensures { IsGroundOf (met self.now.wanted) (Some self.now.course) (option_copied result) }
    {
        self.ground.as_ref()
    }

    /// The configurations of the course's offering, no two of one id.
    pub(crate) fn configs(&self) -> &'a [ConfigRow]
        ensures value { result.now ≡ configs_on self.now.wanted.world self.now.course }
        ensures differ { IsTrue (all_differ (map (λ g. g.id.0) result.now)) }
        ensures found { All (IsConfig self.now.wanted.world (Some self.now.course)) result.now }
    {
        configs(self.wanted.world(), self.course, self.ground)
    }

    /// The reservation at a place: obligatory ones first and each part by id, and behind them none. None exactly past the last.
    #[inline(always)]
    pub fn reservation(&self, i: usize) -> Option<Option<&'a Reservation>>
        ensures value { option_map (λ row. picks_reservation (id_of row)) result ≡ slice_get (options_at self.now.wanted.world self.now.wanted.mv (course_path self.now)) i }
        ensures row { IfSome result (IsChosen self.now.wanted.world) }
    {
        self.wanted.recall_want();
        self.rows.get(i)
    }

    /// The first rule that the choice of the reservation of this row, or of none, breaks, with its number. It takes no memory.
    pub fn broken(&self, row: Option<&Reservation>) -> Option<(Rule, u32)>
        requires { IsChosen self.now.wanted.world row }
        ensures { result ≡ leaf_of self.now.wanted.world self.now.wanted.mv (course_path self.now) (picks_reservation (id_of row.entry)) }
    {
        self.wanted.recall_want();
        let moment = self.wanted.moment();
        match self.ground() {
            Some(ground) => moment.reservation_rule(ground, self.course, row),
            None => None,
        }
    }
}
