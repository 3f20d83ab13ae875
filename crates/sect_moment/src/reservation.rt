// The rules on a reservation, or on none.

ghost use Rattle.std.specs.Prelude.{◌≡◌, [], map, filter, nat_le, false, option_copied};
ghost use Rattle.std.specs.Option.{option_map_or};
ghost use Rattle.sect_catalog.specs.Catalogue.{places as limit_places};
ghost use Rattle.sect_model.specs.World.{offering_of};
ghost use Rattle.sect_model.specs.Counts.{used_of};
ghost use Rattle.sect_model.specs.Allowed.{applies_to as has_student, must_use as must_be_used, reservations_of};
ghost use Rattle.sect_moment.specs.Ground.{IsGround};
ghost use Rattle.sect_model.specs.Rules.{first_broken, least, chosen_rules, none_rules, offering_rules, reservation_rules};

use crate::ground::Ground;
use crate::moment::Moment;
use crate::overlap::lesser_if;
use crate::reserved::{is_over, limited};
use sect_base::{CourseId, Level, Rule};
use sect_catalog::OfferingRow;
use sect_reserve::{Audience, Reservation, active, applies};
use sect_space::offering_places;

impl Moment<'_> {
    /// Whether the audience has the student by the course.
    pub(crate) fn applies(&self, course: CourseId, audience: &Audience) -> bool
        ensures { result ≡ has_student self.now.at self.now.student course audience.now }
    {
        let row = self.person().row();
        applies(
            audience,
            self.student(),
            row.groups.as_slice(),
            row.curricula.as_slice(),
            course,
        )
    }

    /// Whether the reservation is obligatory, active and for the student.
    fn must_use(&self, course: CourseId, r: &Reservation) -> bool
        ensures { result ≡ must_be_used self.now.at self.now.student course r.now }
    {
        r.must && active(r, self.day()) && self.applies(course, &r.audience)
    }

    /// The least id among the reservations that must be used.
    fn least_must(&self, course: CourseId, rows: &[Reservation]) -> Option<u32>
        ensures { result ≡ least (map (λ r. r.id.0) (filter (must_be_used self.now.at self.now.student course) rows.now)) }
    {
        let mut least = None;
        for r in rows {
            let must = self.must_use(course, r);
            least = lesser_if(least, must, r.id.0);
        }
        least
    }

    /// Whether the reservation is used as often as its limit says.
    fn is_used_up(&self, r: &Reservation) -> bool
        ensures { result ≡ option_map_or (λ limit. nat_le limit (used_of self.now.at r.now.id)) (limit_places r.now.limit) false }
    {
        match limited(r.limit) {
            Some(limit) => limit <= self.used(r.id),
            None => false,
        }
    }

    /// The first rule on a reservation that is chosen.
    fn chosen_rule(&self, course: CourseId, r: &Reservation) -> Option<(Rule, u32)>
        ensures { result ≡ first_broken (chosen_rules self.now.at self.now.student course r.now) }
    {
        if !self.applies(course, &r.audience) {
            return Some((Rule::NotApplicable, r.id.0));
        }
        if !active(r, self.day()) {
            return Some((Rule::Expired, r.id.0));
        }
        if self.is_used_up(r) {
            return Some((Rule::UsedUp, r.id.0));
        }
        None
    }

    /// The rule where no reservation is chosen.
    fn none_rule(
        &self,
        offering: &OfferingRow,
        rows: &[Reservation],
        course: CourseId,
    ) -> Option<(Rule, u32)>
        requires { rows.now ≡ reservations_of self.now.at offering.now.id }
        ensures { result ≡ first_broken (none_rules self.now.at self.now.student offering.now course) }
    {
        let _ = offering;
        let number = self.least_must(course, rows)?;
        Some((Rule::MustUse, number))
    }

    /// The first rule on the places of the course and its offering. Neither is looked up.
    fn offering_rule(
        &self,
        ground: &Ground,
        course: CourseId,
        r: Option<&Reservation>,
    ) -> Option<(Rule, u32)>
        requires { IsGround self.now.at course ground.now }
        ensures { result ≡ first_broken (offering_rules self.now.at (option_copied r.entry) ground.now.offering.now course) }
    {
        self.recall_kept();
        if !is_over(r) && self.is_full(Level::Course(course), limited(ground.course.limit)) {
            return Some((Rule::CourseFull, course.0));
        }
        let id = ground.offering.id;
        let places = offering_places(ground.offering);
        let closed = self.closed(id, ground.reservations, r, Level::Offering(id), places);
        if closed.full {
            return Some((Rule::OfferingFull, id.0));
        }
        if r.is_none() && closed.reserved {
            return Some((Rule::OfferingReserved, id.0));
        }
        None
    }

    /// The first rule that the choice of a reservation, or of none, breaks, with its number.
    pub fn reservation_rule(
        &self,
        ground: &Ground,
        course: CourseId,
        r: Option<&Reservation>,
    ) -> Option<(Rule, u32)>
        requires { IsGround self.now.at course ground.now }
        ensures { result ≡ first_broken (reservation_rules self.now.at self.now.student ground.now.offering.now course (option_copied r.entry)) }
    {
        let broken = match r {
            Some(r) => self.chosen_rule(course, r),
            None => self.none_rule(ground.offering, ground.reservations, course),
        };
        match broken {
            Some(rule) => Some(rule),
            None => self.offering_rule(ground, course, r),
        }
    }
}
