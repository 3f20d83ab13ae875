// The rules on a configuration.

ghost use Rattle.std.specs.Prelude.{◌≡◌, ◌&&◌, [], Some, not, false, zip, option_copied};
ghost use Rattle.std.specs.List.{list_any, list_all};
ghost use Rattle.std.specs.Option.{option_map_or};
ghost use Rattle.sect_reserve.specs.Audience.{admits_config as has_config, admits_section as has_section};
ghost use Rattle.sect_model.specs.World.{offering_of};
ghost use Rattle.sect_model.specs.Choice.{subparts_of, config_in};
ghost use Rattle.sect_model.specs.Allowed.{applies_to, restrictions_of, restrictions_for};
ghost use Rattle.sect_model.specs.Rules.{first_broken, config_rules, is_restricted as restricted_by};
ghost use Rattle.sect_moment.specs.Ground.{IsGround};
ghost use Rattle.sect_moment.specs.Standing.{admits_all as admits_places};

use crate::ground::Ground;
use crate::moment::Moment;
use crate::reserved::limited;
use sect_base::{ConfigId, CourseId, Level, Rule, SectionId};
use sect_catalog::{ConfigRow, OfferingRow, SubpartRow};
use sect_reserve::{Includes, Reservation, Restriction, admits_config, admits_section};

/// Whether each section is admitted in its subpart.
fn admits_all(includes: &Includes, subparts: &[SubpartRow], sections: &[SectionId]) -> bool
    ensures { result ≡ list_all (λ p. has_section includes.now p.0.id p.1) (zip subparts.now sections.now) }
{
    match subparts {
        [] => true,
        [subpart, others @ ..] => match sections {
            [] => true,
            [section, rest @ ..] => {
                admits_section(includes, subpart.id, *section) && admits_all(includes, others, rest)
            }
        },
    }
}

/// Whether the configuration and each section is admitted.
fn admits(
    includes: &Includes,
    config: ConfigId,
    subparts: &[SubpartRow],
    sections: &[SectionId],
) -> bool
    ensures { result ≡ admits_places subparts.now config sections.now includes.now }
{
    admits_config(includes, config) && admits_all(includes, subparts, sections)
}

impl Moment<'_> {
    /// Whether one of the restrictions is for the student by the course.
    fn any_applies(&self, course: CourseId, rows: &[Restriction]) -> bool
        ensures { result ≡ list_any (λ r. applies_to self.now.at self.now.student course r.audience) rows.now }
    {
        rows.iter().any(|r| self.applies(course, &r.audience))
    }

    /// Whether one of the restrictions is for the student and admits the sections.
    fn any_admits(
        &self,
        offering: &OfferingRow,
        course: CourseId,
        config: ConfigId,
        sections: &[SectionId],
        rows: &[Restriction],
    ) -> bool
        requires { offering_of self.now.at course ≡ Some offering.now }
        ensures { result ≡ list_any (λ r. applies_to self.now.at self.now.student course r.audience && admits_places
            (subparts_of self.now.at course config) config sections.now r.includes) rows.now }
    {
        let subparts = self.subparts(offering, course, config);
        rows.iter().any(|r| {
            self.applies(course, &r.audience) && admits(&r.includes, config, subparts, sections)
        })
    }

    /// Whether restrictions apply, and none of them admits the configuration and the sections.
    pub(crate) fn is_restricted(
        &self,
        offering: &OfferingRow,
        rows: &[Restriction],
        course: CourseId,
        config: ConfigId,
        sections: &[SectionId],
    ) -> bool
        requires offering { offering_of self.now.at course ≡ Some offering.now }
        requires rows { rows.now ≡ restrictions_of self.now.at offering.now.id }
        ensures { result ≡ restricted_by (subparts_of self.now.at course config) config sections.now
            (restrictions_for self.now.at self.now.student course offering.now.id) }
    {
        self.any_applies(course, rows) && !self.any_admits(offering, course, config, sections, rows)
    }

    /// Whether restrictions apply, and none of them admits the configuration. Where there are none, nothing is looked up.
    fn restricts_config(&self, ground: &Ground, course: CourseId, config: ConfigId) -> bool
        requires ground { IsGround self.now.at course ground.now }
        requires offering { offering_of self.now.at course ≡ Some ground.now.offering.now }
        ensures { result ≡ restricted_by (subparts_of self.now.at course config) config []
            (restrictions_for self.now.at self.now.student course ground.now.offering.now.id) }
    {
        if ground.restrictions.is_empty() {
            return false;
        }
        self.is_restricted(ground.offering, ground.restrictions, course, config, &[])
    }

    /// The first rule that the choice of a configuration breaks, with its number.
    #[inline(always)]
    pub fn config_rule(
        &self,
        ground: &Ground,
        course: CourseId,
        r: Option<&Reservation>,
        row: &ConfigRow,
    ) -> Option<(Rule, u32)>
        requires ground { IsGround self.now.at course ground.now }
        requires offering { offering_of self.now.at course ≡ Some ground.now.offering.now }
        requires row { config_in ground.now.offering.now row.now.id ≡ Some row.now }
        ensures { result ≡ first_broken (config_rules self.now.at self.now.student ground.now.offering.now course (option_copied r.entry) row.now.id) }
    {
        self.recall_kept();
        let config = row.id;
        let closed = self.closed(
            ground.offering.id,
            ground.reservations,
            r,
            Level::Config(config),
            limited(row.limit),
        );
        if closed.full {
            return Some((Rule::ConfigFull, config.0));
        }
        if closed.reserved {
            return Some((Rule::ConfigReserved, config.0));
        }
        if excludes_config(r, config) {
            return Some((Rule::NotIncluded, config.0));
        }
        if self.restricts_config(ground, course, config) {
            return Some((Rule::Restricted, config.0));
        }
        None
    }
}

/// Whether there is a reservation, and it doesn't admit the configuration.
fn excludes_config(r: Option<&Reservation>, config: ConfigId) -> bool
    ensures { result ≡ option_map_or (λ r. not (has_config r.includes config)) (option_copied r.entry) false }
{
    match r {
        Some(r) => !admits_config(&r.includes, config),
        None => false,
    }
}
