// The rules on a section.

ghost use Rattle.std.specs.Prelude.{◌≡◌, ◌<◌, ◌==◌, [], ◌∷◌, ◌++◌, Some, not, false, length, map, filter, option_copied, IsTrue};
ghost use Rattle.std.specs.Option.{option_map_or};
ghost use Rattle.sect_catalog.specs.Catalogue.{find_section};
ghost use Rattle.sect_reserve.specs.Audience.{admits_section as has_section, empty_or_any};
ghost use Rattle.sect_model.specs.World.{offering_of, meetings_of};
ghost use Rattle.sect_model.specs.Choice.{has_parent, subparts_of};
ghost use Rattle.sect_model.specs.Allowed.{free_times, meets_at, reservations_of, restrictions_for};
ghost use Rattle.sect_model.specs.Path.{next_subpart};
ghost use Rattle.sect_model.specs.Space.{places_at};
ghost use Rattle.sect_model.specs.Rules.{first_broken, least, section_rules, is_restricted as restricted_by};
ghost use Rattle.sect_base.specs.declared.limit.Level.TheVariants.{Section};
ghost use Rattle.sect_base.specs.Pattern.{lists_overlap};
ghost use Rattle.sect_moment.specs.Ground.{IsGround};
ghost use Rattle.sect_moment.specs.Found.{IsSection};
ghost use Rattle.sect_moment.specs.Reserved.{are_own};
ghost use Rattle.sect_moment.specs.Standing.{own_section};
ghost use Rattle.sect_moment.specs.Tables.{standing_rules, space_rules, time_rules};
ghost use Rattle.sect_moment.specs.FreeTimes.{meets_free, first_free as first_free_time};

use crate::ground::Ground;
use crate::lent::LentWant;
use crate::moment::Moment;
use crate::reserved::limited;
use sect_base::{ConfigId, CourseId, Level, Meeting, Rule, SectionId, Sections, overlaps};
use sect_catalog::{OfferingRow, SectionRow};
use sect_people::{Ask, Student};
use sect_reserve::{Reservation, admits_section};

/// Whether the meetings overlap the time that the request keeps free.
fn meets_ask(meetings: &[Meeting], ask: &Ask) -> bool
    ensures { result ≡ meets_free meetings.now ask.now }
{
    match ask {
        Ask::Course(_) => false,
        Ask::Free(meeting) => overlaps_one(meetings, meeting),
    }
}

/// Whether one of the meetings overlaps this one.
fn overlaps_one(meetings: &[Meeting], meeting: &Meeting) -> bool
    ensures { result ≡ lists_overlap meetings.now (meeting.now ∷ []) }
{
    meetings.iter().any(|other| overlaps(other, meeting))
}

/// The position of the first free time before the rank that the meetings overlap, where the first
/// of these requests has this position.
fn first_free(meetings: &[Meeting], rank: u32, first: u32, asks: &[Ask]) -> Option<u32>
    ensures { result ≡ first_free_time meetings.now rank first asks.now }
{
    let mut number = first;
    for ask in asks {
        if rank <= number {
            return None;
        }
        if meets_ask(meetings, ask) {
            return Some(number);
        }
        number += 1;
    }
    None
}

/// The position of the student's first free time before the rank that the meetings overlap. Where no time is to be kept free,
/// no request is looked at.
fn free_before(meetings: &[Meeting], rank: u32, person: &Student) -> Option<u32>
    ensures { result ≡ first_free_time meetings.now rank 1 person.now.asks }
{
    if person.keeps_free() {
        first_free(meetings, rank, 1, person.asks())
    } else {
        None
    }
}

/// Whether the list is empty, or has the section.
fn is_asked(only: &[SectionId], section: SectionId) -> bool
    ensures { result ≡ empty_or_any (λ o. o.0 == section.0) only.now }
{
    only.is_empty() || only.contains(&section)
}

/// The sections with one more.
fn with(sections: &Sections, section: SectionId) -> Sections
    requires { length sections.now < 6 }
    ensures { result ≡ sections.now ++ section ∷ [] }
{
    let mut all = *sections;
    all.push(section);
    all
}

/// Whether the section has a parent that isn't among those chosen.
fn lacks(sections: &[SectionId], row: &SectionRow) -> bool
    ensures { result ≡ not (has_parent sections.now row.now) }
{
    match row.parent {
        Some(parent) => !sections.contains(&parent),
        None => false,
    }
}

impl Moment<'_> {
    /// Whether there is a reservation, and it doesn't admit the section in the next subpart.
    fn excludes_section(
        &self,
        r: Option<&Reservation>,
        offering: &OfferingRow,
        course: CourseId,
        config: ConfigId,
        sections: &[SectionId],
        section: SectionId,
    ) -> bool
        requires { offering_of self.now.at course ≡ Some offering.now }
        ensures { result ≡ option_map_or (λ r. option_map_or (λ p. not (has_section r.includes p.id section))
            (next_subpart self.now.at course config sections.now) false) (option_copied r.entry) false }
    {
        match r {
            Some(r) => match self.subparts(offering, course, config).get(sections.len()) {
                Some(subpart) => !admits_section(&r.includes, subpart.id, section),
                None => false,
            },
            None => false,
        }
    }

    /// Whether restrictions apply, and none of them admits the sections with this one. Where there are none, the sections
    /// aren't put together.
    fn restricts_section(
        &self,
        ground: &Ground,
        course: CourseId,
        config: ConfigId,
        sections: &Sections,
        section: SectionId,
    ) -> bool
        requires ground { IsGround self.now.at course ground.now }
        requires offering { offering_of self.now.at course ≡ Some ground.now.offering.now }
        requires bound { length sections.now < 6 }
        ensures { result ≡ restricted_by (subparts_of self.now.at course config) config (sections.now ++ section ∷ [])
            (restrictions_for self.now.at self.now.student course ground.now.offering.now.id) }
    {
        if ground.restrictions.is_empty() {
            return false;
        }
        let all = with(sections, section);
        self.is_restricted(
            ground.offering,
            ground.restrictions,
            course,
            config,
            all.as_slice(),
        )
    }

    /// The least position of a free time before the rank that the section of these meetings meets.
    fn least_free(&self, rank: u8, section: SectionId, meetings: &[Meeting]) -> Option<u32>
        requires { meetings.now ≡ meetings_of self.now.at section }
        ensures { result ≡ least (map (λ f. f.0) (filter (λ f. meets_at self.now.at section f.1) (free_times self.now.at self.now.student rank))) }
    {
        free_before(meetings, u32::from(rank), self.person())
    }

    /// Whether the section of this row has a parent that isn't among those chosen.
    fn lacks_parent(&self, sections: &[SectionId], row: &SectionRow) -> bool
        requires { IsSection self.now.at row.now }
        ensures { result ≡ option_map_or (λ row. not (has_parent sections.now row)) (find_section self.now.at.catalogue.rows row.now.id) false }
    {
        let _ = self.student();
        lacks(sections, row)
    }

    /// The places of the section of this row, None where it has no limit.
    fn section_places(&self, row: &SectionRow) -> Option<u64>
        requires { IsSection self.now.at row.now }
        ensures { result ≡ places_at self.now.at (Section row.now.id) }
    {
        let _ = self.student();
        limited(row.limit)
    }

    /// When the section of this row meets.
    fn section_meetings<'b>(&self, row: &'b SectionRow) -> &'b [Meeting]
        requires { IsSection self.now.at row.now }
        ensures { result.now ≡ meetings_of self.now.at row.now.id }
    {
        let _ = self.student();
        row.meetings.as_slice()
    }

    /// The first rule on where a section stands.
    fn standing_rule(
        &self,
        ground: &Ground,
        course: CourseId,
        r: Option<&Reservation>,
        config: ConfigId,
        sections: &Sections,
        row: &SectionRow,
    ) -> Option<(Rule, u32)>
        requires ground { IsGround self.now.at course ground.now }
        requires offering { offering_of self.now.at course ≡ Some ground.now.offering.now }
        requires bound { length sections.now < 6 }
        requires row { IsSection self.now.at row.now }
        ensures { result ≡ first_broken (standing_rules self.now.at self.now.student
            ground.now.offering.now course (option_copied r.entry) config sections.now row.now.id) }
    {
        let section = row.id;
        let earlier = sections.as_slice();
        if self.excludes_section(r, ground.offering, course, config, earlier, section) {
            return Some((Rule::NotIncluded, section.0));
        }
        if self.restricts_section(ground, course, config, sections, section) {
            return Some((Rule::Restricted, section.0));
        }
        if self.catalogue().is_cancelled(section) {
            return Some((Rule::Cancelled, section.0));
        }
        if self.lacks_parent(earlier, row) {
            return Some((Rule::Parent, section.0));
        }
        None
    }

    /// The first rule on the places of a section of this offering.
    fn space_rule(
        &self,
        ground: &Ground,
        r: Option<&Reservation>,
        row: &SectionRow,
    ) -> Option<(Rule, u32)>
        requires rows { ground.now.reservations.now ≡ reservations_of self.now.at ground.now.offering.now.id }
        requires own { IsTrue (are_own self.now.at ground.now.offering.now.id (Section row.now.id)) }
        requires row { IsSection self.now.at row.now }
        ensures { result ≡ first_broken (space_rules self.now.at (option_copied r.entry) row.now.id) }
    {
        let section = row.id;
        let closed = self.closed(
            ground.offering.id,
            ground.reservations,
            r,
            Level::Section(section),
            self.section_places(row),
        );
        if closed.full {
            return Some((Rule::SectionFull, section.0));
        }
        if closed.reserved {
            return Some((Rule::SectionReserved, section.0));
        }
        None
    }

    /// The first rule on when a section meets, and on what is asked for.
    fn time_rule(
        &self,
        want: &LentWant,
        r: Option<&Reservation>,
        earlier: &[SectionId],
        row: &SectionRow,
    ) -> Option<(Rule, u32)>
        requires { IsSection self.now.at row.now }
        ensures { result ≡ first_broken (time_rules self.now.at self.now.student want.now (option_copied r.entry) earlier.now row.now.id) }
    {
        let section = row.id;
        let meetings = self.section_meetings(row);
        if let Some(number) = self.least_overlap(r, earlier, section, meetings) {
            return Some((Rule::Overlap, number));
        }
        if let Some(number) = self.least_free(want.rank(), section, meetings) {
            return Some((Rule::FreeTime, number));
        }
        if !is_asked(want.only(), section) {
            return Some((Rule::NotAsked, section.0));
        }
        None
    }

    /// The first rule that the choice of a section breaks, with its number.
    pub fn section_rule(
        &self,
        want: &LentWant,
        ground: &Ground,
        course: CourseId,
        r: Option<&Reservation>,
        config: ConfigId,
        sections: &Sections,
        row: &SectionRow,
    ) -> Option<(Rule, u32)>
        requires ground { IsGround self.now.at course ground.now }
        requires offering { offering_of self.now.at course ≡ Some ground.now.offering.now }
        requires own { IsTrue (own_section self.now.at course config sections.now row.now.id) }
        requires row { IsSection self.now.at row.now }
        ensures { result ≡ first_broken (section_rules self.now.at self.now.student want.now
            ground.now.offering.now course (option_copied r.entry) config sections.now row.now.id) }
    {
        self.recall_kept();
        if let Some(rule) = self.standing_rule(ground, course, r, config, sections, row) {
            return Some(rule);
        }
        if let Some(rule) = self.space_rule(ground, r, row) {
            return Some(rule);
        }
        self.time_rule(want, r, sections.as_slice(), row)
    }
}
