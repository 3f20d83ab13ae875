// The least section that overlaps another one.

ghost use Rattle.std.specs.Prelude.{◌≡◌, ◌++◌, map, filter, cond, flat_map, option_copied, Some, None};
ghost use Rattle.std.specs.Prelude.{[], ◌||◌, false, IsTrue};
ghost use Rattle.std.specs.List.{list_any, All};
ghost use Rattle.std.specs.Option.{option_map_or};
ghost use Rattle.sect_base.specs.Pattern.{meetings_overlap, lists_overlap};
ghost use Rattle.sect_base.specs.Calendar.{IsClearFor};
ghost use Rattle.sect_model.specs.World.{meetings_of};
ghost use Rattle.sect_model.specs.Allowed.{permits_overlap as choice_permits};
ghost use Rattle.sect_model.specs.Rules.{least, held_overlaps, own_overlaps};
ghost use Rattle.sect_moment.specs.Moment.{is_given as given_up};
ghost use Rattle.sect_moment.specs.Overlapped.{lesser_of as lesser_option, is_lesser, overlapped, own_overlapped};

use crate::held::is_given;
use crate::moment::Moment;
use sect_base::{Calendar, Choice, CourseId, Meeting, SectionId, overlaps};
use sect_model::Enrolment;
use sect_reserve::Reservation;

/// Whether a meeting of the one overlaps a meeting of the other.
pub fn any_overlap(meetings: &[Meeting], others: &[Meeting]) -> bool
    ensures { result ≡ lists_overlap meetings.now others.now }
{
    meetings.iter().any(|meeting| overlaps_any(meeting, others))
}

/// Whether the meeting overlaps one of the others.
fn overlaps_any(meeting: &Meeting, others: &[Meeting]) -> bool
    ensures { result ≡ list_any (meetings_overlap meeting.now) others.now }
{
    others.iter().any(|other| overlaps(meeting, other))
}

/// Whether none of the meetings' slots is taken in the calendar, whatever their weeks are.
pub fn is_clear(calendar: &Calendar, meetings: &[Meeting]) -> bool
    ensures { IsTrue result → All (IsClearFor calendar.now) meetings.now }
{
    meetings.iter().all(|meeting| calendar.clear(meeting))
}

/// The lesser of two numbers, where there are any.
pub fn lesser_of(a: Option<u32>, b: Option<u32>) -> Option<u32>
    ensures { result ≡ lesser_option a b }
{
    match (a, b) {
        (None, later) => later,
        (Some(n), None) => Some(n),
        (Some(n), Some(m)) => Some(if n <= m { n } else { m }),
    }
}

/// The lesser of the least so far and the number, if this one counts.
pub fn lesser_if(so_far: Option<u32>, counts: bool, number: u32) -> Option<u32>
    ensures { result ≡ lesser_option so_far (cond counts (Some number) None) }
{
    if counts {
        lesser_of(so_far, Some(number))
    } else {
        so_far
    }
}

/// Whether the number is below the least so far, or is the first.
fn is_below(number: u32, so_far: Option<u32>) -> bool
    ensures { result ≡ is_lesser number so_far }
{
    match so_far {
        Some(least) => number < least,
        None => true,
    }
}

/// Whether there is a reservation, and it permits overlap.
pub fn is_overlapping(r: Option<&Reservation>) -> bool
    ensures { result ≡ option_map_or (λ r. r.overlap) (option_copied r.entry) false }
{
    match r {
        Some(r) => r.overlap,
        None => false,
    }
}

impl Moment<'_> {
    /// When a section meets.
    #[inline(always)]
    pub(crate) fn meetings(&self, section: SectionId) -> &[Meeting]
        ensures { result.now ≡ meetings_of self.now.at section }
    {
        match self.catalogue().section(section) {
            Some(row) => row.meetings.as_slice(),
            None => &[],
        }
    }

    /// Whether the choice is by a reservation that permits overlap.
    fn permits_overlap(&self, choice: &Choice) -> bool
        ensures { result ≡ choice_permits self.now.at choice.now }
    {
        match choice.reservation {
            Some(id) => is_overlapping(self.reservation(id)),
            None => false,
        }
    }

    /// The lesser of the least so far and this section, if the meetings overlap it. A section that isn't below the least so
    /// far isn't looked up.
    #[inline(always)]
    fn least_with(
        &self,
        meetings: &[Meeting],
        section: &SectionId,
        so_far: Option<u32>,
    ) -> Option<u32>
        ensures { result ≡ lesser_option so_far (cond (lists_overlap meetings.now (meetings_of self.now.at section.now)) (Some section.now.0) None) }
    {
        if is_below(section.0, so_far) && any_overlap(meetings, self.meetings(*section)) {
            Some(section.0)
        } else {
            so_far
        }
    }

    /// The least of the least so far and the sections that the meetings overlap.
    fn least_of(
        &self,
        meetings: &[Meeting],
        others: &[SectionId],
        so_far: Option<u32>,
    ) -> Option<u32>
        ensures { result ≡ lesser_option so_far (least (map (λ s. s.0) (filter (λ s. lists_overlap meetings.now (meetings_of self.now.at s)) others.now))) }
    {
        let mut least = so_far;
        for section in others {
            least = self.least_with(meetings, section, least);
        }
        least
    }

    /// The lesser of the least so far and this section, if it overlaps the meetings. A section that isn't below the least so
    /// far isn't looked up.
    #[inline(always)]
    fn before_with(
        &self,
        meetings: &[Meeting],
        section: &SectionId,
        so_far: Option<u32>,
    ) -> Option<u32>
        ensures { result ≡ lesser_option so_far (cond (lists_overlap (meetings_of self.now.at section.now) meetings.now) (Some section.now.0) None) }
    {
        if is_below(section.0, so_far) && any_overlap(self.meetings(*section), meetings) {
            Some(section.0)
        } else {
            so_far
        }
    }

    /// The least of the sections that overlap the meetings.
    fn least_before(&self, meetings: &[Meeting], others: &[SectionId]) -> Option<u32>
        ensures { result ≡ least (map (λ s. s.0) (filter (λ s. lists_overlap (meetings_of self.now.at s) meetings.now) others.now)) }
    {
        let mut least = None;
        for section in others {
            least = self.before_with(meetings, section, least);
        }
        least
    }

    /// The least of the least so far and the sections of the choice that the meetings overlap, where neither permits it.
    fn least_in(
        &self,
        permitted: bool,
        meetings: &[Meeting],
        choice: &Choice,
        so_far: Option<u32>,
    ) -> Option<u32>
        ensures { result ≡ lesser_option so_far (least (overlapped self.now.at permitted meetings.now choice.now)) }
    {
        if permitted || self.permits_overlap(choice) {
            return so_far;
        }
        self.least_of(meetings, choice.sections.as_slice(), so_far)
    }

    /// The least of the least so far and the sections of the enrolment that the meetings overlap, where it stays.
    fn least_where_kept(
        &self,
        permitted: bool,
        meetings: &[Meeting],
        give: &[CourseId],
        choice: &Choice,
        so_far: Option<u32>,
    ) -> Option<u32>
        ensures { result ≡ lesser_option so_far (least (cond (given_up give.now choice.now.course) [] (overlapped self.now.at permitted meetings.now choice.now))) }
    {
        if is_given(give, choice.course) {
            so_far
        } else {
            self.least_in(permitted, meetings, choice, so_far)
        }
    }

    /// The least section that the meetings overlap, of the enrolments that stay.
    pub(crate) fn least_kept(
        &self,
        permitted: bool,
        meetings: &[Meeting],
        give: &[CourseId],
        held: &[Enrolment],
    ) -> Option<u32>
        ensures { result ≡ least (flat_map (λ e. cond (given_up give.now e.choice.course) []
            (overlapped self.now.at permitted meetings.now e.choice)) held.now) }
    {
        let mut least = None;
        for e in held {
            least = self.least_where_kept(permitted, meetings, give, &e.choice, least);
        }
        least
    }

    /// The least section that the meetings overlap, of the choices made.
    pub(crate) fn least_made(
        &self,
        permitted: bool,
        meetings: &[Meeting],
        done: &[Choice],
    ) -> Option<u32>
        ensures { result ≡ least (flat_map (overlapped self.now.at permitted meetings.now) done.now) }
    {
        let mut least = None;
        for choice in done {
            least = self.least_in(permitted, meetings, choice, least);
        }
        least
    }

    /// The least section that overlaps the one of these meetings, held or chosen earlier, where it isn't permitted.
    pub(crate) fn least_overlap(
        &self,
        r: Option<&Reservation>,
        earlier: &[SectionId],
        section: SectionId,
        meetings: &[Meeting],
    ) -> Option<u32>
        requires { meetings.now ≡ meetings_of self.now.at section }
        ensures { result ≡ least (held_overlaps self.now.at self.now.student (option_copied r.entry) section
            ++ own_overlaps self.now.at (option_copied r.entry) earlier.now section) }
    {
        lesser_of(
            self.least_held(is_overlapping(r), meetings),
            self.least_own(r, earlier, meetings),
        )
    }

    /// The least of the earlier sections of this choice that overlap the meetings, where its
    /// reservation doesn't permit it.
    fn least_own(
        &self,
        r: Option<&Reservation>,
        earlier: &[SectionId],
        meetings: &[Meeting],
    ) -> Option<u32>
        ensures { result ≡ least (own_overlapped self.now.at (option_copied r.entry) earlier.now meetings.now) }
    {
        if is_overlapping(r) {
            return None;
        }
        self.least_before(meetings, earlier)
    }
}
