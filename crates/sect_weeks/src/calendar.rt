// The slots of sections, taken in a calendar.

ghost use Rattle.std.specs.Prelude.{◌≡◌, ◌<◌, ℕ};
ghost use Rattle.sect_base.specs.Calendar.{is_set};
ghost use Rattle.sect_weeks.specs.Taken.{Adds, meetings_in, meetings_take, sections_take, enrolments_take};

use sect_base::{Calendar, Meeting, SectionId};
use sect_catalog::Catalogue;
use sect_model::Enrolment;

/// The calendar in which the slots of these enrolments are taken, and no others.
pub fn calendar_of(catalogue: &Catalogue, held: &[Enrolment]) -> Calendar
    ensures { (day slot : ℕ) → slot < 288 → is_set result day slot ≡ enrolments_take catalogue.now.rows held.now day slot }
{
    let mut calendar = Calendar::empty();
    for enrolment in held {
        let sections = enrolment.choice.sections.as_slice();
        add_sections(&mut calendar, catalogue, sections);
    }
    calendar
}

/// Takes the slots of each of these sections. One that is unknown has none.
pub fn add_sections(calendar: &mut Calendar, catalogue: &Catalogue, sections: &[SectionId])
    ensures { Adds calendar.old calendar.new (sections_take catalogue.now.rows sections.now) }
{
    for section in sections {
        add_section(calendar, catalogue, *section);
    }
}

/// Takes the slots of a section. One that is unknown has none.
fn add_section(calendar: &mut Calendar, catalogue: &Catalogue, section: SectionId)
    ensures { Adds calendar.old calendar.new (meetings_take (meetings_in catalogue.now.rows section)) }
{
    if let Some(row) = catalogue.section(section) {
        add_meetings(calendar, row.meetings.as_slice());
    }
}

/// Takes the slots of each of these meetings.
fn add_meetings(calendar: &mut Calendar, meetings: &[Meeting])
    ensures { Adds calendar.old calendar.new (meetings_take meetings.now) }
{
    for meeting in meetings {
        calendar.add(meeting);
    }
}
