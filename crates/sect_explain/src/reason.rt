// What is said of a decision that breaks a rule.

ghost use Rattle.std.specs.Prelude.{◌≡◌, ◌++◌, OnOk, decimal, length, take};
ghost use Rattle.sect_base.specs.MeetingText.{meeting_text};
ghost use Rattle.sect_model.specs.World.{meetings_of};
ghost use Rattle.sect_words.specs.Words.{list_text};
ghost use Rattle.sect_explain.specs.Reason.{days_text, numbered, overlap_text, pick_text, reason_text};

use sect_base::{Memory, ReservationId, Rule, SectionId};
use sect_model::Pick;
use sect_space::World;
use sect_words::{Spelled, print_list, print_number, print_text};

/// Appends the decision. After `Memory` a part of it may stand at the end.
pub fn print_pick(pick: Pick, into: &mut Vec<u8>) -> Result<(), Memory>
    ensures text { OnOk result (into.new.items ≡ into.old.items ++ pick_text pick) }
    ensures front { take (length into.old.items) into.new.items ≡ into.old.items }
{
    match pick {
        Pick::Course(id) => print_named("course ", id.0, into),
        Pick::Reservation(None) => print_text("no reservation", into),
        Pick::Reservation(Some(id)) => print_named("reservation ", id.0, into),
        Pick::Config(id) => print_named("configuration ", id.0, into),
        Pick::Section(id) => print_named("section ", id.0, into),
    }
}

/// Appends a name and a number.
fn print_named(name: &str, number: u32, into: &mut Vec<u8>) -> Result<(), Memory>
    ensures text { OnOk result (into.new.items ≡ into.old.items ++ (name.now ++ decimal number)) }
    ensures front { take (length into.old.items) into.new.items ≡ into.old.items }
{
    print_text(name, into)?;
    print_number(number, into)
}

/// Appends words with a number between them.
fn print_numbered(before: &str, number: u32, behind: &str, into: &mut Vec<u8>) -> Result<(), Memory>
    ensures text { OnOk result (into.new.items ≡ into.old.items ++ numbered before.now number behind.now) }
    ensures front { take (length into.old.items) into.new.items ≡ into.old.items }
{
    print_text(before, into)?;
    print_number(number, into)?;
    print_text(behind, into)
}

/// Appends what the decision breaks, and a line feed. After `Memory` a part of it may stand at the end.
pub fn print_reason(
    world: &World,
    rule: Rule,
    number: u32,
    into: &mut Vec<u8>,
) -> Result<(), Memory>
    ensures text { OnOk result (into.new.items ≡ into.old.items ++ reason_text world.now.world rule number) }
    ensures front { take (length into.old.items) into.new.items ≡ into.old.items }
{
    match rule {
        Rule::InOffering => print_numbered(
            " is of offering ",
            number,
            ", of which a course is held (rule 1)\n",
            into,
        ),
        Rule::Credits => print_numbered(
            " would make ",
            number,
            " credits, above the maximum (rule 2)\n",
            into,
        ),
        Rule::NotApplicable => print_text(" is for other students (rule 3)\n", into),
        Rule::Expired => print_days(world, ReservationId(number), into),
        Rule::UsedUp => print_text(" is used up (rule 5)\n", into),
        Rule::MustUse => print_numbered(
            ", but reservation ",
            number,
            " must be used (rule 6)\n",
            into,
        ),
        Rule::CourseFull => print_numbered(", but course ", number, " is full (rule 7)\n", into),
        Rule::OfferingFull => print_numbered(
            ", but offering ",
            number,
            " is full (rule 8)\n",
            into,
        ),
        Rule::OfferingReserved => print_numbered(
            ", but what is left in offering ",
            number,
            " is reserved (rule 9)\n",
            into,
        ),
        Rule::ConfigFull => print_text(" is full (rule 10)\n", into),
        Rule::ConfigReserved => print_text(
            " has only places that are reserved for others (rule 11)\n",
            into,
        ),
        Rule::NotIncluded => print_text(" is not included in the reservation (rule 12)\n", into),
        Rule::Restricted => print_text(" is barred by restrictions (rule 13)\n", into),
        Rule::Cancelled => print_text(" is cancelled (rule 14)\n", into),
        Rule::Parent => print_text(" wants its parent, which was not chosen (rule 15)\n", into),
        Rule::SectionFull => print_text(" is full (rule 16)\n", into),
        Rule::SectionReserved => print_text(
            " has only places that are reserved for others (rule 17)\n",
            into,
        ),
        Rule::Overlap => print_overlap(world, SectionId(number), into),
        Rule::FreeTime => print_numbered(
            " meets in the free time of rank ",
            number,
            " (rule 19)\n",
            into,
        ),
        Rule::NotAsked => print_text(" is not asked for (rule 20)\n", into),
    }
}

/// Appends the first and the last day of a reservation.
fn print_days(world: &World, id: ReservationId, into: &mut Vec<u8>) -> Result<(), Memory>
    ensures text { OnOk result (into.new.items ≡ into.old.items ++ days_text world.now.world id) }
    ensures front { take (length into.old.items) into.new.items ≡ into.old.items }
{
    let (first, last) = match world.reservation(id) {
        Some(row) => (row.first, row.expiry),
        None => (None, None),
    };
    print_text(" is not in force: first day ", into)?;
    first.print(into)?;
    print_text(", last day ", into)?;
    last.print(into)?;
    print_text(" (rule 4)\n", into)
}

/// Appends the section that is in the way, with its meetings.
fn print_overlap(world: &World, id: SectionId, into: &mut Vec<u8>) -> Result<(), Memory>
    ensures text { OnOk result (into.new.items ≡ into.old.items ++ overlap_text world.now.world id) }
    ensures front { take (length into.old.items) into.new.items ≡ into.old.items }
{
    print_text(" overlaps section ", into)?;
    print_number(id.0, into)?;
    print_text(" at ", into)?;
    print_meetings(world, id, into)?;
    print_text(" (rule 18)\n", into)
}

/// Appends the meetings of a section.
fn print_meetings(world: &World, id: SectionId, into: &mut Vec<u8>) -> Result<(), Memory>
    ensures text { OnOk result (into.new.items ≡ into.old.items ++ list_text 43 meeting_text (meetings_of world.now.world id)) }
    ensures front { take (length into.old.items) into.new.items ≡ into.old.items }
{
    match world.catalogue().section(id) {
        Some(row) => print_list(b'+', row.meetings.as_slice(), into),
        None => print_text("-", into),
    }
}
