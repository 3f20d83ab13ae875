// What a request, its reply and the placements behind it name.
ghost use Rattle.std.specs.Prelude.{◌≡◌, ℕ};
ghost use Rattle.std.specs.List.{list_any};
ghost use Rattle.sect_machine.specs.Placed.{has_section};
ghost use Rattle.sect_model.specs.Choice.{lists_section};
ghost use Rattle.sect_clerk.specs.Log.{concerns_section, concerns_student};
ghost use Rattle.sect_clerk.specs.Naming.{
  audience_lists,
  command_names_section,
  command_names_student,
  caps_section,
  config_has,
  is_caller,
  line_takes,
  lists_student,
  offering_has,
  places_section,
  places_student,
  reply_takes,
  takes_section,
  wants_section,
};

use sect_base::{Caller, Cap, Choice, SectionId, StudentId, Want};
use sect_catalog::{ConfigRow, OfferingRow, SubpartRow};
use sect_command::{Command, Line, LineResult, Reply};
use sect_model::Placed;
use sect_once::Entry;
use sect_reserve::Audience;

/// Whether the request or a placement behind it names the student.
pub fn names_student(student: StudentId, entry: &Entry<Command, Reply>, placed: &[Placed]) -> bool
    ensures { (place : ℕ) → result ≡ concerns_student (record { place = place; entry = entry.now; placed = placed.now }) student }
{
    is_caller(student, entry.id.caller)
        || command_names_student(student, &entry.command)
        || places_student(student, placed)
}

/// Whether the request, its reply or a placement behind it names the section.
pub fn names_section(section: SectionId, entry: &Entry<Command, Reply>, placed: &[Placed]) -> bool
    ensures { (place : ℕ) → result ≡ concerns_section (record { place = place; entry = entry.now; placed = placed.now }) section }
{
    command_names_section(section, &entry.command)
        || reply_takes(section, &entry.reply)
        || places_section(section, placed)
}

/// Whether the student asks.
fn is_caller(student: StudentId, caller: Caller) -> bool
    ensures { result ≡ is_caller student caller }
{
    match caller {
        Caller::Registrar(_) => false,
        Caller::Student(id) => id.0 == student.0,
    }
}

/// Whether the student is listed.
fn lists_student(ids: &[StudentId], student: StudentId) -> bool
    ensures { result ≡ lists_student ids.now student }
{
    ids.iter().any(|id| id.0 == student.0)
}

/// Whether the audience lists the student.
fn audience_lists(student: StudentId, audience: &Audience) -> bool
    ensures { result ≡ audience_lists student audience.now }
{
    match audience {
        Audience::Students(ids) => lists_student(ids.as_slice(), student),
        _ => false,
    }
}

/// Whether the command names the student.
fn command_names_student(student: StudentId, command: &Command) -> bool
    ensures { result ≡ command_names_student student command.now }
{
    match command {
        Command::Student(row) => row.id.0 == student.0,
        Command::Reserve(row) => audience_lists(student, &row.audience),
        Command::Restrict(row) => audience_lists(student, &row.audience),
        Command::Batch { students } => lists_student(students.as_slice(), student),
        Command::Requests { student: id, .. }
        | Command::Enrol { student: id, .. }
        | Command::Drop { student: id, .. }
        | Command::Swap { student: id, .. }
        | Command::Wait { student: id, .. }
        | Command::Unwait { student: id, .. } => id.0 == student.0,
        _ => false,
    }
}

/// Whether one of the placements is the student's.
fn places_student(student: StudentId, placed: &[Placed]) -> bool
    ensures { result ≡ places_student student placed.now }
{
    placed.iter().any(|one| one.student.0 == student.0)
}

/// Whether the section is listed.
fn lists_section(ids: &[SectionId], section: SectionId) -> bool
    ensures { result ≡ lists_section ids.now section }
{
    ids.iter().any(|id| id.0 == section.0)
}

/// Whether the offering has the section.
fn offering_has(section: SectionId, row: &OfferingRow) -> bool
    ensures { result ≡ offering_has section row.now }
{
    row.configs
        .as_slice()
        .iter()
        .any(|config| config_has(section, config))
}

/// Whether the configuration has the section.
fn config_has(section: SectionId, row: &ConfigRow) -> bool
    ensures { result ≡ config_has section row.now }
{
    row.subparts
        .as_slice()
        .iter()
        .any(|subpart| has_section(section, subpart))
}

/// Whether the subpart has the section.
fn has_section(section: SectionId, row: &SubpartRow) -> bool
    ensures { result ≡ has_section section row.now }
{
    row.sections
        .as_slice()
        .iter()
        .any(|listed| listed.id.0 == section.0)
}

/// Whether the section is the one whose limit is set.
fn caps_section(section: SectionId, cap: Cap) -> bool
    ensures { result ≡ caps_section section cap }
{
    match cap {
        Cap::Section(id) => id.0 == section.0,
        _ => false,
    }
}

/// Whether the want lists the section.
fn wants_section(section: SectionId, want: &Want) -> bool
    ensures { result ≡ wants_section section want.now }
{
    lists_section(want.only.as_slice(), section)
}

/// Whether one of the wants lists the section.
fn one_wants_section(section: SectionId, wants: &[Want]) -> bool
    ensures { result ≡ list_any (wants_section section) wants.now }
{
    wants.iter().any(|want| wants_section(section, want))
}

/// Whether the command names the section.
fn command_names_section(section: SectionId, command: &Command) -> bool
    ensures { result ≡ command_names_section section command.now }
{
    match command {
        Command::Offering(row) => offering_has(section, row),
        Command::Reserve(row) => lists_section(row.sections.as_slice(), section),
        Command::Restrict(row) => lists_section(row.sections.as_slice(), section),
        Command::SetLimit { cap, .. } => caps_section(section, *cap),
        Command::Cancel(id) => id.0 == section.0,
        Command::Enrol { want, .. } | Command::Wait { want, .. } => wants_section(section, want),
        Command::Swap { take, .. } => one_wants_section(section, take.as_slice()),
        _ => false,
    }
}

/// Whether the choice takes the section.
fn takes_section(section: SectionId, choice: &Choice) -> bool
    ensures { result ≡ takes_section section choice.now }
{
    lists_section(choice.sections.as_slice(), section)
}

/// Whether the line of a batch takes the section.
fn line_takes(section: SectionId, line: &Line) -> bool
    ensures { result ≡ line_takes section line.now }
{
    match &line.result {
        LineResult::Met(choice) => takes_section(section, choice),
        _ => false,
    }
}

/// Whether one of the choices takes the section.
fn one_takes_section(section: SectionId, choices: &[Choice]) -> bool
    ensures { result ≡ list_any (takes_section section) choices.now }
{
    choices.iter().any(|choice| takes_section(section, choice))
}

/// Whether one of the lines of a batch takes the section.
fn one_line_takes(section: SectionId, lines: &[Line]) -> bool
    ensures { result ≡ list_any (line_takes section) lines.now }
{
    lines.iter().any(|line| line_takes(section, line))
}

/// Whether the reply takes the section.
fn reply_takes(section: SectionId, reply: &Reply) -> bool
    ensures { result ≡ reply_takes section reply.now }
{
    match reply {
        Reply::Enrolled(choice) | Reply::Placed(_, choice) => takes_section(section, choice),
        Reply::Swapped(choices) => one_takes_section(section, choices.as_slice()),
        Reply::Batched(lines) => one_line_takes(section, lines.as_slice()),
        _ => false,
    }
}

/// Whether one of the placements takes the section.
fn places_section(section: SectionId, placed: &[Placed]) -> bool
    ensures { result ≡ places_section section placed.now }
{
    placed.iter().any(|one| takes_section(section, &one.choice))
}
