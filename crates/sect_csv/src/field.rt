// The fields of a row.

ghost use Rattle.std.specs.Prelude.{◌≡◌, ◌++◌, OnOk};
ghost use Rattle.sect_csv.specs.Fields.{field_text};

use sect_base::{ConfigId, CourseId, Curriculum, Day, GroupId, Limit, Meeting, Memory, SectionId};
use sect_catalog::CourseRow;
use sect_reserve::{Audience, Place};
use sect_words::{Spelled, print_list, print_number, print_text};

/// A field of a row.
#[derive(Clone, Copy)]
pub(crate) enum Field<'a> {
    Name(&'a str),
    Number(u64),
    /// A section, or a dash for none.
    Parent(Option<SectionId>),
    Places(Limit),
    /// 1 for yes and 0 for no.
    Flag(bool),
    /// A day, or a dash for none.
    Date(Option<Day>),
    Courses(&'a [CourseRow]),
    Meets(Meeting),
    Times(&'a [Meeting]),
    Groups(&'a [GroupId]),
    Curricula(&'a [Curriculum]),
    /// The courses of a request.
    Any(&'a [CourseId]),
    /// Whom a reservation is for.
    For(&'a Audience),
    Configs(&'a [ConfigId]),
    Sections(&'a [Place]),
}

/// Appends a field. After `Memory` a part of it may stand at the end.
pub(crate) fn print_field(field: &Field, into: &mut Vec<u8>) -> Result<(), Memory>
    ensures { OnOk result (into.new.items ≡ into.old.items ++ field_text field.now) }
{
    match field {
        Field::Name(name) => print_text(name, into),
        Field::Number(number) => print_number(*number, into),
        Field::Parent(section) => section.print(into),
        Field::Places(limit) => limit.print(into),
        Field::Flag(true) => print_text("1", into),
        Field::Flag(false) => print_text("0", into),
        Field::Date(day) => day.print(into),
        Field::Courses(rows) => print_list(b'+', rows, into),
        Field::Meets(meeting) => meeting.print(into),
        Field::Times(meetings) => print_list(b'+', meetings, into),
        Field::Groups(ids) => print_list(b'+', ids, into),
        Field::Curricula(rows) => print_list(b';', rows, into),
        Field::Any(ids) => print_list(b'+', ids, into),
        Field::For(audience) => audience.print(into),
        Field::Configs(ids) => print_list(b'+', ids, into),
        Field::Sections(places) => print_list(b'+', places, into),
    }
}
