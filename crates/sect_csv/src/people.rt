// The rows of students, of their requests and of reservations.

ghost use Rattle.std.specs.Prelude.{◌≡◌, ◌++◌, OnOk};
ghost use Rattle.std.specs.List.{flat_map};
ghost use Rattle.sect_csv.specs.Tables.{ask_fields, asks_text, reservation_fields, student_fields, written};

use crate::field::Field;
use crate::sheet::Sheet;
use sect_base::{Memory, StudentId};
use sect_command::AsksView;
use sect_people::{Ask, StudentRow};
use sect_reserve::Reservation;

/// Writes the rows of students.
pub(crate) fn write_students(rows: &[StudentRow], sheet: &mut Sheet) -> Result<(), Memory>
    ensures { OnOk result (sheet.new ≡ sheet.old ++ flat_map (λ s. written (student_fields s)) rows.now) }
{
    for row in rows {
        write_student(row, sheet)?;
    }
    Ok(())
}

/// Writes the row of a student.
fn write_student(student: &StudentRow, sheet: &mut Sheet) -> Result<(), Memory>
    ensures { OnOk result (sheet.new ≡ sheet.old ++ written (student_fields student.now)) }
{
    sheet.write(&[
        Field::Number(u64::from(student.id.0)),
        Field::Number(u64::from(student.max_credits)),
        Field::Groups(student.groups.as_slice()),
        Field::Curricula(student.curricula.as_slice()),
    ])
}

/// Writes the rows of students' requests, by position.
pub(crate) fn write_requests(rows: &[AsksView], sheet: &mut Sheet) -> Result<(), Memory>
    ensures { OnOk result (sheet.new ≡ sheet.old ++ flat_map (λ v. asks_text v.student 1 v.asks) rows.now) }
{
    for row in rows {
        write_asks(row.student, row.asks.as_slice(), sheet)?;
    }
    Ok(())
}

/// Writes the rows of a student's requests, by position.
fn write_asks(student: StudentId, asks: &[Ask], sheet: &mut Sheet) -> Result<(), Memory>
    ensures { OnOk result (sheet.new ≡ sheet.old ++ asks_text student 1 asks.now) }
{
    for at in 0..asks.len() {
        write_ask(student, at as u64 + 1, &asks[at], sheet)?;
    }
    Ok(())
}

/// Writes the row of a request at this position.
fn write_ask(student: StudentId, rank: u64, ask: &Ask, sheet: &mut Sheet) -> Result<(), Memory>
    ensures { OnOk result (sheet.new ≡ sheet.old ++ written (ask_fields student rank ask.now)) }
{
    match ask {
        Ask::Course(asked) => sheet.write(&[
            Field::Number(u64::from(student.0)),
            Field::Number(rank),
            Field::Name("course"),
            Field::Any(asked.courses.as_slice()),
            Field::Flag(asked.wait),
            Field::Flag(asked.substitute),
        ]),
        Ask::Free(meeting) => sheet.write(&[
            Field::Number(u64::from(student.0)),
            Field::Number(rank),
            Field::Name("free"),
            Field::Meets(*meeting),
            Field::Name("0"),
            Field::Name("0"),
        ]),
    }
}

/// Writes the rows of reservations.
pub(crate) fn write_reservations(rows: &[Reservation], sheet: &mut Sheet) -> Result<(), Memory>
    ensures { OnOk result (sheet.new ≡ sheet.old ++ flat_map (λ r. written (reservation_fields r)) rows.now) }
{
    for row in rows {
        write_reservation(row, sheet)?;
    }
    Ok(())
}

/// Writes the row of a reservation.
fn write_reservation(reservation: &Reservation, sheet: &mut Sheet) -> Result<(), Memory>
    ensures { OnOk result (sheet.new ≡ sheet.old ++ written (reservation_fields reservation.now)) }
{
    sheet.write(&[
        Field::Number(u64::from(reservation.id.0)),
        Field::Number(u64::from(reservation.offering.0)),
        Field::For(&reservation.audience),
        Field::Places(reservation.limit),
        Field::Date(reservation.expiry),
        Field::Configs(reservation.includes.configs.as_slice()),
        Field::Sections(reservation.includes.sections.as_slice()),
        Field::Flag(reservation.over),
        Field::Flag(reservation.overlap),
        Field::Flag(reservation.must),
        Field::Date(reservation.first),
    ])
}
