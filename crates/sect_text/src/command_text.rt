// Printing commands.

ghost use Rattle.std.specs.Prelude.{◌≡◌, ℕ, ◌++◌, ◌∷◌, [], OnOk, OnErr, length, take, codes, flat_map, false, decimal};
ghost use Rattle.sect_words.specs.Parts.{behind, sentence};
ghost use Rattle.sect_words.specs.Words.{limit_text, audience_text};
ghost use Rattle.sect_text.specs.Commands.{
  offering_words,
  student_words,
  ask_words,
  reserve_words,
  restrict_words,
  from_words,
  config_id_words,
  section_id_words,
  mark_words,
  cap_words,
  printed_want,
  give_words,
  take_words,
  optional_give_words,
  budget_words,
  class_words,
  command_text,
  command_words,
};

use crate::phrase::{
    Phrase, print_each, print_mark, print_named, print_pair, print_three, print_word,
};
use crate::want_text::{print_stated, print_wanted};
use sect_base::{Budget, Cap, CourseId, Day, Limit, Memory, OfferingId, StudentId, Want};
use sect_catalog::OfferingRow;
use sect_command::{Command, ReserveRow, RestrictRow};
use sect_people::StudentRow;
use sect_reserve::Audience;
use sect_words::{Spelled, print_bytes, put_bytes, put_marked};

/// The row of an offering, with its courses and its configurations.
fn print_offering(row: &OfferingRow, into: &mut Vec<u8>) -> Result<(), Memory>
    ensures text { OnOk result (into.new.items ≡ into.old.items ++ sentence (offering_words row.now)) }
    ensures front { take (length into.old.items) into.new.items ≡ into.old.items }
{
    row.id.0.print_named(b"offering", b' ', into)?;
    print_each(row.courses.as_slice(), into)?;
    print_each(row.configs.as_slice(), into)
}

/// A student's id and the most credits, all in one piece.
fn print_credits(row: &StudentRow, into: &mut Vec<u8>) -> Result<(), Memory>
    ensures text { OnOk result (into.new.items ≡ into.old.items
        ++ sentence (codes "student" ∷ decimal row.now.id.0 ∷ codes "max" ∷ decimal row.now.max_credits ∷ [])) }
    ensures front { take (length into.old.items) into.new.items ≡ into.old.items }
{
    let mut bytes = [0; 40];
    let start = put_marked(b' ', u32::from(row.max_credits), &mut bytes, 40);
    let start = put_bytes(b" max", &mut bytes, start);
    let start = put_marked(b' ', row.id.0, &mut bytes, start);
    let start = put_bytes(b"student", &mut bytes, start);
    print_bytes(&bytes[start..], into)
}

/// The row of a student, with its groups and its curricula.
fn print_student(row: &StudentRow, into: &mut Vec<u8>) -> Result<(), Memory>
    ensures text { OnOk result (into.new.items ≡ into.old.items ++ sentence (student_words row.now)) }
    ensures front { take (length into.old.items) into.new.items ≡ into.old.items }
{
    print_credits(row, into)?;
    print_each(row.groups.as_slice(), into)?;
    print_each(row.curricula.as_slice(), into)
}

/// The first day, where there is one.
fn print_from(first: Option<Day>, into: &mut Vec<u8>) -> Result<(), Memory>
    ensures text { OnOk result (into.new.items ≡ into.old.items ++ behind 32 (from_words first)) }
    ensures front { take (length into.old.items) into.new.items ≡ into.old.items }
{
    match first {
        Some(day) => print_named(b"from", &day, into),
        None => Ok(()),
    }
}

/// What is allowed beyond the limits, and whether it must be used.
fn print_permissions(row: &ReserveRow, into: &mut Vec<u8>) -> Result<(), Memory>
    ensures text { OnOk result (into.new.items ≡ into.old.items
        ++ behind 32 (mark_words (codes "over") row.now.over
        ++ (mark_words (codes "overlap") row.now.overlap ++ mark_words (codes "must") row.now.must))) }
    ensures front { take (length into.old.items) into.new.items ≡ into.old.items }
{
    print_mark(b"over", row.over, into)?;
    print_mark(b"overlap", row.overlap, into)?;
    print_mark(b"must", row.must, into)
}

/// The first day, what the reservation lists and what it permits.
fn print_terms(row: &ReserveRow, into: &mut Vec<u8>) -> Result<(), Memory>
    ensures text { OnOk result (into.new.items ≡ into.old.items
        ++ behind 32 (from_words row.now.first ++
        (flat_map config_id_words row.now.configs ++ (flat_map section_id_words row.now.sections
        ++ (mark_words (codes "over") row.now.over ++ (mark_words (codes "overlap") row.now.overlap ++ mark_words (codes "must") row.now.must)))))) }
    ensures front { take (length into.old.items) into.new.items ≡ into.old.items }
{
    print_from(row.first, into)?;
    print_each(row.configs.as_slice(), into)?;
    print_each(row.sections.as_slice(), into)?;
    print_permissions(row, into)
}

/// The id of a reservation or a restriction, its offering and its audience.
fn print_subject(
    id: u32,
    offering: OfferingId,
    audience: &Audience,
    into: &mut Vec<u8>,
) -> Result<(), Memory>
    ensures text { OnOk result (into.new.items ≡ into.old.items ++ behind 32 (decimal id ∷ decimal offering.0 ∷ audience_text audience.now ∷ [])) }
    ensures front { take (length into.old.items) into.new.items ≡ into.old.items }
{
    print_word(&id, into)?;
    print_word(&offering.0, into)?;
    print_word(audience, into)
}

/// The row of a reservation.
fn print_reserve(row: &ReserveRow, into: &mut Vec<u8>) -> Result<(), Memory>
    ensures text { OnOk result (into.new.items ≡ into.old.items ++ sentence (reserve_words row.now)) }
    ensures front { take (length into.old.items) into.new.items ≡ into.old.items }
{
    print_bytes(b"reserve", into)?;
    print_subject(row.id.0, row.offering, &row.audience, into)?;
    print_word(&row.limit, into)?;
    print_word(&row.expiry, into)?;
    print_terms(row, into)
}

/// The row of a restriction.
fn print_restrict(row: &RestrictRow, into: &mut Vec<u8>) -> Result<(), Memory>
    ensures text { OnOk result (into.new.items ≡ into.old.items ++ sentence (restrict_words row.now)) }
    ensures front { take (length into.old.items) into.new.items ≡ into.old.items }
{
    print_bytes(b"restrict", into)?;
    print_subject(row.id.0, row.offering, &row.audience, into)?;
    print_each(row.configs.as_slice(), into)?;
    print_each(row.sections.as_slice(), into)
}

/// A level and its id.
fn print_cap(cap: &Cap, into: &mut Vec<u8>) -> Result<(), Memory>
    ensures text { OnOk result (into.new.items ≡ into.old.items ++ behind 32 (cap_words cap.now)) }
    ensures front { take (length into.old.items) into.new.items ≡ into.old.items }
{
    match cap {
        Cap::Course(id) => print_named(b"course", &id.0, into),
        Cap::Config(id) => print_named(b"config", &id.0, into),
        Cap::Section(id) => print_named(b"section", &id.0, into),
    }
}

/// The budget, where it is not the default.
fn print_budget(budget: Budget, into: &mut Vec<u8>) -> Result<(), Memory>
    ensures text { OnOk result (into.new.items ≡ into.old.items ++ behind 32 (budget_words false budget)) }
    ensures front { take (length into.old.items) into.new.items ≡ into.old.items }
{
    print_stated(b"budget", 2000, budget.get(), into)
}

/// The command that enrols a student.
fn print_enrol(
    student: StudentId,
    want: &Want,
    budget: Budget,
    into: &mut Vec<u8>,
) -> Result<(), Memory>
    ensures text { OnOk result (into.new.items ≡ into.old.items
        ++ sentence (codes "enrol" ∷ decimal student.0 ∷ printed_want want.now ++ budget_words false budget)) }
    ensures front { take (length into.old.items) into.new.items ≡ into.old.items }
{
    print_wanted(b"enrol", student, want, into)?;
    print_budget(budget, into)
}

/// The command that gives courses up and takes others.
fn print_swap(
    student: StudentId,
    given: &[CourseId],
    taken: &[Want],
    budget: Budget,
    into: &mut Vec<u8>,
) -> Result<(), Memory>
    ensures text { OnOk result (into.new.items ≡ into.old.items
        ++ sentence (codes "swap" ∷ decimal student.0 ∷ flat_map give_words given.now
        ++ (flat_map take_words taken.now ++ budget_words false budget))) }
    ensures front { take (length into.old.items) into.new.items ≡ into.old.items }
{
    student.print_named(b"swap", b' ', into)?;
    print_each(given, into)?;
    print_each(taken, into)?;
    print_budget(budget, into)
}

/// The command that puts a student on the wait-list.
fn print_wait(
    student: StudentId,
    want: &Want,
    give: Option<CourseId>,
    class: u8,
    into: &mut Vec<u8>,
) -> Result<(), Memory>
    ensures text { OnOk result (into.new.items ≡ into.old.items
        ++ sentence (codes "wait" ∷ decimal student.0 ∷ printed_want want.now
        ++ (optional_give_words give ++ class_words false class))) }
    ensures front { take (length into.old.items) into.new.items ≡ into.old.items }
{
    print_wanted(b"wait", student, want, into)?;
    print_give(give, into)?;
    print_stated(b"class", 5, u32::from(class), into)
}

/// The course that is given up, where there is one.
fn print_give(give: Option<CourseId>, into: &mut Vec<u8>) -> Result<(), Memory>
    ensures text { OnOk result (into.new.items ≡ into.old.items ++ behind 32 (optional_give_words give)) }
    ensures front { take (length into.old.items) into.new.items ≡ into.old.items }
{
    match give {
        Some(course) => course.print_words(into),
        None => Ok(()),
    }
}

/// The command that sets a limit.
fn print_limit(cap: &Cap, limit: Limit, into: &mut Vec<u8>) -> Result<(), Memory>
    ensures text { OnOk result (into.new.items ≡ into.old.items ++ sentence (codes "limit" ∷ cap_words cap.now ++ (limit_text limit ∷ []))) }
    ensures front { take (length into.old.items) into.new.items ≡ into.old.items }
{
    print_bytes(b"limit", into)?;
    print_cap(cap, into)?;
    print_word(&limit, into)
}

/// Appends the text of a command. After `Memory` a part of it may stand at the end.
pub(crate) fn print_verb(command: &Command, into: &mut Vec<u8>) -> Result<(), Memory>
    ensures text { OnOk result (into.new.items ≡ into.old.items ++ command_text command.now) }
    ensures front { take (length into.old.items) into.new.items ≡ into.old.items }
{
    match command {
        Command::Offering(row) => print_offering(row, into),
        Command::Student(row) => print_student(row, into),
        Command::Requests { student, asks } => {
            student.print_named(b"requests", b' ', into)?;
            print_each(asks.as_slice(), into)
        }
        Command::Reserve(row) => print_reserve(row, into),
        Command::Unreserve(id) => print_pair(b"unreserve", id, into),
        Command::Expire {
            reservation,
            expiry,
        } => print_three(b"expire", reservation, expiry, into),
        Command::Restrict(row) => print_restrict(row, into),
        Command::Unrestrict(id) => print_pair(b"unrestrict", &id.0, into),
        Command::SetLimit { cap, limit } => print_limit(cap, *limit, into),
        Command::Cancel(id) => print_pair(b"cancel", id, into),
        Command::Enrol {
            student,
            want,
            budget,
        } => print_enrol(*student, want, *budget, into),
        Command::Drop { student, course } => print_three(b"drop", student, course, into),
        Command::Swap {
            student,
            give,
            take,
            budget,
        } => print_swap(*student, give.as_slice(), take.as_slice(), *budget, into),
        Command::Wait {
            student,
            want,
            give,
            class,
        } => print_wait(*student, want, *give, *class, into),
        Command::Unwait { student, ticket } => print_three(b"unwait", student, ticket, into),
        Command::Batch { students } => print_pair(b"batch", students, into),
    }
}

/// Appends the text of a command. What has a default is left out where it is the default. It takes memory.
/// After `Memory` the bytes are as before.
pub fn print_command(command: &Command, into: &mut Vec<u8>) -> Result<(), Memory>
    ensures text { OnOk result (into.new.items ≡ into.old.items ++ command_text command.now) }
    ensures memory { OnErr result (into.new.items ≡ into.old.items) }
{
    let before = into.len();
    let printed = print_verb(command, into);
    if printed.is_err() {
        into.truncate(before);
    }
    printed
}
