// Prints forms.

ghost use Rattle.std.specs.Prelude.{◌≡◌, ◌++◌, OnOk, codes, decimal};
ghost use Rattle.sect_check.specs.Expected.{form_text, command_shape};

use crate::form::Form;
use sect_base::Memory;
use sect_read::Verb;
use sect_words::{print_number, print_text};

/// Appends the words of this command.
#[tactic(auto, unfolding(crate::specs::Expected::command_shape))]
fn print_shape(verb: Verb, into: &mut Vec<u8>) -> Result<(), Memory>
    ensures { OnOk result (into.new.items ≡ into.old.items ++ command_shape verb) }
{
    match verb {
        Verb::Offering => print_text(
            "offering ID course ID LIMIT CREDITS .. config ID LIMIT subpart ID section ID LIMIT PARENT MEETINGS ..",
            into,
        ),
        Verb::Student => print_text(
            "student ID max N [group ID ..] [curriculum AREA:CLASS:MAJORS ..]",
            into,
        ),
        Verb::Requests => print_text(
            "requests STUDENT [course IDS [wait] [substitute] | free MEETING ..]",
            into,
        ),
        Verb::Reserve => print_text(
            "reserve ID OFFERING AUDIENCE LIMIT EXPIRY [from DAY] [config ID ..] [section ID ..] [over] [overlap] [must]",
            into,
        ),
        Verb::Unreserve => print_text("unreserve ID", into),
        Verb::Expire => print_text("expire ID EXPIRY", into),
        Verb::Restrict => print_text(
            "restrict ID OFFERING AUDIENCE [config ID ..] [section ID ..]",
            into,
        ),
        Verb::Unrestrict => print_text("unrestrict ID", into),
        Verb::Limit => print_text("limit course|config|section ID LIMIT", into),
        Verb::Cancel => print_text("cancel SECTION", into),
        Verb::Enrol => print_text("enrol STUDENT IDS [only IDS] [rank N] [budget N]", into),
        Verb::Drop => print_text("drop STUDENT COURSE", into),
        Verb::Swap => print_text(
            "swap STUDENT [give COURSE ..] [take IDS [only IDS] [rank N] ..] [budget N]",
            into,
        ),
        Verb::Wait => print_text(
            "wait STUDENT IDS [only IDS] [rank N] [give COURSE] [class N]",
            into,
        ),
        Verb::Unwait => print_text("unwait STUDENT TICKET", into),
        Verb::Batch => print_text("batch IDS", into),
    }
}

/// Appends a number from 1 to this one, in words.
fn print_most(most: u32, into: &mut Vec<u8>) -> Result<(), Memory>
    ensures { OnOk result (into.new.items ≡ into.old.items ++ (codes "a number from 1 to " ++ decimal most)) }
{
    print_text("a number from 1 to ", into)?;
    print_number(most, into)
}

/// Appends the end of this command, in words.
fn print_end(verb: Verb, into: &mut Vec<u8>) -> Result<(), Memory>
    ensures { OnOk result (into.new.items ≡ into.old.items ++ (codes "the end of the line, or a word in this order: " ++ command_shape verb)) }
{
    print_text("the end of the line, or a word in this order: ", into)?;
    print_shape(verb, into)
}

/// Appends the form in words. After `Memory` a part of it may stand at the end.
#[tactic(auto, unfolding(crate::specs::Expected::form_text))]
pub(crate) fn print_form(form: Form, into: &mut Vec<u8>) -> Result<(), Memory>
    ensures { OnOk result (into.new.items ≡ into.old.items ++ form_text form) }
{
    match form {
        Form::DayMark => print_text("@ and a day, as @2025-08-01", into),
        Form::Caller => print_text("r and a registrar's number, or s and a student's id", into),
        Form::Number => print_text(
            "a number of 64 bits, without a sign and without a zero in front",
            into,
        ),
        Form::Command => print_text(
            "a command: offering, student, requests, reserve, unreserve, expire, restrict, unrestrict, limit, cancel, enrol, drop, swap, wait, unwait or batch",
            into,
        ),
        Form::Id => print_text(
            "an id: a number of 32 bits, without a sign and without a zero in front",
            into,
        ),
        Form::Ids => print_text("ids joined by +, or - for none", into),
        Form::OptionalId => print_text("an id, or - for none", into),
        Form::Limit => print_text("a limit: a number of 32 bits, or - for no limit", into),
        Form::Credits => print_text("credits from 0 to 30", into),
        Form::MostCredits => print_text("the most credits, from 0 to 65535", into),
        Form::Day => print_text("a day, as 2025-08-01", into),
        Form::OptionalDay => print_text("a day, as 2025-08-01, or - for none", into),
        Form::Meeting => print_text(
            "a meeting: DAYS/HHMM-HHMM/WEEKS, as MW/0900-1015/1-15",
            into,
        ),
        Form::Meetings => print_text(
            "meetings DAYS/HHMM-HHMM/WEEKS joined by +, as MW/0900-1015/1-15, or - for none",
            into,
        ),
        Form::Audience => print_text(
            "students:IDS, group:ID, curriculum:AREA:CLASSES:MAJORS or course:ID",
            into,
        ),
        Form::Curriculum => print_text("a curriculum: AREA:CLASS:MAJORS", into),
        Form::UpTo(most) => print_most(most, into),
        Form::Max => print_text("max", into),
        Form::Level => print_text("course, config or section", into),
        Form::End(verb) => print_end(verb, into),
    }
}
