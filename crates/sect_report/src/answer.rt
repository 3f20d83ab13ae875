// The report of a query.

ghost use Rattle.std.specs.Prelude.{◌≡◌, ◌++◌, OnOk, OnErr};
ghost use Rattle.sect_report.specs.Answer.{report_text};
ghost use Rattle.sect_report.specs.Report.{unknown_text};

use crate::line::{Word, print_line};
use crate::printed::{Printed, print_list};
use sect_base::Memory;
use sect_command::{Query, View};

/// Appends the report of a query: the lines of the view that answers it. A view of another kind has no lines.
/// It takes the memory of the text. After `Memory` the bytes are as before.
pub fn report(query: &Query, view: &View, into: &mut Vec<u8>) -> Result<(), Memory>
    ensures text { OnOk result (into.new.items ≡ into.old.items ++ report_text query.now view.now) }
    ensures memory { OnErr result (into.new.items ≡ into.old.items) }
{
    match (query, view) {
        (Query::Roll(_), View::Roll(roll)) => roll.print(into),
        (Query::Roll(_), View::Unknown(id)) => print_unknown("section", *id, into),
        (Query::Open(_), View::Open(open)) => open.print(into),
        (Query::Open(_), View::Unknown(id)) => print_unknown("offering", *id, into),
        (Query::Schedule(_), View::Schedule(schedule)) => schedule.print(into),
        (Query::Schedule(_), View::Unknown(id)) => print_unknown("student", *id, into),
        (Query::Waiting, View::Waiting(entries)) => print_list(entries.as_slice(), into),
        (Query::Unmet, View::Unmet(asks)) => print_list(asks.as_slice(), into),
        _ => Ok(()),
    }
}

/// Appends the line of an id that nothing of the kind has. After `Memory` the bytes are as before.
pub fn print_unknown(kind: &str, id: u32, into: &mut Vec<u8>) -> Result<(), Memory>
    ensures text { OnOk result (into.new.items ≡ into.old.items ++ unknown_text kind.now id) }
    ensures memory { OnErr result (into.new.items ≡ into.old.items) }
{
    let words = [
        Word::Name(kind),
        Word::Number(u64::from(id)),
        Word::Name("unknown"),
    ];
    print_line(&words, into)
}
