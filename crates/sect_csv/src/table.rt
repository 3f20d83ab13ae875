// The text of a table.

ghost use Rattle.std.specs.Prelude.{◌≡◌, ◌++◌, OnOk, OnErr, map};
ghost use Rattle.sect_csv.specs.Tables.{header, table_text, view_text, written};

use crate::catalog::write_offerings;
use crate::field::Field;
use crate::people::{write_requests, write_reservations, write_students};
use crate::sheet::Sheet;
use sect_base::Memory;
use sect_command::{Table, View};

/// Appends the CSV of a table: its header, and below it the rows of the view, which is the one of the query for the
/// table's rows. They stand in order of id because the view's do. A view of another kind has no rows. It takes the
/// memory of the text. After `Memory` the bytes are as before.
pub fn export(table: Table, view: &View, into: &mut Vec<u8>) -> Result<(), Memory>
    ensures text { OnOk result (into.new.items ≡ into.old.items ++ table_text table view.now) }
    ensures memory { OnErr result (into.new.items ≡ into.old.items) }
{
    let mut sheet = Sheet::new(*into.allocator());
    write_header(table, &mut sheet)?;
    write_view(view, &mut sheet)?;
    into.extend_from_slice(sheet.into_text()?.as_slice())?;
    Ok(())
}

/// Writes the names of a table's columns.
fn write_header(table: Table, sheet: &mut Sheet) -> Result<(), Memory>
    ensures { OnOk result (sheet.new ≡ sheet.old ++ written (header table)) }
{
    match table {
        Table::Offerings => sheet.write(&[
            Field::Name("offering"),
            Field::Name("courses"),
            Field::Name("config"),
            Field::Name("config_limit"),
            Field::Name("subpart"),
            Field::Name("section"),
            Field::Name("limit"),
            Field::Name("parent"),
            Field::Name("meetings"),
        ]),
        Table::Students => sheet.write(&[
            Field::Name("student"),
            Field::Name("max_credits"),
            Field::Name("groups"),
            Field::Name("curricula"),
        ]),
        Table::Requests => sheet.write(&[
            Field::Name("student"),
            Field::Name("rank"),
            Field::Name("kind"),
            Field::Name("value"),
            Field::Name("wait"),
            Field::Name("substitute"),
        ]),
        Table::Reservations => sheet.write(&[
            Field::Name("reservation"),
            Field::Name("offering"),
            Field::Name("audience"),
            Field::Name("limit"),
            Field::Name("expiry"),
            Field::Name("configs"),
            Field::Name("sections"),
            Field::Name("over"),
            Field::Name("overlap"),
            Field::Name("must"),
            Field::Name("first"),
        ]),
    }
}

/// Writes the rows of a view. One of another kind has none.
fn write_view(view: &View, sheet: &mut Sheet) -> Result<(), Memory>
    ensures { OnOk result (sheet.new ≡ sheet.old ++ view_text view.now) }
{
    match view {
        View::Offerings(rows) => write_offerings(rows.as_slice(), sheet),
        View::Students(rows) => write_students(rows.as_slice(), sheet),
        View::Requests(rows) => write_requests(rows.as_slice(), sheet),
        View::Reservations(rows) => write_reservations(rows.as_slice(), sheet),
        _ => Ok(()),
    }
}
