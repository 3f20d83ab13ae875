// The headers of the tables.

ghost use Rattle.std.specs.Prelude.{◌≡◌, ◌≤◌, ◌<◌, ◌+◌, ◌-◌, ◌^◌, drop, length, map};
ghost use Rattle.csv.specs.Records.{fields_of};
ghost use Rattle.sect_tables.specs.Headers.{difference_from, first_difference, names_of, old_reservation_names};
ghost use Rattle.sect_tables.specs.Rows.{has_first as says_first, is_old_header};

use crate::hand::Header;
use csv::ByteRecord;
use sect_command::Table;
use sect_words::same_bytes;

/// The first field, from 1, in which a row differs from the header of a table. It takes no memory.
pub fn header_difference(table: Table, row: &ByteRecord) -> Option<u32>
    ensures { result ≡ first_difference (fields_of row.now) (names_of table) }
{
    match table {
        Table::Offerings => first_other(1, row, &OFFERINGS),
        Table::Students => first_other(1, row, &STUDENTS),
        Table::Requests => first_other(1, row, &REQUESTS),
        Table::Reservations => first_other(1, row, &RESERVATIONS),
    }
}

/// Whether a row is the old header of reservations. It takes no memory.
pub fn is_old(table: Table, row: &ByteRecord) -> bool
    ensures { result ≡ is_old_header table (fields_of row.now) }
{
    match table {
        Table::Reservations => first_other(1, row, &OLD_RESERVATIONS).is_none(),
        _ => false,
    }
}

/// Whether reservations under a header say their first day. It takes no memory.
pub fn has_first(header: Header) -> bool
    ensures { result ≡ says_first header }
{
    match header {
        Header::Whole => true,
        Header::WithoutFirst => false,
    }
}

const OFFERINGS: [&[u8]; 9] = [
    b"offering",
    b"courses",
    b"config",
    b"config_limit",
    b"subpart",
    b"section",
    b"limit",
    b"parent",
    b"meetings",
];

const STUDENTS: [&[u8]; 4] = [b"student", b"max_credits", b"groups", b"curricula"];

const REQUESTS: [&[u8]; 6] = [
    b"student",
    b"rank",
    b"kind",
    b"value",
    b"wait",
    b"substitute",
];

const RESERVATIONS: [&[u8]; 11] = [
    b"reservation",
    b"offering",
    b"audience",
    b"limit",
    b"expiry",
    b"configs",
    b"sections",
    b"over",
    b"overlap",
    b"must",
    b"first",
];

const OLD_RESERVATIONS: [&[u8]; 10] = [
    b"reservation",
    b"offering",
    b"audience",
    b"limit",
    b"expiry",
    b"configs",
    b"sections",
    b"over",
    b"overlap",
    b"must",
];

/// The first field of those from this number in which a row differs from names.
fn first_other(number: u32, row: &ByteRecord, names: &[&[u8]]) -> Option<u32>
    requires from_one { 1 ≤ number }
    requires room { number + length names.now < 2 ^ 32 }
    ensures { result ≡ difference_from number (drop (number - 1) (fields_of row.now)) (map (λ name. name.now) names.now) }
{
    let field = row.get(number as usize - 1);
    match (names, field) {
        ([], None) => None,
        ([name, others @ ..], Some(field)) if same_bytes(field, name) => {
            first_other(number + 1, row, others)
        }
        _ => Some(number),
    }
}
