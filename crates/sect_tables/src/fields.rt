// The fields of a row.

ghost use Rattle.std.specs.Prelude.{◌≡◌};
ghost use Rattle.csv.specs.Records.{fields_of};
ghost use Rattle.sect_tables.specs.Fields.{field_of};

use csv::ByteRecord;

/// The bytes of the field with this number, from 1; nothing where there is none. It takes no memory.
#[tactic(auto, unfolding(crate::specs::Fields::field_of))]
pub fn field(row: &ByteRecord, number: usize) -> &[u8]
    ensures { result.now ≡ field_of (fields_of row.now) number }
{
    if number == 0 {
        return &[];
    }
    match row.get(number - 1) {
        Some(bytes) => bytes,
        None => &[],
    }
}
