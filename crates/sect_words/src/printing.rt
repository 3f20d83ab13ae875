// Appending bytes, and numbers behind a name and a mark.

ghost use Rattle.std.specs.Prelude.{◌≡◌, ◌≤◌, ◌++◌, ◌∷◌, OnOk, OnErr, decimal, drop, length, take};

use crate::digits::{put, put_bytes, put_long};
use itoa::{Buffer, Integer};
use sect_base::Memory;

/// Appends these bytes. After `Memory` the text is as before.
pub fn print_bytes(bytes: &[u8], into: &mut Vec<u8>) -> Result<(), Memory>
    ensures text { OnOk result (into.new.items ≡ into.old.items ++ bytes.now) }
    ensures front { take (length into.old.items) into.new.items ≡ into.old.items }
    ensures memory { OnErr result (into.new.items ≡ into.old.items) }
{
    into.extend_from_slice(bytes)?;
    Ok(())
}

/// Appends a text. After `Memory` the bytes are as before.
pub fn print_text(text: &str, into: &mut Vec<u8>) -> Result<(), Memory>
    ensures text { OnOk result (into.new.items ≡ into.old.items ++ text.now) }
    ensures memory { OnErr result (into.new.items ≡ into.old.items) }
{
    into.extend_from_slice(text.as_bytes())?;
    Ok(())
}

/// Appends a number in digits. After `Memory` the text is as before.
pub fn print_number<I: Integer>(number: I, into: &mut Vec<u8>) -> Result<(), Memory>
    ensures text { OnOk result (into.new.items ≡ into.old.items ++ I.text number) }
    ensures front { take (length into.old.items) into.new.items ≡ into.old.items }
    ensures memory { OnErr result (into.new.items ≡ into.old.items) }
{
    print_bytes(Buffer::new().format(number).as_bytes(), into)
}

/// Appends the mark and a number in digits, all in one piece. After `Memory` the text is as before.
pub(crate) fn print_number_after(mark: u8, number: u64, into: &mut Vec<u8>) -> Result<(), Memory>
    ensures text { OnOk result (into.new.items ≡ into.old.items ++ (mark ∷ decimal number)) }
    ensures front { take (length into.old.items) into.new.items ≡ into.old.items }
{
    let mut bytes = [0; 32];
    let digits = put_long(number, &mut bytes, 32);
    let start = put(mark, &mut bytes, digits);
    print_bytes(&bytes[start..], into)
}

/// Appends the name and the bytes from a place on, in one piece where the name has 16 bytes at most. After `Memory` a
/// part of them may stand at the end.
#[inline(always)]
pub(crate) fn print_behind_name(
    name: &[u8],
    bytes: &mut [u8],
    start: usize,
    into: &mut Vec<u8>,
) -> Result<(), Memory>
    requires { (16 ≤ start) × (start ≤ length bytes.old) }
    ensures text { OnOk result (into.new.items ≡ into.old.items ++ (name.now ++ drop start bytes.old)) }
    ensures front { take (length into.old.items) into.new.items ≡ into.old.items }
{
    if name.len() > 16 {
        print_bytes(name, into)?;
        return print_bytes(&bytes[start..], into);
    }
    let start = put_bytes(name, bytes, start);
    print_bytes(&bytes[start..], into)
}

/// Appends the name, the mark and a number in digits. After `Memory` a part of them may stand at the end.
pub(crate) fn print_number_named(
    name: &[u8],
    mark: u8,
    number: u64,
    into: &mut Vec<u8>,
) -> Result<(), Memory>
    ensures text { OnOk result (into.new.items ≡ into.old.items ++ (name.now ++ (mark ∷ decimal number))) }
    ensures front { take (length into.old.items) into.new.items ≡ into.old.items }
{
    let mut bytes = [0; 64];
    let digits = put_long(number, &mut bytes, 64);
    let start = put(mark, &mut bytes, digits);
    print_behind_name(name, &mut bytes, start, into)
}
