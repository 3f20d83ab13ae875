// Bytes are appended whole, or not at all.

ghost use Rattle.std.specs.Prelude.{◌≡◌, ◌≤◌, ◌++◌, ◌+◌, OnOk, OnErr, IsOk, length, map, vec_len, vec_capacity};
ghost use Rattle.std.specs.List.{concat};

use crate::Memory;

/// Appends the pieces one after another. After `Memory` the bytes are as before; where the pieces have room, they take no
/// memory.
pub fn append_all(pieces: &[&[u8]], into: &mut Vec<u8>) -> Result<(), Memory>
    ensures text { OnOk result (into.new.items ≡ into.old.items ++ concat (map (λ p. p.now) pieces.now)) }
    ensures memory { OnErr result (into.new.items ≡ into.old.items) }
    ensures capacity { vec_capacity into.old ≤ vec_capacity into.new }
    ensures room { length into.old.items + length (concat (map (λ p. p.now) pieces.now)) ≤ vec_capacity into.old → IsOk result }
{
    let start = into.len();
    let mut rest = pieces;
    while let [first, more @ ..] = rest {
        if append(first, into).is_err() {
            into.truncate(start);
            return Err(Memory);
        }
        rest = more;
    }
    Ok(())
}

/// Appends the bytes. After `Memory` they are as before; where the bytes have room, they take no memory.
pub fn append(bytes: &[u8], into: &mut Vec<u8>) -> Result<(), Memory>
    ensures text { OnOk result (into.new.items ≡ into.old.items ++ bytes.now) }
    ensures memory { OnErr result (into.new.items ≡ into.old.items) }
    ensures capacity { vec_capacity into.old ≤ vec_capacity into.new }
    ensures room { length into.old.items + length bytes.now ≤ vec_capacity into.old → IsOk result }
{
    into.extend_from_slice(bytes)?;
    Ok(())
}
