// Slots by place, each with a value or with none.

ghost use Rattle.std.specs.Prelude.{◌≡◌, ℕ, ◌+◌, ◌-◌, ◌^◌, ◌==◌, ◌<◌, ◌≤◌, cond, length, min, true, false, None, Some, IfOk, OnOk, OnErr};
ghost use Rattle.sect_base.specs.Slots.{slot_at, SlotsStay, SlotsPut, SlotsClear, SlotsKeep, kept as kept_of};

use crate::Memory;
use crate::test::Test;

/// How many slots there may be at least.
pub const FEW: usize = 1024;

/// How many slots there may be for each value more.
const MORE: usize = 4;

/// How many slots there may be behind one value more.
pub fn bound_after(bound: usize) -> usize
    ensures { result ≡ min (bound + 4) (2 ^ 64 - 1) }
{
    bound.saturating_add(MORE)
}

/// The value in the slot at a place. It takes no memory.
pub fn get<V: Copy>(slots: &[Option<V>], place: usize) -> Option<V>
    ensures { result ≡ slot_at slots.now place }
{
    match slots.get(place) {
        Some(slot) => *slot,
        None => None,
    }
}

/// Puts a value into the slot at a place, where there is one or it may be made: below this bound. Tells whether it was put.
/// Where it wasn't, or memory runs out, each value stays.
pub fn put<V: Copy>(
    slots: &mut Vec<Option<V>>,
    bound: usize,
    place: usize,
    value: V,
) -> Result<bool, Memory>
    ensures put { IfOk result (λ was. was ≡ true → SlotsPut slots.old.items slots.new.items place value) }
    ensures over { IfOk result (λ was. was ≡ false → SlotsStay slots.old.items slots.new.items) }
    ensures none { IfOk result (λ was. was ≡ false → slot_at slots.new.items place ≡ None) }
    ensures err { OnErr result (SlotsStay slots.old.items slots.new.items) }
{
    if place < bound {
        grow(slots, place + 1)?;
    }
    if place < slots.len() {
        slots[place] = Some(value);
        return Ok(true);
    }
    Ok(false)
}

/// Makes empty slots up to a length. Where memory runs out, each value stays.
fn grow<V: Copy>(slots: &mut Vec<Option<V>>, len: usize) -> Result<(), Memory>
    ensures { SlotsStay slots.old.items slots.new.items }
{
    'slots: for _ in slots.len()..len {
        slots.push(None)?;
    }
    Ok(())
}

/// Empties the slot at a place. It takes no memory.
pub fn clear<V: Copy>(slots: &mut [Option<V>], place: usize)
    ensures { SlotsClear slots.old slots.new place }
{
    if place < slots.len() {
        slots[place] = None;
    }
}

/// Empties the slots whose values don't pass. It takes no memory.
pub fn keep<V: Copy, T: Test<V>>(slots: &mut [Option<V>], test: &T)
    ensures { SlotsKeep (T.passes test.now) slots.old slots.new }
{
    'slots: for place in 0..slots.len() {
        slots[place] = kept(slots[place], test);
    }
}

/// The slot's value where it passes the test, else nothing.
fn kept<V: Copy, T: Test<V>>(slot: Option<V>, test: &T) -> Option<V>
    ensures { result ≡ kept_of (T.passes test.now) slot }
{
    let value = slot?;
    if test.passes(value) {
        return Some(value);
    }
    None
}
