// The desk of a tally.

ghost use Rattle.std.specs.Prelude.{◌<◌, ◌^◌};
ghost use Rattle.sect_once.specs.Tallies.{caller_number};

mod alone;
mod full;
mod shared;

use sect_base::{Caller, Day, Id};

/// The id with this number.
fn id(number: u64) -> Id
    ensures { (caller_number result.caller < 2 ^ 32) × (result.number < 2 ^ 64) }
{
    Id {
        caller: Caller::Registrar(7),
        number,
    }
}

/// The day of this number.
fn day(number: u8) -> Day {
    match Day::new(i32::from(number)) {
        Some(day) => day,
        None => unreachable!(),
    }
}
