// A front of a desk's history, acted again on an object of its own.

ghost use Rattle.std.specs.Prelude.{◌≡◌, ◌≤◌, IfOk, OnOk, length, take};
ghost use Rattle.sect_once.specs.History.{history, state_after};

use crate::{Desk, Entry, Object};
use sect_base::Memory;
use sect_edge::Keeper;
use std::alloc::Global;

/// The object after so many of the first entries of the desk's history. The desk stays as it is.
pub fn replay<O: Object, K: Keeper>(
    alloc: Global,
    desk: &Desk<O, K>,
    count: u32,
) -> Result<O, Memory>
where
    O: Drop,
    requires { count ≤ length (history desk.now.log) }
    ensures { IfOk result (λ object. O.state object ≡ state_after O.stepped O.start (take count (history desk.now.log))) }
{
    let mut object = O::empty(alloc);
    for place in 0..count {
        let entry = desk.entry(place)?;
        act(&mut object, entry)?;
    }
    Ok(object)
}

/// Acts the entry's command.
fn act<O: Object>(object: &mut O, entry: Entry<O::Command, O::Reply>) -> Result<(), Memory>
    ensures { OnOk result (O.state object.new ≡ (O.stepped (O.state object.old) entry.day entry.id.caller entry.command).0) }
{
    let mut entry = entry;
    let _reply = object.step(entry.day, entry.id.caller, &mut entry.command)?;
    Ok(())
}
