// Why the search at a place of a history was blocked.
ghost use Rattle.std.specs.Prelude.{◌≡◌, ◌++◌, OnOk, Some, slice_get, take};
ghost use Rattle.sect_history.specs.Step.{state_of, stepped};
ghost use Rattle.sect_machine.specs.Standing.{state_in};
ghost use Rattle.sect_model.specs.World.{empty_state};
ghost use Rattle.sect_once.specs.Desks.{IsSound};
ghost use Rattle.sect_once.specs.History.{history};
ghost use Rattle.sect_wire.specs.Laws.{IsRow};
ghost use Rattle.sect_clerk.specs.Explaining.{IsExplanation, explained_at, explained_in};

use sect_base::Memory;
use sect_command::{Command, Reply};
use sect_edge::Keeper;
use sect_explain::explain_reply;
use sect_machine::Machine;
use sect_once::{Desk, Entry, replay};
use sect_report::print_unknown;
use sect_tell::Teller;
use std::alloc::Global;
use std::thread::Threads;

/// Why the search at a place of a history, from 0, was blocked.
#[derive(Clone, Copy, PartialEq, Eq)]
pub struct Explanation(pub u32);

impl Teller for Explanation {
    ghost tells = { λ e. IsExplanation e.0 };

    fn text<R: Threads + Sync, K: Keeper>(
        &self,
        _rt: &R,
        alloc: Global,
        desk: &Desk<Machine, K>,
        into: &mut Vec<u8>,
    ) -> Result<(), Memory> {
        print_explanation(alloc, self.0, desk, into)
    }
}

/// Appends why the search at the place was blocked, or that no request stands there. The requests before it act again on a
/// machine of its own. After `Memory` a part of it may stand at the end.
fn print_explanation<K: Keeper>(
    alloc: Global,
    place: u32,
    desk: &Desk<Machine, K>,
    into: &mut Vec<u8>,
) -> Result<(), Memory>
    requires sound { IsSound stepped IsRow K.rows K.faults empty_state desk.now }
    ensures { OnOk result (into.new.items ≡ into.old.items ++ explained_at (history desk.now.log) place) }
{
    if place < desk.acted() {
        let machine: Machine = replay(alloc, desk, place)?;
        let entry = desk.entry(place)?;
        print_entry(alloc, &machine, &entry, into)?;
    } else {
        print_unknown("place", place, into)?;
    }
    Ok(())
}

/// Appends why the search of the entry was blocked, on the machine that stands before it. After `Memory` a part of it may stand
/// at the end.
fn print_entry(
    alloc: Global,
    machine: &Machine,
    entry: &Entry<Command, Reply>,
    into: &mut Vec<u8>,
) -> Result<(), Memory>
    requires replied { (stepped (state_in machine.now) entry.now.day entry.now.id.caller entry.now.command).1 ≡ entry.now.reply }
    ensures { OnOk result (into.new.items ≡ into.old.items ++ explained_in (state_in machine.now) entry.now) }
{
    explain_reply(alloc, machine.world(), &entry.command, &entry.reply, into)?;
    Ok(())
}
