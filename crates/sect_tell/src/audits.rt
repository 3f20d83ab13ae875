// Audits a history: each tree by which a reply blocks is checked again at its place.
ghost use Rattle.std.specs.Prelude.{◌≡◌, ◌⊎◌, ◌<◌, ◌+◌, ◌^◌, ◌++◌, ℕ, List, Option, IfOk, OnOk, decimal, length, take, ◌≢◌};
ghost use Rattle.std.specs.Option.{is_some};
ghost use Rattle.sect_edge.specs.Causes.{Rose};
ghost use Rattle.sect_history.specs.Step.{stepped};
ghost use Rattle.sect_machine.specs.Standing.{state_in};
ghost use Rattle.sect_model.specs.World.{empty_state};
ghost use Rattle.sect_once.specs.Desks.{IsSound};
ghost use Rattle.sect_once.specs.History.{history};
ghost use Rattle.sect_base.specs.DayText.{IsDayText};
ghost use Rattle.sect_wire.specs.Laws.{IsRow};
ghost use Rattle.sect_script.specs.declared.status.Status.{Status};
ghost use Rattle.sect_tell.specs.Audit.{Audits, IsAuditLine, audit_line, blocked_tree, is_verified, one_if};
ghost use Rattle.sect_tell.specs.Audited.{IsFoundIn};
ghost use Rattle.sect_asking.specs.Desk.{StaysShut};

use crate::teller::{Teller, tell};
use sect_base::{Block, Day, Memory, print_day};
use sect_command::{Command, Reply};
use sect_edge::{Keeper, Sink};
use sect_history::laws::replays_are_good;
use sect_machine::Machine;
use sect_model::laws::{blocked_is_refuted, steps_keep_the_world};
use sect_once::{Desk, Entry, Object};
use sect_script::Status;
use sect_words::print_number;
use std::alloc::Global;
use std::thread::Threads;

/// What an audit found: how many replies block, how many of these by a tree that refutes every choice, and the day.
#[derive(Drop)]
pub(crate) struct Found {
    blocked: u32,
    verified: u32,
    day: Day,
}

/// The line of an audit.
struct AuditLine;

impl Teller for AuditLine {
    ghost tells = { λ _. IsAuditLine };

    fn text<R: Threads + Sync, K: Keeper>(
        &self,
        _rt: &R,
        alloc: Global,
        desk: &Desk<Machine, K>,
        into: &mut Vec<u8>,
    ) -> Result<(), Memory> {
        let found = audit_of(alloc, desk)?;
        print_audit(desk.acted(), &found, into)
    }
}

/// Opens the keeper's history, audits it and writes the line of it. The keeper comes back.
pub fn audit<R: Threads + Sync, T: Sink, K: Keeper>(
    rt: &R,
    alloc: Global,
    sink: &mut T,
    keeper: K,
) -> (Status, K)
    ensures audits { (left : Option (List ℕ)) → Audits K.rows K.faults keeper result.1 (T.taken sink.old) (T.taken sink.new) result.0
        ⊎ StaysShut empty_state stepped IsRow K.rows K.faults keeper result.1 left left (T.taken sink.old) (T.taken sink.new) result.0 }
    ensures shut { result.0 ≡ Status.KeeperFault → sink.new ≡ sink.old }
    ensures bad_entry { (row : ℕ) → result.0 ≡ Status.BadEntry row → sink.new ≡ sink.old }
    ensures write_fault { result.0 ≡ Status.WriteFault → Rose (T.faults sink.old) (T.faults sink.new) }
    ensures keeper_fault { result.0 ≡ Status.KeeperFault → Rose (K.faults keeper) (K.faults result.1) }
    ensures others { result.0 ≢ Status.BadWords × (result.0 ≢ Status.LinkFault) × (result.0 ≢ Status.ReadFault) }
{
    replays_are_good();
    steps_keep_the_world();
    blocked_is_refuted();
    tell(rt, alloc, sink, keeper, &AuditLine)
}

/// Acts the history again on a machine of its own, and checks each reply that blocks before its command acts.
fn audit_of<K: Keeper>(alloc: Global, desk: &Desk<Machine, K>) -> Result<Found, Memory>
    requires sound { IsSound stepped IsRow K.rows K.faults empty_state desk.now }
    ensures { IfOk result (IsFoundIn (history desk.now.log)) }
{
    let mut machine = Machine::empty(alloc);
    audit_on(&mut machine, desk)
}

/// The same on this machine, to which nothing was asked yet.
fn audit_on<K: Keeper>(machine: &mut Machine, desk: &Desk<Machine, K>) -> Result<Found, Memory>
    requires empty { state_in machine.old ≡ empty_state }
    requires sound { IsSound stepped IsRow K.rows K.faults empty_state desk.now }
    ensures { IfOk result (IsFoundIn (history desk.now.log)) }
{
    let mut blocked = 0;
    let mut verified = 0;
    for place in 0..desk.acted() {
        let entry = desk.entry(place)?;
        blocked = plus(blocked, is_blocked(&entry.reply));
        verified = plus(verified, is_verified(machine, &entry)?);
        act(machine, entry)?;
    }
    Ok(Found {
        blocked,
        verified,
        day: machine.day(),
    })
}

/// One more, where it holds.
fn plus(count: u32, holds: bool) -> u32
    requires { count + 1 < 2 ^ 32 }
    ensures { result ≡ count + one_if holds }
{
    if holds { count + 1 } else { count }
}

/// Whether the reply blocks.
fn is_blocked(reply: &Reply) -> bool
    ensures { result ≡ is_some (blocked_tree reply.now) }
{
    matches!(reply, Reply::Blocked(_, _))
}

/// Whether the entry's reply blocks, by a tree that refutes every choice. The machine stands before the entry.
fn is_verified(machine: &mut Machine, entry: &Entry<Command, Reply>) -> Result<bool, Memory>
    requires replied { (stepped (state_in machine.old) entry.now.day entry.now.id.caller entry.now.command).1 ≡ entry.now.reply }
    ensures answer { IfOk result (λ holds. holds ≡ is_verified (state_in machine.old) entry.now) }
    ensures state { state_in machine.new ≡ state_in machine.old }
{
    machine.recall_kept();
    blocked_is_refuted();
    match &entry.reply {
        Reply::Blocked(_, tree) => machine.recheck(entry.day, &entry.command, tree),
        _ => Ok(false),
    }
}

/// Acts the entry's command.
fn act(machine: &mut Machine, entry: Entry<Command, Reply>) -> Result<(), Memory>
    ensures { OnOk result (state_in machine.new ≡ (stepped (state_in machine.old) entry.day entry.id.caller entry.command).0) }
{
    let mut entry = entry;
    let _reply = machine.step(entry.day, entry.id.caller, &mut entry.command)?;
    Ok(())
}

/// Appends the line of an audit. After `Memory` a part of it may stand at the end.
fn print_audit(entries: u32, found: &Found, into: &mut Vec<u8>) -> Result<(), Memory>
    ensures { OnOk result ((day : List ℕ) × IsDayText day found.now.day
        × (into.new.items ≡ into.old.items ++ audit_line entries found.now.blocked found.now.verified day)) }
{
    let day = print_day(found.day);
    print_line(entries, found, &day, into)?;
    Ok(())
}

/// Appends the line of an audit, with the text of its day.
fn print_line(entries: u32, found: &Found, day: &[u8], into: &mut Vec<u8>) -> Result<(), Memory>
    ensures { OnOk result (into.new.items ≡ into.old.items ++ audit_line entries found.now.blocked found.now.verified day.now) }
{
    print_count(b"entries ", entries, into)?;
    print_count(b" blocked ", found.blocked, into)?;
    print_count(b" verified ", found.verified, into)?;
    into.extend_from_slice(b" day ")?;
    into.extend_from_slice(day)?;
    into.extend_from_slice(b"\n")?;
    Ok(())
}

/// Appends a word and a number.
fn print_count(word: &[u8], count: u32, into: &mut Vec<u8>) -> Result<(), Memory>
    ensures { OnOk result (into.new.items ≡ into.old.items ++ (word.now ++ decimal count)) }
{
    into.extend_from_slice(word)?;
    print_number(count, into)
}
