// How a desk is opened: the keeper's rows are replayed, one after another.
ghost use Rattle.std.specs.Prelude.{◌≡◌, ◌↔◌, ◌<◌, ◌≤◌, List, [], length, take, true, false, IfErr, IfOk, IsTrue, OnErr, OnOk};
ghost use Rattle.sect_edge.specs.Keeper.{KeepsRows};
ghost use Rattle.sect_once.specs.History.{acted_log, IsFull, IsNew, NeverFull, TellsRows};
ghost use Rattle.sect_once.specs.Opening.{IsCause, IsRowCause, Opens, Reopens, ActsAgain, Resumes, Takes, TakesAtOnce, TakesNext};

use crate::act::{step_in, take_back};
use crate::answer::OpenFault;
use crate::desk::Desk;
use crate::entry::{Entry, Request};
use crate::key::key_of;
use crate::object::Object;
use crate::past::{MOST_NOTES, Past, add};
use sect_base::{Day, Id, Memory};
use sect_edge::Keeper;
use std::alloc::Global;
use std::snapshot::Snapshot;

/// Puts the bytes before a place in place of what is there.
fn copy_front(row: &[u8], at: usize, into: &mut Vec<u8>) -> Result<(), Memory>
    requires { at ≤ length row.now }
    ensures { OnOk result (into.new.items ≡ take at row.now) }
{
    into.clear();
    into.extend_from_slice(&row[..at])?;
    Ok(())
}

/// Whether the bytes are the same.
#[inline(always)]
fn is_same(bytes: &[u8], others: &[u8]) -> bool
    ensures { IsTrue result → bytes.now ≡ others.now }
{
    bytes == others
}

impl<O: Object> Past<O> {
    /// Whether the log of these entries alone is full.
    fn is_full(&self) -> bool
        ensures { IsTrue result ↔ IsFull O.is_row (acted_log self.now.entries) }
    {
        self.rows.len() as u64 >= MOST_NOTES || self.is_heavy()
    }

    /// Acts the entry, and takes its row, where its reply is the object's. Else, and after want of memory, all is as before.
    fn resume(&mut self, entry: Entry<O::Command, O::Reply>, row: &[u8]) -> Result<bool, Memory>
        requires room { IsFull O.is_row (acted_log self.old.entries) → ⊥ }
        requires written { O.is_row entry row.now }
        requires new { IsNew entry.id self.old.entries }
        ensures resumed { IfOk result (Resumes O.start O.stepped O.is_row self.old self.new entry) }
        ensures err { OnErr result (self.new ≡ self.old) }
    {
        let mut entry = entry;
        let reply = step_in(
            &mut self.object,
            entry.day,
            entry.id.caller,
            &mut entry.command,
        )?;
        if !O::same_reply(&reply, &entry.reply) {
            take_back(&mut self.object);
            return Ok(false);
        }
        let key = key_of(&entry.id);
        match add(&mut self.rows, &mut self.places, key, row) {
            Ok(()) => Ok(true),
            Err(memory) => {
                take_back(&mut self.object);
                Err(memory)
            }
        }
    }

    /// Acts a request again, and takes its row, where that is what the entry is printed as: the buffer has the request's text, and
    /// the reply's is put behind it. Else, and after want of memory, all is as before.
    fn act_again(
        &mut self,
        id: Id,
        day: Day,
        command: &mut O::Command,
        row: &[u8],
        printed: &mut Vec<u8>,
    ) -> Result<bool, Memory>
        requires room { IsFull O.is_row (acted_log self.old.entries) → ⊥ }
        requires askable { O.may_ask id day command.old }
        requires text { O.is_request id day command.old printed.old.items }
        requires new { IsNew id self.old.entries }
        ensures taken { IfOk result (ActsAgain O.start O.stepped O.is_row self.old self.new id day command.old row.now) }
        ensures err { OnErr result (self.new ≡ self.old) }
    {
        let reply = step_in(&mut self.object, day, id.caller, command)?;
        let Ok(_) = O::print_reply(&reply, printed) else {
            take_back(&mut self.object);
            return Err(Memory);
        };
        if !is_same(printed.as_slice(), row) {
            take_back(&mut self.object);
            return Ok(false);
        }
        let key = key_of(&id);
        match add(&mut self.rows, &mut self.places, key, row) {
            Ok(()) => Ok(true),
            Err(memory) => {
                take_back(&mut self.object);
                Err(memory)
            }
        }
    }

    /// Takes a row behind the entries, of which no more is read than the request. Where it isn't taken so, and after want of memory,
    /// all is as before.
    fn take_by_request(
        &mut self,
        alloc: Global,
        row: &[u8],
        printed: &mut Vec<u8>,
    ) -> Result<bool, Memory>
        ensures taken { IfOk result (TakesAtOnce O.start O.stepped O.is_row self.old self.new row.now) }
        ensures err { OnErr result (self.new ≡ self.old) }
    {
        if self.is_full() {
            return Ok(false);
        }
        let Some((request, at)) = O::read_request(alloc, row)? else {
            return Ok(false);
        };
        let Request { id, day, command } = request;
        if self.has(&id) {
            return Ok(false);
        }
        copy_front(row, at, printed)?;
        let mut command = command;
        self.act_again(id, day, &mut command, row, printed)
    }

    /// Takes a row behind the entries. Where it's bad, and after want of memory, all is as before.
    fn take(&mut self, alloc: Global, row: &[u8], printed: &mut Vec<u8>) -> Result<bool, Memory>
        ensures taken { IfOk result (Takes O.start O.stepped O.is_row self.old self.new row.now) }
        ensures err { OnErr result (self.new ≡ self.old) }
    {
        if self.take_by_request(alloc, row, printed)? {
            return Ok(true);
        }
        self.take_whole(alloc, row)
    }

    /// Takes a row behind the entries, of which all is read. Where it's bad, and after want of memory, all is as before.
    fn take_whole(&mut self, alloc: Global, row: &[u8]) -> Result<bool, Memory>
        ensures taken { IfOk result (Takes O.start O.stepped O.is_row self.old self.new row.now) }
        ensures err { OnErr result (self.new ≡ self.old) }
    {
        if self.is_full() {
            return Ok(false);
        }
        let Some(entry) = O::read_entry(alloc, row)? else {
            return Ok(false);
        };
        if self.has(&entry.id) {
            return Ok(false);
        }
        self.resume(entry, row)
    }

    /// Takes the keeper's row with the number of the entries.
    fn take_next<K: Keeper>(
        &mut self,
        alloc: Global,
        keeper: &mut K,
        at: u64,
        row: &mut Vec<u8>,
        printed: &mut Vec<u8>,
    ) -> Result<(), OpenFault>
        requires { at ≡ length self.old.entries }
        ensures rows { KeepsRows (K.rows keeper.old) (K.rows keeper.new) }
        ensures later { K.faults keeper.old ≤ K.faults keeper.new }
        ensures ok { OnOk result (TakesNext O.start O.stepped O.is_row (K.rows keeper.old) self.old self.new at) }
        ensures err { IfErr result (IsRowCause O.start O.stepped O.is_row K.rows K.faults keeper.old keeper.new self.old.entries at) }
    {
        let number = self.acted();
        if !keeper.row(at, row)? {
            return Err(OpenFault::BadEntry(number));
        }
        if self.take(alloc, row.as_slice(), printed)? {
            Ok(())
        } else {
            Err(OpenFault::BadEntry(number))
        }
    }

    /// Replays the keeper's rows.
    fn replay<K: Keeper>(alloc: Global, keeper: &mut K) -> Result<Past<O>, OpenFault>
    where
        O: Drop,
        ensures rows { KeepsRows (K.rows keeper.old) (K.rows keeper.new) }
        ensures later { K.faults keeper.old ≤ K.faults keeper.new }
        ensures tells { IfOk result (λ past. TellsRows O.is_row (K.rows keeper.old) past.entries) }
        ensures roomy { IfOk result (λ past. NeverFull O.is_row (acted_log past.entries)) }
        ensures err { IfErr result (IsCause O.start O.stepped O.is_row K.rows K.faults keeper.old keeper.new) }
    {
        let count = keeper.len()?;
        let mut past = Past::new(alloc)?;
        let mut row = Vec::new(alloc);
        let mut printed = Vec::new(alloc);
        for at in 0..count {
            past.take_next(alloc, keeper, at, &mut row, &mut printed)?;
        }
        Ok(past)
    }
}

impl<O: Object, K: Keeper> Desk<O, K> {
    /// The desk of a keeper's rows.
    fn replayed(alloc: Global, keeper: K) -> Result<Desk<O, K>, (OpenFault, K)>
    where
        O: Drop,
        ensures { Opens O.start O.stepped O.is_row K.rows K.faults keeper result }
    {
        let mut keeper = keeper;
        let opened = Snapshot::of(&keeper);
        let past = match Past::replay(alloc, &mut keeper) {
            Ok(past) => past,
            Err(fault) => return Err((fault, keeper)),
        };
        let desk = Desk {
            alloc,
            past,
            unkept: Vec::new(alloc),
            keeper,
            opened,
            row: Vec::new(alloc),
            reply_at: None,
        };
        desk.recall_sound();
        Ok(desk)
    }

    /// Opens a keeper: the object acts the entries of its rows again, one after another. Where it doesn't open, the
    /// keeper comes back with the rows that it had.
    pub fn open(alloc: Global, keeper: K) -> Result<Desk<O, K>, (OpenFault, K)>
    where
        O: Drop,
        ensures opens { Opens O.start O.stepped O.is_row K.rows K.faults keeper result }
        ensures reopens { Reopens O.start O.stepped O.is_row K.rows K.faults keeper result }
    {
        Desk::replayed(alloc, keeper)
    }
}
