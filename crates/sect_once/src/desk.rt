// The desk: what has acted, the log of it, and the keeper of its rows.
ghost use Rattle.std.specs.Prelude.{◌≡◌, ◌↔◌, ◌<◌, ◌≤◌, IfNone, IfOk, IfSome, IsTrue, OnErr, drop, length, slice_get, Some};
ghost use Rattle.sect_once.specs.Desks.{FindsIn, SeesEntry};
ghost use Rattle.sect_once.specs.History.{history, IsFull, IsNew};
ghost use Rattle.sect_once.specs.Told.{TellsReply};

use crate::answer::Seen;
use crate::entry::{Entry, Unkept};
use crate::object::Object;
use crate::past::{MOST_NOTES, Past};
use sect_base::{Id, Memory};
use sect_edge::Keeper;
use std::alloc::Global;
use std::marker::Model;
use std::mem::forget;
use std::snapshot::Snapshot;

/// An object with the log of what it was asked, over a keeper that has the row of each entry. Of the log the requests that
/// weren't kept stand apart from what has acted. The row that was printed last stands in a buffer of its own, with the place of
/// its reply's text where it is the last entry's.
pub struct Desk<O: Object, K: Keeper> {
    pub(crate) alloc: Global,
    pub(crate) past: Past<O>,
    pub(crate) unkept: Vec<Unkept>,
    pub(crate) keeper: K,
    pub(crate) opened: Snapshot<K>,
    pub(crate) row: Vec<u8>,
    pub(crate) reply_at: Option<usize>,
}

/// It is written out, so that a caller does not prove again how each part is dropped.
impl<O: Object + Drop, K: Keeper + Drop> Drop for Desk<O, K> {
    fn drop(self) {
        let Desk {
            alloc: _,
            past: _,
            unkept: _,
            keeper: _,
            opened: _,
            row: _,
            reply_at: _,
        } = self;
    }
}

impl<O: Object, K: Keeper> Model for Desk<O, K> {
    ghost use Rattle.sect_once.specs.History.{log_of};
    ghost use Rattle.sect_once.specs.Desks.{Standing, IsDesk};

    ghost Value = { Standing O.State O.Command O.Reply K };

    ghost view = { λ d. record { object = d.past.object; log = log_of 0 d.unkept.items d.past.entries; keeper = d.keeper; base = K.faults d.opened.value } };

    ghost invariant = { λ d. IsDesk O.is_row O.is_told d.unkept.items d.past.entries (K.rows d.keeper) (K.faults d.opened.value) (K.faults d.keeper) d.row.items d.reply_at };
}

/// What an entry is to a command with its id.
fn seen_at<O: Object>(entry: &Entry<O::Command, O::Reply>, place: u32, command: &O::Command) -> Seen
    ensures { SeesEntry entry.now place command.now result }
{
    if O::same_command(&entry.command, command) {
        Seen::Place(place)
    } else {
        Seen::Reused(place)
    }
}

/// The bytes from a place on.
fn bytes_from(bytes: &[u8], at: usize) -> &[u8]
    requires { at ≤ length bytes.now }
    ensures { result.now ≡ drop at bytes.now }
{
    &bytes[at..]
}

impl<O: Object, K: Keeper> Desk<O, K> {
    /// The keeper, with the rows that it has.
    pub fn close(self) -> K
    where
        O: Drop,
        ensures { result ≡ self.keeper }
    {
        let Desk {
            alloc: _,
            past: _,
            unkept: _,
            keeper,
            opened: _,
            row: _,
            reply_at: _,
        } = self;
        keeper
    }

    /// The keeper, with the rows that it has, as `close` gives it back, for a process that is about to end: nothing is
    /// freed, so the memory of the history stays taken until then.
    pub fn leave(self) -> K
    where
        O: Drop,
        ensures { result ≡ self.keeper }
    {
        let Desk {
            alloc: _,
            past,
            unkept,
            keeper,
            opened: _,
            row,
            reply_at: _,
        } = self;
        forget(past);
        forget(unkept);
        forget(row);
        keeper
    }

    /// The object, which is the replay of the history.
    pub fn object(&self) -> &O
        ensures { O.state result.now ≡ self.now.object }
    {
        self.past.object.as_ref()
    }

    /// The number of requests that acted.
    pub fn acted(&self) -> u32
        ensures { result ≡ length (history self.now.log) }
    {
        self.past.acted()
    }

    /// The entry at a place, from 0. It is read from its row, which takes memory.
    pub fn entry(&self, place: u32) -> Result<Entry<O::Command, O::Reply>, Memory>
        requires { place < length (history self.now.log) }
        ensures { IfOk result (λ entry. slice_get (history self.now.log) place ≡ Some entry) }
    {
        self.past.entry(self.alloc, place)
    }

    /// The text of the reply of the entry at a place, where this is the last and its row is the one that was printed last.
    pub fn reply_text(&self, place: u32) -> Option<&[u8]>
        ensures { IfSome result (λ text. TellsReply O.is_told (history self.now.log) place text.now) }
    {
        let at = self.reply_at?;
        if u64::from(place) + 1 == u64::from(self.past.acted()) {
            Some(bytes_from(self.row.as_slice(), at))
        } else {
            None
        }
    }

    /// The entry with an id, and its place. Where there is one, reading it takes memory.
    pub(crate) fn entry_with(
        &self,
        id: &Id,
    ) -> Result<Option<(u32, Entry<O::Command, O::Reply>)>, Memory>
        ensures found { IfOk result (λ found. IfSome found (λ r. (slice_get (history self.now.log) r.0 ≡ Some r.1) × (r.1.id ≡ id.now))) }
        ensures none { IfOk result (λ found. IfNone found (IsNew id.now (history self.now.log))) }
        ensures memory { OnErr result (IsNew id.now (history self.now.log) → ⊥) }
    {
        self.past.entry_with(self.alloc, id)
    }

    /// What the history has of an id and a command. It takes memory only where an entry has the id, to read that entry.
    pub fn find(&self, id: &Id, command: &O::Command) -> Result<Seen, Memory>
        ensures seen { IfOk result (λ seen. FindsIn (history self.now.log) id.now command.now seen) }
        ensures memory { OnErr result (IsNew id.now (history self.now.log) → ⊥) }
    {
        match self.entry_with(id)? {
            None => Ok(Seen::New),
            Some((place, entry)) => Ok(seen_at::<O>(&entry, place, command)),
        }
    }

    /// The number of notes of the log.
    pub(crate) fn notes(&self) -> u64
        ensures { result ≡ length self.now.log }
    {
        u64::from(self.past.acted()) + self.unkept.len() as u64
    }

    /// The log has 1,048,576 notes, or rows of 268,435,456 bytes.
    pub fn is_full(&self) -> bool
        ensures { IsTrue result ↔ IsFull O.is_row self.now.log }
    {
        self.notes() >= MOST_NOTES || self.past.is_heavy()
    }
}
