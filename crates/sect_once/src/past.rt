// What has acted: the object with the rows of the entries that brought it where it is, and the place of each id.
ghost use Rattle.std.specs.Prelude.{
  ◌≡◌,
  ◌∷◌,
  ◌++◌,
  ◌↔◌,
  ◌<◌,
  ◌≤◌,
  true,
  false,
  [],
  length,
  slice_get,
  IfNone,
  IfOk,
  IfSome,
  IsTrue,
  None,
  Some,
  OnErr,
  OnOk,
};
ghost use Rattle.sect_base.specs.declared.limit.Id.{Id};
ghost use Rattle.sect_once.specs.declared.entry.Entry.{Entry};
ghost use Rattle.sect_once.specs.Desks.{IsTrail};
ghost use Rattle.sect_once.specs.Opening.{HasActed};
ghost use Rattle.sect_once.specs.History.{AreHeavy, IsNew};
ghost use Rattle.sect_once.specs.Places.{placed};

use crate::entry::Entry;
use crate::key::key_of;
use crate::object::Object;
use crate::places::Places;
use crate::texts::Texts;
use sect_base::{Id, Memory};
use std::alloc::Global;
use std::marker::Model;

/// An object that is the replay of its entries. Of these the rows alone are kept, and the place of each id; an entry is read
/// from its row when one is asked for. The object lies in a place of its own, so that who takes a desk over doesn't copy it.
pub(crate) struct Past<O: Object> {
    pub(crate) object: Box<O>,
    pub(crate) rows: Texts,
    pub(crate) places: Places,
}

/// It is written out, so that a caller does not prove again how each part is dropped.
impl<O: Object + Drop> Drop for Past<O> {
    fn drop(self) {
        let Past {
            object: _,
            rows: _,
            places: _,
        } = self;
    }
}

impl<O: Object> Model for Past<O> {
    ghost use Rattle.sect_once.specs.Desks.{IsPast, Trail};
    ghost use Rattle.sect_once.specs.History.{entries_of};

    ghost Value = { Trail O.State O.Command O.Reply };

    ghost view = { λ p. record { object = O.state p.object.value; entries = entries_of O.entry_of p.rows.texts } };

    ghost invariant = { λ p. IsPast O.start O.stepped O.is_row (O.state p.object.value) (entries_of O.entry_of p.rows.texts) p.places.keys p.rows.texts };
}

/// The notes with which a log is full.
pub(crate) const MOST_NOTES: u64 = 1 << 20;

/// The bytes of rows with which a log is full.
pub(crate) const MOST_BYTES: u64 = 1 << 28;

/// Takes a row behind the others, and gives its key the place. After want of memory both are as before.
pub(crate) fn add(
    rows: &mut Texts,
    places: &mut Places,
    key: u128,
    row: &[u8],
) -> Result<(), Memory>
    requires { placed places.old.keys key ≡ None }
    ensures rows { OnOk result (rows.new.texts ≡ rows.old.texts ++ row.now ∷ []) }
    ensures keys { OnOk result (places.new.keys ≡ places.old.keys ++ key ∷ []) }
    ensures rows_stay { OnErr result (rows.new.texts ≡ rows.old.texts) }
    ensures keys_stay { OnErr result (places.new.keys ≡ places.old.keys) }
{
    places.reserve()?;
    rows.reserve(row.len())?;
    rows.push(row);
    places.put(key);
    Ok(())
}

/// The entry of a row that has one.
fn entry_in<O: Object>(alloc: Global, row: &[u8]) -> Result<Entry<O::Command, O::Reply>, Memory>
    requires { (entry : Entry O.Command O.Reply) × O.is_row entry row.now }
    ensures { IfOk result (λ entry. O.is_row entry row.now) }
{
    match O::read_entry(alloc, row)? {
        Some(entry) => Ok(entry),
        None => unreachable!(),
    }
}

impl<O: Object> Past<O> {
    /// The object at the start.
    pub(crate) fn new(alloc: Global) -> Result<Past<O>, Memory>
    where
        O: Drop,
        ensures { IfOk result (λ past. past ≡ record { object = O.start; entries = [] }) }
    {
        Ok(Past {
            object: Box::new(alloc, O::empty(alloc))?,
            rows: Texts::none(alloc),
            places: Places::none(alloc),
        })
    }

    /// The type keeps this.
    pub(crate) fn recall_trail(&self)
        ensures { IsTrail O.start O.stepped self.now }
    {
        let _ = &self.rows;
    }

    /// The number of entries.
    pub(crate) fn acted(&self) -> u32
        ensures { result ≡ length self.now.entries }
    {
        self.rows.len() as u32
    }

    /// The entry at a place, read from its row.
    pub(crate) fn entry(
        &self,
        alloc: Global,
        place: u32,
    ) -> Result<Entry<O::Command, O::Reply>, Memory>
        requires { place < length self.now.entries }
        ensures { IfOk result (λ entry. slice_get self.now.entries place ≡ Some entry) }
    {
        entry_in::<O>(alloc, self.rows.get(place as usize))
    }

    /// The place of the entry with an id.
    pub(crate) fn place_of(&self, id: &Id) -> Option<u32>
        ensures found { IfSome result (λ place. HasActed O.start O.stepped O.is_row id.now self.now.entries × (place < length self.now.entries) × ((e : Entry O.Command O.Reply) → slice_get self.now.entries place ≡ Some e → e.id ≡ id.now)) }
        ensures none { IfNone result (IsNew id.now self.now.entries) }
    {
        self.places.find(key_of(id))
    }

    /// Whether an entry has the id.
    pub(crate) fn has(&self, id: &Id) -> bool
        ensures acted { result ≡ true → HasActed O.start O.stepped O.is_row id.now self.now.entries }
        ensures new { result ≡ false → IsNew id.now self.now.entries }
    {
        self.place_of(id).is_some()
    }

    /// The entry with an id, and its place. Reading it takes memory.
    pub(crate) fn entry_with(
        &self,
        alloc: Global,
        id: &Id,
    ) -> Result<Option<(u32, Entry<O::Command, O::Reply>)>, Memory>
        ensures found { IfOk result (λ found. IfSome found (λ r. (slice_get self.now.entries r.0 ≡ Some r.1) × (r.1.id ≡ id.now))) }
        ensures none { IfOk result (λ found. IfNone found (IsNew id.now self.now.entries)) }
        ensures memory { OnErr result (IsNew id.now self.now.entries → ⊥) }
    {
        let Some(place) = self.place_of(id) else {
            return Ok(None);
        };
        let entry = self.entry(alloc, place)?;
        Ok(Some((place, entry)))
    }

    /// The rows have so many bytes that the log is full.
    pub(crate) fn is_heavy(&self) -> bool
        ensures { IsTrue result ↔ AreHeavy O.is_row self.now.entries }
    {
        self.rows.size() >= MOST_BYTES
    }
}
