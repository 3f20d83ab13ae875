// Texts one behind another.
ghost use Rattle.std.specs.Prelude.{◌≡◌, ◌++◌, ◌∷◌, ◌-◌, [], ◌<◌, ◌≤◌, OnOk, Some, drop, length, slice_get, sum_by, take};

use sect_base::Memory;
use std::alloc::Global;
use std::marker::Model;

/// Texts one behind another, with the place behind each: none has memory of its own. Contracts see the list of the texts, and the room for more.
#[derive(Drop)]
pub(crate) struct Texts {
    bytes: Vec<u8>,
    ends: Vec<usize>,
}

impl Model for Texts {
    ghost use Rattle.std.specs.Prelude.{◌-◌, length, vec_capacity};
    ghost use Rattle.sect_once.specs.Cuts.{AreEnds, Shelf, cut};

    ghost Value = { Shelf };

    ghost view = { λ r. record {
      texts = cut 0 r.bytes.items r.ends.items;
      capacity = vec_capacity r.ends;
      spare = vec_capacity r.bytes - length r.bytes.items;
    } };

    ghost invariant = { λ r. AreEnds 0 (length r.bytes.items) r.ends.items };
}

/// The place where a text begins: the one behind the text before.
fn start_of(ends: &[usize], at: usize) -> usize
    requires { at ≤ length ends.now }
    ensures { slice_get (0 ∷ ends.now) at ≡ Some result }
{
    if at == 0 { 0 } else { ends[at - 1] }
}

/// The place behind a text.
fn end_of(ends: &[usize], at: usize) -> usize
    requires { at < length ends.now }
    ensures { slice_get ends.now at ≡ Some result }
{
    ends[at]
}

/// The bytes between two places.
fn part_of(bytes: &[u8], start: usize, end: usize) -> &[u8]
    requires rises { start ≤ end }
    requires within { end ≤ length bytes.now }
    ensures { result.now ≡ take (end - start) (drop start bytes.now) }
{
    &bytes[start..end]
}

impl Texts {
    /// No texts.
    pub(crate) fn none(alloc: Global) -> Texts
        ensures { result.texts ≡ [] }
    {
        Texts {
            bytes: Vec::new(alloc),
            ends: Vec::new(alloc),
        }
    }

    /// The number of texts.
    pub(crate) fn len(&self) -> usize
        ensures { result ≡ length self.now.texts }
    {
        self.ends.len()
    }

    /// The bytes of all texts.
    pub(crate) fn size(&self) -> u64
        ensures { result ≡ sum_by length self.now.texts }
    {
        self.bytes.len() as u64
    }

    /// The text at a place, from 0.
    pub(crate) fn get(&self, at: usize) -> &[u8]
        requires { at < length self.now.texts }
        ensures { slice_get self.now.texts at ≡ Some result.now }
    {
        let start = start_of(self.ends.as_slice(), at);
        let end = end_of(self.ends.as_slice(), at);
        part_of(self.bytes.as_slice(), start, end)
    }

    /// Makes room for one text more, of so many bytes. The texts stay as they are.
    pub(crate) fn reserve(&mut self, size: usize) -> Result<(), Memory>
        ensures texts { self.new.texts ≡ self.old.texts }
        ensures room { OnOk result (length self.new.texts < self.new.capacity) }
        ensures bytes { OnOk result (size ≤ self.new.spare) }
    {
        self.ends.reserve(1)?;
        self.bytes.reserve(size)?;
        Ok(())
    }

    /// Takes a text behind the others. There is room for it.
    pub(crate) fn push(&mut self, text: &[u8])
        requires room { length self.old.texts < self.old.capacity }
        requires bytes { length text.now ≤ self.old.spare }
        ensures { self.new.texts ≡ self.old.texts ++ text.now ∷ [] }
    {
        let Ok(()) = self.bytes.extend_from_slice(text) else {
            unreachable!();
        };
        self.ends.push_reserved(self.bytes.len());
    }
}
