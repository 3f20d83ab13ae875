// The place of each key, in the order of their coming.
ghost use Rattle.std.specs.Prelude.{◌≡◌, ◌<◌, ◌≤◌, ◌^◌, ◌++◌, ◌∷◌, [], None, length, IfOk, OnOk};
ghost use Rattle.sect_once.specs.Places.{placed, start_of, taken, tried, ArePlaces, IsFree, IsTable};

use sect_base::Memory;
use std::alloc::Global;
use std::marker::Model;

/// The place of each key, in the order of their coming. Contracts see the list of the keys, and how many there is room for.
#[derive(Drop)]
pub(crate) struct Places {
    keys: Vec<u128>,
    /// At each slot the place behind that of its key, 0 where it is free. Empty, or with more slots than keys.
    slots: Vec<u32>,
}

impl Model for Places {
    ghost use Rattle.std.specs.Prelude.{length, min, vec_capacity};
    ghost use Rattle.sect_once.specs.Places.{ArePlaces, Listed};

    ghost Value = { Listed };

    ghost view = { λ p. record { keys = p.keys.items; capacity = min (vec_capacity p.keys) (length p.slots.items) } };

    ghost invariant = { λ p. ArePlaces p.keys.items p.slots.items };
}

/// The most slots of a table.
const MOST_SLOTS: usize = 1 << 31;

/// The first slot tried for a key: its halves are mixed to 32 bits, which are spread over the slots.
#[inline(always)]
#[tactic(auto, unfolding(crate::specs::Places::start_of))]
fn start(key: u128, slots: usize) -> usize
    requires some { 0 < slots }
    requires few { slots ≤ 2 ^ 31 }
    ensures start { result ≡ start_of key slots }
    ensures inside { result < slots }
{
    let low = (key % (1 << 64)) as u64;
    let high = (key / (1 << 64)) as u64;
    let both = low.wrapping_add(high.wrapping_mul(11400714819323198485));
    let bits = both.wrapping_mul(15241094284759029579) / (1 << 32);
    bits as usize * slots / (1 << 32)
}

/// The slot tried behind so many others: the first stands behind the last.
#[inline(always)]
fn tried(slots: usize, start: usize, tries: usize) -> usize
    requires few { slots ≤ 2 ^ 31 }
    requires start { start < slots }
    requires tries { tries < slots }
    ensures slot { result ≡ tried slots start tries }
    ensures inside { result < slots }
{
    let at = start + tries;
    if at < slots { at } else { at - slots }
}

/// The place of a key.
#[inline(always)]
fn find_in(keys: &[u128], slots: &[u32], key: u128) -> Option<u32>
    requires { ArePlaces keys.now slots.now }
    ensures { result ≡ placed keys.now key }
{
    let count = slots.len();
    if count == 0 {
        return None;
    }
    let start = start(key, count);
    for tries in 0..count {
        let behind = slots[tried(count, start, tries)];
        if behind == 0 {
            return None;
        }
        let place = behind - 1;
        if keys[place as usize] == key {
            return Some(place);
        }
    }
    None
}

/// The first free slot that is tried for a key.
fn free_slot(slots: &[u32], key: u128) -> usize
    requires few { length slots.now ≤ 2 ^ 31 }
    requires room { taken slots.now < length slots.now }
    ensures { IsFree slots.now key result }
{
    let count = slots.len();
    let start = start(key, count);
    for tries in 0..count {
        let at = tried(count, start, tries);
        if slots[at] == 0 {
            return at;
        }
    }
    unreachable!()
}

/// The table of the keys with so many slots.
fn table_of(alloc: Global, keys: &[u128], count: usize) -> Result<Vec<u32>, Memory>
    requires few { count ≤ 2 ^ 31 }
    requires room { length keys.now < count }
    ensures table { IfOk result (λ slots. IsTable keys.now slots.items) }
    ensures len { IfOk result (λ slots. length slots.items ≡ count) }
{
    let mut slots = Vec::new(alloc);
    slots.resize(count, 0)?;
    for place in 0..keys.len() {
        let at = free_slot(slots.as_slice(), keys[place]);
        slots[at] = place as u32 + 1;
    }
    Ok(slots)
}

impl Places {
    /// No keys.
    pub(crate) fn none(alloc: Global) -> Places
        ensures { result.keys ≡ [] }
    {
        Places {
            keys: Vec::new(alloc),
            slots: Vec::new(alloc),
        }
    }

    /// The place of a key.
    #[inline(always)]
    pub(crate) fn find(&self, key: u128) -> Option<u32>
        ensures { result ≡ placed self.now.keys key }
    {
        find_in(self.keys.as_slice(), self.slots.as_slice(), key)
    }

    /// Makes room for one key more. The keys stay as they are.
    pub(crate) fn reserve(&mut self) -> Result<(), Memory>
        ensures keys { self.new.keys ≡ self.old.keys }
        ensures room { OnOk result (length self.new.keys < self.new.capacity) }
    {
        self.keys.reserve(1)?;
        let count = self.slots.len();
        if count / 2 > self.keys.len() + 1 {
            return Ok(());
        }
        if count > MOST_SLOTS / 4 {
            return Err(Memory);
        }
        let more = count.max(4) * 4;
        let alloc = *self.slots.allocator();
        self.slots = table_of(alloc, self.keys.as_slice(), more)?;
        Ok(())
    }

    /// Takes a key behind the others. There is room for it.
    pub(crate) fn put(&mut self, key: u128)
        requires room { length self.old.keys < self.old.capacity }
        requires new { placed self.old.keys key ≡ None }
        ensures { self.new.keys ≡ self.old.keys ++ key ∷ [] }
    {
        let at = free_slot(self.slots.as_slice(), key);
        self.slots[at] = self.keys.len() as u32 + 1;
        self.keys.push_reserved(key);
    }
}
