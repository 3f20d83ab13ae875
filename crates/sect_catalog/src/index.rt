// The index of ids: each id's first place in the rows.

ghost use Rattle.std.specs.Prelude.{◌≡◌, ℕ, ◌∷◌, [], cond, true, nat_lt, take, Some, None, OnOk, OnErr};
ghost use Rattle.std.specs.List.{list_all};
ghost use Rattle.std.specs.Option.{is_some};
ghost use Rattle.sect_catalog.specs.Fault.{same_kind};
ghost use Rattle.sect_catalog.specs.Place.{place_of, Notes, KeepsFirst, has_kind};

use crate::place::{Key, Place};
use sect_base::{Memory, Table, Test};
use std::alloc::Global;

/// Ids of kinds, each with a place: a table for each kind.
pub struct Index {
    offerings: Table<Place>,
    courses: Table<Place>,
    configs: Table<Place>,
    subparts: Table<Place>,
    sections: Table<Place>,
}

/// It is written out, so that a caller does not prove again how each part is dropped.
impl Drop for Index {
    fn drop(self) {
        let Index {
            offerings: _,
            courses: _,
            configs: _,
            subparts: _,
            sections: _,
        } = self;
    }
}

impl Index {
    /// No ids. It takes no memory.
    pub fn empty(alloc: Global) -> Index
        ensures { (id : ℕ × ℕ) → place_of result id ≡ None }
    {
        Index {
            offerings: Table::empty(alloc),
            courses: Table::empty(alloc),
            configs: Table::empty(alloc),
            subparts: Table::empty(alloc),
            sections: Table::empty(alloc),
        }
    }

    /// The place of an offering.
    #[inline(always)]
    pub fn offering(&self, id: u32) -> Option<Place>
        ensures { result ≡ place_of self.now (0, id) }
    {
        self.offerings.get(id)
    }

    /// The place of a course.
    #[inline(always)]
    pub fn course(&self, id: u32) -> Option<Place>
        ensures { result ≡ place_of self.now (1, id) }
    {
        self.courses.get(id)
    }

    /// The place of a configuration.
    #[inline(always)]
    pub fn config(&self, id: u32) -> Option<Place>
        ensures { result ≡ place_of self.now (2, id) }
    {
        self.configs.get(id)
    }

    /// The place of a section.
    #[inline(always)]
    pub fn section(&self, id: u32) -> Option<Place>
        ensures { result ≡ place_of self.now (4, id) }
    {
        self.sections.get(id)
    }

    /// The place of an id.
    pub fn place(&self, id: Key) -> Option<Place>
        ensures { result ≡ place_of self.now id }
    {
        match id.0 {
            0 => self.offering(id.1),
            1 => self.course(id.1),
            2 => self.config(id.1),
            3 => self.subparts.get(id.1),
            4 => self.section(id.1),
            _ => None,
        }
    }

    /// Whether the id has a place.
    pub fn has(&self, id: Key) -> bool
        ensures { result ≡ is_some (place_of self.now id) }
    {
        self.place(id).is_some()
    }

    /// Notes the entries' places. An id that has one keeps it. Where memory runs out, some first
    /// ones are noted.
    pub fn note(&mut self, entries: &[(Key, Place)]) -> Result<(), Memory>
        requires { list_all has_kind entries.now ≡ true }
        ensures ok { OnOk result (Notes self.old self.new entries.now) }
        ensures err { OnErr result ((n : ℕ) × Notes self.old self.new (take n entries.now)) }
    {
        for entry in entries {
            self.note_one(entry.0, entry.1)?;
        }
        Ok(())
    }

    /// Notes one id's place. An id that has one keeps it.
    fn note_one(&mut self, id: Key, at: Place) -> Result<(), Memory>
        requires { has_kind (id, at) ≡ true }
        ensures ok { OnOk result (Notes self.old self.new ((id, at) ∷ [])) }
        ensures err { OnErr result ((q : ℕ × ℕ) → place_of self.new q ≡ place_of self.old q) }
    {
        if self.has(id) {
            return Ok(());
        }
        self.put(id, at)
    }

    /// Gives an id this place. Where memory runs out, each keeps what it had.
    fn put(&mut self, id: Key, at: Place) -> Result<(), Memory>
        requires { has_kind (id, at) ≡ true }
        ensures ok { OnOk result ((q : ℕ × ℕ) → place_of self.new q ≡ cond (same_kind id q) (Some at) (place_of self.old q)) }
        ensures err { OnErr result ((q : ℕ × ℕ) → place_of self.new q ≡ place_of self.old q) }
    {
        match id.0 {
            0 => self.offerings.put(id.1, at),
            1 => self.courses.put(id.1, at),
            2 => self.configs.put(id.1, at),
            3 => self.subparts.put(id.1, at),
            4 => self.sections.put(id.1, at),
            _ => unreachable!(),
        }
    }

    /// Forgets the places that aren't in so many first rows. It takes no memory.
    pub fn keep_first(&mut self, rows: usize)
        ensures { KeepsFirst rows self.old self.new }
    {
        let first = First { rows };
        self.offerings.keep(&first);
        self.courses.keep(&first);
        self.configs.keep(&first);
        self.subparts.keep(&first);
        self.sections.keep(&first);
    }
}

/// The places in so many first rows.
#[derive(Drop)]
struct First {
    rows: usize,
}

impl Test<Place> for First {
    ghost passes = { λ first at. nat_lt at.row first.rows };

    fn passes(&self, place: Place) -> bool {
        place.row < self.rows
    }
}
