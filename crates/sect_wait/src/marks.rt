// Which waiting entries must be tried.

ghost use Rattle.std.specs.Prelude.{◌≡◌, ◌==◌, ◌++◌, [], ◌∷◌, true, None as Nothing, Some as Told, OnErr, OnOk, IsTrue};
ghost use Rattle.std.specs.List.{list_any};
ghost use Rattle.sect_wait.specs.Marked.{no_marks, is_from as is_turn_from, is_marked, is_source as has_source};

use crate::courses::Courses;
use sect_base::{CourseId, Memory};
use sect_model::Waiting;
use std::alloc::Global;
use std::collections::BTreeSet;
use std::marker::Model;

/// When an entry is tried: by class, and then by ticket.
#[derive(Clone, Copy, PartialEq, Eq)]
pub struct Turn {
    pub class: u8,
    pub ticket: u64,
}

/// The entries that must be tried: by their tickets, which are found by a set, by a course that they want, or all of them.
/// Those that aren't marked by their tickets need not be tried before a turn. The tickets of entries whose searches were
/// spent are noted beside: these need no other search until a change touches them.
pub struct Marks {
    all: bool,
    tickets: Vec<u64>,
    set: BTreeSet<u64>,
    courses: Courses,
    givers: Courses,
    from: Option<Turn>,
    spent: Vec<u64>,
}

/// It is written out, so that a caller does not prove again how each part is dropped.
impl Drop for Marks {
    fn drop(self) {
        let Marks {
            all: _,
            tickets: _,
            set: _,
            courses: _,
            givers: _,
            from: _,
            spent: _,
        } = self;
    }
}

impl Model for Marks {
    ghost use Rattle.sect_wait.specs.Marked.{Marked, IsSetOf};

    ghost Value = { Marked };

    ghost view = { λ m. record { all = m.all; tickets = m.tickets.items; courses = m.courses; givers = m.givers; from = m.from; spent = m.spent.items } };

    ghost invariant = { λ m. IsSetOf m.tickets.items m.set };
}

impl Marks {
    /// Nobody is marked, and nobody is noted as spent. It takes no memory.
    pub fn none(alloc: Global) -> Marks
        ensures { result ≡ no_marks [] }
    {
        Marks {
            all: false,
            tickets: Vec::new(alloc),
            set: BTreeSet::new(alloc),
            courses: Courses::none(alloc),
            givers: Courses::none(alloc),
            from: None,
            spent: Vec::new(alloc),
        }
    }

    /// Whether nobody is marked, whoever is noted as spent. It takes no memory.
    pub fn is_none(&self) -> bool
        ensures none { IsTrue result → self.now ≡ no_marks self.now.spent }
        ensures only { self.now ≡ no_marks self.now.spent → IsTrue result }
    {
        !self.all
            && self.tickets.is_empty()
            && self.courses.is_empty()
            && self.givers.is_empty()
            && self.from.is_none()
    }

    /// Whether the entry is marked. It takes no memory.
    pub fn has(&self, entry: &Waiting) -> bool
        ensures { result ≡ is_marked self.now entry.now }
    {
        self.has_ticket(entry.ticket) || self.is_source(entry) && is_from(&self.from, entry)
    }

    /// Whether the ticket is marked. It takes no memory.
    pub fn has_ticket(&self, ticket: u64) -> bool
        ensures { result ≡ list_any (λ t. t == ticket) self.now.tickets }
    {
        self.set.contains(&ticket)
    }

    /// Whether all are marked, or a course by which the entry is.
    fn is_source(&self, entry: &Waiting) -> bool
        ensures { result ≡ has_source self.now entry.now }
    {
        self.all
            || self.courses.are_wanted(entry)
            || entry.give.is_some() && self.givers.are_wanted(entry)
    }

    /// Whether all are marked. It takes no memory.
    pub fn has_all(&self) -> bool
        ensures { result ≡ self.now.all }
    {
        self.all
    }

    /// The marked tickets. It takes no memory.
    pub fn tickets(&self) -> &[u64]
        ensures { result.now ≡ self.now.tickets }
    {
        self.tickets.as_slice()
    }

    /// The courses that are marked for all who want them. It takes no memory.
    pub fn courses(&self) -> &[CourseId]
        ensures { result.now ≡ self.now.courses }
    {
        self.courses.as_slice()
    }

    /// The courses that are marked for those who want them and give one up. It takes no memory.
    pub fn givers(&self) -> &[CourseId]
        ensures { result.now ≡ self.now.givers }
    {
        self.givers.as_slice()
    }

    /// The tickets that are noted as spent. It takes no memory.
    pub fn spent(&self) -> &[u64]
        ensures { result.now ≡ self.now.spent }
    {
        self.spent.as_slice()
    }

    /// Whether the ticket is noted as spent. It takes no memory.
    pub fn has_spent(&self, ticket: u64) -> bool
        ensures { result ≡ list_any (λ t. t == ticket) self.now.spent }
    {
        self.spent.iter().any(|other| *other == ticket)
    }

    /// Notes a ticket as spent.
    pub fn note(&mut self, ticket: u64) -> Result<(), Memory>
        ensures ok { OnOk result (self.new ≡ record self.old { spent = self.old.spent ++ ticket ∷ [] }) }
        ensures err { OnErr result (self.new ≡ self.old) }
    {
        self.spent.push(ticket)?;
        Ok(())
    }

    /// Takes all marks off. What is noted as spent stays. It takes no memory.
    pub fn clear(&mut self, alloc: Global)
        ensures { self.new ≡ no_marks self.old.spent }
    {
        self.all = false;
        self.tickets.clear();
        self.set = BTreeSet::new(alloc);
        self.courses = Courses::none(alloc);
        self.givers = Courses::none(alloc);
        self.from = None;
    }

    /// Marks a ticket.
    pub fn mark(&mut self, ticket: u64) -> Result<(), Memory>
        ensures ok { OnOk result (self.new ≡ record self.old { tickets = self.old.tickets ++ ticket ∷ [] }) }
        ensures err { OnErr result (self.new ≡ self.old) }
    {
        self.tickets.reserve(1)?;
        self.set.insert(ticket)?;
        self.tickets.push_reserved(ticket);
        Ok(())
    }

    /// Marks a course for all who want it, whatever their turn.
    pub fn mark_course(&mut self, course: CourseId) -> Result<(), Memory>
        ensures ok { OnOk result (self.new ≡ record self.old { courses = self.old.courses ++ course ∷ []; from = Nothing }) }
        ensures err { OnErr result (self.new ≡ self.old) }
    {
        self.courses.push(course)?;
        self.from = None;
        Ok(())
    }

    /// Marks a course for those who want it and give one up, whatever their turn.
    pub fn mark_giver(&mut self, course: CourseId) -> Result<(), Memory>
        ensures ok { OnOk result (self.new ≡ record self.old { givers = self.old.givers ++ course ∷ []; from = Nothing }) }
        ensures err { OnErr result (self.new ≡ self.old) }
    {
        self.givers.push(course)?;
        self.from = None;
        Ok(())
    }

    /// Marks all, those to come too. It takes no memory.
    pub fn mark_all(&mut self)
        ensures { self.new ≡ record self.old { all = true; from = Nothing } }
    {
        self.all = true;
        self.from = None;
    }

    /// Takes the marks off that are by no ticket and of those whose turn is before this one. It takes no memory.
    pub fn pass(&mut self, turn: Turn)
        ensures { self.new ≡ record self.old { from = Told turn } }
    {
        self.from = Some(turn);
    }
}

/// Whether the entry's turn is this one or a later one.
fn is_from(from: &Option<Turn>, entry: &Waiting) -> bool
    ensures { result ≡ is_turn_from from.now entry.now }
{
    match from {
        Some(turn) => {
            turn.class < entry.class || turn.class == entry.class && turn.ticket <= entry.ticket
        }
        None => true,
    }
}
