// The tickets of students.

ghost use Rattle.std.specs.Prelude.{◌≡◌, ℕ, [], true, OnOk};
ghost use Rattle.std.specs.Option.{is_some};
ghost use Rattle.sect_base.specs.Table.{value_at};
ghost use Rattle.sect_wait.specs.Indexed.{KeepsOthersOwn, KeepsOwn, KeepsWaited, has_ticket, own_tickets};

use crate::tickets::{note, strike, tickets_of};
use sect_base::{Memory, StudentId, Table};
use std::alloc::Global;
use std::collections::BTreeMap;

/// The tickets of each student's entries, and who ever waited. Others have none, so that who never waited is told by one look.
pub(crate) struct ByStudent {
    pub tickets: BTreeMap<u32, Vec<u64>>,
    pub waited: Table<()>,
}

/// It is written out, so that a caller does not prove again how each part is dropped.
impl Drop for ByStudent {
    fn drop(self) {
        let ByStudent {
            tickets: _,
            waited: _,
        } = self;
    }
}

impl ByStudent {
    /// No tickets. It takes no memory.
    pub fn empty(alloc: Global) -> ByStudent
        ensures { (n : ℕ) → own_tickets result n ≡ [] }
    {
        ByStudent {
            tickets: BTreeMap::new(alloc),
            waited: Table::empty(alloc),
        }
    }

    /// The tickets of a student. It takes no memory.
    pub fn get(&self, student: StudentId) -> &[u64]
        ensures { result.now ≡ own_tickets self.now student.0 }
    {
        match self.waited.get(student.0) {
            Some(_) => tickets_of(&self.tickets, student.0),
            None => &[],
        }
    }

    /// Puts a ticket behind those of a student. Where memory runs out, all stand as before.
    pub fn note(&mut self, alloc: Global, student: StudentId, ticket: u64) -> Result<(), Memory>
        ensures kept { KeepsOwn self.old self.new }
        ensures noted { OnOk result (has_ticket ticket (own_tickets self.new student.0) ≡ true) }
    {
        self.begin(student)?;
        note(alloc, &mut self.tickets, student.0, ticket)
    }

    /// Tells that a student waited. It takes no memory where that was told before. Where memory runs out, all stand as before.
    fn begin(&mut self, student: StudentId) -> Result<(), Memory>
        ensures tickets { self.new.tickets ≡ self.old.tickets }
        ensures kept { KeepsWaited self.old self.new }
        ensures waited { OnOk result (is_some (value_at self.new.waited student.0) ≡ true) }
    {
        if self.waited.get(student.0).is_some() {
            return Ok(());
        }
        self.waited.put(student.0, ())
    }

    /// Takes a ticket away from those of a student. It takes no memory, and the room stays.
    pub fn strike(&mut self, student: StudentId, ticket: u64)
        ensures { KeepsOthersOwn ticket self.old self.new }
    {
        strike(&mut self.tickets, student.0, ticket);
    }
}
