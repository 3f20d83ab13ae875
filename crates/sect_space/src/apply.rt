// Changes of the world, recorded, and undone again.

ghost use Rattle.std.specs.Prelude.{◌≡◌, ℕ, ◌<◌, ◌≤◌, ◌+◌, ◌++◌, ◌∷◌, [], length, take, drop, All, IsOk, OnOk, OnErr, IsTrue};
ghost use Rattle.sect_model.specs.Fits.{Fits, changed};
ghost use Rattle.sect_space.specs.Back.{back_of};
ghost use Rattle.sect_space.specs.Made.{Unchanged};
ghost use Rattle.sect_roster.specs.Slots.{capacity_of};
ghost use Rattle.sect_space.specs.Room.{HasPlace, HasRoomFor, HasSpare, KeepsRoom, KeepsUses, free_for};
ghost use Rattle.sect_space.specs.Undo.{undone, Undoable, takes_none};
ghost use Rattle.sect_space.specs.Undoing.{UndoneLast};

use crate::undo::Undo;
use crate::world::World;
use sect_base::Memory;
use sect_model::Change;
use sect_people::Student;
use sect_roster::Roster;

impl World {
    /// Makes a change that fits, and records it behind the others. Where memory runs out, the world and what is recorded
    /// are as before.
    pub fn apply(&mut self, change: Change, undo: &mut Undo) -> Result<(), Memory>
        requires { Fits self.old.world change }
        ensures world { OnOk result (self.new.world ≡ changed self.old.world change) }
        ensures recorded { OnOk result (undo.new.backs ≡ undo.old.backs ++ back_of self.old.world change ∷ []) }
        ensures err { OnErr result (self.new.world ≡ self.old.world) }
        ensures err_recorded { OnErr result (undo.new.backs ≡ undo.old.backs) }
        ensures room { KeepsRoom self.old self.new }
        ensures spare { (n : ℕ) → free_for self.old n ≤ free_for self.new n + 1 }
        ensures undo_spare { undo.old.spare ≤ undo.new.spare + 1 }
        ensures enough { IsTrue (takes_none change) → HasPlace self.old change → 0 < undo.old.spare → IsOk result }
        ensures undoable { Undoable self.old undo.old.backs → Undoable self.new undo.new.backs }
    {
        self.make(change, undo)?;
        Ok(())
    }

    /// Makes room for so many changes that enrol a known student, take an enrolment away, or set the day, whoever the
    /// students are. The world and what is recorded stay.
    pub fn reserve(&mut self, undo: &mut Undo, n: usize) -> Result<(), Memory>
        ensures world { self.new.world ≡ self.old.world }
        ensures recorded { undo.new.backs ≡ undo.old.backs }
        ensures spare { OnOk result (HasSpare self.new n) }
        ensures undo_spare { OnOk result (n ≤ undo.new.spare) }
        ensures room { KeepsRoom self.old self.new }
        ensures undo_room { undo.old.spare ≤ undo.new.spare }
        ensures enough { HasSpare self.old n → n ≤ undo.old.spare → IsOk result }
        ensures undoable { Undoable self.old undo.old.backs → Undoable self.new undo.new.backs }
    {
        self.reserve_roster(n)?;
        undo.reserve(n)
    }

    /// Takes back all that is recorded, the last change first. It takes no memory.
    pub fn undo(&mut self, undo: Undo)
        requires { Undoable self.old undo.backs }
        ensures world { self.new.world ≡ undone self.old.world undo.backs }
        ensures room { KeepsRoom self.old self.new }
    {
        let mut undo = undo;
        self.undo_to(&mut undo, 0);
    }

    /// Takes back the changes behind the first `len` that are recorded, the last one first. It takes no memory.
    pub fn undo_to(&mut self, undo: &mut Undo, len: usize)
        requires undoable { Undoable self.old undo.old.backs }
        requires len { len ≤ length undo.old.backs }
        ensures world { self.new.world ≡ undone self.old.world (drop len undo.old.backs) }
        ensures recorded { undo.new.backs ≡ take len undo.old.backs }
        ensures room { KeepsRoom self.old self.new }
        ensures undo_room { undo.old.spare ≤ undo.new.spare }
        ensures undoable { Undoable self.new undo.new.backs }
    {
        while undo.len() > len {
            self.undo_last(undo);
        }
    }

    /// Takes the last recorded change back. There is one.
    fn undo_last(&mut self, undo: &mut Undo)
        requires some { 0 < length undo.old.backs }
        requires undoable { Undoable self.old undo.old.backs }
        ensures { UndoneLast self.old undo.old self.new undo.new }
    {
        let back = undo.pop();
        self.take_back(back);
    }

    /// Makes room for so many enrolments more of each student. Where memory runs out, some have it.
    fn reserve_roster(&mut self, n: usize) -> Result<(), Memory>
        ensures same { Unchanged self.old self.new }
        ensures uses { KeepsUses self.old self.new }
        ensures spare { OnOk result (HasSpare self.new n) }
        ensures enough { HasSpare self.old n → IsOk result }
    {
        reserve_each(self.parts.people.students(), &mut self.parts.roster, n)
    }
}

/// Makes room for so many enrolments more of each student. Where memory runs out, some have it.
fn reserve_each(students: &[Student], roster: &mut Roster, n: usize) -> Result<(), Memory>
    ensures items { roster.new.items ≡ roster.old.items }
    ensures grows { (m : ℕ) → capacity_of roster.old.rooms m ≤ capacity_of roster.new.rooms m }
    ensures spare { OnOk result (All (HasRoomFor roster.new n) students.now) }
    ensures enough { All (HasRoomFor roster.old n) students.now → IsOk result }
{
    for student in students {
        roster.reserve(student.row().id, n)?;
    }
    Ok(())
}
