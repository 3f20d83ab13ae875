// Changes of students and of what they ask for.

ghost use Rattle.std.specs.Prelude.{◌≡◌, IfOk, OnErr};
ghost use Rattle.sect_model.specs.Fits.{Fits};
ghost use Rattle.sect_model.specs.Kept.{KeptWorld};
ghost use Rattle.sect_space.specs.Back.{taken_back};
ghost use Rattle.sect_space.specs.Made.{Made, Unchanged, Taken, Ready};
ghost use Rattle.sect_space.specs.Parts.{roomed_of};

use crate::back::Back;
use crate::parts::Parts;
use sect_base::{Items, Memory, StudentId};
use sect_model::Change;
use sect_people::{Ask, StudentRow};

impl Parts {
    /// Adds a student, or replaces a known one's row. Where memory runs out, nothing is changed. A student who comes gets
    /// a slot, so that those who come in order of id stand behind one another in the roster.
    pub fn put_student(&mut self, row: StudentRow) -> Result<Back, Memory>
        ensures ok { IfOk result (λ back. Made (roomed_of self.old) (roomed_of self.new) (Change.Student row) back) }
        ensures err { OnErr result (Unchanged (roomed_of self.old) (roomed_of self.new)) }
    {
        self.make_slot(row.id)?;
        self.put_row(row)
    }

    /// Makes a slot in the roster for a student who is unknown. Where memory runs out, there is none more.
    fn make_slot(&mut self, student: StudentId) -> Result<(), Memory>
        ensures same { Unchanged (roomed_of self.old) (roomed_of self.new) }
    {
        if self.people.row(student).is_some() {
            return Ok(());
        }
        self.roster.add_slot(student)
    }

    /// Adds a student, or replaces a known one's row, with no room made.
    fn put_row(&mut self, row: StudentRow) -> Result<Back, Memory>
        ensures ok { IfOk result (λ back. Made (roomed_of self.old) (roomed_of self.new) (Change.Student row) back) }
        ensures err { OnErr result (self.new ≡ self.old) }
    {
        let id = row.id;
        match self.people.put_student(row)? {
            Some(old) => Ok(Back::StudentReplaced(old)),
            None => Ok(Back::StudentAdded(id)),
        }
    }

    /// Takes the last student off. There is one.
    pub fn remove_student(&mut self, id: StudentId)
        requires { Ready (roomed_of self.old) (Back.StudentAdded id) }
        ensures { Taken (roomed_of self.old) (roomed_of self.new) (Back.StudentAdded id) }
    {
        let _ = id;
        let _ = self.people.remove_last();
    }

    /// Puts the old row back. The student is known.
    pub fn restore_student(&mut self, row: StudentRow)
        requires { Ready (roomed_of self.old) (Back.StudentReplaced row) }
        ensures { Taken (roomed_of self.old) (roomed_of self.new) (Back.StudentReplaced row) }
    {
        match self.people.put_student(row) {
            Ok(_) => {}
            Err(Memory) => unreachable!(),
        }
    }

    /// Replaces what a known student asks for. It takes no memory.
    pub fn put_requests(&mut self, student: StudentId, asks: Items<Ask>) -> Back
        requires { Fits (roomed_of self.old).world (Change.Requests student asks) }
        ensures { Made (roomed_of self.old) (roomed_of self.new) (Change.Requests student asks) result }
    {
        let old = self.people.set_requests(student, asks);
        Back::RequestsReplaced(student, old)
    }

    /// Puts the old requests back. The student is known.
    pub fn restore_requests(&mut self, student: StudentId, asks: Items<Ask>)
        requires { Ready (roomed_of self.old) (Back.RequestsReplaced student asks) }
        ensures { Taken (roomed_of self.old) (roomed_of self.new) (Back.RequestsReplaced student asks) }
    {
        let _ = self.people.set_requests(student, asks);
    }
}
