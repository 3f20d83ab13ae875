// The students, found by their ids.

ghost use Rattle.std.specs.Prelude.{
  ◌≡◌,
  ◌<◌,
  ◌-◌,
  [],
  ◌∷◌,
  ◌++◌,
  length,
  map,
  take,
  slice_get,
  option_copied,
  Some,
  None,
  IsTrue,
  IsOk,
  IfOk,
  OnOk,
  OnErr,
};
ghost use Rattle.std.specs.List.Sorted.{IsNonDecreasingBy};
ghost use Rattle.std.specs.Option.{is_some, option_map};
ghost use Rattle.sect_people.specs.Student.{find_student};
ghost use Rattle.sect_people.specs.Changes.{put_row, put_asks, with_row, ids_of};
ghost use Rattle.sect_people.specs.Index.{place_of};

use crate::rank::{guess, rank, stands_at};
use crate::row::{Ask, StudentRow};
use crate::student::Student;
use sect_base::{Items, Memory, StudentId};
use std::alloc::Global;
use std::marker::Model;

/// The students in order of arrival, no two with one id. They are seen as that list.
pub struct People {
    students: Vec<Student>,
    /// The ids in rising order.
    ids: Vec<StudentId>,
    /// The place among the students of each of these ids.
    places: Vec<usize>,
    alloc: Global,
}

/// It is written out, so that a caller does not prove again how each part is dropped.
impl Drop for People {
    fn drop(self) {
        let People {
            students: _,
            ids: _,
            places: _,
            alloc: _,
        } = self;
    }
}

impl Model for People {
    ghost use Rattle.std.specs.Prelude.{List};
    ghost use Rattle.sect_people.specs.Student.{Student as Value_of};
    ghost use Rattle.sect_people.specs.Index.{Keeps};

    ghost Value = { List Value_of };

    ghost view = { λ p. p.students.items };

    ghost invariant = { λ p. Keeps p.students.items p.ids.items p.places.items };
}

impl People {
    /// No students. It takes no memory.
    pub fn empty(alloc: Global) -> People
        ensures { result ≡ [] }
    {
        People {
            students: Vec::new(alloc),
            ids: Vec::new(alloc),
            places: Vec::new(alloc),
            alloc,
        }
    }

    /// The students in order of arrival. It takes no memory.
    pub fn students(&self) -> &[Student]
        ensures { result.now ≡ self.now }
    {
        self.students.as_slice()
    }

    /// All ids in rising order. It takes no memory.
    pub fn ids(&self) -> &[StudentId]
        ensures value { result.now ≡ ids_of self.now }
        ensures rising { IsNonDecreasingBy (λ d. d.0) result.now }
    {
        self.ids.as_slice()
    }

    /// The student of this id, None exactly where it is unknown. It takes no memory.
    pub fn student(&self, id: StudentId) -> Option<&Student>
        ensures { option_copied result ≡ find_student self.now id }
    {
        let place = self.place(id)?;
        self.students.get(place)
    }

    /// The row of a student, None exactly where the student is unknown. It takes no memory.
    pub fn row(&self, id: StudentId) -> Option<&StudentRow>
        ensures { option_copied result ≡ option_map (λ s. s.row) (find_student self.now id) }
    {
        match self.student(id) {
            Some(student) => Some(student.row()),
            None => None,
        }
    }

    /// What a student asks for, None exactly where the student is unknown. It takes no memory.
    pub fn asks(&self, id: StudentId) -> Option<&[Ask]>
        ensures { option_copied result ≡ option_map (λ s. s.asks) (find_student self.now id) }
    {
        match self.student(id) {
            Some(student) => Some(student.asks()),
            None => None,
        }
    }

    /// Adds a student who asks for nothing, or replaces the row of a known one, whose requests stay,
    /// and gives the old row back: None exactly where the student was unknown. A known student's
    /// change takes no memory. Where memory runs out, the people are as before.
    pub fn put_student(&mut self, row: StudentRow) -> Result<Option<StudentRow>, Memory>
        ensures given_back { IfOk result (λ old. old ≡ option_map (λ s. s.row) (find_student self.old row.id)) }
        ensures ok { OnOk result (self.new ≡ put_row self.old row) }
        ensures err { OnErr result (self.new ≡ self.old) }
        ensures known { IsTrue (is_some (find_student self.old row.id)) → IsOk result }
    {
        match self.place(row.id) {
            Some(place) => Ok(Some(self.replace_row(place, row))),
            None => {
                self.add(row)?;
                Ok(None)
            }
        }
    }

    /// Replaces what a known student asks for, and gives the old requests back. It takes no memory.
    pub fn set_requests(&mut self, student: StudentId, asks: Items<Ask>) -> Items<Ask>
        requires { IsTrue (is_some (find_student self.old student)) }
        ensures given_back { Some result ≡ option_map (λ s. s.asks) (find_student self.old student) }
        ensures replaced { self.new ≡ put_asks self.old student asks }
    {
        match self.place(student) {
            Some(place) => self.replace_asks(place, student, asks),
            None => asks,
        }
    }

    /// Takes the student off who came last, with the requests. It takes no memory.
    pub fn remove_last(&mut self) -> StudentRow
        requires { 0 < length self.old }
        ensures row { Some result ≡ option_map (λ s. s.row) (slice_get self.old (length self.old - 1)) }
        ensures rest { self.new ≡ take (length self.old - 1) self.old }
    {
        let last = self.students.len() - 1;
        let rank = rank(self.ids.as_slice(), self.students[last].row().id);
        let _ = self.ids.remove(rank);
        let _ = self.places.remove(rank);
        self.students.remove(last).into_row()
    }

    /// Puts the row in the place of its student's, which is given back.
    fn replace_row(&mut self, place: usize, row: StudentRow) -> StudentRow
        requires { place_of (λ s. s.row.id.0) self.old row.id.0 ≡ Some place }
        ensures given_back { Some result ≡ option_map (λ s. s.row) (find_student self.old row.id) }
        ensures replaced { self.new ≡ map (with_row row) self.old }
    {
        self.students[place].replace_row(row)
    }

    /// Puts the requests in the place of the student's, which are given back.
    fn replace_asks(&mut self, place: usize, student: StudentId, asks: Items<Ask>) -> Items<Ask>
        requires { place_of (λ s. s.row.id.0) self.old student.0 ≡ Some place }
        ensures given_back { Some result ≡ option_map (λ s. s.asks) (find_student self.old student) }
        ensures replaced { self.new ≡ put_asks self.old student asks }
    {
        self.students[place].replace_asks(asks)
    }

    /// Adds a student at the end. Once there is room everywhere, nothing fails.
    fn add(&mut self, row: StudentRow) -> Result<(), Memory>
        requires { place_of (λ s. s.row.id.0) self.old row.id.0 ≡ None }
        ensures ok { OnOk result (self.new ≡ self.old ++ record { row = row; asks = [] } ∷ []) }
        ensures err { OnErr result (self.new ≡ self.old) }
    {
        self.students.reserve(1)?;
        self.ids.reserve(1)?;
        self.places.reserve(1)?;
        let id = row.id;
        let rank = rank(self.ids.as_slice(), id);
        self.places.insert(rank, self.students.len())?;
        self.ids.insert(rank, id)?;
        self.students.push(Student::new(self.alloc, row))?;
        Ok(())
    }

    /// Where the student stands in order of arrival. A right guess is told at once.
    fn place(&self, id: StudentId) -> Option<usize>
        ensures { result ≡ place_of (λ s. s.row.id.0) self.now id.0 }
    {
        let place = guess(self.ids.as_slice(), id);
        if stands_at(self.ids.as_slice(), id, place) {
            return Some(self.places[place]);
        }
        self.searched_place(id)
    }

    /// Where the student stands in order of arrival, by a search.
    fn searched_place(&self, id: StudentId) -> Option<usize>
        ensures { result ≡ place_of (λ s. s.row.id.0) self.now id.0 }
    {
        let rank = rank(self.ids.as_slice(), id);
        let found = *self.ids.get(rank)?;
        if found == id {
            Some(self.places[rank])
        } else {
            None
        }
    }
}
