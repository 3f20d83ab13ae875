// Courses in the order in which they came, which are found by a set.

ghost use Rattle.std.specs.Prelude.{◌≡◌, ◌==◌, ◌++◌, [], ◌∷◌, OnErr, OnOk, IsTrue};
ghost use Rattle.std.specs.List.{list_any};
ghost use Rattle.sect_wait.specs.Marked.{wants_one as is_wanting};

use sect_base::{CourseId, Memory};
use sect_model::Waiting;
use std::alloc::Global;
use std::collections::BTreeSet;
use std::marker::Model;

/// Courses in the order in which they came. Contracts see the list.
pub(crate) struct Courses {
    list: Vec<CourseId>,
    set: BTreeSet<u32>,
}

/// It is written out, so that a caller does not prove again how each part is dropped.
impl Drop for Courses {
    fn drop(self) {
        let Courses { list: _, set: _ } = self;
    }
}

impl Model for Courses {
    ghost use Rattle.std.specs.Prelude.{List};
    ghost use Rattle.sect_base.specs.declared.ids.CourseId.{CourseId};
    ghost use Rattle.sect_wait.specs.Marked.{IsSetOfCourses};

    ghost Value = { List CourseId };

    ghost view = { λ c. c.list.items };

    ghost invariant = { λ c. IsSetOfCourses c.list.items c.set };
}

impl Courses {
    /// No courses. It takes no memory.
    pub fn none(alloc: Global) -> Courses
        ensures { result ≡ [] }
    {
        Courses {
            list: Vec::new(alloc),
            set: BTreeSet::new(alloc),
        }
    }

    /// Whether there are none. It takes no memory.
    pub fn is_empty(&self) -> bool
        ensures none { IsTrue result → self.now ≡ [] }
        ensures only { self.now ≡ [] → IsTrue result }
    {
        self.list.is_empty()
    }

    /// The courses. It takes no memory.
    pub fn as_slice(&self) -> &[CourseId]
        ensures { result.now ≡ self.now }
    {
        self.list.as_slice()
    }

    /// Whether the course is one of them.
    fn has(&self, course: CourseId) -> bool
        ensures { result ≡ list_any (λ d. d.0 == course.0) self.now }
    {
        self.set.contains(&course.0)
    }

    /// Whether the entry wants one of them. It takes no memory.
    pub fn are_wanted(&self, entry: &Waiting) -> bool
        ensures { result ≡ is_wanting self.now entry.now }
    {
        self.has_one(entry.want.courses.as_slice())
    }

    /// Whether one of the courses is one of them.
    fn has_one(&self, courses: &[CourseId]) -> bool
        ensures { result ≡ list_any (λ c. list_any (λ d. d.0 == c.0) self.now) courses.now }
    {
        courses.iter().any(|course| self.has(*course))
    }

    /// Puts a course behind the others. Where memory runs out, they are as before.
    pub fn push(&mut self, course: CourseId) -> Result<(), Memory>
        ensures ok { OnOk result (self.new ≡ self.old ++ course ∷ []) }
        ensures err { OnErr result (self.new ≡ self.old) }
    {
        self.list.reserve(1)?;
        self.set.insert(course.0)?;
        self.list.push_reserved(course);
        Ok(())
    }
}
