// The courses of which one is wanted, in the value itself where they are few.

ghost use Rattle.std.specs.Prelude.{◌≡◌, ◌<◌, ◌≤◌, ◌↔◌, ◌++◌, [], ◌∷◌, length, IfOk, IsOk, IsTrue, OnErr, OnOk};

use crate::duplicate::Memory;
use crate::ids::CourseId;
use smallvec::SmallVec;
use std::alloc::Global;
use std::marker::Model;

/// Courses of which one is wanted, the most wanted first. At most four lie in the value itself; more lie in an allocation.
/// Contracts see a list.
pub struct Alternatives {
    courses: SmallVec<CourseId, 4>,
}

/// It is written out, so that a caller does not prove again how each part is dropped.
impl Drop for Alternatives {
    fn drop(self) {
        let Alternatives { courses: _ } = self;
    }
}

impl Model for Alternatives {
    ghost use Rattle.std.specs.Prelude.{List};
    ghost use Rattle.sect_base.specs.declared.ids.CourseId.{CourseId};

    ghost Value = { List CourseId };

    ghost view = { λ a. a.courses.items };
}

impl Alternatives {
    /// No courses. It takes no memory.
    #[inline(always)]
    pub fn none(alloc: Global) -> Alternatives
        ensures { result ≡ [] }
    {
        Alternatives {
            courses: SmallVec::new(alloc),
        }
    }

    /// One course alone. It takes no memory.
    #[inline(always)]
    pub fn one(alloc: Global, course: CourseId) -> Alternatives
        ensures { result ≡ course ∷ [] }
    {
        let mut courses = SmallVec::new(alloc);
        courses.push_reserved(course);
        Alternatives { courses }
    }

    /// The courses of a slice. It takes no memory where they are at most four.
    #[inline(always)]
    pub fn from_slice(alloc: Global, courses: &[CourseId]) -> Result<Alternatives, Memory>
        ensures all { IfOk result (λ all. all ≡ courses.now) }
        ensures few { length courses.now ≤ 4 → IsOk result }
    {
        Ok(Alternatives {
            courses: SmallVec::from_slice(alloc, courses)?,
        })
    }

    /// Puts a course behind the others. It takes no memory where there are less than four. After `Memory` all is as before.
    #[inline(always)]
    pub fn push(&mut self, course: CourseId) -> Result<(), Memory>
        ensures ok { OnOk result (self.new ≡ self.old ++ course ∷ []) }
        ensures err { OnErr result (self.new ≡ self.old) }
        ensures few { length self.old < 4 → IsOk result }
    {
        prove!(self.courses.capacity() >= 4);
        self.courses.push(course)?;
        Ok(())
    }

    /// The courses in their order.
    #[inline(always)]
    pub fn as_slice(&self) -> &[CourseId]
        ensures { result.now ≡ self.now }
    {
        self.courses.as_slice()
    }

    /// How many there are.
    #[inline(always)]
    pub fn len(&self) -> usize
        ensures { result ≡ length self.now }
    {
        self.courses.len()
    }

    #[inline(always)]
    pub fn is_empty(&self) -> bool
        ensures { IsTrue result ↔ (self.now ≡ []) }
    {
        self.courses.len() == 0
    }
}
