// Whether two values are equal.

ghost use Rattle.std.specs.Prelude.{◌≡◌, ◌↔◌, IsTrue};

use crate::alternatives::Alternatives;
use crate::block::Block;
use crate::choice::{Choice, Curriculum, Move, Want};
use crate::ids::{ClassId, ConfigId, CourseId, GroupId, MajorId, SectionId, StudentId};
use crate::items::Items;
use crate::sections::Sections;

/// A value that can be compared with others of its type.
pub trait Same {
    /// Whether the two values are equal.
    fn same(&self, other: &Self) -> bool
        ensures { IsTrue result ↔ (self.now ≡ other.now) };
}

impl Same for StudentId {
    fn same(&self, other: &Self) -> bool {
        *self == *other
    }
}

impl Same for CourseId {
    fn same(&self, other: &Self) -> bool {
        *self == *other
    }
}

impl Same for ConfigId {
    fn same(&self, other: &Self) -> bool {
        *self == *other
    }
}

impl Same for SectionId {
    fn same(&self, other: &Self) -> bool {
        *self == *other
    }
}

impl Same for GroupId {
    fn same(&self, other: &Self) -> bool {
        *self == *other
    }
}

impl Same for ClassId {
    fn same(&self, other: &Self) -> bool {
        *self == *other
    }
}

impl Same for MajorId {
    fn same(&self, other: &Self) -> bool {
        *self == *other
    }
}

impl Same for Sections {
    fn same(&self, other: &Self) -> bool {
        all_same(self.as_slice(), other.as_slice())
    }
}

impl Same for Choice {
    fn same(&self, other: &Self) -> bool {
        self.course == other.course
            && self.reservation == other.reservation
            && self.config == other.config
            && self.sections.same(&other.sections)
    }
}

impl Same for Alternatives {
    fn same(&self, other: &Self) -> bool {
        all_same(self.as_slice(), other.as_slice())
    }
}

impl<T: Same> Same for Items<T> {
    fn same(&self, other: &Self) -> bool {
        all_same(self.as_slice(), other.as_slice())
    }
}

/// Whether the lists have equal elements in one order.
fn all_same<T: Same>(left: &[T], right: &[T]) -> bool
    ensures { IsTrue result ↔ (left.now ≡ right.now) }
{
    if left.len() != right.len() {
        return false;
    }
    for at in 0..left.len() {
        if !left[at].same(&right[at]) {
            return false;
        }
    }
    true
}

impl Same for Want {
    fn same(&self, other: &Self) -> bool {
        self.courses.same(&other.courses) && self.only.same(&other.only) && self.rank == other.rank
    }
}

impl Same for Curriculum {
    fn same(&self, other: &Self) -> bool {
        self.area == other.area && self.class == other.class && self.majors.same(&other.majors)
    }
}

impl Same for Move {
    fn same(&self, other: &Self) -> bool {
        self.student == other.student && self.give.same(&other.give) && self.take.same(&other.take)
    }
}

impl Same for Block {
    fn same(&self, other: &Self) -> bool {
        self.same_tree(other)
    }
}
