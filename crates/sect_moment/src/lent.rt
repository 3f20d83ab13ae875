// A move whose lists are borrowed, so that a search for it copies none.

ghost use Rattle.std.specs.Prelude.{◌≡◌, ◌∷◌, [], length, slice_get};

use sect_base::{CourseId, Move, SectionId, StudentId, Want};
use std::marker::Model;

/// A want whose lists are borrowed. Contracts see the want.
#[derive(Drop)]
pub struct LentWant<'a> {
    courses: &'a [CourseId],
    only: &'a [SectionId],
    rank: u8,
}

impl<'a> Model for LentWant<'a> {
    ghost use Rattle.sect_base.specs.declared.choice.Want.{Want as Value_of};

    ghost Value = { Value_of };

    ghost view = { λ w. record { courses = w.courses.now; only = w.only.now; rank = w.rank } };
}

impl<'a> LentWant<'a> {
    /// One of the courses, in this order; where `only` is not empty, in these sections alone. The rank is 1 to 21.
    #[inline(always)]
    pub fn new(courses: &'a [CourseId], only: &'a [SectionId], rank: u8) -> LentWant<'a>
        ensures { result ≡ record { courses = courses.now; only = only.now; rank = rank } }
    {
        LentWant {
            courses,
            only,
            rank,
        }
    }

    /// The want, with its lists where they are.
    #[inline(always)]
    pub fn of(want: &'a Want) -> LentWant<'a>
        ensures { result ≡ want.now }
    {
        LentWant {
            courses: want.courses.as_slice(),
            only: want.only.as_slice(),
            rank: want.rank,
        }
    }

    /// The courses of which one is wanted, the first that can be had.
    #[inline(always)]
    pub fn courses(&self) -> &'a [CourseId]
        ensures { result.now ≡ self.now.courses }
    {
        self.courses
    }

    /// The sections that are wanted, any where the list is empty.
    #[inline(always)]
    pub fn only(&self) -> &'a [SectionId]
        ensures { result.now ≡ self.now.only }
    {
        self.only
    }

    /// The rank, 1 to 21: the free times at smaller positions of the student's requests are kept.
    #[inline(always)]
    pub fn rank(&self) -> u8
        ensures { result ≡ self.now.rank }
    {
        self.rank
    }

    /// The same want.
    #[inline(always)]
    fn again(&self) -> LentWant<'a>
        ensures { result ≡ self.now }
    {
        LentWant {
            courses: self.courses,
            only: self.only,
            rank: self.rank,
        }
    }
}

/// The wants of a move: one whose lists are borrowed, or a list that is.
#[derive(Drop)]
enum Wants<'a> {
    One(LentWant<'a>),
    All(&'a [Want]),
}

/// Courses given up, and wants taken in their place, all borrowed. Contracts see the move.
#[derive(Drop)]
pub struct LentMove<'a> {
    student: StudentId,
    give: &'a [CourseId],
    take: Wants<'a>,
}

impl<'a> Model for LentMove<'a> {
    ghost use Rattle.sect_base.specs.declared.choice.Move.{Move as Value_of};
    ghost use Rattle.sect_moment.specs.Lent.{wants_of};

    ghost Value = { Value_of };

    ghost view = { λ m. record { student = m.student; give = m.give.now; take = wants_of m.take } };
}

impl<'a> LentMove<'a> {
    /// The move by which the student takes one want, and gives these courses up.
    #[inline(always)]
    pub fn one(student: StudentId, give: &'a [CourseId], want: LentWant<'a>) -> LentMove<'a>
        ensures { result ≡ record { student = student; give = give.now; take = want.entry ∷ [] } }
    {
        LentMove {
            student,
            give,
            take: Wants::One(want),
        }
    }

    /// The move by which the student takes these wants, and gives these courses up.
    pub fn all(student: StudentId, give: &'a [CourseId], take: &'a [Want]) -> LentMove<'a>
        ensures { result ≡ record { student = student; give = give.now; take = take.now } }
    {
        LentMove {
            student,
            give,
            take: Wants::All(take),
        }
    }

    /// The move, with its lists where they are.
    pub fn of(mv: &'a Move) -> LentMove<'a>
        ensures { result ≡ mv.now }
    {
        LentMove::all(mv.student, mv.give.as_slice(), mv.take.as_slice())
    }

    /// Whose move it is.
    #[inline(always)]
    pub fn student(&self) -> StudentId
        ensures { result ≡ self.now.student }
    {
        self.student
    }

    /// The courses that are given up.
    #[inline(always)]
    pub fn give(&self) -> &'a [CourseId]
        ensures { result.now ≡ self.now.give }
    {
        self.give
    }

    /// How many wants are taken.
    #[inline(always)]
    pub fn len(&self) -> usize
        ensures { result ≡ length self.now.take }
    {
        match &self.take {
            Wants::One(_) => 1,
            Wants::All(wants) => wants.len(),
        }
    }

    /// The want at a place, None exactly past the last.
    #[inline(always)]
    pub fn want(&self, at: usize) -> Option<LentWant<'a>>
        ensures { result ≡ slice_get self.now.take at }
    {
        match &self.take {
            Wants::One(want) => { if at == 0 { Some(want.again()) } else { None } }
            Wants::All(wants) => {
                let want = wants.get(at)?;
                Some(LentWant::of(want))
            }
        }
    }
}
