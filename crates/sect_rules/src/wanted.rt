// A want whose turn it is: its course is decided next.

ghost use Rattle.std.specs.Prelude.{◌≡◌, ◌<◌, ◌≤◌, length, map, slice_get, Some};
ghost use Rattle.std.specs.Option.{option_map};
ghost use Rattle.sect_model.specs.declared.pick.Pick.TheVariants.{Course as picks_course};
ghost use Rattle.sect_model.specs.Path.{options_at, want_at};
ghost use Rattle.sect_model.specs.Rules.{leaf_of};
ghost use Rattle.sect_model.specs.Stands.{MoveStands};
ghost use Rattle.sect_moment.specs.Completed.{opened};
ghost use Rattle.sect_rules.specs.Wanted.{met};

use sect_base::{Choice, CourseId, Rule};
use sect_moment::{LentMove, LentWant, Moment};
use sect_space::World;
use std::marker::Model;

/// A want of a move in a world, behind choices that are complete. Contracts see the four.
#[derive(Drop)]
pub struct Wanted<'a> {
    world: &'a World,
    mv: &'a LentMove<'a>,
    done: &'a [Choice],
    want: LentWant<'a>,
    moment: Moment<'a>,
}

impl<'a> Model for Wanted<'a> {
    ghost use Rattle.std.specs.Prelude.{◌≡◌, length, Some};
    ghost use Rattle.sect_model.specs.Path.{want_at};
    ghost use Rattle.sect_model.specs.Rules.{world_at};
    ghost use Rattle.sect_moment.specs.Completed.{opened};
    ghost use Rattle.sect_rules.specs.Wanted.{Wanted as Value_of};

    ghost Value = { Value_of };

    ghost view = { λ s. record { world = s.world.now.world; mv = s.mv.now; done = s.done.now; want = s.want } };

    ghost invariant = { λ s. (want_at s.mv.now (opened s.done.now) ≡ Some s.want) × (s.moment ≡ record { at = world_at s.world.now.world s.mv.now (opened s.done.now); student = s.mv.now.student }) };
}

impl<'a> Wanted<'a> {
    /// The want that comes after these choices.
    pub fn new(
        world: &'a World,
        mv: &'a LentMove<'a>,
        done: &'a [Choice],
        want: LentWant<'a>,
    ) -> Wanted<'a>
        requires stands { MoveStands world.now.world mv.now }
        requires few { length mv.now.take ≤ 20 }
        requires want { want_at mv.now (opened done.now) ≡ Some want }
        ensures { result ≡ record { world = world.now.world; mv = mv.now; done = done.now; want = want.entry } }
    {
        let moment = Moment::new(world, mv, done);
        Wanted {
            world,
            mv,
            done,
            want,
            moment,
        }
    }

    /// Does nothing: the contract tells what holds of every want.
    #[inline(always)]
    pub fn recall_want(&self)
        ensures { want_at self.now.mv (opened self.now.done) ≡ Some self.now.want }
    {
        let _ = &self.want;
    }

    /// Does nothing: the contract tells that the choices are fewer than the wants.
    #[inline(always)]
    pub fn recall_left(&self)
        ensures { length self.now.done < length self.now.mv.take }
    {
        let _ = &self.want;
    }

    /// The world.
    #[inline(always)]
    pub fn world(&self) -> &'a World
        ensures { result.now.world ≡ self.now.world }
    {
        self.world
    }

    /// The move.
    #[inline(always)]
    pub fn mv(&self) -> &'a LentMove<'a>
        ensures { result.now ≡ self.now.mv }
    {
        self.mv
    }

    /// The choices that are complete.
    #[inline(always)]
    pub fn done(&self) -> &'a [Choice]
        ensures { result.now ≡ self.now.done }
    {
        self.done
    }

    /// The want.
    #[inline(always)]
    pub(crate) fn want(&self) -> &LentWant<'a>
        ensures { result.now ≡ self.now.want }
    {
        &self.want
    }

    /// The world at the choices, as the student meets it.
    #[inline(always)]
    pub(crate) fn moment(&self) -> &Moment<'a>
        ensures { result.now ≡ record { at = met self.now; student = self.now.mv.student } }
    {
        &self.moment
    }

    /// The course at a place among those that are wanted, None exactly past the last.
    #[inline(always)]
    pub fn course(&self, i: usize) -> Option<CourseId>
        ensures { option_map picks_course result ≡ slice_get (options_at self.now.world self.now.mv (opened self.now.done)) i }
    {
        course_at(self.want.courses(), i)
    }

    /// The first rule that the choice of the course breaks, with its number. It takes no memory.
    pub fn broken(&self, course: CourseId) -> Option<(Rule, u32)>
        ensures { result ≡ leaf_of self.now.world self.now.mv (opened self.now.done) (picks_course course) }
    {
        self.moment.course_rule(course)
    }
}

/// The course at a place, None exactly past the last.
#[inline(always)]
fn course_at(courses: &[CourseId], i: usize) -> Option<CourseId>
    ensures { option_map picks_course result ≡ slice_get (map picks_course courses.now) i }
{
    let course = courses.get(i)?;
    Some(*course)
}
