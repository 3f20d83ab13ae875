// The decisions made so far, in the value itself.

ghost use Rattle.std.specs.Prelude.{◌≡◌, ◌<◌, ◌≤◌, ◌++◌, ◌∷◌, [], length, Contains};
ghost use Rattle.sect_model.specs.Path.{
  start as start_path,
  extend,
  close as closed,
  options_at,
  sections_due,
};
ghost use Rattle.sect_model.specs.Stands.{MoveStands};
ghost use Rattle.sect_moment.specs.Completed.{opened};
ghost use Rattle.sect_rules.specs.Added.{with_section};

use crate::rows::subparts_at;
use sect_base::{Choice, ConfigId, CourseId, Move, ReservationId, SectionId, Sections};
use sect_model::Pick;
use sect_moment::ground_of;
use sect_space::World;
use std::marker::Model;

/// What a path has beside its cells: how many of them are choices, and the decisions for the next want.
#[derive(Clone, Copy)]
struct Decisions {
    len: u8,
    course: Option<CourseId>,
    reservation: Option<Option<ReservationId>>,
    config: Option<ConfigId>,
    sections: Sections,
}

/// The choices that are complete, at most N, and the decisions for the next want. It lies in the
/// value itself, so nothing that is done with it takes memory.
#[derive(Drop)]
pub struct PathOf<const N: usize> {
    // Those behind the first `len` stand for nothing. Each function that reads the decisions alone names
    // the cells first: the proof knows their type only there.
    cells: [Choice; N],
    decisions: Decisions,
}

impl<const N: usize> Model for PathOf<N> {
    ghost use Rattle.std.specs.Prelude.{take, ◌≤◌};
    ghost use Rattle.sect_model.specs.Path.{Path as Value_of};

    ghost Value = { Value_of };

    ghost view = { λ p. record { done = take p.decisions.len p.cells; course = p.decisions.course; reservation = p.decisions.reservation; config = p.decisions.config; sections = p.decisions.sections } };

    ghost invariant = { λ p. (p.decisions.len ≤ N) × (N ≤ 20) };
}

/// The path of a move that takes at most four.
pub type Path = PathOf<4>;

impl<const N: usize> PathOf<N> {
    /// The path with no decision.
    pub fn start() -> PathOf<N>
        requires { N ≤ 20 }
        ensures { result ≡ start_path }
    {
        let nothing = Choice {
            course: CourseId(0),
            reservation: None,
            config: ConfigId(0),
            sections: Sections::empty(),
        };
        PathOf {
            cells: [nothing; N],
            decisions: Decisions {
                len: 0,
                course: None,
                reservation: None,
                config: None,
                sections: Sections::empty(),
            },
        }
    }

    /// The choices that are complete.
    pub fn done(&self) -> &[Choice]
        ensures value { result.now ≡ self.now.done }
        ensures room { length result.now ≤ N }
        ensures bound { length result.now ≤ 20 }
    {
        &self.cells[..usize::from(self.decisions.len)]
    }

    /// The course decided on for the next want, if one was.
    pub fn course(&self) -> Option<CourseId>
        ensures { result ≡ self.now.course }
    {
        let _ = &self.cells;
        self.decisions.course
    }

    /// The reservation decided on, or that there is to be none, if that was decided.
    pub fn reservation(&self) -> Option<Option<ReservationId>>
        ensures { result ≡ self.now.reservation }
    {
        let _ = &self.cells;
        self.decisions.reservation
    }

    /// The configuration decided on, if one was.
    pub fn config(&self) -> Option<ConfigId>
        ensures { result ≡ self.now.config }
    {
        let _ = &self.cells;
        self.decisions.config
    }

    /// The sections decided on for the next want.
    pub fn sections(&self) -> Sections
        ensures { result ≡ self.now.sections }
    {
        let _ = &self.cells;
        self.decisions.sections
    }

    /// The path of these choices, with no decision for the next want.
    fn of(done: &[Choice]) -> PathOf<N>
        requires room { length done.now ≤ N }
        requires limit { N ≤ 20 }
        ensures { result ≡ opened done.now }
    {
        let mut path = PathOf::start();
        for choice in done {
            path.push(*choice);
        }
        path
    }

    /// The path of these choices and one more, with no decision for the next want.
    pub fn made(done: &[Choice], choice: Choice) -> PathOf<N>
        requires room { length done.now < N }
        requires limit { N ≤ 20 }
        ensures { result ≡ opened (done.now ++ choice ∷ []) }
    {
        let mut path = PathOf::of(done);
        path.push(choice);
        path
    }

    /// The same path, as a value of its own.
    fn copied(&self) -> PathOf<N>
        ensures { result ≡ self.now }
    {
        let _ = &self.cells;
        let mut path = PathOf::of(self.done());
        path.decisions.course = self.decisions.course;
        path.decisions.reservation = self.decisions.reservation;
        path.decisions.config = self.decisions.config;
        path.decisions.sections = self.decisions.sections;
        path
    }

    /// Puts a choice behind those that are complete.
    fn push(&mut self, choice: Choice)
        requires { length self.old.done < N }
        ensures { self.new ≡ record self.old { done = self.old.done ++ choice ∷ [] } }
    {
        self.cells[usize::from(self.decisions.len)] = choice;
        self.decisions.len += 1;
    }

    /// Makes a choice of the decisions for the want, where a configuration was decided on.
    fn close(&mut self)
        requires { length self.old.done < N }
        ensures { self.new ≡ closed self.old self.old.course self.old.reservation self.old.config }
    {
        if let (Some(course), Some(reservation), Some(config)) = (
            self.decisions.course,
            self.decisions.reservation,
            self.decisions.config,
        ) {
            self.push(Choice {
                course,
                reservation,
                config,
                sections: self.decisions.sections,
            });
            self.decisions.course = None;
            self.decisions.reservation = None;
            self.decisions.config = None;
            self.decisions.sections = Sections::empty();
        }
    }

    /// Puts a section behind the others, and makes a choice of the decisions where as many as are
    /// due are there.
    fn add(&mut self, section: SectionId, due: usize)
        requires sections { length self.old.sections < 6 }
        requires done { length self.old.done < N }
        ensures { self.new ≡ with_section due self.old section }
    {
        self.decisions.sections.push(section);
        if due <= self.decisions.sections.len() {
            self.close();
        }
    }

    /// Makes one decision more, which is one of the options, where it is known how many sections are due.
    pub(crate) fn extend(&mut self, world: &World, mv: &Move, pick: Pick, due: usize)
        requires room { length mv.now.take ≤ N }
        requires option { Contains (options_at world.now.world mv.now self.old) pick }
        requires due { due ≡ sections_due world.now.world self.old.course self.old.config }
        ensures { self.new ≡ extend world.now.world self.old pick }
    {
        let _ = mv;
        world.recall_kept();
        let _ = &self.cells;
        match pick {
            Pick::Course(course) => self.decisions.course = Some(course),
            Pick::Reservation(id) => self.decisions.reservation = Some(id),
            Pick::Config(config) => self.decisions.config = Some(config),
            Pick::Section(section) => self.add(section, due),
        }
    }

    /// The path with one decision more, which is one of its options.
    pub fn extended(&self, world: &World, mv: &Move, pick: Pick) -> PathOf<N>
        requires room { length mv.now.take ≤ N }
        requires option { Contains (options_at world.now.world mv.now self.now) pick }
        ensures { result ≡ extend world.now.world self.now pick }
    {
        let ground = ground_of(world, self.course());
        let subparts = subparts_at(world, self.course(), ground, self.config());
        let mut path = self.copied();
        path.extend(world, mv, pick, subparts.len());
        path
    }
}
