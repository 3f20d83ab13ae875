// The numbers of a world.

ghost use Rattle.std.specs.Prelude.{◌≡◌, true, List};
ghost use Rattle.sect_model.specs.declared.held.Enrolment.{Enrolment as Enrolment_of};
ghost use Rattle.sect_base.specs.declared.ids.ReservationId.{ReservationId as Reservation_id};
ghost use Rattle.sect_model.specs.World.{World, empty_world};
ghost use Rattle.sect_model.specs.Counts.{count_of, counted_of, used_of};
ghost use Rattle.sect_numbers.specs.OneMore.{with_roster, OneMore};
ghost use Rattle.sect_numbers.specs.Numbers.{counts_in, uses_in, has_uses, Ready, Moves, Told};

use crate::tally::{Tally, Turn};
use sect_base::{Level, OfferingId, ReservationId};
use sect_model::Enrolment;
use std::alloc::Global;

/// How many are enrolled at each level, how many of them count towards its limit, and how many are enrolled by each reservation.
pub struct Numbers {
    pub(crate) courses: Tally,
    pub(crate) offerings: Tally,
    pub(crate) configs: Tally,
    pub(crate) sections: Tally,
    pub(crate) uses: Tally,
}

/// It is written out, so that a caller does not prove again how each part is dropped.
impl Drop for Numbers {
    fn drop(self) {
        let Numbers {
            courses: _,
            offerings: _,
            configs: _,
            sections: _,
            uses: _,
        } = self;
    }
}

impl Numbers {
    /// The numbers of no rows. It takes no memory.
    pub fn empty(alloc: Global) -> Numbers
        ensures { Told result empty_world }
    {
        Numbers {
            courses: Tally::empty(alloc),
            offerings: Tally::empty(alloc),
            configs: Tally::empty(alloc),
            sections: Tally::empty(alloc),
            uses: Tally::empty(alloc),
        }
    }

    /// The number of enrolments at the level.
    #[inline(always)]
    pub fn count(&self, level: Level) -> u32
        ensures value { result ≡ (counts_in self.now level).count }
        ensures told { (w : World) → Told self.now w → result ≡ count_of w level }
    {
        match level {
            Level::Course(id) => self.courses.get(id.0).count,
            Level::Offering(id) => self.offerings.get(id.0).count,
            Level::Config(id) => self.configs.get(id.0).count,
            Level::Section(id) => self.sections.get(id.0).count,
        }
    }

    /// The number of enrolments at the level that count towards its limit.
    pub fn counted(&self, level: Level) -> u32
        ensures value { result ≡ (counts_in self.now level).counted }
        ensures told { (w : World) → Told self.now w → result ≡ counted_of w level }
    {
        match level {
            Level::Course(id) => self.courses.get(id.0).counted,
            Level::Offering(id) => self.offerings.get(id.0).counted,
            Level::Config(id) => self.configs.get(id.0).counted,
            Level::Section(id) => self.sections.get(id.0).counted,
        }
    }

    /// The number of enrolments by the reservation.
    pub fn used(&self, id: ReservationId) -> u32
        ensures value { result ≡ (uses_in self.now id).count }
        ensures told { (w : World) → Told self.now w → result ≡ used_of w id }
    {
        self.uses.get(id.0).count
    }

    /// Counts an enrolment that was made, in this offering, and whether it is over the limit. It takes no memory.
    pub fn enrolled(&mut self, enrolment: &Enrolment, offering: Option<OfferingId>, over: bool)
        requires { (w : World) × (more : List Enrolment_of) × Told self.old w × OneMore w more enrolment.now offering over }
        ensures rows { (id : Reservation_id) → has_uses self.new id ≡ has_uses self.old id }
        ensures told { (w : World) (more : List Enrolment_of) → Told self.old w → OneMore w more enrolment.now offering over
            → Told self.new (with_roster w more) }
    {
        self.step(Turn::In, enrolment, offering, over);
    }

    /// Counts an enrolment no more, which was in this offering, and whether it was over the limit. It takes no memory.
    pub fn left(&mut self, enrolment: &Enrolment, offering: Option<OfferingId>, over: bool)
        requires { (w : World) × (more : List Enrolment_of) × Told self.old (with_roster w more) × OneMore w more enrolment.now offering over }
        ensures rows { (id : Reservation_id) → has_uses self.new id ≡ has_uses self.old id }
        ensures told { (w : World) (more : List Enrolment_of) → Told self.old (with_roster w more)
            → OneMore w more enrolment.now offering over → Told self.new w }
    {
        self.step(Turn::Out, enrolment, offering, over);
    }

    /// Counts the enrolment in or out at its course, offering, configuration, sections and reservation.
    #[inline(always)]
    fn step(&mut self, turn: Turn, enrolment: &Enrolment, offering: Option<OfferingId>, over: bool)
        requires { Ready self.old enrolment.now offering }
        ensures { Moves self.old self.new turn enrolment.now offering over }
    {
        let choice = &enrolment.choice;
        self.courses.step(choice.course.0, turn, over);
        if let Some(id) = offering {
            self.offerings.step(id.0, turn, over);
        }
        self.configs.step(choice.config.0, turn, over);
        self.sections
            .step_all(choice.sections.as_slice(), turn, over);
        if let Some(id) = choice.reservation {
            self.uses.step(id.0, turn, true);
        }
    }
}
